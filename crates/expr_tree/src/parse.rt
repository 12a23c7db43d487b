//! The parser.

ghost use Rattle.std.specs.Prelude.{◌≡◌, ◌⊎◌, MatchResult, Ok, Err, Some, None};
ghost use Rattle.std.specs.Option.{option_copied};
ghost use Rattle.expr_tree.specs.Faults.{first_parse_fault};
ghost use Rattle.expr_tree.specs.Grammar.{TokensGiveTree};
ghost use Rattle.expr_tree.specs.Lexemes as spec;
ghost use Rattle.expr_tree.specs.ParseResult.{parse_of};
ghost use Rattle.expr_tree.specs.Trees.{syntax};

use crate::descent::tree_of_tokens;
use crate::fault::ParseFault;
use crate::scan::scan;
use crate::tree::Tree;
use std::alloc::Global;

/// Parses an expression. If a binder is given, it names the argument of a function. Blanks at the ends of the text
/// count in the offset of a fault, so a caller that wants offsets from the first byte that is not a blank trims the
/// text first.
///
/// The fault is that of the first token that has one. `Syntax` has the byte offset of a token that is not allowed at
/// its place, or the length of the text if the text ends too early. `NumeralTooLong` is a numeral that exceeds its
/// limits, and `NestedTooDeep` a token nested deeper than 64. `OutOfMemory` says that an allocation failed.
pub fn parse_expr(alloc: Global, text: &[u8], binder: Option<&[u8]>) -> Result<Tree, ParseFault>
    ensures exact { MatchResult result
        (λ tree. (first_parse_fault text.now ≡ None)
        × TokensGiveTree (option_copied binder.entry) (spec.tokens text.now) (syntax tree))
        (λ fault. (fault ≡ ParseFault.OutOfMemory) ⊎ (first_parse_fault text.now ≡ Some fault)) }
    ensures computed { MatchResult result
        (λ tree. parse_of (option_copied binder.entry) text.now ≡ Ok (syntax tree))
        (λ fault. (fault ≡ ParseFault.OutOfMemory) ⊎ (parse_of (option_copied binder.entry) text.now ≡ Err fault)) }
{
    let tokens = scan(alloc, text)?;
    Ok(tree_of_tokens(alloc, &tokens, binder)?)
}
