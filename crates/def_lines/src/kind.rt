//! The kinds of lines.

ghost use Rattle.std.specs.Prelude.{◌≡◌, true};
ghost use Rattle.def_lines.specs.Kinds as spec;
ghost use Rattle.def_lines.specs.Parts.{directive_takes_rest};
ghost use Rattle.def_lines.specs.KindView.{seen_line_kind};

use crate::blanks::trim_front;
use crate::directive::{Directive, directive_of};
use crate::words::{is_word, split_word};

/// The kind of a line, with its arguments as slices of the line.
#[derive(Clone, Copy)]
pub enum LineKind<'a> {
    /// An empty line.
    Blank,
    /// A line that is not a directive.
    Definition,
    /// Includes another file.
    Include(&'a [u8]),
    /// Starts a block for this locale.
    Locale(&'a [u8]),
    /// Ends a block for a locale.
    EndLocale,
    /// Sets a variable to a value if it has none.
    Set(&'a [u8], &'a [u8]),
    /// Starts a block for a variable that has one of these values.
    Var(&'a [u8], &'a [u8]),
    /// Starts a block for a variable that has none of these values.
    VarNot(&'a [u8], &'a [u8]),
    /// Ends a block for values of a variable.
    EndVar,
    /// Starts a block that always applies.
    Utf8,
    /// Ends a block that always applies.
    EndUtf8,
    /// A text to display, which may be empty.
    Message(&'a [u8]),
    /// A prompt, which is ignored.
    Prompt,
    /// A list of units.
    UnitList,
    /// The word after the `!` is missing or is not a directive.
    UnknownDirective,
    /// The arguments are not those of the directive.
    BadDirective,
}

/// Returns the kind of a line, which need not be trimmed: `Blank` if it is empty, and `Definition` if it does not
/// start with `!`. Blanks after a `!` are skipped, and the first word selects the directive. The kind is
/// `UnknownDirective` if there is no such directive, and `BadDirective` if its arguments are not those that it takes.
#[tactic(auto, unfolding(crate::specs::Kinds::kind_of_line))]
pub fn classify(line: &[u8]) -> LineKind<'_>
    ensures { seen_line_kind result ≡ spec.kind_of_line line.now }
{
    let Some((first, behind)) = line.split_first() else {
        return LineKind::Blank;
    };
    if *first != b'!' {
        return LineKind::Definition;
    }
    let (word, rest) = split_word(trim_front(behind));
    match directive_of(word) {
        Some(directive) => with_arguments(directive, rest),
        None => LineKind::UnknownDirective,
    }
}

// Returns the kind of a directive with the rest of its line.
fn with_arguments(directive: Directive, rest: &[u8]) -> LineKind<'_>
    ensures { seen_line_kind result ≡ spec.with_arguments directive rest.now }
{
    match directive {
        Directive::Include if is_word(rest) => LineKind::Include(rest),
        Directive::Locale if is_word(rest) => LineKind::Locale(rest),
        Directive::EndLocale if rest.is_empty() => LineKind::EndLocale,
        Directive::EndVar if rest.is_empty() => LineKind::EndVar,
        Directive::Utf8 if rest.is_empty() => LineKind::Utf8,
        Directive::EndUtf8 if rest.is_empty() => LineKind::EndUtf8,
        Directive::Set | Directive::Var | Directive::VarNot => with_rest(directive, rest),
        Directive::Message => LineKind::Message(rest),
        Directive::Prompt => LineKind::Prompt,
        Directive::UnitList => LineKind::UnitList,
        _ => LineKind::BadDirective,
    }
}

// Returns the kind of a directive that takes a word and at least one more after it.
fn with_rest(directive: Directive, rest: &[u8]) -> LineKind<'_>
    requires { directive_takes_rest directive ≡ true }
    ensures { seen_line_kind result ≡ spec.with_arguments directive rest.now }
{
    let (word, values) = split_word(rest);
    if values.is_empty() {
        return LineKind::BadDirective;
    }
    match directive {
        Directive::Set => LineKind::Set(word, values),
        Directive::Var => LineKind::Var(word, values),
        _ => LineKind::VarNot(word, values),
    }
}
