//! The words of an entry.

ghost use Rattle.std.specs.Prelude.{◌≡◌, ◌++◌, ◌∷◌, [], IfOk, OnOk, length, option_map};
ghost use Rattle.std.specs.Option.{option_copied};
ghost use Rattle.expr_tree.specs.Trees.{syntax};
ghost use Rattle.expr_tree.specs.Words.{words_in};
ghost use Rattle.def_entry.specs.Entries.{Function};
ghost use Rattle.def_entry.specs.Views.{entry_definition_view, function_entry_view};
ghost use Rattle.tree_eval.specs.Entries.{eval_tree_words_if};
ghost use Rattle.tree_eval.specs.Expansion.{inverted_eval_word};
ghost use Rattle.live_table.specs.Callees.{AreNodeEntryWords};

use crate::callee::PartStarts;
use def_entry::{FunctionDef, What};
use expr_tree::{Tree, WordKind, WordUse, Words, put_words};
use std::alloc::{AllocError, Global};
use units_io::Text;

/// Overwrites `words` with the words of a definition, tree after tree, and returns the places at which the words of the
/// trees of a function begin. The only error is lack of memory.
pub(crate) fn write_entry_words<'a>(
    alloc: Global,
    words: &mut Words<'a>,
    what: &'a What,
) -> Result<PartStarts, AllocError>
    ensures { IfOk result (λ starts. AreNodeEntryWords (entry_definition_view what.now) words.new starts) }
{
    words.clear();
    match what {
        What::Primitive | What::Dimensionless | What::ListOf(_) => Ok(alone()),
        What::Body(tree) => put_tree(alloc, words, tree),
        What::Function(function) => put_function(alloc, words, function),
        What::Alias(target) => put_alias(alloc, words, target),
        What::Table(table) => put_tree(alloc, words, &table.unit),
    }
}

// The starts for a tree that is the only one.
fn alone() -> PartStarts
    ensures { result ≡ record { out_unit = 0; forward = 0; inverse = 0 } }
{
    PartStarts {
        out_unit: 0,
        forward: 0,
        inverse: 0,
    }
}

// Writes the words of a tree that is the only one.
fn put_tree<'a>(
    alloc: Global,
    words: &mut Words<'a>,
    tree: &'a Tree,
) -> Result<PartStarts, AllocError>
    ensures words { IfOk result (λ _. words.new ≡ words.old ++ words_in (syntax tree.now)) }
    ensures starts { IfOk result (λ starts. starts ≡ record { out_unit = 0; forward = 0; inverse = 0 }) }
{
    put_words(alloc, words, tree)?;
    Ok(alone())
}

// Writes the word of an alias.
fn put_alias<'a>(
    alloc: Global,
    words: &mut Words<'a>,
    target: &'a Text,
) -> Result<PartStarts, AllocError>
    ensures words { IfOk result (λ _. words.new ≡ words.old ++ inverted_eval_word target.now ∷ []) }
    ensures starts { IfOk result (λ starts. starts ≡ record { out_unit = 0; forward = 0; inverse = 0 }) }
{
    words.push(alloc, WordUse::new(target.as_bytes(), WordKind::Inverse))?;
    Ok(alone())
}

// Writes the words of the trees of a function into an empty list.
fn put_function<'a>(
    alloc: Global,
    words: &mut Words<'a>,
    function: &'a FunctionDef,
) -> Result<PartStarts, AllocError>
    requires { words.old ≡ [] }
    ensures { IfOk result (λ starts. AreNodeEntryWords (Function (function_entry_view function.now)) words.new starts) }
{
    let out_unit = put_part(alloc, words, function.in_unit.as_ref())?;
    let forward = put_part(alloc, words, function.out_unit.as_ref())?;
    let inverse = put_part(alloc, words, Some(&function.forward))?;
    put_words_if(alloc, words, function.inverse.as_ref())?;
    Ok(PartStarts {
        out_unit,
        forward,
        inverse,
    })
}

// Appends the words of an optional tree, and returns the start of the words after them.
fn put_part<'a>(
    alloc: Global,
    words: &mut Words<'a>,
    tree: Option<&'a Tree>,
) -> Result<u32, AllocError>
    ensures words { OnOk result
        (words.new ≡ words.old ++ eval_tree_words_if (option_map syntax (option_copied tree.entry))) }
    ensures start { IfOk result (λ start. start ≡ length words.new) }
{
    put_words_if(alloc, words, tree)?;
    start_of(words.len())
}

// Converts a count of words into a start. No memory holds so many words that it would not fit.
fn start_of(count: usize) -> Result<u32, AllocError>
    ensures { IfOk result (λ start. start ≡ count) }
{
    match u32::try_from(count) {
        Ok(start) => Ok(start),
        Err(_) => Err(AllocError),
    }
}

// Appends the words of an optional tree.
fn put_words_if<'a>(
    alloc: Global,
    words: &mut Words<'a>,
    tree: Option<&'a Tree>,
) -> Result<(), AllocError>
    ensures { OnOk result (words.new ≡ words.old ++ eval_tree_words_if (option_map syntax (option_copied tree.entry))) }
{
    match tree {
        Some(tree) => put_words(alloc, words, tree),
        None => Ok(()),
    }
}
