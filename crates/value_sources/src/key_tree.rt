//! The expressions whose values are those of keys.

ghost use Rattle.std.specs.Prelude.{◌≡◌, IfOk, option_map};
ghost use Rattle.deck.specs.Tables.{table_of_deck};
ghost use Rattle.def_entry.specs.Views.{entry_definition_view};
ghost use Rattle.expr_tree.specs.Trees.{syntax};
ghost use Rattle.value_sources.specs.Values as spec;

use deck::Deck;
use def_entry::{Key, Kind, What};
use expr_tree::Tree;
use std::alloc::{AllocError, Global};

/// Returns the expression whose value is that of a key: the expression of its definition, or its name if it is a
/// primitive or dimensionless unit. A prefix cannot be queried by its name, because the same word may be a unit.
/// Returns `None` for a function, a list, or a key without an entry. The only error is lack of memory.
pub fn value_tree(alloc: Global, deck: &Deck, key: &Key) -> Result<Option<Tree>, AllocError>
    ensures { IfOk result (λ tree. option_map syntax tree ≡ spec.source_value_syntax (table_of_deck deck.now) key.now) }
{
    match deck.entry(key.kind, key.name.as_bytes()) {
        Some(entry) => tree_in(alloc, key, entry.what),
        None => Ok(None),
    }
}

// Returns the expression whose value is that of a key with this definition.
fn tree_in(alloc: Global, key: &Key, what: &What) -> Result<Option<Tree>, AllocError>
    ensures { IfOk result (λ tree. option_map syntax tree
        ≡ spec.source_syntax_in key.now.kind key.now.name (entry_definition_view what.now)) }
{
    match what {
        What::Primitive | What::Dimensionless => named_unit(alloc, key),
        What::Body(tree) => Ok(Some(tree.copy(alloc)?)),
        What::Function(_) | What::Alias(_) | What::Table(_) | What::ListOf(_) => Ok(None),
    }
}

// Returns the name of a unit as an expression, or `None` for any other key.
fn named_unit(alloc: Global, key: &Key) -> Result<Option<Tree>, AllocError>
    ensures { IfOk result (λ tree. option_map syntax tree ≡ spec.named_source_unit key.now.kind key.now.name) }
{
    match key.kind {
        Kind::Unit => Ok(Some(Tree::Word(key.name.copy(alloc)?))),
        Kind::Prefix | Kind::Func | Kind::List => Ok(None),
    }
}
