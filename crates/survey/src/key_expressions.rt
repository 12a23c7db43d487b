//! The expressions of a key that must have values.

ghost use Rattle.std.specs.Prelude.{◌≡◌, ◌++◌, ◌∷◌, [], IfOk, OnOk};
ghost use Rattle.std.specs.Option.{option_map};
ghost use Rattle.def_entry.specs.Tables.{entry_at};
ghost use Rattle.def_entry.specs.Views.{entry_definition_view};
ghost use Rattle.deck.specs.Tables as tables;
ghost use Rattle.expr_tree.specs.Trees.{syntax};
ghost use Rattle.reply.specs.Calls.{inquiry_syntaxes};
ghost use Rattle.survey.specs.Checks as spec;

use deck::Deck;
use def_entry::{Key, Kind, What};
use expr_tree::Tree;
use std::alloc::{AllocError, Global};

/// Returns the expressions of a key that must have values: the word of a unit, the body of a prefix, the units of a
/// function, the parts of a list.
pub(crate) fn valued_trees(alloc: Global, deck: &Deck, key: &Key) -> Result<Vec<Tree>, AllocError>
    ensures { IfOk result (λ trees. inquiry_syntaxes trees.items
        ≡ spec.checked_value_expressions key.now key.now.kind (entry_at (tables.table_of_deck deck.now) key.now)) }
{
    let mut trees = Vec::new(alloc);
    match key.kind {
        Kind::Unit => trees.push(Tree::Word(key.name.copy(alloc)?))?,
        _ => put_entry_trees(alloc, &mut trees, deck, key)?,
    }
    Ok(trees)
}

// Appends the expressions of the entry of a key.
fn put_entry_trees(
    alloc: Global,
    trees: &mut Vec<Tree>,
    deck: &Deck,
    key: &Key,
) -> Result<(), AllocError>
    ensures { OnOk result (inquiry_syntaxes trees.new.items
        ≡ inquiry_syntaxes trees.old.items
        ++ spec.checked_entry_trees (entry_at (tables.table_of_deck deck.now) key.now)) }
{
    match deck.entry(key.kind, key.name.as_bytes()) {
        Some(entry) => put_trees_of(alloc, trees, entry.what),
        None => Ok(()),
    }
}

// Appends the expressions in the definition of a key.
fn put_trees_of(alloc: Global, trees: &mut Vec<Tree>, what: &What) -> Result<(), AllocError>
    ensures { OnOk result (inquiry_syntaxes trees.new.items
        ≡ inquiry_syntaxes trees.old.items ++ spec.checked_key_trees (entry_definition_view what.now)) }
{
    match what {
        What::Body(tree) => put_tree(alloc, trees, tree),
        What::Function(function) => {
            put_if_some(alloc, trees, &function.in_unit)?;
            put_if_some(alloc, trees, &function.out_unit)
        }
        What::Table(table) => put_tree(alloc, trees, &table.unit),
        What::ListOf(parts) => put_trees(alloc, trees, parts.as_slice()),
        What::Primitive | What::Dimensionless | What::Alias(_) => Ok(()),
    }
}

// Appends copies of trees.
fn put_trees(alloc: Global, trees: &mut Vec<Tree>, further: &[Tree]) -> Result<(), AllocError>
    ensures { OnOk result (inquiry_syntaxes trees.new.items ≡ inquiry_syntaxes trees.old.items
        ++ inquiry_syntaxes further.now) }
{
    for tree in further {
        put_tree(alloc, trees, tree)?;
    }
    Ok(())
}

// Appends a copy of a tree, if there is one.
fn put_if_some(alloc: Global, trees: &mut Vec<Tree>, tree: &Option<Tree>) -> Result<(), AllocError>
    ensures { OnOk result (inquiry_syntaxes trees.new.items
        ≡ inquiry_syntaxes trees.old.items ++ spec.checked_tree_if_any (option_map syntax tree.now)) }
{
    match tree {
        Some(tree) => put_tree(alloc, trees, tree),
        None => Ok(()),
    }
}

// Appends a copy of a tree.
fn put_tree(alloc: Global, trees: &mut Vec<Tree>, tree: &Tree) -> Result<(), AllocError>
    ensures { OnOk result (inquiry_syntaxes trees.new.items ≡ inquiry_syntaxes trees.old.items ++ syntax tree.now
        ∷ []) }
{
    trees.push(tree.copy(alloc)?)?;
    Ok(())
}
