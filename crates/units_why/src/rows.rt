//! Writes the rows of a tree.

ghost use Rattle.reply.specs.Options.{AreReplyOptionsPrintable};

use crate::definitions::Definitions;
use crate::key_copy::KeyCopy;
use crate::outcome::{LentOutcome, cached_value, outcome_of};
use crate::places::Places;
use crate::row_json::put_row_json;
use crate::row_note::{RowNotes, Standing};
use crate::row_style::RowStyle;
use crate::row_text::put_row_text;
use crate::row_view::RowView;
use crate::tree::RowTree;
use crate::writer::Writer;
use deck::Deck;
use std::alloc::{AllocError, Global};
use std::sync::ledger::Ledger;
use value_sources::{Row, Walk};

/// The rows of a tree that are not yet written.
pub(crate) struct Rows {
    walk: Walk,
    notes: RowNotes,
    key: KeyCopy,
}

// Written by hand, so that code that drops rows need not prove anything about their contents.
impl Drop for Rows {
    fn drop(self) {
        let Rows {
            walk: _,
            notes: _,
            key: _,
        } = self;
    }
}

impl Rows {
    /// Returns the rows of a tree, or `None` if its text is not an expression.
    pub(crate) fn of(
        alloc: Global,
        deck: &Deck,
        tree: RowTree,
    ) -> Result<Option<Rows>, AllocError> {
        let RowTree { walk, calls, .. } = tree;
        match walk {
            Some(walk) => Ok(Some(Rows {
                walk,
                notes: RowNotes::new(alloc, deck, calls)?,
                key: KeyCopy::new(alloc),
            })),
            None => Ok(None),
        }
    }

    /// Appends the next row. Returns false if there is none.
    pub(crate) fn put_next<L: Ledger>(
        &mut self,
        out: &mut Writer,
        definitions: &mut Definitions<L>,
        style: RowStyle<'_>,
    ) -> Result<bool, AllocError>
        requires { AreReplyOptionsPrintable style.options.now }
    {
        let evaluator = &definitions.evaluator;
        match self.walk.next(evaluator.alloc, evaluator.deck())? {
            Some(row) => {
                self.put(out, definitions, style, &row)?;
                Ok(true)
            }
            None => Ok(false),
        }
    }

    // Appends a row.
    fn put<L: Ledger>(
        &mut self,
        out: &mut Writer,
        definitions: &mut Definitions<L>,
        style: RowStyle<'_>,
        row: &Row,
    ) -> Result<(), AllocError>
        requires { AreReplyOptionsPrintable style.options.now }
    {
        let evaluator = &mut definitions.evaluator;
        let alloc = evaluator.alloc;
        let note = self.notes.note(evaluator, style.options, row)?;
        let key = self
            .key
            .replace_if(alloc, row.mention.key(evaluator.deck()))?;
        let view = RowView {
            mention: &row.mention,
            key,
            note: &note,
            outcome: LentOutcome::Function,
        };
        put_with_outcome(out, definitions, style, &self.walk, view)
    }
}

// Appends the row that the walk gave last, with the outcome of its key.
fn put_with_outcome<L: Ledger>(
    out: &mut Writer,
    definitions: &mut Definitions<L>,
    style: RowStyle<'_>,
    walk: &Walk,
    view: RowView<'_, '_, '_>,
) -> Result<(), AllocError>
    requires { AreReplyOptionsPrintable style.options.now }
{
    let (Standing::Defined(_), Some(key)) = (view.note.standing, view.key) else {
        put_row(out, Places::of(definitions), style, view);
        return Ok(());
    };
    let alloc = definitions.evaluator.alloc;
    if let Some(value) = cached_value(alloc, &*definitions.evaluator.table, key)? {
        let view = view.with_outcome(LentOutcome::Value(value));
        put_row(out, Places::of(definitions), style, view);
        return Ok(());
    }
    let evaluator = &mut definitions.evaluator;
    let outcome = outcome_of(evaluator, style.options, key, view.mention.depth(), walk)?;
    put_row(
        out,
        Places::of(definitions),
        style,
        view.with_outcome(outcome.lent()),
    );
    Ok(())
}

// Appends a row.
fn put_row(out: &mut Writer, places: Places<'_>, style: RowStyle<'_>, view: RowView<'_, '_, '_>)
    requires { AreReplyOptionsPrintable style.options.now }
{
    if style.json {
        put_row_json(out, places, style, view);
    } else {
        put_row_text(out, places, style, view);
    }
}
