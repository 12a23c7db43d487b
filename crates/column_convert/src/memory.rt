//! The values remembered between rows.

ghost use Rattle.std.specs.Prelude.{◌≡◌, IfOk, IfSome, OnOk};
ghost use Rattle.reply.specs.Options.{AreReplyOptionsPrintable};
ghost use Rattle.column_convert.specs.CachedValues as spec;

use crate::cached_values::{Known, ask_values, product};
use crate::cell::{Cell, cell_of, cell_options, product_text};
use crate::signed_number::{Signed, WrittenNumber};
use def_lines::trim;
use live_table::LiveTable;
use reply::{Question, comparison_reply};
use std::alloc::{AllocError, Global};
use std::sync::ledger::Ledger;
use units_io::Steps;

/// The values remembered between rows.
#[derive(Drop)]
pub(crate) struct Memory {
    pub(crate) known: Option<Known>,
    // the values of FROM and TO were queried in vain
    pub(crate) is_vain: bool,
}

impl Memory {
    /// Returns an empty memory.
    pub(crate) fn new() -> Memory
        ensures { spec.IsCellRecallEmpty result }
    {
        Memory {
            known: None,
            is_vain: false,
        }
    }

    /// Forgets the values, because other queries follow.
    pub(crate) fn forget(&mut self)
        ensures { spec.IsCellRecallEmpty self.new }
    {
        self.known = None;
    }

    /// Queries the values of FROM and TO, unless they are known or were queried in vain. The only error is running out
    /// of memory.
    pub(crate) fn recall<L: Ledger>(
        &mut self,
        alloc: Global,
        table: &mut LiveTable,
        question: &Question<'_>,
        n: &Signed,
        steps: &mut Steps<L>,
    ) -> Result<(), AllocError>
        requires { spec.IsCellRecallRight table.old question.now.from.now question.now.to.now self.old }
        ensures known { OnOk result
            (spec.IsCellRecallRight table.new question.now.from.now question.now.to.now self.new) }
        ensures asked { spec.AreCellQueriesOfNumberBegun n.now question.now.from.now question.now.to.now result
            table.old table.new steps.old steps.new }
        ensures deck { table.new.deck ≡ table.old.deck }
    {
        // The cached outcomes are right, even if no query is made.
        table.outcomes_are_right();
        if self.is_vain || self.known.is_some() {
            return Ok(());
        }
        let known = ask_values(alloc, table, question, n, steps)?;
        self.is_vain = known.is_none();
        self.known = known;
        Ok(())
    }

    /// Returns the cell of a number from the known values, without a query, or `None` if no values are known or if the
    /// number or its product has a fault. The only error is running out of memory.
    pub(crate) fn cell(
        &self,
        alloc: Global,
        question: &Question<'_>,
        number: &WrittenNumber<'_>,
    ) -> Result<Option<Cell>, AllocError>
        requires { AreReplyOptionsPrintable question.now.options.now }
        ensures { IfOk result (λ cell. IfSome cell (λ cell.
            spec.IsRememberedCell question.now.options.now self.now question.now.from.now question.now.to.now
            number.now.text.now number.now.signed cell)) }
    {
        match &self.known {
            Some(known) => known_cell(alloc, known, question, number),
            None => Ok(None),
        }
    }
}

// Returns the cell of a number from the known values of FROM and TO.
fn known_cell(
    alloc: Global,
    known: &Known,
    question: &Question<'_>,
    number: &WrittenNumber<'_>,
) -> Result<Option<Cell>, AllocError>
    requires { AreReplyOptionsPrintable question.now.options.now }
    ensures { IfOk result (λ cell. IfSome cell (λ cell.
        spec.IsKnownCell question.now.options.now known.now question.now.from.now question.now.to.now
        number.now.text.now number.now.signed cell)) }
{
    let Some(x) = product(alloc, &number.signed, &known.from_value)? else {
        return Ok(None);
    };
    let options = cell_options(question.options);
    let asked = product_text(alloc, number.text, question.from)?;
    let to = trim(question.to);
    let comparison = Question {
        options: &options,
        from: asked.as_bytes(),
        to,
    };
    let reply = comparison_reply(alloc, &comparison, x, &known.to_value)?;
    Ok(Some(cell_of(alloc, &reply)?))
}
