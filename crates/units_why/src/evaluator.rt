//! Evaluates expressions over the table of a run.

ghost use Rattle.reply.specs.Options.{AreReplyOptionsPrintable};

use deck::Deck;
use expr_tree::Tree;
use live_table::{LiveTable, QueryFault};
use quantity::Quantity;
use reply::{Options, ReplyFault, fault_text};
use std::alloc::{AllocError, Global};
use std::sync::ledger::Ledger;
use survey::{KeyCheck, put_check_block};
use units_io::{Steps, Text};
use value_sources::{FailedStep, failed_step};

/// The table of a run, the memory of its queries, and the count of their steps.
pub(crate) struct Evaluator<L: Ledger> {
    pub(crate) alloc: Global,
    // In a box, since a function that reaches a field of an evaluator is proved with the layout of all its fields.
    pub(crate) table: Box<LiveTable>,
    pub(crate) steps: Steps<L>,
}

// Written by hand, so that code that drops an evaluator need not prove anything about its contents.
impl<L: Ledger> Drop for Evaluator<L> {
    fn drop(self) {
        let Evaluator {
            alloc: _,
            table: _,
            steps: _,
        } = self;
    }
}

/// The value of an expression, or the text of its fault.
#[derive(Drop)]
pub(crate) enum Evaluated {
    Value(Quantity),
    Fault(Text),
}

impl<L: Ledger> Evaluator<L> {
    /// Returns the deck of the table.
    pub(crate) fn deck(&self) -> &Deck {
        self.table.deck()
    }

    /// Returns the value of an expression, or its fault.
    pub(crate) fn value(&mut self, tree: &Tree) -> Result<Quantity, QueryFault> {
        self.table.value(self.alloc, tree, &mut self.steps)
    }

    /// Returns the value of an expression, or `None` if it has a fault. Fails only if memory runs out.
    pub(crate) fn value_if_any(&mut self, tree: &Tree) -> Result<Option<Quantity>, AllocError> {
        self.table.value_if_any(self.alloc, tree, &mut self.steps)
    }

    /// Returns the value of a word, or `None` if it has a fault. Fails only if memory runs out.
    pub(crate) fn word_value(&mut self, word: &Text) -> Result<Option<Quantity>, AllocError> {
        let word = Tree::Word(word.copy(self.alloc)?);
        self.value_if_any(&word)
    }

    /// Returns the step of an expression without a value, if there is one. Fails only if memory runs out.
    pub(crate) fn failed_step(&mut self, tree: &Tree) -> Result<Option<FailedStep>, AllocError> {
        failed_step(self.alloc, &mut *self.table, tree, &mut self.steps)
    }

    /// Appends the line of a check report for the key whose line in force is at `place`, if the key has a fault.
    pub(crate) fn put_check(
        &mut self,
        lines: &mut Vec<u8>,
        options: &Options,
        place: usize,
    ) -> Result<(), AllocError>
        requires { AreReplyOptionsPrintable options.now }
    {
        // The cached outcomes in the table are correct.
        self.table.outcomes_are_right();
        let table = &mut *self.table;
        let steps = &mut self.steps;
        let places = [place];
        let check = KeyCheck {
            options,
            places: places.as_slice(),
        };
        let _ = put_check_block(self.alloc, lines, table, &check, steps)?;
        Ok(())
    }

    /// Evaluates an expression. Fails only if memory runs out.
    pub(crate) fn evaluate(
        &mut self,
        options: &Options,
        tree: &Tree,
    ) -> Result<Evaluated, AllocError>
        requires { AreReplyOptionsPrintable options.now }
    {
        let fault = match self.value(tree) {
            Ok(value) => return Ok(Evaluated::Value(value)),
            Err(QueryFault::Name(fault)) => ReplyFault::Name(fault),
            Err(QueryFault::Value(fault)) => ReplyFault::Value(fault),
            Err(QueryFault::OutOfMemory) => return Err(AllocError),
        };
        Ok(Evaluated::Fault(fault_text(self.alloc, &fault, options)?))
    }
}
