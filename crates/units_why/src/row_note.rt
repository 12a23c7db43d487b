//! Finds what a tree shows about its rows.

ghost use Rattle.reply.specs.Options.{AreReplyOptionsPrintable};

use crate::call_trace::{CallTrace, trace_call};
use crate::evaluator::Evaluator;
use crate::open_calls::OpenCalls;
use crate::path::Path;
use deck::Deck;
use expr_tree::Tree;
use reply::Options;
use std::alloc::{AllocError, Global};
use std::sync::ledger::Ledger;
use value_sources::Row;

/// What is known about a row.
pub(crate) struct RowNote {
    pub(crate) standing: Standing,
    /// How the call is evaluated, if the word of the row is a function that is called.
    pub(crate) call: Option<Box<CallTrace>>,
}

// Written by hand, so that code that drops a row note need not prove anything about its contents.
impl Drop for RowNote {
    fn drop(self) {
        let RowNote {
            standing: _,
            call: _,
        } = self;
    }
}

/// How a row relates to the definition of its key.
#[derive(Clone, Copy, Drop)]
pub(crate) enum Standing {
    /// The word is unknown, or the name of a function that is refused.
    Unknown,
    /// The key already has a row above.
    Above,
    /// The key has a row above, and this row is below that row: the definition is on a cycle.
    Cycle,
    /// The line in force of the key is at this place of the deck.
    Defined(usize),
}

/// What must be known of the rows so far to note the next one: those above it, and the calls of their definitions.
pub(crate) struct RowNotes {
    path: Path,
    calls: OpenCalls,
}

// Written by hand, so that code that drops row notes need not prove anything about their contents.
impl Drop for RowNotes {
    fn drop(self) {
        let RowNotes { path: _, calls: _ } = self;
    }
}

impl RowNotes {
    /// Returns the state before the first row of an expression with these calls.
    pub(crate) fn new(
        alloc: Global,
        deck: &Deck,
        calls: OpenCalls,
    ) -> Result<RowNotes, AllocError> {
        let path = Path::new(alloc, deck.lines().len())?;
        Ok(RowNotes { path, calls })
    }

    /// Returns what is known about the next row.
    pub(crate) fn note<L: Ledger>(
        &mut self,
        evaluator: &mut Evaluator<L>,
        options: &Options,
        row: &Row,
    ) -> Result<RowNote, AllocError>
        requires { AreReplyOptionsPrintable options.now }
    {
        self.path.leave(row.mention.depth());
        let standing = self.relation_to_definition(evaluator.deck(), row);
        let call = self.next_trace(evaluator, options, row)?;
        self.path.enter(defined_at(standing))?;
        Ok(RowNote { standing, call })
    }

    // Returns how the call that the word of a row begins is evaluated, if there is one.
    fn next_trace<L: Ledger>(
        &mut self,
        evaluator: &mut Evaluator<L>,
        options: &Options,
        row: &Row,
    ) -> Result<Option<Box<CallTrace>>, AllocError>
        requires { AreReplyOptionsPrintable options.now }
    {
        let deck = evaluator.deck();
        let call = self
            .calls
            .next_call(evaluator.alloc, deck, &self.path, &row.mention)?;
        match call {
            Some(call) => boxed_trace(evaluator, options, &call),
            None => Ok(None),
        }
    }

    // Returns how a row relates to the definition of its key.
    fn relation_to_definition(&self, deck: &Deck, row: &Row) -> Standing {
        let Some(place) = row.mention.place() else {
            return Standing::Unknown;
        };
        if row.mention.is_refused(deck) {
            return Standing::Unknown;
        }
        if row.is_visit {
            return Standing::Defined(place);
        }
        if self.path.is_open(place) {
            return Standing::Cycle;
        }
        Standing::Above
    }
}

// Returns the place of the definition that the rows below a row come from.
fn defined_at(standing: Standing) -> Option<usize> {
    match standing {
        Standing::Defined(place) => Some(place),
        Standing::Unknown | Standing::Above | Standing::Cycle => None,
    }
}

fn boxed_trace<L: Ledger>(
    evaluator: &mut Evaluator<L>,
    options: &Options,
    call: &Tree,
) -> Result<Option<Box<CallTrace>>, AllocError>
    requires { AreReplyOptionsPrintable options.now }
{
    match trace_call(evaluator, options, call)? {
        Some(trace) => Ok(Some(Box::new(evaluator.alloc, trace)?)),
        None => Ok(None),
    }
}
