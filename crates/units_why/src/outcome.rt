//! The outcomes of keys.

ghost use Rattle.reply.specs.Options.{AreReplyOptionsPrintable};

use crate::entries::key_at;
use crate::evaluator::Evaluator;
use crate::fault_step::FaultStep;
use def_entry::Key;
use expr_tree::Tree;
use live_table::{LiveTable, QueryFault};
use quantity::Quantity;
use reply::{Options, ReplyFault, fault_text};
use std::alloc::{AllocError, Global};
use std::sync::ledger::Ledger;
use tree_eval::{Outcome as CachedOutcome, ValueFault};
use units_io::Text;
use value_sources::{FailedStep, StoredMention, Walk, value_tree};

/// The outcome of a row.
pub(crate) enum Outcome {
    /// The reduced value of its definition.
    Value(Quantity),
    /// Its definition has no value, although all keys that it mentions have theirs.
    Fault(Box<OwnFault>),
    /// The fault is in a row below.
    FaultBelow,
    /// The key is a function, which has no value of its own.
    Function,
}

// Written by hand, so that code that drops an outcome need not prove anything about its contents.
impl Drop for Outcome {
    fn drop(self) {
        match self {
            Outcome::Value(_) | Outcome::Fault(_) | Outcome::FaultBelow | Outcome::Function => (),
        }
    }
}

/// The fault of a definition: its text, and the step without a value if it is known.
pub(crate) struct OwnFault {
    pub(crate) text: Text,
    pub(crate) step: Option<FaultStep>,
}

// Written by hand, so that code that drops such a fault need not prove anything about its contents.
impl Drop for OwnFault {
    fn drop(self) {
        let OwnFault { text: _, step: _ } = self;
    }
}

/// A borrowed outcome.
#[derive(Clone, Copy)]
pub(crate) enum LentOutcome<'a> {
    Value(&'a Quantity),
    Fault(&'a OwnFault),
    FaultBelow,
    Function,
}

impl Outcome {
    /// Borrows the outcome.
    pub(crate) fn lent(&self) -> LentOutcome<'_> {
        match self {
            Outcome::Value(value) => LentOutcome::Value(value),
            Outcome::Fault(fault) => LentOutcome::Fault(fault),
            Outcome::FaultBelow => LentOutcome::FaultBelow,
            Outcome::Function => LentOutcome::Function,
        }
    }
}

/// Returns the cached value of a key, or `None` if the key has another outcome or none.
pub(crate) fn cached_value<'a>(
    alloc: Global,
    table: &'a LiveTable,
    key: &Key,
) -> Result<Option<&'a Quantity>, AllocError> {
    match table.cached_outcome(alloc, key)? {
        Some(CachedOutcome::Value(value)) => Ok(Some(value)),
        _ => Ok(None),
    }
}

/// Returns the outcome of the key of a row at this depth, which the walk gave last. The fault is below only if the
/// evaluation meets it before a step of the definition itself that has no value.
pub(crate) fn outcome_of<L: Ledger>(
    evaluator: &mut Evaluator<L>,
    options: &Options,
    key: &Key,
    depth: usize,
    walk: &Walk,
) -> Result<Outcome, AllocError>
    requires { AreReplyOptionsPrintable options.now }
{
    let fault = match query_key(evaluator, key)? {
        Queried::Known(outcome) => return Ok(outcome),
        Queried::Fault(fault) => fault,
    };
    let step = step_of_key(evaluator, key)?;
    if step.is_none() && is_fault_below(evaluator, depth, walk)? {
        return Ok(Outcome::FaultBelow);
    }
    own_fault(evaluator.alloc, options, fault, step)
}

// The answer of a query for a key.
#[derive(Drop)]
enum Queried {
    Known(Outcome),
    Fault(ValueFault),
}

// Returns the cached outcome of a key, or queries it.
fn query_key<L: Ledger>(evaluator: &mut Evaluator<L>, key: &Key) -> Result<Queried, AllocError> {
    let alloc = evaluator.alloc;
    match evaluator.table.cached_outcome(alloc, key)? {
        Some(CachedOutcome::Value(value)) => {
            Ok(Queried::Known(Outcome::Value(value.copy(alloc)?)))
        }
        Some(CachedOutcome::Callable) => Ok(Queried::Known(Outcome::Function)),
        Some(CachedOutcome::Fault(fault)) => Ok(Queried::Fault(fault.get().copy(alloc)?)),
        None => ask_key(evaluator, key),
    }
}

// Queries a key without a cached outcome: a name fault ended the query of the expression before it reached the key.
fn ask_key<L: Ledger>(evaluator: &mut Evaluator<L>, key: &Key) -> Result<Queried, AllocError> {
    let Some(tree) = value_tree(evaluator.alloc, evaluator.deck(), key)? else {
        return Ok(Queried::Known(Outcome::Function));
    };
    match evaluator.value(&tree) {
        Ok(value) => Ok(Queried::Known(Outcome::Value(value))),
        Err(QueryFault::Name(_)) => Ok(Queried::Known(Outcome::FaultBelow)),
        Err(QueryFault::Value(fault)) => Ok(Queried::Fault(fault)),
        Err(QueryFault::OutOfMemory) => Err(AllocError),
    }
}

// Returns the fault of the definition of a key itself, with the step that has it.
fn own_fault(
    alloc: Global,
    options: &Options,
    fault: ValueFault,
    step: Option<FailedStep>,
) -> Result<Outcome, AllocError>
    requires { AreReplyOptionsPrintable options.now }
{
    let text = fault_text(alloc, &ReplyFault::Value(fault), options)?;
    let step = FaultStep::of_if(alloc, options, step)?;
    let own = OwnFault { text, step };
    Ok(Outcome::Fault(Box::new(alloc, own)?))
}

// Returns whether a row directly below a row at this depth, which the walk gave last, has a fault.
fn is_fault_below<L: Ledger>(
    evaluator: &mut Evaluator<L>,
    depth: usize,
    walk: &Walk,
) -> Result<bool, AllocError> {
    for mention in walk.pending().iter().rev() {
        if mention.depth() <= depth {
            return Ok(false);
        }
        if has_fault(evaluator, mention)? {
            return Ok(true);
        }
    }
    Ok(false)
}

// Returns whether a word is unknown or refused, or its key has a fault.
fn has_fault<L: Ledger>(
    evaluator: &mut Evaluator<L>,
    mention: &StoredMention,
) -> Result<bool, AllocError> {
    let deck = evaluator.deck();
    let Some(place) = mention.place() else {
        return Ok(true);
    };
    if mention.is_refused(deck) {
        return Ok(true);
    }
    match key_at(evaluator.alloc, deck, place)? {
        Some(key) => has_key_fault(evaluator, &key),
        None => Ok(true),
    }
}

fn has_key_fault<L: Ledger>(evaluator: &mut Evaluator<L>, key: &Key) -> Result<bool, AllocError> {
    match evaluator.table.cached_outcome(evaluator.alloc, key)? {
        Some(CachedOutcome::Fault(_)) => Ok(true),
        Some(CachedOutcome::Value(_) | CachedOutcome::Callable) => Ok(false),
        None => has_queried_fault(evaluator, key),
    }
}

fn has_queried_fault<L: Ledger>(
    evaluator: &mut Evaluator<L>,
    key: &Key,
) -> Result<bool, AllocError> {
    let Some(tree) = value_tree(evaluator.alloc, evaluator.deck(), key)? else {
        return Ok(false);
    };
    Ok(evaluator.value_if_any(&tree)?.is_none())
}

// Returns the step of the definition of a key that has no value, if there is one.
fn step_of_key<L: Ledger>(
    evaluator: &mut Evaluator<L>,
    key: &Key,
) -> Result<Option<FailedStep>, AllocError> {
    match value_tree(evaluator.alloc, evaluator.deck(), key)? {
        Some(tree) => evaluator.failed_step(&tree),
        None => Ok(None),
    }
}

/// Returns the step of an expression that has no value. `None` if the expression has a value, or a name that it reaches
/// is unknown, refused or on a cycle.
pub(crate) fn step_of_tree<L: Ledger>(
    evaluator: &mut Evaluator<L>,
    tree: &Tree,
) -> Result<Option<FailedStep>, AllocError> {
    match evaluator.value(tree) {
        Err(QueryFault::Value(_)) => evaluator.failed_step(tree),
        Err(QueryFault::OutOfMemory) => Err(AllocError),
        Ok(_) | Err(QueryFault::Name(_)) => Ok(None),
    }
}
