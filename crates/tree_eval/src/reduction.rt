//! Computes the outcome of a single name.

ghost use Rattle.std.specs.Prelude.{◌≡◌, ◌+◌, IfOk};
ghost use Rattle.def_entry.specs.Views.{entry_definition_view};
ghost use Rattle.tree_eval.specs.Entries.{evaluated_meaning};
ghost use Rattle.tree_eval.specs.Environment.{HasEvalAliasTarget, HoldsEvalWords};
ghost use Rattle.tree_eval.specs.Outcomes.{outcome_of_eval_meaning};
ghost use Rattle.tree_eval.specs.WordValues.{IsStoredValueOutcome};

use crate::env::Env;
use crate::fault::EvalFault;
use crate::holder::{Holder, Part};
use crate::outcome::Outcome;
use crate::scope::eval;
use def_entry::What;
use quantity::Quantity;
use std::alloc::{AllocError, Global};
use std::sync::ledger::Ledger;
use units_io::Steps;

/// Returns the outcome of the name with number `id`, which is defined by `what`, in one step. The only error is lack of
/// memory: a fault of the value is an outcome.
pub fn reduce<E: Env, L: Ledger>(
    alloc: Global,
    env: &E,
    id: usize,
    name: &[u8],
    what: &What,
    steps: &mut Steps<L>,
) -> Result<Outcome, AllocError>
    requires words { HoldsEvalWords (E.words env.now) id (entry_definition_view what.now) }
    requires target { HasEvalAliasTarget (E.means env.now) (entry_definition_view what.now) }
    ensures outcome { IfOk result (λ outcome. outcome
        ≡ outcome_of_eval_meaning (evaluated_meaning (E.means env.now) name.now (entry_definition_view what.now))) }
    ensures steps { steps.new ≡ steps.old + 1 }
{
    steps.tick();
    match what {
        What::Primitive => Ok(Outcome::Value(Quantity::one(alloc, name)?)),
        What::Dimensionless | What::ListOf(_) => Ok(Outcome::Value(Quantity::unity(alloc))),
        What::Body(tree) => to_outcome(eval(alloc, env, Holder::Of(id, Part::Body), tree, None)),
        What::Function(_) | What::Alias(_) | What::Table(_) => Ok(Outcome::Callable),
    }
}

// Turns a value or a fault into an outcome.
fn to_outcome(value_or_fault: Result<Quantity, EvalFault>) -> Result<Outcome, AllocError>
    ensures { IsStoredValueOutcome result value_or_fault }
{
    match value_or_fault {
        Ok(q) => Ok(Outcome::Value(q)),
        Err(EvalFault::Value(fault)) => Ok(Outcome::Fault(fault)),
        Err(EvalFault::OutOfMemory) => Err(AllocError),
    }
}
