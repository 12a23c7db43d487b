//! Converts the results of single steps into results of an evaluation.

ghost use Rattle.std.specs.Prelude.{Result};
ghost use Rattle.quantity.specs.Amount.{Amount};
ghost use Rattle.quantity.specs.Answers.{IsQuantityAnswer, IsQuantityStepOnNumbers};
ghost use Rattle.quantity.specs.declared.fault.QuantityFault.{QuantityFault as StepFault};
ghost use Rattle.tree_eval.specs.Answers.{IsEvalResult};
ghost use Rattle.tree_eval.specs.Steps as spec;

use crate::fault::EvalFault;
use frac128::{Frac, FracFault};
use quantity::{Quantity, QuantityFault};
use std::alloc::Global;

// Converts the result of a step on fractions.
pub(crate) fn fraction_answer(
    alloc: Global,
    answer: Result<Frac, FracFault>,
) -> Result<Frac, EvalFault>
    ensures { IsEvalResult result (spec.fraction_step_value answer) }
{
    match answer {
        Ok(x) => Ok(x),
        Err(fault) => Err(EvalFault::of_number(alloc, fault)),
    }
}

// Converts the result of a step on fractions into a number without exponents.
pub(crate) fn number_answer(
    alloc: Global,
    answer: Result<Frac, FracFault>,
) -> Result<Quantity, EvalFault>
    ensures { IsEvalResult result (spec.value_of_number answer) }
{
    match answer {
        Ok(x) => Ok(Quantity::number(alloc, x)),
        Err(fault) => Err(EvalFault::of_number(alloc, fault)),
    }
}

// Converts the result of a step on quantities whose only faults are those of its numbers.
pub(crate) fn scaled_answer(
    alloc: Global,
    answer: Result<Quantity, FracFault>,
) -> Result<Quantity, EvalFault>
    ensures { (expected : Result Amount StepFault) → IsQuantityStepOnNumbers answer expected
        → IsEvalResult result (spec.value_of_quantity_step expected) }
{
    match answer {
        Ok(q) => Ok(q),
        Err(fault) => Err(EvalFault::of_number(alloc, fault)),
    }
}

// Converts the result of a step on quantities.
pub(crate) fn amount_answer(
    alloc: Global,
    answer: Result<Quantity, QuantityFault>,
) -> Result<Quantity, EvalFault>
    ensures { (expected : Result Amount StepFault) → IsQuantityAnswer answer expected
        → IsEvalResult result (spec.value_of_quantity_step expected) }
{
    match answer {
        Ok(q) => Ok(q),
        Err(fault) => Err(EvalFault::of_step(alloc, fault)),
    }
}
