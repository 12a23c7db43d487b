//! How the search for a failed step joins the members of an expression.

ghost use Rattle.std.specs.Prelude.{◌≡◌, IfOk};
ghost use Rattle.frac128.specs.Decimals.{fraction_of_decimal};
ghost use Rattle.quantity.specs.Answers.{IsQuantityAnswer};
ghost use Rattle.tree_eval.specs.Expansion.{scale_operand_step, sign_operand_step};
ghost use Rattle.tree_eval.specs.Steps.{operand_step};
ghost use Rattle.value_sources.specs.FailedSteps as spec;
ghost use Rattle.value_sources.specs.Joinings.{IsJoinedUpToFailedStep};

use crate::failure::FailedStep;
use expr_tree::{Quotient, Scale, Sign};
use quantity::{Quantity, QuantityFault};
use std::alloc::{AllocError, Global};
use tree_eval::Step;

/// The state of the search after a part of an expression.
#[derive(Drop)]
pub(crate) enum Progress {
    /// The value so far.
    Value(Quantity),
    /// The search has ended with the failed step, or with `None` if there is none.
    End(Option<FailedStep>),
}

/// Joins one more member to a running value. The first member is the value itself. The only error is lack of memory.
pub(crate) fn join(
    alloc: Global,
    step: Step,
    running: Option<Quantity>,
    member: Progress,
) -> Result<Progress, AllocError>
    ensures { IfOk result (λ joined. IsJoinedUpToFailedStep step running member joined) }
{
    let Progress::Value(member) = member else {
        return Ok(member);
    };
    let Some(left) = running else {
        return Ok(Progress::Value(member));
    };
    match joined_by(alloc, step, &left, &member) {
        Ok(value) => Ok(Progress::Value(value)),
        Err(QuantityFault::OutOfMemory) => Err(AllocError),
        Err(_) => Ok(Progress::End(Some(FailedStep::Joined(step, left, member)))),
    }
}

// Returns the result of a step from one value to another.
fn joined_by(
    alloc: Global,
    step: Step,
    left: &Quantity,
    member: &Quantity,
) -> Result<Quantity, QuantityFault>
    ensures { IsQuantityAnswer result (operand_step step left.now member.now) }
{
    match step {
        Step::Multiply => left.mul(alloc, member),
        Step::Divide => left.div(alloc, member),
        Step::Add => left.add(alloc, member),
        Step::Subtract => left.sub(alloc, member),
    }
}

/// Returns the step from one numeral to its quotient by another, if both have values.
pub(crate) fn quotient_step(alloc: Global, quotient: &Quotient) -> Option<FailedStep>
    ensures { result ≡ spec.failed_step_of_quotient (fraction_of_decimal quotient.now.top)
        (fraction_of_decimal quotient.now.bottom) }
{
    match (quotient.top.value(), quotient.bottom.value()) {
        (Ok(top), Ok(bottom)) => {
            let top = Quantity::number(alloc, top);
            let bottom = Quantity::number(alloc, bottom);
            Some(FailedStep::Joined(Step::Divide, top, bottom))
        }
        _ => None,
    }
}

/// Returns the step to a member of a product.
pub(crate) fn step_of_scale(scale: Scale) -> Step
    ensures { result ≡ scale_operand_step scale }
{
    match scale {
        Scale::Multiply => Step::Multiply,
        Scale::Divide => Step::Divide,
    }
}

/// Returns the step to a member of a sum.
pub(crate) fn step_of_sign(sign: Sign) -> Step
    ensures { result ≡ sign_operand_step sign }
{
    match sign {
        Sign::Plus => Step::Add,
        Sign::Minus => Step::Subtract,
    }
}
