//! The steps that combine a running value with one more member.

ghost use Rattle.std.specs.Prelude.{◌≡◌};
ghost use Rattle.quantity.specs.Answers.{IsQuantityAnswer};
ghost use Rattle.frac128.specs.Decimals.{fraction_of_decimal};
ghost use Rattle.tree_eval.specs.Answers.{GivesValueOrFault, IsEvalResult, amount_of_held_value};
ghost use Rattle.tree_eval.specs.Expansion.{scale_operand_step, sign_operand_step};
ghost use Rattle.tree_eval.specs.Operands.{value_with_operand};
ghost use Rattle.tree_eval.specs.Steps as spec;

use crate::answer::{amount_answer, fraction_answer, scaled_answer};
use crate::eval_status::EvalStatus;
use crate::fault::EvalFault;
use crate::held_quantity::Held;
use expr_tree::{Scale, Sign};
use frac128::{Frac, Numeral};
use quantity::{Quantity, QuantityFault};
use std::alloc::Global;

/// How a running value is combined with one more member.
#[derive(Clone, Copy)]
pub enum Step {
    /// Multiplies by the member.
    Multiply,
    /// Divides by the member.
    Divide,
    /// Adds the member.
    Add,
    /// Subtracts the member.
    Subtract,
}

impl Step {
    // The step for a member of a product.
    pub(crate) fn of_scale(scale: Scale) -> Step
        ensures { result ≡ scale_operand_step scale }
    {
        match scale {
            Scale::Multiply => Step::Multiply,
            Scale::Divide => Step::Divide,
        }
    }

    // The step for a member of a sum.
    pub(crate) fn of_sign(sign: Sign) -> Step
        ensures { result ≡ sign_operand_step sign }
    {
        match sign {
            Sign::Plus => Step::Add,
            Sign::Minus => Step::Subtract,
        }
    }

    // Returns the running value combined with one more member. The result reuses the names of the running value.
    pub(crate) fn join(
        self,
        alloc: Global,
        left: Held<'_>,
        right: &Quantity,
    ) -> Result<Quantity, EvalFault>
        ensures { IsEvalResult result (spec.operand_step_value self (amount_of_held_value left.entry) right.now) }
    {
        let left = left.own(alloc)?;
        amount_answer(alloc, self.join_owned(alloc, left, right))
    }

    // Combines the running value with one more member in place. The result reuses the names of an owned factor if it
    // can.
    #[inline(never)]
    pub(crate) fn take_member(
        self,
        alloc: Global,
        held: &mut Held<'_>,
        right: Box<Held<'_>>,
    ) -> EvalStatus
        ensures { GivesValueOrFault (λ _. amount_of_held_value held.new) result
            (spec.operand_step_value self (amount_of_held_value held.old) (amount_of_held_value right.entry.value)) }
    {
        let left = held.take(alloc);
        held.store_value(self.join_held(alloc, left, Box::into_inner(right)))
    }

    // Combines the running value with a numeral in place.
    #[inline(never)]
    pub(crate) fn take_numeral(
        self,
        alloc: Global,
        held: &mut Held<'_>,
        right: &Numeral,
    ) -> EvalStatus
        ensures { GivesValueOrFault (λ _. amount_of_held_value held.new) result
            (value_with_operand self (amount_of_held_value held.old)
            (spec.value_of_number (fraction_of_decimal right.now))) }
    {
        let right = fraction_answer(alloc, right.value())?;
        let left = held.take(alloc);
        held.store_value(self.join_number(alloc, left, &right))
    }

    // Returns the running value combined with one more member. The result reuses the names of an owned factor if it
    // can.
    pub(crate) fn join_held(
        self,
        alloc: Global,
        left: Held<'_>,
        right: Held<'_>,
    ) -> Result<Quantity, EvalFault>
        ensures { IsEvalResult result
            (spec.operand_step_value self (amount_of_held_value left.entry) (amount_of_held_value right.entry)) }
    {
        let left = left.own(alloc)?;
        amount_answer(alloc, self.join_all(alloc, left, right))
    }

    // Returns the running value combined with a number.
    fn join_number(self, alloc: Global, left: Held<'_>, right: &Frac) -> Result<Quantity, EvalFault>
        ensures { IsEvalResult result
            (spec.operand_step_value self (amount_of_held_value left.entry) (spec.plain_number_value right.now)) }
    {
        let left = left.own(alloc)?;
        match self {
            Step::Multiply => scaled_answer(alloc, left.times_number(right)),
            Step::Divide => scaled_answer(alloc, left.over_number(right)),
            _ => {
                let right = Quantity::number(alloc, *right);
                amount_answer(alloc, self.join_owned(alloc, left, &right))
            }
        }
    }

    fn join_all(
        self,
        alloc: Global,
        left: Quantity,
        right: Held<'_>,
    ) -> Result<Quantity, QuantityFault>
        ensures { IsQuantityAnswer result (spec.operand_step self left (amount_of_held_value right.entry)) }
    {
        match self {
            Step::Multiply => right.multiply(alloc, left),
            _ => self.join_owned(alloc, left, right.get()),
        }
    }

    fn join_owned(
        self,
        alloc: Global,
        left: Quantity,
        right: &Quantity,
    ) -> Result<Quantity, QuantityFault>
        ensures { IsQuantityAnswer result (spec.operand_step self left right.now) }
    {
        match self {
            Step::Multiply => left.times(alloc, right),
            Step::Divide => left.over(alloc, right),
            Step::Add => left.plus(alloc, right),
            Step::Subtract => left.minus(alloc, right),
        }
    }
}
