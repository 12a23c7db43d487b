//! Numerals.

ghost use Rattle.std.specs.Prelude.{◌≡◌};
ghost use Rattle.frac128.specs.Decimals.{fraction_of_decimal};
ghost use Rattle.tree_eval.specs.Answers.{GivesValueOrFault, amount_of_held_value};
ghost use Rattle.tree_eval.specs.Steps as spec;

use crate::answer::number_answer;
use crate::eval_status::EvalStatus;
use crate::held_quantity::Held;
use frac128::{Frac, FracFault, Numeral};
use std::alloc::Global;

// Stores the value of a numeral.
#[inline(never)]
pub(crate) fn put_numeral(alloc: Global, x: &Numeral, held: &mut Held<'_>) -> EvalStatus
    ensures { GivesValueOrFault (λ _. amount_of_held_value held.new) result
        (spec.value_of_number (fraction_of_decimal x.now)) }
{
    held.store_value(number_answer(alloc, x.value()))
}

// Stores the quotient of two numerals.
#[inline(never)]
pub(crate) fn put_bar(alloc: Global, x: &Numeral, y: &Numeral, held: &mut Held<'_>) -> EvalStatus
    ensures { GivesValueOrFault (λ _. amount_of_held_value held.new) result
        (spec.value_of_number (spec.numeral_quotient_value x.now y.now)) }
{
    held.store_value(number_answer(alloc, quotient(x, y)))
}

// Returns the quotient of two numerals as a fraction.
pub(crate) fn quotient(x: &Numeral, y: &Numeral) -> Result<Frac, FracFault>
    ensures { result ≡ spec.numeral_quotient_value x.now y.now }
{
    x.value()?.div(&y.value()?)
}
