//! Powers and roots.

ghost use Rattle.quantity.specs.Powers.{quantity_power};
ghost use Rattle.tree_eval.specs.Answers.{GivesValueOrFault, IsEvalResult, amount_of_held_value};
ghost use Rattle.tree_eval.specs.Steps as spec;

use crate::answer::{amount_answer, number_answer};
use crate::eval_status::EvalStatus;
use crate::fault::EvalFault;
use crate::held_quantity::Held;
use expr_tree::RootKind;
use frac128::Frac;
use quantity::Quantity;
use std::alloc::Global;

// Replaces the held quantity by its power.
#[inline(never)]
pub(crate) fn take_power(alloc: Global, held: &mut Held<'_>, exponent: Box<Held<'_>>) -> EvalStatus
    ensures { GivesValueOrFault (λ _. amount_of_held_value held.new) result (spec.value_of_quantity_step
        (quantity_power (amount_of_held_value held.old) (amount_of_held_value exponent.entry.value))) }
{
    let base = held.take(alloc);
    held.store_value(power(alloc, base, exponent.get()))
}

// Replaces the held quantity by its root of the given kind.
#[inline(never)]
pub(crate) fn take_root(alloc: Global, kind: RootKind, held: &mut Held<'_>) -> EvalStatus
    ensures { GivesValueOrFault (λ _. amount_of_held_value held.new) result
        (spec.root_value kind (amount_of_held_value held.old)) }
{
    let base = held.take(alloc);
    held.store_value(root(alloc, kind, base))
}

// Returns a power. It reuses the names of its base.
fn power(alloc: Global, base: Held<'_>, exponent: &Quantity) -> Result<Quantity, EvalFault>
    ensures { IsEvalResult result
        (spec.value_of_quantity_step (quantity_power (amount_of_held_value base.entry) exponent.now)) }
{
    let base = base.own(alloc)?;
    amount_answer(alloc, base.into_power(alloc, exponent))
}

// Returns the root of the given kind.
fn root(alloc: Global, kind: RootKind, base: Held<'_>) -> Result<Quantity, EvalFault>
    ensures { IsEvalResult result (spec.root_value kind (amount_of_held_value base.entry)) }
{
    let exponent = number_answer(alloc, Frac::new(1, i128::from(kind.degree())))?;
    power(alloc, base, &exponent)
}
