//! Evaluation of words by their meanings in the environment.

ghost use Rattle.std.specs.Prelude.{◌≢◌};
ghost use Rattle.tree_eval.specs.Answers as answer;
ghost use Rattle.tree_eval.specs.Operands.{value_with_operand};
ghost use Rattle.tree_eval.specs.Outcomes.{value_in_outcome};
ghost use Rattle.tree_eval.specs.WordValues as spec;

use crate::env::Env;
use crate::eval_status::EvalStatus;
use crate::fault::EvalFault;
use crate::held_quantity::Held;
use crate::meaning::Meaning;
use crate::outcome::{Outcome, quantity_of};
use crate::refusal::Refusal;
use crate::step::Step;
use quantity::Quantity;
use std::alloc::Global;

// Returns the value of a single word: the value of a name, a prefix times a unit, or the fault of a function without an
// argument.
fn value_of_word<'a, E: Env>(
    alloc: Global,
    env: &'a E,
    meaning: Meaning<'a>,
) -> Result<Held<'a>, EvalFault>
    requires { spec.IsUsableEvalMeaning (E.has env.now) meaning }
    ensures { answer.GivesValueOrFault answer.amount_of_held_value result
        (spec.reported_word_value (E.callee env.now) meaning.entry) }
{
    match meaning {
        Meaning::One(outcome) => Ok(Held::Lent(quantity_of(alloc, outcome)?)),
        Meaning::Two(prefix, unit) => Ok(Held::Own(both(alloc, prefix, unit)?)),
        Meaning::Function(id) => Err(Refusal::NeedsArgument.by(alloc, env.function_name(id))),
    }
}

// Stores the value of a single word.
#[inline(never)]
pub(crate) fn put_word<'a, E: Env>(
    alloc: Global,
    env: &'a E,
    meaning: Meaning<'a>,
    held: &mut Held<'a>,
) -> EvalStatus
    requires { spec.IsUsableEvalMeaning (E.has env.now) meaning }
    ensures { answer.GivesValueOrFault (λ _. answer.amount_of_held_value held.new) result
        (spec.reported_word_value (E.callee env.now) meaning.entry) }
{
    *held = value_of_word(alloc, env, meaning)?;
    EvalStatus::success()
}

// Combines the running value with a single word in place.
#[inline(never)]
pub(crate) fn take_word<'a, E: Env>(
    alloc: Global,
    env: &'a E,
    held: &mut Held<'a>,
    step: Step,
    meaning: Meaning<'a>,
) -> EvalStatus
    requires { spec.IsUsableEvalMeaning (E.has env.now) meaning }
    ensures { answer.GivesValueOrFault (λ _. answer.amount_of_held_value held.new) result
        (value_with_operand step (answer.amount_of_held_value held.old)
        (spec.reported_word_value (E.callee env.now) meaning.entry)) }
{
    let left = held.take(alloc);
    held.store_value(join_word(alloc, env, left, step, meaning))
}

// Returns the running value combined with a single word. The value of a name is used without a copy.
pub(crate) fn join_word<'a, E: Env>(
    alloc: Global,
    env: &'a E,
    left: Held<'a>,
    step: Step,
    meaning: Meaning<'a>,
) -> Result<Quantity, EvalFault>
    requires { spec.IsUsableEvalMeaning (E.has env.now) meaning }
    ensures { answer.IsEvalResult result (value_with_operand step (answer.amount_of_held_value left.entry)
        (spec.reported_word_value (E.callee env.now) meaning.entry)) }
{
    match meaning {
        Meaning::One(Outcome::Value(q)) => step.join(alloc, left, q),
        _ => step.join_held(alloc, left, value_of_word(alloc, env, meaning)?),
    }
}

// Returns a prefix times a unit.
fn both(alloc: Global, prefix: &Outcome, unit: &Outcome) -> Result<Quantity, EvalFault>
    requires prefix { prefix.now ≢ Outcome.Callable }
    requires unit { unit.now ≢ Outcome.Callable }
    ensures { answer.IsEvalResult result
        (spec.prefix_and_unit_value (value_in_outcome prefix.now) (value_in_outcome unit.now)) }
{
    let prefix = quantity_of(alloc, prefix)?;
    let unit = quantity_of(alloc, unit)?;
    Step::Multiply.join(alloc, Held::Lent(prefix), unit)
}
