//! Functions, aliases and tables, and their inverses.

ghost use Rattle.std.specs.Prelude.{◌≡◌, ◌<◌, IsTrue, Some, length, option_map, slice_get};
ghost use Rattle.def_entry.specs.Entries as entry;
ghost use Rattle.def_entry.specs.Views.{function_entry_view, table_entry_view};
ghost use Rattle.expr_tree.specs.declared.word_list.WordUse.{WordUse};
ghost use Rattle.expr_tree.specs.Trees.{syntax};
ghost use Rattle.tree_eval.specs.Answers.{GivesValueOrFault, IsEvalResult, amount_of_held_value};
ghost use Rattle.tree_eval.specs.Directions.{HasCallableRank, direction_value};
ghost use Rattle.tree_eval.specs.Ends.{value_tested_at_end};
ghost use Rattle.tree_eval.specs.Entries.{eval_tree_words_if};
ghost use Rattle.tree_eval.specs.Expansions as expanded;
ghost use Rattle.tree_eval.specs.Expansion.{expand_if};
ghost use Rattle.tree_eval.specs.Value as spec;

use crate::direction::Direction;
use crate::end::End;
use crate::env::Env;
use crate::eval_status::EvalStatus;
use crate::fault::EvalFault;
use crate::held_quantity::{Held, lend_quantity};
use crate::holder::{Holder, Part};
use crate::meaning::Meaning;
use crate::refusal::Refusal;
use crate::scope::evaluate_holder;
use crate::step::Step;
use crate::table::{looked_up, number_in_unit};
use def_entry::{FunctionDef, TableDef, What};
use quantity::Quantity;
use std::alloc::Global;

// The greatest rank of a function that may be called.
const MOST_RANK: u32 = 16;

/// Returns the value of a function, an alias or a table at an argument. Fails with `Value` and the first of these
/// faults: `CallsTooDeep` if its rank is above 16; for a function, `WrongArgument` if the argument does not conform to
/// the in unit, or is not a number although there is only a domain, `NotInDomain` if the argument is outside the
/// domain, the first fault of its expression, and `WrongResult` or `NotInRange` if the result fails the same checks by
/// the out unit and the range; for an alias, the faults of its target; for a table, `WrongArgument` if the argument is
/// not a number, `OutsideTable` if no segment holds it, and a fault of a step. A fault of a unit occurs when the unit
/// is first needed. Fails with `OutOfMemory` if memory runs out.
pub fn apply<E: Env>(
    alloc: Global,
    env: &E,
    id: usize,
    arg: &Quantity,
) -> Result<Quantity, EvalFault>
    requires { IsTrue (E.has env.now id) }
    ensures { IsEvalResult result (spec.value_at (E.callee env.now id) arg.now) }
{
    take(alloc, env, Direction::Forward, id, arg)
}

/// Returns the inverse of a function, an alias or a table at a value. Fails with `Value` and the first of these faults:
/// `CallsTooDeep` if its rank is above 16; for a function, `NoInverse` if it has no inverse, `WrongArgument` or
/// `NotInRange` if the value does not conform to the out unit or is outside the range, the first fault of its inverse,
/// and `WrongResult` or `NotInDomain` if the result fails the same checks by the in unit and the domain; for an alias,
/// the faults of its target; for a table, `WrongArgument` if the value does not conform to its unit, `OutsideTable` if
/// no segment holds it, and a fault of a step. A fault of a unit occurs when the unit is first needed. Fails with
/// `OutOfMemory` if memory runs out.
pub fn unapply<E: Env>(
    alloc: Global,
    env: &E,
    id: usize,
    value: &Quantity,
) -> Result<Quantity, EvalFault>
    requires { IsTrue (E.has env.now id) }
    ensures { IsEvalResult result (spec.inverse_value_at (E.callee env.now id) value.now) }
{
    take(alloc, env, Direction::Inverse, id, value)
}

// Replaces the held quantity by the value of a function there, in the given direction.
#[cycle(eval)]
#[inline(never)]
pub(crate) fn put_taken<E: Env>(
    alloc: Global,
    env: &E,
    direction: Direction,
    id: usize,
    held: &mut Held<'_>,
) -> EvalStatus
    requires { IsTrue (E.has env.now id) }
    ensures { GivesValueOrFault (λ _. amount_of_held_value held.new) result
        (direction_value direction (E.callee env.now id) (amount_of_held_value held.old)) }
{
    let value = take(alloc, env, direction, id, held.get());
    held.store_value(value)
}

// Evaluates a function, an alias or a table in the given direction.
#[cycle(eval)]
pub(crate) fn take<E: Env>(
    alloc: Global,
    env: &E,
    direction: Direction,
    id: usize,
    at: &Quantity,
) -> Result<Quantity, EvalFault>
    requires { IsTrue (E.has env.now id) }
    ensures { IsEvalResult result (direction_value direction (E.callee env.now id) at.now) }
{
    if env.rank(id) > MOST_RANK {
        return Err(Refusal::CallsTooDeep.by(alloc, env.function_name(id)));
    }
    match env.function(id) {
        What::Function(f) => match direction {
            Direction::Forward => apply_function(alloc, env, id, f, at),
            Direction::Inverse => unapply_function(alloc, env, id, f, at),
        },
        What::Alias(_) => take(alloc, env, direction, target_of(env, id), at),
        What::Table(table) => match direction {
            Direction::Forward => apply_table(alloc, env, id, table, at),
            Direction::Inverse => unapply_table(alloc, env, id, table, at),
        },
        _ => unreachable!(),
    }
}

// Evaluates a function at an argument.
#[cycle(eval)]
fn apply_function<E: Env>(
    alloc: Global,
    env: &E,
    id: usize,
    f: &FunctionDef,
    arg: &Quantity,
) -> Result<Quantity, EvalFault>
    requires has { IsTrue (E.has env.now id) }
    requires is { HasCallableRank (E.words env.now) (E.means env.now) id (E.callee env.now id)
        (entry.Function (function_entry_view f.now)) }
    ensures { IsEvalResult result (spec.value_at (E.callee env.now id) arg.now) }
{
    check_end(alloc, env, id, &End::argument(f), arg)?;
    let holder = Holder::Of(id, Part::Forward);
    let result = evaluate_holder(alloc, env, holder, &f.forward, Some(arg))?;
    own_at_end(alloc, env, id, &End::result(f), result)
}

// Evaluates the inverse of a function at a value.
#[cycle(eval)]
fn unapply_function<E: Env>(
    alloc: Global,
    env: &E,
    id: usize,
    f: &FunctionDef,
    value: &Quantity,
) -> Result<Quantity, EvalFault>
    requires has { IsTrue (E.has env.now id) }
    requires is { HasCallableRank (E.words env.now) (E.means env.now) id (E.callee env.now id)
        (entry.Function (function_entry_view f.now)) }
    ensures { IsEvalResult result (spec.inverse_value_at (E.callee env.now id) value.now) }
{
    let Some(inverse) = &f.inverse else {
        return Err(Refusal::NoInverse.by(alloc, env.function_name(id)));
    };
    check_end(alloc, env, id, &End::value(f), value)?;
    let holder = Holder::Of(id, Part::Inverse);
    let result = evaluate_holder(alloc, env, holder, inverse, Some(value))?;
    own_at_end(alloc, env, id, &End::inverse(f), result)
}

// Returns a quantity that meets the requirements of one end of a function, copied if it is borrowed.
#[cycle(eval)]
fn own_at_end<E: Env>(
    alloc: Global,
    env: &E,
    id: usize,
    end: &End<'_>,
    held: Held<'_>,
) -> Result<Quantity, EvalFault>
    requires has { IsTrue (E.has env.now id) }
    requires words { E.words env.now (Holder.Of id end.now.part)
        ≡ eval_tree_words_if (option_map syntax end.now.unit.now) }
    ensures { IsEvalResult result (value_tested_at_end (expanded.eval_callable_name (E.callee env.now id))
        (spec.optional_unit_value (expand_if (E.means env.now) (option_map syntax end.now.unit.now))) end.now
        (amount_of_held_value held.entry)) }
{
    check_end(alloc, env, id, end, held.get())?;
    Ok(held.own(alloc)?)
}

// Checks that a quantity meets the requirements of one end of a function.
#[cycle(eval)]
fn check_end<E: Env>(
    alloc: Global,
    env: &E,
    id: usize,
    end: &End<'_>,
    q: &Quantity,
) -> Result<(), EvalFault>
    requires has { IsTrue (E.has env.now id) }
    requires words { E.words env.now (Holder.Of id end.now.part)
        ≡ eval_tree_words_if (option_map syntax end.now.unit.now) }
    ensures { GivesValueOrFault (λ _. q.now) result
        (value_tested_at_end (expanded.eval_callable_name (E.callee env.now id))
        (spec.optional_unit_value (expand_if (E.means env.now) (option_map syntax end.now.unit.now))) end.now q.now) }
{
    let holder = Holder::Of(id, end.part);
    let unit = match end.unit {
        Some(unit) => Some(evaluate_holder(alloc, env, holder, unit, None)?),
        None => None,
    };
    end.check(alloc, env.function_name(id), lend_quantity(&unit), q)
}

// Evaluates a table at an argument.
#[cycle(eval)]
fn apply_table<E: Env>(
    alloc: Global,
    env: &E,
    id: usize,
    table: &TableDef,
    arg: &Quantity,
) -> Result<Quantity, EvalFault>
    requires has { IsTrue (E.has env.now id) }
    requires is { HasCallableRank (E.words env.now) (E.means env.now) id (E.callee env.now id)
        (entry.Table (table_entry_view table.now)) }
    ensures { IsEvalResult result (spec.value_at (E.callee env.now id) arg.now) }
{
    let name = env.function_name(id);
    if !arg.is_number() {
        return Err(Refusal::WrongArgument.by(alloc, name));
    }
    let holder = Holder::Of(id, Part::TableUnit);
    let unit = evaluate_holder(alloc, env, holder, &table.unit, None)?;
    let y = looked_up(alloc, name, table.points.at(&arg.value()))?;
    Step::Multiply.join(alloc, Held::Own(y), unit.get())
}

// Evaluates the inverse of a table at a value.
#[cycle(eval)]
fn unapply_table<E: Env>(
    alloc: Global,
    env: &E,
    id: usize,
    table: &TableDef,
    value: &Quantity,
) -> Result<Quantity, EvalFault>
    requires has { IsTrue (E.has env.now id) }
    requires is { HasCallableRank (E.words env.now) (E.means env.now) id (E.callee env.now id)
        (entry.Table (table_entry_view table.now)) }
    ensures { IsEvalResult result (spec.inverse_value_at (E.callee env.now id) value.now) }
{
    let name = env.function_name(id);
    let holder = Holder::Of(id, Part::TableUnit);
    let unit = evaluate_holder(alloc, env, holder, &table.unit, None)?;
    let y = number_in_unit(alloc, name, unit.get(), value)?;
    looked_up(alloc, name, table.points.back(&y.value()))
}

// Returns the number of the function that an alias names.
fn target_of<E: Env>(env: &E, id: usize) -> usize
    requires has { IsTrue (E.has env.now id) }
    requires some { 0 < length (E.words env.now (Holder.Of id Part.Forward)) }
    requires word { (u : WordUse) → slice_get (E.words env.now (Holder.Of id Part.Forward)) 0 ≡ Some u
        → (f : expanded.Callable) × (E.means env.now u ≡ expanded.Callee f) }
    ensures has { IsTrue (E.has env.now result) }
    ensures target { (u : WordUse) → slice_get (E.words env.now (Holder.Of id Part.Forward)) 0 ≡ Some u
        → E.means env.now u ≡ expanded.Callee (E.callee env.now result) }
{
    match env.meaning(Holder::Of(id, Part::Forward), 0) {
        Meaning::Function(target) => target,
        _ => unreachable!(),
    }
}
