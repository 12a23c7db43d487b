//! Applying steps of one setting to a live table.

ghost use Rattle.edit_history.specs.StepEffects.{IsUndoStepMade};
ghost use Rattle.edit_history.specs.declared.step.Step.TheVariants as step;

use crate::named_value::NamedValue;
use crate::setting_steps::{step_before_locale, step_before_set, step_before_unset};
use crate::step::Step;
use live_table::LiveTable;
use std::alloc::Global;
use units_io::Text;

/// Gives a variable a value.
pub fn set(alloc: Global, table: &mut LiveTable, pair: NamedValue) -> Result<Step, Step>
    ensures { IsUndoStepMade (step.Set pair) table.old table.new result }
{
    table.deck().lines_closed();
    let Ok(back) = step_before_set(alloc, table.deck().settings(), pair.name(), pair.value()) else {
        return Err(Step::Set(pair));
    };
    match table.set(alloc, pair.name(), pair.value()) {
        Ok(()) => Ok(back),
        Err(_) => Err(Step::Set(pair)),
    }
}

/// Removes the last variable.
pub fn unset_last(alloc: Global, table: &mut LiveTable) -> Result<Step, Step>
    ensures { IsUndoStepMade step.UnsetLast table.old table.new result }
{
    table.deck().lines_closed();
    let Ok(back) = step_before_unset(alloc, table.deck().settings()) else {
        return Err(Step::UnsetLast);
    };
    match table.unset_last(alloc) {
        Ok(()) => Ok(back),
        Err(_) => Err(Step::UnsetLast),
    }
}

/// Puts another locale in force.
pub fn set_locale(alloc: Global, table: &mut LiveTable, locale: Text) -> Result<Step, Step>
    ensures { IsUndoStepMade (step.Locale locale) table.old table.new result }
{
    table.deck().lines_closed();
    let Ok(back) = step_before_locale(alloc, table.deck().settings(), locale.as_bytes()) else {
        return Err(Step::Locale(locale));
    };
    match table.set_locale(alloc, locale.as_bytes()) {
        Ok(()) => Ok(back),
        Err(_) => Err(Step::Locale(locale)),
    }
}

/// Changes nothing: puts the current locale in force again.
pub fn change_nothing(alloc: Global, table: &mut LiveTable) -> Result<Step, Step>
    ensures { IsUndoStepMade step.Nothing table.old table.new result }
{
    table.deck().lines_closed();
    let Ok(locale) = table.deck().settings().locale.copy(alloc) else {
        return Err(Step::Nothing);
    };
    match table.set_locale(alloc, locale.as_bytes()) {
        Ok(()) => Ok(Step::Nothing),
        Err(_) => Err(Step::Nothing),
    }
}
