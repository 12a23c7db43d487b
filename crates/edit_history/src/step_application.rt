//! Applying steps to a live table.

ghost use Rattle.std.specs.Prelude.{◌≡◌, ◌<◌, OnErr, OnOk, reverse, vec_len};
ghost use Rattle.live_table.specs.Calls.{IsAcceptedLiveEdit};
ghost use Rattle.edit_history.specs.Calls as calls;
ghost use Rattle.edit_history.specs.Histories.{IsUndoStepPath};
ghost use Rattle.edit_history.specs.StepEffects.{IsUndoStepMade, IsUndoSwitchMade};
ghost use Rattle.edit_history.specs.Steps.{CanMakeUndoStep};
ghost use Rattle.edit_history.specs.Versions.{history_version};
ghost use Rattle.edit_history.specs.declared.step.Step.TheVariants as step;

mod one_setting;

use self::one_setting::{change_nothing, set, set_locale, unset_last};
use crate::boxed_change::BoxedChange;
use crate::boxed_exchange::BoxedExchange;
use crate::line_exchange::LineExchange;
use crate::setting_changes::{change_between, changed_settings};
use crate::settings_change::SettingsChange;
use crate::stack::{make_room, put, take};
use crate::step::Step;
use deck::{DeckFault, Settings, Splice, splices_are_undone};
use live_table::LiveTable;
use std::alloc::{AllocError, Global};
use units_io::Text;

/// Makes the last of `steps`, and pushes the step that takes it back onto `others`. The only error is running out of
/// memory, which changes nothing.
pub fn apply_last(
    alloc: Global,
    steps: &mut Vec<Step>,
    others: &mut Vec<Step>,
    table: &mut LiveTable,
) -> Result<(), AllocError>
    requires some { 0 < vec_len steps.old }
    requires lead { IsUndoStepPath (reverse steps.old.items) (history_version table.old.deck) }
    ensures moved { OnOk result (calls.IsUndoStepMoved (reverse steps.old.items) (reverse steps.new.items)
        (reverse others.old.items) (reverse others.new.items) table.old.deck table.new.deck) }
    ensures edit { OnOk result (IsAcceptedLiveEdit table.old table.new) }
    ensures lead { OnOk result (IsUndoStepPath (reverse steps.new.items) (history_version table.new.deck)) }
    ensures others { OnOk result (IsUndoStepPath (reverse others.old.items) (history_version table.old.deck)
        → IsUndoStepPath (reverse others.new.items) (history_version table.new.deck)) }
    ensures steps { OnErr result (reverse steps.new.items ≡ reverse steps.old.items) }
    ensures same { OnErr result (others.new.items ≡ others.old.items) }
    ensures table { OnErr result (table.new ≡ table.old) }
{
    make_room(others)?;
    match apply_step(alloc, table, take(steps)) {
        Ok(back) => {
            put(others, back);
            Ok(())
        }
        Err(step) => {
            put(steps, step);
            Err(AllocError)
        }
    }
}

// Makes a step and returns the step that takes it back. If memory runs out, the error holds the step, and nothing is
// changed.
fn apply_step(alloc: Global, table: &mut LiveTable, step: Step) -> Result<Step, Step>
    requires { CanMakeUndoStep step (history_version table.old.deck) }
    ensures { IsUndoStepMade step table.old table.new result }
{
    match step {
        Step::Define(text) => define(alloc, table, text),
        Step::Undefine(uncovered) => undefine(alloc, table, uncovered),
        Step::Exchange(change) => exchange(alloc, table, change),
        Step::Switch(change) => switch(alloc, table, change),
        Step::Set(pair) => set(alloc, table, pair),
        Step::UnsetLast => unset_last(alloc, table),
        Step::Locale(locale) => set_locale(alloc, table, locale),
        Step::Nothing => change_nothing(alloc, table),
    }
}

// Appends a line that defines a key.
fn define(alloc: Global, table: &mut LiveTable, text: Text) -> Result<Step, Step>
    requires { CanMakeUndoStep (step.Define text) (history_version table.old.deck) }
    ensures { IsUndoStepMade (step.Define text) table.old table.new result }
{
    table.deck().lines_closed();
    match table.define_shadowing(alloc, text.as_bytes()) {
        Ok(uncovered) => Ok(Step::Undefine(uncovered)),
        Err(DeckFault::OutOfMemory) => Err(Step::Define(text)),
        Err(_) => unreachable!(),
    }
}

// Removes the last line, which defines a key.
fn undefine(alloc: Global, table: &mut LiveTable, uncovered: Option<usize>) -> Result<Step, Step>
    requires { CanMakeUndoStep (step.Undefine uncovered) (history_version table.old.deck) }
    ensures { IsUndoStepMade (step.Undefine uncovered) table.old table.new result }
{
    table.deck().lines_closed();
    match table.undefine(alloc, uncovered) {
        Ok(text) => Ok(Step::Define(text)),
        Err(_) => Err(Step::Undefine(uncovered)),
    }
}

// Replaces lines by others. The box is used again for the step back.
fn exchange(alloc: Global, table: &mut LiveTable, mut boxed: BoxedExchange) -> Result<Step, Step>
    requires { CanMakeUndoStep (step.Exchange boxed) (history_version table.old.deck) }
    ensures { IsUndoStepMade (step.Exchange boxed) table.old table.new result }
{
    splices_are_undone();
    table.deck().lines_closed();
    let Ok(settings) = table.deck().settings().copy(alloc) else {
        return Err(Step::Exchange(boxed));
    };
    let LineExchange { at, cut, put } = boxed.replace(LineExchange::none(alloc));
    let change = Splice {
        at,
        cut,
        put,
        settings,
    };
    match table.splice(alloc, change) {
        Ok(undo) => {
            boxed.replace(exchange_in(undo));
            Ok(Step::Exchange(boxed))
        }
        Err((change, _)) => {
            boxed.replace(exchange_in(change));
            Err(Step::Exchange(boxed))
        }
    }
}

// Returns the exchange of lines in a splice.
fn exchange_in(splice: Splice) -> LineExchange
    ensures { result ≡ record { at = splice.at; cut = splice.cut; put = splice.put } }
{
    let Splice {
        at,
        cut,
        put,
        settings: _,
    } = splice;
    LineExchange { at, cut, put }
}

// Puts other settings in force.
fn switch(alloc: Global, table: &mut LiveTable, mut change: BoxedChange) -> Result<Step, Step>
    requires { CanMakeUndoStep (step.Switch change) (history_version table.old.deck) }
    ensures { IsUndoStepMade (step.Switch change) table.old table.new result }
{
    table.deck().lines_closed();
    let Ok(settings) = changed_settings(alloc, table.deck().settings(), change.get()) else {
        return Err(Step::Switch(change));
    };
    match switch_settings(alloc, table, settings) {
        Ok(back) => {
            change.replace(back);
            Ok(Step::Switch(change))
        }
        Err(_) => Err(Step::Switch(change)),
    }
}

/// Puts other settings in force and returns the change that restores the previous ones. The only error is running out
/// of memory, which changes nothing.
pub fn switch_settings(
    alloc: Global,
    table: &mut LiveTable,
    settings: Settings,
) -> Result<SettingsChange, AllocError>
    ensures { IsUndoSwitchMade settings table.old table.new result }
{
    let back = change_between(alloc, &settings, table.deck().settings())?;
    match table.switch(alloc, settings) {
        Ok(()) => Ok(back),
        Err(_) => Err(AllocError),
    }
}
