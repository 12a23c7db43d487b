//! The steps that take back a change of one setting.

ghost use Rattle.std.specs.Prelude.{IfOk};
ghost use Rattle.deck.specs.SettingChanges as changes;
ghost use Rattle.edit_history.specs.StepEffects.{UndoStepPutsSettings};

use crate::named_value::NamedValue;
use crate::step::Step;
use deck::{Settings, settings_are_undone};
use std::alloc::{AllocError, Global};

/// Returns the step that takes back the value that a variable is about to get. The only error is running out of memory.
pub fn step_before_set(
    alloc: Global,
    settings: &Settings,
    name: &[u8],
    value: &[u8],
) -> Result<Step, AllocError>
    ensures { IfOk result (λ back.
        UndoStepPutsSettings back (changes.settings_with_variable settings.now name.now value.now) settings.now) }
{
    settings_are_undone();
    let Some(before) = settings.vars.value(name) else {
        return Ok(Step::UnsetLast);
    };
    if before.as_bytes() == value {
        return Ok(Step::Nothing);
    }
    let pair = NamedValue::new(alloc, name, before.as_bytes())?;
    Ok(Step::Set(pair))
}

/// Returns the step that puts back the last variable, which is about to be removed. The only error is running out of
/// memory.
pub fn step_before_unset(alloc: Global, settings: &Settings) -> Result<Step, AllocError>
    ensures { IfOk result (λ back. UndoStepPutsSettings back (changes.settings_without_last_variable settings.now)
        settings.now) }
{
    settings_are_undone();
    let last = settings.vars.len().saturating_sub(1);
    let Some((name, value)) = settings.vars.get(last) else {
        return Ok(Step::Nothing);
    };
    let pair = NamedValue::new(alloc, name, value.as_bytes())?;
    Ok(Step::Set(pair))
}

/// Returns the step that takes back a locale that is about to be put in force. The only error is running out of memory.
pub fn step_before_locale(
    alloc: Global,
    settings: &Settings,
    locale: &[u8],
) -> Result<Step, AllocError>
    ensures { IfOk result (λ back. UndoStepPutsSettings back (changes.settings_with_locale settings.now locale.now)
        settings.now) }
{
    if settings.locale.as_bytes() == locale {
        return Ok(Step::Nothing);
    }
    let before = settings.locale.copy(alloc)?;
    Ok(Step::Locale(before))
}
