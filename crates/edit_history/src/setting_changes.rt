//! Finding and applying changes of settings.

ghost use Rattle.std.specs.Prelude.{◌≡◌, IfOk};
ghost use Rattle.units_io.specs.NamedValues.{HasDistinctTextNames};
ghost use Rattle.edit_history.specs.SettingSwitches.{history_locale_after_change, history_settings_after_change};

use crate::settings_change::SettingsChange;
use crate::vars_parts::{copy_pairs, differing_ends, same_front};
use deck::Settings;
use std::alloc::{AllocError, Global};
use units_io::{Text, Vars};

/// Returns the change that turns the settings `from` into `to`. It holds the variables from the first to the last that
/// differ, and the locale if that differs. The only error is running out of memory.
pub fn change_between(
    alloc: Global,
    from: &Settings,
    to: &Settings,
) -> Result<SettingsChange, AllocError>
    ensures gives { IfOk result (λ change. history_settings_after_change change from.now ≡ to.now) }
    ensures distinct { IfOk result (λ _. HasDistinctTextNames to.now.vars) }
{
    let locale = other_locale(alloc, &from.locale, &to.locale)?;
    let first = same_front(&from.vars, &to.vars);
    let ends = differing_ends(&from.vars, &to.vars, first);
    let mut put = Vars::with_seed(alloc, to.vars.table_seed());
    copy_pairs(alloc, &mut put, &to.vars, first, ends.in_others)?;
    Ok(SettingsChange {
        locale,
        first,
        end: ends.in_vars,
        put,
    })
}

/// Returns the settings that result from applying a change. The only error is running out of memory.
pub fn changed_settings(
    alloc: Global,
    settings: &Settings,
    change: &SettingsChange,
) -> Result<Settings, AllocError>
    requires { HasDistinctTextNames (history_settings_after_change change.now settings.now).vars }
    ensures { IfOk result (λ made. made ≡ history_settings_after_change change.now settings.now) }
{
    let locale = locale_after_change(alloc, &change.locale, &settings.locale)?;
    let mut vars = Vars::with_seed(alloc, settings.vars.table_seed());
    copy_pairs(alloc, &mut vars, &settings.vars, 0, change.first)?;
    copy_pairs(alloc, &mut vars, &change.put, 0, change.put.len())?;
    copy_pairs(
        alloc,
        &mut vars,
        &settings.vars,
        change.end,
        settings.vars.len(),
    )?;
    Ok(Settings { locale, vars })
}

// Returns the locale `to`, or `None` if it is equal to `from`.
fn other_locale(alloc: Global, from: &Text, to: &Text) -> Result<Option<Text>, AllocError>
    ensures { IfOk result (λ locale. history_locale_after_change locale from.now ≡ to.now) }
{
    if from.as_bytes() == to.as_bytes() {
        return Ok(None);
    }
    Ok(Some(to.copy(alloc)?))
}

// Returns the other locale if there is one, or else the old locale.
fn locale_after_change(
    alloc: Global,
    other: &Option<Text>,
    locale: &Text,
) -> Result<Text, AllocError>
    ensures { IfOk result (λ copy. copy ≡ history_locale_after_change other.now locale.now) }
{
    match other {
        Some(other) => other.copy(alloc),
        None => locale.copy(alloc),
    }
}
