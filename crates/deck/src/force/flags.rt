//! Computes which lines are active.

ghost use Rattle.std.specs.Prelude.{◌≡◌, ◌++◌, ◌∷◌, [], ℕ, IfOk, OnOk};
ghost use Rattle.deck.specs.Active.{active_lines, deck_surroundings_after_line, is_active_line};

use super::in_force::InForce;
use super::surroundings::Surroundings;
use crate::settings::Settings;
use deck_lines::{BorrowedLine, EditedLines, LineStore};
use std::alloc::{AllocError, Global};

/// Returns for each line of a store whether it is active under the settings.
pub(crate) fn active_flags(
    alloc: Global,
    store: &LineStore,
    settings: &Settings,
) -> Result<Vec<bool>, AllocError>
    ensures { IfOk result (λ flags. flags.items ≡ active_lines settings.now store.now.lines) }
{
    edited_flags(alloc, &EditedLines::without_change(store), settings)
}

/// Returns for each line after an edit whether it is active under the settings.
pub(crate) fn edited_flags(
    alloc: Global,
    edited: &EditedLines<'_>,
    settings: &Settings,
) -> Result<Vec<bool>, AllocError>
    ensures { IfOk result (λ flags. flags.items ≡ active_lines settings.now edited.now.new_lines) }
{
    flags_in_force(alloc, edited, &InForce::of(settings))
}

/// Returns for each line after an edit whether it is active under settings of which one may be changed.
pub(crate) fn flags_in_force(
    alloc: Global,
    edited: &EditedLines<'_>,
    settings: &InForce<'_>,
) -> Result<Vec<bool>, AllocError>
    ensures { IfOk result (λ flags. flags.items ≡ active_lines settings.now edited.now.new_lines) }
{
    let locale = settings.locale();
    let mut flags = Vec::new(alloc);
    let mut around = Surroundings::start(alloc, settings);
    for place in 0..edited.len() {
        push_flag(alloc, locale, edited.line(place), &mut around, &mut flags)?;
    }
    Ok(flags)
}

// Pushes whether a line is active, and updates the state for it.
fn push_flag(
    alloc: Global,
    locale: &[u8],
    line: BorrowedLine<'_>,
    around: &mut Surroundings<'_>,
    flags: &mut Vec<bool>,
) -> Result<(), AllocError>
    ensures flags { (number : ℕ) → OnOk result (flags.new.items ≡ flags.old.items ++ is_active_line around.old
        (record { number = number; text = line.entry.text.now; mark = line.entry.mark }) ∷ []) }
    ensures around { (number : ℕ) → OnOk result (around.new ≡ deck_surroundings_after_line locale.now around.old
        (record { number = number; text = line.entry.text.now; mark = line.entry.mark })) }
{
    flags.push(around.is_active(line.mark))?;
    around.pass(alloc, locale, line.text, line.mark)
}
