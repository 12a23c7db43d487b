//! The pass over the lines of a deck that finds the last places.

ghost use Rattle.std.specs.Prelude.{◌≡◌, ◌++◌, [], IfOk, OnOk, length, false};
ghost use Rattle.def_entry.specs.declared.key.Kind as key_kind;
ghost use Rattle.deck_lines.specs.Limits.{pass_store_limit};
ghost use Rattle.deck_lines.specs.Stores.{store_definition_at};
ghost use Rattle.deck.specs.KindPlaces.{HasSameDefinitionPlaces};
ghost use Rattle.deck.specs.LastPlaces.{AreLastDefinitionPlaces, HasDefinitionPlaceRoom, last_definition_places};
ghost use Rattle.deck.specs.Tables.{DeckDefinitions, active_definitions, active_definitions_among};
ghost use Rattle.deck.specs.Tables.{definition_of_active_line};

use super::last_places::LastPlaces;
use crate::force::{InForce, edited_flags, flags_in_force};
use crate::settings::Settings;
use deck_lines::{EditedLines, LineStore};
use def_entry::Kind;
use std::alloc::{AllocError, Global};

impl LastPlaces {
    /// Returns the place of the last active line of each key under these settings.
    pub(crate) fn under(
        alloc: Global,
        settings: &Settings,
        store: &LineStore,
    ) -> Result<LastPlaces, AllocError>
        ensures last { IfOk result
            (λ last. AreLastDefinitionPlaces store.now.names (active_definitions settings.now store.now.lines) last) }
        ensures within { pass_store_limit store.now.lines ≡ false }
    {
        LastPlaces::under_edited(alloc, settings, &EditedLines::without_change(store))
    }

    /// Returns the place of the last active line of each key under settings of which one may be changed.
    pub(crate) fn in_force(
        alloc: Global,
        settings: &InForce<'_>,
        store: &LineStore,
    ) -> Result<LastPlaces, AllocError>
        ensures last { IfOk result (λ last. AreLastDefinitionPlaces store.now.names
            (active_definitions settings.now store.now.lines) last) }
        ensures within { pass_store_limit store.now.lines ≡ false }
    {
        let edited = EditedLines::without_change(store);
        let flags = flags_in_force(alloc, &edited, settings)?;
        LastPlaces::of_edited(alloc, flags.as_slice(), &edited)
    }

    /// Returns the place of the last active line of each key after an edit, under these settings.
    pub(crate) fn under_edited(
        alloc: Global,
        settings: &Settings,
        edited: &EditedLines<'_>,
    ) -> Result<LastPlaces, AllocError>
        ensures { IfOk result (λ last. AreLastDefinitionPlaces edited.now.names
            (active_definitions settings.now edited.now.new_lines) last) }
    {
        let flags = edited_flags(alloc, edited, settings)?;
        LastPlaces::of_edited(alloc, flags.as_slice(), edited)
    }

    // Returns the place of the last line of each key after an edit, among the lines whose flag is true.
    fn of_edited(
        alloc: Global,
        flags: &[bool],
        edited: &EditedLines<'_>,
    ) -> Result<LastPlaces, AllocError>
        requires { length flags.now ≡ length edited.now.new_lines }
        ensures { IfOk result (λ last. AreLastDefinitionPlaces edited.now.names
            (active_definitions_among flags.now edited.now.new_lines) last) }
    {
        let mut last = with_room(alloc, edited)?;
        last.note_lines(edited, flags);
        Ok(last)
    }

    /// Sets the place of each key to that of its last line after an edit, among the lines whose flag is true. No key
    /// may have a place before. Allocates no memory.
    pub(crate) fn note_lines(&mut self, edited: &EditedLines<'_>, flags: &[bool])
        requires flags { length flags.now ≡ length edited.now.new_lines }
        requires room { HasDefinitionPlaceRoom edited.now.names self.old }
        requires none { AreLastDefinitionPlaces edited.now.names [] self.old }
        ensures { AreLastDefinitionPlaces edited.now.names (active_definitions_among flags.now edited.now.new_lines)
            self.new }
    {
        for place in 0..flags.len() {
            note_line(edited, self, flags[place], place);
        }
    }
}

/// Returns last places without a place, with room for all keys that have a number.
pub(super) fn with_room(alloc: Global, edited: &EditedLines<'_>) -> Result<LastPlaces, AllocError>
    ensures room { IfOk result (λ last. HasDefinitionPlaceRoom edited.now.names last) }
    ensures none { IfOk result (λ last. AreLastDefinitionPlaces edited.now.names [] last) }
{
    let mut last = LastPlaces::new(alloc);
    make_room(edited, &mut last)?;
    Ok(last)
}

// Makes room for the places of all keys that have a number. All places stay.
fn make_room(edited: &EditedLines<'_>, last: &mut LastPlaces) -> Result<(), AllocError>
    ensures room { OnOk result (HasDefinitionPlaceRoom edited.now.names last.new) }
    ensures same { OnOk result ((kind : key_kind.Kind)
        → HasSameDefinitionPlaces (last_definition_places last.old kind) (last_definition_places last.new kind)) }
{
    last.make_room(Kind::Unit, edited.name_count(Kind::Unit))?;
    last.make_room(Kind::Prefix, edited.name_count(Kind::Prefix))?;
    last.make_room(Kind::Func, edited.name_count(Kind::Func))?;
    last.make_room(Kind::List, edited.name_count(Kind::List))?;
    Ok(())
}

/// Sets the place of the key of a line to `place`, if the line is active.
pub(super) fn note_line(edited: &EditedLines<'_>, last: &mut LastPlaces, active: bool, place: usize)
    requires { HasDefinitionPlaceRoom edited.now.names last.old }
    ensures room { HasDefinitionPlaceRoom edited.now.names last.new }
    ensures last { (ds : DeckDefinitions) → AreLastDefinitionPlaces edited.now.names ds last.old
        → AreLastDefinitionPlaces edited.now.names
        (definition_of_active_line place active (store_definition_at edited.now.new_lines place) ++ ds) last.new }
{
    if !active {
        return;
    }
    if let Some(n) = edited.key_number(place) {
        last.put(n, place);
    }
}
