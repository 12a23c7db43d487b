//! Removal of the numbers of keys that no line defines any more.

ghost use Rattle.std.specs.Prelude.{◌≡◌, [], IfOk, OnOk};
ghost use Rattle.def_entry.specs.declared.key.Kind as key_kind;
ghost use Rattle.deck_lines.specs.Renumberings.{IsKeyRenumbering, key_number_names_after};
ghost use Rattle.deck.specs.KindPlaces.{HasSameDefinitionPlaces};
ghost use Rattle.deck.specs.LastPlaces.{AreLastDefinitionPlaces, HasDefinitionPlaceRoom, IsDeckIndexed};
ghost use Rattle.deck.specs.LastPlaces.{last_definition_places};

use super::Deck;
use crate::force::active_flags;
use crate::places::LastPlaces;
use crate::settings::Settings;
use deck_lines::{EditedLines, LineStore, Renumbering};
use def_entry::Kind;
use std::alloc::{AllocError, Global};

// The number of keys that may have numbers in addition to one and a half times the number of lines.
const FEW: usize = 64;

impl Deck {
    /// Removes the numbers of keys that no line defines, if there are many of them. So the cost of a pass over the
    /// numbers and the memory for names stay proportional to the number of lines. The call makes one pass over the
    /// deck, and at least a third as many lines are removed before the next such pass. If an allocation fails, the
    /// numbers stay.
    pub(super) fn renumber_if_sparse(&mut self, alloc: Global)
        ensures { self.new ≡ self.old }
    {
        if is_sparse(&self.store) {
            let _ = renumber(alloc, &mut self.store, &mut self.last, &self.settings);
        }
    }
}

// Reports whether many keys have a number without being defined by a line.
fn is_sparse(store: &LineStore) -> bool {
    let lines = store.len();
    store.key_count() > lines.saturating_add(lines / 2).saturating_add(FEW)
}

// Removes the numbers of keys that no line defines. The only error is running out of memory; then nothing changes.
fn renumber(
    alloc: Global,
    store: &mut LineStore,
    last: &mut LastPlaces,
    settings: &Settings,
) -> Result<(), AllocError>
    requires { IsDeckIndexed store.old settings.now last.old }
    ensures lines { store.new.lines ≡ store.old.lines }
    ensures indexed { IsDeckIndexed store.new settings.now last.new }
{
    let flags = active_flags(alloc, store, settings)?;
    let made = number_keys(alloc, store)?;
    let NewNumbers {
        numbers,
        mut places,
    } = made;
    store.renumber(numbers);
    places.note_lines(&EditedLines::without_change(store), flags.as_slice());
    *last = places;
    Ok(())
}

// New numbers, and last places without a place that have room for the keys that get one.
#[derive(Drop)]
struct NewNumbers {
    numbers: Renumbering,
    places: LastPlaces,
}

// Returns new numbers for the keys that lines define.
fn number_keys(alloc: Global, store: &LineStore) -> Result<NewNumbers, AllocError>
    ensures numbers { IfOk result (λ made. IsKeyRenumbering store.now.lines made.numbers) }
    ensures room { IfOk result (λ made. HasDefinitionPlaceRoom (key_number_names_after made.numbers) made.places) }
    ensures none { IfOk result
        (λ made. AreLastDefinitionPlaces (key_number_names_after made.numbers) [] made.places) }
{
    let numbers = Renumbering::of_store(alloc, store)?;
    let places = with_room(alloc, &numbers)?;
    Ok(NewNumbers { numbers, places })
}

// Returns last places without a place, with room for all keys that get a number.
fn with_room(alloc: Global, numbers: &Renumbering) -> Result<LastPlaces, AllocError>
    ensures room { IfOk result (λ last. HasDefinitionPlaceRoom (key_number_names_after numbers.now) last) }
    ensures none { IfOk result (λ last. AreLastDefinitionPlaces (key_number_names_after numbers.now) [] last) }
{
    let mut last = LastPlaces::new(alloc);
    make_room(numbers, &mut last)?;
    Ok(last)
}

// Makes room for the places of all keys that get a number. All places stay.
fn make_room(numbers: &Renumbering, last: &mut LastPlaces) -> Result<(), AllocError>
    ensures room { OnOk result (HasDefinitionPlaceRoom (key_number_names_after numbers.now) last.new) }
    ensures same { OnOk result ((kind : key_kind.Kind)
        → HasSameDefinitionPlaces (last_definition_places last.old kind) (last_definition_places last.new kind)) }
{
    last.make_room(Kind::Unit, numbers.name_count(Kind::Unit))?;
    last.make_room(Kind::Prefix, numbers.name_count(Kind::Prefix))?;
    last.make_room(Kind::Func, numbers.name_count(Kind::Func))?;
    last.make_room(Kind::List, numbers.name_count(Kind::List))?;
    Ok(())
}
