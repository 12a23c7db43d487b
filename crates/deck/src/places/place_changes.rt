//! The last places under other settings or of other lines, and the keys that change with them.

ghost use Rattle.std.specs.Prelude.{◌≡◌, IfOk, false};
ghost use Rattle.deck_lines.specs.Limits.{pass_store_limit};
ghost use Rattle.deck.specs.Changes.{IsDeckTableChange};
ghost use Rattle.deck.specs.LastPlaces.{AreLastDefinitionPlaces};
ghost use Rattle.deck.specs.Numbers.{AreDefinitionsInPlace};
ghost use Rattle.deck.specs.Tables.{DeckDefinitions, active_definitions, table_of_deck_definitions};

use super::changes::changed_keys;
use super::last_places::LastPlaces;
use crate::force::InForce;
use deck_lines::LineStore;
use def_entry::Keys;
use std::alloc::{AllocError, Global};

/// New last places, and the keys whose entries differ from those at the previous last places.
#[derive(Drop)]
pub(crate) struct PlaceChanges {
    pub last: LastPlaces,
    pub keys: Keys,
}

/// Computes the changes from the previous last places to those of these lines under these settings.
pub(crate) fn find_place_changes(
    alloc: Global,
    store: &LineStore,
    last: &LastPlaces,
    settings: &InForce<'_>,
) -> Result<PlaceChanges, AllocError>
    ensures within { pass_store_limit store.now.lines ≡ false }
    ensures last { IfOk result (λ now. AreLastDefinitionPlaces store.now.names
        (active_definitions settings.now store.now.lines) now.last) }
    ensures keys { IfOk result (λ now. (ds : DeckDefinitions) → AreDefinitionsInPlace store.now.lines ds
        → AreLastDefinitionPlaces store.now.names ds last.now → IsDeckTableChange (table_of_deck_definitions ds)
        (table_of_deck_definitions (active_definitions settings.now store.now.lines)) now.keys) }
{
    let now = LastPlaces::in_force(alloc, settings, store)?;
    let keys = changed_keys(alloc, store, last, &now)?;
    Ok(PlaceChanges { last: now, keys })
}
