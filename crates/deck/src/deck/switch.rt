//! Replacing the settings.

ghost use Rattle.std.specs.Prelude.{Ok};
ghost use Rattle.deck.specs.Edits as edit;

use super::Deck;
use crate::fault::DeckFault;
use crate::force::InForce;
use crate::places::find_place_changes;
use crate::settings::Settings;
use def_entry::Keys;
use std::alloc::Global;

impl Deck {
    /// Replaces the settings, and returns the keys whose entries change. The only error is running out of memory; then
    /// nothing changes. Takes time in proportion to all lines and names of the deck, whatever the settings change.
    pub fn switch(&mut self, alloc: Global, settings: Settings) -> Result<Keys, DeckFault>
        ensures { edit.IsDeckEdit (Ok (edit.deck_after_switching settings self.old)) self.old self.new result }
    {
        let in_force = InForce::of(&settings);
        let changes = find_place_changes(alloc, &self.store, &self.last, &in_force)?;
        self.settings = settings;
        self.last = changes.last;
        self.covered_lines = None;
        Ok(changes.keys)
    }
}
