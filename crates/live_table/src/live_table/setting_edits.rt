//! Edits of a single setting, which forget the outcomes that they affect.

ghost use Rattle.std.specs.Prelude.{Ok};
ghost use Rattle.deck.specs.Edits as deck_edit;
ghost use Rattle.deck.specs.SettingChanges as changes;
ghost use Rattle.live_table.specs.Edits as edit;

use super::LiveTable;
use crate::edge_creation::link_waiting;
use crate::invalidation::forget_changed;
use deck::DeckFault;
use std::alloc::Global;

impl LiveTable {
    /// Gives a variable a value, as `Deck::set`, and forgets the outcomes that this affects. The only error is lack of
    /// memory, which changes nothing.
    pub fn set(&mut self, alloc: Global, name: &[u8], value: &[u8]) -> Result<(), DeckFault>
        ensures { edit.IsLiveEditOf (Ok (deck_edit.deck_after_switching
            (changes.settings_with_variable self.old.deck.settings name.now value.now) self.old.deck)) self.old self.new
            result }
    {
        link_waiting(alloc, &self.deck, &self.nodes, &mut self.edges)?;
        let keys = self.deck.set(alloc, name, value)?;
        forget_changed(
            alloc,
            &self.deck,
            &mut self.nodes,
            &mut self.edges,
            &mut self.explored,
            &keys,
        );
        Ok(())
    }

    /// Puts another locale in force, as `Deck::set_locale`, and forgets the outcomes that this affects. The only error
    /// is lack of memory, which changes nothing.
    pub fn set_locale(&mut self, alloc: Global, locale: &[u8]) -> Result<(), DeckFault>
        ensures { edit.IsLiveEditOf (Ok (deck_edit.deck_after_switching
            (changes.settings_with_locale self.old.deck.settings locale.now) self.old.deck)) self.old self.new result }
    {
        link_waiting(alloc, &self.deck, &self.nodes, &mut self.edges)?;
        let keys = self.deck.set_locale(alloc, locale)?;
        forget_changed(
            alloc,
            &self.deck,
            &mut self.nodes,
            &mut self.edges,
            &mut self.explored,
            &keys,
        );
        Ok(())
    }

    /// Removes the last variable, if there is one, as `Deck::unset_last`, and forgets the outcomes that this affects.
    /// The only error is lack of memory, which changes nothing.
    pub fn unset_last(&mut self, alloc: Global) -> Result<(), DeckFault>
        ensures { edit.IsLiveEditOf (Ok (deck_edit.deck_after_switching
            (changes.settings_without_last_variable self.old.deck.settings) self.old.deck)) self.old self.new result }
    {
        link_waiting(alloc, &self.deck, &self.nodes, &mut self.edges)?;
        let keys = self.deck.unset_last(alloc)?;
        forget_changed(
            alloc,
            &self.deck,
            &mut self.nodes,
            &mut self.edges,
            &mut self.explored,
            &keys,
        );
        Ok(())
    }
}
