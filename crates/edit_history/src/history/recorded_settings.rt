//! Edits of one setting that the history records.

ghost use Rattle.std.specs.Prelude.{Ok};
ghost use Rattle.deck.specs.Edits as deck_edit;
ghost use Rattle.deck.specs.SettingChanges as changes;
ghost use Rattle.live_table.specs.Edits as edit;
ghost use Rattle.edit_history.specs.Calls as calls;
ghost use Rattle.edit_history.specs.Histories.{IsHistoryOf};

use super::History;
use crate::setting_steps::{step_before_locale, step_before_set};
use crate::stack;
use deck::DeckFault;
use live_table::LiveTable;
use std::alloc::Global;

impl History {
    /// Gives a variable a value, like `LiveTable::set`, and records the edit. It stores only the previous value of that
    /// variable. The only error is running out of memory; the table and the history are then as before.
    pub fn set(
        &mut self,
        alloc: Global,
        table: &mut LiveTable,
        name: &[u8],
        value: &[u8],
    ) -> Result<(), DeckFault>
        requires { IsHistoryOf self.old table.old.deck }
        ensures follows { IsHistoryOf self.new table.new.deck }
        ensures edit { edit.IsLiveEditOf (Ok (deck_edit.deck_after_switching
            (changes.settings_with_variable table.old.deck.settings name.now value.now) table.old.deck))
            table.old table.new result }
        ensures noted { calls.IsEditRecorded self.old self.new table.old.deck table.new.deck result }
    {
        stack::make_room(&mut self.done)?;
        table.deck().lines_closed();
        let back = step_before_set(alloc, table.deck().settings(), name, value)?;
        table.set(alloc, name, value)?;
        stack::put(&mut self.done, back);
        self.undone.clear();
        Ok(())
    }

    /// Puts another locale in force, like `LiveTable::set_locale`, and records the edit. The only error is running out
    /// of memory; the table and the history are then as before.
    pub fn set_locale(
        &mut self,
        alloc: Global,
        table: &mut LiveTable,
        locale: &[u8],
    ) -> Result<(), DeckFault>
        requires { IsHistoryOf self.old table.old.deck }
        ensures follows { IsHistoryOf self.new table.new.deck }
        ensures edit { edit.IsLiveEditOf (Ok (deck_edit.deck_after_switching
            (changes.settings_with_locale table.old.deck.settings locale.now) table.old.deck)) table.old table.new
            result }
        ensures noted { calls.IsEditRecorded self.old self.new table.old.deck table.new.deck result }
    {
        stack::make_room(&mut self.done)?;
        table.deck().lines_closed();
        let back = step_before_locale(alloc, table.deck().settings(), locale)?;
        table.set_locale(alloc, locale)?;
        stack::put(&mut self.done, back);
        self.undone.clear();
        Ok(())
    }
}
