//! Edits that the history records.

ghost use Rattle.std.specs.Prelude.{◌≡◌, true, IfErr, OnErr, OnOk};
ghost use Rattle.def_lines.specs.Blanks.{trimmed_of_blanks};
ghost use Rattle.deck_lines.specs.Transcripts.{IsLoad, files_model};
ghost use Rattle.deck.specs.Edits as deck_edit;
ghost use Rattle.deck.specs.FileLoads as loading;
ghost use Rattle.deck.specs.declared.fault.DeckFault.TheVariants.{OutOfMemory};
ghost use Rattle.live_table.specs.Calls.{IsAcceptedLiveEdit};
ghost use Rattle.live_table.specs.Edits as edit;
ghost use Rattle.edit_history.specs.Calls as calls;
ghost use Rattle.edit_history.specs.Histories.{IsHistoryOf};

use super::History;
use crate::boxed_change::BoxedChange;
use crate::boxed_exchange::BoxedExchange;
use crate::line_exchange::LineExchange;
use crate::settings_change::SettingsChange;
use crate::stack;
use crate::step::Step;
use crate::step_application::switch_settings;
use deck::{DeckFault, Settings, appends_keep_lines, splices_are_undone};
use deck_lines::DeckLines;
use def_entry::Key;
use live_table::LiveTable;
use std::alloc::Global;
use units_io::Files;

impl History {
    /// Appends a line that defines a key to the deck, like `LiveTable::define`, and records the edit. Edits that were
    /// undone can no longer be redone. Fails like `LiveTable::define`; after an error the table and the history are as
    /// before. The time depends on the line and not on the size of the deck.
    pub fn define(
        &mut self,
        alloc: Global,
        table: &mut LiveTable,
        line: &[u8],
    ) -> Result<(), DeckFault>
        requires { IsHistoryOf self.old table.old.deck }
        ensures follows { IsHistoryOf self.new table.new.deck }
        ensures edit { edit.IsLiveEditOf (deck_edit.deck_after_defining (trimmed_of_blanks line.now) table.old.deck)
            table.old table.new result }
        ensures noted { calls.IsEditRecorded self.old self.new table.old.deck table.new.deck result }
    {
        stack::make_room(&mut self.done)?;
        table.deck().lines_closed();
        let uncovered = table.define_shadowing(alloc, line)?;
        stack::put(&mut self.done, Step::Undefine(uncovered));
        self.undone.clear();
        Ok(())
    }

    /// Removes the last active line of a key, like `LiveTable::drop_last`, and records the edit. Fails like
    /// `LiveTable::drop_last`; after an error the table and the history are as before.
    pub fn drop_last(
        &mut self,
        alloc: Global,
        table: &mut LiveTable,
        key: &Key,
    ) -> Result<(), DeckFault>
        requires { IsHistoryOf self.old table.old.deck }
        ensures follows { IsHistoryOf self.new table.new.deck }
        ensures edit { edit.IsLiveEditOf (deck_edit.deck_after_dropping key.now table.old.deck) table.old table.new
            result }
        ensures noted { calls.IsEditRecorded self.old self.new table.old.deck table.new.deck result }
    {
        stack::make_room(&mut self.done)?;
        table.deck().lines_closed();
        let Some(at) = table.deck().last_place(key) else {
            return Err(DeckFault::NoSuchKey);
        };
        let put = table.deck().lines_from(alloc, at, 1)?;
        let step = BoxedExchange::new(alloc, LineExchange { at, cut: 0, put })?;
        table.drop_last(alloc, key)?;
        splices_are_undone();
        stack::put(&mut self.done, Step::Exchange(step));
        self.undone.clear();
        Ok(())
    }

    /// Puts other settings in force, like `LiveTable::switch`, and records the edit. The only error is running out of
    /// memory; the table and the history are then as before.
    pub fn switch(
        &mut self,
        alloc: Global,
        table: &mut LiveTable,
        settings: Settings,
    ) -> Result<(), DeckFault>
        requires { IsHistoryOf self.old table.old.deck }
        ensures follows { IsHistoryOf self.new table.new.deck }
        ensures edit { edit.IsLiveEditOf (Ok (deck_edit.deck_after_switching settings table.old.deck)) table.old
            table.new result }
        ensures noted { calls.IsEditRecorded self.old self.new table.old.deck table.new.deck result }
    {
        stack::make_room(&mut self.done)?;
        table.deck().lines_closed();
        let mut step = BoxedChange::new(alloc, SettingsChange::none(alloc))?;
        let Ok(back) = switch_settings(alloc, table, settings) else {
            return Err(DeckFault::OutOfMemory);
        };
        step.replace(back);
        stack::put(&mut self.done, Step::Switch(step));
        self.undone.clear();
        Ok(())
    }

    /// Appends the deck of a file, like `LiveTable::append`, and records the edit. Fails like `LiveTable::append`;
    /// after an error the table and the history are as before.
    pub fn append<F: Files>(
        &mut self,
        alloc: Global,
        table: &mut LiveTable,
        files: &mut F,
        name: &[u8],
    ) -> Result<(), DeckFault>
        requires { IsHistoryOf self.old table.old.deck }
        ensures follows { IsHistoryOf self.new table.new.deck }
        ensures ok { OnOk result (IsAcceptedLiveEdit table.old table.new) }
        ensures settings { table.new.deck.settings ≡ table.old.deck.settings }
        ensures err { OnErr result (table.new ≡ table.old) }
        ensures answers { IfErr result (λ fault. loading.is_deck_load_fault fault ≡ true) }
        ensures kept { F.files files.new ≡ F.files files.old }
        ensures stores { F.store_faults files.new ≡ F.store_faults files.old }
        ensures loads { IsLoad (files_model F.files F.faults F.is_fetch) files.old files.new OutOfMemory
            (loading.deck_load_of_name name.now (loading.deck_excerpt_of_lines table.old.deck.lines))
            (λ _. loading.excerpt_of_deck table.new.deck) result }
        ensures noted { calls.IsEditRecorded self.old self.new table.old.deck table.new.deck result }
    {
        appends_keep_lines();
        stack::make_room(&mut self.done)?;
        let mut step = BoxedExchange::new(alloc, LineExchange::none(alloc))?;
        let at = table.deck().lines().len();
        table.append(alloc, files, name)?;
        let cut = table.deck().lines().len() - at;
        let put = DeckLines::new(alloc);
        step.replace(LineExchange { at, cut, put });
        stack::put(&mut self.done, Step::Exchange(step));
        self.undone.clear();
        Ok(())
    }
}
