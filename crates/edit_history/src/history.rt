//! A history: undo and redo.

ghost use Rattle.std.specs.Prelude.{◌≡◌, []};
ghost use Rattle.edit_history.specs.Calls as calls;
ghost use Rattle.edit_history.specs.Histories.{IsHistoryOf};
ghost use Rattle.edit_history.specs.declared.fault.HistoryFault.TheVariants.{NothingToRedo, NothingToUndo};

mod recorded_edits;
mod recorded_settings;

use crate::fault::HistoryFault;
use crate::step::Step;
use crate::step_application::apply_last;
use live_table::LiveTable;
use std::alloc::Global;
use std::marker::Model;

/// The history of a live table: the edits that are done, and those undone since the last edit. An edit is stored as the
/// step that takes it back or makes it again. A history holds what an edit removed, and never a whole deck.
pub struct History {
    done: Vec<Step>,
    undone: Vec<Step>,
}

// Written by hand, so that code that drops a history need not prove anything about its contents.
impl Drop for History {
    fn drop(self) {
        let History { done: _, undone: _ } = self;
    }
}

impl Model for History {
    ghost use Rattle.std.specs.Prelude.{reverse};
    ghost use Rattle.edit_history.specs.Histories.{UndoStacks};

    ghost Value = { UndoStacks };

    ghost view = { λ h. record { done_steps = reverse h.done.items; undone = reverse h.undone.items } };
}

impl History {
    /// Returns a history without edits. Allocates no memory.
    pub fn new(alloc: Global) -> History
        ensures { result ≡ record { done_steps = []; undone = [] } }
    {
        History {
            done: Vec::new(alloc),
            undone: Vec::new(alloc),
        }
    }

    /// Takes back the last edit that is done. The lines with their marks and the settings are again those before the
    /// edit, the notices stay, and all results that this affects are forgotten. Returns `NothingToUndo` exactly if
    /// there is no such edit; the only other error is running out of memory. After an error the table and the history
    /// are as before.
    pub fn undo(&mut self, alloc: Global, table: &mut LiveTable) -> Result<(), HistoryFault>
        requires { IsHistoryOf self.old table.old.deck }
        ensures follows { IsHistoryOf self.new table.new.deck }
        ensures undone { calls.IsUndone NothingToUndo self.old self.new table.old table.new result }
    {
        if self.done.is_empty() {
            return Err(HistoryFault::NothingToUndo);
        }
        apply_last(alloc, &mut self.done, &mut self.undone, table)?;
        Ok(())
    }

    /// Makes the edit again that was undone last, if no edit was made since. It changes the table in the same way as
    /// `undo`. Returns `NothingToRedo` exactly if there is no such edit; the only other error is running out of memory.
    pub fn redo(&mut self, alloc: Global, table: &mut LiveTable) -> Result<(), HistoryFault>
        requires { IsHistoryOf self.old table.old.deck }
        ensures follows { IsHistoryOf self.new table.new.deck }
        ensures redone { calls.IsUndone NothingToRedo (calls.swapped_undo_stacks self.old)
            (calls.swapped_undo_stacks self.new) table.old table.new result }
    {
        if self.undone.is_empty() {
            return Err(HistoryFault::NothingToRedo);
        }
        apply_last(alloc, &mut self.undone, &mut self.done, table)?;
        Ok(())
    }
}
