//! A live table and its edit history.

ghost use Rattle.std.specs.Prelude.{◌≡◌};
ghost use Rattle.edited_table.specs.TableValue.{edited_table_without_edits};

use deck::Deck;
use edit_history::History;
use live_table::LiveTable;
use std::alloc::Global;
use std::marker::Model;

/// A live table together with the history of its edits. The history always belongs to the table's deck.
pub struct EditedTable {
    pub(crate) table: LiveTable,
    pub(crate) history: History,
}

// Implemented by hand, so that a function that drops an `EditedTable` proves nothing about its parts.
impl Drop for EditedTable {
    fn drop(self) {
        let EditedTable {
            table: _,
            history: _,
        } = self;
    }
}

impl Model for EditedTable {
    ghost use Rattle.edit_history.specs.Histories.{IsHistoryOf};
    ghost use Rattle.edited_table.specs.TableValue.{EditedTableView, edited_table_code};

    ghost Value = { EditedTableView };

    ghost coded = { edited_table_code };

    ghost view = { λ e. record { table = e.table; history = e.history } };

    ghost invariant = { λ e. IsHistoryOf e.history e.table.deck };
}

impl EditedTable {
    /// Returns a table over `deck` with no name settled and no edit made. Does not allocate.
    pub fn new(alloc: Global, deck: Deck) -> EditedTable
        ensures { result ≡ edited_table_without_edits deck }
    {
        EditedTable {
            table: LiveTable::new(alloc, deck),
            history: History::new(alloc),
        }
    }

    /// Returns the live table.
    pub fn table(&self) -> &LiveTable
        ensures { result.now ≡ self.now.table }
    {
        &self.table
    }
}
