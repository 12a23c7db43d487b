//! The parts of a session.

use edit_history::History;
use live_table::LiveTable;
use reply::Options;
use units_io::Text;
use watch::Watches;

/// The parts of a session: the options for its replies, the live table with the history of its edits, the text of FROM
/// if one is pending, and the watched conversions.
pub(crate) struct Workspace {
    pub(crate) options: Options,
    pub(crate) table: LiveTable,
    pub(crate) history: History,
    pub(crate) pending: Option<Text>,
    pub(crate) watches: Watches,
}

// Written by hand, so that code that drops a workspace need not prove anything about its contents.
impl Drop for Workspace {
    fn drop(self) {
        let Workspace {
            options: _,
            table: _,
            history: _,
            pending: _,
            watches: _,
        } = self;
    }
}
