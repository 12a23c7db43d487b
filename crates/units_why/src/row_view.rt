//! Rows as they are written.

use crate::outcome::LentOutcome;
use crate::row_note::RowNote;
use def_entry::Key;
use value_sources::StoredMention;

/// A row with what a tree shows about it.
#[derive(Clone, Copy)]
pub(crate) struct RowView<'r, 'k, 'o> {
    pub(crate) mention: &'r StoredMention,
    /// The key that its word leads to.
    pub(crate) key: Option<&'k Key>,
    pub(crate) note: &'r RowNote,
    /// The outcome of its key. It is used only if the row shows the definition of its key.
    pub(crate) outcome: LentOutcome<'o>,
}

impl<'r, 'k> RowView<'r, 'k, '_> {
    /// Returns the row with another outcome.
    pub(crate) fn with_outcome<'o>(self, outcome: LentOutcome<'o>) -> RowView<'r, 'k, 'o> {
        RowView {
            mention: self.mention,
            key: self.key,
            note: self.note,
            outcome,
        }
    }
}
