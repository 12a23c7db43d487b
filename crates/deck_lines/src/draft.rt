//! The lines and notices that a load has read so far.

ghost use Rattle.std.specs.Prelude.{◌≡◌, ◌++◌, ◌∷◌, [], OnOk, OnErr, option_map};
ghost use Rattle.def_entry.specs.LineViews.{seen_entry};
ghost use Rattle.deck_lines.specs.Excerpts.{line_with_notice, line_without_notice, notice};
ghost use Rattle.deck_lines.specs.Loads.{IsExcerptPut};
ghost use Rattle.deck_lines.specs.Marks.{plain_store_line};
ghost use Rattle.deck_lines.specs.Readings.{entry_in_store_line};
ghost use Rattle.deck_lines.specs.Stores.{store_without_lines};

use crate::store::LineStore;
use def_entry::{Key, What};
use def_lines::Line;
use std::alloc::{AllocError, AllocFailed, Global};
use units_io::{HashSeed, Text, Texts};

/// A list of notices, in order.
pub type Notices = Texts;

/// Why a load ends early.
#[derive(Clone, Copy, Debug, PartialEq, Eq)]
pub enum LoadFault {
    /// The lines pass a limit.
    DeckFull,
    /// An included file could not be read.
    ReadFailed,
    /// An allocation failed.
    OutOfMemory,
}

impl From<AllocError> for LoadFault {
    ghost use Rattle.std.specs.Prelude.{◌≡◌};
    ghost use Rattle.deck_lines.specs.declared.draft.LoadFault.TheVariants.{OutOfMemory};

    ghost from_gives = { λ _ e. e ≡ OutOfMemory };

    fn from(_: AllocError) -> Self {
        LoadFault::OutOfMemory
    }
}

impl<T: Drop> From<AllocFailed<T>> for LoadFault {
    ghost use Rattle.std.specs.Prelude.{◌≡◌};
    ghost use Rattle.deck_lines.specs.declared.draft.LoadFault.TheVariants.{OutOfMemory};

    ghost from_gives = { λ _ e. e ≡ OutOfMemory };

    fn from(_: AllocFailed<T>) -> Self {
        LoadFault::OutOfMemory
    }
}

/// The lines and notices that a load has read so far, after those that the draft held before.
#[derive(Drop)]
pub struct Draft {
    pub store: LineStore,
    pub notices: Notices,
}

impl Draft {
    /// Returns a draft without lines and notices. `seed` is the hash seed of its tables of names.
    pub fn new(alloc: Global, seed: HashSeed) -> Draft
        ensures { result ≡ record { store = store_without_lines; notices = [] } }
    {
        Draft {
            store: LineStore::new(alloc, seed),
            notices: Notices::new(alloc),
        }
    }

    /// Appends a line that has effect, with its definition. Returns `DeckFull` if the line would pass a limit, and
    /// `OutOfMemory` if an allocation fails.
    pub(crate) fn push_line(
        &mut self,
        alloc: Global,
        line: Line,
        definition: Option<(Key, What)>,
    ) -> Result<(), LoadFault>
        requires { option_map (seen_entry line.text) definition
            ≡ entry_in_store_line (plain_store_line line.number line.text) }
        ensures put { IsExcerptPut self.old (line_without_notice line) result self.new }
        ensures err { OnErr result (self.new.store ≡ self.old.store) }
    {
        if !self.store.has_room(line.text.as_bytes().len()) {
            return Err(LoadFault::DeckFull);
        }
        self.store.push(alloc, line, false, definition)?;
        Ok(())
    }

    /// Appends a line of `file` that has no effect, and a notice with `text`. Returns `DeckFull` if the line would pass
    /// a limit, and `OutOfMemory` if an allocation fails.
    #[tactic(auto, unfolding(crate::specs::Readings::entry_in_store_line))]
    pub(crate) fn refuse_line(
        &mut self,
        alloc: Global,
        file: &[u8],
        line: Line,
        text: &[u8],
    ) -> Result<(), LoadFault>
        ensures put { IsExcerptPut self.old (line_with_notice file.now line text.now) result self.new }
        ensures err { OnErr result (self.new.store ≡ self.old.store) }
    {
        if !self.store.has_room(line.text.as_bytes().len()) {
            return Err(LoadFault::DeckFull);
        }
        self.push_notice(alloc, file, line.number, text)?;
        self.store.push(alloc, line, true, None)?;
        Ok(())
    }

    /// Appends a notice about the line with this number in `file`.
    pub(crate) fn push_notice(
        &mut self,
        alloc: Global,
        file: &[u8],
        number: u32,
        text: &[u8],
    ) -> Result<(), AllocError>
        ensures ok { OnOk result (self.new.notices ≡ self.old.notices ++ notice file.now number text.now ∷ []) }
        ensures store { self.new.store ≡ self.old.store }
    {
        let mut words = Vec::from_slice(alloc, file)?;
        words.extend_from_slice(b":")?;
        words.extend_from_slice(number.to_string(alloc)?.as_bytes())?;
        words.extend_from_slice(b": ")?;
        words.extend_from_slice(text)?;
        self.notices.push(alloc, Text::from(words))
    }
}
