//! Compares the lines of files with those of a deck as they are read.

ghost use Rattle.std.specs.Prelude.{◌≡◌, ◌++◌, ◌∷◌, [], OnOk};
ghost use Rattle.deck_lines.specs.Blocks.{block_end_text};
ghost use Rattle.deck_lines.specs.Blocks as blocks;

use super::LineFiles;
use super::fault::LineFilesFault;
use deck_lines::Ending;
use def_lines::{Line, Lines};
use std::alloc::Global;

/// The files of the lines that have been read so far, and the lines of the deck.
#[derive(Drop)]
pub(crate) struct Pass<'a> {
    pub(crate) expected: &'a Lines,
    pub(crate) found: LineFiles,
}

/// A file that is being read: its name, the index at which the name may be stored, and how deep files may be nested
/// below it.
#[derive(Clone, Copy)]
pub(crate) struct NamedFile<'a> {
    pub(crate) name: &'a [u8],
    pub(crate) near: usize,
    pub(crate) depth: u8,
}

impl<'a> Pass<'a> {
    /// Appends the next line, which is in this file. The error is `Changed` if the deck does not have this line at this
    /// place, and `OutOfMemory` if an allocation fails.
    pub(crate) fn push(
        &mut self,
        alloc: Global,
        file: NamedFile<'_>,
        number: u32,
        text: &[u8],
    ) -> Result<(), LineFilesFault>
        ensures { OnOk result (self.new.found ≡ self.old.found ++ file.entry.name.now ∷ []) }
    {
        if !is_line(self.expected.get(self.found.len()), number, text) {
            return Err(LineFilesFault::Changed);
        }
        self.found.push(alloc, file.name, file.near)?;
        Ok(())
    }
}

// Reports whether there is a line, and it has this number and this text.
fn is_line(line: Option<&Line>, number: u32, text: &[u8]) -> bool {
    match line {
        Some(line) => line.number == number && line.text.as_bytes() == text,
        None => false,
    }
}

/// Returns the text of the end line for an ending.
pub(crate) fn end_line_text(ending: Ending) -> &'static [u8]
    ensures { result.now ≡ block_end_text ending }
{
    match ending {
        Ending::ByLocale => b"!endlocale".as_slice(),
        Ending::ByVar => b"!endvar".as_slice(),
        Ending::ByUtf8 => b"!endutf8".as_slice(),
    }
}

/// Reports whether two endings are equal.
pub(crate) fn same_ending(ending: Ending, other: Ending) -> bool
    ensures { result ≡ blocks.same_block_ending ending other }
{
    matches!(
        (ending, other),
        (Ending::ByLocale, Ending::ByLocale)
            | (Ending::ByVar, Ending::ByVar)
            | (Ending::ByUtf8, Ending::ByUtf8)
    )
}
