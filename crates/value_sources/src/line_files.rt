//! The file names of lines.

ghost use Rattle.std.specs.Prelude.{◌≡◌, ◌<◌, ◌++◌, ◌∷◌, [], length, option_map, slice_get, true, OnOk};
ghost use Rattle.std.specs.Option.{is_some};
ghost use Rattle.value_sources.specs.LineFileNames as spec;

mod fault;
mod laws;
mod pass;
mod second_pass;
mod step;

pub use fault::LineFilesFault;
pub use laws::file_lines_law;
pub use second_pass::find_line_files;
use std::alloc::{AllocError, Global};
use std::marker::Model;
use units_io::{Text, Texts};

/// The name of the file of each line, in order. A line takes eight bytes, and the name of a file takes its length.
/// Contracts see it as a list of names.
#[derive(Drop)]
pub struct LineFiles {
    names: Texts,
    // For each line, the index of its file in `names`.
    numbers: Vec<usize>,
}

impl Model for LineFiles {
    ghost use Rattle.std.specs.Prelude.{List, ℕ, length};
    ghost use Rattle.value_sources.specs.LineFileNames as spec;

    ghost Value = { List (List ℕ) };

    ghost view = { λ files. spec.line_file_names_at files.names files.numbers.items };

    ghost invariant = { λ files. spec.AreLineFilesBelow (length files.names) files.numbers.items };
}

impl LineFiles {
    /// Returns a list without lines.
    pub(crate) fn new(alloc: Global) -> LineFiles
        ensures { result ≡ [] }
    {
        LineFiles {
            names: Texts::new(alloc),
            numbers: Vec::new(alloc),
        }
    }

    /// Returns the number of lines.
    pub fn len(&self) -> usize
        ensures { result ≡ length self.now }
    {
        self.numbers.len()
    }

    /// Returns the name of the file of the line at this place, counted from 0, or `None` if there is no such line.
    pub fn name(&self, line: usize) -> Option<&[u8]>
        ensures { option_map (λ name. name.now) result ≡ slice_get self.now line }
    {
        match self.numbers.get(line) {
            Some(number) => Some(name_at(self.names.as_slice(), *number)),
            None => None,
        }
    }

    /// Returns the number of the file of the line at this place, or `None` if there is no such line. A file that is
    /// included twice has two numbers. No contract states which line has which number.
    pub fn file_number(&self, line: usize) -> Option<usize>
        ensures { is_some result ≡ is_some (slice_get self.now line) }
    {
        self.numbers.get(line).copied()
    }

    /// Returns the number of stored names.
    pub(crate) fn name_count(&self) -> usize {
        self.names.len()
    }

    /// Appends a line of the file with this name. If the name is stored at `near`, it is not stored again.
    pub(crate) fn push(&mut self, alloc: Global, name: &[u8], near: usize) -> Result<(), AllocError>
        ensures { OnOk result (self.new ≡ self.old ++ name.now ∷ []) }
    {
        if has_name(self.names.as_slice(), near, name) {
            self.numbers.push(near)?;
            return Ok(());
        }
        let text = Text::from_bytes(alloc, name)?;
        let number = self.names.len();
        self.names.push(alloc, text)?;
        self.numbers.push(number)?;
        Ok(())
    }
}

// Returns the name at a place, or the empty name if there is none.
fn name_at(names: &[Text], place: usize) -> &[u8]
    ensures { result.now ≡ spec.line_file_name_at names.now place }
{
    match names.get(place) {
        Some(name) => name.as_bytes(),
        None => b"".as_slice(),
    }
}

// Reports whether the name at a place is `name`.
fn has_name(names: &[Text], place: usize, name: &[u8]) -> bool
    ensures within { result ≡ true → place < length names.now }
    ensures name { result ≡ true → spec.line_file_name_at names.now place ≡ name.now }
{
    place < names.len() && name_at(names, place) == name
}
