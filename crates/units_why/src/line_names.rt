//! The names of the files that contain the lines of a deck.

ghost use Rattle.std.specs.Prelude.{◌≤◌, length, IfOk, IfSome};
ghost use Rattle.units_io.specs.FileMap.{longest_file};

use crate::shadows::has_one_line_per_key;
use deck::Deck;
use def_lines::{LineKind, classify};
use memchr::memchr_iter;
use std::alloc::{AllocError, Global};
use units_io::{FetchFault, Files, Text};
use value_sources::{LineFiles, LineFilesFault, find_line_files};

/// The file of each line of a deck.
pub(crate) enum LineNames {
    /// All lines are in the file of this name.
    One(Text),
    /// Lines are in these files.
    Many(LineFiles),
}

// Written by hand, so that code that drops line names need not prove anything about their contents.
impl Drop for LineNames {
    fn drop(self) {
        match self {
            LineNames::One(_) | LineNames::Many(_) => (),
        }
    }
}

impl LineNames {
    /// Returns the name of the file of the line at this place.
    pub(crate) fn name(&self, place: usize) -> Option<&[u8]> {
        match self {
            LineNames::One(name) => Some(name.as_bytes()),
            LineNames::Many(files) => files.name(place),
        }
    }

    /// Returns the number of the file of the line at this place.
    pub(crate) fn file_number(&self, place: usize) -> Option<usize> {
        match self {
            LineNames::One(_) => Some(0),
            LineNames::Many(files) => files.file_number(place),
        }
    }
}

/// Returns the files of the lines of a deck that was loaded from the file `name`, or `None` if the files changed. All
/// lines of a deck that includes no file are in that file, which is not read again.
pub(crate) fn line_names<F: Files>(
    alloc: Global,
    files: &mut F,
    name: &[u8],
    deck: &Deck,
) -> Result<Option<LineNames>, AllocError> {
    if !has_includes(deck) {
        return Ok(Some(LineNames::One(Text::from_bytes(alloc, name)?)));
    }
    let Some(text) = text_of(alloc, files, name)? else {
        return Ok(None);
    };
    match find_line_files(alloc, files, name, text.as_bytes(), deck.lines()) {
        Ok(found) => Ok(Some(LineNames::Many(found))),
        Err(LineFilesFault::Changed) => Ok(None),
        Err(LineFilesFault::OutOfMemory) => Err(AllocError),
    }
}

/// Does the same for a caller that reads the lines in their files again: returns `None` also if the only file has fewer
/// lines now.
pub(crate) fn line_names_to_read<F: Files>(
    alloc: Global,
    files: &mut F,
    name: &[u8],
    deck: &Deck,
) -> Result<Option<LineNames>, AllocError> {
    let names = line_names(alloc, files, name, deck)?;
    let Some(LineNames::One(_)) = &names else {
        return Ok(names);
    };
    match text_of(alloc, files, name)? {
        Some(text) if last_number(deck) <= line_count(text.as_bytes()) => Ok(names),
        _ => Ok(None),
    }
}

// Returns the text of a file, or `None` if it cannot be read.
fn text_of<F: Files>(alloc: Global, files: &mut F, name: &[u8]) -> Result<Option<Text>, AllocError>
    ensures { IfOk result (λ found. IfSome found (λ text. length text ≤ longest_file)) }
{
    match files.fetch(alloc, name) {
        Ok(text) => Ok(Some(text)),
        Err(FetchFault::OutOfMemory) => Err(AllocError),
        Err(_) => Ok(None),
    }
}

// Returns whether a line of a deck includes a file.
fn has_includes(deck: &Deck) -> bool {
    if has_one_line_per_key(deck) {
        return false;
    }
    let lines = deck.lines();
    for place in 0..lines.len() {
        if let Some(line) = lines.get(place) {
            if is_include(line.text.as_bytes()) {
                return true;
            }
        }
    }
    false
}

// Returns whether a line includes a file. Only a line with a `!` at its start can be a directive.
fn is_include(line: &[u8]) -> bool {
    match line.first() {
        Some(b'!') => matches!(classify(line), LineKind::Include(_)),
        _ => false,
    }
}

// Counts the lines of a text. A last line without a line feed counts too.
fn line_count(text: &[u8]) -> usize {
    let mut count = 0usize;
    for _ in memchr_iter(b'\n', text) {
        count = count.saturating_add(1);
    }
    match text.last() {
        None | Some(b'\n') => count,
        Some(_) => count.saturating_add(1),
    }
}

// Returns the largest line number.
fn last_number(deck: &Deck) -> usize {
    let lines = deck.lines();
    let mut last = 0;
    for place in 0..lines.len() {
        if let Some(line) = lines.get(place) {
            last = line.number.max(last);
        }
    }
    last as usize
}
