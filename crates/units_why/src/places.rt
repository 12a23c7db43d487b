//! The places of lines in files.

use crate::decimal::put_number;
use crate::definitions::Definitions;
use crate::json::{put_number_member, put_text_member};
use crate::line_names::LineNames;
use crate::writer::Writer;
use deck::Deck;
use std::sync::ledger::Ledger;

/// Maps the lines of a deck to files.
#[derive(Clone, Copy)]
pub(crate) struct Places<'a> {
    pub(crate) deck: &'a Deck,
    pub(crate) names: Option<&'a LineNames>,
    /// Whether the lines are the built-in definitions, which are in no file.
    pub(crate) are_built_in: bool,
}

/// The file of a line, and its line number in that file.
#[derive(Clone, Copy)]
pub(crate) struct FileLine<'a> {
    pub(crate) file: &'a [u8],
    pub(crate) number: usize,
}

impl<'a> Places<'a> {
    /// Returns the places of the lines of `definitions`.
    pub(crate) fn of<L: Ledger>(definitions: &'a Definitions<L>) -> Places<'a> {
        Places {
            deck: definitions.evaluator.deck(),
            names: definitions.names.as_ref(),
            are_built_in: definitions.are_built_in,
        }
    }

    /// Returns the number of the file of the line at this place in the deck, or 0 if it is unknown.
    pub(crate) fn file_number(self, place: usize) -> usize {
        match self.names {
            Some(names) => names.file_number(place).unwrap_or(0),
            None => 0,
        }
    }

    /// Returns the file and the line number of the line at this place in the deck, if the files of the lines are known.
    pub(crate) fn line(self, place: usize) -> Option<FileLine<'a>> {
        let line = self.deck.lines().get(place)?;
        let file = self.names?.name(place)?;
        Some(FileLine {
            file,
            number: line.number as usize,
        })
    }
}

/// Appends `FILE:LINE`, or `?` if the files of the lines are unknown.
pub(crate) fn put_place(out: &mut Writer, places: Places<'_>, place: usize) {
    match places.line(place) {
        Some(line) => {
            out.put(line.file);
            out.put_byte(b':');
            put_number(out, line.number);
        }
        None => out.put_byte(b'?'),
    }
}

/// Appends the members `file` and `line`, each after a comma, if they are known.
pub(crate) fn put_place_members(out: &mut Writer, places: Places<'_>, place: usize) {
    if let Some(line) = places.line(place) {
        put_text_member(out, b"file", line.file);
        put_number_member(out, b"line", line.number);
    }
}
