//! A logical line.
ghost use Rattle.std.specs.Prelude.{◌≡◌, IfOk};
ghost use Rattle.def_lines.specs.Blanks.{trimmed_of_blanks};

use crate::blanks::trim;
use std::alloc::{AllocError, Global};
use std::borrow::CowSlice;
use std::marker::Model;
use units_io::Text;

/// A logical line of a file.
#[derive(Drop)]
pub struct Line {
    /// The number of its first physical line, from 1.
    pub number: u32,
    /// The content, without blanks at the ends.
    pub text: Text,
}

/// A logical line of a file. Its text is borrowed from the file if the line is a single physical line.
#[derive(Drop)]
pub struct LentLine<'a> {
    number: u32,
    text: CowSlice<'a, u8>,
}

impl<'a> Model for LentLine<'a> {
    ghost use Rattle.std.specs.Cow.{cow_slice_items};
    ghost use Rattle.def_lines.specs.declared.line.Line.{Line};

    ghost Value = { Line };

    ghost view = { λ line. record { number = line.number; text = cow_slice_items line.text } };
}

impl<'a> LentLine<'a> {
    // Creates a line from a single physical line.
    pub(crate) fn of_physical_line(number: u32, text: &'a [u8]) -> LentLine<'a>
        ensures { result ≡ record { number = number; text = trimmed_of_blanks text.now } }
    {
        LentLine {
            number,
            text: CowSlice::Borrowed(trim(text)),
        }
    }

    // Creates a line from a joined one.
    pub(crate) fn of_joined_line(line: Line) -> LentLine<'a>
        ensures { result ≡ line }
    {
        LentLine {
            number: line.number,
            text: CowSlice::Owned(line.text.into_bytes()),
        }
    }

    /// Returns the number of the first physical line, from 1.
    pub fn number(&self) -> u32
        ensures { result ≡ self.now.number }
    {
        self.number
    }

    /// Returns the content, without blanks at the ends.
    pub fn text(&self) -> &[u8]
        ensures { result.now ≡ self.now.text }
    {
        self.text.as_slice()
    }

    /// Converts the line into one that owns its text. A borrowed text is copied.
    pub fn into_line(self, alloc: Global) -> Result<Line, AllocError>
        ensures { IfOk result (λ line. line ≡ self.entry) }
    {
        Ok(Line {
            number: self.number,
            text: Text::from(self.text.into_owned(alloc)?),
        })
    }
}
