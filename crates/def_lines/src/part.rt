//! The first part of a logical line that continues.
ghost use Rattle.std.specs.Prelude.{◌≡◌, ◌++◌, ◌∷◌, [], List, ℕ, IfOk, OnOk, map, true};
ghost use Rattle.def_lines.specs.declared.line.Line as line_spec;
ghost use Rattle.def_lines.specs.Blanks.{trimmed_of_blanks};
ghost use Rattle.def_lines.specs.Lines.{logical_lines_with_front, trimmed_logical_line};
ghost use Rattle.def_lines.specs.Parts.{begins_without_blank};

use crate::blanks::{kept_len, trim_front};
use crate::line::Line;
use std::alloc::{AllocError, Global};
use units_io::Text;

// The number of the first physical line, and the text so far without leading blanks.
#[derive(Drop)]
pub(crate) struct Part {
    pub(crate) number: u32,
    pub(crate) text: Vec<u8>,
    ghost begun: { begins_without_blank text.items ≡ true },
}

impl Part {
    // Creates a line without text.
    pub(crate) fn new(alloc: Global, number: u32) -> Part
        ensures number { result.number ≡ number }
        ensures text { result.text.items ≡ [] }
    {
        Part {
            number,
            text: Vec::new(alloc),
        }
    }

    // Appends bytes.
    fn put_bytes(&mut self, bytes: &[u8]) -> Result<(), AllocError>
        ensures number { self.new.number ≡ self.old.number }
        ensures text { OnOk result ((behind : List ℕ) → trimmed_of_blanks (self.new.text.items ++ behind)
            ≡ trimmed_of_blanks (self.old.text.items ++ (bytes.now ++ behind))) }
    {
        if self.text.as_slice().is_empty() {
            self.text.extend_from_slice(trim_front(bytes))
        } else {
            self.text.extend_from_slice(bytes)
        }
    }

    // Appends the text before a `\`, and a space in place of the `\`.
    pub(crate) fn go_on(&mut self, start: &[u8]) -> Result<(), AllocError>
        ensures { OnOk result ((number : ℕ) (more : List line_spec.Line) →
            map trimmed_logical_line (logical_lines_with_front self.new.number self.new.text.items more)
            ≡ map trimmed_logical_line
            (logical_lines_with_front self.old.number self.old.text.items
            (logical_lines_with_front number (start.now ++ 32 ∷ []) more))) }
    {
        self.put_bytes(start)?;
        self.put_bytes(b" ")
    }

    // Returns the line, if no text follows.
    pub(crate) fn complete(self) -> Line
        ensures number { result.number ≡ self.number }
        ensures text { result.text ≡ trimmed_of_blanks self.text.items }
    {
        let Part { number, mut text } = self;
        text.truncate(kept_len(text.as_slice()));
        Line {
            number,
            text: Text::from(text),
        }
    }

    // Appends the bytes that end the line, and returns the line.
    pub(crate) fn end_line(mut self, bytes: &[u8]) -> Result<Line, AllocError>
        ensures { IfOk result (λ line. (number : ℕ) (more : List line_spec.Line) → line ∷ map trimmed_logical_line more
            ≡ map trimmed_logical_line
            (logical_lines_with_front self.number self.text.items
            (record { number = number; text = bytes.now } ∷ more))) }
    {
        self.put_bytes(bytes)?;
        Ok(self.complete())
    }
}
