//! Lines with their marks, within the limits of a deck.

ghost use Rattle.std.specs.Prelude.{◌≡◌, ◌++◌, ◌∷◌, ◌+◌, ◌<◌, ◌≤◌, [], false, not, length, map, take, drop, IfOk};
ghost use Rattle.std.specs.Prelude.{IfErr, OnOk, OnErr, Some, slice_get};
ghost use Rattle.deck_lines.specs.Limits.{most_store_bytes, pass_store_limit, stored_bytes_in, stored_text_len};
ghost use Rattle.deck_lines.specs.Marks.{store_line_with_mark, store_line_without_mark, store_lines_with_marks};
ghost use Rattle.deck_lines.specs.Exchanges.{IsStoreExchanged};
ghost use Rattle.deck_lines.specs.declared.line.DeckLine as line_spec;

use super::line_replacement::exchange_in_list;
use crate::line::{BorrowedLine, DeckLine, DeckLines};
use def_lines::{Line, Lines};
use gap_list::GapList;
use std::alloc::{AllocError, AllocFailed, Global};
use std::marker::Model;

/// The maximum number of lines of a deck.
pub const MOST_LINES: usize = 100_000;

/// The maximum total number of bytes in the texts of the lines of a deck.
pub const MOST_BYTES: usize = 67_108_864;

/// Lines and their marks, in parallel lists, within the limits of a deck.
#[derive(Drop)]
pub(crate) struct LineList {
    lines: Lines,
    marks: GapList<bool>,
    bytes: usize,
}

impl Model for LineList {
    ghost use Rattle.std.specs.Prelude.{List};
    ghost use Rattle.deck_lines.specs.declared.line.DeckLine.{DeckLine};
    ghost use Rattle.deck_lines.specs.Marks.{store_lines_with_marks};
    ghost use Rattle.deck_lines.specs.Within.{IsWithinStoreLimit};

    ghost Value = { List DeckLine };

    ghost view = { λ l. store_lines_with_marks l.lines l.marks.listed };

    ghost invariant = { λ l. IsWithinStoreLimit l.lines l.marks.listed l.bytes };
}

impl LineList {
    /// Returns an empty list.
    pub(crate) fn new(alloc: Global) -> LineList
        ensures { result ≡ [] }
    {
        LineList {
            lines: Lines::new(alloc),
            marks: GapList::new(alloc),
            bytes: 0,
        }
    }

    /// Returns the number of lines.
    pub(crate) fn len(&self) -> usize
        ensures { result ≡ length self.now }
    {
        self.lines.len()
    }

    /// Returns the lines without their marks.
    pub(crate) fn lines(&self) -> &Lines
        ensures lines { result.now ≡ map store_line_without_mark self.now }
        ensures within { pass_store_limit self.now ≡ false }
    {
        &self.lines
    }

    /// Returns the line at `place` with its mark.
    pub(crate) fn line(&self, place: usize) -> BorrowedLine<'_>
        requires { place < length self.now }
        ensures is { slice_get self.now place
            ≡ Some (record { number = result.number; text = result.text.now; mark = result.mark }) }
        ensures within { pass_store_limit self.now ≡ false }
    {
        let Some(line) = self.lines.get(place) else {
            unreachable!()
        };
        let Some(mark) = self.marks.get(place) else {
            unreachable!()
        };
        BorrowedLine {
            number: line.number,
            text: line.text.as_bytes(),
            mark: *mark,
        }
    }

    /// Reports whether one more line with a text of `len` bytes is within the limits.
    pub(crate) fn has_room(&self, len: usize) -> bool
        ensures { (line : line_spec.DeckLine) → length line.text ≡ len
            → pass_store_limit (self.now ++ line ∷ []) ≡ not result }
    {
        self.lines.len() < MOST_LINES && len <= MOST_BYTES - self.bytes
    }

    /// Appends a line with its mark. On an error nothing changes.
    pub(crate) fn push(&mut self, alloc: Global, line: Line, mark: bool) -> Result<(), AllocError>
        requires { pass_store_limit (self.old ++ store_line_with_mark mark line ∷ []) ≡ false }
        ensures ok { OnOk result (self.new ≡ self.old ++ store_line_with_mark mark line ∷ []) }
        ensures err { OnErr result (self.new ≡ self.old) }
    {
        let len = line.text.as_bytes().len();
        self.marks.reserve(1)?;
        self.lines.push(alloc, line)?;
        self.marks.put(mark);
        self.bytes += len;
        Ok(())
    }

    /// Keeps only the first `len` lines, or all lines if there are fewer.
    pub(crate) fn truncate(&mut self, len: usize)
        ensures { self.new ≡ take len self.old }
    {
        if self.lines.len() <= len {
            return;
        }
        self.bytes -= texts_len(&self.lines, len);
        self.lines.truncate(len);
        self.marks.truncate(len);
    }

    /// Removes the line at `place`.
    pub(crate) fn remove(&mut self, place: usize)
        requires { place < length self.old }
        ensures { self.new ≡ take place self.old ++ drop (place + 1) self.old }
    {
        self.bytes -= self.line(place).text.len();
        self.lines.remove(place);
        self.marks.remove(place);
    }

    /// Replaces the `cut` lines from `at` on by `put`, and returns the replaced lines. If an allocation fails, the
    /// error hands `put` back and nothing changes.
    pub(crate) fn exchange(
        &mut self,
        alloc: Global,
        at: usize,
        cut: usize,
        put: DeckLines,
    ) -> Result<DeckLines, AllocFailed<DeckLines>>
        requires places { at + cut ≤ length self.old }
        requires within { pass_store_limit (take at self.old ++ (put ++ drop (at + cut) self.old)) ≡ false }
        ensures ok { OnOk result (IsStoreExchanged at cut put self.old self.new) }
        ensures gone { IfOk result (λ gone. gone ≡ take cut (drop at self.old)) }
        ensures err { OnErr result (self.new ≡ self.old) }
        ensures back { IfErr result (λ refused. refused.value ≡ put) }
    {
        let len = marked_texts_len(put.as_slice());
        let gone = exchange_in_list(alloc, &mut self.lines, &mut self.marks, at, cut, put)?;
        self.bytes = self.bytes + len - marked_texts_len(gone.as_slice());
        Ok(gone)
    }
}

// Returns the total number of bytes in the texts of lines with marks.
fn marked_texts_len(lines: &[DeckLine]) -> usize
    requires { stored_text_len lines.now ≤ most_store_bytes }
    ensures { result ≡ stored_text_len lines.now }
{
    let mut len = 0;
    for line in lines {
        len += line.text.as_bytes().len();
    }
    len
}

// Returns the total number of bytes in the texts of the lines from `start` on.
fn texts_len(lines: &Lines, start: usize) -> usize
    requires range { start ≤ length lines.now }
    requires within { stored_bytes_in lines.now ≤ most_store_bytes }
    ensures { result ≡ stored_bytes_in (drop start lines.now) }
{
    let mut len = 0;
    for place in start..lines.len() {
        let Some(line) = lines.get(place) else {
            unreachable!()
        };
        len += line.text.as_bytes().len();
    }
    len
}
