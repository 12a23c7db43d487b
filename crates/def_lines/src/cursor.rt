//! Iteration over the logical lines of a file.
ghost use Rattle.std.specs.Prelude.{◌≡◌, ◌≤◌, ◌+◌, ◌++◌, ◌∷◌, [], List, IfOk, OnErr, length, map};
ghost use Rattle.std.specs.Map.Iter.{TakesFirst};
ghost use Rattle.def_lines.specs.Lines.{logical_lines, logical_lines_after, nonblank_lines, numbered_logical_lines};
ghost use Rattle.def_lines.specs.Lines.{physical_lines, logical_lines_with_front, trimmed_logical_line};

use crate::line::{LentLine, Line};
use crate::line_list::Lines;
use crate::part::Part;
use crate::physical::{clean, line_feed_count, next_line, strip_last};
use std::alloc::{AllocError, Global};
use std::marker::Model;

/// The remaining logical lines of a file, which are taken from the front. Contracts see them as a list.
#[derive(Drop)]
pub struct Cursor<'a> {
    rest: &'a [u8],
    number: u32,
}

impl<'a> Model for Cursor<'a> {
    ghost use Rattle.std.specs.Prelude.{◌≤◌, ◌+◌, List, length};
    ghost use Rattle.def_lines.specs.declared.line.Line.{Line};

    ghost Value = { List Line };

    ghost use Rattle.def_lines.specs.Lines.{logical_lines_after};

    ghost view = { λ cursor. logical_lines_after cursor.number cursor.rest.now };

    ghost invariant = { λ cursor. cursor.number + length cursor.rest.now ≤ 16777216 };
}

impl<'a> Cursor<'a> {
    /// Creates a cursor over all logical lines of a file of at most 16,777,216 bytes, including blank ones. A physical
    /// line ends at a line feed or at the end of the file. A final carriage return is removed, then `#` and the text
    /// after it, then trailing blanks. If the rest ends in `\`, the `\` is replaced by a space and the next line is
    /// appended. The number of a logical line is that of its first physical line, from 1.
    pub fn new(bytes: &'a [u8]) -> Cursor<'a>
        requires { length bytes.now ≤ 16777216 }
        ensures { result ≡ logical_lines bytes.now }
    {
        Cursor {
            rest: bytes,
            number: 0,
        }
    }

    /// Returns the next line, or `None` if none is left. Memory is allocated only for a line joined from several
    /// physical ones. If the allocation fails, no line is taken.
    pub fn take(&mut self, alloc: Global) -> Result<Option<LentLine<'a>>, AllocError>
        ensures ok { IfOk result (λ line. TakesFirst (λ line. line) self.old line self.new) }
        ensures err { OnErr result (self.new ≡ self.old) }
    {
        if self.rest.is_empty() {
            return Ok(None);
        }
        let (line, behind) = next_line(self.rest);
        let line = clean(line);
        let number = self.number + 1;
        let Some(start) = strip_last(line, b'\\') else {
            self.rest = behind;
            self.number = number;
            return Ok(Some(LentLine::of_physical_line(number, line)));
        };
        match join_lines(alloc, number, start, behind) {
            Ok(joined) => {
                self.rest = joined.behind;
                self.number = joined.number;
                Ok(Some(LentLine::of_joined_line(joined.line)))
            }
            Err(e) => Err(e),
        }
    }

    /// Returns the next line that is not blank, or `None` if none is left. Memory is allocated only for a line joined
    /// from several physical ones. If the allocation fails, only blank lines are taken.
    pub fn take_shown(&mut self, alloc: Global) -> Result<Option<LentLine<'a>>, AllocError>
        ensures ok { IfOk result (λ line. TakesFirst (λ line. line) (nonblank_lines self.old) line
            (nonblank_lines self.new)) }
        ensures err { OnErr result (nonblank_lines self.new ≡ nonblank_lines self.old) }
    {
        while let Some(line) = self.take(alloc)? {
            if !line.text().is_empty() {
                return Ok(Some(line));
            }
            self.skip_line_feeds();
        }
        Ok(None)
    }

    // Skips the empty physical lines at the front. A file may have millions of them.
    fn skip_line_feeds(&mut self)
        ensures shown { nonblank_lines self.new ≡ nonblank_lines self.old }
        ensures fewer { length self.new ≤ length self.old }
    {
        let count = line_feed_count(self.rest);
        let (_, rest) = self.rest.split_at(count);
        self.rest = rest;
        self.number += count as u32;
    }
}

// A joined line, the bytes after it, and the number of its last physical line.
#[derive(Drop)]
struct Joined<'a> {
    line: Line,
    behind: &'a [u8],
    number: u32,
}

// Returns the line of this number that starts with these bytes and continues in the next physical line.
fn join_lines<'a>(
    alloc: Global,
    number: u32,
    start: &[u8],
    bytes: &'a [u8],
) -> Result<Joined<'a>, AllocError>
    requires { number + length bytes.now ≤ 16777216 }
    ensures lines { IfOk result (λ taken. taken.line ∷ logical_lines_after taken.number taken.behind.now
        ≡ map trimmed_logical_line
        (logical_lines_with_front number (start.now ++ 32 ∷ [])
        (numbered_logical_lines (number + 1) (physical_lines bytes.now)))) }
    ensures few { IfOk result (λ taken. taken.number + length taken.behind.now ≤ number + length bytes.now) }
{
    let mut part = Part::new(alloc, number);
    part.go_on(start)?;
    let mut last = number;
    let mut rest = bytes;
    while !rest.is_empty() {
        let (line, behind) = next_line(rest);
        let line = clean(line);
        last += 1;
        rest = behind;
        match strip_last(line, b'\\') {
            Some(start) => part.go_on(start)?,
            None => {
                return Ok(Joined {
                    line: part.end_line(line)?,
                    behind,
                    number: last,
                });
            }
        }
    }
    Ok(Joined {
        line: part.complete(),
        behind: rest,
        number: last,
    })
}

/// Returns the logical lines of a file of at most 16,777,216 bytes, in the form that a cursor returns. Fails only if
/// memory runs out.
pub fn split_lines(alloc: Global, bytes: &[u8]) -> Result<Lines, AllocError>
    requires { length bytes.now ≤ 16777216 }
    ensures { IfOk result (λ lines. lines ≡ logical_lines bytes.now) }
{
    let mut lines = Lines::new(alloc);
    let mut cursor = Cursor::new(bytes);
    while let Some(line) = cursor.take(alloc)? {
        lines.push(alloc, line.into_line(alloc)?)?;
    }
    Ok(lines)
}
