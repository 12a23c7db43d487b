//! Replacement of lines and their marks in parallel vectors.

ghost use Rattle.std.specs.Prelude.{◌≡◌, ◌++◌, ◌+◌, ◌≤◌, [], length, map, take, drop, vec_capacity, vec_len, IfOk};
ghost use Rattle.std.specs.Prelude.{IfErr, OnOk, OnErr};
ghost use Rattle.deck_lines.specs.Exchanges.{HasStoreExchangeRoom, IsStoreExchanged};
ghost use Rattle.deck_lines.specs.Marks.{mark_of_store_line, store_line_without_mark, store_lines_with_marks};

use super::exchange::exchange;
use super::lists;
use crate::line::{DeckLine, DeckLines};
use def_lines::{Line, Lines};
use gap_list::GapList;
use std::alloc::{AllocError, AllocFailed, Global};
use std::mem;

/// Replaces the `cut` lines and marks from `at` on by those of `put`, and returns the replaced lines. If an allocation
/// fails, the error hands `put` back and nothing changes.
pub(crate) fn exchange_in_list(
    alloc: Global,
    lines: &mut Lines,
    marks: &mut GapList<bool>,
    at: usize,
    cut: usize,
    put: DeckLines,
) -> Result<DeckLines, AllocFailed<DeckLines>>
    requires each { length marks.old.listed ≡ length lines.old }
    requires places { at + cut ≤ length lines.old }
    ensures ok { OnOk result (IsStoreExchanged at cut (map store_line_without_mark put) lines.old lines.new
        × IsStoreExchanged at cut (map mark_of_store_line put) marks.old.listed marks.new.listed) }
    ensures gone { IfOk result (λ gone.
        gone ≡ store_lines_with_marks (take cut (drop at lines.old)) (take cut (drop at marks.old.listed))) }
    ensures err { OnErr result ((lines.new ≡ lines.old) × (marks.new.listed ≡ marks.old.listed)) }
    ensures back { IfErr result (λ refused. refused.value ≡ put) }
{
    let mut line_items = mem::replace(lines, Lines::new(alloc)).into_vec();
    let mut mark_items = mem::replace(marks, GapList::new(alloc)).into_vec();
    let result = exchange_marked(alloc, &mut line_items, &mut mark_items, at, cut, put);
    *lines = Lines::from(line_items);
    *marks = GapList::from(mark_items);
    result
}

// Does the work of `exchange_in_list` in vectors.
fn exchange_marked(
    alloc: Global,
    lines: &mut Vec<Line>,
    marks: &mut Vec<bool>,
    at: usize,
    cut: usize,
    put: DeckLines,
) -> Result<DeckLines, AllocFailed<DeckLines>>
    requires each { length marks.old.items ≡ length lines.old.items }
    requires places { at + cut ≤ length lines.old.items }
    ensures ok { OnOk result (IsStoreExchanged at cut (map store_line_without_mark put) lines.old.items lines.new.items
        × IsStoreExchanged at cut (map mark_of_store_line put) marks.old.items marks.new.items) }
    ensures gone { IfOk result (λ gone.
        gone ≡ store_lines_with_marks (take cut (drop at lines.old.items)) (take cut (drop at marks.old.items))) }
    ensures err { OnErr result ((lines.new.items ≡ lines.old.items) × (marks.new.items ≡ marks.old.items)) }
    ensures back { IfErr result (λ refused. refused.value ≡ put) }
{
    let Ok(mut room) = room_for(alloc, lines, marks, put.len(), cut) else {
        return Err(AllocFailed { value: put });
    };
    take_apart(put, &mut room.put_lines, &mut room.put_marks);
    exchange(lines, at, cut, &mut room.put_lines, &mut room.gone_lines);
    exchange(marks, at, cut, &mut room.put_marks, &mut room.gone_marks);
    Ok(join_gone(room))
}

/// Empty vectors for an exchange.
#[derive(Drop)]
struct ExchangeRoom {
    put_lines: Vec<Line>,
    put_marks: Vec<bool>,
    gone_lines: Vec<Line>,
    gone_marks: Vec<bool>,
    gone: Vec<DeckLine>,
}

// Makes room for an exchange.
fn room_for(
    alloc: Global,
    lines: &mut Vec<Line>,
    marks: &mut Vec<bool>,
    put: usize,
    cut: usize,
) -> Result<ExchangeRoom, AllocError>
    ensures lines { lines.new.items ≡ lines.old.items }
    ensures marks { marks.new.items ≡ marks.old.items }
    ensures line_room { OnOk result (vec_len lines.new + put ≤ vec_capacity lines.new) }
    ensures mark_room { OnOk result (vec_len marks.new + put ≤ vec_capacity marks.new) }
    ensures room { IfOk result (HasStoreExchangeRoom put cut) }
{
    lines.reserve(put)?;
    marks.reserve(put)?;
    empty_vectors(alloc, put, cut)
}

// Returns empty vectors with room for `put` lines that are inserted and `cut` lines that are replaced.
fn empty_vectors(alloc: Global, put: usize, cut: usize) -> Result<ExchangeRoom, AllocError>
    ensures { IfOk result (HasStoreExchangeRoom put cut) }
{
    Ok(ExchangeRoom {
        put_lines: Vec::with_capacity(alloc, put)?,
        put_marks: Vec::with_capacity(alloc, put)?,
        gone_lines: Vec::with_capacity(alloc, cut)?,
        gone_marks: Vec::with_capacity(alloc, cut)?,
        gone: Vec::with_capacity(alloc, cut)?,
    })
}

// Splits lines with marks into two empty vectors that have room for the lines and the marks.
fn take_apart(from: DeckLines, lines: &mut Vec<Line>, marks: &mut Vec<bool>)
    requires line_room { length from ≤ vec_capacity lines.old }
    requires mark_room { length from ≤ vec_capacity marks.old }
    requires no_lines { lines.old.items ≡ [] }
    requires no_marks { marks.old.items ≡ [] }
    ensures lines { lines.new.items ≡ map store_line_without_mark from }
    ensures marks { marks.new.items ≡ map mark_of_store_line from }
{
    let mut rest = from.into_vec();
    while let Some(line) = rest.pop() {
        let DeckLine { number, text, mark } = line;
        lists::put_last(lines, Line { number, text });
        lists::put_last(marks, mark);
    }
    lines.reverse();
    marks.reverse();
}

// Returns the replaced lines with their marks.
fn join_gone(room: ExchangeRoom) -> DeckLines
    requires each { length room.gone_marks.items ≡ length room.gone_lines.items }
    requires place { length room.gone_lines.items ≤ vec_capacity room.gone }
    requires empty { room.gone.items ≡ [] }
    ensures { result ≡ store_lines_with_marks room.gone_lines.items room.gone_marks.items }
{
    let ExchangeRoom {
        gone_lines,
        gone_marks,
        mut gone,
        ..
    } = room;
    put_together(gone_lines, gone_marks, &mut gone);
    DeckLines::from(gone)
}

// Joins lines and their marks in an empty vector with room for them.
fn put_together(mut lines: Vec<Line>, mut marks: Vec<bool>, into: &mut Vec<DeckLine>)
    requires each { length marks.items ≡ length lines.items }
    requires room { length lines.items ≤ vec_capacity into.old }
    requires empty { into.old.items ≡ [] }
    ensures { into.new.items ≡ store_lines_with_marks lines.items marks.items }
{
    while let Some(line) = lines.pop() {
        if let Some(mark) = marks.pop() {
            let Line { number, text } = line;
            lists::put_last(into, DeckLine { number, text, mark });
        }
    }
    into.reverse();
}
