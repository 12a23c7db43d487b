//! The kinds of calls on a live table, and the load before them.

use crate::edit_calls::settings_of;
use crate::history_board::history_answers;
use crate::reply_board::reply_answers;
use crate::value_board::value_answers;
use deck::{Deck, DeckFault};
use def_entry::cut_at;
use live_table::LiveTable;
use std::alloc::{AllocError, Global};
use std::sync::ledger::Ledger;
use units_io::{Files, Steps};

// A kind of calls on a live table.
#[derive(Clone, Copy)]
pub(crate) enum TableKind {
    // Queries and edits of a live table.
    Values,
    // Edits with their history.
    History,
    // Replies and reports.
    Answers,
}

// Returns the answers to the lines. The first line, `load FILE`, loads a deck; if that fails, its answer is the only
// one. Fails only if memory runs out.
pub(crate) fn table_answers<F: Files + Drop, L: Ledger>(
    alloc: Global,
    mut files: F,
    steps: Steps<L>,
    kind: TableKind,
    lines: &[u8],
) -> Result<Vec<u8>, AllocError> {
    let (first, calls) = cut_at(lines, b'\n').unwrap_or((lines, b""));
    let Some(name) = first.strip_prefix(b"load ".as_slice()) else {
        return Vec::from_slice(alloc, b"no deck\n");
    };
    match load(alloc, &mut files, name) {
        Ok(live) => match kind {
            TableKind::Values => value_answers(alloc, files, live, steps, calls),
            TableKind::History => history_answers(alloc, files, live, steps, calls),
            TableKind::Answers => reply_answers(alloc, live, steps, calls),
        },
        Err(fault) => load_fault_answer(alloc, kind, &fault),
    }
}

// Loads the table of a file. It is in a box, since a function that reaches a field of a struct is proved with the layout
// of all its fields.
fn load<F: Files>(alloc: Global, files: &mut F, name: &[u8]) -> Result<Box<LiveTable>, DeckFault> {
    let settings = settings_of(alloc, b"en_US")?;
    let deck = Deck::load(alloc, files, name, settings)?;
    Ok(Box::new(alloc, LiveTable::new(alloc, deck))?)
}

// Returns a line that says why the load of a file failed.
fn load_fault_answer(
    alloc: Global,
    kind: TableKind,
    fault: &DeckFault,
) -> Result<Vec<u8>, AllocError> {
    match fault {
        DeckFault::OutOfMemory => Err(AllocError),
        fault => Vec::from_slice(alloc, load_fault_text(kind, fault)),
    }
}

// Returns a line that says why the load of a file failed. Calls for values have an answer for each reason.
fn load_fault_text(kind: TableKind, fault: &DeckFault) -> &'static [u8] {
    match (kind, fault) {
        (TableKind::History | TableKind::Answers, _) => b"no deck\n",
        (TableKind::Values, DeckFault::Absent) => b"absent\n",
        (TableKind::Values, DeckFault::TooLong) => b"too long\n",
        (TableKind::Values, DeckFault::ReadFailed) => b"read failed\n",
        (TableKind::Values, _) => b"deck full\n",
    }
}
