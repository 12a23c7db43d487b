//! The kinds of calls, and the words that name them.

use crate::deck_board::deck_answers;
use crate::edge_board::edge_answers;
use crate::entry_report::report_on;
use crate::lines::meaning_of;
use crate::run_board::run_answers;
use crate::stateless_kind::{StatelessKind, stateless_answers};
use crate::stream_board::stream_answers;
use crate::table_kind::{TableKind, table_answers};
use std::alloc::AllocError;
use std::sync::ledger::Ledger;
use units_io::{DirFiles, Steps};

// A kind of calls.
#[derive(Clone, Copy)]
pub(crate) enum Kind {
    // Calls that do not depend on earlier ones.
    Stateless(StatelessKind),
    // The lines of a definition file, which have one report.
    Entries,
    // Calls on a deck. Some load it from files.
    Decks,
    // Calls on linked edges.
    Edges,
    // Calls on a live table. The first line loads it from a file.
    Table(TableKind),
    // Runs of the program over files and streams in memory.
    Runs,
    // Calls on streams that fail or end, on messages and on seeds.
    Streams,
}

// The names of kinds.
const NAMES: &[(&[u8], Kind)] = &[
    (b"numbers", Kind::Stateless(StatelessKind::Numbers)),
    (b"amounts", Kind::Stateless(StatelessKind::Amounts)),
    (b"texts", Kind::Stateless(StatelessKind::Texts)),
    (b"entries", Kind::Entries),
    (b"decks", Kind::Decks),
    (b"edges", Kind::Edges),
    (b"values", Kind::Table(TableKind::Values)),
    (b"history", Kind::Table(TableKind::History)),
    (b"answers", Kind::Table(TableKind::Answers)),
    (b"runs", Kind::Runs),
    (b"streams", Kind::Streams),
];

// Returns the kind with this name.
pub(crate) fn read_kind(name: &[u8]) -> Option<Kind> {
    meaning_of(NAMES, name)
}

// Returns the answers to the lines. Calls that load a file read it from the system's files. Fails only if memory runs
// out.
pub(crate) fn answers_to<L: Ledger>(
    rt: HostRuntime,
    steps: Steps<L>,
    kind: Kind,
    lines: &[u8],
) -> Result<Vec<u8>, AllocError> {
    let alloc = rt.alloc();
    match kind {
        Kind::Stateless(kind) => stateless_answers(alloc, kind, lines),
        Kind::Entries => report_on(alloc, lines),
        Kind::Decks => deck_answers(alloc, DirFiles::new(rt), lines),
        Kind::Edges => edge_answers(alloc, lines),
        Kind::Table(kind) => table_answers(alloc, DirFiles::new(rt), steps, kind, lines),
        Kind::Runs => run_answers(alloc, steps, lines),
        Kind::Streams => stream_answers(alloc, rt, lines),
    }
}
