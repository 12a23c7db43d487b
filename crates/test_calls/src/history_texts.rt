//! The parts of answers on a history.

ghost use Rattle.std.specs.Prelude.{◌≡◌};

use crate::lines::AnswerWriter;
use edit_history::HistoryFault;
use expr_tree::{ParseFault, Tree, parse_expr};
use live_table::{LiveTable, QueryFault};
use quantity::Style;
use std::alloc::Global;
use std::sync::ledger::Ledger;
use units_io::Steps;

// Appends the value of an expression, or a message that there is none.
pub(crate) fn put_value<L: Ledger>(
    alloc: Global,
    live: &mut LiveTable,
    text: &[u8],
    steps: &mut Steps<L>,
    out: &mut AnswerWriter,
)
    ensures { live.new.deck ≡ live.old.deck }
{
    match parse_expr(alloc, text, None) {
        Ok(tree) => put_value_of(alloc, live, &tree, steps, out),
        Err(ParseFault::OutOfMemory) => out.leave_out(),
        Err(_) => out.put(b"no expression"),
    }
}

// Appends the value of a tree, or a message that there is none.
fn put_value_of<L: Ledger>(
    alloc: Global,
    live: &mut LiveTable,
    tree: &Tree,
    steps: &mut Steps<L>,
    out: &mut AnswerWriter,
)
    ensures { live.new.deck ≡ live.old.deck }
{
    match &live.value(alloc, tree, steps) {
        Ok(value) => out.put_text(value.show(alloc, Style::Exact)),
        Err(QueryFault::OutOfMemory) => out.leave_out(),
        Err(_) => out.put(b"no value"),
    }
}

// Appends the lines of the deck, each followed by `;`.
pub(crate) fn put_lines(live: &LiveTable, out: &mut AnswerWriter) {
    let lines = live.deck().lines();
    for place in 0..lines.len() {
        if let Some(line) = lines.get(place) {
            out.put(line.text.as_bytes());
            out.put(b";");
        }
    }
}

// Returns whether an edit was undone or redone.
pub(crate) fn undone_text(undone: Result<(), HistoryFault>) -> &'static [u8] {
    match undone {
        Ok(()) => b"ok",
        Err(HistoryFault::NothingToUndo) => b"nothing to undo",
        Err(HistoryFault::NothingToRedo) => b"nothing to redo",
        Err(HistoryFault::OutOfMemory) => b"out of memory",
    }
}
