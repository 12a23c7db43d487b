//! The answers to queries of a live table.

ghost use Rattle.std.specs.Prelude.{◌≡◌, true};
ghost use Rattle.def_entry.specs.Keys as key_spec;
ghost use Rattle.def_entry.specs.declared.key.Kind.TheVariants as kind;
ghost use Rattle.def_entry.specs.Tables.{is_entry_present};
ghost use Rattle.deck.specs.Tables.{table_of_deck};

use crate::lines::{AnswerWriter, put_parse_refusal, split_at_space};
use def_entry::Kind;
use expr_tree::{Tree, parse_expr};
use live_table::{LiveTable, QueryFault};
use quantity::{Quantity, Style};
use reply::{put_name_fault, put_value_fault};
use std::alloc::Global;
use std::sync::ledger::Ledger;
use units_io::Steps;

// Appends the value of an expression.
pub(crate) fn put_value<L: Ledger>(
    alloc: Global,
    live: &mut LiveTable,
    text: &[u8],
    steps: &mut Steps<L>,
    out: &mut AnswerWriter,
) {
    match parse_expr(alloc, text, None) {
        Ok(tree) => put_outcome(alloc, &live.value(alloc, &tree, steps), out),
        Err(fault) => put_parse_refusal(alloc, fault, out),
    }
}

// Appends the inverse of a function at the value of an expression.
pub(crate) fn put_inverse<L: Ledger>(
    alloc: Global,
    live: &mut LiveTable,
    text: &[u8],
    steps: &mut Steps<L>,
    out: &mut AnswerWriter,
) {
    let (name, text) = split_at_space(text);
    if live.deck().entry(Kind::Func, name).is_none() {
        return out.put(b"no function");
    }
    match parse_expr(alloc, text, None) {
        Ok(tree) => put_outcome(alloc, &inverse_at(alloc, live, name, &tree, steps), out),
        Err(fault) => put_parse_refusal(alloc, fault, out),
    }
}

// Returns the inverse of a function at the value of a tree.
fn inverse_at<L: Ledger>(
    alloc: Global,
    live: &mut LiveTable,
    name: &[u8],
    tree: &Tree,
    steps: &mut Steps<L>,
) -> Result<Quantity, QueryFault>
    requires { is_entry_present (table_of_deck live.old.deck) (key_spec.key kind.Func name.now) ≡ true }
{
    let value = live.value(alloc, tree, steps)?;
    live.unapply(alloc, name, &value, steps)
}

// Appends a quantity, or the fault of a query.
fn put_outcome(alloc: Global, outcome: &Result<Quantity, QueryFault>, out: &mut AnswerWriter) {
    match outcome {
        Ok(value) => out.put_text(value.show(alloc, Style::Exact)),
        Err(QueryFault::Name(fault)) => {
            let written = put_name_fault(out.text_mut(), fault);
            out.note(written);
        }
        Err(QueryFault::Value(fault)) => {
            let written = put_value_fault(alloc, out.text_mut(), fault, Style::Exact);
            out.note(written);
        }
        Err(QueryFault::OutOfMemory) => out.leave_out(),
    }
}

// Appends the number of names that are settled, the number that have an entry, and the number that were settled since
// the table was created.
pub(crate) fn put_counts(live: &LiveTable, out: &mut AnswerWriter) {
    let counts = live.counts();
    out.put_count(counts.settled as usize, b" settled, ");
    out.put_count(counts.names as usize, b" names, ");
    out.put_count(counts.reductions as usize, b" reductions");
}
