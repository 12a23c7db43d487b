//! The texts of the faults of lines and expressions.

use super::answer_writer::AnswerWriter;
use def_entry::{EntryFault, entry_fault_text, parse_fault_text};
use expr_tree::ParseFault;
use std::alloc::Global;

// Appends why a line defines no key.
pub(crate) fn put_entry_refusal(alloc: Global, fault: EntryFault, out: &mut AnswerWriter) {
    match fault {
        EntryFault::OutOfMemory | EntryFault::Parse(ParseFault::OutOfMemory) => out.leave_out(),
        fault => out.put_text(entry_fault_text(alloc, &fault)),
    }
}

// Appends why a text is not an expression.
pub(crate) fn put_parse_refusal(alloc: Global, fault: ParseFault, out: &mut AnswerWriter) {
    match fault {
        ParseFault::OutOfMemory => out.leave_out(),
        fault => out.put_text(parse_fault_text(alloc, fault)),
    }
}
