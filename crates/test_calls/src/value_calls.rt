//! The calls on a live table, and the words that name them.

use crate::edit_calls::Edit;
use crate::lines::meaning_of;

// A call, without its argument.
#[derive(Clone, Copy)]
pub(crate) enum ValueCall {
    // `value EXPRESSION`.
    Value,
    // `unapply NAME EXPRESSION`: the inverse of a function at a value.
    Unapply,
    // `settle` queries every name.
    Settle,
    // `counts`: the numbers of names.
    Counts,
    // An edit other than a splice.
    Edit(Edit),
    // `splice AT CUT LINE;LINE..` replaces lines.
    Splice,
    // `back` undoes the last splice.
    Back,
}

// The words of calls.
const WORDS: &[(&[u8], ValueCall)] = &[
    (b"value", ValueCall::Value),
    (b"unapply", ValueCall::Unapply),
    (b"settle", ValueCall::Settle),
    (b"counts", ValueCall::Counts),
    (b"define", ValueCall::Edit(Edit::Define)),
    (b"drop", ValueCall::Edit(Edit::DropLast)),
    (b"switch", ValueCall::Edit(Edit::Switch)),
    (b"append", ValueCall::Edit(Edit::Append)),
    (b"splice", ValueCall::Splice),
    (b"back", ValueCall::Back),
];

// Returns the call that a word names.
pub(crate) fn value_call(word: &[u8]) -> Option<ValueCall> {
    meaning_of(WORDS, word)
}
