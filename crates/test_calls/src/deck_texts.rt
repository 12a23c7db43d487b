//! The texts of answers on decks.

use crate::lines::{AnswerWriter, put_entry_refusal};
use deck::{DeckFault, Settings};
use deck_lines::{DeckLine, DeckLines};
use def_entry::Keys;
use std::alloc::Global;
use units_io::Texts;

// Appends why a load failed or an edit was refused.
pub(crate) fn put_fault(alloc: Global, out: &mut AnswerWriter, fault: DeckFault) {
    match fault {
        DeckFault::BadLine(fault) => put_entry_refusal(alloc, fault, out),
        DeckFault::OutOfMemory => out.leave_out(),
        DeckFault::NoSuchKey => out.put(b"no such key"),
        DeckFault::DeckFull => out.put(b"deck full"),
        DeckFault::Absent => out.put(b"absent"),
        DeckFault::TooLong => out.put(b"too long"),
        DeckFault::ReadFailed => out.put(b"read failed"),
    }
}

// Appends the keys that an edit changed.
pub(crate) fn put_changes(out: &mut AnswerWriter, keys: &Keys) {
    out.put(b"changed: ");
    put_keys(out, keys);
}

// Appends the keys separated by bars, or `none`.
pub(crate) fn put_keys(out: &mut AnswerWriter, keys: &Keys) {
    let Some((first, rest)) = keys.as_slice().split_first() else {
        return out.put(b"none");
    };
    out.put_key(first);
    for key in rest {
        put_bar(out);
        out.put_key(key);
    }
}

// Appends the texts separated by bars, or `none`.
pub(crate) fn put_texts(out: &mut AnswerWriter, texts: &Texts) {
    let Some((first, rest)) = texts.as_slice().split_first() else {
        return out.put(b"none");
    };
    out.put(first.as_bytes());
    for text in rest {
        put_bar(out);
        out.put(text.as_bytes());
    }
}

// Appends the lines separated by bars, or `none`.
pub(crate) fn put_lines(out: &mut AnswerWriter, lines: &DeckLines) {
    let Some((first, rest)) = lines.as_slice().split_first() else {
        return out.put(b"none");
    };
    put_line(out, first);
    for line in rest {
        put_bar(out);
        put_line(out, line);
    }
}

// Appends a line with its number. A `~` precedes a line with the mark.
fn put_line(out: &mut AnswerWriter, line: &DeckLine) {
    let mark: &[u8] = if line.mark { b" ~" } else { b" " };
    out.put_count(line.number as usize, mark);
    out.put(line.text.as_bytes());
}

// Appends the locale and the variables with their values, separated by bars.
pub(crate) fn put_settings(out: &mut AnswerWriter, settings: &Settings) {
    out.put(settings.locale.as_bytes());
    for i in 0..settings.vars.len() {
        if let Some((name, value)) = settings.vars.get(i) {
            put_variable(out, name, value.as_bytes());
        }
    }
}

// Appends a bar and a variable with its value.
fn put_variable(out: &mut AnswerWriter, name: &[u8], value: &[u8]) {
    put_bar(out);
    out.put(name);
    out.put(b" ");
    out.put(value);
}

// Appends what separates two items.
fn put_bar(out: &mut AnswerWriter) {
    out.put(b" | ");
}
