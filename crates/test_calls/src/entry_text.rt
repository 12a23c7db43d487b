//! The texts of keys and entries.

use crate::lines::{AnswerWriter, key_in};
use def_entry::{Entry, FunctionDef, Key, What, key_text};
use std::alloc::{AllocError, Global};

// Appends the text of a key, a description of its entry, and the text of its entry, separated by bars. The key is
// written, read and written again, and the entry is that of a copy.
pub(crate) fn put_entry(
    alloc: Global,
    out: &mut AnswerWriter,
    key: &Key,
    what: &What,
    line: &[u8],
) {
    put_copied_key(alloc, out, key);
    put_copied_entry(alloc, out, line, what);
}

// Appends the text of a key after it was written and read.
fn put_copied_key(alloc: Global, out: &mut AnswerWriter, key: &Key) {
    match key_text(alloc, key) {
        Ok(text) => put_key_of_text(alloc, out, text.as_bytes()),
        Err(AllocError) => out.leave_out(),
    }
}

// Appends the text of the key that `text` names, or `text` itself if it names none.
fn put_key_of_text(alloc: Global, out: &mut AnswerWriter, text: &[u8]) {
    match key_in(alloc, text) {
        Ok(Some(key)) => out.put_key(&key),
        Ok(None) => out.put(text),
        Err(AllocError) => out.leave_out(),
    }
}

// Appends the entry of a copy.
fn put_copied_entry(alloc: Global, out: &mut AnswerWriter, line: &[u8], what: &What) {
    match what.copy(alloc) {
        Ok(copy) => put_parts(out, Entry { line, what: &copy }),
        Err(AllocError) => out.leave_out(),
    }
}

// Appends a description of an entry and its text, each after a bar.
fn put_parts(out: &mut AnswerWriter, entry: Entry<'_>) {
    out.put(b" | ");
    put_what(out, entry.what);
    out.put(b" | ");
    out.put(entry.text());
}

// Appends a short description of an entry.
fn put_what(out: &mut AnswerWriter, what: &What) {
    match what {
        What::Primitive => out.put(b"primitive"),
        What::Dimensionless => out.put(b"dimensionless"),
        What::Body(_) => out.put(b"body"),
        What::Function(function) => put_function(out, function),
        What::Alias(target) => {
            out.put(b"alias of ");
            out.put(target.as_bytes());
        }
        What::Table(_) => out.put(b"table"),
        What::ListOf(parts) => {
            out.put(b"list of ");
            out.put_number(parts.len());
        }
    }
}

// Appends the description of a function, with the parts that it has besides its forward expression.
fn put_function(out: &mut AnswerWriter, function: &FunctionDef) {
    out.put(b"function");
    put_if(out, function.in_unit.is_some(), b" in");
    put_if(out, function.out_unit.is_some(), b" out");
    put_if(out, function.domain.is_some(), b" domain");
    put_if(out, function.range.is_some(), b" range");
    put_if(out, function.inverse.is_some(), b" inverse");
}

// Appends a word if its part is present.
fn put_if(out: &mut AnswerWriter, is_present: bool, word: &[u8]) {
    if is_present {
        out.put(word);
    }
}
