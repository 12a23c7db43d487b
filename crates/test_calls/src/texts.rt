//! The answers to calls on expressions and names.

use crate::lines::{AnswerWriter, CallFault, put_parse_refusal, split_at_space};
use crate::lookup::put_lookup;
use crate::notation::{put_tree, put_word};
use crate::text_calls::{TextCall, TreeCall, text_call};
use expr_tree::{Tree, WordKind, WordUse, is_name, is_refused, parse_expr, words};
use std::alloc::{AllocError, Global};

// Appends the answer to a call with its text. If the text of a call on a tree has no tree, the answer is its fault.
pub(crate) fn put_text_answer(
    alloc: Global,
    line: &[u8],
    out: &mut AnswerWriter,
) -> Result<(), CallFault> {
    let (word, text) = split_at_space(line);
    match text_call(word) {
        Some(TextCall::Tree(call)) => put_tree_answer(alloc, call, text, None, out),
        Some(TextCall::Bound) => put_bound(alloc, text, out),
        Some(TextCall::Find) => return put_lookup(alloc, text, out),
        Some(TextCall::Name) => out.put(name_text(text)),
        None => return Err(CallFault::BadCall),
    }
    Ok(())
}

// Appends the tree of a text under the binder that precedes it.
fn put_bound(alloc: Global, text: &[u8], out: &mut AnswerWriter) {
    let (binder, text) = split_at_space(text);
    put_tree_answer(alloc, TreeCall::Notation, text, Some(binder), out);
}

// Parses a text and appends the answer about its tree, or its fault.
fn put_tree_answer(
    alloc: Global,
    call: TreeCall,
    text: &[u8],
    binder: Option<&[u8]>,
    out: &mut AnswerWriter,
) {
    match parse_expr(alloc, text, binder) {
        Ok(tree) => put_answer_about(alloc, call, &tree, out),
        Err(fault) => put_parse_refusal(alloc, fault, out),
    }
}

// Appends the answer about a tree.
fn put_answer_about(alloc: Global, call: TreeCall, tree: &Tree, out: &mut AnswerWriter) {
    match call {
        TreeCall::Notation => put_tree(out, tree),
        TreeCall::Copy => put_copy(alloc, tree, out),
        TreeCall::Presence => out.put(b"tree"),
        TreeCall::Words => put_words(alloc, tree, out),
    }
}

// Appends a copy of a tree.
fn put_copy(alloc: Global, tree: &Tree, out: &mut AnswerWriter) {
    match tree.copy(alloc) {
        Ok(copy) => put_tree(out, &copy),
        Err(AllocError) => out.leave_out(),
    }
}

// Appends the words of a tree, each with its kind.
fn put_words(alloc: Global, tree: &Tree, out: &mut AnswerWriter) {
    out.put(b"words");
    match words(alloc, tree) {
        Ok(words) => put_each_word(words.as_slice(), out),
        Err(AllocError) => out.leave_out(),
    }
}

// Appends words, each after its kind.
fn put_each_word(words: &[WordUse<'_>], out: &mut AnswerWriter) {
    for word in words {
        out.put(kind_text(word.kind()));
        put_word(out, word.text());
    }
}

// Returns the text of the kind of a word.
fn kind_text(kind: WordKind) -> &'static [u8] {
    match kind {
        WordKind::Plain => b" ",
        WordKind::Call => b" call ",
        WordKind::Inverse => b" inverse ",
    }
}

// Returns whether the bytes are a name, a refused name, or no name.
fn name_text(bytes: &[u8]) -> &'static [u8] {
    if is_name(bytes) {
        b"name"
    } else if is_refused(bytes) {
        b"refused name"
    } else {
        b"no name"
    }
}
