//! The calls on expressions and names, and the words that name them.

use crate::lines::meaning_of;

// A call, without its text.
#[derive(Clone, Copy)]
pub(crate) enum TextCall {
    // A call on the tree of a text without a binder.
    Tree(TreeCall),
    // `with BINDER TEXT`: the tree of a text under a binder.
    Bound,
    // `find KIND WORD KEYS`: the keys that a word leads to, by its position, in a table.
    Find,
    // `name TEXT`: whether a text is a name.
    Name,
}

// A call on a tree.
#[derive(Clone, Copy)]
pub(crate) enum TreeCall {
    // `plain TEXT`: the tree.
    Notation,
    // `copy TEXT`: the tree of a copy.
    Copy,
    // `parse TEXT`: a confirmation that there is a tree.
    Presence,
    // `words TEXT`: the words of the tree.
    Words,
}

// The words of calls.
const WORDS: &[(&[u8], TextCall)] = &[
    (b"plain", TextCall::Tree(TreeCall::Notation)),
    (b"copy", TextCall::Tree(TreeCall::Copy)),
    (b"parse", TextCall::Tree(TreeCall::Presence)),
    (b"words", TextCall::Tree(TreeCall::Words)),
    (b"with", TextCall::Bound),
    (b"find", TextCall::Find),
    (b"name", TextCall::Name),
];

// Returns the call that a word names.
pub(crate) fn text_call(word: &[u8]) -> Option<TextCall> {
    meaning_of(WORDS, word)
}
