//! The calls on fractions, numerals and their texts, and the words that name them.

use crate::lines::meaning_of;

// A call, without its arguments.
#[derive(Clone, Copy)]
pub(crate) enum NumberCall {
    // `length TEXT`: the length of the longest numeral at the front of a text.
    Length,
    // `numeral TEXT`: the value of a numeral.
    Numeral,
    // A call on one fraction.
    Single(Single),
    // A call with two arguments.
    Pair(Pair),
}

// A call on one fraction.
#[derive(Clone, Copy)]
pub(crate) enum Single {
    IsZero,
    Exact,
    Negate,
    Floor,
}

// A call with two arguments.
#[derive(Clone, Copy)]
pub(crate) enum Pair {
    // `digits COUNT FRACTION` rounds the fraction to significant digits.
    Digits,
    // `cmp FRACTION FRACTION`.
    Order,
    // `new INTEGER INTEGER` returns the quotient.
    New,
    // `pow FRACTION INTEGER`.
    Power,
    // `root FRACTION INTEGER`.
    Root,
    // An operation on two fractions.
    Operation(Operator),
}

// An operator on fractions.
#[derive(Clone, Copy)]
pub(crate) enum Operator {
    Add,
    Sub,
    Mul,
    Div,
}

// The words of calls.
const WORDS: &[(&[u8], NumberCall)] = &[
    (b"length", NumberCall::Length),
    (b"numeral", NumberCall::Numeral),
    (b"zero", NumberCall::Single(Single::IsZero)),
    (b"exact", NumberCall::Single(Single::Exact)),
    (b"negate", NumberCall::Single(Single::Negate)),
    (b"floor", NumberCall::Single(Single::Floor)),
    (b"digits", NumberCall::Pair(Pair::Digits)),
    (b"cmp", NumberCall::Pair(Pair::Order)),
    (b"new", NumberCall::Pair(Pair::New)),
    (b"pow", NumberCall::Pair(Pair::Power)),
    (b"root", NumberCall::Pair(Pair::Root)),
    (b"add", NumberCall::Pair(Pair::Operation(Operator::Add))),
    (b"sub", NumberCall::Pair(Pair::Operation(Operator::Sub))),
    (b"mul", NumberCall::Pair(Pair::Operation(Operator::Mul))),
    (b"div", NumberCall::Pair(Pair::Operation(Operator::Div))),
];

// Returns the call that a word names.
pub(crate) fn number_call(word: &[u8]) -> Option<NumberCall> {
    meaning_of(WORDS, word)
}
