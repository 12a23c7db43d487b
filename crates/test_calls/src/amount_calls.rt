//! The calls on quantities, lists of units and tables of points, and the words that name them.

use crate::lines::meaning_of;

// A call, without its arguments.
#[derive(Clone, Copy)]
pub(crate) enum AmountCall {
    // `number QUANTITY`: whether the quantity is a number.
    IsNumber,
    // A call that returns a copy of a quantity, or its opposite.
    Copy(Copying),
    // A call with two arguments, which are separated by `;`.
    Pair(Pair),
}

// A copy of a quantity.
#[derive(Clone, Copy)]
pub(crate) enum Copying {
    // `copy QUANTITY`.
    Same,
    // `negate QUANTITY` borrows the quantity.
    Negate,
    // `negated QUANTITY` takes ownership of a copy.
    Negated,
}

// A call with two arguments.
#[derive(Clone, Copy)]
pub(crate) enum Pair {
    // `at X;POINTS` or `back Y;POINTS` reads a table.
    Reading(Direction),
    // `digits COUNT;QUANTITY`.
    Digits,
    // `exponent QUANTITY;NAME`.
    Exponent,
    // `split QUANTITY;UNITS` or `round QUANTITY;UNITS` counts units. `round` rounds the last count.
    Split { round: bool },
    // A relation of two quantities.
    Relation(Relation),
    // A step that borrows the first of two quantities.
    Borrow(Operator),
    // A step that takes ownership of the first of two quantities.
    Own(Operator),
}

// The direction in which a table is read.
#[derive(Clone, Copy)]
pub(crate) enum Direction {
    // From an x to its y.
    Forward,
    // From a y to its x.
    Back,
}

// A relation of two quantities.
#[derive(Clone, Copy)]
pub(crate) enum Relation {
    Conforms,
    IsReciprocal,
}

// An operator on quantities.
#[derive(Clone, Copy)]
pub(crate) enum Operator {
    Add,
    Sub,
    Mul,
    Div,
    Pow,
}

// The words of calls. Of the two words for an operator, the second takes ownership of the first quantity.
const WORDS: &[(&[u8], AmountCall)] = &[
    (b"number", AmountCall::IsNumber),
    (b"copy", AmountCall::Copy(Copying::Same)),
    (b"negate", AmountCall::Copy(Copying::Negate)),
    (b"negated", AmountCall::Copy(Copying::Negated)),
    (b"at", AmountCall::Pair(Pair::Reading(Direction::Forward))),
    (b"back", AmountCall::Pair(Pair::Reading(Direction::Back))),
    (b"digits", AmountCall::Pair(Pair::Digits)),
    (b"exponent", AmountCall::Pair(Pair::Exponent)),
    (b"split", AmountCall::Pair(Pair::Split { round: false })),
    (b"round", AmountCall::Pair(Pair::Split { round: true })),
    (
        b"conforms",
        AmountCall::Pair(Pair::Relation(Relation::Conforms)),
    ),
    (
        b"reciprocal",
        AmountCall::Pair(Pair::Relation(Relation::IsReciprocal)),
    ),
    (b"add", AmountCall::Pair(Pair::Borrow(Operator::Add))),
    (b"plus", AmountCall::Pair(Pair::Own(Operator::Add))),
    (b"sub", AmountCall::Pair(Pair::Borrow(Operator::Sub))),
    (b"minus", AmountCall::Pair(Pair::Own(Operator::Sub))),
    (b"mul", AmountCall::Pair(Pair::Borrow(Operator::Mul))),
    (b"times", AmountCall::Pair(Pair::Own(Operator::Mul))),
    (b"div", AmountCall::Pair(Pair::Borrow(Operator::Div))),
    (b"over", AmountCall::Pair(Pair::Own(Operator::Div))),
    (b"pow", AmountCall::Pair(Pair::Borrow(Operator::Pow))),
    (b"raised", AmountCall::Pair(Pair::Own(Operator::Pow))),
];

// Returns the call that a word names.
pub(crate) fn amount_call(word: &[u8]) -> Option<AmountCall> {
    meaning_of(WORDS, word)
}
