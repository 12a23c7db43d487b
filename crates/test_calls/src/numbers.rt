//! The answers to calls on fractions, numerals and their texts.

use crate::lines::{AnswerWriter, CallFault};
use crate::number_calls::{NumberCall, Operator, Pair, Single, number_call};
use crate::reading::{read_count, read_fraction, read_whole};
use def_entry::cut_at;
use digits_print::{print_digits, print_exact};
use frac128::{Frac, FracFault, NumeralFault, numeral_len, read_numeral};
use std::alloc::Global;
use std::cmp::Ordering;
use std::num::NonZeroU32;

// Appends the answer to a call: a word, a space and the arguments of the word.
pub(crate) fn put_number_answer(
    alloc: Global,
    line: &[u8],
    out: &mut AnswerWriter,
) -> Result<(), CallFault> {
    let Some((word, arguments)) = cut_at(line, b' ') else {
        return Err(CallFault::BadCall);
    };
    match number_call(word) {
        Some(NumberCall::Length) => out.put_number(numeral_len(arguments)),
        Some(NumberCall::Numeral) => put_numeral(alloc, arguments, out),
        Some(NumberCall::Single(call)) => return put_single(alloc, call, arguments, out),
        Some(NumberCall::Pair(call)) => return put_pair(alloc, call, arguments, out),
        None => return Err(CallFault::BadCall),
    }
    Ok(())
}

// Appends the exact value of a numeral, or its fault.
fn put_numeral(alloc: Global, text: &[u8], out: &mut AnswerWriter) {
    match read_numeral(text) {
        Ok(numeral) => put_result(alloc, numeral.value(), out),
        Err(NumeralFault::NotNumeral) => out.put(b"not a numeral"),
        Err(NumeralFault::TooLong) => out.put(b"too long"),
    }
}

// Appends the answer to a call on one fraction.
fn put_single(
    alloc: Global,
    call: Single,
    text: &[u8],
    out: &mut AnswerWriter,
) -> Result<(), CallFault> {
    let x = read_fraction(text)?;
    match call {
        Single::IsZero => out.put(truth_text(x.is_zero())),
        Single::Exact => put_exact(alloc, &x, out),
        Single::Negate => put_exact(alloc, &x.negate(), out),
        Single::Floor => put_exact(alloc, &x.floor(), out),
    }
    Ok(())
}

// Appends the answer to a call with two arguments, which are separated by a space.
fn put_pair(
    alloc: Global,
    call: Pair,
    arguments: &[u8],
    out: &mut AnswerWriter,
) -> Result<(), CallFault> {
    let Some((first, second)) = cut_at(arguments, b' ') else {
        return Err(CallFault::BadCall);
    };
    let result = match call {
        Pair::Digits => return put_digits(alloc, first, second, out),
        Pair::Order => return put_order(first, second, out),
        Pair::New => quotient(first, second)?,
        Pair::Power => power(first, second)?,
        Pair::Root => root(first, second)?,
        Pair::Operation(operator) => operation(operator, first, second)?,
    };
    put_result(alloc, result, out);
    Ok(())
}

// Appends a fraction, rounded to a number of digits.
fn put_digits(
    alloc: Global,
    count: &[u8],
    fraction: &[u8],
    out: &mut AnswerWriter,
) -> Result<(), CallFault> {
    let count = read_count(count)?;
    let x = read_fraction(fraction)?;
    out.put_text(print_digits(alloc, &x, count.value));
    Ok(())
}

// Appends how the first of two fractions compares to the second.
fn put_order(first: &[u8], second: &[u8], out: &mut AnswerWriter) -> Result<(), CallFault> {
    let order = read_fraction(first)?.cmp(&read_fraction(second)?);
    out.put(order_text(order));
    Ok(())
}

// The result of a step on fractions, if the arguments can be read.
type Step = Result<Result<Frac, FracFault>, CallFault>;

// Divides an integer by another.
fn quotient(numerator: &[u8], denominator: &[u8]) -> Step {
    Ok(Frac::new(read_whole(numerator)?, read_whole(denominator)?))
}

// Raises a fraction to an integer.
fn power(fraction: &[u8], exponent: &[u8]) -> Step {
    Ok(read_fraction(fraction)?.pow(read_whole(exponent)?))
}

// Takes a root of a fraction.
fn root(fraction: &[u8], degree: &[u8]) -> Step {
    let degree: NonZeroU32 = read_whole(degree)?;
    Ok(read_fraction(fraction)?.root(degree.get()))
}

// Applies an operator to two fractions.
fn operation(operator: Operator, first: &[u8], second: &[u8]) -> Step {
    let x = read_fraction(first)?;
    let y = read_fraction(second)?;
    Ok(match operator {
        Operator::Add => x.add(&y),
        Operator::Sub => x.sub(&y),
        Operator::Mul => x.mul(&y),
        Operator::Div => x.div(&y),
    })
}

// Appends the exact result of a step, or its fault.
fn put_result(alloc: Global, outcome: Result<Frac, FracFault>, out: &mut AnswerWriter) {
    match outcome {
        Ok(x) => put_exact(alloc, &x, out),
        Err(fault) => out.put(fault.text()),
    }
}

// Appends the exact text of a fraction.
pub(crate) fn put_exact(alloc: Global, x: &Frac, out: &mut AnswerWriter) {
    out.put_text(print_exact(alloc, x));
}

// Returns `true` or `false`.
fn truth_text(holds: bool) -> &'static [u8] {
    if holds { b"true" } else { b"false" }
}

// Returns how the first of two fractions compares to the second.
fn order_text(order: Ordering) -> &'static [u8] {
    match order {
        Ordering::Less => b"less",
        Ordering::Equal => b"equal",
        Ordering::Greater => b"greater",
    }
}
