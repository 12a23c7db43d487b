//! The answers to calls on quantities, lists of units and tables of points.

use crate::amount_calls::{AmountCall, Copying, Operator, Pair, Relation, amount_call};
use crate::amount_reading::{parted, read_quantity};
use crate::amount_text::{put_exponent, put_quantity, put_result, put_truth};
use crate::lines::{AnswerWriter, CallFault, split_at_space};
use crate::lists::put_split;
use crate::point_tables::put_reading;
use crate::reading::read_count;
use quantity::{Quantity, QuantityFault, Style};
use std::alloc::{AllocError, Global};

// Appends the answer to a call: a word, a space and the arguments of the word, separated by `;`.
pub(crate) fn put_amount_answer(
    alloc: Global,
    line: &[u8],
    out: &mut AnswerWriter,
) -> Result<(), CallFault> {
    let (word, arguments) = split_at_space(line);
    match amount_call(word) {
        Some(AmountCall::IsNumber) => put_kind(alloc, arguments, out),
        Some(AmountCall::Copy(copying)) => put_copy(alloc, copying, arguments, out),
        Some(AmountCall::Pair(call)) => {
            let (left, right) = parted(arguments, b';');
            put_pair(alloc, call, left, right, out)
        }
        None => Err(CallFault::BadCall),
    }
}

// Appends whether a quantity is a number.
fn put_kind(alloc: Global, text: &[u8], out: &mut AnswerWriter) -> Result<(), CallFault> {
    let x = read_quantity(alloc, text)?;
    put_truth(x.is_number(), out);
    Ok(())
}

// Appends a copy of a quantity, or its opposite.
fn put_copy(
    alloc: Global,
    copying: Copying,
    text: &[u8],
    out: &mut AnswerWriter,
) -> Result<(), CallFault> {
    let x = read_quantity(alloc, text)?;
    let copy = copy_of(alloc, copying, &x)?;
    put_quantity(alloc, &copy, out);
    Ok(())
}

// Copies a quantity, or returns its opposite.
fn copy_of(alloc: Global, copying: Copying, x: &Quantity) -> Result<Quantity, AllocError> {
    match copying {
        Copying::Same => x.copy(alloc),
        Copying::Negate => x.negate(alloc),
        Copying::Negated => Ok(x.copy(alloc)?.into_negative()),
    }
}

// Appends the answer to a call with two arguments.
fn put_pair(
    alloc: Global,
    call: Pair,
    left: &[u8],
    right: &[u8],
    out: &mut AnswerWriter,
) -> Result<(), CallFault> {
    match call {
        Pair::Reading(direction) => put_reading(alloc, direction, left, right, out),
        Pair::Digits => put_digits(alloc, left, right, out),
        Pair::Exponent => put_exponent_of(alloc, left, right, out),
        Pair::Split { round } => put_split(alloc, round, left, right, out),
        Pair::Relation(relation) => put_relation(alloc, relation, left, right, out),
        Pair::Borrow(operator) => put_borrowing(alloc, operator, left, right, out),
        Pair::Own(operator) => put_owning(alloc, operator, left, right, out),
    }
}

// Appends a quantity, rounded to a number of digits.
fn put_digits(
    alloc: Global,
    count: &[u8],
    text: &[u8],
    out: &mut AnswerWriter,
) -> Result<(), CallFault> {
    let style = Style::Digits(read_count(count)?.value);
    let x = read_quantity(alloc, text)?;
    out.put_text(x.show(alloc, style));
    Ok(())
}

// Appends the exponent of a name in a quantity.
fn put_exponent_of(
    alloc: Global,
    text: &[u8],
    name: &[u8],
    out: &mut AnswerWriter,
) -> Result<(), CallFault> {
    let x = read_quantity(alloc, text)?;
    put_exponent(&x.exponent(name), out);
    Ok(())
}

// Appends whether a relation of two quantities holds.
fn put_relation(
    alloc: Global,
    relation: Relation,
    left: &[u8],
    right: &[u8],
    out: &mut AnswerWriter,
) -> Result<(), CallFault> {
    let x = read_quantity(alloc, left)?;
    let y = read_quantity(alloc, right)?;
    let holds = match relation {
        Relation::Conforms => x.conforms(&y),
        Relation::IsReciprocal => x.is_reciprocal(&y),
    };
    put_truth(holds, out);
    Ok(())
}

// Appends the result of a step that borrows the first quantity.
fn put_borrowing(
    alloc: Global,
    operator: Operator,
    left: &[u8],
    right: &[u8],
    out: &mut AnswerWriter,
) -> Result<(), CallFault> {
    let x = read_quantity(alloc, left)?;
    let y = read_quantity(alloc, right)?;
    put_result(alloc, &borrowing_result(alloc, operator, &x, &y), out);
    Ok(())
}

// Makes a step that borrows the first quantity.
fn borrowing_result(
    alloc: Global,
    operator: Operator,
    x: &Quantity,
    y: &Quantity,
) -> Result<Quantity, QuantityFault> {
    match operator {
        Operator::Add => x.add(alloc, y),
        Operator::Sub => x.sub(alloc, y),
        Operator::Mul => x.mul(alloc, y),
        Operator::Div => x.div(alloc, y),
        Operator::Pow => x.pow(alloc, y),
    }
}

// Appends the result of a step that takes ownership of the first quantity.
fn put_owning(
    alloc: Global,
    operator: Operator,
    left: &[u8],
    right: &[u8],
    out: &mut AnswerWriter,
) -> Result<(), CallFault> {
    let y = read_quantity(alloc, right)?;
    let x = read_quantity(alloc, left)?;
    put_result(alloc, &owning_result(alloc, operator, x, &y), out);
    Ok(())
}

// Makes a step that takes ownership of the first quantity.
fn owning_result(
    alloc: Global,
    operator: Operator,
    x: Quantity,
    y: &Quantity,
) -> Result<Quantity, QuantityFault> {
    match operator {
        Operator::Add => x.plus(alloc, y),
        Operator::Sub => x.minus(alloc, y),
        Operator::Mul => x.times(alloc, y),
        Operator::Div => x.over(alloc, y),
        Operator::Pow => x.into_power(alloc, y),
    }
}
