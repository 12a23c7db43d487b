//! The answers to calls on tables of points.

use crate::amount_calls::Direction;
use crate::amount_reading::read_points;
use crate::lines::{AnswerWriter, CallFault};
use crate::numbers::put_exact;
use crate::reading::read_fraction;
use frac128::Frac;
use piecewise::{Points, PointsFault, TableFault};
use std::alloc::{AllocError, Global};

// Appends the number that a table returns.
pub(crate) fn put_reading(
    alloc: Global,
    direction: Direction,
    number: &[u8],
    points: &[u8],
    out: &mut AnswerWriter,
) -> Result<(), CallFault> {
    let x = read_fraction(number)?;
    let points = read_points(alloc, points)?;
    put_reading_of(alloc, points.as_slice(), direction, &x, out);
    Ok(())
}

// Builds a table and appends what a copy of it returns.
fn put_reading_of(
    alloc: Global,
    points: &[(Frac, Frac)],
    direction: Direction,
    x: &Frac,
    out: &mut AnswerWriter,
) {
    match Points::new(alloc, points) {
        Ok(table) => put_copied_reading(alloc, &table, direction, x, out),
        Err(PointsFault::BadPoints) => out.put(b"no table"),
        Err(PointsFault::OutOfMemory) => out.leave_out(),
    }
}

// Appends the number that a copy of a table returns.
fn put_copied_reading(
    alloc: Global,
    table: &Points,
    direction: Direction,
    x: &Frac,
    out: &mut AnswerWriter,
) {
    match table.copy(alloc) {
        Ok(copy) => put_number(alloc, reading_in(&copy, direction, x), out),
        Err(AllocError) => out.leave_out(),
    }
}

// Reads a table.
fn reading_in(table: &Points, direction: Direction, x: &Frac) -> Result<Frac, TableFault> {
    match direction {
        Direction::Forward => table.at(x),
        Direction::Back => table.back(x),
    }
}

// Appends the exact number that a table returned, or its fault.
fn put_number(alloc: Global, reading: Result<Frac, TableFault>, out: &mut AnswerWriter) {
    match reading {
        Ok(x) => put_exact(alloc, &x, out),
        Err(TableFault::OutsideTable) => out.put(b"outside the table"),
        Err(TableFault::Number(fault)) => out.put(fault.text()),
    }
}
