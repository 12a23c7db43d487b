//! The texts of answers on quantities.

use crate::lines::AnswerWriter;
use quantity::{Exponent, Quantity, QuantityFault, Style};
use std::alloc::Global;

// Appends `yes` or `no`.
pub(crate) fn put_truth(holds: bool, out: &mut AnswerWriter) {
    out.put(if holds { b"yes" } else { b"no" });
}

// Appends the exact text of a quantity.
pub(crate) fn put_quantity(alloc: Global, x: &Quantity, out: &mut AnswerWriter) {
    out.put_text(x.show(alloc, Style::Exact));
}

// Appends the text of an exponent, `n` or `n|d`.
pub(crate) fn put_exponent(exponent: &Exponent, out: &mut AnswerWriter) {
    out.put_number(exponent.num);
    if exponent.den != 1 {
        out.put(b"|");
        out.put_number(exponent.den);
    }
}

// Appends the exact result of a step, or its fault.
pub(crate) fn put_result(
    alloc: Global,
    outcome: &Result<Quantity, QuantityFault>,
    out: &mut AnswerWriter,
) {
    match outcome {
        Ok(x) => put_quantity(alloc, x, out),
        Err(fault) => put_fault(alloc, fault, out),
    }
}

// Appends the fault of a step.
fn put_fault(alloc: Global, fault: &QuantityFault, out: &mut AnswerWriter) {
    match fault {
        QuantityFault::Number(fault) => out.put(fault.text()),
        QuantityFault::NotConformable(x, y) => put_unlike(alloc, x, y, out),
        QuantityFault::ExponentNotNumber => out.put(b"exponent not a number"),
        QuantityFault::ExponentRange => out.put(b"exponent out of range"),
        QuantityFault::OutOfMemory => out.leave_out(),
    }
}

// Appends that two quantities do not conform.
fn put_unlike(alloc: Global, x: &Quantity, y: &Quantity, out: &mut AnswerWriter) {
    out.put(b"not conformable: ");
    put_quantity(alloc, x, out);
    out.put(b" and ");
    put_quantity(alloc, y, out);
}
