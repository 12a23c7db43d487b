//! The texts of value faults.

ghost use Rattle.std.specs.Prelude.{◌≡◌, ◌++◌, OnOk};
ghost use Rattle.digits_print.specs.Styles.{IsPrintStyle};
ghost use Rattle.quantity.specs.Text.{quantity_text};
ghost use Rattle.reply.specs.FaultTexts as spec;

use crate::fault_parts::put_named;
use quantity::{Quantity, Style};
use std::alloc::{AllocError, Global};
use tree_eval::ValueFault;

/// Appends a value fault to a text, in one line, with quantities in the given style. The only error is lack of memory.
pub fn put_value_fault(
    alloc: Global,
    text: &mut Vec<u8>,
    fault: &ValueFault,
    style: Style,
) -> Result<(), AllocError>
    requires { IsPrintStyle style }
    ensures { OnOk result (text.new.items ≡ text.old.items ++ spec.value_fault_text style fault.now) }
{
    match fault {
        ValueFault::Number(fault) => put_named(text, fault.text(), b""),
        ValueFault::NotConformable(x, y) => put_unlike_sum(alloc, text, style, x, y),
        ValueFault::ExponentNotNumber => put_named(text, b"exponent is not a number", b""),
        ValueFault::ExponentRange => put_named(text, b"exponent out of range", b""),
        ValueFault::NotInDomain(name) => put_named(text, b"not in domain: ", name.as_bytes()),
        ValueFault::NotInRange(name) => put_named(text, b"not in range: ", name.as_bytes()),
        ValueFault::WrongArgument(name) => put_named(text, b"wrong argument: ", name.as_bytes()),
        ValueFault::WrongResult(name) => put_named(text, b"wrong result: ", name.as_bytes()),
        ValueFault::NoInverse(name) => put_named(text, b"no inverse: ", name.as_bytes()),
        ValueFault::OutsideTable(name) => put_named(text, b"outside table: ", name.as_bytes()),
        ValueFault::NeedsArgument(name) => put_named(text, b"argument needed: ", name.as_bytes()),
        ValueFault::CallsTooDeep(name) => put_named(text, b"calls too deep: ", name.as_bytes()),
    }
}

// Appends the fault of a sum of two quantities that do not conform.
fn put_unlike_sum(
    alloc: Global,
    text: &mut Vec<u8>,
    style: Style,
    x: &Quantity,
    y: &Quantity,
) -> Result<(), AllocError>
    requires { IsPrintStyle style }
    ensures { OnOk result (text.new.items ≡ text.old.items ++ spec.unlike_sum_fault_text style x.now y.now) }
{
    put_summand(alloc, text, b"sum of unlike units: ", style, x)?;
    put_summand(alloc, text, b" and ", style, y)
}

// Appends words and a quantity.
fn put_summand(
    alloc: Global,
    text: &mut Vec<u8>,
    words: &[u8],
    style: Style,
    x: &Quantity,
) -> Result<(), AllocError>
    requires { IsPrintStyle style }
    ensures { OnOk result (text.new.items ≡ text.old.items ++ (words.now ++ quantity_text style x.now)) }
{
    text.extend_from_slice(words)?;
    x.put(alloc, text, style)
}
