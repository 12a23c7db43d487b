//! The messages for lines without an entry.

ghost use Rattle.std.specs.Prelude.{◌≡◌, ◌≢◌, true, IfOk};
ghost use Rattle.expr_tree.specs.declared.fault.ParseFault.TheVariants as parse;
ghost use Rattle.def_entry.specs.Faults as spec;

use crate::concatenation::concatenate;
use crate::fault::EntryFault;
use expr_tree::ParseFault;
use std::alloc::{AllocError, Global};
use units_io::Text;

/// Returns the message of the fault: `bad name: ` and the bytes that are not a name, `bad definition`, `bad table`,
/// `syntax error at ` and the place, `numeral too long`, or `nested too deep`. Fails only if memory runs out.
pub fn entry_fault_text(alloc: Global, fault: &EntryFault) -> Result<Text, AllocError>
    requires { spec.is_entry_fault_of_line fault.now ≡ true }
    ensures { IfOk result (λ text. text ≡ spec.entry_fault_text fault.now) }
{
    match fault {
        EntryFault::BadName(name) => concatenate(alloc, b"bad name: ", name.as_bytes()),
        EntryFault::BadForm => Text::from_bytes(alloc, b"bad definition"),
        EntryFault::BadTable => Text::from_bytes(alloc, b"bad table"),
        EntryFault::Parse(fault) => parse_fault_text(alloc, *fault),
        EntryFault::OutOfMemory => unreachable!(),
    }
}

/// Returns the message of the fault of an expression: `syntax error at ` and the place, `numeral too long`, or `nested
/// too deep`. Fails only if memory runs out.
pub fn parse_fault_text(alloc: Global, fault: ParseFault) -> Result<Text, AllocError>
    requires { fault ≢ parse.OutOfMemory }
    ensures { IfOk result (λ text. text ≡ spec.parse_fault_text fault) }
{
    match fault {
        ParseFault::Syntax(place) => {
            concatenate(
                alloc,
                b"syntax error at ",
                place.to_string(alloc)?.as_bytes(),
            )
        }
        ParseFault::NumeralTooLong => Text::from_bytes(alloc, b"numeral too long"),
        ParseFault::NestedTooDeep => Text::from_bytes(alloc, b"nested too deep"),
        ParseFault::OutOfMemory => unreachable!(),
    }
}
