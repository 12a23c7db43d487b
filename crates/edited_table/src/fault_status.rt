//! The status of a fault, from its text.

ghost use Rattle.std.specs.Prelude.{◌≡◌};
ghost use Rattle.edited_table.specs.Words as spec;

use crate::status::Status;

/// Returns the status of a fault, from the first words of its text. Returns `NoMemory` if the text begins with none of
/// these words.
pub(crate) fn status_of_text(text: &[u8]) -> Status
    ensures { result ≡ spec.status_of_text text.now }
{
    if let Some(status) = question_status(text) {
        return status;
    }
    if let Some(status) = number_status(text) {
        return status;
    }
    function_status(text).unwrap_or(Status::NoMemory)
}

// The status of a fault of a query as a whole or of its names.
fn question_status(text: &[u8]) -> Option<Status>
    ensures { result ≡ spec.status_in spec.question_status_rows text.now }
{
    if text.starts_with(b"conformability error") {
        Some(Status::ConformabilityError)
    } else if text.starts_with(b"unknown unit: ") {
        Some(Status::UnknownUnit)
    } else if text.starts_with(b"syntax error at ") {
        Some(Status::SyntaxError)
    } else if text.starts_with(b"numeral too long") {
        Some(Status::NumeralTooLong)
    } else if text.starts_with(b"nested too deep") {
        Some(Status::NestedTooDeep)
    } else if text.starts_with(b"refused function: ") {
        Some(Status::RefusedFunction)
    } else if text.starts_with(b"cycle: ") {
        Some(Status::Cycle)
    } else if text.starts_with(b"list unit not positive: ") {
        Some(Status::ListUnitNotPositive)
    } else {
        None
    }
}

// The status of a fault of a number, a sum or an exponent.
fn number_status(text: &[u8]) -> Option<Status>
    ensures { result ≡ spec.status_in spec.number_status_rows text.now }
{
    if text.starts_with(b"overflow") {
        Some(Status::Overflow)
    } else if text.starts_with(b"division by zero") {
        Some(Status::DivisionByZero)
    } else if text.starts_with(b"no exact root") {
        Some(Status::NoExactRoot)
    } else if text.starts_with(b"sum of unlike units: ") {
        Some(Status::UnlikeSum)
    } else if text.starts_with(b"exponent is not a number") {
        Some(Status::ExponentNotNumber)
    } else if text.starts_with(b"exponent out of range") {
        Some(Status::ExponentRange)
    } else {
        None
    }
}

// The status of a fault of a function or a table of points.
fn function_status(text: &[u8]) -> Option<Status>
    ensures { result ≡ spec.status_in spec.function_status_rows text.now }
{
    if text.starts_with(b"not in domain: ") {
        Some(Status::NotInDomain)
    } else if text.starts_with(b"not in range: ") {
        Some(Status::NotInRange)
    } else if text.starts_with(b"wrong argument: ") {
        Some(Status::WrongArgument)
    } else if text.starts_with(b"wrong result: ") {
        Some(Status::WrongResult)
    } else if text.starts_with(b"no inverse: ") {
        Some(Status::NoInverse)
    } else if text.starts_with(b"outside table: ") {
        Some(Status::OutsideTable)
    } else if text.starts_with(b"argument needed: ") {
        Some(Status::ArgumentNeeded)
    } else if text.starts_with(b"calls too deep: ") {
        Some(Status::CallsTooDeep)
    } else {
        None
    }
}
