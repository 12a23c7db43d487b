//! The numbers of tables and intervals.

ghost use Rattle.std.specs.Prelude.{◌≡◌};
ghost use Rattle.def_entry.specs.Numbers as spec;

use crate::cuts::cut_at;
use frac128::{Frac, read_numeral};

// Returns the value of a number: an optional sign, and a numeral or two numerals separated by `|`. Returns `None` if
// the text is not a number or if its value does not fit.
#[tactic(auto, unfolding(crate::specs::Numbers::entry_text_number))]
pub(crate) fn number(text: &[u8]) -> Option<Frac>
    ensures { result ≡ spec.entry_text_number text.now }
{
    match text.split_first() {
        Some((b'-', behind)) => Some(unsigned_value(behind)?.negate()),
        Some((b'+', behind)) => unsigned_value(behind),
        _ => unsigned_value(text),
    }
}

// Returns the value of a number without a sign.
fn unsigned_value(text: &[u8]) -> Option<Frac>
    ensures { result ≡ spec.unsigned_value text.now }
{
    match cut_at(text, b'|') {
        Some((above, below)) => quotient_value(above, below),
        None => numeral_value(text),
    }
}

// Returns the value of two numerals separated by `|`.
fn quotient_value(above: &[u8], below: &[u8]) -> Option<Frac>
    ensures { result ≡ spec.quotient_value above.now below.now }
{
    let above = numeral_value(above)?;
    let below = numeral_value(below)?;
    above.div(&below).ok()
}

// Returns the value of a numeral.
fn numeral_value(bytes: &[u8]) -> Option<Frac>
    ensures { result ≡ spec.numeral_value bytes.now }
{
    read_numeral(bytes).ok()?.value().ok()
}
