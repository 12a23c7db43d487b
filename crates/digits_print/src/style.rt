//! Numbers in a given style.

ghost use Rattle.std.specs.Prelude.{◌≡◌, IfOk};
ghost use Rattle.digits_print.specs.Styles.{IsPrintStyle, printed_number_text};

use crate::digits::print_digits;
use crate::exact::print_exact;
use frac128::Frac;
use std::alloc::{AllocError, Global};
use units_io::Text;

/// The style in which a number is written.
#[derive(Clone, Copy)]
pub enum Style {
    /// With this many significant digits, as in `print_digits`.
    Digits(u8),
    /// Exactly, as `n` or `n|d`.
    Exact,
}

/// Returns the number in a style with 1 to 36 digits, or in the exact style. Fails only if memory runs out.
pub fn print_number(alloc: Global, x: &Frac, style: Style) -> Result<Text, AllocError>
    requires { IsPrintStyle style }
    ensures { IfOk result (λ text. text ≡ printed_number_text style x.now) }
{
    match style {
        Style::Digits(digits) => print_digits(alloc, x, digits),
        Style::Exact => print_exact(alloc, x),
    }
}
