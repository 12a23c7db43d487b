//! The exact text of a fraction.

ghost use Rattle.std.specs.Prelude.{◌≡◌, ◌++◌, ◌⊎◌, IfOk, codes, string_bytes};
ghost use Rattle.std.specs.Fmt.{signed_decimal};
ghost use Rattle.frac128.specs.Fraction.{IsFrac};
ghost use Rattle.digits_print.specs.Exact.{PrintReadsAsQuotient, PrintReadsAsWhole, exact_print_text};

use crate::laws::exact_law;
use frac128::Frac;
use std::alloc::{AllocError, Global};
use units_io::Text;

/// Returns the fraction in decimal digits: `n`, or `n|d` if the denominator is above 1. Fails only if memory runs out.
pub fn print_exact(alloc: Global, x: &Frac) -> Result<Text, AllocError>
    ensures reads { IfOk result (λ text. PrintReadsAsWhole text x.now ⊎ PrintReadsAsQuotient text x.now) }
    ensures computed { IfOk result (λ text. text ≡ exact_print_text x.now) }
{
    exact_law();
    lowest_text(alloc, x)
}

// Returns the text of a fraction, which is in lowest terms.
fn lowest_text(alloc: Global, x: &Frac) -> Result<Text, AllocError>
    ensures lowest { IsFrac x.now }
    ensures computed { IfOk result (λ text. text ≡ exact_print_text x.now) }
{
    let text = if x.den() == 1 {
        x.num().to_string(alloc)?
    } else {
        quotient_text(alloc, x.num(), x.den())?
    };
    Ok(Text::from(text.into_bytes()))
}

// Returns the texts of two numbers with a bar between them.
fn quotient_text(alloc: Global, num: i128, den: i128) -> Result<String, AllocError>
    ensures { IfOk result (λ text.
        string_bytes text ≡ signed_decimal num ++ (codes "|" ++ signed_decimal den)) }
{
    format!(in alloc; "{num}|{den}")
}
