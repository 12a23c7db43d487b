//! The format of values.

ghost use Rattle.digits_print.specs.Styles.{IsPrintStyle};
ghost use Rattle.reply.specs.Options.{AreReplyOptionsPrintable};

use digits_print::Style;
use frac128::Frac;
use quantity::Quantity;
use reply::Options;
use std::alloc::{AllocError, Global};
use units_io::Text;

/// Returns the text of a value in the format that the options select.
pub(crate) fn value_text(
    alloc: Global,
    options: &Options,
    value: &Quantity,
) -> Result<Text, AllocError>
    requires { AreReplyOptionsPrintable options.now }
{
    value.show(alloc, style_of(options, &value.value()))
}

/// Returns the style of a number. Both styles write a whole number of few digits alike, and the exact one is faster.
pub(crate) fn style_of(options: &Options, number: &Frac) -> Style
    requires { AreReplyOptionsPrintable options.now }
    ensures { IsPrintStyle result }
{
    if options.exact || is_whole_below(number, options.digits) {
        Style::Exact
    } else {
        Style::Digits(options.digits)
    }
}

// Returns whether a number is whole and short: at most 8 digits if `digits` is at least 8, and at most one otherwise.
fn is_whole_below(number: &Frac, digits: u8) -> bool {
    let most = if digits >= 8 { 99_999_999 } else { 9 };
    number.den() == 1 && -most <= number.num() && number.num() <= most
}
