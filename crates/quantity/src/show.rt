//! The text of a quantity.

ghost use Rattle.std.specs.Prelude.{◌≡◌, ◌++◌, IfOk, OnOk};
ghost use Rattle.digits_print.specs.Styles.{IsPrintStyle};
ghost use Rattle.quantity.specs.Text.{quantity_text};

use crate::quantity::Quantity;
use digits_print::{Style, print_number};
use std::alloc::{AllocError, Global};
use units_io::Text;

impl Quantity {
    /// Returns the reduced text: the number, the names with positive exponents in byte order and, after a slash, those
    /// with negative ones, as in `1 kg m^2 / K mol s^2`. An exponent of 1 is omitted, and one with a denominator above
    /// 1 is written as in `m^1|2`. Fails only if memory runs out.
    pub fn show(&self, alloc: Global, style: Style) -> Result<Text, AllocError>
        requires { IsPrintStyle style }
        ensures { IfOk result (λ text. text ≡ quantity_text style self.now) }
    {
        let mut text = print_number(alloc, &self.value, style)?.into_bytes();
        self.powers.put_text(alloc, &mut text)?;
        Ok(Text::from(text))
    }

    /// Appends the text that `show` returns to another text. Fails only if memory runs out.
    pub fn put(&self, alloc: Global, text: &mut Vec<u8>, style: Style) -> Result<(), AllocError>
        requires { IsPrintStyle style }
        ensures { OnOk result (text.new.items ≡ text.old.items ++ quantity_text style self.now) }
    {
        text.extend_from_slice(print_number(alloc, &self.value, style)?.as_bytes())?;
        self.powers.put_text(alloc, text)
    }
}
