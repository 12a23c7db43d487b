//! Appends words, numbers and quantities to a text.

ghost use Rattle.std.specs.Prelude.{◌≡◌, ◌++◌, OnOk};
ghost use Rattle.digits_print.specs.Styles.{IsPrintStyle, printed_number_text};
ghost use Rattle.quantity.specs.Text.{quantity_text};
ghost use Rattle.reply.specs.Lines as spec;

use digits_print::{Style, print_number};
use frac128::Frac;
use quantity::Quantity;
use std::alloc::{AllocError, Global};

/// Appends words and the bytes after them.
pub(crate) fn put_words(text: &mut Vec<u8>, words: &[u8], behind: &[u8]) -> Result<(), AllocError>
    ensures { OnOk result (text.new.items ≡ text.old.items ++ (words.now ++ behind.now)) }
{
    text.extend_from_slice(words)?;
    text.extend_from_slice(behind)?;
    Ok(())
}

/// Appends a number.
pub(crate) fn put_number(
    alloc: Global,
    text: &mut Vec<u8>,
    style: Style,
    x: &Frac,
) -> Result<(), AllocError>
    requires { IsPrintStyle style }
    ensures { OnOk result (text.new.items ≡ text.old.items ++ printed_number_text style x.now) }
{
    let number = print_number(alloc, x, style)?;
    text.extend_from_slice(number.as_bytes())?;
    Ok(())
}

/// Appends a number, or `inf` if there is none.
pub(crate) fn put_some_number(
    alloc: Global,
    text: &mut Vec<u8>,
    style: Style,
    x: &Option<Frac>,
) -> Result<(), AllocError>
    requires { IsPrintStyle style }
    ensures { OnOk result (text.new.items ≡ text.old.items ++ spec.reply_number_text style x.now) }
{
    match x {
        Some(x) => put_number(alloc, text, style, x),
        None => {
            text.extend_from_slice(b"inf".as_slice())?;
            Ok(())
        }
    }
}

/// Appends a quantity.
pub(crate) fn put_quantity(
    alloc: Global,
    text: &mut Vec<u8>,
    style: Style,
    x: &Quantity,
) -> Result<(), AllocError>
    requires { IsPrintStyle style }
    ensures { OnOk result (text.new.items ≡ text.old.items ++ quantity_text style x.now) }
{
    let shown = x.show(alloc, style)?;
    text.extend_from_slice(shown.as_bytes())?;
    Ok(())
}
