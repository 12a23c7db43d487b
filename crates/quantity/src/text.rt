//! The texts of names with exponents.

ghost use Rattle.std.specs.Prelude.{◌≡◌, ◌++◌, OnOk, unsigned_abs};
ghost use Rattle.std.specs.Fmt.{decimal};
ghost use Rattle.std.specs.List.{filter, flat_map, list_any};
ghost use Rattle.quantity.specs.Text.{exponent_text, is_power_on_side, listed_powers_text, unit_power_text};

use crate::exponent::Exponent;
use crate::power::Power;
use std::alloc::{AllocError, Global};

// The side of the slash on which a name is written.
#[derive(Clone, Copy)]
enum Side {
    Above,
    Below,
}

impl Side {
    // Reports whether a power is written on this side.
    fn has(self, power: &Power) -> bool
        ensures { result ≡ is_power_on_side self power.now }
    {
        match self {
            Side::Above => power.exponent().num > 0,
            Side::Below => power.exponent().num < 0,
        }
    }
}

// Appends the names to a text: those with positive exponents and, after a slash, those with negative ones.
pub(crate) fn put_powers(
    alloc: Global,
    text: &mut Vec<u8>,
    powers: &[Power],
) -> Result<(), AllocError>
    ensures { OnOk result (text.new.items ≡ text.old.items ++ listed_powers_text powers.now) }
{
    put_part(alloc, text, powers, Side::Above)?;
    if has_part(powers, Side::Below) {
        text.extend_from_slice(b" /".as_slice())?;
        put_part(alloc, text, powers, Side::Below)?;
    }
    Ok(())
}

// Reports whether any power is written on this side.
fn has_part(powers: &[Power], side: Side) -> bool
    ensures { result ≡ list_any (is_power_on_side side) powers.now }
{
    powers.iter().any(|power| side.has(power))
}

// Appends the names of one side to a text.
fn put_part(
    alloc: Global,
    text: &mut Vec<u8>,
    powers: &[Power],
    side: Side,
) -> Result<(), AllocError>
    ensures { OnOk result (text.new.items
        ≡ text.old.items ++ flat_map unit_power_text (filter (is_power_on_side side) powers.now)) }
{
    for power in powers {
        if side.has(power) {
            put_power(alloc, text, power)?;
        }
    }
    Ok(())
}

// Appends a space, a name and the magnitude of its exponent to a text.
fn put_power(alloc: Global, text: &mut Vec<u8>, power: &Power) -> Result<(), AllocError>
    ensures { OnOk result (text.new.items ≡ text.old.items ++ unit_power_text power.now) }
{
    text.push(b' ')?;
    text.extend_from_slice(power.name().as_bytes())?;
    put_exponent(alloc, text, &power.exponent())
}

// Appends the magnitude of an exponent to a text, unless it is 1.
fn put_exponent(alloc: Global, text: &mut Vec<u8>, exponent: &Exponent) -> Result<(), AllocError>
    ensures { OnOk result (text.new.items
        ≡ text.old.items ++ exponent_text (unsigned_abs exponent.now.num) exponent.now.den) }
{
    let num = exponent.num.unsigned_abs();
    if exponent.den == 1 && num == 1 {
        return Ok(());
    }
    text.push(b'^')?;
    put_number(alloc, text, num)?;
    if exponent.den > 1 {
        text.push(b'|')?;
        put_number(alloc, text, exponent.den)?;
    }
    Ok(())
}

// Appends the decimal digits of a number to a text.
fn put_number(alloc: Global, text: &mut Vec<u8>, number: u32) -> Result<(), AllocError>
    ensures { OnOk result (text.new.items ≡ text.old.items ++ decimal number) }
{
    let digits = number.to_string(alloc)?;
    text.extend_from_slice(digits.as_bytes())
}
