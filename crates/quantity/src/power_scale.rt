//! Multiplying the exponents of a list of powers.

ghost use Rattle.std.specs.Prelude.{All};
ghost use Rattle.quantity.specs.Exponents.{IsUnitPower, exponent_product};
ghost use Rattle.quantity.specs.Merges.{ArePowers, IsPowerPut, scaled_powers};

use crate::degree::Degree;
use crate::fault::ExponentFault;
use crate::power::{Power, PowerList};
use frac128::reduced_law;
use std::alloc::Global;

// Returns the powers with each exponent multiplied by the exponent of a power, without those that become 0.
pub(crate) fn scale(
    alloc: Global,
    items: PowerList,
    degree: &Degree,
) -> Result<PowerList, ExponentFault>
    requires { All IsUnitPower items.items }
    ensures { ArePowers (λ list. list.items) result (scaled_powers degree.now items.items) }
{
    reduced_law();
    degree.denominator_facts();
    let mut powers = PowerList::with_capacity(alloc, items.len())?;
    for power in items {
        put_product(&mut powers, power, degree)?;
    }
    Ok(powers)
}

// Appends a power with its exponent multiplied, unless that exponent is 0.
fn put_product(powers: &mut PowerList, power: Power, degree: &Degree) -> Result<(), ExponentFault>
    ensures { IsPowerPut result powers.old.items powers.new.items
        (power.0, exponent_product power.1 degree.now) }
{
    let product = match power.exponent().times(degree) {
        Some(product) => product,
        None => return Err(ExponentFault::Range),
    };
    if !product.is_zero() {
        powers.push(power.with_exponent(product))?;
    }
    Ok(())
}
