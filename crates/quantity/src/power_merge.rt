//! Merging two lists of powers.

ghost use Rattle.std.specs.Prelude.{◌≡◌, ◌∷◌, [], All, IfOk, map};
ghost use Rattle.quantity.specs.Exponents.{IsUnitPower};
ghost use Rattle.quantity.specs.Factors.{exponent_in};
ghost use Rattle.quantity.specs.Merges.{ArePowers, ArePowersInOrder, merge_of_powers, unit_power_by};
ghost use Rattle.quantity.specs.Places.{power_place};

use crate::factor::Factor;
use crate::fault::ExponentFault;
use crate::name::Name;
use crate::power::{Power, PowerList};
use frac128::reduced_law;
use std::alloc::{AllocError, Global};
use std::cmp::Ordering;

// The position of a name in an ordered list: at an index that holds it, or before an index.
#[derive(Clone, Copy)]
enum Place {
    At(usize),
    Before(usize),
}

// Merges two ordered lists of powers into one. The exponents of a name that is in both lists are added, and a name
// whose exponents cancel is dropped. Each power of the second list is inserted at its place in the first.
pub(crate) fn merge(
    alloc: Global,
    left: PowerList,
    right: &[Power],
    factor: Factor,
) -> Result<PowerList, ExponentFault>
    requires left { ArePowersInOrder left.items }
    requires right { ArePowersInOrder right.now }
    ensures { ArePowers (λ list. list.items) result (merge_of_powers (exponent_in factor) left.items right.now) }
{
    reduced_law();
    let (mut powers, mut right) = (left, right);
    while let Some((power, rest)) = right.split_first() {
        join(alloc, &mut powers, power, factor)?;
        right = rest;
    }
    Ok(powers)
}

// Merges one power of a factor into an ordered list.
fn join(
    alloc: Global,
    powers: &mut PowerList,
    power: &Power,
    factor: Factor,
) -> Result<(), ExponentFault>
    requires list { All IsUnitPower powers.old.items }
    requires power { IsUnitPower power.now }
    ensures { ArePowers (λ _. powers.new.items) result
        (merge_of_powers (exponent_in factor) powers.old.items (power.now ∷ [])) }
{
    reduced_law();
    let exponent = factor.exponent(power.exponent());
    match place_of(powers.as_slice(), power.name()) {
        Place::Before(index) => powers.insert(index, power.with(alloc, exponent)?)?,
        Place::At(index) => {
            let Some(sum) = powers.as_slice()[index].exponent().add(&exponent) else {
                return Err(ExponentFault::Range);
            };
            if sum.is_zero() {
                powers.remove(index);
            } else {
                powers.get_mut(index).unwrap().put_exponent(sum);
            }
        }
    }
    Ok(())
}

// Returns the position of a name in an ordered list.
fn place_of(powers: &[Power], name: &Name) -> Place
    ensures { result ≡ power_place 0 name.now powers.now }
{
    let mut index = 0;
    while index < powers.len() {
        match powers[index].name().cmp(name) {
            Ordering::Less => index += 1,
            Ordering::Equal => return Place::At(index),
            Ordering::Greater => break,
        }
    }
    Place::Before(index)
}

// Returns copies of the powers as the factor uses them.
pub(crate) fn copies(
    alloc: Global,
    powers: &[Power],
    factor: Factor,
) -> Result<PowerList, AllocError>
    ensures { IfOk result (λ copies. copies.items ≡ map (unit_power_by (exponent_in factor)) powers.now) }
{
    let mut copies = PowerList::with_capacity(alloc, powers.len())?;
    for power in powers {
        copies.push(power.with(alloc, factor.exponent(power.exponent()))?)?;
    }
    Ok(copies)
}
