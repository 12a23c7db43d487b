//! Merging powers into a search tree.

ghost use Rattle.std.specs.BTreeMap.{IsOrdered, Updates};
ghost use Rattle.std.specs.Cmp.Lexicographic.{slice_cmp};
ghost use Rattle.std.specs.Ordering.{nat_cmp};
ghost use Rattle.std.specs.Prelude.{◌∷◌, [], OnOk, Some};
ghost use Rattle.quantity.specs.Exponents.{IsUnitPower};
ghost use Rattle.quantity.specs.Factors.{exponent_in};
ghost use Rattle.quantity.specs.Merges.{ArePowers, ArePowersInOrder, merge_of_powers};
ghost use Rattle.quantity.specs.Stores.{power_of_walk_entry, remaining_powers};

use crate::exponent::Exponent;
use crate::factor::Factor;
use crate::fault::ExponentFault;
use crate::name::Name;
use crate::walk::{Entry, Walk};
use frac128::reduced_law;
use std::alloc::{AllocError, Global};
use std::collections::BTreeMap;

// Merges the remaining powers of a factor into a tree and returns the tree.
pub(crate) fn join_all(
    alloc: Global,
    left: BTreeMap<Name, Exponent>,
    right: Walk<'_>,
    factor: Factor,
) -> Result<BTreeMap<Name, Exponent>, ExponentFault>
    requires left { ArePowersInOrder left.entries }
    requires right { ArePowersInOrder (remaining_powers right) }
    ensures { ArePowers (λ tree. tree.entries) result
        (merge_of_powers (exponent_in factor) left.entries (remaining_powers right.entry)) }
{
    reduced_law();
    let (mut tree, mut right) = (left, right);
    while let Some(power) = right.next() {
        join(alloc, &mut tree, power, factor)?;
    }
    Ok(tree)
}

// Merges one power of a factor into a tree.
fn join(
    alloc: Global,
    tree: &mut BTreeMap<Name, Exponent>,
    power: Entry<'_>,
    factor: Factor,
) -> Result<(), ExponentFault>
    requires tree { ArePowersInOrder tree.old.entries }
    requires power { IsUnitPower (power_of_walk_entry power) }
    ensures { ArePowers (λ _. tree.new.entries) result
        (merge_of_powers (exponent_in factor) tree.old.entries (power_of_walk_entry power.entry ∷ [])) }
{
    reduced_law();
    let exponent = factor.exponent(power.exponent);
    let Some(old) = tree.get(power.name) else {
        set_exponent(alloc, tree, power.name, exponent)?;
        return Ok(());
    };
    let Some(sum) = old.add(&exponent) else {
        return Err(ExponentFault::Range);
    };
    if sum.is_zero() {
        tree.remove(power.name);
    } else {
        set_exponent(alloc, tree, power.name, sum)?;
    }
    Ok(())
}

// Sets the exponent of a name in a tree.
fn set_exponent(
    alloc: Global,
    tree: &mut BTreeMap<Name, Exponent>,
    name: &Name,
    exponent: Exponent,
) -> Result<(), AllocError>
    ensures updates { OnOk result (Updates (slice_cmp nat_cmp) tree.old tree.new name.now (Some exponent)) }
    ensures ordered { OnOk result (IsOrdered (slice_cmp nat_cmp) tree.new) }
{
    let name = name.copy(alloc)?;
    tree.insert(name, exponent)?;
    Ok(())
}
