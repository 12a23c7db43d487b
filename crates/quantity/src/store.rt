//! The storage of the powers of a quantity.

ghost use Rattle.std.specs.Prelude.{◌≡◌, ◌==◌, ◌++◌, ◌∷◌, [], All, IfOk, IfSome, OnOk, length, map};
ghost use Rattle.quantity.specs.Amount.{powers_match};
ghost use Rattle.quantity.specs.Exponents.{IsUnitPower};
ghost use Rattle.quantity.specs.Factors.{exponent_in};
ghost use Rattle.quantity.specs.Merges.{ArePowers, ArePowersInOrder, merge_of_powers, scaled_powers, unit_power_by};
ghost use Rattle.quantity.specs.Stores.{remaining_powers, stored_powers};
ghost use Rattle.quantity.specs.Text.{listed_powers_text};

use crate::degree::Degree;
use crate::exponent::Exponent;
use crate::factor::Factor;
use crate::fault::ExponentFault;
use crate::name::Name;
use crate::power::{Power, PowerList};
use crate::power_join::join_all;
use crate::power_lookup::{same_lists, same_powers};
use crate::power_merge::{copies, merge};
use crate::power_scale::scale;
use crate::text::put_powers;
use crate::walk::Walk;
use std::alloc::{AllocError, Global};
use std::collections::BTreeMap;

// Two lists of at most this many powers are merged as lists.
const MOST_MERGED: usize = 16;

/// Powers in the byte order of their names. A few powers are a list, and many are a search tree, in which a product
/// changes only the names of its second factor.
#[derive(Drop)]
pub(crate) enum Store {
    Few(PowerList),
    Many(BTreeMap<Name, Exponent>),
}

impl Store {
    // Creates a store without powers.
    pub(crate) fn new(alloc: Global) -> Store
        ensures { stored_powers result ≡ [] }
    {
        Store::Few(PowerList::new(alloc))
    }

    // Creates a store of a single power.
    pub(crate) fn of(alloc: Global, power: Power) -> Result<Store, AllocError>
        ensures { IfOk result (λ store. stored_powers store ≡ power ∷ []) }
    {
        let mut items = PowerList::new(alloc);
        items.push(power)?;
        Ok(Store::Few(items))
    }

    pub(crate) fn is_empty(&self) -> bool
        ensures { result ≡ (length (stored_powers self.now) == 0) }
    {
        match self {
            Store::Few(items) => items.is_empty(),
            Store::Many(tree) => tree.len() == 0,
        }
    }

    // Returns the powers as a slice, or `None` if they are in a tree.
    fn list(&self) -> Option<&[Power]>
        ensures { IfSome result (λ list. list.now ≡ stored_powers self.now) }
    {
        match self {
            Store::Few(items) => Some(items.as_slice()),
            Store::Many(_) => None,
        }
    }

    // Iterates over the powers.
    pub(crate) fn walk(&self) -> Walk<'_>
        ensures { remaining_powers result ≡ stored_powers self.now }
    {
        match self {
            Store::Few(items) => Walk::Slice(items.as_slice()),
            Store::Many(tree) => Walk::Entries(tree.iter()),
        }
    }

    // Reports whether both stores have the same names, and each exponent is that of the other store as the factor uses
    // it.
    pub(crate) fn matches(&self, other: &Store, factor: Factor) -> bool
        ensures { result ≡ powers_match (exponent_in factor) (stored_powers self.now) (stored_powers other.now) }
    {
        if let Some(left) = self.list() {
            if let Some(right) = other.list() {
                return same_lists(left, right, factor);
            }
        }
        same_powers(self.walk(), other.walk(), factor)
    }

    // Returns copies of the powers as the factor uses them.
    pub(crate) fn copy_powers(&self, alloc: Global, factor: Factor) -> Result<Store, AllocError>
        ensures { IfOk result (λ store. stored_powers store
            ≡ map (unit_power_by (exponent_in factor)) (stored_powers self.now)) }
    {
        Ok(match self {
            Store::Few(items) => Store::Few(copies(alloc, items.as_slice(), factor)?),
            Store::Many(tree) => Store::Few(list_powers(alloc, tree, factor)?),
        })
    }

    // Merges the powers with those of a factor.
    pub(crate) fn merge_store(
        self,
        alloc: Global,
        other: &Store,
        factor: Factor,
    ) -> Result<Store, ExponentFault>
        requires left { ArePowersInOrder (stored_powers self) }
        requires right { ArePowersInOrder (stored_powers other.now) }
        ensures { ArePowers stored_powers result
            (merge_of_powers (exponent_in factor) (stored_powers self) (stored_powers other.now)) }
    {
        if other.is_empty() {
            return Ok(self);
        }
        if self.is_empty() {
            return Ok(other.copy_powers(alloc, factor)?);
        }
        match self {
            Store::Few(left) => merge_list(alloc, left, other, factor),
            Store::Many(left) => {
                let tree = join_all(alloc, left, other.walk(), factor)?;
                Ok(Store::Many(tree))
            }
        }
    }

    // Returns the powers with each exponent multiplied by the exponent of a power, without those that become 0.
    pub(crate) fn scale_powers(self, alloc: Global, degree: &Degree) -> Result<Store, ExponentFault>
        requires { All IsUnitPower (stored_powers self) }
        ensures { ArePowers stored_powers result (scaled_powers degree.now (stored_powers self)) }
    {
        let items = match self {
            Store::Few(items) => items,
            Store::Many(tree) => list_powers(alloc, &tree, Factor::Plain)?,
        };
        Ok(Store::Few(scale(alloc, items, degree)?))
    }

    // Appends the names to a text: those with positive exponents and, after a slash, those with negative ones.
    pub(crate) fn put_text(&self, alloc: Global, text: &mut Vec<u8>) -> Result<(), AllocError>
        ensures { OnOk result (text.new.items ≡ text.old.items ++ listed_powers_text (stored_powers self.now)) }
    {
        match self {
            Store::Few(items) => put_powers(alloc, text, items.as_slice()),
            Store::Many(tree) => {
                let items = list_powers(alloc, tree, Factor::Plain)?;
                put_powers(alloc, text, items.as_slice())
            }
        }
    }
}

// Returns copies of the powers of a tree as the factor uses them.
fn list_powers(
    alloc: Global,
    tree: &BTreeMap<Name, Exponent>,
    factor: Factor,
) -> Result<PowerList, AllocError>
    ensures { IfOk result (λ items. items.items ≡ map (unit_power_by (exponent_in factor)) tree.now.entries) }
{
    let mut items = PowerList::with_capacity(alloc, tree.len())?;
    for (name, exponent) in tree {
        items.push(Power::new(name.copy(alloc)?, factor.exponent(*exponent)))?;
    }
    Ok(items)
}

// Merges a list with the powers of a factor. The result is a tree if either of them is long.
fn merge_list(
    alloc: Global,
    left: PowerList,
    other: &Store,
    factor: Factor,
) -> Result<Store, ExponentFault>
    requires left { ArePowersInOrder left.items }
    requires right { ArePowersInOrder (stored_powers other.now) }
    ensures { ArePowers stored_powers result
        (merge_of_powers (exponent_in factor) left.items (stored_powers other.now)) }
{
    if let Some(right) = other.list() {
        if left.len() <= MOST_MERGED && right.len() <= MOST_MERGED {
            let items = merge(alloc, left, right, factor)?;
            return Ok(Store::Few(items));
        }
    }
    let left = plant_tree(alloc, left.as_slice())?;
    let tree = join_all(alloc, left, other.walk(), factor)?;
    Ok(Store::Many(tree))
}

// Creates a tree from copies of these powers. Fails only if memory runs out.
fn plant_tree(alloc: Global, powers: &[Power]) -> Result<BTreeMap<Name, Exponent>, ExponentFault>
    requires { ArePowersInOrder powers.now }
    ensures { ArePowers (λ tree. tree.entries) result powers.now }
{
    join_all(
        alloc,
        BTreeMap::new(alloc),
        Walk::Slice(powers),
        Factor::Plain,
    )
}
