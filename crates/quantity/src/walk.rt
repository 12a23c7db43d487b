//! Iteration over powers.

ghost use Rattle.quantity.specs.Stores.{TakesFirstPower, remaining_powers};

use crate::exponent::Exponent;
use crate::name::Name;
use crate::power::Power;
use std::collections::btree_map::Iter;

/// The remaining powers of a list or of a tree, in the byte order of their names.
#[derive(Drop)]
pub(crate) enum Walk<'a> {
    Slice(&'a [Power]),
    Entries(Iter<'a, Name, Exponent>),
}

/// A name with its exponent, borrowed from a walk.
#[derive(Clone, Copy)]
pub(crate) struct Entry<'a> {
    pub(crate) name: &'a Name,
    pub(crate) exponent: Exponent,
}

impl<'a> Walk<'a> {
    // Removes and returns the first of the remaining powers.
    #[inline]
    pub(crate) fn next(&mut self) -> Option<Entry<'a>>
        ensures { TakesFirstPower (remaining_powers self.old) result (remaining_powers self.new) }
    {
        match self {
            Walk::Slice(powers) => {
                let Some((power, rest)) = powers.split_first() else {
                    return None;
                };
                *powers = rest;
                Some(Entry {
                    name: power.name(),
                    exponent: power.exponent(),
                })
            }
            Walk::Entries(entries) => {
                let Some((name, exponent)) = entries.next() else {
                    return None;
                };
                Some(Entry {
                    name,
                    exponent: *exponent,
                })
            }
        }
    }
}
