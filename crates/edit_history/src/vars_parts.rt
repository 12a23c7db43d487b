//! Parts of lists of variables: comparing and copying them.

ghost use Rattle.std.specs.Prelude.{◌≡◌, ◌≤◌, length, take, drop, OnOk};
ghost use Rattle.std.specs.Bool.{OnTrue};
ghost use Rattle.units_io.specs.NamedValues.{HasDistinctTextNames};
ghost use Rattle.edit_history.specs.VarsParts.{IsSameHistoryPair, history_pairs_between, history_with_pairs};

use std::alloc::{AllocError, Global};
use units_io::{Text, Vars};

/// The ends of two lists of variables, without the equal pairs at their ends.
#[derive(Drop)]
pub struct Ends {
    pub in_vars: usize,
    pub in_others: usize,
}

/// Returns the number of pairs at the front that are equal in both lists.
pub fn same_front(vars: &Vars, others: &Vars) -> usize
    ensures same { take result vars.now ≡ take result others.now }
    ensures inside { result ≤ length others.now }
{
    for i in 0..vars.len() {
        if !is_same_pair(vars, i, others, i) {
            return i;
        }
    }
    vars.len()
}

/// Returns the ends of both lists without the equal pairs at their ends. The first `front` pairs are not compared.
pub fn differing_ends(vars: &Vars, others: &Vars, front: usize) -> Ends
    requires { front ≤ length others.now }
    ensures same { drop result.in_vars vars.now ≡ drop result.in_others others.now }
    ensures after_front { front ≤ result.in_others }
    ensures distinct { HasDistinctTextNames others.now }
{
    let mut in_vars = vars.len();
    let mut in_others = others.len();
    while in_vars > front && in_others > front {
        if !is_same_pair(vars, in_vars - 1, others, in_others - 1) {
            break;
        }
        in_vars -= 1;
        in_others -= 1;
    }
    Ends { in_vars, in_others }
}

/// Sets copies of the pairs from place `first` up to `end`, exclusive, one after another; in a list that has none of
/// these names this appends them. The only error is running out of memory.
pub fn copy_pairs(
    alloc: Global,
    copies: &mut Vars,
    vars: &Vars,
    first: usize,
    end: usize,
) -> Result<(), AllocError>
    ensures { OnOk result (copies.new ≡ history_with_pairs copies.old (history_pairs_between first end vars.now)) }
{
    for i in first..end {
        let Some((name, value)) = vars.get(i) else {
            return Ok(());
        };
        let name = Text::from_bytes(alloc, name)?;
        let value = value.copy(alloc)?;
        copies.set(alloc, name, value)?;
    }
    Ok(())
}

// Returns whether the pair at place `i` of `vars` equals the pair at place `j` of `others`.
fn is_same_pair(vars: &Vars, i: usize, others: &Vars, j: usize) -> bool
    ensures { OnTrue result (IsSameHistoryPair vars.now i others.now j) }
{
    let Some((name, value)) = vars.get(i) else {
        return false;
    };
    let Some((other_name, other_value)) = others.get(j) else {
        return false;
    };
    name == other_name && value.as_bytes() == other_value.as_bytes()
}
