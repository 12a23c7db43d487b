//! Converts name faults by number into faults by name.

ghost use Rattle.std.specs.Prelude.{◌≡◌, IfOk, map};
ghost use Rattle.def_entry.specs.Tables.{EntryTable};
ghost use Rattle.name_walk.specs.Walks.{walk_fault_view};
ghost use Rattle.table_names.specs.NumberedNames.{fault_by_name};
ghost use Rattle.live_table.specs.ExploredNames.{explored_fault_at};
ghost use Rattle.live_table.specs.TableContents.{node_key_at};

use crate::dead_end::DeadEnd;
use crate::key_index::KeyIndex;
use def_entry::{Key, Keys};
use name_walk::Fault;
use std::alloc::{AllocError, Global};
use table_names::NameFault;
use units_io::Text;

/// Converts a fault by number into a fault by name. The only error is lack of memory.
pub(crate) fn named_fault(
    alloc: Global,
    keys: &KeyIndex,
    dead_ends: &[DeadEnd],
    fault: &Fault,
) -> Result<NameFault, AllocError>
    ensures { IfOk result (λ f. (table : EntryTable)
        → f ≡ fault_by_name table (node_key_at keys.now) (explored_fault_at dead_ends.now)
        (walk_fault_view fault.now)) }
{
    match fault {
        Fault::DeadEnd(place, None) => dead_end_fault(alloc, dead_ends, *place, None),
        Fault::DeadEnd(place, Some(n)) => {
            let holder = keys.copy(alloc, *n)?;
            dead_end_fault(alloc, dead_ends, *place, Some(holder))
        }
        Fault::Cycle(names) => Ok(NameFault::Cycle(keys_of(alloc, keys, names)?)),
    }
}

// Returns the fault of a word that leads nowhere.
fn dead_end_fault(
    alloc: Global,
    dead_ends: &[DeadEnd],
    place: usize,
    holder: Option<Key>,
) -> Result<NameFault, AllocError>
    ensures { IfOk result (λ f. f ≡ explored_fault_at dead_ends.now place holder) }
{
    match dead_ends.get(place) {
        Some(dead_end) => dead_end.fault(alloc, holder),
        None => Ok(NameFault::Unknown(Text::from_bytes(alloc, b"")?, holder)),
    }
}

// Returns the keys of numbers.
fn keys_of(alloc: Global, keys: &KeyIndex, names: &[usize]) -> Result<Keys, AllocError>
    ensures { IfOk result (λ list. list ≡ map (node_key_at keys.now) names.now) }
{
    let mut list = Keys::new(alloc);
    for n in names {
        let key = keys.copy(alloc, *n)?;
        list.push(alloc, key)?;
    }
    Ok(list)
}
