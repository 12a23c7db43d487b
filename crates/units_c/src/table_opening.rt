//! Opening and closing tables.

ghost use Rattle.std.specs.Prelude.{◌≡◌, ◌≢◌, None};
ghost use Rattle.edited_table.specs.Statuses.{status_code};
ghost use Rattle.edited_table.specs.declared.status.Status.TheVariants as statuses;
ghost use Rattle.units_c.specs.Definitions as spec;

use crate::definitions::{UnitsDefinitions, read_table};
use crate::unit_table::UnitsTable;
use edited_table::{Status, load_status};
use std::alloc::Global;

/// Opens a closed table over definitions in memory. Returns the status code. The table changes only if it is that of
/// `Done`.
#[unsafe(no_mangle)]
pub extern "C" fn units_open(
    alloc: Global,
    table: &mut UnitsTable,
    definitions: &UnitsDefinitions<'_>,
) -> u32
    ensures opened { result ≡ status_code statuses.Done → table.old.handle.held ≡ None }
    ensures content { result ≡ status_code statuses.Done → spec.IsCTableOpened definitions.now table.new.handle.held }
    ensures refused { result ≢ status_code statuses.Done → table.new.handle.held ≡ table.old.handle.held }
    ensures status { table.old.handle.held ≡ None → spec.IsOpenStatus (spec.c_deck_of_files definitions.now) result }
    ensures already { (table.old.handle.held ≡ None → ⊥) → result ≡ status_code statuses.AlreadyOpen }
{
    if table.is_open() {
        return Status::AlreadyOpen.code();
    }
    match read_table(alloc, definitions) {
        Ok(content) => {
            table.put(content);
            Status::Done.code()
        }
        Err(fault) => load_status(&fault).code(),
    }
}

/// Closes a table and frees its memory. Returns the code of `Done`, or of `Closed` if the table was not open.
#[unsafe(no_mangle)]
pub extern "C" fn units_close(alloc: Global, table: &mut UnitsTable) -> u32
    ensures closed { table.new.handle.held ≡ None }
    ensures done { (table.old.handle.held ≡ None → ⊥) → result ≡ status_code statuses.Done }
    ensures already { table.old.handle.held ≡ None → result ≡ status_code statuses.Closed }
{
    match table.take(alloc) {
        Some(_content) => Status::Done.code(),
        None => Status::Closed.code(),
    }
}
