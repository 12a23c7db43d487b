//! A nullable pointer to an edited table.

ghost use Rattle.std.specs.Prelude.{◌≡◌, IfOk, Option, None, Some};
ghost use Rattle.edited_table.specs.TableValue.{EditedTableView};
ghost use Rattle.edited_table.specs.HandleResources.{coded_handle_table, handle_owns};

use crate::edited_table::EditedTable;
use crate::parts::Parts;
use std::alloc::Global;
use std::marker::Model;
use std::mem;
use std::ptr::null_mut;

/// An edited table on the heap, or none. The layout is that of a C struct with one pointer. Contracts see the table.
///
/// Dropping a handle does not free its table: call `take` first.
#[repr(C)]
#[derive(Drop)]
pub struct Handle {
    at: *mut u8,
    alloc: Global,
    pub ghost held: { Option EditedTableView } by { coded_handle_table },
}

impl Model for Handle {
    ghost also_owns = { λ h. handle_owns h.alloc h.at h.held };
}

impl Handle {
    /// Stores `table` in a handle that has none.
    pub fn put(&mut self, table: Box<EditedTable, Global>)
        requires { self.old.held ≡ None }
        ensures { self.new.held ≡ Some table.value }
    {
        *self = Handle::of_parts(Parts::of(table));
    }

    /// Takes the table out of a handle that has one, and leaves the handle empty.
    pub fn take(&mut self, alloc: Global) -> Box<EditedTable, Global>
        requires { self.old.held ≡ None → ⊥ }
        ensures table { self.old.held ≡ Some result.value }
        ensures none { self.new.held ≡ None }
    {
        let whole = mem::replace(self, Handle::empty(alloc));
        whole.into_parts().into_box()
    }

    // Returns a handle without a table.
    fn empty(alloc: Global) -> Handle
        ensures { result.held ≡ None }
    {
        Handle {
            at: null_mut(),
            alloc,
        }
    }

    // Returns the handle whose table has these parts.
    fn of_parts(parts: Parts<EditedTable, Global>) -> Handle
        ensures { result.held ≡ Some parts.value }
    {
        let Parts { ptr, alloc } = parts;
        Handle {
            at: ptr as *mut u8,
            alloc,
        }
    }

    // Returns the parts of the box of a handle that has a table.
    fn into_parts(self) -> Parts<EditedTable, Global>
        requires { self.held ≡ None → ⊥ }
        ensures { self.held ≡ Some result.value }
    {
        let Handle { at, alloc } = self;
        Parts {
            ptr: at as *mut EditedTable,
            alloc,
        }
    }
}
