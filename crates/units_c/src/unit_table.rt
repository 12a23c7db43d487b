//! The struct that holds a table for C.

ghost use Rattle.std.specs.Prelude.{◌≡◌, ◌==◌, None, Some, true, false, is_some, option_map};
ghost use Rattle.units_c.specs.Tables.{c_table_open_mark};

use edited_table::{EditedTable, Handle};
use std::alloc::Global;

// The value of `state` in an open table.
const OPEN: u64 = 1_970_170_228;

/// A unit table, open or closed. A struct of zeros is a closed table.
#[repr(C)]
pub struct UnitsTable {
    pub(crate) state: u64,
    pub(crate) handle: Handle,
    pub ghost marked: { is_some handle.held ≡ (state == c_table_open_mark) },
}

impl UnitsTable {
    /// Returns whether the table is open.
    #[tactic(auto, using(crate::proofs::Held::c_value_is_absent))]
    pub(crate) fn is_open(&self) -> bool
        ensures open { result ≡ true → self.now.handle.held ≡ None → ⊥ }
        ensures closed { result ≡ false → self.now.handle.held ≡ None }
    {
        self.state == OPEN
    }

    /// Closes an open table and returns its content, or `None` if the table is already closed.
    pub(crate) fn take(&mut self, alloc: Global) -> Option<Box<EditedTable, Global>>
        ensures taken { option_map (λ table. table.value) result ≡ self.old.handle.held }
        ensures closed { self.new.handle.held ≡ None }
    {
        if !self.is_open() {
            return None;
        }
        let content = self.handle.take(alloc);
        self.state = 0;
        Some(content)
    }

    /// Opens a closed table with `content`.
    pub(crate) fn put(&mut self, content: Box<EditedTable, Global>)
        requires { self.old.handle.held ≡ None }
        ensures { self.new.handle.held ≡ Some content.value }
    {
        self.handle.put(content);
        self.state = OPEN;
    }
}
