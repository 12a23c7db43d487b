//! Boxed faults.

ghost use Rattle.std.specs.Prelude.{◌≡◌, IfOk};

use crate::fault::ValueFault;
use std::alloc::{AllocError, Global};
use std::marker::Model;

/// A boxed fault. Few names and steps have a fault, but a fault may hold two quantities, which would make every outcome
/// and every result as large. Contracts see the fault itself.
pub struct KeptFault {
    fault: Box<ValueFault>,
}

// Written by hand, so that code that drops a fault need not prove anything about the contents.
impl Drop for KeptFault {
    fn drop(self) {
        let KeptFault { fault: _ } = self;
    }
}

impl Model for KeptFault {
    ghost use Rattle.tree_eval.specs.declared.fault.ValueFault.{ValueFault};
    ghost use Rattle.tree_eval.specs.contracts.fault.ValueFault as stored;

    ghost Value = { ValueFault };

    ghost coded = { stored.the_row.coded };

    ghost view = { λ k. k.fault.value };
}

impl KeptFault {
    /// Boxes a fault. The only error is lack of memory.
    pub fn new(alloc: Global, fault: ValueFault) -> Result<KeptFault, AllocError>
        ensures { IfOk result (λ kept. kept ≡ fault) }
    {
        let fault = Box::new(alloc, fault)?;
        Ok(KeptFault { fault })
    }

    /// Returns the fault.
    pub fn into_fault(self) -> ValueFault
        ensures { result ≡ self }
    {
        let KeptFault { fault } = self;
        Box::into_inner(fault)
    }

    /// Borrows the fault.
    pub fn get(&self) -> &ValueFault
        ensures { result.now ≡ self.now }
    {
        &self.fault
    }
}
