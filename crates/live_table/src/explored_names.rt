//! The names explored since the last edit.

ghost use Rattle.std.specs.Prelude.{◌≡◌, ◌⊎◌, ◌↔◌, ◌<◌, [], ℕ, OnErr, OnOk, Contains};
ghost use Rattle.name_walk.specs.Findings.{AreNoWalkFindings};

use crate::dead_end::DeadEnd;
use crate::worklist::Worklist;
use name_walk::Findings;
use std::alloc::{AllocError, Global};

/// The names below queries that had a name fault, those of their words that lead nowhere, and which of these names have
/// a fault. Until the next edit their entries are not read again, and their faults are not searched for again.
pub(crate) struct Explored {
    pub(crate) names: Worklist,
    pub(crate) dead_ends: Vec<DeadEnd>,
    pub(crate) findings: Findings,
}

// Written by hand, so that code that drops explored names need not prove anything about the contents.
impl Drop for Explored {
    fn drop(self) {
        let Explored {
            names: _,
            dead_ends: _,
            findings: _,
        } = self;
    }
}

impl Explored {
    /// Returns an empty set of names. It allocates no memory.
    pub(crate) fn new(alloc: Global) -> Explored
        ensures names { result.names ≡ [] }
        ensures dead_ends { result.dead_ends.items ≡ [] }
        ensures findings { AreNoWalkFindings result.findings }
    {
        Explored {
            names: Worklist::new(alloc),
            dead_ends: Vec::new(alloc),
            findings: Findings::new(alloc),
        }
    }

    /// Forgets all names.
    pub(crate) fn clear(&mut self, alloc: Global)
        ensures names { self.new.names ≡ [] }
        ensures dead_ends { self.new.dead_ends.items ≡ [] }
        ensures findings { AreNoWalkFindings self.new.findings }
    {
        self.names.clear();
        self.dead_ends.clear();
        self.findings.clear(alloc);
    }

    /// Adds the names of an agenda, which are below `end`. If memory runs out, no name is left, and the faults are
    /// forgotten.
    pub(crate) fn put_all(
        &mut self,
        alloc: Global,
        worklist: &Worklist,
        end: usize,
    ) -> Result<(), AllocError>
        requires { (m : ℕ) → Contains worklist.now m → m < end }
        ensures ok { OnOk result ((m : ℕ) → Contains self.new.names m
            ↔ (Contains self.old.names m ⊎ Contains worklist.now m)) }
        ensures kept { OnOk result (self.new.findings ≡ self.old.findings) }
        ensures err { OnErr result (self.new.names ≡ []) }
        ensures none { OnErr result (AreNoWalkFindings self.new.findings) }
        ensures dead_ends { self.new.dead_ends.items ≡ self.old.dead_ends.items }
    {
        let put = self.names.put_all(worklist.as_slice(), end);
        if put.is_err() {
            self.names.clear();
            self.findings.clear(alloc);
        }
        put
    }
}
