//! Memory that queries reuse.

use crate::tried_keys::TriedKeys;
use crate::worklist::Worklist;
use name_walk::Walker;
use std::alloc::Global;

/// Memory that one query leaves to the next.
pub(crate) struct Scratch {
    pub(crate) worklist: Worklist,
    pub(crate) tried: TriedKeys,
    pub(crate) walker: Walker,
}

// Written by hand, so that code that drops a scratch need not prove anything about the contents.
impl Drop for Scratch {
    fn drop(self) {
        let Scratch {
            worklist: _,
            tried: _,
            walker: _,
        } = self;
    }
}

impl Scratch {
    /// Returns empty scratch memory. It allocates nothing.
    pub(crate) fn new(alloc: Global) -> Scratch {
        Scratch {
            worklist: Worklist::new(alloc),
            tried: TriedKeys::new(alloc),
            walker: Walker::new(alloc),
        }
    }
}
