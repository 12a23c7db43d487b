//! The edges of settled names.

ghost use Rattle.std.specs.Prelude.{◌≡◌, []};

use crate::worklist::Worklist;
use edge_links::NameEdges;
use std::alloc::Global;
use std::collections::VecDeque;

/// Which settled names use which, and which other keys each has looked at. Only edits need the edges, queries do not:
/// names settled since the last edit get their edges at the next one.
pub(crate) struct LateEdges {
    pub(crate) made: NameEdges,
    // the names without edges, in the order in which they were settled
    pub(crate) waiting: VecDeque<usize>,
    // the names to which the words of one name lead
    pub(crate) targets: Worklist,
}

// Written by hand, so that code that drops edges need not prove anything about the contents.
impl Drop for LateEdges {
    fn drop(self) {
        let LateEdges {
            made: _,
            waiting: _,
            targets: _,
        } = self;
    }
}

impl LateEdges {
    /// Returns an empty set of edges. It allocates no memory.
    pub(crate) fn new(alloc: Global) -> LateEdges
        ensures made { result.made ≡ record { names = 0; uses = []; looks = [] } }
        ensures waiting { result.waiting.items ≡ [] }
    {
        LateEdges {
            made: NameEdges::new(alloc),
            waiting: VecDeque::new(alloc),
            targets: Worklist::new(alloc),
        }
    }
}
