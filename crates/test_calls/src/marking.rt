//! Marks on nodes.

use edge_links::{Marks, Nodes};
use std::alloc::{AllocError, Global};

// Whether each node is marked.
#[derive(Drop)]
pub(crate) struct Marking {
    are_marked: Vec<bool>,
}

impl Marks for Marking {
    ghost use Rattle.test_calls.specs.Marks.{has_mark};

    ghost is_marked = { λ marking node. has_mark marking.are_marked.items node };

    ghost stays = { λ old new. Unit {0} };

    ghost stays_at_first = { λ marking. tt };

    ghost stays_on = { λ old mid new first then. tt };

    fn clear(&mut self, node: usize) {
        if node < self.are_marked.len() {
            self.are_marked[node] = false;
        }
    }
}

impl Marking {
    // Returns marks on this number of nodes.
    pub(crate) fn on(alloc: Global, nodes: usize) -> Result<Marking, AllocError> {
        let are_marked = vec![in alloc; true; nodes]?;
        Ok(Marking { are_marked })
    }

    // Returns the nodes without a mark, in order.
    pub(crate) fn cleared(&self, alloc: Global) -> Result<Nodes, AllocError> {
        let mut nodes = Nodes::new(alloc);
        for node in 0..self.are_marked.len() {
            if !self.are_marked[node] {
                nodes.push(alloc, node)?;
            }
        }
        Ok(nodes)
    }
}
