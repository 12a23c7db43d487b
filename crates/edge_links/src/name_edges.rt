//! Edges between names.

ghost use Rattle.std.specs.Prelude.{◌≡◌, ◌+◌, ◌<◌, ◌≤◌, ◌++◌, [], ℕ, map, max, Contains, OnOk, OnErr};
ghost use Rattle.edge_links.specs.Edges.{link_edge, AreSameLinkEdges};
ghost use Rattle.edge_links.specs.Reach.{AreMarksCleared};
ghost use Rattle.edge_links.specs.AffectedNames.{ForgetsNameEdges, IsAffectedByEdges};

use crate::links::Links;
use crate::marks::Marks;
use crate::node_marks::NodeMarks;
use crate::user_edges::link_all;
use std::alloc::{AllocError, Global};
use std::marker::Model;

/// Which names use which, and which names looked at which other keys. Names and keys are numbered from 0.
///
/// Each number has two nodes. The first is that of the name, which uses names and is used. The second is that of
/// the key, for names that looked at it but do not use it. It is never a user, so nothing is forgotten through it.
#[derive(Drop)]
pub struct NameEdges {
    links: Links,
}

impl Model for NameEdges {
    ghost use Rattle.edge_links.specs.NameGraphs.{NameEdgeGraph};
    ghost use Rattle.edge_links.specs.NameNodes.{name_edge_graph, AreEdgeNodes};

    ghost Value = { NameEdgeGraph };

    ghost view = { λ e. name_edge_graph e.links };

    ghost invariant = { λ e. AreEdgeNodes e.links };
}

impl NameEdges {
    /// Returns a graph without names. It allocates no memory.
    pub fn new(alloc: Global) -> NameEdges
        ensures { result ≡ record { names = 0; uses = []; looks = [] } }
    {
        NameEdges {
            links: Links::new(alloc),
        }
    }

    /// Returns the number of names.
    pub fn names(&self) -> usize
        ensures { result ≡ self.now.names }
    {
        self.links.node_count() / 2
    }

    /// Ensures that there are at least `count` names. On an error, some names may have been added, but the edges stay.
    pub fn cover(&mut self, alloc: Global, count: usize) -> Result<(), AllocError>
        ensures covered { OnOk result (count ≤ self.new.names) }
        ensures within { self.new.names ≤ max self.old.names count }
        ensures rest { self.new ≡ record self.old { names = self.new.names } }
        ensures no_less { self.old.names ≤ self.new.names }
    {
        while self.names() < count {
            self.add_name(alloc)?;
        }
        Ok(())
    }

    /// Adds a name, whose number is the previous number of names. On an error nothing changes.
    pub fn add_name(&mut self, alloc: Global) -> Result<(), AllocError>
        ensures ok { OnOk result (self.new ≡ record self.old { names = self.old.names + 1 }) }
        ensures err { OnErr result (self.new ≡ self.old) }
    {
        let node = self.links.add_node(alloc)?;
        if node % 2 == 0 {
            self.links.add_node(alloc)?;
        }
        Ok(())
    }

    /// Records that a name uses the names `used`, and looked at the other keys `looked`. On an error nothing changes.
    pub fn link(
        &mut self,
        alloc: Global,
        user: usize,
        used: &[usize],
        looked: &[usize],
    ) -> Result<(), AllocError>
        requires user { user < self.old.names }
        requires used { (k : ℕ) → Contains used.now k → k < self.old.names }
        requires looked { (k : ℕ) → Contains looked.now k → k < self.old.names }
        ensures names { self.new.names ≡ self.old.names }
        ensures uses { OnOk result (AreSameLinkEdges self.new.uses (map (link_edge user) used.now ++ self.old.uses)) }
        ensures looks { OnOk result
            (AreSameLinkEdges self.new.looks (map (link_edge user) looked.now ++ self.old.looks)) }
        ensures err { OnErr result (self.new ≡ self.old) }
    {
        self.links.reserve_edges(alloc, used.len() + looked.len())?;
        link_all(&mut self.links, user * 2, used, 0);
        link_all(&mut self.links, user * 2, looked, 1);
        Ok(())
    }

    /// Clears the marks of the names that a change of a key affects, and removes the edges from these names. Allocates
    /// no memory. The cost is proportional to the number of removed edges.
    pub fn forget<K: Marks>(&mut self, key: usize, names: K) -> K
        requires { key < self.old.names }
        ensures edges { ForgetsNameEdges (IsAffectedByEdges self.old key) self.old self.new }
        ensures marks { AreMarksCleared (IsAffectedByEdges self.old key) (K.is_marked names) (K.is_marked result) }
        ensures rest { K.stays names result }
    {
        let mut marks = NodeMarks { names };
        self.links.unsettle(key * 2, &mut marks);
        self.links.unsettle(key * 2 + 1, &mut marks);
        marks.names
    }
}
