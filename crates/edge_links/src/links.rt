//! Edges between nodes.

ghost use Rattle.std.specs.Prelude.{◌≡◌, ◌+◌, ◌<◌, ◌≤◌, [], ◌∷◌, length, IfOk, OnOk, OnErr};
ghost use Rattle.edge_links.specs.Edges.{link_edge, AreSameLinkEdges};
ghost use Rattle.edge_links.specs.Once.{ClearsEachMarkOnce};
ghost use Rattle.edge_links.specs.Reach.{IsAffectedLinkNode, AreMarksCleared, ForgetsLinks};
ghost use Rattle.edge_links.specs.Into.{AreLinkUsers};

use crate::marks::Marks;
use crate::places::Places;
use crate::slots::{Place, place_of};
use std::alloc::{AllocError, Global};
use std::marker::Model;
use units_io::List;

/// A list of nodes.
pub type Nodes = List<usize>;

/// Edges, each from a user to a key. Nodes are numbered from 0.
#[derive(Drop)]
pub struct Links {
    places: Places,

    // the place of each node; the name of the place is the node
    nodes: Vec<Place>,
}

impl Model for Links {
    ghost use Rattle.edge_links.specs.Edges.{LinkGraph};
    ghost use Rattle.edge_links.specs.PlaceView.{link_graph_of, AreLinks};

    ghost Value = { LinkGraph };

    ghost view = { λ l. link_graph_of l.places l.nodes.items };

    ghost invariant = { λ l. AreLinks l.places l.nodes.items };
}

impl Links {
    /// Creates a graph without nodes and edges. It allocates no memory.
    pub fn new(alloc: Global) -> Links
        ensures { result ≡ record { nodes = 0; edges = []; spare = 0 } }
    {
        Links {
            places: Places::new(alloc),
            nodes: Vec::new(alloc),
        }
    }

    /// Adds a node and returns it; its number is the previous number of nodes. On an error nothing changes.
    pub fn add_node(&mut self, _alloc: Global) -> Result<usize, AllocError>
        ensures ok { IfOk result (λ node. (node ≡ self.old.nodes)
            × (self.new ≡ record self.old { nodes = self.old.nodes + 1 })) }
        ensures err { OnErr result (self.new ≡ self.old) }
    {
        self.places.begin()?;
        let node = self.nodes.len();
        let name = place_of(node)?;
        self.nodes.reserve(1)?;
        let place = self.places.add_head(name)?;
        self.nodes.push_reserved(place);
        Ok(node)
    }

    /// Returns the number of nodes.
    pub fn node_count(&self) -> usize
        ensures { result ≡ self.now.nodes }
    {
        self.nodes.len()
    }

    /// Reserves room for at least `n` more edges. An error changes neither the nodes nor the edges.
    pub fn reserve_edges(&mut self, _alloc: Global, n: usize) -> Result<(), AllocError>
        ensures room { OnOk result (n ≤ self.new.spare) }
        ensures no_less { self.old.spare ≤ self.new.spare }
        ensures rest { (self.new.nodes ≡ self.old.nodes) × (self.new.edges ≡ self.old.edges) }
    {
        while self.spare() < n {
            self.add_free()?;
        }
        Ok(())
    }

    /// Returns the number of edges that can be added before more room is needed.
    pub fn spare(&self) -> usize
        ensures { result ≡ self.now.spare }
    {
        self.places.spare()
    }

    /// Adds an edge. It allocates no memory.
    pub fn link(&mut self, user: usize, key: usize)
        requires there { (user < self.old.nodes) × (key < self.old.nodes) }
        requires room { 0 < self.old.spare }
        ensures edges { AreSameLinkEdges self.new.edges (link_edge user key ∷ self.old.edges) }
        ensures spare { self.new.spare + 1 ≡ self.old.spare }
        ensures nodes { self.new.nodes ≡ self.old.nodes }
    {
        let user = self.nodes[user];
        let key = self.nodes[key];
        self.places.fill(user, key);
    }

    /// Clears a key and every node from which the key can be reached, each once, and removes the edges of which these
    /// nodes are the users. It allocates no memory, and its cost depends only on the edges that it removes.
    pub fn unsettle<K: Marks>(&mut self, key: usize, marks: &mut K)
        requires { key < self.old.nodes }
        ensures edges { ForgetsLinks key self.old.edges self.new.edges }
        ensures spare { self.new.spare + length self.new.edges ≡ self.old.spare + length self.old.edges }
        ensures nodes { self.new.nodes ≡ self.old.nodes }
        ensures marks { AreMarksCleared (IsAffectedLinkNode self.old.edges key) (K.is_marked marks.old)
            (K.is_marked marks.new) }
        ensures rest { K.stays marks.old marks.new }
        ensures once { ClearsEachMarkOnce K.is_call (IsAffectedLinkNode self.old.edges key) marks.old marks.new }
    {
        let place = self.nodes[key];
        self.places.unsettle(place, marks);
    }

    /// Returns the users of the edges to a key, in unspecified order. Each user occurs once per such edge.
    pub fn edges_into(&self, alloc: Global, key: usize) -> Result<Nodes, AllocError>
        requires { key < self.now.nodes }
        ensures { IfOk result (AreLinkUsers self.now.edges key) }
    {
        let places = self.places.edges_into(alloc, self.nodes[key])?;
        let mut users = List::new(alloc);
        for &place in &places {
            let user = self.places.user_of(place);
            users.push(alloc, self.places.name(user) as usize)?;
        }
        Ok(users)
    }

    // Adds a free place. On an error nothing changes.
    fn add_free(&mut self) -> Result<(), AllocError>
        ensures ok { OnOk result (self.new ≡ record self.old { spare = self.old.spare + 1 }) }
        ensures err { OnErr result (self.new ≡ self.old) }
    {
        self.places.begin()?;
        let place = self.places.add_head(0)?;
        self.places.add_free(place);
        Ok(())
    }
}
