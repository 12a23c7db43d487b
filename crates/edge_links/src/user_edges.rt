//! Edges from one node to several.

ghost use Rattle.std.specs.Prelude.{◌≡◌, ◌+◌, ◌*◌, ◌<◌, ◌≤◌, ◌^◌, ◌++◌, ℕ, map, length, Contains};
ghost use Rattle.edge_links.specs.Edges.{AreSameLinkEdges};
ghost use Rattle.edge_links.specs.NameNodes.{edge_to};

use crate::links::Links;

// Adds an edge from the node `user` to the node of each key that has this remainder. Allocates no memory.
pub(crate) fn link_all(links: &mut Links, user: usize, keys: &[usize], remainder: usize)
    requires user { user < links.old.nodes }
    requires keys { (k : ℕ) → Contains keys.now k → k * 2 + remainder < links.old.nodes }
    requires fits { links.old.nodes ≤ 2 ^ 64 }
    requires room { length keys.now ≤ links.old.spare }
    ensures edges { AreSameLinkEdges links.new.edges (map (edge_to remainder user) keys.now ++ links.old.edges) }
    ensures spare { links.new.spare + length keys.now ≡ links.old.spare }
    ensures nodes { links.new.nodes ≡ links.old.nodes }
{
    for key in keys {
        links.link(user, *key * 2 + remainder);
    }
}
