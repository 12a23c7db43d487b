//! Edges between nodes, and a graph of numbered names over them. The cost of removing edges depends only on the edges
//! that are removed.
#![tactic(auto)]

mod edge_removal;
mod laws;
mod links;
mod marks;
mod name_edge_laws;
mod name_edges;
mod node_marks;
mod places;
mod rings;
mod slots;
mod user_edges;
mod waiting_stack;

pub use laws::edges_law;
pub use links::{Links, Nodes};
pub use marks::Marks;
pub use name_edge_laws::{forgetting_law, linking_law};
pub use name_edges::NameEdges;
