//! A walk over numbered names: finds the first name fault of a query, or the names that the query newly closes.
#![tactic(auto)]

mod chain;
mod fault;
mod findings;
mod known_faults;
mod laws;
mod mark;
mod net;
mod search;
mod step;
mod traces;
mod trail;
mod visit;
mod walk;

pub use fault::Fault;
pub use findings::Findings;
pub use laws::{closed_law, fault_law, findings_law, path_law, settled_law};
pub use net::WalkGraph;
pub use step::{Step, StepList};
pub use walk::Walker;
