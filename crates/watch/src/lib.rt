//! Watched conversions: after an edit of the definitions, the replies that changed are reported.
#![tactic(auto)]

mod fault;
mod laws;
mod notices;
mod reply_renewal;
mod watch;
mod watches;

pub use fault::WatchFault;
pub use laws::{cost_law, edit_law, examples_law, report_law};
pub use watches::{MOST_WATCHES, Watches};
