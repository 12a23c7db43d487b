//! The history of the edits of a live table: undo and redo.
#![tactic(auto)]

mod boxed_change;
mod boxed_exchange;
mod fault;
mod history;
mod laws;
mod line_exchange;
mod named_value;
mod setting_changes;
mod setting_steps;
mod settings_change;
mod stack;
mod step;
mod step_application;
mod vars_parts;

pub use boxed_change::BoxedChange;
pub use boxed_exchange::BoxedExchange;
pub use fault::HistoryFault;
pub use history::History;
pub use laws::{histories_are_timelines, replies_are_of_versions, undo_gives_back};
pub use line_exchange::LineExchange;
pub use named_value::NamedValue;
pub use settings_change::SettingsChange;
pub use step::Step;
