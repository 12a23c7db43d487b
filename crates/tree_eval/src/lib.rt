//! Evaluation of expressions and functions over an environment that provides the outcomes of names.
#![tactic(auto)]

mod answer;
mod direction;
mod end;
mod env;
mod eval_status;
mod fault;
mod function;
mod held_quantity;
mod holder;
mod kept_fault;
mod laws;
mod meaning;
mod multiple;
mod numeral;
mod operands;
mod outcome;
mod power;
mod reduction;
mod refusal;
mod scope;
mod step;
mod table;
mod word;

pub use env::Env;
pub use fault::{EvalFault, ValueFault};
pub use function::{apply, unapply};
pub use holder::{Holder, Part};
pub use kept_fault::KeptFault;
pub use laws::{examples_law, expansion_law, kept_law, meaning_law, unit_examples_law};
pub use meaning::Meaning;
pub use outcome::Outcome;
pub use reduction::reduce;
pub use scope::eval;
pub use step::Step;
