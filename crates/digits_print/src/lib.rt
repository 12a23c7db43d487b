//! Numbers as texts: a fraction exactly, or rounded to a given number of significant digits.
#![tactic(auto)]

mod decimal;
mod digits;
mod exact;
mod laws;
mod layout;
mod ratio_rounding;
mod style;
mod tenfold;

pub use digits::print_digits;
pub use exact::print_exact;
pub use laws::{back_law, exact_law, nearest_law};
pub use style::{Style, print_number};
