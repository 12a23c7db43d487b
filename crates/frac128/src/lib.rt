//! Exact fractions whose numerator and denominator have at most 127 bits.
#![tactic(auto)]

mod divisors;
mod fault;
mod floor;
mod fraction;
mod laws;
mod numeral;
mod numeral_reader;
mod numeral_syntax;
mod order;
mod power;
mod product;
mod root;
mod sign;
mod sum;

pub use fault::FracFault;
pub use fraction::Frac;
pub use laws::{
    compared_law, digits_law, floor_law, gcd_law, lcm_law, nearest_whole_law, numeral_law,
    order_law, reduced_law, root_law, root_of_law, steps_law,
};
pub use numeral::{Numeral, NumeralFault};
pub use numeral_reader::{read_longest, read_numeral};
pub use numeral_syntax::numeral_len;
