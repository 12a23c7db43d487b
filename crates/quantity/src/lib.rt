//! Quantities: a fraction with the exponents of the primitive names in which it is measured.
#![tactic(auto)]

mod conformance;
mod degree;
mod exponent;
mod factor;
mod fault;
mod fraction_power;
mod laws;
mod name;
mod power;
mod power_join;
mod power_lookup;
mod power_merge;
mod power_scale;
mod powers;
mod product;
mod quantity;
mod show;
mod store;
mod sum;
mod text;
mod walk;

pub use digits_print::Style;
pub use exponent::Exponent;
pub use fault::QuantityFault;
pub use laws::{conform_law, examples_law, product_law, quantity_memory_law, same_exponents_law};
pub use quantity::Quantity;
