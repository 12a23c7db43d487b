//! What the definitions of several crates have to satisfy if they mean what they should: examples at their limits,
//! worked out by hand. Each crate has such examples of its own. These are apart, since every crate above a changed one
//! has to be proved again.
#![tactic(auto)]

mod laws;

pub use laws::{
    call_place_examples, include_depth_examples, interval_end_examples, locale_block_examples,
    number_limit_examples, printed_layout_examples, shadowed_line_examples,
};
