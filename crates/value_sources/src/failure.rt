//! The step at which an expression has no value.

use expr_tree::RootKind;
use quantity::Quantity;
use tree_eval::Step;
use units_io::Text;

/// A step of an expression that has no value although each of its operands has one.
pub enum FailedStep {
    /// A product, a quotient, a sum or a difference, with the value of the members before and that of the next one.
    Joined(Step, Quantity, Quantity),
    /// A power, with its base and its exponent.
    Raised(Quantity, Quantity),
    /// A root, with its argument.
    Rooted(RootKind, Quantity),
    /// A call of the function of this name, with its argument.
    Called(Text, Quantity),
    /// A call of the inverse of the function of this name, with its argument.
    Inverted(Text, Quantity),
}

// Written by hand, so that code that drops a failed step need not prove anything about its contents.
impl Drop for FailedStep {
    fn drop(self) {
        match self {
            FailedStep::Joined(_, _, _)
            | FailedStep::Raised(_, _)
            | FailedStep::Rooted(_, _)
            | FailedStep::Called(_, _)
            | FailedStep::Inverted(_, _) => (),
        }
    }
}
