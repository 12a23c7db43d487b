//! The direction in which a function is evaluated.

/// The direction in which a function is evaluated.
#[derive(Clone, Copy)]
pub(crate) enum Direction {
    /// The value of the function at an argument.
    Forward,
    /// The value of its inverse.
    Inverse,
}
