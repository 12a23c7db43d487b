//! The trees that contain words.

/// The tree that contains a word.
#[derive(Clone, Copy, Debug, PartialEq, Eq, Drop)]
pub enum Site {
    /// The expression that is queried.
    Expression,
    /// The expression of a unit or a prefix.
    Body,
    /// The unit of the argument of a function.
    InUnit,
    /// The unit of the result of a function.
    OutUnit,
    /// The result of a function as an expression of its argument.
    Forward,
    /// The argument of a function as an expression of its result.
    Inverse,
    /// An alias: the word is the function that the alias names, called in the direction in which the alias is called.
    AliasTarget,
    /// The unit of a table of points.
    TableUnit,
}
