//! The trees that contain words.

/// One of the trees of an entry.
#[derive(Clone, Copy)]
pub enum Part {
    /// The unit of a function's argument.
    InUnit,
    /// The unit of a function's result.
    OutUnit,
    /// A function's result as an expression of its argument. The target of an alias is the word at place 0 of this
    /// part.
    Forward,
    /// A function's argument as an expression of its result.
    Inverse,
    /// The unit of a table.
    TableUnit,
    /// The expression of a unit or a prefix.
    Body,
}

/// The tree that contains a word.
#[derive(Clone, Copy)]
pub enum Holder {
    /// The expression that is queried.
    Query,
    /// A tree of the entry with this number.
    Of(usize, Part),
}
