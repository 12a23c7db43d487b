//! Why a conversion is refused.

use expr_tree::ParseFault;
use table_names::NameFault;
use tree_eval::ValueFault;

/// Why a conversion is refused.
pub enum ReplyFault {
    /// A text is not an expression.
    Parse(ParseFault),
    /// The names of an expression lead to no value.
    Name(NameFault),
    /// An expression has no value, or a step of the conversion has none.
    Value(ValueFault),
    /// The unit at this place of a list, counted from 0, is not above 0.
    List(usize),
}

// Written by hand, so that code that drops a reply fault need not prove anything about its contents.
impl Drop for ReplyFault {
    fn drop(self) {
        match self {
            ReplyFault::Parse(_)
            | ReplyFault::Name(_)
            | ReplyFault::Value(_)
            | ReplyFault::List(_) => (),
        }
    }
}
