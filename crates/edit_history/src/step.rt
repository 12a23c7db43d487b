//! Steps from one version of a deck to another.

use crate::boxed_change::BoxedChange;
use crate::boxed_exchange::BoxedExchange;
use crate::named_value::NamedValue;
use units_io::Text;

/// A step from one version of a deck to another. It takes at most five words, besides its texts and lines.
#[derive(Drop)]
pub enum Step {
    /// Appends a line that defines a key.
    Define(Text),
    /// Removes the last line, which defines a key. The payload is the place of the line of that key that was in force
    /// before, if there was one.
    Undefine(Option<usize>),
    /// Replaces lines by others.
    Exchange(BoxedExchange),
    /// Puts other settings in force.
    Switch(BoxedChange),
    /// Gives a variable a value.
    Set(NamedValue),
    /// Removes the last variable, if there is one.
    UnsetLast,
    /// Puts another locale in force.
    Locale(Text),
    /// Changes nothing.
    Nothing,
}

// A history may have a great many steps.
const _: () = prove!(size_of::<Step>() <= 40);
