//! Lists of keys.

use crate::key::Key;
use units_io::List;

/// An ordered list of keys.
pub type Keys = List<Key>;
