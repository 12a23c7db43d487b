//! Concatenation of two texts.

ghost use Rattle.std.specs.Prelude.{◌≡◌, ◌++◌, IfOk, OnOk};

use std::alloc::{AllocError, Global};
use units_io::Text;

// Returns the concatenation of two texts.
pub(crate) fn concatenate(alloc: Global, front: &[u8], behind: &[u8]) -> Result<Text, AllocError>
    ensures { IfOk result (λ text. text ≡ front.now ++ behind.now) }
{
    let mut bytes = Vec::from_slice(alloc, front)?;
    bytes.extend_from_slice(behind)?;
    Ok(Text::from(bytes))
}

// Appends two texts to another, one after the other.
pub(crate) fn put_joined(text: &mut Vec<u8>, front: &[u8], behind: &[u8]) -> Result<(), AllocError>
    ensures { OnOk result (text.new.items ≡ text.old.items ++ (front.now ++ behind.now)) }
{
    text.extend_from_slice(front)?;
    text.extend_from_slice(behind)?;
    Ok(())
}
