//! The parts of the texts of name faults and value faults.

ghost use Rattle.std.specs.Prelude.{◌≡◌, ◌++◌, OnOk};

use std::alloc::AllocError;

// Appends words and a name.
pub(crate) fn put_named(text: &mut Vec<u8>, words: &[u8], name: &[u8]) -> Result<(), AllocError>
    ensures { OnOk result (text.new.items ≡ text.old.items ++ (words.now ++ name.now)) }
{
    text.extend_from_slice(words)?;
    text.extend_from_slice(name)?;
    Ok(())
}
