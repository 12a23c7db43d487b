//! Keys borrowed from a deck: copied and written.

ghost use Rattle.std.specs.Prelude.{◌≡◌, ◌++◌, IfOk, OnOk};
ghost use Rattle.def_entry.specs.Keys as keys;

use def_entry::{Key, Kind};
use std::alloc::{AllocError, Global};
use units_io::Text;

/// Returns an owned copy of a key.
pub(crate) fn copy_key(alloc: Global, kind: Kind, name: &[u8]) -> Result<Key, AllocError>
    ensures { IfOk result (λ copy. copy ≡ keys.key kind name.now) }
{
    let name = Text::from_bytes(alloc, name)?;
    Ok(Key { kind, name })
}

/// Appends a key in its written form.
pub(crate) fn put_key(text: &mut Vec<u8>, kind: Kind, name: &[u8]) -> Result<(), AllocError>
    ensures { OnOk result (text.new.items ≡ text.old.items ++ keys.key_spelling kind name.now) }
{
    match kind {
        Kind::Unit => {
            text.extend_from_slice(name)?;
            Ok(())
        }
        Kind::Prefix => put_two(text, name, b"-"),
        Kind::Func => put_two(text, name, b"()"),
        Kind::List => put_two(text, b"!unitlist ", name),
    }
}

// Appends two texts.
fn put_two(text: &mut Vec<u8>, front: &[u8], behind: &[u8]) -> Result<(), AllocError>
    ensures { OnOk result (text.new.items ≡ text.old.items ++ (front.now ++ behind.now)) }
{
    text.extend_from_slice(front)?;
    text.extend_from_slice(behind)?;
    Ok(())
}
