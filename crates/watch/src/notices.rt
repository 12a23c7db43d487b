//! The report on a watch.

ghost use Rattle.std.specs.Prelude.{◌≡◌, ◌++◌, OnOk};
ghost use Rattle.watch.specs.Changes as spec;

use std::alloc::{AllocError, Global};

/// Appends the line `watch N` and a reply.
pub(crate) fn put_notice(
    alloc: Global,
    text: &mut Vec<u8>,
    number: usize,
    reply: &[u8],
) -> Result<(), AllocError>
    ensures { OnOk result (text.new.items ≡ text.old.items ++ spec.watch_notice number reply.now) }
{
    text.extend_from_slice(b"watch ".as_slice())?;
    text.extend_from_slice(number.to_string(alloc)?.as_bytes())?;
    text.extend_from_slice(b"\n".as_slice())?;
    text.extend_from_slice(reply)?;
    Ok(())
}
