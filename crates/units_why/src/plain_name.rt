//! Names of files without detours.

use crate::text_part::part_of;
use std::alloc::{AllocError, Global};
use units_io::{Text, prefix_len};

/// Returns the name of a file without the parts `.`, without empty parts, and without each `..` and the folder before
/// it. It names the same file unless such a folder is a symbolic link.
pub(crate) fn plain_name(alloc: Global, name: &[u8]) -> Result<Text, AllocError> {
    let is_absolute = name.starts_with(b"/".as_slice());
    let mut parts: Vec<&[u8]> = Vec::new(alloc);
    let mut rest = name;
    for _ in 0..name.len() {
        if rest.is_empty() {
            break;
        }
        let len = prefix_len(rest, |byte| byte != b'/');
        put_part(&mut parts, is_absolute, part_of(rest, 0, len))?;
        rest = part_of(rest, len.saturating_add(1), rest.len());
    }
    joined_name(alloc, is_absolute, parts.as_slice())
}

// Appends the next part of a name, or takes back the folder that it leaves. No folder is above the root.
fn put_part<'a>(
    parts: &mut Vec<&'a [u8]>,
    is_absolute: bool,
    part: &'a [u8],
) -> Result<(), AllocError> {
    if part.is_empty() || part == b".".as_slice() {
        return Ok(());
    }
    if part != b"..".as_slice() {
        return Ok(parts.push(part)?);
    }
    match parts.last() {
        Some(last) if *last != b"..".as_slice() => {
            let _ = parts.pop();
            Ok(())
        }
        None if is_absolute => Ok(()),
        _ => Ok(parts.push(part)?),
    }
}

fn joined_name(alloc: Global, is_absolute: bool, parts: &[&[u8]]) -> Result<Text, AllocError> {
    let mut name = Vec::new(alloc);
    for part in parts {
        if is_absolute || !name.is_empty() {
            name.push(b'/')?;
        }
        name.extend_from_slice(*part)?;
    }
    Ok(Text::from(name))
}
