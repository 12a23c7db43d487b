//! Names of included files.

ghost use Rattle.std.specs.Prelude.{◌≡◌, IfOk};
ghost use Rattle.deck_lines.specs.Includes.{include_folder_of, included_name};

use std::alloc::{AllocError, Global};
use units_io::Text;

/// Returns the full name under which the file `name` is looked up if the file `includer` includes it.
pub fn name_beside(alloc: Global, includer: &[u8], name: &[u8]) -> Result<Text, AllocError>
    ensures { IfOk result (λ full. full ≡ included_name includer.now name.now) }
{
    if name.first() == Some(&b'/') {
        return Text::from_bytes(alloc, name);
    }
    let mut full = Vec::from_slice(alloc, folder(includer))?;
    full.extend_from_slice(name)?;
    Ok(Text::from(full))
}

// Returns the name up to and including its last `/`.
fn folder(name: &[u8]) -> &[u8]
    ensures { result.now ≡ include_folder_of name.now }
{
    let mut rest = name;
    while let Some((b, start)) = rest.split_last() {
        if *b == b'/' {
            break;
        }
        rest = start;
    }
    rest
}
