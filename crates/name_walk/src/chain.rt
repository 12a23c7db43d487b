//! The chain of a cycle.

ghost use Rattle.std.specs.Prelude.{◌≡◌, true, ◌∷◌, [], ◌++◌, IfOk};
ghost use Rattle.name_walk.specs.Faults.{is_on_path, path_from_name};
ghost use Rattle.name_walk.specs.Traces.{path_of_frames};

use crate::traces::Frame;
use std::alloc::{AllocError, Global};

// Returns the names on the path from `again` down, followed by `again`. The path consists of the names of the frames
// and then `last`.
pub(crate) fn chain(
    alloc: Global,
    frames: &[Frame],
    last: usize,
    again: usize,
) -> Result<Vec<usize>, AllocError>
    requires { is_on_path (path_of_frames frames.now last) again ≡ true }
    ensures { IfOk result (λ names. names.items ≡ path_from_name again (path_of_frames frames.now last) ++ again ∷ []) }
{
    let mut names = Vec::new(alloc);
    let mut is_below = false;
    for frame in frames {
        is_below |= frame.name == again;
        if is_below {
            names.push(frame.name)?;
        }
    }
    names.push(last)?;
    names.push(again)?;
    Ok(names)
}
