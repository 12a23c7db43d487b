//! Delivery of answers to a buffer of the caller.

ghost use Rattle.std.specs.Prelude.{IfErr, IfOk};
ghost use Rattle.edited_table.specs.Statuses.{status_code};
ghost use Rattle.edited_table.specs.declared.status.Status.TheVariants as statuses;
ghost use Rattle.units_c.specs.Delivery as spec;

use edited_table::{Answer, Status};
use std::alloc::AllocError;

/// Copies the text of an answer to the beginning of `out` if it fits, and stores its length in `written`. Returns the
/// code of the answer's status, of `NoRoom` if `out` is too short, or of `NoMemory` if there is no answer.
pub(crate) fn deliver(
    answered: Result<Answer, AllocError>,
    out: &mut [u8],
    written: &mut usize,
) -> u32
    ensures memory { IfErr answered (λ _.
        spec.IsNothingHandedToC (status_code statuses.NoMemory) result written.new out.old out.new) }
    ensures handed { IfOk answered (λ answer.
        spec.IsAnswerHandedToC answer out.old result written.new out.new) }
{
    match answered {
        Ok(answer) => hand_out(&answer, out, written),
        Err(_) => {
            *written = 0;
            Status::NoMemory.code()
        }
    }
}

// Delivers an answer to a buffer.
fn hand_out(answer: &Answer, out: &mut [u8], written: &mut usize) -> u32
    ensures { spec.IsAnswerHandedToC answer.now out.old result written.new out.new }
{
    let text = answer.text.as_bytes();
    *written = text.len();
    if text.len() > out.len() {
        return Status::NoRoom.code();
    }
    out[..text.len()].copy_from_slice(text);
    answer.status.code()
}
