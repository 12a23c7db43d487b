//! Answers to calls.

ghost use Rattle.std.specs.Prelude.{◌≡◌};
ghost use Rattle.edited_table.specs.Answers as spec;
ghost use Rattle.edited_table.specs.Words as words;

use crate::fault_status::status_of_text;
use crate::status::Status;
use reply::Reply;
use units_io::Text;

/// The status of a call and its text.
pub struct Answer {
    pub status: Status,
    pub text: Text,
}

impl Drop for Answer {
    fn drop(self) {
        let Answer { status: _, text: _ } = self;
    }
}

/// Returns the answer for a reply.
pub(crate) fn reply_answer(reply: Reply) -> Answer
    ensures { result ≡ spec.c_reply_answer reply }
{
    let status = reply_status(&reply);
    Answer {
        status,
        text: reply.text,
    }
}

// Returns the status of a reply.
fn reply_status(reply: &Reply) -> Status
    ensures { result ≡ (spec.c_reply_answer reply.now).status }
{
    if reply.refused {
        status_of_text(reply.text.as_bytes())
    } else {
        Status::Done
    }
}

/// Returns the answer for the text of a fault.
pub(crate) fn fault_answer(text: Text) -> Answer
    ensures { result ≡ record { status = words.status_of_text text; text = text } }
{
    let status = status_of_text(text.as_bytes());
    Answer { status, text }
}
