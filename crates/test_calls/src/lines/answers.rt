//! The loop over the lines of calls.

use super::answer_writer::AnswerWriter;
use super::fault::CallFault;
use def_entry::cut_at;
use std::alloc::Global;

// The state between calls.
pub(crate) trait Answers {
    // States that the next call may be answered.
    ghost is_ready: { Self → Type 0 } = { λ _. Unit {0} };

    // Appends the answer to a line, with the line feed of the answer. If the line is not a call, nothing is appended.
    fn put_answer(
        &mut self,
        alloc: Global,
        line: &[u8],
        out: &mut AnswerWriter,
    ) -> Result<(), CallFault>
        requires { is_ready self.old }
        ensures { is_ready self.new };
}

// Appends the answers to lines. The last one may lack its line feed.
pub(crate) fn put_answers<A: Answers>(
    alloc: Global,
    answers: &mut A,
    lines: &[u8],
    out: &mut AnswerWriter,
)
    requires { A.is_ready answers.old }
    ensures { A.is_ready answers.new }
{
    let mut rest = lines;
    while let Some((line, more)) = cut_at(rest, b'\n') {
        put_answer_line(alloc, answers, line, out);
        rest = more;
    }
    if !rest.is_empty() {
        put_answer_line(alloc, answers, rest, out);
    }
}

// Appends the answer to a line, or `bad call`.
fn put_answer_line<A: Answers>(alloc: Global, answers: &mut A, line: &[u8], out: &mut AnswerWriter)
    requires { A.is_ready answers.old }
    ensures { A.is_ready answers.new }
{
    match answers.put_answer(alloc, line, out) {
        Ok(()) => (),
        Err(CallFault::BadCall) => out.put_line(b"bad call"),
        Err(CallFault::OutOfMemory) => out.leave_out(),
    }
}
