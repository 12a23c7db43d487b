//! The kinds of calls that do not depend on earlier ones.

use crate::amounts::put_amount_answer;
use crate::lines::{AnswerWriter, Answers, CallFault, put_answers};
use crate::numbers::put_number_answer;
use crate::texts::put_text_answer;
use std::alloc::{AllocError, Global};

// A kind of calls that do not depend on earlier ones.
#[derive(Clone, Copy)]
pub(crate) enum StatelessKind {
    // Calls on fractions, numerals and their texts.
    Numbers,
    // Calls on quantities, lists of units and tables of points.
    Amounts,
    // Calls on expressions and names.
    Texts,
}

// Returns the answers to calls.
pub(crate) fn stateless_answers(
    alloc: Global,
    mut kind: StatelessKind,
    lines: &[u8],
) -> Result<Vec<u8>, AllocError> {
    let mut out = AnswerWriter::new(alloc);
    put_answers(alloc, &mut kind, lines, &mut out);
    out.into_text()
}

impl Answers for StatelessKind {
    fn put_answer(
        &mut self,
        alloc: Global,
        line: &[u8],
        out: &mut AnswerWriter,
    ) -> Result<(), CallFault> {
        match self {
            StatelessKind::Numbers => put_number_answer(alloc, line, out)?,
            StatelessKind::Amounts => put_amount_answer(alloc, line, out)?,
            StatelessKind::Texts => put_text_answer(alloc, line, out)?,
        }
        out.put(b"\n");
        Ok(())
    }
}
