//! Answers to conversions.

ghost use Rattle.std.specs.Prelude.{◌≡◌, ◌<◌, IfOk};
ghost use Rattle.edited_table.specs.Answers as spec;
ghost use Rattle.edited_table.specs.TableValue.{c_definitions_of, c_query_table};
ghost use Rattle.reply.specs.Options.{AreReplyOptionsPrintable};
ghost use Rattle.reply.specs.Replies.{conversion_reply};

use crate::answer::{Answer, reply_answer};
use crate::edited_table::EditedTable;
use crate::laws::statuses_law;
use reply::{Options, Question, Reply, convert_reply};
use std::alloc::{AllocError, Global};
use std::marker::Brand;
use std::sync::ledger::{Blank, Ledger};
use units_io::Steps;

/// Makes a conversion and returns the answer.
pub fn answer_conversion(
    alloc: Global,
    content: &mut EditedTable,
    options: &Options,
    from: &[u8],
    to: &[u8],
) -> Result<Answer, AllocError>
    requires { AreReplyOptionsPrintable options.now }
    ensures answer { IfOk result (λ answer.
        answer ≡ spec.c_conversion_answer (c_query_table content.old) options.now from.now to.now) }
    ensures unedited { c_definitions_of content.new ≡ c_definitions_of content.old }
{
    statuses_law();
    let question = Question { options, from, to };
    let blank = Blank::new(1);
    let reply = counted_conversion::<Brand>(alloc, content, &question, blank)?;
    Ok(reply_answer(reply))
}

// Makes a conversion with a step counter that nobody reads.
fn counted_conversion<L: Ledger>(
    alloc: Global,
    content: &mut EditedTable,
    question: &Question<'_>,
    blank: Blank,
) -> Result<Reply, AllocError>
    requires name { blank.name ≡ L.name }
    requires parts { blank.parts ≡ L.parts }
    requires some { 0 < blank.parts }
    requires printable { AreReplyOptionsPrintable question.now.options.now }
    ensures reply { IfOk result (λ reply. reply ≡ conversion_reply (c_query_table content.old)
        question.now.options.now question.now.from.now question.now.to.now) }
    ensures unedited { c_definitions_of content.new ≡ c_definitions_of content.old }
{
    let mut steps: Steps<L> = Steps::new(blank);
    let Question { options, from, to } = *question;
    convert_reply(alloc, &mut content.table, options, from, to, &mut steps)
}
