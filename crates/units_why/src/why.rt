//! Explains why an expression has its value.

ghost use Rattle.reply.specs.Options.{AreReplyOptionsPrintable};

use crate::definitions::Definitions;
use crate::evaluator::Evaluator;
use crate::fault_step::FaultStep;
use crate::json::{put_first_member, put_flag_member, put_text_member};
use crate::output::{Output, OutputFault};
use crate::row_style::RowStyle;
use crate::rows::Rows;
use crate::shadows::Shadows;
use crate::tree::{RowTree, tree_of};
use crate::writer::Writer;
use def_lines::line_content;
use reply::{Options, Reply, convert_reply, definition_reply};
use std::alloc::AllocError;
use std::sync::ledger::Ledger;
use units_io::Sink;

/// A query: an expression, the unit to convert it to, which may be blank, and whether the answer is JSON.
#[derive(Clone, Copy)]
pub(crate) struct Question<'a> {
    pub(crate) from: &'a [u8],
    pub(crate) to: &'a [u8],
    pub(crate) json: bool,
}

// The reply to a question, and the trees of its expression and its unit.
#[derive(Drop)]
struct Explanation {
    reply: Reply,
    tree: RowTree,
    unit_tree: RowTree,
}

/// Writes the reply to a question, followed by the trees of its expression and its unit. Returns whether it is refused.
pub(crate) fn explain<O: Sink, L: Ledger>(
    output: &mut Output<O>,
    definitions: &mut Definitions<L>,
    options: &Options,
    question: Question<'_>,
) -> Result<bool, OutputFault>
    requires { AreReplyOptionsPrintable options.now }
{
    let explanation = explanation_of(&mut definitions.evaluator, options, question)?;
    let is_refused = explanation.reply.refused;
    put_explanation(output, definitions, options, question, explanation)?;
    Ok(is_refused)
}

fn explanation_of<L: Ledger>(
    evaluator: &mut Evaluator<L>,
    options: &Options,
    question: Question<'_>,
) -> Result<Explanation, AllocError>
    requires { AreReplyOptionsPrintable options.now }
{
    let from = line_content(question.from);
    let to = line_content(question.to);
    let reply = reply_to(evaluator, options, from, to)?;
    let tree = tree_of(evaluator, options, from)?;
    let unit_tree = tree_of(evaluator, options, to)?;
    Ok(Explanation {
        reply,
        tree,
        unit_tree,
    })
}

fn reply_to<L: Ledger>(
    evaluator: &mut Evaluator<L>,
    options: &Options,
    from: &[u8],
    to: &[u8],
) -> Result<Reply, AllocError>
    requires { AreReplyOptionsPrintable options.now }
{
    let alloc = evaluator.alloc;
    let table = &mut *evaluator.table;
    let steps = &mut evaluator.steps;
    if to.is_empty() {
        return definition_reply(alloc, table, options, from, steps);
    }
    convert_reply(alloc, table, options, from, to, steps)
}

fn put_explanation<O: Sink, L: Ledger>(
    output: &mut Output<O>,
    definitions: &mut Definitions<L>,
    options: &Options,
    question: Question<'_>,
    explanation: Explanation,
) -> Result<(), OutputFault>
    requires { AreReplyOptionsPrintable options.now }
{
    let alloc = definitions.evaluator.alloc;
    let shadows = Shadows::of(alloc, definitions.evaluator.deck())?;
    let style = RowStyle {
        options,
        shadows: &shadows,
        json: question.json,
    };
    let mut out = Writer::new(alloc);
    put_reply(&mut out, question, &explanation);
    put_rows(output, &mut out, definitions, style, explanation.tree)?;
    put_rows(output, &mut out, definitions, style, explanation.unit_tree)?;
    out.send(output)
}

impl Explanation {
    // Returns the step without a value of the side whose fault the reply states: of the expression, or of the unit if
    // the expression has a value.
    fn step(&self) -> Option<&FaultStep> {
        if self.tree.has_value {
            self.unit_tree.step.as_ref()
        } else {
            self.tree.step.as_ref()
        }
    }
}

// Appends a reply, and the step without a value of the side that it is about.
fn put_reply(out: &mut Writer, question: Question<'_>, explanation: &Explanation) {
    if question.json {
        put_reply_json(out, question, explanation);
    } else {
        out.put(explanation.reply.text.as_bytes());
        if let Some(step) = explanation.step() {
            out.put(b"in ");
            step.put_text(out);
            out.put_byte(b'\n');
        }
    }
}

fn put_reply_json(out: &mut Writer, question: Question<'_>, explanation: &Explanation) {
    let reply = &explanation.reply;
    let text = reply.text.as_bytes();
    put_first_member(out, b"expression", question.from);
    if !question.to.is_empty() {
        put_text_member(out, b"unit", question.to);
    }
    put_text_member(out, b"reply", text.strip_suffix(b"\n").unwrap_or(text));
    put_flag_member(out, b"refused", reply.refused);
    if let Some(step) = explanation.step() {
        step.put_member(out);
    }
    out.put(b"}\n");
}

// Appends the rows of a tree to `out`, and writes `out` block by block. No row is stored.
fn put_rows<O: Sink, L: Ledger>(
    output: &mut Output<O>,
    out: &mut Writer,
    definitions: &mut Definitions<L>,
    style: RowStyle<'_>,
    tree: RowTree,
) -> Result<(), OutputFault>
    requires { AreReplyOptionsPrintable style.options.now }
{
    let evaluator = &definitions.evaluator;
    let Some(mut rows) = Rows::of(evaluator.alloc, evaluator.deck(), tree)? else {
        return Ok(());
    };
    // No walk has so many rows.
    for _ in 0..usize::MAX {
        if !rows.put_next(out, definitions, style)? {
            break;
        }
        out.send_block(output)?;
    }
    Ok(())
}
