//! Answers to expressions.

ghost use Rattle.std.specs.Prelude.{◌≡◌, ◌<◌, ◌≤◌, IfOk, drop, length};
ghost use Rattle.edited_table.specs.Answers as spec;
ghost use Rattle.edited_table.specs.TableValue.{c_definitions_of, c_query_table};
ghost use Rattle.reply.specs.Options.{AreReplyOptionsPrintable};
ghost use Rattle.reply.specs.Replies as replies;

use crate::answer::{Answer, fault_answer};
use crate::edited_table::EditedTable;
use crate::laws::statuses_law;
use crate::status::Status;
use def_lines::trim;
use digits_print::{Style, print_number};
use frac128::Frac;
use quantity::Quantity;
use reply::{FromValue, Options, from_value};
use std::alloc::{AllocError, Global};
use std::marker::Brand;
use std::sync::ledger::{Blank, Ledger};
use units_io::{Steps, Text};

/// Evaluates an expression. Returns the answer, and the number of the value if there is one.
pub fn answer_value(
    alloc: Global,
    content: &mut EditedTable,
    expression: &[u8],
) -> Result<(Answer, Option<Frac>), AllocError>
    ensures answer { IfOk result (λ found. found.0
        ≡ spec.c_value_answer spec.c_exact_options (spec.c_value_of (c_query_table content.old) expression.now)) }
    ensures number { IfOk result (λ found.
        found.1 ≡ spec.c_value_number (spec.c_value_of (c_query_table content.old) expression.now)) }
    ensures unedited { c_definitions_of content.new ≡ c_definitions_of content.old }
{
    statuses_law();
    let options = exact_options();
    match counted_value::<Brand>(alloc, content, &options, expression, Blank::new(1))? {
        FromValue::Good(x) => {
            let text = dimension(alloc, &x)?;
            let status = Status::Done;
            Ok((Answer { status, text }, Some(x.value())))
        }
        FromValue::Bad(text) => Ok((fault_answer(text), None)),
    }
}

// Evaluates an expression with a step counter that nobody reads.
fn counted_value<L: Ledger>(
    alloc: Global,
    content: &mut EditedTable,
    options: &Options,
    expression: &[u8],
    blank: Blank,
) -> Result<FromValue, AllocError>
    requires name { blank.name ≡ L.name }
    requires parts { blank.parts ≡ L.parts }
    requires some { 0 < blank.parts }
    requires printable { AreReplyOptionsPrintable options.now }
    ensures value { IfOk result (λ value.
        value ≡ replies.from_value (c_query_table content.old) options.now expression.now) }
    ensures unedited { c_definitions_of content.new ≡ c_definitions_of content.old }
{
    let mut steps: Steps<L> = Steps::new(blank);
    from_value(alloc, &mut content.table, options, expression, &mut steps)
}

// Returns options that write exact numbers in the texts of faults.
fn exact_options() -> Options
    ensures is { result ≡ spec.c_exact_options }
    ensures printable { AreReplyOptionsPrintable result }
{
    Options {
        digits: 8,
        exact: true,
        strict: true,
        one_line: true,
        compact: true,
        quiet: true,
        round: false,
        verbose: false,
    }
}

// Returns the dimension of a quantity: the part of its text after the number.
fn dimension(alloc: Global, x: &Quantity) -> Result<Text, AllocError>
    ensures { IfOk result (λ text. text ≡ spec.c_dimension_text x.now) }
{
    let number = print_number(alloc, &x.value(), Style::Exact)?;
    let whole = x.show(alloc, Style::Exact)?;
    let powers = after_front(whole.as_bytes(), number.as_bytes());
    Text::from_bytes(alloc, trim(powers))
}

// Returns the part of `text` after its first `front.len()` bytes.
fn after_front<'a>(text: &'a [u8], front: &[u8]) -> &'a [u8]
    requires { length front.now ≤ length text.now }
    ensures { result.now ≡ drop (length front.now) text.now }
{
    &text[front.len()..]
}
