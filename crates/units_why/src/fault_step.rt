//! The text and the JSON format of steps without a value.

ghost use Rattle.reply.specs.Options.{AreReplyOptionsPrintable};

use crate::hidden::is_utf8;
use crate::json::{Encoding, put_first_member, put_name, put_string};
use crate::values::value_text;
use crate::writer::Writer;
use expr_tree::RootKind;
use quantity::Quantity;
use reply::Options;
use std::alloc::{AllocError, Global};
use tree_eval::Step;
use units_io::Text;
use value_sources::FailedStep;

/// A step as it is written: its operator, or the name of its function, and its operands as values.
pub(crate) struct FaultStep {
    operator: Text,
    // Whether the operator is a function or a root, which is written before its operand.
    is_call: bool,
    left: Text,
    right: Option<Text>,
}

// Written by hand, so that code that drops a fault step need not prove anything about its contents.
impl Drop for FaultStep {
    fn drop(self) {
        let FaultStep {
            operator: _,
            is_call: _,
            left: _,
            right: _,
        } = self;
    }
}

impl FaultStep {
    /// Formats a step, with its values in the format that the options select.
    fn of(alloc: Global, options: &Options, step: &FailedStep) -> Result<FaultStep, AllocError>
        requires { AreReplyOptionsPrintable options.now }
    {
        match step {
            FailedStep::Joined(step, left, right) => {
                binary(alloc, options, joining_operator(*step), left, right)
            }
            FailedStep::Raised(base, exponent) => binary(alloc, options, b"^", base, exponent),
            FailedStep::Rooted(kind, value) => unary(alloc, options, b"", root_name(*kind), value),
            FailedStep::Called(name, value) => unary(alloc, options, b"", name.as_bytes(), value),
            FailedStep::Inverted(name, value) => {
                unary(alloc, options, b"~", name.as_bytes(), value)
            }
        }
    }

    /// Formats a step if there is one.
    pub(crate) fn of_if(
        alloc: Global,
        options: &Options,
        step: Option<FailedStep>,
    ) -> Result<Option<FaultStep>, AllocError>
        requires { AreReplyOptionsPrintable options.now }
    {
        match step {
            Some(step) => Ok(Some(FaultStep::of(alloc, options, &step)?)),
            None => Ok(None),
        }
    }

    /// Appends the step as an expression.
    pub(crate) fn put_text(&self, out: &mut Writer) {
        let operator = self.operator.as_bytes();
        let left = self.left.as_bytes();
        if self.is_call {
            out.put(operator);
            return put_group(out, left);
        }
        put_operand(out, left);
        out.put_byte(b' ');
        out.put(operator);
        out.put_byte(b' ');
        if let Some(right) = &self.right {
            put_operand(out, right.as_bytes());
        }
    }

    /// Appends a comma and the member `step`.
    pub(crate) fn put_member(&self, out: &mut Writer) {
        put_name(out, b"step");
        put_first_member(out, b"operator", self.operator.as_bytes());
        put_name(out, b"operands");
        self.put_operands(out, Encoding::Characters);
        if !self.are_operands_utf8() {
            put_name(out, b"operands_hex");
            self.put_operands(out, Encoding::Bytes);
        }
        out.put_byte(b'}');
    }

    // Appends the list of the operands.
    fn put_operands(&self, out: &mut Writer, encoding: Encoding) {
        out.put_byte(b'[');
        put_string(out, encoding, self.left.as_bytes());
        if let Some(right) = &self.right {
            out.put_byte(b',');
            put_string(out, encoding, right.as_bytes());
        }
        out.put_byte(b']');
    }

    fn are_operands_utf8(&self) -> bool {
        let is_right_utf8 = match &self.right {
            Some(right) => is_utf8(right.as_bytes()),
            None => true,
        };
        is_right_utf8 && is_utf8(self.left.as_bytes())
    }
}

fn binary(
    alloc: Global,
    options: &Options,
    operator: &[u8],
    left: &Quantity,
    right: &Quantity,
) -> Result<FaultStep, AllocError>
    requires { AreReplyOptionsPrintable options.now }
{
    Ok(FaultStep {
        operator: Text::from_bytes(alloc, operator)?,
        is_call: false,
        left: value_text(alloc, options, left)?,
        right: Some(value_text(alloc, options, right)?),
    })
}

fn unary(
    alloc: Global,
    options: &Options,
    mark: &[u8],
    name: &[u8],
    value: &Quantity,
) -> Result<FaultStep, AllocError>
    requires { AreReplyOptionsPrintable options.now }
{
    let mut operator = Writer::new(alloc);
    operator.put(mark);
    operator.put(name);
    Ok(FaultStep {
        operator: operator.into_text()?,
        is_call: true,
        left: value_text(alloc, options, value)?,
        right: None,
    })
}

fn joining_operator(step: Step) -> &'static [u8] {
    match step {
        Step::Multiply => b"*",
        Step::Divide => b"/",
        Step::Add => b"+",
        Step::Subtract => b"-",
    }
}

fn root_name(kind: RootKind) -> &'static [u8] {
    match kind {
        RootKind::Square => b"sqrt",
        RootKind::Cube => b"cuberoot",
    }
}

// Appends an operand, in parentheses if it is more than a number.
fn put_operand(out: &mut Writer, operand: &[u8]) {
    let is_number = operand.iter().position(|byte| *byte == b' ').is_none();
    if is_number {
        out.put(operand);
    } else {
        put_group(out, operand);
    }
}

// Appends a text in parentheses.
fn put_group(out: &mut Writer, text: &[u8]) {
    out.put_byte(b'(');
    out.put(text);
    out.put_byte(b')');
}
