//! Writes the lines of replies.

ghost use Rattle.std.specs.Prelude.{◌≡◌, ◌++◌, OnOk, codes};
ghost use Rattle.std.specs.Option.{option_copied};
ghost use Rattle.digits_print.specs.Styles.{IsPrintStyle, printed_number_text};
ghost use Rattle.quantity.specs.Text.{quantity_text};
ghost use Rattle.reply.specs.Layouts as layouts;
ghost use Rattle.reply.specs.Lines as spec;
ghost use Rattle.reply.specs.Subjects.{reply_subject_text};

use crate::conversion::Conversion;
use crate::form::{Form, Layout};
use crate::question::Question;
use crate::ratio::Ratio;
use crate::split_lines::{PartCounts, put_split};
use crate::text_writer::{put_number, put_quantity, put_some_number};
use quantity::Quantity;
use std::alloc::{AllocError, Global};

/// The left-hand side of a linear conversion in the verbose layout.
#[derive(Clone, Copy)]
pub(crate) enum Subject<'a> {
    /// FROM.
    Asked(&'a [u8]),
    /// 1 over FROM.
    OneOver(&'a [u8]),
}

/// The two sides of a linear conversion in the verbose layout.
#[derive(Clone, Copy)]
pub(crate) struct Equation<'a> {
    pub(crate) left: Subject<'a>,
    /// TO.
    pub(crate) right: &'a [u8],
}

/// Appends a conversion.
pub(crate) fn put_conversion(
    alloc: Global,
    text: &mut Vec<u8>,
    form: Form,
    question: &Question<'_>,
    conversion: &Conversion,
) -> Result<(), AllocError>
    requires { IsPrintStyle form.style }
    ensures { OnOk result (text.new.items ≡ text.old.items
        ++ spec.conversion_text form question.now.from.now question.now.to.now conversion.now) }
{
    match conversion {
        Conversion::Linear(ratio) => put_linear(alloc, text, form, question, ratio),
        Conversion::Reciprocal(ratio) => put_reciprocal(alloc, text, form, question, ratio),
        Conversion::Inverse(x) => put_inverse(alloc, text, form, question, x),
        Conversion::Split(list, counts) => {
            let parts = PartCounts {
                list: list.as_bytes(),
                counts: counts.as_slice(),
            };
            put_split(alloc, text, form, question.from, parts)
        }
        Conversion::NonConforming(x, y) => put_unlike(alloc, text, form, x, y),
    }
}

// Appends a conversion of FROM to TO.
fn put_linear(
    alloc: Global,
    text: &mut Vec<u8>,
    form: Form,
    question: &Question<'_>,
    ratio: &Ratio,
) -> Result<(), AllocError>
    requires { IsPrintStyle form.style }
    ensures { OnOk result (text.new.items
        ≡ text.old.items ++ spec.linear_conversion_text form question.now.from.now question.now.to.now ratio.now) }
{
    let equation = Equation {
        left: Subject::Asked(question.from),
        right: question.to,
    };
    put_equation(alloc, text, form, equation, ratio)
}

// Appends the two lines of a linear conversion.
fn put_equation(
    alloc: Global,
    text: &mut Vec<u8>,
    form: Form,
    equation: Equation<'_>,
    ratio: &Ratio,
) -> Result<(), AllocError>
    requires { IsPrintStyle form.style }
    ensures { OnOk result (text.new.items ≡ text.old.items
        ++ spec.linear_conversion_text form (reply_subject_text equation.entry.left) equation.entry.right.now
        ratio.now) }
{
    put_forward(alloc, text, form, equation, ratio)?;
    put_backward(alloc, text, form, equation, ratio)
}

// Appends the line that states how often TO goes into FROM.
fn put_forward(
    alloc: Global,
    text: &mut Vec<u8>,
    form: Form,
    equation: Equation<'_>,
    ratio: &Ratio,
) -> Result<(), AllocError>
    requires { IsPrintStyle form.style }
    ensures { OnOk result (text.new.items ≡ text.old.items ++ layouts.layout_line form.layout
        (layouts.layout_forward_text form.layout (reply_subject_text equation.entry.left) equation.entry.right.now
        (printed_number_text form.style ratio.now.forward))) }
{
    put_tab(text, form.layout)?;
    match form.layout {
        Layout::Plain => {
            text.extend_from_slice(b"* ".as_slice())?;
            put_number(alloc, text, form.style, &ratio.forward)?;
        }
        Layout::Compact => put_number(alloc, text, form.style, &ratio.forward)?,
        Layout::Verbose => {
            put_subject(text, equation.left)?;
            text.extend_from_slice(b" = ".as_slice())?;
            put_number(alloc, text, form.style, &ratio.forward)?;
            text.extend_from_slice(b" ".as_slice())?;
            text.extend_from_slice(equation.right)?;
        }
    }
    text.extend_from_slice(b"\n".as_slice())?;
    Ok(())
}

// Appends the line that states how often FROM goes into TO, unless `one_line` omits it.
fn put_backward(
    alloc: Global,
    text: &mut Vec<u8>,
    form: Form,
    equation: Equation<'_>,
    ratio: &Ratio,
) -> Result<(), AllocError>
    requires { IsPrintStyle form.style }
    ensures { OnOk result (text.new.items ≡ text.old.items
        ++ spec.conversion_backward_line form (reply_subject_text equation.entry.left) equation.entry.right.now
        ratio.now.back) }
{
    if form.one_line {
        return Ok(());
    }
    put_tab(text, form.layout)?;
    match form.layout {
        Layout::Plain => {
            text.extend_from_slice(b"/ ".as_slice())?;
            put_some_number(alloc, text, form.style, &ratio.back)?;
        }
        Layout::Compact => put_some_number(alloc, text, form.style, &ratio.back)?,
        Layout::Verbose => {
            put_subject(text, equation.left)?;
            text.extend_from_slice(b" = (1 / ".as_slice())?;
            put_some_number(alloc, text, form.style, &ratio.back)?;
            text.extend_from_slice(b") ".as_slice())?;
            text.extend_from_slice(equation.right)?;
        }
    }
    text.extend_from_slice(b"\n".as_slice())?;
    Ok(())
}

// Appends the left-hand side of a linear conversion.
fn put_subject(text: &mut Vec<u8>, subject: Subject<'_>) -> Result<(), AllocError>
    ensures { OnOk result (text.new.items ≡ text.old.items ++ reply_subject_text subject.entry) }
{
    match subject {
        Subject::Asked(from) => {
            text.extend_from_slice(from)?;
            Ok(())
        }
        Subject::OneOver(from) => {
            text.extend_from_slice(b"1 / (".as_slice())?;
            text.extend_from_slice(from)?;
            text.extend_from_slice(b")".as_slice())?;
            Ok(())
        }
    }
}

// Appends a reciprocal conversion.
fn put_reciprocal(
    alloc: Global,
    text: &mut Vec<u8>,
    form: Form,
    question: &Question<'_>,
    ratio: &Ratio,
) -> Result<(), AllocError>
    requires { IsPrintStyle form.style }
    ensures { OnOk result (text.new.items
        ≡ text.old.items ++ spec.reciprocal_conversion_text form question.now.from.now question.now.to.now ratio.now) }
{
    put_line(text, form.layout, b"reciprocal conversion")?;
    let equation = Equation {
        left: Subject::OneOver(question.from),
        right: question.to,
    };
    put_equation(alloc, text, form, equation, ratio)
}

// Appends the line with the argument of the function TO.
fn put_inverse(
    alloc: Global,
    text: &mut Vec<u8>,
    form: Form,
    question: &Question<'_>,
    x: &Quantity,
) -> Result<(), AllocError>
    requires { IsPrintStyle form.style }
    ensures { OnOk result (text.new.items
        ≡ text.old.items ++ spec.inverse_conversion_text form question.now.from.now question.now.to.now x.now) }
{
    put_tab(text, form.layout)?;
    put_front(text, form.layout, question.from)?;
    put_call(alloc, text, form, question.to, x)?;
    text.extend_from_slice(b"\n".as_slice())?;
    Ok(())
}

// Appends an argument, in the verbose layout inside a call of its function.
fn put_call(
    alloc: Global,
    text: &mut Vec<u8>,
    form: Form,
    name: &[u8],
    x: &Quantity,
) -> Result<(), AllocError>
    requires { IsPrintStyle form.style }
    ensures { OnOk result (text.new.items
        ≡ text.old.items ++ layouts.layout_call_text form.layout name.now (quantity_text form.style x.now)) }
{
    match form.layout {
        Layout::Verbose => {
            text.extend_from_slice(name)?;
            text.extend_from_slice(b"(".as_slice())?;
            put_quantity(alloc, text, form.style, x)?;
            text.extend_from_slice(b")".as_slice())?;
            Ok(())
        }
        Layout::Plain | Layout::Compact => put_quantity(alloc, text, form.style, x),
    }
}

// Appends two quantities that do not conform.
fn put_unlike(
    alloc: Global,
    text: &mut Vec<u8>,
    form: Form,
    x: &Quantity,
    y: &Quantity,
) -> Result<(), AllocError>
    requires { IsPrintStyle form.style }
    ensures { OnOk result (text.new.items ≡ text.old.items ++ spec.nonconforming_conversion_text form x.now y.now) }
{
    text.extend_from_slice(b"conformability error\n".as_slice())?;
    put_shown(alloc, text, form, x)?;
    put_shown(alloc, text, form, y)
}

// Appends a line with a quantity.
fn put_shown(alloc: Global, text: &mut Vec<u8>, form: Form, x: &Quantity) -> Result<(), AllocError>
    requires { IsPrintStyle form.style }
    ensures { OnOk result (text.new.items
        ≡ text.old.items ++ layouts.layout_line form.layout (quantity_text form.style x.now)) }
{
    put_tab(text, form.layout)?;
    put_quantity(alloc, text, form.style, x)?;
    text.extend_from_slice(b"\n".as_slice())?;
    Ok(())
}

/// Appends a definition. `body` is the text of the expression that defines the unit, if there is one.
pub(crate) fn put_definition(
    alloc: Global,
    text: &mut Vec<u8>,
    form: Form,
    body: Option<&[u8]>,
    x: &Quantity,
) -> Result<(), AllocError>
    requires { IsPrintStyle form.style }
    ensures { OnOk result (text.new.items
        ≡ text.old.items ++ spec.definition_reply_text form (option_copied body.entry) x.now) }
{
    match form.layout {
        Layout::Compact => {}
        Layout::Plain | Layout::Verbose => put_definition_front(text, body)?,
    }
    put_quantity(alloc, text, form.style, x)?;
    text.extend_from_slice(b"\n".as_slice())?;
    Ok(())
}

// Appends the text before the value of a definition.
fn put_definition_front(text: &mut Vec<u8>, body: Option<&[u8]>) -> Result<(), AllocError>
    ensures { OnOk result (text.new.items
        ≡ text.old.items ++ (codes "\tDefinition: " ++ spec.definition_reply_front (option_copied body.entry))) }
{
    text.extend_from_slice(b"\tDefinition: ".as_slice())?;
    match body {
        Some(body) => {
            text.extend_from_slice(body)?;
            text.extend_from_slice(b" = ".as_slice())?;
            Ok(())
        }
        None => Ok(()),
    }
}

// Appends a line of words.
fn put_line(text: &mut Vec<u8>, layout: Layout, words: &[u8]) -> Result<(), AllocError>
    ensures { OnOk result (text.new.items ≡ text.old.items ++ layouts.layout_line layout words.now) }
{
    put_tab(text, layout)?;
    text.extend_from_slice(words)?;
    text.extend_from_slice(b"\n".as_slice())?;
    Ok(())
}

/// Appends the start of a line: a tab, except in the compact layout.
pub(crate) fn put_tab(text: &mut Vec<u8>, layout: Layout) -> Result<(), AllocError>
    ensures { OnOk result (text.new.items ≡ text.old.items ++ layouts.layout_tab layout) }
{
    match layout {
        Layout::Compact => Ok(()),
        Layout::Plain | Layout::Verbose => {
            text.extend_from_slice(b"\t".as_slice())?;
            Ok(())
        }
    }
}

/// Appends FROM and an equals sign in the verbose layout.
pub(crate) fn put_front(text: &mut Vec<u8>, layout: Layout, from: &[u8]) -> Result<(), AllocError>
    ensures { OnOk result (text.new.items ≡ text.old.items ++ layouts.layout_equation_front layout from.now) }
{
    match layout {
        Layout::Verbose => {
            text.extend_from_slice(from)?;
            text.extend_from_slice(b" = ".as_slice())?;
            Ok(())
        }
        Layout::Plain | Layout::Compact => Ok(()),
    }
}
