//! Tests numbers against the domain and the range of a function.

ghost use Rattle.reply.specs.Options.{AreReplyOptionsPrintable};

use crate::values::value_text;
use crate::writer::Writer;
use def_entry::{Bound, Span};
use frac128::Frac;
use quantity::Quantity;
use reply::Options;
use std::alloc::{AllocError, Global};
use units_io::Text;

/// An end of a function.
#[derive(Clone, Copy, Drop)]
pub(crate) enum End {
    /// The end of its argument, which is the result of its inverse.
    Domain,
    /// The end of its result, which is the argument of its inverse.
    Range,
}

/// The interval of a function at an end.
#[derive(Clone, Copy)]
pub(crate) struct Interval {
    pub(crate) end: End,
    pub(crate) span: Span,
}

/// A number that was tested against the interval at an end.
#[derive(Drop)]
pub(crate) struct EndTest {
    pub(crate) end: End,
    pub(crate) interval: Text,
    pub(crate) number: Text,
    pub(crate) is_inside: bool,
}

/// Tests a value against an interval, by its number in the unit if there is one. `None` if it has no such number.
pub(crate) fn end_test(
    alloc: Global,
    options: &Options,
    interval: Interval,
    unit: Option<&Quantity>,
    value: &Quantity,
) -> Result<Option<EndTest>, AllocError>
    requires { AreReplyOptionsPrintable options.now }
{
    let Some(number) = number_in(unit, value) else {
        return Ok(None);
    };
    Ok(Some(EndTest {
        end: interval.end,
        interval: interval_text(alloc, options, interval.span)?,
        number: number_text(alloc, options, number)?,
        is_inside: is_within(interval.span, &number),
    }))
}

// Returns the number of a value in the unit, or the number that the value is.
fn number_in(unit: Option<&Quantity>, value: &Quantity) -> Option<Frac> {
    match unit {
        Some(unit) => value.value().div(&unit.value()).ok(),
        None if value.is_number() => Some(value.value()),
        None => None,
    }
}

// Returns an interval as definitions write it.
fn interval_text(alloc: Global, options: &Options, span: Span) -> Result<Text, AllocError>
    requires { AreReplyOptionsPrintable options.now }
{
    let mut text = Writer::new(alloc);
    text.put_byte(if is_closed(span.low) { b'[' } else { b'(' });
    put_bound(&mut text, options, span.low);
    text.put_byte(b',');
    put_bound(&mut text, options, span.high);
    text.put_byte(if is_closed(span.high) { b']' } else { b')' });
    text.into_text()
}

fn is_closed(bound: Option<Bound>) -> bool {
    match bound {
        Some(bound) => bound.closed,
        None => false,
    }
}

fn put_bound(text: &mut Writer, options: &Options, bound: Option<Bound>)
    requires { AreReplyOptionsPrintable options.now }
{
    if let Some(bound) = bound {
        text.put_fraction(options, bound.at);
    }
}

// Returns the text of a number in the format that the options select.
fn number_text(alloc: Global, options: &Options, x: Frac) -> Result<Text, AllocError>
    requires { AreReplyOptionsPrintable options.now }
{
    value_text(alloc, options, &Quantity::number(alloc, x))
}

// Returns whether a number is in an interval.
fn is_within(span: Span, x: &Frac) -> bool {
    let is_above = match span.low {
        Some(low) if low.closed => low.at.cmp(x).is_le(),
        Some(low) => low.at.cmp(x).is_lt(),
        None => true,
    };
    let is_below = match span.high {
        Some(high) if high.closed => x.cmp(&high.at).is_le(),
        Some(high) => x.cmp(&high.at).is_lt(),
        None => true,
    };
    is_above && is_below
}
