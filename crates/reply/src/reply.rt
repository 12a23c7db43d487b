//! Replies to conversions and definitions.

ghost use Rattle.std.specs.Prelude.{◌≡◌, IfOk, true};
ghost use Rattle.std.specs.Option.{option_copied};
ghost use Rattle.deck.specs.Tables as tables;
ghost use Rattle.def_entry.specs.declared.key.Kind.TheVariants as kinds;
ghost use Rattle.def_entry.specs.Keys as keys;
ghost use Rattle.def_entry.specs.Tables.{entry_at};
ghost use Rattle.digits_print.specs.Styles.{IsPrintStyle};
ghost use Rattle.live_table.specs.Calls.{AreLiveQueries};
ghost use Rattle.reply.specs.Conversions as conversions;
ghost use Rattle.reply.specs.Faults as faults;
ghost use Rattle.reply.specs.Grants.{IsConversionReply};
ghost use Rattle.reply.specs.Options.{AreReplyOptionsPrintable, reply_style};
ghost use Rattle.reply.specs.declared.reply.FromValue.TheVariants.{Bad};
ghost use Rattle.reply.specs.Replies as spec;

use crate::comparison::compare_quantities;
use crate::conversion::Conversion;
use crate::failure::Failure;
use crate::fault::ReplyFault;
use crate::fault_writer::{fault_text, put_fault};
use crate::form::Form;
use crate::laws::grant_law;
use crate::lines::{put_conversion, put_definition};
use crate::options::Options;
use crate::question::Question;
use crate::text_evaluation::evaluate_text;
use deck::Deck;
use def_entry::{Kind, What};
use def_lines::trim;
use expr_tree::parse_memory_law;
use live_table::LiveTable;
use quantity::Quantity;
use std::alloc::{AllocError, Global};
use std::sync::ledger::Ledger;
use units_io::{Steps, Text};

/// The bytes of a reply, and whether it is a fault or a conformability error.
#[derive(Drop)]
pub struct Reply {
    /// The lines of the reply.
    pub text: Text,
    /// Whether it is a fault or a conformability error.
    pub refused: bool,
}

/// The result of evaluating a text.
#[derive(Drop)]
pub enum FromValue {
    /// The value of the text.
    Good(Quantity),
    /// The text of its first fault.
    Bad(Text),
}

/// Returns the reply to the conversion of one text to another, both trimmed of blanks. It is a refusal unless FROM has
/// a value, TO is a unit, a function or a list that has one, the two conform, and the numbers of the conversion are
/// fractions of at most 127 bits; then it states exactly these numbers. It queries FROM and, if FROM has a value, TO,
/// up to the first fault, and does not change the deck. The only error is lack of memory.
pub fn convert_reply<L: Ledger>(
    alloc: Global,
    table: &mut LiveTable,
    options: &Options,
    from: &[u8],
    to: &[u8],
    steps: &mut Steps<L>,
) -> Result<Reply, AllocError>
    requires { AreReplyOptionsPrintable options.now }
    ensures reply { IfOk result (λ reply.
        reply ≡ spec.conversion_reply (tables.table_of_deck table.old.deck) options.now from.now to.now) }
    ensures exact { IfOk result (λ reply.
        IsConversionReply (tables.table_of_deck table.old.deck) options.now from.now to.now reply) }
    ensures queries { AreLiveQueries
        (spec.conversion_queries (tables.table_of_deck table.old.deck) options.now from.now to.now)
        result table.old table.new steps.old steps.new }
    ensures deck { table.new.deck ≡ table.old.deck }
{
    parse_memory_law();
    grant_law();
    let form = Form::of(options);
    let from = trim(from);
    let to = trim(to);
    let question = Question { options, from, to };
    match question.convert(alloc, table, steps) {
        Ok(conversion) => reply_to_conversion(alloc, form, &question, &conversion),
        Err(Failure::Fault(fault)) => refusal(alloc, form, &fault),
        Err(Failure::OutOfMemory) => Err(AllocError),
    }
}

/// Returns the reply to a question if FROM and TO have the values `x` and `y`, as `convert_reply` returns it if TO is a
/// unit; but FROM and TO are not trimmed. It queries nothing, and copies no value if the two conform. The only error is
/// lack of memory.
pub fn comparison_reply(
    alloc: Global,
    question: &Question<'_>,
    x: Quantity,
    y: &Quantity,
) -> Result<Reply, AllocError>
    requires { AreReplyOptionsPrintable question.now.options.now }
    ensures { IfOk result (λ reply. reply
        ≡ spec.comparison_reply question.now.options.now question.now.from.now question.now.to.now x y.now) }
{
    let form = Form::of(question.options);
    match compare_quantities(alloc, question.options.strict, x, y) {
        Ok(conversion) => reply_to_conversion(alloc, form, question, &conversion),
        Err(Failure::Fault(fault)) => refusal(alloc, form, &fault),
        Err(Failure::OutOfMemory) => Err(AllocError),
    }
}

/// Returns the reply to a single text, trimmed of blanks: its value or its first fault. If the text is the name of a
/// unit that is defined by an expression, the text of the expression comes before the value. It queries the text, and
/// does not change the deck. The only error is lack of memory.
pub fn definition_reply<L: Ledger>(
    alloc: Global,
    table: &mut LiveTable,
    options: &Options,
    from: &[u8],
    steps: &mut Steps<L>,
) -> Result<Reply, AllocError>
    requires { AreReplyOptionsPrintable options.now }
    ensures reply { IfOk result (λ reply.
        reply ≡ spec.definition_reply (tables.table_of_deck table.old.deck) options.now from.now) }
    ensures queries { AreLiveQueries (spec.inquiry_value_queries (tables.table_of_deck table.old.deck) from.now)
        result table.old table.new steps.old steps.new }
    ensures deck { table.new.deck ≡ table.old.deck }
{
    parse_memory_law();
    let form = Form::of(options);
    let from = trim(from);
    match evaluate_text(alloc, table, from, steps) {
        Ok(x) => reply_to_value(alloc, form, table.deck(), from, &x),
        Err(Failure::Fault(fault)) => refusal(alloc, form, &fault),
        Err(Failure::OutOfMemory) => Err(AllocError),
    }
}

/// Returns the value of a text, trimmed of blanks, or the text of its first fault, without a line feed. It queries the
/// text, and does not change the deck. The only error is lack of memory.
pub fn from_value<L: Ledger>(
    alloc: Global,
    table: &mut LiveTable,
    options: &Options,
    from: &[u8],
    steps: &mut Steps<L>,
) -> Result<FromValue, AllocError>
    requires { AreReplyOptionsPrintable options.now }
    ensures value { IfOk result (λ value.
        value ≡ spec.from_value (tables.table_of_deck table.old.deck) options.now from.now) }
    ensures queries { AreLiveQueries (spec.inquiry_value_queries (tables.table_of_deck table.old.deck) from.now)
        result table.old table.new steps.old steps.new }
    ensures deck { table.new.deck ≡ table.old.deck }
{
    parse_memory_law();
    let from = trim(from);
    match evaluate_text(alloc, table, from, steps) {
        Ok(x) => Ok(FromValue::Good(x)),
        Err(Failure::Fault(fault)) => bad(alloc, options, &fault),
        Err(Failure::OutOfMemory) => Err(AllocError),
    }
}

// Returns a fault in place of a value.
fn bad(alloc: Global, options: &Options, fault: &ReplyFault) -> Result<FromValue, AllocError>
    requires reportable { faults.is_reply_fault_reportable fault.now ≡ true }
    requires printable { AreReplyOptionsPrintable options.now }
    ensures { IfOk result (λ value. value ≡ Bad (faults.fault_text (reply_style options.now) fault.now)) }
{
    let text = fault_text(alloc, fault, options)?;
    Ok(FromValue::Bad(text))
}

// Returns the reply to a conversion that has no fault.
fn reply_to_conversion(
    alloc: Global,
    form: Form,
    question: &Question<'_>,
    conversion: &Conversion,
) -> Result<Reply, AllocError>
    requires { IsPrintStyle form.style }
    ensures { IfOk result (λ reply. reply
        ≡ spec.conversion_as_reply form question.now.from.now question.now.to.now conversion.now) }
{
    let mut text = Vec::new(alloc);
    put_conversion(alloc, &mut text, form, question, conversion)?;
    Ok(Reply {
        text: Text::from(text),
        refused: !is_granted(conversion),
    })
}

// Whether a conversion is not a conformability error.
fn is_granted(conversion: &Conversion) -> bool
    ensures { result ≡ conversions.is_conversion_granted conversion.now }
{
    match conversion {
        Conversion::NonConforming(_, _) => false,
        _ => true,
    }
}

// Returns the reply to a text that has a value.
fn reply_to_value(
    alloc: Global,
    form: Form,
    deck: &Deck,
    from: &[u8],
    x: &Quantity,
) -> Result<Reply, AllocError>
    requires { IsPrintStyle form.style }
    ensures { IfOk result (λ reply. reply
        ≡ spec.definition_as_reply form
        (spec.reply_body_of_entry (entry_at (tables.table_of_deck deck.now) (keys.key kinds.Unit from.now))) x.now) }
{
    let mut text = Vec::new(alloc);
    put_definition(alloc, &mut text, form, body_text(deck, from), x)?;
    Ok(Reply {
        text: Text::from(text),
        refused: false,
    })
}

// Returns the text of the expression that defines the unit with this name, if there is one.
fn body_text<'a>(deck: &'a Deck, name: &[u8]) -> Option<&'a [u8]>
    ensures { option_copied result
        ≡ spec.reply_body_of_entry (entry_at (tables.table_of_deck deck.now) (keys.key kinds.Unit name.now)) }
{
    let Some(entry) = deck.entry(Kind::Unit, name) else {
        return None;
    };
    match entry.what {
        What::Body(_) => Some(entry.text()),
        _ => None,
    }
}

// Returns the reply that states a fault.
fn refusal(alloc: Global, form: Form, fault: &ReplyFault) -> Result<Reply, AllocError>
    requires reportable { faults.is_reply_fault_reportable fault.now ≡ true }
    requires style { IsPrintStyle form.style }
    ensures { IfOk result (λ reply. reply ≡ spec.refusal_reply form fault.now) }
{
    let mut text = Vec::new(alloc);
    put_fault(alloc, &mut text, fault, form.style)?;
    text.extend_from_slice(b"\n".as_slice())?;
    Ok(Reply {
        text: Text::from(text),
        refused: true,
    })
}
