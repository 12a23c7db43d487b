//! Writes the texts of faults.

ghost use Rattle.std.specs.Prelude.{◌≡◌, ◌++◌, IfOk, OnOk, true};
ghost use Rattle.digits_print.specs.Styles.{IsPrintStyle};
ghost use Rattle.reply.specs.Faults as spec;
ghost use Rattle.reply.specs.Options.{AreReplyOptionsPrintable, reply_style};

use crate::fault::ReplyFault;
use crate::form::Form;
use crate::name_faults::put_name_fault;
use crate::options::Options;
use crate::text_writer::put_words;
use crate::value_faults::put_value_fault;
use def_entry::parse_fault_text;
use digits_print::Style;
use std::alloc::{AllocError, Global};
use units_io::Text;

/// Returns the text of a fault: one line, with no tab before it and no line feed after it. The quantities of a sum are
/// written in the style of the options. The only error is lack of memory.
pub fn fault_text(alloc: Global, fault: &ReplyFault, options: &Options) -> Result<Text, AllocError>
    requires reportable { spec.is_reply_fault_reportable fault.now ≡ true }
    requires printable { AreReplyOptionsPrintable options.now }
    ensures { IfOk result (λ text. text ≡ spec.fault_text (reply_style options.now) fault.now) }
{
    let mut text = Vec::new(alloc);
    put_fault(alloc, &mut text, fault, Form::of(options).style)?;
    Ok(Text::from(text))
}

/// Appends a fault to a text.
pub(crate) fn put_fault(
    alloc: Global,
    text: &mut Vec<u8>,
    fault: &ReplyFault,
    style: Style,
) -> Result<(), AllocError>
    requires reportable { spec.is_reply_fault_reportable fault.now ≡ true }
    requires style { IsPrintStyle style }
    ensures { OnOk result (text.new.items ≡ text.old.items ++ spec.fault_text style fault.now) }
{
    match fault {
        ReplyFault::Parse(fault) => {
            let parse = parse_fault_text(alloc, *fault)?;
            text.extend_from_slice(parse.as_bytes())?;
            Ok(())
        }
        ReplyFault::Name(fault) => put_name_fault(text, fault),
        ReplyFault::Value(fault) => put_value_fault(alloc, text, fault, style),
        ReplyFault::List(place) => put_list_fault(alloc, text, *place),
    }
}

// Appends the fault of a unit of a list. Its place is counted from 1 in the text.
fn put_list_fault(alloc: Global, text: &mut Vec<u8>, place: usize) -> Result<(), AllocError>
    ensures { OnOk result (text.new.items ≡ text.old.items ++ spec.reply_list_fault_text place) }
{
    let count = place as u128 + 1;
    put_words(
        text,
        b"list unit not positive: ",
        count.to_string(alloc)?.as_bytes(),
    )
}
