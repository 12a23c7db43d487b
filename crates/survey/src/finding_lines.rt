//! The lines of a check report.

ghost use Rattle.std.specs.Prelude.{◌≡◌, ◌++◌, Err, OnOk, true};
ghost use Rattle.live_table.specs.declared.fault.QueryFault.TheVariants.{OutOfMemory};
ghost use Rattle.reply.specs.Faults as faults;
ghost use Rattle.reply.specs.Inquiries.{inquiry_answer};
ghost use Rattle.reply.specs.Options.{AreReplyOptionsPrintable, reply_style};
ghost use Rattle.survey.specs.Checks as spec;

use crate::check_result::Finding;
use crate::keys::put_key;
use def_entry::Key;
use live_table::QueryFault;
use reply::{Options, ReplyFault, fault_text};
use std::alloc::{AllocError, Global};

/// Appends the line of a key for what was found there, unless the key is sound. The only error is running out of
/// memory, here or in `found`.
pub(crate) fn put_finding(
    alloc: Global,
    text: &mut Vec<u8>,
    options: &Options,
    key: &Key,
    found: Result<Finding, QueryFault>,
) -> Result<(), AllocError>
    requires { AreReplyOptionsPrintable options.now }
    ensures line { OnOk result (text.new.items
        ≡ text.old.items ++ spec.finding_line (reply_style options.now) key.now (inquiry_answer found)) }
    ensures memory { OnOk result (found ≡ Err OutOfMemory → ⊥) }
{
    match found {
        Ok(Finding::Sound) => Ok(()),
        Ok(Finding::NonConforming) => put_report(text, key, b"conformability error"),
        Ok(Finding::NotPositive(place)) => {
            put_fault(alloc, text, options, key, &ReplyFault::List(place))
        }
        Err(QueryFault::Name(fault)) => {
            put_fault(alloc, text, options, key, &ReplyFault::Name(fault))
        }
        Err(QueryFault::Value(fault)) => {
            put_fault(alloc, text, options, key, &ReplyFault::Value(fault))
        }
        Err(QueryFault::OutOfMemory) => Err(AllocError),
    }
}

// Appends the line of a key that has a fault.
fn put_fault(
    alloc: Global,
    text: &mut Vec<u8>,
    options: &Options,
    key: &Key,
    fault: &ReplyFault,
) -> Result<(), AllocError>
    requires printable { AreReplyOptionsPrintable options.now }
    requires reportable { faults.is_reply_fault_reportable fault.now ≡ true }
    ensures { OnOk result (text.new.items
        ≡ text.old.items ++ spec.check_report_line key.now (faults.fault_text (reply_style options.now) fault.now)) }
{
    let fault = fault_text(alloc, fault, options)?;
    put_report(text, key, fault.as_bytes())
}

// Appends a line with a report on a key.
fn put_report(text: &mut Vec<u8>, key: &Key, report: &[u8]) -> Result<(), AllocError>
    ensures { OnOk result (text.new.items ≡ text.old.items ++ spec.check_report_line key.now report.now) }
{
    put_key(text, key.kind, key.name.as_bytes())?;
    text.extend_from_slice(b": ".as_slice())?;
    text.extend_from_slice(report)?;
    text.extend_from_slice(b"\n".as_slice())?;
    Ok(())
}
