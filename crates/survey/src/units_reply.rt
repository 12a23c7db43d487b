//! The units that conform to FROM, as a reply.

ghost use Rattle.std.specs.Prelude.{◌≡◌, IfOk};
ghost use Rattle.deck.specs.Tables as tables;
ghost use Rattle.live_table.specs.Calls.{AreLiveQueries};
ghost use Rattle.live_table.specs.TableView.{IsRightLiveView};
ghost use Rattle.reply.specs.Options.{AreReplyOptionsPrintable};
ghost use Rattle.survey.specs.ConversionReplies as spec;

use crate::conformable_units::conformable_report;
use live_table::LiveTable;
use reply::{FromValue, Options, Reply, from_value};
use std::alloc::{AllocError, Global};
use std::sync::ledger::Ledger;
use units_io::{Steps, Text};

/// Returns a row for each unit that conforms to FROM, or the first fault of FROM. Queries FROM and then, if FROM has a
/// value, each unit. Does not change the deck. The only error is running out of memory.
pub fn conformable_reply<L: Ledger>(
    alloc: Global,
    table: &mut LiveTable,
    options: &Options,
    from: &[u8],
    steps: &mut Steps<L>,
) -> Result<Reply, AllocError>
    requires { AreReplyOptionsPrintable options.now }
    ensures reply { IfOk result (λ reply.
        reply ≡ (spec.asked_conformable (tables.table_of_deck table.old.deck) options.now from.now).reply) }
    ensures queries { AreLiveQueries
        (spec.asked_conformable (tables.table_of_deck table.old.deck) options.now from.now).queries
        result table.old table.new steps.old steps.new }
    ensures deck { table.new.deck ≡ table.old.deck }
{
    let value = from_value(alloc, table, options, from, steps)?;
    conformable_to(alloc, table, value, steps)
}

// Returns the units that conform to a FROM with this value, or the fault of FROM.
fn conformable_to<L: Ledger>(
    alloc: Global,
    table: &mut LiveTable,
    value: FromValue,
    steps: &mut Steps<L>,
) -> Result<Reply, AllocError>
    requires { IsRightLiveView table.old }
    ensures reply { IfOk result (λ reply.
        reply ≡ (spec.conformable_to (tables.table_of_deck table.old.deck) value).reply) }
    ensures queries { AreLiveQueries (spec.conformable_to (tables.table_of_deck table.old.deck) value).queries
        result table.old table.new steps.old steps.new }
    ensures deck { table.new.deck ≡ table.old.deck }
{
    match value {
        FromValue::Good(x) => Ok(Reply {
            text: conformable_report(alloc, table, &x, steps)?,
            refused: false,
        }),
        FromValue::Bad(fault) => fault_reply(fault),
    }
}

// Returns the reply that consists of the text of a fault.
fn fault_reply(fault: Text) -> Result<Reply, AllocError>
    ensures { IfOk result (λ reply. reply ≡ spec.survey_fault_reply fault) }
{
    let mut text = fault.into_bytes();
    text.push(b'\n')?;
    Ok(Reply {
        text: Text::from(text),
        refused: true,
    })
}
