//! Queries of the live table of a session, and the state that they leave it in.

ghost use Rattle.std.specs.Prelude.{◌≡◌};
ghost use Rattle.deck.specs.Tables as tables;
ghost use Rattle.reply.specs.Options.{AreReplyOptionsPrintable};
ghost use Rattle.reply.specs.Replies as replies;
ghost use Rattle.survey.specs.ConversionReplies as spec;
ghost use Rattle.session.specs.Parts.{IsSessionQueryAnswered};

use live_table::LiveTable;
use reply::{FromValue, Options, definition_reply, from_value};
use std::alloc::{AllocError, Global};
use std::sync::ledger::Ledger;
use survey::conformable_reply;
use units_io::{Steps, Text};

/// Returns the value of a text as FROM.
pub(crate) fn evaluate_text<L: Ledger>(
    alloc: Global,
    options: &Options,
    table: &mut LiveTable,
    text: &[u8],
    steps: &mut Steps<L>,
) -> Result<FromValue, AllocError>
    requires { AreReplyOptionsPrintable options.now }
    ensures reply { IsSessionQueryAnswered
        (replies.inquiry_value_queries (tables.table_of_deck table.old.deck) text.now)
        (replies.from_value (tables.table_of_deck table.old.deck) options.now text.now) result table.old table.new
        steps.old steps.new }
    ensures deck { table.new.deck ≡ table.old.deck }
{
    from_value(alloc, table, options, text, steps)
}

/// Returns the reply to FROM alone.
pub(crate) fn ask_definition<L: Ledger>(
    alloc: Global,
    options: &Options,
    table: &mut LiveTable,
    from: &[u8],
    steps: &mut Steps<L>,
) -> Result<Text, AllocError>
    requires { AreReplyOptionsPrintable options.now }
    ensures reply { let asked = spec.asked_definition (tables.table_of_deck table.old.deck) options.now from.now in
        IsSessionQueryAnswered asked.queries asked.reply.text result table.old table.new steps.old steps.new }
    ensures deck { table.new.deck ≡ table.old.deck }
{
    let reply = definition_reply(alloc, table, options, from, steps)?;
    Ok(reply.text)
}

/// Returns the units that conform to FROM, or the fault of FROM.
pub(crate) fn conformable<L: Ledger>(
    alloc: Global,
    options: &Options,
    table: &mut LiveTable,
    from: &[u8],
    steps: &mut Steps<L>,
) -> Result<Text, AllocError>
    requires { AreReplyOptionsPrintable options.now }
    ensures reply { let asked = spec.asked_conformable (tables.table_of_deck table.old.deck) options.now from.now in
        IsSessionQueryAnswered asked.queries asked.reply.text result table.old table.new steps.old steps.new }
    ensures deck { table.new.deck ≡ table.old.deck }
{
    let reply = conformable_reply(alloc, table, options, from, steps)?;
    Ok(reply.text)
}
