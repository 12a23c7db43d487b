//! The reply to FROM and TO on a command line.
ghost use Rattle.deck.specs.Tables as tables;
ghost use Rattle.reply.specs.Options.{AreReplyOptionsPrintable};
ghost use Rattle.units_run.specs.CommandReply as spec;
ghost use Rattle.units_run.specs.ProgramPlans.{IsRunReplyOf};

use live_table::LiveTable;
use reply::{Question, Reply, convert_reply, definition_reply};
use std::alloc::{AllocError, Global};
use std::sync::ledger::Ledger;
use survey::conformable_reply;
use units_io::Steps;

/// Returns the reply to FROM and TO on a command line. TO may be blank or `?`. The only error is running out of memory.
pub(crate) fn ask<L: Ledger>(
    alloc: Global,
    table: &mut LiveTable,
    question: &Question<'_>,
    steps: &mut Steps<L>,
) -> Result<Reply, AllocError>
    requires { AreReplyOptionsPrintable question.now.options.now }
    ensures { IsRunReplyOf (spec.run_reply_for (tables.table_of_deck table.old.deck) question.now.options.now
        question.now.from.now question.now.to.now) result table.old table.new steps.old steps.new }
{
    let Question { options, from, to } = *question;
    if to.is_empty() {
        return definition_reply(alloc, table, options, from, steps);
    }
    if to == b"?".as_slice() {
        return conformable_reply(alloc, table, options, from, steps);
    }
    convert_reply(alloc, table, options, from, to, steps)
}
