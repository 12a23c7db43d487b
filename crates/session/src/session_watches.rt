//! The conversions that a session watches.

ghost use Rattle.std.specs.Prelude.{◌≡◌, map, IfOk, OnOk, false};
ghost use Rattle.units_io.specs.FileMap.{FileMap};
ghost use Rattle.def_entry.specs.Tables.{EntryTable};
ghost use Rattle.deck.specs.Tables as tables;
ghost use Rattle.live_table.specs.Calls.{AreLiveQueries};
ghost use Rattle.reply.specs.Options.{AreReplyOptionsPrintable};
ghost use Rattle.session.specs.AnswerEffects.{AnswerFailsOnlyForMemory};
ghost use Rattle.session.specs.Answers.{session_watch_answer};
ghost use Rattle.session.specs.Parts.{IsSessionAnswerGiven};
ghost use Rattle.session.specs.Sessions.{IsOneSession, session_and_files, session_in};
ghost use Rattle.session.specs.WatchQueries.{is_session_watch_list_full, session_watch_queries};
ghost use Rattle.watch.specs.Edits.{report_by_edit};
ghost use Rattle.watch.specs.WatchViews.{AreCurrent, subject_of_watch, watch_subject};

use crate::answer::{LineReply, output_reply};
use crate::fault::SessionFault;
use crate::workspace::Workspace;
use live_table::LiveTable;
use reply::Options;
use std::alloc::{AllocError, Global};
use std::sync::ledger::Ledger;
use units_io::{Steps, Text};
use watch::{WatchFault, Watches};

/// Queries all watched conversions again and returns the report on those that an edit changed. The only error is
/// running out of memory, after which nothing is watched.
pub(crate) fn report_changes<L: Ledger>(
    alloc: Global,
    options: &Options,
    table: &mut LiveTable,
    watches: &mut Watches,
    steps: &mut Steps<L>,
) -> Result<Text, AllocError>
    requires { AreReplyOptionsPrintable options.now }
    ensures reported_changes { (before : EntryTable) → AreCurrent before options.now watches.old → IfOk result (λ text.
        text ≡ report_by_edit before (tables.table_of_deck table.old.deck) options.now
        (map subject_of_watch watches.old)) }
    ensures watched { OnOk result (map subject_of_watch watches.new ≡ map subject_of_watch watches.old) }
    ensures current { AreCurrent (tables.table_of_deck table.new.deck) options.now watches.new }
    ensures queries { AreLiveQueries
        (session_watch_queries (tables.table_of_deck table.old.deck) options.now (map subject_of_watch watches.old))
        result table.old table.new steps.old steps.new }
    ensures deck { table.new.deck ≡ table.old.deck }
{
    match watches.after_edit(alloc, table, options, steps) {
        Ok(text) => Ok(text),
        Err(fault) => {
            watches.clear();
            Err(fault)
        }
    }
}

impl Workspace {
    /// Watches a conversion and returns its reply, unless the largest number is already watched.
    pub(crate) fn watch<L: Ledger>(
        &mut self,
        alloc: Global,
        from: &[u8],
        to: &[u8],
        steps: &mut Steps<L>,
    ) -> Result<LineReply, SessionFault>
        requires parts { IsOneSession self.old }
        ensures answer { (m : FileMap) → IsSessionAnswerGiven
            (session_watch_answer (is_session_watch_list_full (map subject_of_watch self.old.watches))
            (watch_subject from.now to.now) (session_and_files (session_in self.old) m))
            result (session_in self.new) steps.old steps.new }
        ensures done { IfOk result (λ reply. reply.done ≡ false) }
        ensures parts { IsOneSession self.new }
        ensures calm { AnswerFailsOnlyForMemory result }
    {
        match self
            .watches
            .add(alloc, &mut self.table, &self.options, from, to, steps)
        {
            Ok(text) => Ok(output_reply(alloc, text)),
            Err(WatchFault::TooMany) => {
                let line = Text::from_bytes(alloc, b"too many watches\n")?;
                Ok(output_reply(alloc, line))
            }
            Err(WatchFault::OutOfMemory) => Err(SessionFault::OutOfMemory),
        }
    }
}
