//! Edits of the deck of a session, and the reports on watched conversions that they change.

ghost use Rattle.std.specs.Prelude.{◌≡◌, Some, IfOk, IfErr, IsErrOf, OnOk, OnErr, [], false, true};
ghost use Rattle.units_io.specs.FileMap.{FileMap};
ghost use Rattle.units_io.specs.Faults.{HasIoCountRisen};
ghost use Rattle.deck.specs.FileLoads as loading;
ghost use Rattle.live_table.specs.Calls.{IsAcceptedLiveEdit};
ghost use Rattle.edit_history.specs.Calls.{IsEditRecorded};
ghost use Rattle.edit_history.specs.Histories.{IsHistoryOf};
ghost use Rattle.session.specs.AnswerEffects.{AnswerFailsOnlyForMemory, fetch_faults_after_answer};
ghost use Rattle.session.specs.Answers.{session_edit_answer};
ghost use Rattle.session.specs.Commands as commands;
ghost use Rattle.session.specs.EditResults.{session_result_of_edit};
ghost use Rattle.session.specs.Parts.{IsSessionAnswerGiven};
ghost use Rattle.session.specs.CommandViews.{session_edit_view};
ghost use Rattle.session.specs.Sessions.{IsOneSession, session_and_files, session_in};
ghost use Rattle.session.specs.Steps as spec;
ghost use Rattle.session.specs.Versions.{session_table_with_versions};

use crate::answer::{LineReply, output_reply};
use crate::command::DeckEdit;
use crate::deck_edits::{EditResult, make_edit, refusal_line};
use crate::fault::SessionFault;
use crate::lines::notice_lines;
use crate::session_watches::report_changes;
use crate::workspace::Workspace;
use deck::{DeckFault, transcripts_determine_loads};
use edit_history::{History, histories_are_timelines};
use live_table::LiveTable;
use std::alloc::Global;
use std::sync::ledger::Ledger;
use units_io::{Files, Steps, Text};

impl Workspace {
    /// Makes an edit that needs no file and reports the watched conversions that it changed, or says why the edit is
    /// refused.
    pub(crate) fn edit<L: Ledger>(
        &mut self,
        alloc: Global,
        change: DeckEdit<'_>,
        steps: &mut Steps<L>,
    ) -> Result<LineReply, SessionFault>
        requires parts { IsOneSession self.old }
        ensures answer { (m : FileMap) → IsSessionAnswerGiven
            (session_edit_answer (session_result_of_edit (session_edit_view change.entry)
            (session_table_with_versions self.old.table self.old.history)) []
            (session_and_files (session_in self.old) m))
            result (session_in self.new) steps.old steps.new }
        ensures done { IfOk result (λ reply. reply.done ≡ false) }
        ensures parts { IsOneSession self.new }
        ensures calm { AnswerFailsOnlyForMemory result }
    {
        match make_edit(alloc, &mut self.table, &mut self.history, change)? {
            EditResult::Made => {
                let report = report_changes(
                    alloc,
                    &self.options,
                    &mut self.table,
                    &mut self.watches,
                    steps,
                )?;
                Ok(output_reply(alloc, report))
            }
            EditResult::Refused(line) => Ok(output_reply(alloc, line)),
        }
    }

    /// Adds the definitions of a file, with its notices on `err`, and reports the watched conversions that this
    /// changed, or says why the file is refused.
    pub(crate) fn load<F: Files, L: Ledger>(
        &mut self,
        alloc: Global,
        name: &[u8],
        files: &mut F,
        steps: &mut Steps<L>,
    ) -> Result<LineReply, SessionFault>
        requires parts { IsOneSession self.old }
        ensures answer { (m : FileMap) → F.files files.old ≡ Some m
            → IsSessionAnswerGiven (spec.session_answer_to (session_and_files (session_in self.old) m)
            (commands.Load name.now)) result (session_in self.new) steps.old steps.new }
        ensures done { IfOk result (λ reply. reply.done ≡ false) }
        ensures parts { IsOneSession self.new }
        ensures kept { F.files files.new ≡ F.files files.old }
        ensures stores { F.store_faults files.new ≡ F.store_faults files.old }
        ensures counted { F.faults files.new ≡ fetch_faults_after_answer (F.faults files.old) result }
        ensures cause { IsErrOf result SessionFault.ReadFailed
            → HasIoCountRisen (F.faults files.old) (F.faults files.new) }
        ensures unwritten { IsErrOf result SessionFault.WriteFailed → ⊥ }
    {
        histories_are_timelines();
        match append_file(alloc, &mut self.history, &mut self.table, files, name) {
            Ok(()) => {
                let report = report_changes(
                    alloc,
                    &self.options,
                    &mut self.table,
                    &mut self.watches,
                    steps,
                )?;
                let notices = notice_lines(alloc, self.table.deck())?;
                Ok(LineReply {
                    out: report,
                    err: Text::from(notices),
                    done: false,
                })
            }
            Err(fault) => Ok(output_reply(alloc, refusal_line(alloc, fault, name)?)),
        }
    }
}

// Appends the deck of a file to a table, and records the edit. If the files are known, they determine the deck or the
// error, unless a fetch fails or memory runs out.
fn append_file<F: Files>(
    alloc: Global,
    history: &mut History,
    table: &mut LiveTable,
    files: &mut F,
    name: &[u8],
) -> Result<(), DeckFault>
    requires { IsHistoryOf history.old table.old.deck }
    ensures follows { IsHistoryOf history.new table.new.deck }
    ensures known { (m : FileMap) → F.files files.old ≡ Some m
        → loading.IsDeckAppended (loading.deck_after_appending m name.now table.old.deck) table.new.deck result }
    ensures ok { OnOk result (IsAcceptedLiveEdit table.old table.new) }
    ensures err { OnErr result (table.new ≡ table.old) }
    ensures answers { IfErr result (λ fault. loading.is_deck_load_fault fault ≡ true) }
    ensures kept { F.files files.new ≡ F.files files.old }
    ensures stores { F.store_faults files.new ≡ F.store_faults files.old }
    ensures counted { F.faults files.new ≡ loading.fetch_faults_after_deck_load (F.faults files.old) result }
    ensures noted { IsEditRecorded history.old history.new table.old.deck table.new.deck result }
{
    transcripts_determine_loads::<F>();
    history.append(alloc, table, files, name)
}
