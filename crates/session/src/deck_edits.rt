//! Edits of the deck of a session, and the lines that report refused edits.

ghost use Rattle.std.specs.Prelude.{◌≡◌, ◌↔◌, [], codes, Ok, Some, option_map, true, IfOk, IsErrOf};
ghost use Rattle.def_entry.specs.Keys.{key_of_spelling};
ghost use Rattle.def_lines.specs.Blanks.{trimmed_of_blanks};
ghost use Rattle.deck.specs.Edits as deck_edit;
ghost use Rattle.deck.specs.declared.fault.DeckFault.TheVariants as deck_fault;
ghost use Rattle.edit_history.specs.Histories.{IsHistoryOf};
ghost use Rattle.edit_history.specs.Timelines.{redone_timeline, undone_timeline};
ghost use Rattle.session.specs.AnswerEffects.{AnswerFailsOnlyForMemory};
ghost use Rattle.session.specs.EditResults.{session_drop_result, session_edit_result, session_result_of_edit};
ghost use Rattle.session.specs.EditResults.{session_undo_redo_result};
ghost use Rattle.session.specs.DeckEdits as spec;
ghost use Rattle.session.specs.Lines as lines;
ghost use Rattle.session.specs.Parts.{IsSessionEditAnswered};
ghost use Rattle.session.specs.CommandViews.{session_edit_view};
ghost use Rattle.session.specs.Versions.{session_table_with_versions, session_timeline};

use crate::command::DeckEdit;
use crate::fault::SessionFault;
use crate::lines::{line_of, word_line};
use deck::DeckFault;
use def_entry::{Key, KeyFault, entry_fault_text, entry_memory_law, read_key};
use edit_history::{History, HistoryFault, histories_are_timelines};
use live_table::LiveTable;
use std::alloc::Global;
use units_io::Text;

/// The result of an edit.
#[derive(Drop)]
pub enum EditResult {
    /// The edit was made.
    Made,
    /// The edit was refused, as this line says, and nothing has changed.
    Refused(Text),
}

/// Makes an edit, or returns the line that says why it is refused.
pub(crate) fn make_edit(
    alloc: Global,
    table: &mut LiveTable,
    history: &mut History,
    edit: DeckEdit<'_>,
) -> Result<EditResult, SessionFault>
    requires { IsHistoryOf history.old table.old.deck }
    ensures edit { IsSessionEditAnswered
        (session_result_of_edit (session_edit_view edit.entry) (session_table_with_versions table.old history.old))
        result (session_table_with_versions table.old history.old) (session_table_with_versions table.new history.new) }
    ensures follows { IsHistoryOf history.new table.new.deck }
    ensures calm { AnswerFailsOnlyForMemory result }
{
    match edit {
        DeckEdit::Define(line) => define(alloc, table, history, line),
        DeckEdit::DropLast(text) => drop_by_text(alloc, table, history, text),
        DeckEdit::Set(name, value) => set_variable(alloc, table, history, name, value),
        DeckEdit::Locale(locale) => set_locale(alloc, table, history, locale),
        DeckEdit::Undo => undo(alloc, table, history),
        DeckEdit::Redo => redo(alloc, table, history),
    }
}

// Adds a definition line.
fn define(
    alloc: Global,
    table: &mut LiveTable,
    history: &mut History,
    line: &[u8],
) -> Result<EditResult, SessionFault>
    requires { IsHistoryOf history.old table.old.deck }
    ensures edit { let was = session_table_with_versions table.old history.old in
        IsSessionEditAnswered (session_edit_result
        (deck_edit.deck_after_defining (trimmed_of_blanks line.now) table.old.deck) [] was)
        result was (session_table_with_versions table.new history.new) }
    ensures follows { IsHistoryOf history.new table.new.deck }
    ensures calm { AnswerFailsOnlyForMemory result }
{
    entry_memory_law();
    histories_are_timelines();
    match history.define(alloc, table, line) {
        Ok(()) => Ok(EditResult::Made),
        Err(fault) => Ok(EditResult::Refused(refusal_line(alloc, fault, b"")?)),
    }
}

// Removes the last active line of the key that a text names, if it names one.
fn drop_by_text(
    alloc: Global,
    table: &mut LiveTable,
    history: &mut History,
    text: &[u8],
) -> Result<EditResult, SessionFault>
    requires { IsHistoryOf history.old table.old.deck }
    ensures edit { IsSessionEditAnswered
        (session_drop_result (key_of_spelling text.now) text.now (session_table_with_versions table.old history.old))
        result (session_table_with_versions table.old history.old) (session_table_with_versions table.new history.new) }
    ensures follows { IsHistoryOf history.new table.new.deck }
    ensures calm { AnswerFailsOnlyForMemory result }
{
    match read_key(alloc, text) {
        Ok(key) => drop_last(alloc, table, history, &key, text),
        Err(KeyFault::NotKey) => {
            let line = word_line(alloc, b"bad command: ", b":drop")?;
            Ok(EditResult::Refused(line))
        }
        Err(KeyFault::OutOfMemory) => Err(SessionFault::OutOfMemory),
    }
}

// Removes the last active line of a key. `text` is the key as it was typed.
fn drop_last(
    alloc: Global,
    table: &mut LiveTable,
    history: &mut History,
    key: &Key,
    text: &[u8],
) -> Result<EditResult, SessionFault>
    requires { IsHistoryOf history.old table.old.deck }
    ensures edit { let was = session_table_with_versions table.old history.old in
        IsSessionEditAnswered (session_edit_result (deck_edit.deck_after_dropping key.now table.old.deck) text.now was)
        result was (session_table_with_versions table.new history.new) }
    ensures follows { IsHistoryOf history.new table.new.deck }
    ensures calm { AnswerFailsOnlyForMemory result }
{
    histories_are_timelines();
    match history.drop_last(alloc, table, key) {
        Ok(()) => Ok(EditResult::Made),
        Err(fault) => Ok(EditResult::Refused(refusal_line(alloc, fault, text)?)),
    }
}

// Gives a variable a value.
fn set_variable(
    alloc: Global,
    table: &mut LiveTable,
    history: &mut History,
    name: &[u8],
    value: &[u8],
) -> Result<EditResult, SessionFault>
    requires { IsHistoryOf history.old table.old.deck }
    ensures edit { let was = session_table_with_versions table.old history.old in
        IsSessionEditAnswered (session_edit_result (Ok (deck_edit.deck_after_switching
        (spec.settings_with_variable table.old.deck.settings name.now value.now) table.old.deck)) [] was)
        result was (session_table_with_versions table.new history.new) }
    ensures follows { IsHistoryOf history.new table.new.deck }
    ensures calm { AnswerFailsOnlyForMemory result }
{
    histories_are_timelines();
    match history.set(alloc, table, name, value) {
        Ok(()) => Ok(EditResult::Made),
        Err(fault) => Ok(EditResult::Refused(refusal_line(alloc, fault, b"")?)),
    }
}

// Puts another locale in force.
fn set_locale(
    alloc: Global,
    table: &mut LiveTable,
    history: &mut History,
    locale: &[u8],
) -> Result<EditResult, SessionFault>
    requires { IsHistoryOf history.old table.old.deck }
    ensures edit { let was = session_table_with_versions table.old history.old in
        IsSessionEditAnswered (session_edit_result (Ok (deck_edit.deck_after_switching
        (spec.settings_with_locale table.old.deck.settings locale.now) table.old.deck)) [] was)
        result was (session_table_with_versions table.new history.new) }
    ensures follows { IsHistoryOf history.new table.new.deck }
    ensures calm { AnswerFailsOnlyForMemory result }
{
    histories_are_timelines();
    match history.set_locale(alloc, table, locale) {
        Ok(()) => Ok(EditResult::Made),
        Err(fault) => Ok(EditResult::Refused(refusal_line(alloc, fault, b"")?)),
    }
}

// Takes back the last edit that is done.
fn undo(
    alloc: Global,
    table: &mut LiveTable,
    history: &mut History,
) -> Result<EditResult, SessionFault>
    requires { IsHistoryOf history.old table.old.deck }
    ensures edit { let was = session_table_with_versions table.old history.old in
        IsSessionEditAnswered (session_undo_redo_result (undone_timeline (session_timeline was.table.deck was.versions))
        (codes "nothing to undo") was.table.deck)
        result was (session_table_with_versions table.new history.new) }
    ensures follows { IsHistoryOf history.new table.new.deck }
    ensures calm { AnswerFailsOnlyForMemory result }
{
    histories_are_timelines();
    match history.undo(alloc, table) {
        Ok(()) => Ok(EditResult::Made),
        Err(fault) => Ok(EditResult::Refused(nothing_line(alloc, fault)?)),
    }
}

// Makes the edit again that was undone last, if no edit was made since.
fn redo(
    alloc: Global,
    table: &mut LiveTable,
    history: &mut History,
) -> Result<EditResult, SessionFault>
    requires { IsHistoryOf history.old table.old.deck }
    ensures edit { let was = session_table_with_versions table.old history.old in
        IsSessionEditAnswered (session_undo_redo_result (redone_timeline (session_timeline was.table.deck was.versions))
        (codes "nothing to redo") was.table.deck)
        result was (session_table_with_versions table.new history.new) }
    ensures follows { IsHistoryOf history.new table.new.deck }
    ensures calm { AnswerFailsOnlyForMemory result }
{
    histories_are_timelines();
    match history.redo(alloc, table) {
        Ok(()) => Ok(EditResult::Made),
        Err(fault) => Ok(EditResult::Refused(nothing_line(alloc, fault)?)),
    }
}

// Returns the line that says that there is nothing to undo or to redo.
fn nothing_line(alloc: Global, fault: HistoryFault) -> Result<Text, SessionFault>
    ensures line { IfOk result
        (λ line. Some line ≡ option_map lines.session_line_of_text (spec.session_undo_refusal_text fault)) }
    ensures calm { AnswerFailsOnlyForMemory result }
{
    match fault {
        HistoryFault::NothingToUndo => Ok(Text::from_bytes(alloc, b"nothing to undo\n")?),
        HistoryFault::NothingToRedo => Ok(Text::from_bytes(alloc, b"nothing to redo\n")?),
        HistoryFault::OutOfMemory => Err(SessionFault::OutOfMemory),
    }
}

/// Returns the line that says why an edit is refused, or the fault that ends the session.
pub(crate) fn refusal_line(
    alloc: Global,
    fault: DeckFault,
    named: &[u8],
) -> Result<Text, SessionFault>
    requires { spec.is_session_line_refusal fault ≡ true }
    ensures line { IfOk result (λ line. line ≡ lines.session_line_of_text (spec.session_refusal_text fault named.now)) }
    ensures is_refusal { IfOk result (λ _. spec.is_session_refusal fault ≡ true) }
    ensures read { IsErrOf result SessionFault.ReadFailed ↔ (fault ≡ deck_fault.ReadFailed) }
    ensures unwritten { IsErrOf result SessionFault.WriteFailed → ⊥ }
{
    match fault {
        DeckFault::BadLine(fault) => Ok(line_of(entry_fault_text(alloc, &fault)?)?),
        DeckFault::NoSuchKey => Ok(word_line(alloc, b"no such definition: ", named)?),
        DeckFault::DeckFull => Ok(Text::from_bytes(alloc, b"deck full\n")?),
        DeckFault::Absent => Ok(word_line(alloc, b"no file: ", named)?),
        DeckFault::TooLong => Ok(word_line(alloc, b"file too long: ", named)?),
        DeckFault::ReadFailed => Err(SessionFault::ReadFailed),
        DeckFault::OutOfMemory => Err(SessionFault::OutOfMemory),
    }
}
