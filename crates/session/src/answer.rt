//! The answer to a line of a session.

ghost use Rattle.std.specs.Prelude.{◌≡◌, ◌≤◌, length, None, Some, IfOk, IsErrOf, OnOk, [], false, true};
ghost use Rattle.units_io.specs.FileMap.{FileMap, longest_file, with_file};
ghost use Rattle.units_io.specs.Faults.{HasIoCountRisen};
ghost use Rattle.deck_save.specs.SavedText.{saved_file};
ghost use Rattle.session.specs.AnswerEffects.{AnswerFailsOnlyForMemory, AreSessionFileFaultsCounted, IsSessionAnswerTo};
ghost use Rattle.session.specs.AnswerEffects.{session_file_faults, session_scene};
ghost use Rattle.session.specs.Answers.{files_after_session_save, session_save_reply};
ghost use Rattle.session.specs.Commands as commands;
ghost use Rattle.session.specs.HeardLines.{longest_session_line};
ghost use Rattle.session.specs.FilesLeft.{SessionLineKeepsFiles, SessionSaveKeepsFiles};
ghost use Rattle.session.specs.Lines as lines;
ghost use Rattle.session.specs.Parts.{IsSessionAnswerGiven, IsSessionLineReply};
ghost use Rattle.session.specs.CommandViews.{session_command_view};
ghost use Rattle.session.specs.Sessions.{IsOneSession, session_and_files, session_in};
ghost use Rattle.session.specs.Steps as spec;

use crate::command::{Command, read_command};
use crate::fault::SessionFault;
use crate::lines::{line_of, no_text, word_line};
use crate::session::Session;
use crate::session_queries::{ask_definition, conformable, evaluate_text};
use crate::table_counts::statistics;
use crate::workspace::Workspace;
use deck::Deck;
use deck_save::{SaveFault, save_text};
use reply::{FromValue, convert_reply};
use std::alloc::{AllocError, Global};
use std::sync::ledger::Ledger;
use survey::search_report;
use units_io::{Files, Steps, StoreFault, Text};

/// The answer to a line, and whether the line ends the session.
#[derive(Drop)]
pub struct LineReply {
    /// The text of the answer.
    pub out: Text,
    /// The notices of a loaded file.
    pub err: Text,
    /// Whether the line ends the session.
    pub done: bool,
}

/// Returns a reply with a text on `out` and nothing on `err`.
pub(crate) fn output_reply(alloc: Global, out: Text) -> LineReply
    ensures { IsSessionLineReply result out [] false }
{
    LineReply {
        out,
        err: no_text(alloc),
        done: false,
    }
}

// Returns a reply that consists of a line on `out`: some words, followed by a word.
fn saying_word(alloc: Global, words: &[u8], word: &[u8]) -> Result<LineReply, AllocError>
    ensures { IfOk result (λ reply. IsSessionLineReply reply (lines.session_line_with_word words.now word.now) []
        false) }
{
    Ok(output_reply(alloc, word_line(alloc, words, word)?))
}

// Returns the answer to a line that ends the session.
fn last_reply(alloc: Global) -> LineReply
    ensures { IsSessionLineReply result [] [] true }
{
    LineReply {
        out: no_text(alloc),
        err: no_text(alloc),
        done: true,
    }
}

impl Workspace {
    // Takes a text as FROM: returns its fault, or makes it the pending FROM.
    fn take_from<L: Ledger>(
        &mut self,
        alloc: Global,
        text: &[u8],
        steps: &mut Steps<L>,
    ) -> Result<LineReply, SessionFault>
        requires parts { IsOneSession self.old }
        ensures answer { (m : FileMap)
            → IsSessionAnswerGiven (spec.pending_from_answer text.now (session_and_files (session_in self.old) m))
            result (session_in self.new) steps.old steps.new }
        ensures done { IfOk result (λ reply. reply.done ≡ false) }
        ensures parts { IsOneSession self.new }
        ensures calm { AnswerFailsOnlyForMemory result }
    {
        match evaluate_text(alloc, &self.options, &mut self.table, text, steps)? {
            FromValue::Good(_) => {
                self.pending = Some(Text::from_bytes(alloc, text)?);
                Ok(output_reply(alloc, no_text(alloc)))
            }
            FromValue::Bad(fault) => {
                self.pending = None;
                Ok(output_reply(alloc, line_of(fault)?))
            }
        }
    }

    // Answers a blank line: the reply to the pending FROM alone.
    fn answer_blank<L: Ledger>(
        &mut self,
        alloc: Global,
        steps: &mut Steps<L>,
    ) -> Result<LineReply, SessionFault>
        requires parts { IsOneSession self.old }
        ensures answer { (m : FileMap) → IsSessionAnswerGiven
            (spec.session_blank_answer self.old.pending (session_and_files (session_in self.old) m))
            result (session_in self.new) steps.old steps.new }
        ensures done { IfOk result (λ reply. reply.done ≡ false) }
        ensures parts { IsOneSession self.new }
        ensures calm { AnswerFailsOnlyForMemory result }
    {
        let Some(from) = self.pending.take() else {
            return Ok(output_reply(alloc, no_text(alloc)));
        };
        let from = from.as_bytes();
        let text = ask_definition(alloc, &self.options, &mut self.table, from, steps)?;
        Ok(output_reply(alloc, text))
    }

    // Answers with the units that conform to the pending FROM, which stays pending.
    fn answer_conformable<L: Ledger>(
        &mut self,
        alloc: Global,
        steps: &mut Steps<L>,
    ) -> Result<LineReply, SessionFault>
        requires parts { IsOneSession self.old }
        ensures answer { (m : FileMap) → IsSessionAnswerGiven
            (spec.session_conformable_answer self.old.pending (session_and_files (session_in self.old) m))
            result (session_in self.new) steps.old steps.new }
        ensures done { IfOk result (λ reply. reply.done ≡ false) }
        ensures parts { IsOneSession self.new }
        ensures calm { AnswerFailsOnlyForMemory result }
    {
        let Some(from) = self.pending.as_ref() else {
            return self.take_from(alloc, b"?", steps);
        };
        let from = from.as_bytes();
        let text = conformable(alloc, &self.options, &mut self.table, from, steps)?;
        Ok(output_reply(alloc, text))
    }

    // Answers an expression, which is FROM, or TO if a FROM is pending.
    fn answer_expression<L: Ledger>(
        &mut self,
        alloc: Global,
        text: &[u8],
        steps: &mut Steps<L>,
    ) -> Result<LineReply, SessionFault>
        requires parts { IsOneSession self.old }
        ensures answer { (m : FileMap) → IsSessionAnswerGiven
            (spec.session_expression_answer self.old.pending text.now (session_and_files (session_in self.old) m))
            result (session_in self.new) steps.old steps.new }
        ensures done { IfOk result (λ reply. reply.done ≡ false) }
        ensures parts { IsOneSession self.new }
        ensures calm { AnswerFailsOnlyForMemory result }
    {
        let Some(from) = self.pending.take() else {
            return self.take_from(alloc, text, steps);
        };
        let from = from.as_bytes();
        let reply = convert_reply(alloc, &mut self.table, &self.options, from, text, steps)?;
        Ok(output_reply(alloc, reply.text))
    }

    // Answers a command that needs no file.
    #[tactic(auto, unfolding(crate::specs::Steps::session_answer_to))]
    fn perform<L: Ledger>(
        &mut self,
        alloc: Global,
        command: Command<'_>,
        steps: &mut Steps<L>,
    ) -> Result<LineReply, SessionFault>
        requires parts { IsOneSession self.old }
        requires no_file { commands.session_command_names_file (session_command_view command) ≡ false }
        ensures answer { (m : FileMap) → IsSessionAnswerGiven
            (spec.session_answer_to (session_and_files (session_in self.old) m) (session_command_view command.entry))
            result (session_in self.new) steps.old steps.new }
        ensures done { IfOk result
            (λ reply. reply.done ≡ commands.is_session_quit (session_command_view command.entry)) }
        ensures parts { IsOneSession self.new }
        ensures calm { AnswerFailsOnlyForMemory result }
    {
        match command {
            Command::Blank => self.answer_blank(alloc, steps),
            Command::Quit => Ok(last_reply(alloc)),
            Command::Conformable => self.answer_conformable(alloc, steps),
            Command::Search(text) => {
                Ok(output_reply(alloc, search_report(alloc, &self.table, text)?))
            }
            Command::Edit(change) => self.edit(alloc, change, steps),
            Command::Load(_) | Command::Save(_) => unreachable!(),
            Command::Watch(from, to) => self.watch(alloc, from, to, steps),
            Command::Unwatch => {
                self.watches.clear();
                Ok(output_reply(alloc, no_text(alloc)))
            }
            Command::Stats => Ok(output_reply(alloc, statistics(alloc, &self.table)?)),
            Command::Unknown(word) => Ok(saying_word(alloc, b"unknown command: ", word)?),
            Command::Bad(word) => Ok(saying_word(alloc, b"bad command: ", word)?),
            Command::Expression(text) => self.answer_expression(alloc, text, steps),
        }
    }
}

// Stores the text of the deck in a file.
#[tactic(auto, unfolding(crate::specs::Steps::session_answer_to))]
fn save<F: Files>(
    alloc: Global,
    deck: &Deck,
    name: &[u8],
    files: &mut F,
) -> Result<LineReply, SessionFault>
    ensures line { IfOk result
        (λ reply. IsSessionLineReply reply (session_save_reply (saved_file deck.now) name.now) [] false) }
    ensures saved { OnOk result ((m : FileMap) → F.files files.old ≡ Some m →
        F.files files.new ≡ Some (files_after_session_save (saved_file deck.now) name.now m)) }
    ensures failed { SessionSaveKeepsFiles name.now result (F.files files.old) (F.files files.new) }
    ensures if_unknown { F.files files.old ≡ None → F.files files.new ≡ None }
    ensures fetches { F.faults files.new ≡ F.faults files.old }
    ensures later { F.store_faults files.old ≤ F.store_faults files.new }
    ensures unread { IsErrOf result SessionFault.ReadFailed → ⊥ }
    ensures cause { IsErrOf result SessionFault.WriteFailed →
        HasIoCountRisen (F.store_faults files.old) (F.store_faults files.new) }
{
    match save_text(alloc, deck) {
        Ok(text) => {
            store(alloc, name, text.as_bytes(), files)?;
            Ok(output_reply(alloc, no_text(alloc)))
        }
        Err(SaveFault::TooLong) => Ok(saying_word(alloc, b"file too long: ", name)?),
        Err(SaveFault::OutOfMemory) => Err(SessionFault::OutOfMemory),
    }
}

// Stores bytes in a file.
fn store<F: Files>(
    alloc: Global,
    name: &[u8],
    bytes: &[u8],
    files: &mut F,
) -> Result<(), SessionFault>
    requires { length bytes.now ≤ longest_file }
    ensures if_known { OnOk result ((m : FileMap) → F.files files.old ≡ Some m →
        F.files files.new ≡ Some (with_file m name.now bytes.now)) }
    ensures failed { SessionSaveKeepsFiles name.now result (F.files files.old) (F.files files.new) }
    ensures if_unknown { F.files files.old ≡ None → F.files files.new ≡ None }
    ensures fetches { F.faults files.new ≡ F.faults files.old }
    ensures later { F.store_faults files.old ≤ F.store_faults files.new }
    ensures unread { IsErrOf result SessionFault.ReadFailed → ⊥ }
    ensures cause { IsErrOf result SessionFault.WriteFailed →
        HasIoCountRisen (F.store_faults files.old) (F.store_faults files.new) }
{
    match files.store(alloc, name, bytes) {
        Ok(()) => Ok(()),
        Err(StoreFault::Failed) => Err(SessionFault::WriteFailed),
        Err(StoreFault::OutOfMemory) => Err(SessionFault::OutOfMemory),
    }
}

impl Session {
    /// Answers a line, given as it was read but without its line feed. Returns `ReadFailed` only if a fetch failed and
    /// `WriteFailed` only if a store failed, both of which the files count, and `OutOfMemory` if memory runs out. After
    /// an error the session can no longer be used, and the files are as before, except perhaps the one that could not
    /// be written. A line that names no file uses none.
    pub fn line<F: Files, L: Ledger>(
        &mut self,
        alloc: Global,
        line: &[u8],
        files: &mut F,
        steps: &mut Steps<L>,
    ) -> Result<LineReply, SessionFault>
        requires { length line.now ≤ longest_session_line }
        ensures answer { IsSessionAnswerTo (commands.session_command_of_line line.now) result
            (session_scene self.old (F.files files.old) steps.old)
            (session_scene self.new (F.files files.new) steps.new) }
        ensures done { IfOk result
            (λ reply. reply.done ≡ commands.is_session_quit (commands.session_command_of_line line.now)) }
        ensures faults { AreSessionFileFaultsCounted result
            (session_file_faults (F.faults files.old) (F.store_faults files.old))
            (session_file_faults (F.faults files.new) (F.store_faults files.new)) }
        ensures kept { SessionLineKeepsFiles (commands.session_line_save_name line.now) result (F.files files.old)
            (F.files files.new) }
        ensures stores { commands.session_line_save_name line.now ≡ None → F.store_faults files.new
            ≡ F.store_faults files.old }
        ensures unasked { commands.session_command_names_file (commands.session_command_of_line line.now) ≡ false
            → files.new ≡ files.old }
    {
        match read_command(line) {
            Command::Load(name) => self.workspace.load(alloc, name, files, steps),
            Command::Save(name) => save(alloc, self.workspace.table.deck(), name, files),
            command => self.workspace.perform(alloc, command, steps),
        }
    }
}
