//! The answers to definitions and drops.

ghost use Rattle.std.specs.Prelude.{◌≡◌, ◌≢◌, ◌++◌, [], Err, IfErr, IfOk, IsErr, true};
ghost use Rattle.deck.specs.Edits.{deck_after_defining, deck_after_dropping};
ghost use Rattle.deck.specs.declared.fault.DeckFault.TheVariants as deck_fault;
ghost use Rattle.def_entry.specs.Keys.{key_of_spelling};
ghost use Rattle.def_lines.specs.Blanks.{trimmed_of_blanks};
ghost use Rattle.edit_history.specs.Calls.{IsEditRecorded};
ghost use Rattle.edited_table.specs.EditAnswers as spec;
ghost use Rattle.live_table.specs.Edits.{IsLiveEditOf};

use crate::answer::Answer;
use crate::edited_table::EditedTable;
use crate::status::Status;
use deck::DeckFault;
use def_entry::{EntryFault, Key, KeyFault, entry_fault_text, entry_memory_law, read_key};
use expr_tree::ParseFault;
use std::alloc::{AllocError, Global};
use units_io::Text;

// Returns the answer to an edit with this outcome. `named` is the key as the caller wrote it.
fn answer_edit(
    alloc: Global,
    edited: &Result<(), DeckFault>,
    named: &[u8],
) -> Result<Answer, AllocError>
    requires { spec.HasCMessage edited.now }
    ensures answer { IfOk result (λ answer. answer ≡ spec.c_edited_answer edited.now named.now) }
    ensures known { IfOk result (λ _. edited.now ≢ Err deck_fault.OutOfMemory) }
    ensures refused { IfErr result (λ _. IsErr edited.now) }
{
    match edited {
        Ok(()) => Ok(edit_made(alloc)),
        Err(fault) => refusal(alloc, fault, named),
    }
}

// Returns the answer that refuses an edit.
fn refusal(alloc: Global, fault: &DeckFault, named: &[u8]) -> Result<Answer, AllocError>
    requires { spec.has_own_c_message fault.now ≡ true }
    ensures answer { IfOk result (λ answer. answer ≡ spec.c_refusal_answer fault.now named.now) }
    ensures known { IfOk result (λ _. fault.now ≢ deck_fault.OutOfMemory) }
{
    match fault {
        DeckFault::BadLine(fault) => {
            let text = entry_fault_text(alloc, fault)?;
            let status = entry_status(fault);
            Ok(Answer { status, text })
        }
        DeckFault::NoSuchKey => {
            let status = Status::NoSuchDefinition;
            named_answer(alloc, status, b"no such definition: ", named)
        }
        DeckFault::DeckFull => text_answer(alloc, Status::DeckFull, b"deck full"),
        DeckFault::Absent => named_answer(alloc, Status::NoSuchFile, b"no file: ", named),
        DeckFault::TooLong => named_answer(alloc, Status::FileTooLong, b"file too long: ", named),
        DeckFault::ReadFailed => text_answer(alloc, Status::ReadFailed, b""),
        DeckFault::OutOfMemory => Err(AllocError),
    }
}

// Returns the status of a line that is not an entry.
fn entry_status(fault: &EntryFault) -> Status
    ensures { result ≡ spec.entry_status fault.now }
{
    match fault {
        EntryFault::BadName(_) => Status::BadName,
        EntryFault::BadForm => Status::BadDefinition,
        EntryFault::BadTable => Status::BadTable,
        EntryFault::Parse(ParseFault::Syntax(_)) => Status::SyntaxError,
        EntryFault::Parse(ParseFault::NumeralTooLong) => Status::NumeralTooLong,
        EntryFault::Parse(ParseFault::NestedTooDeep) => Status::NestedTooDeep,
        EntryFault::Parse(ParseFault::OutOfMemory) | EntryFault::OutOfMemory => Status::NoMemory,
    }
}

/// Adds the definition in `line` and returns the answer.
pub fn answer_define(
    alloc: Global,
    content: &mut EditedTable,
    line: &[u8],
) -> Result<Answer, AllocError>
    ensures answer { IfOk result (λ answer. answer
        ≡ spec.c_table_edit_answer (deck_after_defining (trimmed_of_blanks line.now) content.old.table.deck) []) }
    ensures edited { spec.IsAnsweredCEdit
        (spec.c_deck_after_edit (deck_after_defining (trimmed_of_blanks line.now) content.old.table.deck)
        content.old.table.deck) result content.old content.new }
{
    let edited = define_line(alloc, content, line);
    answer_edit(alloc, &edited, b"")
}

// Adds the definition in `line`. Every refusal has its own message.
fn define_line(alloc: Global, content: &mut EditedTable, line: &[u8]) -> Result<(), DeckFault>
    ensures edit { IsLiveEditOf (deck_after_defining (trimmed_of_blanks line.now) content.old.table.deck)
        content.old.table content.new.table result }
    ensures noted { IsEditRecorded content.old.history content.new.history
        content.old.table.deck content.new.table.deck result }
    ensures has_words { spec.HasCMessage result }
{
    entry_memory_law();
    content.history.define(alloc, &mut content.table, line)
}

/// Drops the last active definition of the key that `text` names, and returns the answer. Refuses a text that is not a
/// key.
pub fn answer_drop(
    alloc: Global,
    content: &mut EditedTable,
    text: &[u8],
) -> Result<Answer, AllocError>
    ensures answer { IfOk result (λ answer. answer
        ≡ spec.c_drop_answer (spec.c_drop_outcome (key_of_spelling text.now) content.old.table.deck) text.now) }
    ensures edited { spec.IsAnsweredCEdit
        (spec.c_deck_after_drop (spec.c_drop_outcome (key_of_spelling text.now) content.old.table.deck)
        content.old.table.deck) result content.old content.new }
{
    match read_key(alloc, text) {
        Ok(key) => answer_drop_of(alloc, content, &key, text),
        Err(KeyFault::NotKey) => named_answer(alloc, Status::BadKey, b"bad key: ", text),
        Err(KeyFault::OutOfMemory) => Err(AllocError),
    }
}

// Drops the last active definition of `key`, which the caller wrote as `text`.
fn answer_drop_of(
    alloc: Global,
    content: &mut EditedTable,
    key: &Key,
    text: &[u8],
) -> Result<Answer, AllocError>
    ensures answer { IfOk result (λ answer. answer
        ≡ spec.c_table_edit_answer (deck_after_dropping key.now content.old.table.deck) text.now) }
    ensures edited { spec.IsAnsweredCEdit
        (spec.c_deck_after_edit (deck_after_dropping key.now content.old.table.deck) content.old.table.deck)
        result content.old content.new }
{
    let edited = content.history.drop_last(alloc, &mut content.table, key);
    answer_edit(alloc, &edited, text)
}

/// Returns the answer to a successful edit.
pub(crate) fn edit_made(alloc: Global) -> Answer
    ensures { result ≡ spec.c_edit_made_answer }
{
    Answer {
        status: Status::Done,
        text: Text::from(Vec::new(alloc)),
    }
}

/// Returns an answer with this status and this text.
pub(crate) fn text_answer(alloc: Global, status: Status, words: &[u8]) -> Result<Answer, AllocError>
    ensures { IfOk result (λ answer. answer ≡ record { status = status; text = words.now }) }
{
    let text = Text::from_bytes(alloc, words)?;
    Ok(Answer { status, text })
}

// Returns an answer with this status, whose text is `words` followed by `word`.
fn named_answer(
    alloc: Global,
    status: Status,
    words: &[u8],
    word: &[u8],
) -> Result<Answer, AllocError>
    ensures { IfOk result (λ answer. answer ≡ record { status = status; text = words.now ++ word.now }) }
{
    let mut text = Vec::from_slice(alloc, words)?;
    text.extend_from_slice(word)?;
    Ok(Answer {
        status,
        text: Text::from(text),
    })
}
