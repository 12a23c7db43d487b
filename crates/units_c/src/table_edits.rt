//! Edits of an open table. A refused edit changes nothing, nor does an edit that runs out of memory.

ghost use Rattle.std.specs.Prelude.{◌≡◌, [], codes};
ghost use Rattle.def_lines.specs.Blanks.{trimmed_of_blanks};
ghost use Rattle.deck.specs.Edits.{deck_after_defining};
ghost use Rattle.def_entry.specs.Keys.{key_of_spelling};
ghost use Rattle.edited_table.specs.EditAnswers as answers;
ghost use Rattle.edited_table.specs.TurnAnswers as turns;
ghost use Rattle.edited_table.specs.declared.status.Status.TheVariants as statuses;
ghost use Rattle.units_c.specs.Edits as spec;
ghost use Rattle.units_c.specs.Tables.{IsCTableAnswered};

use crate::delivery::deliver;
use crate::unit_table::UnitsTable;
use edited_table::{Status, answer_define, answer_drop, answer_redo, answer_undo};
use std::alloc::Global;

/// Adds the definition in `line`, as `:define` does in a session. Returns the status code. If the edit is refused,
/// `out` gets the reason.
#[unsafe(no_mangle)]
pub extern "C" fn units_define(
    alloc: Global,
    table: &mut UnitsTable,
    line: &[u8],
    out: &mut [u8],
    written: &mut usize,
) -> u32
    ensures answer { IsCTableAnswered table.old.handle.held
        (λ e. answers.c_table_edit_answer (deck_after_defining (trimmed_of_blanks line.now) e.table.deck) [])
        out.old result written.new out.new }
    ensures edited { spec.LeavesCDeck result
        (λ deck. answers.c_deck_after_edit (deck_after_defining (trimmed_of_blanks line.now) deck) deck)
        table.old.handle.held table.new.handle.held }
    ensures noted { spec.NotesCEdit result table.old.handle.held table.new.handle.held }
{
    *written = 0;
    let Some(mut content) = table.take(alloc) else {
        return Status::Closed.code();
    };
    let answered = answer_define(alloc, &mut content, line);
    table.put(content);
    deliver(answered, out, written)
}

/// Removes the last active definition of a key, written as in `:drop`. Returns the status code. If the edit is refused,
/// `out` gets the reason.
#[unsafe(no_mangle)]
pub extern "C" fn units_drop(
    alloc: Global,
    table: &mut UnitsTable,
    key: &[u8],
    out: &mut [u8],
    written: &mut usize,
) -> u32
    ensures answer { IsCTableAnswered table.old.handle.held
        (λ e. answers.c_drop_answer (answers.c_drop_outcome (key_of_spelling key.now) e.table.deck) key.now)
        out.old result written.new out.new }
    ensures edited { spec.LeavesCDeck result
        (λ deck. answers.c_deck_after_drop (answers.c_drop_outcome (key_of_spelling key.now) deck) deck)
        table.old.handle.held table.new.handle.held }
    ensures noted { spec.NotesCEdit result table.old.handle.held table.new.handle.held }
{
    *written = 0;
    let Some(mut content) = table.take(alloc) else {
        return Status::Closed.code();
    };
    let answered = answer_drop(alloc, &mut content, key);
    table.put(content);
    deliver(answered, out, written)
}

/// Undoes the last edit that is not undone. Returns the status code, which is that of `NothingToUndo` if there is none.
#[unsafe(no_mangle)]
pub extern "C" fn units_undo(
    alloc: Global,
    table: &mut UnitsTable,
    out: &mut [u8],
    written: &mut usize,
) -> u32
    ensures answer { IsCTableAnswered table.old.handle.held
        (λ e. turns.c_turn_answer statuses.NothingToUndo (codes "nothing to undo") e.history.done_steps)
        out.old result written.new out.new }
    ensures undone { spec.TurnsCTable turns.IsCEditUndone result table.old.handle.held table.new.handle.held }
{
    *written = 0;
    let Some(mut content) = table.take(alloc) else {
        return Status::Closed.code();
    };
    let answered = answer_undo(alloc, &mut content);
    table.put(content);
    deliver(answered, out, written)
}

/// Redoes the last undone edit. Returns the status code, which is that of `NothingToRedo` if there is none.
#[unsafe(no_mangle)]
pub extern "C" fn units_redo(
    alloc: Global,
    table: &mut UnitsTable,
    out: &mut [u8],
    written: &mut usize,
) -> u32
    ensures answer { IsCTableAnswered table.old.handle.held
        (λ e. turns.c_turn_answer statuses.NothingToRedo (codes "nothing to redo") e.history.undone)
        out.old result written.new out.new }
    ensures redone { spec.TurnsCTable turns.IsCEditRedone result table.old.handle.held table.new.handle.held }
{
    *written = 0;
    let Some(mut content) = table.take(alloc) else {
        return Status::Closed.code();
    };
    let answered = answer_redo(alloc, &mut content);
    table.put(content);
    deliver(answered, out, written)
}
