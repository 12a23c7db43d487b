//! The answers to undos and redos.

ghost use Rattle.std.specs.Prelude.{◌≡◌, ◌≢◌, Err, IfErr, IfOk, IsErr, codes};
ghost use Rattle.edit_history.specs.declared.fault.HistoryFault.TheVariants as history_fault;
ghost use Rattle.edited_table.specs.TurnAnswers as spec;
ghost use Rattle.edited_table.specs.declared.status.Status.TheVariants as statuses;

use crate::answer::Answer;
use crate::edit_answer::{edit_made, text_answer};
use crate::edited_table::EditedTable;
use crate::status::Status;
use edit_history::HistoryFault;
use std::alloc::{AllocError, Global};

/// Undoes the last edit that is not undone, and returns the answer.
pub fn answer_undo(alloc: Global, content: &mut EditedTable) -> Result<Answer, AllocError>
    ensures answer { IfOk result (λ answer. answer
        ≡ spec.c_turn_answer statuses.NothingToUndo (codes "nothing to undo") content.old.history.done_steps) }
    ensures undone { spec.IsAnsweredCTurn spec.IsCEditUndone result content.old content.new }
{
    let turned = content.history.undo(alloc, &mut content.table);
    answer_turn(alloc, turned)
}

/// Redoes the last undone edit, and returns the answer.
pub fn answer_redo(alloc: Global, content: &mut EditedTable) -> Result<Answer, AllocError>
    ensures answer { IfOk result (λ answer. answer
        ≡ spec.c_turn_answer statuses.NothingToRedo (codes "nothing to redo") content.old.history.undone) }
    ensures redone { spec.IsAnsweredCTurn spec.IsCEditRedone result content.old content.new }
{
    let turned = content.history.redo(alloc, &mut content.table);
    answer_turn(alloc, turned)
}

// Returns the answer to an undo or a redo with this outcome.
fn answer_turn(alloc: Global, turned: Result<(), HistoryFault>) -> Result<Answer, AllocError>
    ensures answer { IfOk result (λ answer. answer ≡ spec.c_turned_answer turned) }
    ensures known { IfOk result (λ _. turned ≢ Err history_fault.OutOfMemory) }
    ensures refused { IfErr result (λ _. IsErr turned) }
{
    match turned {
        Ok(()) => Ok(edit_made(alloc)),
        Err(HistoryFault::NothingToUndo) => {
            text_answer(alloc, Status::NothingToUndo, b"nothing to undo")
        }
        Err(HistoryFault::NothingToRedo) => {
            text_answer(alloc, Status::NothingToRedo, b"nothing to redo")
        }
        Err(HistoryFault::OutOfMemory) => Err(AllocError),
    }
}
