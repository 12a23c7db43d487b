//! Answers to searches.

ghost use Rattle.std.specs.Prelude.{◌≡◌, IfOk};
ghost use Rattle.edited_table.specs.TableValue.{c_query_table};
ghost use Rattle.edited_table.specs.declared.status.Status.TheVariants as statuses;
ghost use Rattle.survey.specs.Searches.{search_report as report};

use crate::answer::Answer;
use crate::edited_table::EditedTable;
use crate::status::Status;
use std::alloc::{AllocError, Global};
use survey::search_report;

/// Searches for definitions whose names contain `text`, and returns the answer.
pub fn answer_search(
    alloc: Global,
    content: &EditedTable,
    text: &[u8],
) -> Result<Answer, AllocError>
    ensures { IfOk result (λ answer.
        answer ≡ record { status = statuses.Done; text = report (c_query_table content.now) text.now }) }
{
    let text = search_report(alloc, content.table(), text)?;
    let status = Status::Done;
    Ok(Answer { status, text })
}
