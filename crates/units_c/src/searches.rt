//! Searches.

ghost use Rattle.edited_table.specs.TableValue.{c_query_table};
ghost use Rattle.edited_table.specs.declared.status.Status.TheVariants as statuses;
ghost use Rattle.survey.specs.Searches.{search_report as report};
ghost use Rattle.units_c.specs.Tables.{IsCTableAnswered, IsCTableUnedited};

use crate::delivery::deliver;
use crate::unit_table::UnitsTable;
use edited_table::{Status, answer_search};
use std::alloc::Global;

/// Lists the definitions whose names contain `text`, one per line, as `search` does in a session. Returns the status
/// code.
#[unsafe(no_mangle)]
pub extern "C" fn units_search(
    alloc: Global,
    table: &mut UnitsTable,
    text: &[u8],
    out: &mut [u8],
    written: &mut usize,
) -> u32
    ensures answer { IsCTableAnswered table.old.handle.held
        (λ e. record { status = statuses.Done; text = report (c_query_table e) text.now })
        out.old result written.new out.new }
    ensures unedited { IsCTableUnedited table.old.handle.held table.new.handle.held }
{
    *written = 0;
    let Some(content) = table.take(alloc) else {
        return Status::Closed.code();
    };
    let answered = answer_search(alloc, &content, text);
    table.put(content);
    deliver(answered, out, written)
}
