//! Conversion of one column of a text of records.

ghost use Rattle.std.specs.Prelude.{◌≡◌, ◌≤◌, IfSome, None};
ghost use Rattle.edited_table.specs.Statuses.{status_code};
ghost use Rattle.edited_table.specs.TableValue.{c_query_table};
ghost use Rattle.edited_table.specs.declared.status.Status.TheVariants as statuses;
ghost use Rattle.units_c.specs.Columns as spec;
ghost use Rattle.units_c.specs.Delivery.{IsNothingHandedToC};
ghost use Rattle.units_c.specs.Options.{c_reply_options};
ghost use Rattle.units_c.specs.Tables.{IsCTableAnswered, IsCTableUnedited};

use crate::delivery::deliver;
use crate::options::UnitsOptions;
use crate::unit_table::UnitsTable;
use edited_table::{Column, Status, answer_column};
use reply::Question;
use std::alloc::Global;

/// A column of a text of records, and the units that its fields are converted from and to.
#[repr(C)]
pub struct UnitsColumn<'a> {
    pub from: &'a [u8],
    pub to: &'a [u8],
    /// The number of the column, from 1.
    pub number: usize,
    /// Whether the first record is a header, which is copied unchanged. Any byte but 0 means yes.
    pub header: u8,
}

/// Converts a column of a text of records, as `--column` does. Copies the rows to `out` and stores their length in
/// `written`. Returns the status code. A column number of 0 is an error, `BadOptions`.
#[unsafe(no_mangle)]
pub extern "C" fn units_convert_column(
    alloc: Global,
    table: &mut UnitsTable,
    column: &UnitsColumn<'_>,
    text: &[u8],
    options: &UnitsOptions,
    out: &mut [u8],
    written: &mut usize,
) -> u32
    ensures answer { 1 ≤ column.now.number → IfSome (c_reply_options options.now) (λ o.
        IsCTableAnswered table.old.handle.held (λ e. spec.c_column_answer (c_query_table e) o column.now text.now)
        out.old result written.new out.new) }
    ensures options { c_reply_options options.now ≡ None →
        IsNothingHandedToC (status_code statuses.BadOptions) result written.new out.old out.new }
    ensures number { column.now.number ≡ 0 →
        IsNothingHandedToC (status_code statuses.BadOptions) result written.new out.old out.new }
    ensures unedited { IsCTableUnedited table.old.handle.held table.new.handle.held }
{
    *written = 0;
    let Some(options) = options.read() else {
        return Status::BadOptions.code();
    };
    if column.number == 0 {
        return Status::BadOptions.code();
    }
    let Some(mut content) = table.take(alloc) else {
        return Status::Closed.code();
    };
    let column = Column {
        question: Question {
            options: &options,
            from: column.from,
            to: column.to,
        },
        number: column.number,
        has_header: column.header != 0,
    };
    let answered = answer_column(alloc, &mut content, &column, text);
    table.put(content);
    deliver(answered, out, written)
}
