//! Conversions.

ghost use Rattle.std.specs.Prelude.{◌≡◌, IfSome, None};
ghost use Rattle.edited_table.specs.Answers as spec;
ghost use Rattle.edited_table.specs.Statuses.{status_code};
ghost use Rattle.edited_table.specs.TableValue.{c_query_table};
ghost use Rattle.edited_table.specs.declared.status.Status.TheVariants as statuses;
ghost use Rattle.units_c.specs.Delivery.{IsNothingHandedToC};
ghost use Rattle.units_c.specs.Options.{c_reply_options};
ghost use Rattle.units_c.specs.Tables.{IsCTableAnswered, IsCTableUnedited};

use crate::delivery::deliver;
use crate::options::UnitsOptions;
use crate::unit_table::UnitsTable;
use edited_table::{Status, answer_conversion};
use std::alloc::Global;

/// Converts `from` to `to`. Copies the reply of the program to `out` and stores its length in `written`. Returns the
/// status code.
#[unsafe(no_mangle)]
pub extern "C" fn units_convert(
    alloc: Global,
    table: &mut UnitsTable,
    from: &[u8],
    to: &[u8],
    options: &UnitsOptions,
    out: &mut [u8],
    written: &mut usize,
) -> u32
    ensures answer { IfSome (c_reply_options options.now) (λ o. IsCTableAnswered table.old.handle.held
        (λ e. spec.c_conversion_answer (c_query_table e) o from.now to.now)
        out.old result written.new out.new) }
    ensures options { c_reply_options options.now ≡ None →
        IsNothingHandedToC (status_code statuses.BadOptions) result written.new out.old out.new }
    ensures unedited { IsCTableUnedited table.old.handle.held table.new.handle.held }
{
    *written = 0;
    let Some(options) = options.read() else {
        return Status::BadOptions.code();
    };
    let Some(mut content) = table.take(alloc) else {
        return Status::Closed.code();
    };
    let answered = answer_conversion(alloc, &mut content, &options, from, to);
    table.put(content);
    deliver(answered, out, written)
}
