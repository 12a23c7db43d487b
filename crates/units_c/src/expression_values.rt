//! Values of expressions.

ghost use Rattle.std.specs.Prelude.{◌≡◌, ◌≢◌, IfOk, IfSome};
ghost use Rattle.edited_table.specs.Answers as spec;
ghost use Rattle.edited_table.specs.Statuses.{status_code};
ghost use Rattle.edited_table.specs.TableValue.{c_definitions_of, c_query_table};
ghost use Rattle.edited_table.specs.declared.status.Status.TheVariants as statuses;
ghost use Rattle.units_c.specs.Numbers.{HasCNumber};
ghost use Rattle.units_c.specs.Tables.{IsCTableAnswered, IsCTableUnedited};

use crate::delivery::deliver;
use crate::number::UnitsNumber;
use crate::unit_table::UnitsTable;
use edited_table::{Answer, EditedTable, Status, answer_value};
use std::alloc::{AllocError, Global};

/// Evaluates an expression. Stores its number in `number` and copies its dimension, such as `kg m^2 / s^2`, to `out`.
/// Returns the status code. If the expression has a fault, `out` gets the text of the fault.
#[unsafe(no_mangle)]
pub extern "C" fn units_value(
    alloc: Global,
    table: &mut UnitsTable,
    expression: &[u8],
    number: &mut UnitsNumber,
    out: &mut [u8],
    written: &mut usize,
) -> u32
    ensures answer { IsCTableAnswered table.old.handle.held
        (λ e. spec.c_value_answer spec.c_exact_options (spec.c_value_of (c_query_table e) expression.now))
        out.old result written.new out.new }
    ensures number { result ≢ status_code statuses.NoMemory → IfSome table.old.handle.held
        (λ e. HasCNumber number.new (spec.c_value_of (c_query_table e) expression.now)) }
    ensures unedited { IsCTableUnedited table.old.handle.held table.new.handle.held }
{
    *written = 0;
    let Some(mut content) = table.take(alloc) else {
        return Status::Closed.code();
    };
    let answered = store_value(alloc, &mut content, expression, number);
    table.put(content);
    deliver(answered, out, written)
}

// Evaluates an expression, stores its number, and returns the answer.
fn store_value(
    alloc: Global,
    content: &mut EditedTable,
    expression: &[u8],
    number: &mut UnitsNumber,
) -> Result<Answer, AllocError>
    ensures answer { IfOk result (λ answer. answer
        ≡ spec.c_value_answer spec.c_exact_options (spec.c_value_of (c_query_table content.old) expression.now)) }
    ensures number { IfOk result (λ _.
        HasCNumber number.new (spec.c_value_of (c_query_table content.old) expression.now)) }
    ensures unedited { c_definitions_of content.new ≡ c_definitions_of content.old }
{
    let (answer, value) = answer_value(alloc, content, expression)?;
    if let Some(x) = value {
        number.set(&x);
    }
    Ok(answer)
}
