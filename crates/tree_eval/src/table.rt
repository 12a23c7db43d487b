//! Tables of points, as functions of quantities.

ghost use Rattle.tree_eval.specs.Answers.{IsEvalResult};
ghost use Rattle.tree_eval.specs.Value as spec;

use crate::answer::number_answer;
use crate::fault::EvalFault;
use crate::refusal::Refusal;
use frac128::Frac;
use piecewise::TableFault;
use quantity::Quantity;
use std::alloc::Global;

// Returns the number of a quantity in the unit of a table.
pub(crate) fn number_in_unit(
    alloc: Global,
    name: &[u8],
    unit: &Quantity,
    q: &Quantity,
) -> Result<Quantity, EvalFault>
    ensures { IsEvalResult result (spec.value_in_table_unit name.now unit.now q.now) }
{
    if q.conforms(unit) {
        number_answer(alloc, q.value().div(&unit.value()))
    } else {
        Err(Refusal::WrongArgument.by(alloc, name))
    }
}

// Converts the result of a table lookup into a number.
pub(crate) fn looked_up(
    alloc: Global,
    name: &[u8],
    found: Result<Frac, TableFault>,
) -> Result<Quantity, EvalFault>
    ensures { IsEvalResult result (spec.table_lookup_value name.now found) }
{
    match found {
        Ok(x) => Ok(Quantity::number(alloc, x)),
        Err(TableFault::OutsideTable) => Err(Refusal::OutsideTable.by(alloc, name)),
        Err(TableFault::Number(fault)) => Err(EvalFault::of_number(alloc, fault)),
    }
}
