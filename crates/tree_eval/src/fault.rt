//! Why an expression has no value.

ghost use Rattle.std.specs.Prelude.{◌≡◌, IfOk};
ghost use Rattle.tree_eval.specs.Refusals.{IsEvalFault, IsEvalStepFault};

use crate::kept_fault::KeptFault;
use crate::refusal::Refusal;
use frac128::FracFault;
use quantity::{Quantity, QuantityFault};
use std::alloc::{AllocError, Global};
use units_io::Text;

/// Why an expression has no value. A `Text` is the name of the function.
pub enum ValueFault {
    /// A step on numbers has no result.
    Number(FracFault),
    /// Two quantities of a sum or difference have different exponents. The fault holds both.
    NotConformable(Quantity, Quantity),
    /// The exponent of a power is not a plain number.
    ExponentNotNumber,
    /// An exponent is out of range.
    ExponentRange,
    /// The number of a function's argument is outside its domain.
    NotInDomain(Text),
    /// The number of a function's result is outside its range.
    NotInRange(Text),
    /// The argument does not conform to the function.
    WrongArgument(Text),
    /// The result does not conform to the function.
    WrongResult(Text),
    /// The function has no inverse.
    NoInverse(Text),
    /// No segment of the table holds the number.
    OutsideTable(Text),
    /// The function is used without an argument.
    NeedsArgument(Text),
    /// The rank of the function is above 16.
    CallsTooDeep(Text),
}

// Written by hand, so that code that drops a fault need not prove anything about each kind of fault.
impl Drop for ValueFault {
    fn drop(self) {
        match self {
            ValueFault::Number(_) | ValueFault::ExponentNotNumber | ValueFault::ExponentRange => (),
            ValueFault::NotConformable(_, _) => (),
            ValueFault::NotInDomain(_)
            | ValueFault::NotInRange(_)
            | ValueFault::WrongArgument(_)
            | ValueFault::WrongResult(_)
            | ValueFault::NoInverse(_)
            | ValueFault::OutsideTable(_)
            | ValueFault::NeedsArgument(_)
            | ValueFault::CallsTooDeep(_) => (),
        }
    }
}

/// Why an evaluation has no result.
#[derive(Drop)]
pub enum EvalFault {
    /// The expression has no value.
    // Evaluations nest, and so do their results: each has room for a pointer, but not for two quantities.
    Value(KeptFault),
    /// Memory ran out.
    OutOfMemory,
}

impl ValueFault {
    /// Returns an equal fault. The only error is lack of memory.
    pub fn copy(&self, alloc: Global) -> Result<ValueFault, AllocError>
        ensures { IfOk result (λ fault. fault ≡ self.now) }
    {
        match self {
            ValueFault::Number(fault) => Ok(ValueFault::Number(*fault)),
            ValueFault::NotConformable(x, y) => copy_unlike(alloc, x, y),
            ValueFault::ExponentNotNumber => Ok(ValueFault::ExponentNotNumber),
            ValueFault::ExponentRange => Ok(ValueFault::ExponentRange),
            ValueFault::NotInDomain(name) => Refusal::NotInDomain.copy_fault(alloc, name),
            ValueFault::NotInRange(name) => Refusal::NotInRange.copy_fault(alloc, name),
            ValueFault::WrongArgument(name) => Refusal::WrongArgument.copy_fault(alloc, name),
            ValueFault::WrongResult(name) => Refusal::WrongResult.copy_fault(alloc, name),
            ValueFault::NoInverse(name) => Refusal::NoInverse.copy_fault(alloc, name),
            ValueFault::OutsideTable(name) => Refusal::OutsideTable.copy_fault(alloc, name),
            ValueFault::NeedsArgument(name) => Refusal::NeedsArgument.copy_fault(alloc, name),
            ValueFault::CallsTooDeep(name) => Refusal::CallsTooDeep.copy_fault(alloc, name),
        }
    }
}

// Returns the fault of two quantities that do not conform, with copies of both.
fn copy_unlike(alloc: Global, x: &Quantity, y: &Quantity) -> Result<ValueFault, AllocError>
    ensures { IfOk result (λ fault. fault ≡ ValueFault.NotConformable x.now y.now) }
{
    let x = x.copy(alloc)?;
    let y = y.copy(alloc)?;
    Ok(ValueFault::NotConformable(x, y))
}

impl From<AllocError> for EvalFault {
    ghost use Rattle.std.specs.Prelude.{◌≡◌};
    ghost use Rattle.tree_eval.specs.declared.fault.EvalFault.TheVariants.{OutOfMemory};

    ghost from_gives = { λ _ fault. fault ≡ OutOfMemory };

    fn from(_error: AllocError) -> EvalFault {
        EvalFault::OutOfMemory
    }
}

impl EvalFault {
    // Wraps a fault. Returns `OutOfMemory` if there is no memory for it.
    pub(crate) fn of_value(alloc: Global, fault: ValueFault) -> EvalFault
        ensures { IsEvalFault result fault }
    {
        match KeptFault::new(alloc, fault) {
            Ok(fault) => EvalFault::Value(fault),
            Err(_) => EvalFault::OutOfMemory,
        }
    }

    // Wraps the fault of a step on numbers. Returns `OutOfMemory` if there is no memory for it.
    pub(crate) fn of_number(alloc: Global, fault: FracFault) -> EvalFault
        ensures { IsEvalFault result (ValueFault.Number fault) }
    {
        EvalFault::of_value(alloc, ValueFault::Number(fault))
    }

    // Wraps the fault of a step on quantities. Returns `OutOfMemory` if there is no memory for it.
    pub(crate) fn of_step(alloc: Global, fault: QuantityFault) -> EvalFault
        ensures { IsEvalStepFault fault result }
    {
        match fault {
            QuantityFault::Number(fault) => EvalFault::of_number(alloc, fault),
            QuantityFault::NotConformable(x, y) => {
                EvalFault::of_value(alloc, ValueFault::NotConformable(x, y))
            }
            QuantityFault::ExponentNotNumber => {
                EvalFault::of_value(alloc, ValueFault::ExponentNotNumber)
            }
            QuantityFault::ExponentRange => EvalFault::of_value(alloc, ValueFault::ExponentRange),
            QuantityFault::OutOfMemory => EvalFault::OutOfMemory,
        }
    }
}
