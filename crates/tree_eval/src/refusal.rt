//! The reasons for which a function refuses.

ghost use Rattle.std.specs.Prelude.{◌≡◌, IfOk};
ghost use Rattle.tree_eval.specs.Refusals as spec;

use crate::fault::{EvalFault, ValueFault};
use std::alloc::{AllocError, Global};
use units_io::Text;

/// Why a function refuses an argument or a result, or cannot be called.
#[derive(Clone, Copy)]
pub(crate) enum Refusal {
    NotInDomain,
    NotInRange,
    WrongArgument,
    WrongResult,
    NoInverse,
    OutsideTable,
    NeedsArgument,
    CallsTooDeep,
}

impl Refusal {
    // Returns the fault with the name of the function, or `OutOfMemory` if there is no memory for it.
    #[inline(never)]
    pub(crate) fn by(self, alloc: Global, name: &[u8]) -> EvalFault
        ensures { spec.IsEvalFault result (spec.eval_refusal_fault self name.now) }
    {
        match Text::from_bytes(alloc, name) {
            Ok(name) => EvalFault::of_value(alloc, self.with_name(name)),
            Err(_) => EvalFault::OutOfMemory,
        }
    }

    // Returns the fault with a copy of the name of the function. The only error is lack of memory.
    pub(crate) fn copy_fault(self, alloc: Global, name: &Text) -> Result<ValueFault, AllocError>
        ensures { IfOk result (λ fault. fault ≡ spec.eval_refusal_fault self name.now) }
    {
        Ok(self.with_name(name.copy(alloc)?))
    }

    // Returns the fault with this name.
    fn with_name(self, name: Text) -> ValueFault
        ensures { result ≡ spec.eval_refusal_fault self name }
    {
        match self {
            Refusal::NotInDomain => ValueFault::NotInDomain(name),
            Refusal::NotInRange => ValueFault::NotInRange(name),
            Refusal::WrongArgument => ValueFault::WrongArgument(name),
            Refusal::WrongResult => ValueFault::WrongResult(name),
            Refusal::NoInverse => ValueFault::NoInverse(name),
            Refusal::OutsideTable => ValueFault::OutsideTable(name),
            Refusal::NeedsArgument => ValueFault::NeedsArgument(name),
            Refusal::CallsTooDeep => ValueFault::CallsTooDeep(name),
        }
    }
}
