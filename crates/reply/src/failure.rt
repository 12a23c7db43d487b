//! Why an inquiry has no result.

use crate::fault::ReplyFault;
use frac128::FracFault;
use live_table::QueryFault;
use std::alloc::{AllocError, AllocFailed};
use tree_eval::ValueFault;

/// Why an inquiry has no result.
#[derive(Drop)]
pub(crate) enum Failure {
    /// A fault, which becomes the reply.
    Fault(ReplyFault),
    /// Memory ran out.
    OutOfMemory,
}

impl From<AllocError> for Failure {
    ghost use Rattle.std.specs.Prelude.{◌≡◌};
    ghost use Rattle.reply.specs.declared.failure.Failure.TheVariants.{OutOfMemory};

    ghost from_gives = { λ _ failure. failure ≡ OutOfMemory };

    fn from(_error: AllocError) -> Failure {
        Failure::OutOfMemory
    }
}

impl<T: Drop> From<AllocFailed<T>> for Failure {
    ghost use Rattle.std.specs.Prelude.{◌≡◌};
    ghost use Rattle.reply.specs.declared.failure.Failure.TheVariants.{OutOfMemory};

    ghost from_gives = { λ _ failure. failure ≡ OutOfMemory };

    fn from(_error: AllocFailed<T>) -> Failure {
        Failure::OutOfMemory
    }
}

impl From<FracFault> for Failure {
    ghost use Rattle.std.specs.Prelude.{◌≡◌};
    ghost use Rattle.reply.specs.declared.failure.Failure.TheVariants.{Fault};
    ghost use Rattle.reply.specs.declared.fault.ReplyFault.TheVariants.{Value};
    ghost use Rattle.tree_eval.specs.declared.fault.ValueFault.TheVariants.{Number};

    ghost from_gives = { λ fault failure. failure ≡ Fault (Value (Number fault)) };

    fn from(fault: FracFault) -> Failure {
        Failure::Fault(ReplyFault::Value(ValueFault::Number(fault)))
    }
}

impl From<QueryFault> for Failure {
    ghost use Rattle.std.specs.Prelude.{◌≡◌};
    ghost use Rattle.reply.specs.Calls.{inquiry_failure};

    ghost from_gives = { λ fault failure. failure ≡ inquiry_failure fault };

    fn from(fault: QueryFault) -> Failure {
        match fault {
            QueryFault::Name(fault) => Failure::Fault(ReplyFault::Name(fault)),
            QueryFault::Value(fault) => Failure::Fault(ReplyFault::Value(fault)),
            QueryFault::OutOfMemory => Failure::OutOfMemory,
        }
    }
}
