//! The result of an evaluation that stores its value in a place of its caller.

ghost use Rattle.std.specs.Prelude.{◌≡◌, Ok};

use crate::fault::EvalFault;
use crate::kept_fault::KeptFault;
use std::alloc::AllocError;
use std::marker::Model;
use std::ops::{ControlFlow, FromResidual, Try};

/// Whether an evaluation has stored its value, or why not. Contracts see a `Result<(), EvalFault>`. Code that nests does
/// not return that type: it is one word larger and does not fit in two registers, so each call would need room for it on
/// the stack.
#[derive(Drop)]
pub(crate) struct EvalStatus {
    status: Status,
}

#[derive(Drop)]
enum Status {
    Success,
    Fault(KeptFault),
    OutOfMemory,
}

impl Model for EvalStatus {
    ghost use Rattle.std.specs.Prelude.{Result, ⊤};
    ghost use Rattle.tree_eval.specs.declared.fault.EvalFault.{EvalFault};
    ghost use Rattle.std.specs.Coded.{codes};
    ghost use Rattle.tree_eval.specs.contracts.fault.EvalFault as stored;

    ghost Value = { Result ⊤ EvalFault };

    ghost coded = { Prim.hlevel (codes, stored.the_row.coded) };

    ghost use Rattle.tree_eval.specs.Statuses.{result_of_status};

    ghost view = { λ s. result_of_status s.status };
}

impl EvalStatus {
    // The status of an evaluation that has stored its value.
    #[inline(always)]
    pub(crate) fn success() -> EvalStatus
        ensures { result ≡ Ok tt }
    {
        EvalStatus {
            status: Status::Success,
        }
    }

    // Converts a result into a status.
    #[inline(always)]
    pub(crate) fn of_result(value: Result<(), EvalFault>) -> EvalStatus
        ensures { result ≡ value }
    {
        let status = match value {
            Ok(()) => Status::Success,
            Err(EvalFault::Value(fault)) => Status::Fault(fault),
            Err(EvalFault::OutOfMemory) => Status::OutOfMemory,
        };
        EvalStatus { status }
    }

    // Converts this status into a result.
    #[inline(always)]
    pub(crate) fn into_result(self) -> Result<(), EvalFault>
        ensures { result ≡ self }
    {
        let EvalStatus { status } = self;
        match status {
            Status::Success => Ok(()),
            Status::Fault(fault) => Err(EvalFault::Value(fault)),
            Status::OutOfMemory => Err(EvalFault::OutOfMemory),
        }
    }
}

impl Try for EvalStatus {
    ghost use Rattle.std.specs.Prelude.{◌≡◌};
    ghost use Rattle.std.specs.Result.{result_from_control_flow};

    type Output = ();

    type Residual = <Result<(), EvalFault> as Try>::Residual;

    ghost branch_gives = { λ s r. s ≡ result_from_control_flow r };

    #[inline(always)]
    fn branch(self) -> ControlFlow<<Result<(), EvalFault> as Try>::Residual, ()> {
        self.into_result().branch()
    }

    #[inline(always)]
    fn from_output(_output: ()) -> EvalStatus {
        EvalStatus::success()
    }
}

impl FromResidual<<Result<(), EvalFault> as Try>::Residual> for EvalStatus {
    ghost use Rattle.std.specs.Prelude.{◌≡◌, Err};

    ghost from_residual_gives = { λ e s. s ≡ Err e.0 };

    #[inline(always)]
    fn from_residual(residual: <Result<(), EvalFault> as Try>::Residual) -> EvalStatus {
        EvalStatus::of_result(Result::from_residual(residual))
    }
}

impl FromResidual<<Result<(), AllocError> as Try>::Residual> for EvalStatus {
    ghost use Rattle.std.specs.Prelude.{◌≡◌, Err};
    ghost use Rattle.tree_eval.specs.declared.fault.EvalFault.TheVariants.{OutOfMemory};

    ghost from_residual_gives = { λ _ s. s ≡ Err OutOfMemory };

    #[inline(always)]
    fn from_residual(_residual: <Result<(), AllocError> as Try>::Residual) -> EvalStatus {
        EvalStatus {
            status: Status::OutOfMemory,
        }
    }
}
