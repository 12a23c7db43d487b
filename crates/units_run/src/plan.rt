//! The plan that the words lead to before any input is read.
ghost use Rattle.std.specs.Prelude.{◌≡◌, ◌||◌, ℕ, Bool, true, IfOk};
ghost use Rattle.units_io.specs.FileMap.{FileMap};
ghost use Rattle.units_run.specs.Endings.{RunMayEnd};
ghost use Rattle.units_run.specs.ProgramPlans.{IsPlanned, IsPossiblePlan};
ghost use Rattle.units_run.specs.Plans as spec;

use crate::check_plan::CheckPlan;
use crate::column_plan::ColumnPlan;
use crate::status::Status;
use session::{OutputBuffers, Session};
use std::alloc::{AllocError, Global};

/// The plan that the words lead to before any input is read.
#[derive(Drop)]
pub(crate) enum Plan {
    /// All output of a run, and its status once that is written.
    Whole(OutputBuffers, Status),
    /// A check report to be written.
    Check(CheckPlan),
    /// A session, and the output before its first line.
    Opened(OutputBuffers, Session),
    /// A column of the input to be converted.
    Columns(ColumnPlan),
}

impl Plan {
    /// Returns the plan that writes a text to `err`, and nothing else.
    pub(crate) fn complaint(alloc: Global, text: &[u8], status: Status) -> Result<Plan, AllocError>
        ensures if_known { (m : FileMap) (n : ℕ) → IsPlanned (spec.complaint_plan text.now status) m result n n }
        ensures kind { (taken file session column : Bool) → ((session || column) ≡ true → status ≡ Status.NoFile) →
            RunMayEnd taken file session status → IfOk result (IsPossiblePlan taken file session column) }
    {
        let buffers = OutputBuffers {
            out: Vec::new(alloc),
            err: Vec::from_slice(alloc, text)?,
        };
        Ok(Plan::Whole(buffers, status))
    }
}
