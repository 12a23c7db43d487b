//! The conversion of a column.

ghost use Rattle.std.specs.Prelude.{◌≡◌, ◌≤◌, ◌⊎◌, [], List, ℕ, Some};
ghost use Rattle.reply.specs.Options.{AreReplyOptionsPrintable};
ghost use Rattle.session.specs.Outside.{SessionTookMoreThan};
ghost use Rattle.units_io.specs.Bytes.{sink_bytes_append};
ghost use Rattle.units_io.specs.Faults.{HasIoCountRisen};
ghost use Rattle.units_run.specs.Endings as spec;
ghost use Rattle.units_run.specs.ProgramPlans as planning;

use crate::column_end::ColumnEnd;
use crate::column_plan::ColumnPlan;
use crate::status::Status;
use session::leaves_law;
use std::alloc::Global;
use std::mem;
use std::sync::ledger::Ledger;
use units_io::{Sink, Source, Steps, put_all};

impl ColumnPlan {
    /// Writes the notices, reads the input to its end, and then writes its rows.
    pub(crate) fn convert_column<S: Source, O: Sink, E: Sink, L: Ledger>(
        self,
        alloc: Global,
        src: &mut S,
        out: &mut O,
        err: &mut E,
        steps: &mut Steps<L>,
    ) -> Status
        requires { AreReplyOptionsPrintable self.task.options × (1 ≤ self.task.column) }
        ensures if_known { planning.IsColumnPlanConverted self result
            (planning.run_ends (S.left src.old) (O.written out.old) (E.written err.old) steps.old)
            (planning.run_ends (S.left src.new) (O.written out.new) (E.written err.new) steps.new) }
        ensures noticed { ((src.new ≡ src.old) × (out.new ≡ out.old))
            ⊎ (E.written err.new ≡ sink_bytes_append (E.written err.old) self.notices.items) }
        ensures ends { spec.IsStatedRunEnd result → spec.IsWorkedRunEnd result }
        ensures whole { (input : List ℕ) → S.left src.old ≡ Some input → spec.IsWorkedRunEnd result →
            S.left src.new ≡ Some [] }
        ensures read { result ≡ Status.ReadFault → HasIoCountRisen (S.faults src.old) (S.faults src.new) }
        ensures write { result ≡ Status.WriteFault →
            HasIoCountRisen (O.faults out.old) (O.faults out.new)
            ⊎ HasIoCountRisen (E.faults err.old) (E.faults err.new) }
        ensures too_long { result ≡ Status.InputTooLong
            → SessionTookMoreThan 16777216 (S.taken src.old) (S.taken src.new) }
    {
        leaves_law();
        let mut plan = self;
        let Ok(()) = put_all(err, plan.notices.as_slice()) else {
            return Status::WriteFault;
        };
        let end = plan.task.run(alloc, src, out, steps);
        mem::forget(plan);
        status_of(end)
    }
}

// Returns the status for the end of a column conversion.
fn status_of(end: ColumnEnd) -> Status
    ensures { result ≡ spec.run_status_of_column_end end }
{
    match end {
        ColumnEnd::Done => Status::Done,
        ColumnEnd::Refused => Status::Refused,
        ColumnEnd::ReadFault => Status::ReadFault,
        ColumnEnd::WriteFault => Status::WriteFault,
        ColumnEnd::NoMemory => Status::NoMemory,
        ColumnEnd::InputTooLong => Status::InputTooLong,
    }
}
