//! A run over column input.

ghost use Rattle.std.specs.Prelude.{◌≡◌, ◌≤◌, [], List, ℕ, Some, true};
ghost use Rattle.live_table.specs.TableView.{IsAfterLiveEvents};
ghost use Rattle.reply.specs.Options.{AreReplyOptionsPrintable};
ghost use Rattle.session.specs.Outside.{SessionTookMoreThan};
ghost use Rattle.units_io.specs.Faults.{HasIoCountRisen};
ghost use Rattle.units_run.specs.ColumnOutputs.{AreColumnRunRowsWritten, is_column_run_over};
ghost use Rattle.units_run.specs.ColumnTasks as spec;

use crate::column_end::ColumnEnd;
use crate::column_input::read_input;
use crate::column_task::ColumnTask;
use column_convert::Columns;
use std::alloc::Global;
use std::sync::ledger::Ledger;
use units_io::{Sink, Source, Steps};

impl ColumnTask {
    /// Reads a source to its end and writes its records with the column converted. If there is a header, the first
    /// record stays as it is. The run ends with `Refused` if a cell is an error.
    pub fn run<S: Source, O: Sink, L: Ledger>(
        &mut self,
        alloc: Global,
        src: &mut S,
        out: &mut O,
        steps: &mut Steps<L>,
    ) -> ColumnEnd
        requires printable { AreReplyOptionsPrintable self.old.options }
        requires column { 1 ≤ self.old.column }
        ensures if_known { (input : List ℕ) → S.left src.old ≡ Some input →
            AreColumnRunRowsWritten (spec.column_run_rows_of_bytes self.old input) result (O.written out.old)
            (O.written out.new) }
        ensures queries { (input : List ℕ) → S.left src.old ≡ Some input → is_column_run_over result ≡ true →
            IsAfterLiveEvents (spec.column_run_queries_of_bytes self.old input) self.old.table self.new.table steps.old
            steps.new }
        ensures whole { (input : List ℕ) → S.left src.old ≡ Some input → is_column_run_over result ≡ true →
            S.left src.new ≡ Some [] }
        ensures read { result ≡ ColumnEnd.ReadFault → HasIoCountRisen (S.faults src.old) (S.faults src.new) }
        ensures write { result ≡ ColumnEnd.WriteFault → HasIoCountRisen (O.faults out.old) (O.faults out.new) }
        ensures too_long { result ≡ ColumnEnd.InputTooLong →
            SessionTookMoreThan 16777216 (S.taken src.old) (S.taken src.new) }
    {
        let input = match read_input(alloc, src) {
            Ok(input) => input,
            Err(end) => return end,
        };
        let Ok(mut columns) = Columns::new(alloc, input, self.column as usize, self.header) else {
            return ColumnEnd::NoMemory;
        };
        match self.write_rows(alloc, &mut columns, out, steps) {
            Ok(true) => ColumnEnd::Refused,
            Ok(false) => ColumnEnd::Done,
            Err(end) => end,
        }
    }
}
