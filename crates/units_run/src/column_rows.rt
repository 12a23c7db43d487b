//! Writing the rows of a column block by block.

ghost use Rattle.std.specs.Prelude.{◌≡◌, ◌||◌, ◌≤◌, IfErr, IfOk, IsErrOf, OnOk};
ghost use Rattle.live_table.specs.TableView.{IsAfterLiveEvents};
ghost use Rattle.reply.specs.Options.{AreReplyOptionsPrintable};
ghost use Rattle.units_io.specs.Bytes.{sink_bytes_append, SinkGrowsByPrefix};
ghost use Rattle.units_io.specs.Faults.{HasIoCountRisen};
ghost use Rattle.column_convert.specs.Blocks.{is_error_row, text_of_rows};
ghost use Rattle.units_run.specs.ColumnEndings.{IsColumnRunStopped};
ghost use Rattle.units_run.specs.ColumnTasks as spec;
ghost use Rattle.units_run.specs.declared.column_end.ColumnEnd.TheVariants as end;

use crate::column_end::ColumnEnd;
use crate::column_task::ColumnTask;
use column_convert::{Columns, blocks_law};
use reply::Question;
use std::alloc::Global;
use std::sync::ledger::Ledger;
use units_io::{Sink, Steps, put_all};

// The largest number of rows that are written at once.
const MOST_ROWS: usize = 1_024;

impl ColumnTask {
    /// Writes the rows that are left and returns whether a cell of them is an error.
    pub(crate) fn write_rows<O: Sink, L: Ledger>(
        &mut self,
        alloc: Global,
        columns: &mut Columns,
        out: &mut O,
        steps: &mut Steps<L>,
    ) -> Result<bool, ColumnEnd>
        requires { AreReplyOptionsPrintable self.old.options }
        ensures whole { OnOk result
            (O.written out.new ≡ sink_bytes_append (O.written out.old)
            (text_of_rows (spec.column_run_rows self.old columns.old))) }
        ensures front { SinkGrowsByPrefix (O.written out.old) (O.written out.new)
            (text_of_rows (spec.column_run_rows self.old columns.old)) }
        ensures refused { IfOk result (λ refused. refused ≡ is_error_row (spec.column_run_rows self.old columns.old)) }
        ensures queries { OnOk result (IsAfterLiveEvents (spec.column_run_queries self.old columns.old)
            self.old.table self.new.table steps.old steps.new) }
        ensures write { IsErrOf result end.WriteFault → HasIoCountRisen (O.faults out.old) (O.faults out.new) }
        ensures stopped { IfErr result IsColumnRunStopped }
        ensures later { O.faults out.old ≤ O.faults out.new }
    {
        blocks_law();
        let table = &mut self.table;
        let options = &self.options;
        let from = self.from.as_bytes();
        let to = self.to.as_bytes();
        let question = Question { options, from, to };
        // The cached outcomes are right, even if there is no row.
        table.outcomes_are_right();
        let mut refused = false;
        loop {
            let block = columns.next_rows(alloc, table, &question, MOST_ROWS, steps)?;
            if block.rows == 0 {
                return Ok(refused);
            }
            refused = either(refused, block.refused);
            match put_all(out, block.text.as_bytes()) {
                Ok(()) => {}
                Err(_) => return Err(ColumnEnd::WriteFault),
            }
        }
    }
}

// Returns whether either is true.
fn either(a: bool, b: bool) -> bool
    ensures { result ≡ (a || b) }
{
    a || b
}
