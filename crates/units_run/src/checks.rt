//! Writing the check report as it is made.

ghost use Rattle.std.specs.Prelude.{◌≡◌, ◌+◌, ◌++◌, ◌||◌, if◌then◌else◌, not};
ghost use Rattle.deck.specs.PlacedKeys.{deck_keys_at_places};
ghost use Rattle.deck.specs.Tables as tables;
ghost use Rattle.def_lines.specs.Words.{is_empty};
ghost use Rattle.live_table.specs.TableView.{IsAfterLiveEvents, IsRightLiveView};
ghost use Rattle.reply.specs.Options.{AreReplyOptionsPrintable, reply_style};
ghost use Rattle.survey.specs.Checks.{check_among, check_queries, queries_among};
ghost use Rattle.units_io.specs.Faults.{HasIoCountRisen};
ghost use Rattle.units_run.specs.Checks as spec;
ghost use Rattle.units_run.specs.Endings.{IsWorkedRunEnd};

use crate::check_plan::CheckPlan;
use crate::status::Status;
use session::leaves_law;
use std::alloc::Global;
use std::mem;
use std::sync::ledger::Ledger;
use survey::{KeyCheck, check_places, put_check_block};
use units_io::{Sink, Steps, put_all};

/// Writes a check report, which begins with the notices of the definitions. Its lines are written as they are made, so
/// that a long report takes no more memory than a short one. The table is never freed: the system reclaims its memory
/// when the process ends.
pub(crate) fn write_check<O: Sink, L: Ledger>(
    alloc: Global,
    plan: CheckPlan,
    out: &mut O,
    steps: &mut Steps<L>,
) -> Status
    requires { AreReplyOptionsPrintable plan.options }
    ensures written { spec.IsRunReportWritten (spec.planned_check_report plan) result (O.written out.old)
        (O.written out.new) }
    ensures steps { IsWorkedRunEnd result → steps.new ≡ steps.old + spec.planned_check_steps plan }
    ensures write { result ≡ Status.WriteFault → HasIoCountRisen (O.faults out.old) (O.faults out.new) }
{
    leaves_law();
    let mut plan = plan;
    let status = plan.write_report(alloc, out, steps);
    mem::forget(plan);
    status
}

impl CheckPlan {
    // Writes the notices and then the lines of the report.
    fn write_report<O: Sink, L: Ledger>(
        &mut self,
        alloc: Global,
        out: &mut O,
        steps: &mut Steps<L>,
    ) -> Status
        requires { AreReplyOptionsPrintable self.old.options }
        ensures written { spec.IsRunReportWritten (spec.planned_check_report self.old) result
            (O.written out.old) (O.written out.new) }
        ensures queries { IsWorkedRunEnd result
            → IsAfterLiveEvents (check_queries (tables.table_of_deck self.old.table.deck))
            self.old.table self.new.table steps.old steps.new }
        ensures write { result ≡ Status.WriteFault → HasIoCountRisen (O.faults out.old) (O.faults out.new) }
    {
        let Ok(places) = check_places(alloc, &mut self.table, steps) else {
            return Status::NoMemory;
        };
        // The cached outcomes in the table are right, even if it has no key.
        self.table.outcomes_are_right();
        self.write_blocks(alloc, places.as_slice(), out, steps)
    }

    // Writes the notices and then the lines of the keys at `places`, block by block.
    fn write_blocks<O: Sink, L: Ledger>(
        &mut self,
        alloc: Global,
        places: &[usize],
        out: &mut O,
        steps: &mut Steps<L>,
    ) -> Status
        requires printable { AreReplyOptionsPrintable self.old.options }
        requires right { IsRightLiveView self.old.table }
        ensures written { spec.IsRunReportWritten (self.old.notices.items
            ++ check_among (tables.table_of_deck self.old.table.deck) (reply_style self.old.options)
            (deck_keys_at_places self.old.table.deck.lines places.now)) result
            (O.written out.old) (O.written out.new) }
        ensures queries { IsWorkedRunEnd result → IsAfterLiveEvents
            (queries_among (tables.table_of_deck self.old.table.deck)
            (deck_keys_at_places self.old.table.deck.lines places.now))
            self.old.table self.new.table steps.old steps.new }
        ensures write { result ≡ Status.WriteFault → HasIoCountRisen (O.faults out.old) (O.faults out.new) }
    {
        let lines = &mut self.notices;
        let table = &mut self.table;
        let options = &self.options;
        let mut rest = places;
        let mut any = false;
        loop {
            let check = KeyCheck {
                options,
                places: rest,
            };
            let Ok(done) = put_check_block(alloc, lines, table, &check, steps) else {
                return Status::NoMemory;
            };
            let Ok(()) = put_all(out, lines.as_slice()) else {
                return Status::WriteFault;
            };
            any = has_bytes(any, lines.as_slice());
            lines.clear();
            rest = &rest[done..];
            if rest.is_empty() {
                return report_status(any);
            }
        }
    }
}

// Returns whether there are any bytes: these, or earlier ones, as `any` says.
fn has_bytes(any: bool, bytes: &[u8]) -> bool
    ensures { result ≡ (any || not (is_empty bytes.now)) }
{
    any || !bytes.is_empty()
}

// Returns the status for a check report; `any` says whether the report has any bytes.
fn report_status(any: bool) -> Status
    ensures { result ≡ (if any then Status.Refused else Status.Done) }
{
    if any { Status::Refused } else { Status::Done }
}
