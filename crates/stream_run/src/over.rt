//! The run of the program over a reader and two writers of the standard library.
ghost use Rattle.std.specs.Prelude.{◌≡◌, ◌⊎◌, ℕ, List, [], Some, false};
ghost use Rattle.std.specs.Option.{unwrap_or};
ghost use Rattle.session.specs.HeardLines.{HeardInputNamesNoFile};
ghost use Rattle.session.specs.KnownContents.{IsSessionValueIfKnown};
ghost use Rattle.session.specs.Outside.{SessionSinkGrowsAtLeast};
ghost use Rattle.session.specs.Worlds.{session_files_seen};
ghost use Rattle.stream_run.specs.StreamRuns.{stream_world, untouched_reader, untouched_writer};
ghost use Rattle.units_io.specs.FileMap.{FileMap};
ghost use Rattle.units_run.specs.GrantedConversions.{RunGrantsExactly};
ghost use Rattle.units_run.specs.Headline.{IsRun};
ghost use Rattle.units_run.specs.LeftAlone.{RunOpensNoSession, RunTakesNoInput};
ghost use Rattle.units_run.specs.Needs.{run_needs_definitions, run_needs_files};
ghost use Rattle.units_run.specs.Openings as openings;
ghost use Rattle.units_run.specs.Work.{plan_of};

use std::alloc::Global;
use std::sync::ledger::Ledger;
use units_io::{Files, StdSink, StdSource, SteadyRead, SteadyWrite, Steps, Text, Vars};
use units_run::{Status, units_main};

/// What a run leaves.
#[derive(Drop)]
pub struct Ran<R: SteadyRead, O: SteadyWrite, E: SteadyWrite, F> {
    pub status: Status,
    pub source: StdSource<R>,
    pub out: StdSink<O>,
    pub err: StdSink<E>,
    pub files: F,
}

/// Runs the program over this reader, these writers and these files. No failure of a stream is counted before.
///
/// The clauses are those of `units_main`, where the reader's bytes are those that it tells, and the writers' bytes are
/// those that they tell, or else those that they accepted in this run.
pub fn run_over<R, O, E, F, L>(
    alloc: Global,
    words: &[Text],
    vars: &Vars,
    reader: R,
    out: O,
    err: E,
    files: F,
    steps: &mut Steps<L>,
) -> Ran<R, O, E, F>
where
    R: SteadyRead + Drop,
    O: SteadyWrite + Drop,
    E: SteadyWrite + Drop,
    F: Files + Drop,
    L: Ledger,
    ensures run { IsRun words.now vars.now result.status
        (stream_world (untouched_reader (R.remaining reader)) (untouched_writer (O.contents out))
        (untouched_writer (E.contents err))
        (session_files_seen (F.files files) (F.faults files) (F.store_faults files)) steps.old)
        (stream_world result.source result.out result.err
        (session_files_seen (F.files result.files) (F.faults result.files) (F.store_faults result.files)) steps.new) }
    ensures source { RunTakesNoInput words.now vars.now result.status (F.files files)
        → result.source ≡ untouched_reader (R.remaining reader) }
    ensures granted { RunGrantsExactly words.now vars.now result.status (F.files files)
        (Some (unwrap_or (O.contents out) [])) (Some result.out.written_bytes) }
    ensures opened { (m : FileMap) → IsSessionValueIfKnown (run_needs_definitions words.now) (F.files files) m →
        (result.source ≡ untouched_reader (R.remaining reader))
        ⊎ openings.IsPlanOpened (plan_of words.now vars.now m)
        (Some (unwrap_or (O.contents out) [])) (Some result.out.written_bytes)
        (Some (unwrap_or (E.contents err) [])) (Some result.err.written_bytes) }
    ensures order { (m : FileMap) → IsSessionValueIfKnown (run_needs_definitions words.now) (F.files files) m →
        (result.out ≡ untouched_writer (O.contents out))
        ⊎ SessionSinkGrowsAtLeast (Some (unwrap_or (E.contents err) [])) (Some result.err.written_bytes)
        (openings.first_plan_text_on_err (plan_of words.now vars.now m)) }
    ensures unasked { run_needs_files words.now ≡ false → result.files ≡ files }
    ensures unnamed { (input : List ℕ) → R.remaining reader ≡ Some input → run_needs_definitions words.now ≡ false →
        HeardInputNamesNoFile input → result.files ≡ files }
    ensures unread { RunOpensNoSession words.now vars.now result.status (F.files files) →
        (F.faults result.files ≡ F.faults files) ⊎ ((result.source ≡ untouched_reader (R.remaining reader))
        × (result.out ≡ untouched_writer (O.contents out)) × (result.err ≡ untouched_writer (E.contents err))) }
{
    let mut source = StdSource::new(reader);
    let mut out = StdSink::new(out);
    let mut err = StdSink::new(err);
    let mut files = files;
    let status = units_main(
        alloc,
        words,
        vars,
        &mut source,
        &mut out,
        &mut err,
        &mut files,
        steps,
    );
    Ran {
        status,
        source,
        out,
        err,
        files,
    }
}
