//! The run of the program.
ghost use Rattle.std.specs.Prelude.{◌≡◌, ◌⊎◌, ℕ, List, Some, false};
ghost use Rattle.units_run.specs.Endings as endings;
ghost use Rattle.units_run.specs.GrantedConversions.{RunGrantsExactly};
ghost use Rattle.units_run.specs.Headline as spec;
ghost use Rattle.units_run.specs.LeftAlone.{RunOpensNoSession, RunTakesNoInput};
ghost use Rattle.units_run.specs.Needs.{run_needs_definitions, run_needs_files};
ghost use Rattle.units_run.specs.Openings as openings;
ghost use Rattle.units_run.specs.Work.{plan_of};
ghost use Rattle.session.specs.HeardLines.{HeardInputNamesNoFile};
ghost use Rattle.session.specs.Outside.{SessionSinkGrowsAtLeast};
ghost use Rattle.session.specs.KnownContents.{IsSessionValueIfKnown};
ghost use Rattle.session.specs.Worlds.{session_files_seen, session_sink, session_source, session_world};
ghost use Rattle.units_io.specs.FileMap.{FileMap};

use crate::checks::write_check;
use crate::halt::Halt;
use crate::plan::Plan;
use crate::status::Status;
use crate::words_plan::make_plan;
use reply::grant_law;
use session::{Listener, SessionEnd};
use std::alloc::Global;
use std::mem;
use std::sync::ledger::Ledger;
use units_io::{Files, Sink, Source, Steps, Text, Vars};

/// Runs the whole program. For every command line, set of variables, files and session input, it writes exactly the
/// specified replies. Each is the reply of a new run over the definitions then in force, whatever was edited or asked
/// before; only `:stats`, trials, undo, redo, saves and watches depend on the history, as they are defined to. A
/// conversion is granted if and only if the full expansion of both sides is defined, both conform, and each step fits
/// into 127 bits and a sign, the 128 bits of the specification; its number is then that exact fraction. Reciprocal,
/// function and list conversions, and a target of 0, have their own rules. Any other ending is a counted I/O error, a
/// documented limit, or out of memory, after a prefix of the replies. The premise is that the bytes of input, output
/// and files are known.
///
/// `words` are the words after the program's name. The definitions of a run are never freed: the system reclaims their
/// memory when the process ends.
///
/// `run`: with a stated status (0 to 3) both sinks have all bytes of the run, its files and its count of steps are
/// those of the run, and so is the status. With any other status each sink has a front of the bytes. If the input was
/// too long (7) or the source failed (4), the output is exactly that for the complete lines of the bytes read, and a
/// column has no byte on `out`. Files that the run does not fetch may hold anything, and their contents need not be
/// known. `specs/Headline.antt` states everything that holds of a run. `granted`: which conversions are granted, and
/// with which numbers.
///
/// `source`: nothing is read except by a session or a column, and nothing if there is no deck. `opened`: nothing is
/// read before the opening of the session, or the notices before a column, are written, whatever the ending. `order`:
/// nothing is written to `out` before the notices on `err`. `unasked`: the files are not used if none is needed.
/// `unnamed`: nor are they used by a session in which no line names one. `unread`: if no session is opened and a fetch
/// failed, nothing is read and nothing is written.
pub fn units_main<S: Source, O: Sink, E: Sink, F: Files, L: Ledger>(
    alloc: Global,
    words: &[Text],
    vars: &Vars,
    src: &mut S,
    out: &mut O,
    err: &mut E,
    files: &mut F,
    steps: &mut Steps<L>,
) -> Status
    ensures run { spec.IsRun words.now vars.now result
        (session_world (session_source (S.left src.old) (S.taken src.old) (S.faults src.old))
        (session_sink (O.written out.old) (O.faults out.old)) (session_sink (E.written err.old) (E.faults err.old))
        (session_files_seen (F.files files.old) (F.faults files.old) (F.store_faults files.old)) steps.old)
        (session_world (session_source (S.left src.new) (S.taken src.new) (S.faults src.new))
        (session_sink (O.written out.new) (O.faults out.new)) (session_sink (E.written err.new) (E.faults err.new))
        (session_files_seen (F.files files.new) (F.faults files.new) (F.store_faults files.new)) steps.new) }
    ensures source { RunTakesNoInput words.now vars.now result (F.files files.old) → src.new ≡ src.old }
    ensures granted { RunGrantsExactly words.now vars.now result (F.files files.old)
        (O.written out.old) (O.written out.new) }
    ensures opened { (m : FileMap) → IsSessionValueIfKnown (run_needs_definitions words.now) (F.files files.old) m →
        (src.new ≡ src.old) ⊎ openings.IsPlanOpened (plan_of words.now vars.now m) (O.written out.old)
        (O.written out.new) (E.written err.old) (E.written err.new) }
    ensures order { (m : FileMap) → IsSessionValueIfKnown (run_needs_definitions words.now) (F.files files.old) m →
        (out.new ≡ out.old) ⊎ SessionSinkGrowsAtLeast (E.written err.old) (E.written err.new)
        (openings.first_plan_text_on_err (plan_of words.now vars.now m)) }
    ensures unasked { run_needs_files words.now ≡ false → files.new ≡ files.old }
    ensures unnamed { (input : List ℕ) → S.left src.old ≡ Some input → run_needs_definitions words.now ≡ false →
        HeardInputNamesNoFile input → files.new ≡ files.old }
    ensures unread { RunOpensNoSession words.now vars.now result (F.files files.old) →
        (F.faults files.new ≡ F.faults files.old) ⊎ ((src.new ≡ src.old) × (out.new ≡ out.old) × (err.new ≡ err.old)) }
{
    grant_law();
    match make_plan(alloc, words, vars, files, steps) {
        Ok(Plan::Whole(buffers, status)) => match buffers.write(out, err) {
            Ok(()) => status,
            Err(_) => Status::WriteFault,
        },
        Ok(Plan::Check(plan)) => write_check(alloc, plan, out, steps),
        Ok(Plan::Opened(buffers, session)) => {
            let mut listener = Listener::new(alloc, session, buffers);
            let end = listener.answer_source(src, out, err, files, steps);
            mem::forget(listener);
            status_of(end)
        }
        Ok(Plan::Columns(plan)) => plan.convert_column(alloc, src, out, err, steps),
        Err(Halt::ReadFault) => Status::ReadFault,
        Err(Halt::NoMemory) => Status::NoMemory,
    }
}

// Returns the status for the end of a session.
fn status_of(end: SessionEnd) -> Status
    ensures { result ≡ endings.run_status_of_session_end end }
{
    match end {
        SessionEnd::Done => Status::Done,
        SessionEnd::ReadFault => Status::ReadFault,
        SessionEnd::WriteFault => Status::WriteFault,
        SessionEnd::NoMemory => Status::NoMemory,
        SessionEnd::InputTooLong => Status::InputTooLong,
    }
}
