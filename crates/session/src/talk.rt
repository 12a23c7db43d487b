//! A session and its output.

ghost use Rattle.std.specs.Prelude.{◌≡◌, ◌∷◌, ◌≤◌, List, ℕ, [], length, IfOk, IfSome, MatchResult, codes, false};
ghost use Rattle.std.specs.Option.{option_copied};
ghost use Rattle.units_io.specs.FileMap.{FileMap};
ghost use Rattle.session.specs.AnswerEffects.{AreSessionFileFaultsCounted, IsSessionLineAnswered, session_file_faults};
ghost use Rattle.session.specs.AnswerEffects.{session_scene};
ghost use Rattle.session.specs.HeardLines.{is_last_read_session_line, is_last_session_line, longest_session_line};
ghost use Rattle.session.specs.HeardLines.{read_session_line_save_name, readable_session_line, heard_line_loads_file};
ghost use Rattle.session.specs.HeardLines.{read_session_line_loads_file, read_session_line_names_file};
ghost use Rattle.session.specs.FilesLeft.{SessionLineKeepsFiles};
ghost use Rattle.session.specs.Parts.{IsSessionLineReply};
ghost use Rattle.session.specs.Sessions.{session_and_files};
ghost use Rattle.session.specs.SessionProgress.{IsAtPointOfTalk, IsTalkBroken, SessionBase, session_now_of};
ghost use Rattle.session.specs.Steps as spec;
ghost use Rattle.session.specs.Talks.{SessionTrace, talk_with_answer};
ghost use Rattle.session.specs.KnownContents.{IsSessionValueIfKnown, IsSessionValueKnownIfNeeded};

use crate::answer::LineReply;
use crate::fault::SessionFault;
use crate::lines::no_text;
use crate::session::Session;
use crate::session_output::OutputBuffers;
use std::alloc::{AllocError, Global};
use std::sync::ledger::Ledger;
use units_io::{Files, Steps, Text};

/// A session, and its output that is not written yet.
#[derive(Drop)]
pub struct Talk {
    pub session: Session,
    pub buffers: OutputBuffers,
}

impl Talk {
    /// Answers a line, or `None` for one that is too long, and returns whether it is the last.
    pub(crate) fn reply<F: Files, L: Ledger>(
        &mut self,
        alloc: Global,
        line: Option<&[u8]>,
        files: &mut F,
        steps: &mut Steps<L>,
    ) -> Result<bool, SessionFault>
        requires { IfSome line (λ line. length line.now ≤ longest_session_line) }
        ensures on_trace { (base : SessionBase) (talk : SessionTrace) (part : List ℕ) → option_copied line.entry
            ≡ readable_session_line part →
            IsSessionValueKnownIfNeeded (heard_line_loads_file part) base.files → IsAtPointOfTalk base talk
            (session_now_of self.old.buffers self.old.session (F.files files.old) steps.old) →
            MatchResult result
            (λ done. (done ≡ is_last_session_line part)
            × IsAtPointOfTalk base (talk_with_answer talk (spec.session_line_answer talk.state part) part)
            (session_now_of self.new.buffers self.new.session (F.files files.new) steps.new))
            (λ fault. IsTalkBroken fault base talk (part ∷ [])
            (session_now_of self.new.buffers self.new.session (F.files files.new) steps.new)) }
        ensures faults { AreSessionFileFaultsCounted result
            (session_file_faults (F.faults files.old) (F.store_faults files.old))
            (session_file_faults (F.faults files.new) (F.store_faults files.new)) }
        ensures last { IfOk result (λ done. done ≡ is_last_read_session_line (option_copied line.entry)) }
        ensures unasked { read_session_line_names_file (option_copied line.entry) ≡ false → files.new ≡ files.old }
    {
        let reply = match answer_line(alloc, &mut self.session, line, files, steps) {
            Ok(reply) => reply,
            Err(fault) => return Err(fault),
        };
        match self.buffers.add(&self.session, &reply) {
            Ok(()) => Ok(reply.done),
            Err(_) => Err(SessionFault::OutOfMemory),
        }
    }
}

// Returns the answer to a line, or to one that is too long.
fn answer_line<F: Files, L: Ledger>(
    alloc: Global,
    session: &mut Session,
    line: Option<&[u8]>,
    files: &mut F,
    steps: &mut Steps<L>,
) -> Result<LineReply, SessionFault>
    requires { IfSome line (λ line. length line.now ≤ longest_session_line) }
    ensures answer { (m : FileMap) → IsSessionValueIfKnown (read_session_line_loads_file (option_copied line.entry))
        (F.files files.old) m →
        IsSessionLineAnswered (spec.session_answer_to_read_line (session_and_files session.old m)
        (option_copied line.entry)) result (session_scene session.old (F.files files.old) steps.old)
        (session_scene session.new (F.files files.new) steps.new) }
    ensures done { IfOk result (λ reply. reply.done ≡ is_last_read_session_line (option_copied line.entry)) }
    ensures kept { SessionLineKeepsFiles (read_session_line_save_name (option_copied line.entry)) result
        (F.files files.old) (F.files files.new) }
    ensures faults { AreSessionFileFaultsCounted result
        (session_file_faults (F.faults files.old) (F.store_faults files.old))
        (session_file_faults (F.faults files.new) (F.store_faults files.new)) }
    ensures unasked { read_session_line_names_file (option_copied line.entry) ≡ false → files.new ≡ files.old }
{
    match line {
        Some(line) => session.line(alloc, line, files, steps),
        None => Ok(too_long(alloc)?),
    }
}

// Returns the answer to a line that is too long.
fn too_long(alloc: Global) -> Result<LineReply, AllocError>
    ensures { IfOk result (λ reply. IsSessionLineReply reply (codes "line too long\n") [] false) }
{
    Ok(LineReply {
        out: Text::from_bytes(alloc, b"line too long\n")?,
        err: no_text(alloc),
        done: false,
    })
}
