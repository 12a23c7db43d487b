//! Listening to the bytes of an input, block by block.

ghost use Rattle.std.specs.Prelude.{◌≡◌, ◌++◌, ◌∷◌, ◌≤◌, ◌<◌, List, ℕ, Some, [], length, IfOk, IfSome, MatchResult};
ghost use Rattle.std.specs.Prelude.{false};
ghost use Rattle.std.specs.Option.{option_copied};
ghost use Rattle.session.specs.AnswerEffects.{AreSessionFileFaultsCounted, session_file_faults};
ghost use Rattle.session.specs.HeardLines.{HeardInputNamesNoFile, heard_input_loads_file, heard_line_loads_file};
ghost use Rattle.session.specs.HeardLines.{heard_lines, is_last_session_line, longest_session_line};
ghost use Rattle.session.specs.HeardLines.{heard_line_names_file, readable_session_line};
ghost use Rattle.session.specs.Input.{input_lines};
ghost use Rattle.session.specs.SessionProgress.{HoldsInputRest, IsAtPointOfTalk, IsInputTakenUp, IsTalkAtWholeLines};
ghost use Rattle.session.specs.SessionProgress.{IsTalkBroken, IsTalkFed, SessionBase, session_now_of};
ghost use Rattle.session.specs.Steps as spec;
ghost use Rattle.session.specs.Talks.{SessionTrace, talk_over_input, talk_with_answer};
ghost use Rattle.session.specs.KnownContents.{IsSessionValueKnownIfNeeded};

use crate::fault::SessionFault;
use crate::partial_line::{Held, LONGEST_LINE};
use crate::session::Session;
use crate::session_output::OutputBuffers;
use crate::talk::Talk;
use def_entry::cut_at;
use std::alloc::Global;
use std::sync::ledger::Ledger;
use units_io::{Files, Steps};

/// A session that reads an input: the session with its output that is not written yet, and the line of the input that
/// is not complete yet.
#[derive(Drop)]
pub struct Listener {
    pub(crate) alloc: Global,
    pub(crate) talk: Talk,
    pub(crate) held: Held,
}

impl Listener {
    /// Returns a session that has read nothing yet, with output that it has not written yet. Allocates no memory.
    pub fn new(alloc: Global, session: Session, buffers: OutputBuffers) -> Listener
        ensures talk { result.talk ≡ record { session = session; buffers = buffers } }
        ensures held { result.held ≡ Some [] }
    {
        Listener {
            alloc,
            talk: Talk { session, buffers },
            held: Held::new(alloc),
        }
    }

    /// Answers the lines of a block, to the end of the block or to the line after which the output is long. Returns
    /// whether a line ended the session. If none did, `rest` is then the unread remainder of the block. Lines that lie
    /// completely within the block are answered without a copy.
    pub(crate) fn feed_block<F: Files, L: Ledger>(
        &mut self,
        files: &mut F,
        steps: &mut Steps<L>,
        rest: &mut &[u8],
    ) -> Result<bool, SessionFault>
        ensures on_trace { (base : SessionBase) (first : SessionTrace) (taken more : List ℕ) →
            IsSessionValueKnownIfNeeded (heard_input_loads_file ((taken ++ rest.old.now) ++ more)) base.files →
            IsTalkAtWholeLines base first taken self.old.held
            (session_now_of self.old.talk.buffers self.old.talk.session (F.files files.old) steps.old) →
            IsTalkFed result base first taken rest.old.now rest.new.now more self.new.held
            (session_now_of self.new.talk.buffers self.new.talk.session (F.files files.new) steps.new) }
        ensures faults { AreSessionFileFaultsCounted result
            (session_file_faults (F.faults files.old) (F.store_faults files.old))
            (session_file_faults (F.faults files.new) (F.store_faults files.new)) }
        ensures cut { (taken : List ℕ) → HoldsInputRest taken self.old.held →
            IsInputTakenUp result taken rest.old.now rest.new.now self.new.held }
        ensures unasked { (taken more : List ℕ) → HoldsInputRest taken self.old.held →
            HeardInputNamesNoFile ((taken ++ rest.old.now) ++ more) → files.new ≡ files.old }
        ensures shorter { 0 < length rest.old.now → length rest.new.now < length rest.old.now }
    {
        while let Some((piece, behind)) = cut_at(*rest, b'\n') {
            *rest = behind;
            match self.end_line(files, steps, piece) {
                Ok(false) => {}
                Ok(true) => return Ok(true),
                Err(fault) => return Err(fault),
            }
            if self.talk.buffers.is_long() {
                return Ok(false);
            }
        }
        let piece = *rest;
        *rest = &[];
        match self.held.add(piece) {
            Ok(()) => Ok(false),
            Err(_) => Err(SessionFault::OutOfMemory),
        }
    }

    /// Handles the end of the input, which completes a line that is held.
    pub(crate) fn feed_end<F: Files, L: Ledger>(
        &mut self,
        files: &mut F,
        steps: &mut Steps<L>,
    ) -> Result<(), SessionFault>
        ensures on_trace { (base : SessionBase) (first : SessionTrace) (input : List ℕ) →
            IsSessionValueKnownIfNeeded (heard_input_loads_file input) base.files
            → IsTalkAtWholeLines base first input self.old.held
            (session_now_of self.old.talk.buffers self.old.talk.session (F.files files.old) steps.old) →
            MatchResult result
            (λ _. IsAtPointOfTalk base (talk_over_input first input)
            (session_now_of self.new.talk.buffers self.new.talk.session (F.files files.new) steps.new))
            (λ fault. IsTalkBroken fault base first (heard_lines (input_lines input))
            (session_now_of self.new.talk.buffers self.new.talk.session (F.files files.new) steps.new)) }
        ensures faults { AreSessionFileFaultsCounted result
            (session_file_faults (F.faults files.old) (F.store_faults files.old))
            (session_file_faults (F.faults files.new) (F.store_faults files.new)) }
        ensures unasked { (input : List ℕ) → HoldsInputRest input self.old.held → HeardInputNamesNoFile input
            → files.new ≡ files.old }
    {
        if self.held.is_empty() {
            return Ok(());
        }
        match self.talk.reply(self.alloc, self.held.line(), files, steps) {
            Ok(_) => Ok(()),
            Err(fault) => Err(fault),
        }
    }

    // Answers the held line, completed by a piece, and returns whether it is the last.
    fn end_line<F: Files, L: Ledger>(
        &mut self,
        files: &mut F,
        steps: &mut Steps<L>,
        piece: &[u8],
    ) -> Result<bool, SessionFault>
        ensures on_trace { (base : SessionBase) (talk : SessionTrace) (part : List ℕ) → self.old.held
            ≡ readable_session_line part →
            IsSessionValueKnownIfNeeded (heard_line_loads_file (part ++ piece.now)) base.files
            → IsAtPointOfTalk base talk
            (session_now_of self.old.talk.buffers self.old.talk.session (F.files files.old) steps.old) →
            MatchResult result
            (λ done. (done ≡ is_last_session_line (part ++ piece.now)) × (self.new.held ≡ Some [])
            × IsAtPointOfTalk base (talk_with_answer talk (spec.session_line_answer talk.state (part ++ piece.now))
            (part ++ piece.now))
            (session_now_of self.new.talk.buffers self.new.talk.session (F.files files.new) steps.new))
            (λ fault. IsTalkBroken fault base talk ((part ++ piece.now) ∷ [])
            (session_now_of self.new.talk.buffers self.new.talk.session (F.files files.new) steps.new)) }
        ensures faults { AreSessionFileFaultsCounted result
            (session_file_faults (F.faults files.old) (F.store_faults files.old))
            (session_file_faults (F.faults files.new) (F.store_faults files.new)) }
        ensures last { (part : List ℕ) → self.old.held ≡ readable_session_line part →
            IfOk result (λ done. (done ≡ is_last_session_line (part ++ piece.now)) × (self.new.held ≡ Some [])) }
        ensures unasked { (part : List ℕ) → self.old.held ≡ readable_session_line part →
            heard_line_names_file (part ++ piece.now) ≡ false → files.new ≡ files.old }
    {
        if self.held.is_empty() {
            let done = self.talk.reply(self.alloc, short(piece), files, steps);
            self.held.clear();
            return done;
        }
        match self.held.add(piece) {
            Ok(()) => {}
            Err(_) => return Err(SessionFault::OutOfMemory),
        }
        let done = self.talk.reply(self.alloc, self.held.line(), files, steps);
        self.held.clear();
        done
    }
}

// Returns the line, or `None` if it is too long.
#[tactic(auto, unfolding(crate::specs::HeardLines::readable_session_line))]
fn short(line: &[u8]) -> Option<&[u8]>
    ensures is { option_copied result ≡ readable_session_line line.now }
    ensures short { IfSome result (λ line. length line.now ≤ longest_session_line) }
{
    if line.len() > LONGEST_LINE {
        return None;
    }
    Some(line)
}
