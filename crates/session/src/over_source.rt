//! A session over a source. The output for a block of input is written in one piece, or in several if it is long.

ghost use Rattle.std.specs.Prelude.{◌≡◌, ◌⊎◌, ◌++◌, [], List, ℕ, Some};
ghost use Rattle.session.specs.HeardLines.{HeardInputNamesNoFile};
ghost use Rattle.session.specs.Outside.{SessionSinkGrowsAtLeast};
ghost use Rattle.session.specs.Runs as spec;
ghost use Rattle.session.specs.SessionProgress.{HoldsInputRest};
ghost use Rattle.session.specs.Worlds.{SessionSource, session_files_seen, session_sink, session_source, session_world};

use crate::fault::SessionFault;
use crate::listener::Listener;
use std::sync::ledger::Ledger;
use units_io::{Files, Sink, Source, Steps};

/// How a session ended.
#[derive(Clone, Copy, Debug, PartialEq, Eq)]
pub enum SessionEnd {
    /// The input was read to its end, or to a line that ends the session.
    Done,
    /// The source failed, or a file could not be read.
    ReadFault,
    /// A sink failed, or a file could not be written.
    WriteFault,
    /// Memory ran out.
    NoMemory,
    /// More than 4,294,967,296 bytes of input were read.
    InputTooLong,
}

const BLOCK: usize = 65_536;

const MOST_INPUT: u64 = 4_294_967_296;

impl Listener {
    /// Writes the opening, and then answers the lines of a source, block by block. The output for a block is written
    /// before more is read, and as soon as it is long; notices are written before replies.
    ///
    /// `run`: `specs/Runs.antt` states everything that holds of a run. If it ends with `Done`, both sinks have
    /// everything that the session says over its whole input. With any other ending the lines up to some line have been
    /// answered: each sink has a front of the output for them, and the files are as these lines leave them, except
    /// perhaps for one that could not be written. If the input is too long or the source failed, these are the complete
    /// lines of the bytes read, and all of their output is written. Every ending except `Done` and `NoMemory` has its
    /// cause. The contents of the files need not be known if no line loads one. `unasked`: if no line names a file, the
    /// files are not used. `opening`: nothing is read from the source before the opening is written. `order`: nothing
    /// is written to `out` before the notices of the opening.
    pub fn answer_source<S: Source, O: Sink, E: Sink, F: Files, L: Ledger>(
        &mut self,
        src: &mut S,
        out: &mut O,
        err: &mut E,
        files: &mut F,
        steps: &mut Steps<L>,
    ) -> SessionEnd
        ensures run { spec.IsSessionRun self.old.talk.buffers self.old.talk.session result
            (session_world (session_source (S.left src.old) (S.taken src.old) (S.faults src.old))
            (session_sink (O.written out.old) (O.faults out.old)) (session_sink (E.written err.old) (E.faults err.old))
            (session_files_seen (F.files files.old) (F.faults files.old) (F.store_faults files.old)) steps.old)
            (session_world (session_source (S.left src.new) (S.taken src.new) (S.faults src.new))
            (session_sink (O.written out.new) (O.faults out.new)) (session_sink (E.written err.new) (E.faults err.new))
            (session_files_seen (F.files files.new) (F.faults files.new) (F.store_faults files.new)) steps.new) }
        ensures unasked { (input : List ℕ) → S.left src.old ≡ Some input → HeardInputNamesNoFile input → files.new
            ≡ files.old }
        ensures opening { (src.new ≡ src.old)
            ⊎ (SessionSinkGrowsAtLeast (O.written out.old) (O.written out.new) self.old.talk.buffers.out.items
            × SessionSinkGrowsAtLeast (E.written err.old) (E.written err.new) self.old.talk.buffers.err.items) }
        ensures order { (out.new ≡ out.old)
            ⊎ SessionSinkGrowsAtLeast (E.written err.old) (E.written err.new) self.old.talk.buffers.err.items }
    {
        // The input begins with a new line.
        self.held.clear();
        match self.talk.buffers.write(out, err) {
            Ok(()) => self.answer_blocks(src, out, err, files, steps),
            Err(_) => SessionEnd::WriteFault,
        }
    }

    // Answers the lines of a source. All output so far has been written.
    fn answer_blocks<S: Source, O: Sink, E: Sink, F: Files, L: Ledger>(
        &mut self,
        src: &mut S,
        out: &mut O,
        err: &mut E,
        files: &mut F,
        steps: &mut Steps<L>,
    ) -> SessionEnd
        ensures run { spec.IsWaitingSessionRun self.old.held self.old.talk.session result
            (session_world (session_source (S.left src.old) (S.taken src.old) (S.faults src.old))
            (session_sink (O.written out.old) (O.faults out.old)) (session_sink (E.written err.old) (E.faults err.old))
            (session_files_seen (F.files files.old) (F.faults files.old) (F.store_faults files.old)) steps.old)
            (session_world (session_source (S.left src.new) (S.taken src.new) (S.faults src.new))
            (session_sink (O.written out.new) (O.faults out.new)) (session_sink (E.written err.new) (E.faults err.new))
            (session_files_seen (F.files files.new) (F.faults files.new) (F.store_faults files.new)) steps.new) }
        ensures unasked { (input : List ℕ) → S.left src.old ≡ Some input → HoldsInputRest [] self.old.held →
            HeardInputNamesNoFile input → files.new ≡ files.old }
    {
        let Ok(mut block) = vec![in self.alloc; 0u8; BLOCK] else {
            return SessionEnd::NoMemory;
        };
        let block = block.as_mut_slice();
        let mut total = 0u64;
        while total <= MOST_INPUT {
            let n = match src.take(block) {
                Ok(n) => n,
                Err(_) => return SessionEnd::ReadFault,
            };
            if n == 0 {
                return self.answer_end(out, err, files, steps);
            }
            total += n as u64;
            let taken = &block[..n];
            if let Some(end) = self.answer_block(taken, out, err, files, steps) {
                return end;
            }
        }
        SessionEnd::InputTooLong
    }

    // Answers the lines of a block. Returns how the session ended, or `None` if it goes on. The output is written after
    // each line that makes it long, and after the block.
    fn answer_block<O: Sink, E: Sink, F: Files, L: Ledger>(
        &mut self,
        block: &[u8],
        out: &mut O,
        err: &mut E,
        files: &mut F,
        steps: &mut Steps<L>,
    ) -> Option<SessionEnd>
        ensures run { (was is : SessionSource) →
            spec.IsInputBlockAnswered result block.now self.old.held self.old.talk.session self.new.held
            self.new.talk.session
            (session_world was (session_sink (O.written out.old) (O.faults out.old))
            (session_sink (E.written err.old) (E.faults err.old))
            (session_files_seen (F.files files.old) (F.faults files.old) (F.store_faults files.old)) steps.old)
            (session_world is (session_sink (O.written out.new) (O.faults out.new))
            (session_sink (E.written err.new) (E.faults err.new))
            (session_files_seen (F.files files.new) (F.faults files.new) (F.store_faults files.new)) steps.new) }
        ensures cut { (taken : List ℕ) → HoldsInputRest taken self.old.held →
            spec.IsInputBlockCut result taken block.now self.new.held }
        ensures unasked { (taken more : List ℕ) → HoldsInputRest taken self.old.held →
            HeardInputNamesNoFile ((taken ++ block.now) ++ more) → files.new ≡ files.old }
    {
        let mut rest = block;
        while !rest.is_empty() {
            self.talk.buffers.clear();
            let fed = self.feed_block(files, steps, &mut rest);
            let Ok(()) = self.talk.buffers.write(out, err) else {
                return Some(SessionEnd::WriteFault);
            };
            if let Some(end) = end_of(fed) {
                return Some(end);
            }
        }
        None
    }

    // Answers the line that the end of the input completes, if there is one, and returns how the session ended.
    fn answer_end<O: Sink, E: Sink, F: Files, L: Ledger>(
        &mut self,
        out: &mut O,
        err: &mut E,
        files: &mut F,
        steps: &mut Steps<L>,
    ) -> SessionEnd
        ensures run { (was is : SessionSource) →
            spec.IsInputEndAnswered result self.old.held self.old.talk.session
            (session_world was (session_sink (O.written out.old) (O.faults out.old))
            (session_sink (E.written err.old) (E.faults err.old))
            (session_files_seen (F.files files.old) (F.faults files.old) (F.store_faults files.old)) steps.old)
            (session_world is (session_sink (O.written out.new) (O.faults out.new))
            (session_sink (E.written err.new) (E.faults err.new))
            (session_files_seen (F.files files.new) (F.faults files.new) (F.store_faults files.new)) steps.new) }
        ensures unasked { (input : List ℕ) → HoldsInputRest input self.old.held → HeardInputNamesNoFile input
            → files.new ≡ files.old }
    {
        self.talk.buffers.clear();
        let fed = self.feed_end(files, steps);
        let Ok(()) = self.talk.buffers.write(out, err) else {
            return SessionEnd::WriteFault;
        };
        last_end(fed)
    }
}

// Returns how the session ended with the bytes that were fed, or `None` if it goes on.
fn end_of(fed: Result<bool, SessionFault>) -> Option<SessionEnd>
    ensures { result ≡ spec.session_end_after_feed fed }
{
    match fed {
        Ok(false) => None,
        Ok(true) => Some(SessionEnd::Done),
        Err(fault) => Some(fault_end(fault)),
    }
}

// Returns how the session ended at the end of its input.
fn last_end(fed: Result<(), SessionFault>) -> SessionEnd
    ensures { result ≡ spec.session_end_at_input_end fed }
{
    match fed {
        Ok(()) => SessionEnd::Done,
        Err(fault) => fault_end(fault),
    }
}

// Returns how a fault ends the session.
fn fault_end(fault: SessionFault) -> SessionEnd
    ensures { result ≡ spec.session_end_by_fault fault }
{
    match fault {
        SessionFault::ReadFailed => SessionEnd::ReadFault,
        SessionFault::WriteFailed => SessionEnd::WriteFault,
        SessionFault::OutOfMemory => SessionEnd::NoMemory,
    }
}
