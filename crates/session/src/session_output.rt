//! Output that is not written yet.

ghost use Rattle.std.specs.Prelude.{◌≡◌, ◌⊎◌, ◌≤◌, ◌++◌, [], OnErr, OnOk, IfOk};
ghost use Rattle.units_io.specs.Bytes.{sink_bytes_append, SinkGrowsByPrefix};
ghost use Rattle.units_io.specs.Faults.{HasIoCountRisen};
ghost use Rattle.session.specs.Lines.{session_lines_of_texts};
ghost use Rattle.session.specs.Parts.{session_line_output};
ghost use Rattle.session.specs.SessionProgress.{BeginsTalkOutput};
ghost use Rattle.session.specs.Talks.{session_opening_text};

use crate::answer::LineReply;
use crate::lines::{notice_lines, put_lines};
use crate::session::Session;
use crate::table_counts::put_banner;
use std::alloc::{AllocError, Global};
use units_io::{Failed, Sink, put_all};

// Output of this length is written before more lines are answered.
const LONG: usize = 65_536;

/// The output for each sink that is not written yet.
pub struct OutputBuffers {
    pub out: Vec<u8>,
    pub err: Vec<u8>,
}

// Written by hand, so that code that drops these buffers need not prove anything about them.
impl Drop for OutputBuffers {
    fn drop(self) {
        let OutputBuffers { out: _, err: _ } = self;
    }
}

impl OutputBuffers {
    /// Returns the output before the first line: the messages, the banner and the prompt, unless the session is quiet,
    /// and the notices of the definitions on `err`. The only error is running out of memory.
    pub fn opening_output(alloc: Global, session: &Session) -> Result<OutputBuffers, AllocError>
        ensures out { IfOk result (λ buffers. buffers.out.items ≡ session_opening_text session.now) }
        ensures err { IfOk result (λ buffers. buffers.err.items ≡ session_lines_of_texts session.now.table.deck.notices) }
    {
        let mut out = Vec::new(alloc);
        put_opening(alloc, &mut out, session)?;
        let err = notice_lines(alloc, session.table().deck())?;
        Ok(OutputBuffers { out, err })
    }

    /// Discards the output.
    pub(crate) fn clear(&mut self)
        ensures out { self.new.out.items ≡ [] }
        ensures err { self.new.err.items ≡ [] }
    {
        self.out.clear();
        self.err.clear();
    }

    // Returns whether the output for a sink is so long that it has to be written.
    pub(crate) fn is_long(&self) -> bool {
        self.out.len() >= LONG || self.err.len() >= LONG
    }

    /// Writes the output to each sink in one piece, first to `err`: nothing is written to `out` before all of `err` is.
    /// The only error is `Failed`, if a sink failed, which that sink has counted; then each sink has a front of its
    /// bytes.
    pub fn write<O: Sink, E: Sink>(&self, out: &mut O, err: &mut E) -> Result<(), Failed>
        ensures whole { OnOk result ((O.written out.new ≡ sink_bytes_append (O.written out.old) self.now.out.items)
            × (E.written err.new ≡ sink_bytes_append (E.written err.old) self.now.err.items)) }
        ensures out { SinkGrowsByPrefix (O.written out.old) (O.written out.new) self.now.out.items }
        ensures err { SinkGrowsByPrefix (E.written err.old) (E.written err.new) self.now.err.items }
        ensures cause { OnErr result
            (HasIoCountRisen (O.faults out.old) (O.faults out.new)
            ⊎ HasIoCountRisen (E.faults err.old) (E.faults err.new)) }
        ensures out_later { O.faults out.old ≤ O.faults out.new }
        ensures err_later { E.faults err.old ≤ E.faults err.new }
        ensures order { (out.new ≡ out.old)
            ⊎ (E.written err.new ≡ sink_bytes_append (E.written err.old) self.now.err.items) }
    {
        put_all(err, self.err.as_slice())?;
        put_all(out, self.out.as_slice())
    }

    // Appends an answer, and the prompt for the next line unless this was the last line.
    pub(crate) fn add(&mut self, session: &Session, reply: &LineReply) -> Result<(), AllocError>
        ensures whole { OnOk result
            ((self.new.out.items ≡ self.old.out.items ++ session_line_output reply.now session.now)
            × (self.new.err.items ≡ self.old.err.items ++ reply.now.err)) }
        ensures out { BeginsTalkOutput self.new.out.items
            (self.old.out.items ++ session_line_output reply.now session.now) }
        ensures err { BeginsTalkOutput self.new.err.items (self.old.err.items ++ reply.now.err) }
    {
        self.err.extend_from_slice(reply.err.as_bytes())?;
        self.out.extend_from_slice(reply.out.as_bytes())?;
        if reply.done {
            return Ok(());
        }
        self.out.extend_from_slice(session.prompt())
    }
}

// Appends the messages, the banner and the prompt, unless the session is quiet.
#[tactic(auto, unfolding(crate::specs::Talks::session_opening_text))]
fn put_opening(alloc: Global, out: &mut Vec<u8>, session: &Session) -> Result<(), AllocError>
    ensures { OnOk result (out.new.items ≡ out.old.items ++ session_opening_text session.now) }
{
    if session.is_quiet() {
        return Ok(());
    }
    let deck = session.table().deck();
    let messages = deck.messages(alloc)?;
    put_lines(out, messages.as_slice())?;
    put_banner(alloc, out, deck)?;
    out.extend_from_slice(session.prompt())
}
