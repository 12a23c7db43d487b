//! A writer of the standard library as a sink.
ghost use Rattle.std.specs.Prelude.{◌≡◌, ◌≤◌, ◌<◌, ◌++◌, [], length, take, IfOk, IfSome, OnErr, MatchResult, Some};
ghost use Rattle.std.specs.Option.{unwrap_or};
ghost use Rattle.units_io.specs.Bytes.{sink_bytes_append};
ghost use Rattle.units_io.specs.Faults.{HasIoFailureCause, next_io_count};

use super::byte_log::ByteLog;
use super::steady::SteadyWrite;
use crate::sink::Sink;
use crate::source::Failed;
use std::io;
use std::io::ErrorKind;
use std::marker::Model;

/// A writer as a sink that counts failed writes. A write that accepts no byte is a failure. Contracts see the contents
/// of the writer if they are known, as those of a vector are. Of any other writer, such as standard output, they see the
/// bytes that it accepted, which are noted after each write.
#[derive(Drop)]
pub struct StdSink<W: SteadyWrite> {
    writer: W,
    log: ByteLog,
    faults: u64,
}

impl<W: SteadyWrite> Model for StdSink<W> {
    ghost use Rattle.std.specs.Option.{unwrap_or};
    ghost use Rattle.units_io.specs.StreamStates.{WriterState};

    ghost Value = { WriterState };

    ghost view = { λ s. record { written_bytes = unwrap_or (W.contents s.writer) s.log.bytes; faults = s.faults } };
}

impl<W: SteadyWrite + Drop> StdSink<W> {
    /// Wraps this writer, with no byte noted and no failure counted.
    pub fn new(writer: W) -> StdSink<W>
        ensures { result ≡ record { written_bytes = unwrap_or (W.contents writer) []; faults = 0 } }
    {
        StdSink {
            writer,
            log: ByteLog::new(),
            faults: 0,
        }
    }

    /// Returns the writer.
    pub fn into_writer(self) -> W
        ensures { IfSome (W.contents result) (λ bytes. self.written_bytes ≡ bytes) }
    {
        self.writer
    }
}

impl<W: SteadyWrite + Drop> Sink for StdSink<W> {
    ghost written = { λ s. Some s.written_bytes };

    ghost faults = { λ s. s.faults };

    #[tactic(auto, using(crate::proofs::StreamLemmas::noted_bytes_append))]
    fn put(&mut self, bytes: &[u8]) -> Result<usize, Failed>
        requires { 0 < length bytes.now }
        ensures some { IfOk result (λ n. 0 < n) }
        ensures within { IfOk result (λ n. n ≤ length bytes.now) }
        ensures bytes { IfOk result (λ n. self.new.written_bytes ≡ self.old.written_bytes ++ take n bytes.now) }
        ensures kept { OnErr result (self.new.written_bytes ≡ self.old.written_bytes) }
        ensures cause { HasIoFailureCause self.old.faults self.new.faults result }
        ensures counted { MatchResult result (λ _. self.new.faults ≡ self.old.faults)
            (λ _. self.new.faults ≡ next_io_count self.old.faults) }
    {
        match write_some(&mut self.writer, bytes) {
            Ok(n) if n > 0 => {
                self.log.append(&bytes[..n]);
                Ok(n)
            }
            _ => {
                self.faults = self.faults.saturating_add(1);
                Err(Failed)
            }
        }
    }
}

// Writes once, and retries if a signal interrupted the write.
fn write_some<W: SteadyWrite>(writer: &mut W, bytes: &[u8]) -> io::Result<usize>
    ensures within { IfOk result (λ n. n ≤ length bytes.now) }
    ensures written { MatchResult result
        (λ n. W.contents writer.new ≡ sink_bytes_append (W.contents writer.old) (take n bytes.now))
        (λ _. W.contents writer.new ≡ W.contents writer.old) }
{
    for _ in 0..u64::MAX {
        match write_once(writer, bytes) {
            Err(e) if e.kind() == ErrorKind::Interrupted => {}
            answer => return answer,
        }
    }
    Err(io::Error::from(ErrorKind::Interrupted))
}

// Writes once.
fn write_once<W: SteadyWrite>(writer: &mut W, bytes: &[u8]) -> io::Result<usize>
    ensures within { IfOk result (λ n. n ≤ length bytes.now) }
    ensures written { MatchResult result
        (λ n. W.contents writer.new ≡ sink_bytes_append (W.contents writer.old) (take n bytes.now))
        (λ _. W.contents writer.new ≡ W.contents writer.old) }
{
    writer.write(bytes)
}
