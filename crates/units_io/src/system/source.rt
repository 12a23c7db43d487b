//! A reader of the standard library as a source.
ghost use Rattle.std.specs.Prelude.{◌≡◌, ◌≤◌, ◌<◌, ◌+◌, ◌-◌, ◌^◌, length, take, min, IfOk, OnErr, MatchResult};
ghost use Rattle.units_io.specs.Bytes.{IsNoSourceByteLeft, LosesSourceBytes};
ghost use Rattle.units_io.specs.Faults.{HasIoFailureCause, next_io_count};

use super::steady::SteadyRead;
use crate::source::{Failed, Source};
use std::io;
use std::io::ErrorKind;
use std::marker::Model;

/// A reader as a source that counts the bytes taken and the failed reads.
#[derive(Drop)]
pub struct StdSource<R: SteadyRead> {
    reader: R,
    taken: u64,
    faults: u64,
}

impl<R: SteadyRead> Model for StdSource<R> {
    ghost use Rattle.units_io.specs.StreamStates.{ReaderState};

    ghost Value = { ReaderState };

    ghost view = { λ s. record { bytes_left = R.remaining s.reader; taken_count = s.taken; faults = s.faults } };
}

impl<R: SteadyRead + Drop> StdSource<R> {
    /// Wraps this reader, with no byte taken and no failure counted.
    pub fn new(reader: R) -> StdSource<R>
        ensures { result ≡ record { bytes_left = R.remaining reader; taken_count = 0; faults = 0 } }
    {
        StdSource {
            reader,
            taken: 0,
            faults: 0,
        }
    }
}

impl<R: SteadyRead + Drop> Source for StdSource<R> {
    ghost left = { λ s. s.bytes_left };

    ghost taken = { λ s. s.taken_count };

    ghost faults = { λ s. s.faults };

    fn take(&mut self, buf: &mut [u8]) -> Result<usize, Failed>
        requires { 0 < length buf.old }
        ensures within { IfOk result (λ n. n ≤ length buf.new) }
        ensures bytes { IfOk result (λ n. LosesSourceBytes self.old.bytes_left self.new.bytes_left (take n buf.new)) }
        ensures end { IfOk result (λ n. n ≡ 0 → IsNoSourceByteLeft self.old.bytes_left) }
        ensures kept { OnErr result (self.new.bytes_left ≡ self.old.bytes_left) }
        ensures count { MatchResult result
            (λ n. self.new.taken_count ≡ min (self.old.taken_count + n) (2 ^ 64 - 1))
            (λ _. self.new.taken_count ≡ self.old.taken_count) }
        ensures cause { HasIoFailureCause self.old.faults self.new.faults result }
        ensures counted { MatchResult result (λ _. self.new.faults ≡ self.old.faults)
            (λ _. self.new.faults ≡ next_io_count self.old.faults) }
    {
        match read_some(&mut self.reader, buf) {
            Ok(n) => {
                self.taken = self.taken.saturating_add(n as u64);
                Ok(n)
            }
            Err(_) => {
                self.faults = self.faults.saturating_add(1);
                Err(Failed)
            }
        }
    }
}

// Reads once, and retries if a signal interrupted the read.
fn read_some<R: SteadyRead>(reader: &mut R, buf: &mut [u8]) -> io::Result<usize>
    requires { 0 < length buf.old }
    ensures within { IfOk result (λ n. n ≤ length buf.new) }
    ensures read { MatchResult result
        (λ n. LosesSourceBytes (R.remaining reader.old) (R.remaining reader.new) (take n buf.new))
        (λ _. R.remaining reader.new ≡ R.remaining reader.old) }
    ensures end { IfOk result (λ n. n ≡ 0 → IsNoSourceByteLeft (R.remaining reader.old)) }
{
    for _ in 0..u64::MAX {
        match read_once(reader, buf) {
            Err(e) if e.kind() == ErrorKind::Interrupted => {}
            answer => return answer,
        }
    }
    Err(io::Error::from(ErrorKind::Interrupted))
}

// Reads once.
fn read_once<R: SteadyRead>(reader: &mut R, buf: &mut [u8]) -> io::Result<usize>
    requires { 0 < length buf.old }
    ensures within { IfOk result (λ n. n ≤ length buf.new) }
    ensures read { MatchResult result
        (λ n. LosesSourceBytes (R.remaining reader.old) (R.remaining reader.new) (take n buf.new))
        (λ _. R.remaining reader.new ≡ R.remaining reader.old) }
    ensures end { IfOk result (λ n. n ≡ 0 → IsNoSourceByteLeft (R.remaining reader.old)) }
{
    reader.read(buf)
}
