//! A source in memory.
ghost use Rattle.std.specs.Prelude.{◌≡◌, ◌≤◌, ◌<◌, ◌+◌, ◌-◌, ◌^◌, ◌++◌, ◌↔◌, [], length, take, min, IfOk, OnErr, IsErr};
ghost use Rattle.std.specs.Prelude.{MatchResult, Some, Contains};
ghost use Rattle.units_io.specs.Faults.{HasIoFailureCause, next_io_count};

use crate::source::{Failed, Source};
use std::alloc::{AllocError, Global};
use std::marker::Model;

/// Bytes in memory as a source that gives a limited number of bytes per call and has calls that can be made to fail.
#[derive(Drop)]
pub struct MemSource {
    bytes: Vec<u8>,
    at: usize,
    piece: usize,
    fails: Vec<u64>,
    calls: u64,
    taken: u64,
    faults: u64,
}

impl Model for MemSource {
    ghost use Rattle.std.specs.Prelude.{◌<◌, ◌≤◌, drop, length};
    ghost use Rattle.units_io.specs.Memory.{SourceState};

    ghost Value = { SourceState };

    ghost view = { λ s. record {
      bytes_left = drop s.at s.bytes.items;
      piece = s.piece;
      fails = s.fails.items;
      calls = s.calls;
      taken_count = s.taken;
      faults = s.faults;
    } };

    ghost invariant = { λ s. (s.at ≤ length s.bytes.items) × (0 < s.piece) };
}

impl MemSource {
    /// Creates a source that yields `content`, at most `piece` bytes per call. `fails` lists the numbers of the calls
    /// that fail, counted from 1.
    pub fn new(
        alloc: Global,
        content: &[u8],
        piece: usize,
        fails: &[u64],
    ) -> Result<MemSource, AllocError>
        requires { 0 < piece }
        ensures { IfOk result (λ s. s ≡ record {
          bytes_left = content.now;
          piece = piece;
          fails = fails.now;
          calls = 0;
          taken_count = 0;
          faults = 0;
        }) }
    {
        let bytes = Vec::from_slice(alloc, content)?;
        let fails = Vec::from_slice(alloc, fails)?;
        Ok(MemSource {
            bytes,
            at: 0,
            piece,
            fails,
            calls: 0,
            taken: 0,
            faults: 0,
        })
    }
}

impl Source for MemSource {
    ghost left = { λ s. Some s.bytes_left };

    ghost taken = { λ s. s.taken_count };

    ghost faults = { λ s. s.faults };

    fn take(&mut self, buf: &mut [u8]) -> Result<usize, Failed>
        requires { 0 < length buf.old }
        ensures within { IfOk result (λ n. n ≤ length buf.new) }
        ensures bytes { IfOk result (λ n. self.old.bytes_left ≡ take n buf.new ++ self.new.bytes_left) }
        ensures most { IfOk result (λ n.
            n ≡ min self.old.piece (min (length buf.old) (length self.old.bytes_left))) }
        ensures end { IfOk result (λ n. n ≡ 0 → self.old.bytes_left ≡ []) }
        ensures kept { OnErr result (self.new.bytes_left ≡ self.old.bytes_left) }
        ensures count { MatchResult result
            (λ n. self.new.taken_count ≡ min (self.old.taken_count + n) (2 ^ 64 - 1))
            (λ _. self.new.taken_count ≡ self.old.taken_count) }
        ensures cause { HasIoFailureCause self.old.faults self.new.faults result }
        ensures listed { IsErr result ↔ Contains self.old.fails (next_io_count self.old.calls) }
        ensures counted { MatchResult result (λ _. self.new.faults ≡ self.old.faults)
            (λ _. self.new.faults ≡ next_io_count self.old.faults) }
        ensures calls { self.new.calls ≡ next_io_count self.old.calls }
        ensures rest { (self.new.piece ≡ self.old.piece) × (self.new.fails ≡ self.old.fails) }
    {
        self.calls = self.calls.saturating_add(1);
        if self.fails.contains(&self.calls) {
            self.faults = self.faults.saturating_add(1);
            return Err(Failed);
        }
        let room = buf.len().min(self.piece);
        let n = room.min(self.bytes.len() - self.at);
        let end = self.at + n;
        buf[..n].copy_from_slice(&self.bytes[self.at..end]);
        self.at = end;
        self.taken = self.taken.saturating_add(n as u64);
        Ok(n)
    }
}
