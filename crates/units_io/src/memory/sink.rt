//! A sink in memory.
ghost use Rattle.std.specs.Prelude.{◌≡◌, ◌≤◌, ◌<◌, ◌-◌, ◌++◌, ◌↔◌, ◌⊎◌, [], length, take, min, IfOk, OnErr, IsErr};
ghost use Rattle.std.specs.Prelude.{MatchResult, Some, Contains};
ghost use Rattle.units_io.specs.Faults.{HasIoFailureCause, next_io_count};

use crate::sink::Sink;
use crate::source::Failed;
use std::alloc::{AllocError, Global};
use std::marker::Model;

/// Memory of a limited size as a sink that takes a limited number of bytes per call and has calls that can be made to
/// fail.
#[derive(Drop)]
pub struct MemSink {
    bytes: Vec<u8>,
    room: usize,
    piece: usize,
    fails: Vec<u64>,
    calls: u64,
    faults: u64,
}

impl Model for MemSink {
    ghost use Rattle.std.specs.Prelude.{◌<◌, ◌≤◌, length, vec_capacity};
    ghost use Rattle.units_io.specs.Memory.{SinkState};

    ghost Value = { SinkState };

    ghost view = { λ s. record {
      written_bytes = s.bytes.items;
      room = s.room;
      piece = s.piece;
      fails = s.fails.items;
      calls = s.calls;
      faults = s.faults;
    } };

    ghost invariant = { λ s. (length s.bytes.items ≤ s.room) × (s.room ≤ vec_capacity s.bytes)
        × (0 < s.piece) };
}

impl MemSink {
    /// Creates a sink that holds at most `room` bytes and takes at most `piece` of them per call. `fails` lists the
    /// numbers of the calls that fail, counted from 1.
    pub fn new(
        alloc: Global,
        room: usize,
        piece: usize,
        fails: &[u64],
    ) -> Result<MemSink, AllocError>
        requires { 0 < piece }
        ensures { IfOk result (λ s. s ≡ record {
          written_bytes = [];
          room = room;
          piece = piece;
          fails = fails.now;
          calls = 0;
          faults = 0;
        }) }
    {
        let bytes = Vec::with_capacity(alloc, room)?;
        let fails = Vec::from_slice(alloc, fails)?;
        Ok(MemSink {
            bytes,
            room,
            piece,
            fails,
            calls: 0,
            faults: 0,
        })
    }

    /// Returns the bytes written so far.
    pub fn written(&self) -> &[u8]
        ensures { result.now ≡ self.now.written_bytes }
    {
        self.bytes.as_slice()
    }
}

impl Sink for MemSink {
    ghost written = { λ s. Some s.written_bytes };

    ghost faults = { λ s. s.faults };

    fn put(&mut self, bytes: &[u8]) -> Result<usize, Failed>
        requires { 0 < length bytes.now }
        ensures some { IfOk result (λ n. 0 < n) }
        ensures within { IfOk result (λ n. n ≤ length bytes.now) }
        ensures bytes { IfOk result (λ n. self.new.written_bytes ≡ self.old.written_bytes ++ take n bytes.now) }
        ensures most { IfOk result (λ n. n ≡ min self.old.piece
            (min (length bytes.now) (self.old.room - length self.old.written_bytes))) }
        ensures kept { OnErr result (self.new.written_bytes ≡ self.old.written_bytes) }
        ensures cause { HasIoFailureCause self.old.faults self.new.faults result }
        ensures listed { IsErr result ↔ (Contains self.old.fails (next_io_count self.old.calls)
            ⊎ (self.old.room ≤ length self.old.written_bytes)) }
        ensures counted { MatchResult result (λ _. self.new.faults ≡ self.old.faults)
            (λ _. self.new.faults ≡ next_io_count self.old.faults) }
        ensures calls { self.new.calls ≡ next_io_count self.old.calls }
        ensures rest { (self.new.room ≡ self.old.room) × (self.new.piece ≡ self.old.piece)
            × (self.new.fails ≡ self.old.fails) }
    {
        self.calls = self.calls.saturating_add(1);
        if self.fails.contains(&self.calls) || self.room <= self.bytes.len() {
            self.faults = self.faults.saturating_add(1);
            return Err(Failed);
        }
        let most = bytes.len().min(self.piece);
        let n = most.min(self.room - self.bytes.len());
        self.bytes.extend_from_slice(&bytes[..n]).unwrap();
        Ok(n)
    }
}
