//! A line that is not complete yet.

ghost use Rattle.std.specs.Prelude.{◌≡◌, ◌++◌, ◌≤◌, [], List, ℕ, Some, OnOk, IfSome, length};
ghost use Rattle.std.specs.Option.{option_copied};
ghost use Rattle.def_lines.specs.Words.{is_empty};
ghost use Rattle.session.specs.HeardLines.{longest_session_line, readable_session_line};

use std::alloc::{AllocError, Global};
use std::marker::Model;

/// The longest line that is read, in bytes.
pub(crate) const LONGEST_LINE: usize = 65_536;

/// The bytes of a line so far, or the fact that it is too long, which contracts see as `None`.
#[derive(Drop)]
pub(crate) struct Held {
    bytes: Vec<u8>,
    long: bool,
}

impl Model for Held {
    ghost use Rattle.std.specs.Prelude.{◌≤◌, List, ℕ, Some, None, length, if◌then◌else◌};
    ghost use Rattle.std.specs.declared.option.Option.{Option};
    ghost use Rattle.session.specs.HeardLines.{longest_session_line};

    ghost Value = { Option (List ℕ) };

    ghost view = { λ h. if h.long then None else Some h.bytes.items };

    ghost invariant = { λ h. length h.bytes.items ≤ longest_session_line };
}

impl Held {
    /// Returns an empty line. Allocates no memory.
    pub(crate) fn new(alloc: Global) -> Held
        ensures { result ≡ Some [] }
    {
        Held {
            bytes: Vec::new(alloc),
            long: false,
        }
    }

    /// Appends bytes to the line. The only error is running out of memory.
    pub(crate) fn add(&mut self, piece: &[u8]) -> Result<(), AllocError>
        ensures { (part : List ℕ) → self.old ≡ readable_session_line part
            → OnOk result (self.new ≡ readable_session_line (part ++ piece.now)) }
    {
        if self.long {
            return Ok(());
        }
        if piece.len() > LONGEST_LINE - self.bytes.len() {
            self.long = true;
            return Ok(());
        }
        self.bytes.extend_from_slice(piece)
    }

    /// Returns whether the line has no bytes yet.
    pub(crate) fn is_empty(&self) -> bool
        ensures { (part : List ℕ) → self.now ≡ readable_session_line part → result ≡ is_empty part }
    {
        !self.long && self.bytes.is_empty()
    }

    /// Returns the line, or `None` if it is too long.
    pub(crate) fn line(&self) -> Option<&[u8]>
        ensures is { option_copied result ≡ self.now }
        ensures short { IfSome result (λ line. length line.now ≤ longest_session_line) }
    {
        if self.long {
            return None;
        }
        Some(self.bytes.as_slice())
    }

    /// Empties the line.
    pub(crate) fn clear(&mut self)
        ensures { self.new ≡ Some [] }
    {
        self.bytes.clear();
        self.long = false;
    }
}
