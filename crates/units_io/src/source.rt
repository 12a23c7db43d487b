//! Byte sources.
ghost use Rattle.std.specs.Prelude.{◌≡◌, ◌≤◌, ◌<◌, ◌+◌, ◌-◌, ◌^◌, List, ℕ, length, take, min, IfOk, OnErr, MatchResult};
ghost use Rattle.std.specs.declared.option.Option.{Option};
ghost use Rattle.units_io.specs.Faults.{HasIoFailureCause};
ghost use Rattle.units_io.specs.Bytes.{LosesSourceBytes, IsNoSourceByteLeft};

use thiserror::Error;

/// A read or a write failed, and the source or sink that failed has counted the failure.
#[derive(Clone, Copy, Debug, PartialEq, Eq, Error)]
#[error("a read or a write failed")]
pub struct Failed;

/// A source of bytes.
pub trait Source {
    /// The bytes that are left, if they are known.
    ghost left: { Self → Option (List ℕ) };

    /// The number of bytes taken, up to `u64::MAX`.
    ghost taken: { Self → ℕ };

    /// The number of failed reads, up to `u64::MAX`.
    ghost faults: { Self → ℕ };

    /// Moves the next bytes to the front of `buf` and returns how many. Returns 0 only if no byte is left. A failure
    /// takes no byte.
    fn take(&mut self, buf: &mut [u8]) -> Result<usize, Failed>
        requires { 0 < length buf.old }
        ensures within { IfOk result (λ n. n ≤ length buf.new) }
        ensures bytes { IfOk result (λ n. LosesSourceBytes (left self.old) (left self.new) (take n buf.new)) }
        ensures end { IfOk result (λ n. n ≡ 0 → IsNoSourceByteLeft (left self.old)) }
        ensures kept { OnErr result (left self.new ≡ left self.old) }
        ensures count { MatchResult result
            (λ n. taken self.new ≡ min (taken self.old + n) (2 ^ 64 - 1))
            (λ _. taken self.new ≡ taken self.old) }
        ensures cause { HasIoFailureCause (faults self.old) (faults self.new) result };
}
