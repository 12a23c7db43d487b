//! Byte sinks.
ghost use Rattle.std.specs.Prelude.{◌≡◌, ◌≤◌, ◌<◌, List, ℕ, length, take, IfOk, OnOk, OnErr};
ghost use Rattle.std.specs.declared.option.Option.{Option};
ghost use Rattle.units_io.specs.Faults.{HasIoFailureCause};
ghost use Rattle.units_io.specs.Bytes.{sink_bytes_append, SinkGrowsByPrefix};

use crate::source::Failed;

/// A sink for bytes.
pub trait Sink {
    /// The bytes written so far, if they are known.
    ghost written: { Self → Option (List ℕ) };

    /// The number of failed writes, up to `u64::MAX`.
    ghost faults: { Self → ℕ };

    /// Appends one or more bytes from the front of `bytes` and returns how many. A failure appends none.
    fn put(&mut self, bytes: &[u8]) -> Result<usize, Failed>
        requires { 0 < length bytes.now }
        ensures some { IfOk result (λ n. 0 < n) }
        ensures within { IfOk result (λ n. n ≤ length bytes.now) }
        ensures bytes { IfOk result (λ n. written self.new ≡ sink_bytes_append (written self.old) (take n bytes.now)) }
        ensures kept { OnErr result (written self.new ≡ written self.old) }
        ensures cause { HasIoFailureCause (faults self.old) (faults self.new) result };
}

/// Appends all of `bytes`. If it fails, a prefix of `bytes` has been appended.
pub fn put_all<O: Sink>(sink: &mut O, bytes: &[u8]) -> Result<(), Failed>
    ensures all { OnOk result (O.written sink.new ≡ sink_bytes_append (O.written sink.old) bytes.now) }
    ensures front { SinkGrowsByPrefix (O.written sink.old) (O.written sink.new) bytes.now }
    ensures cause { HasIoFailureCause (O.faults sink.old) (O.faults sink.new) result }
{
    let mut done = 0;
    while done < bytes.len() {
        done += sink.put(&bytes[done..])?;
    }
    Ok(())
}
