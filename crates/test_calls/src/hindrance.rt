//! A reader and a writer that fail once.

ghost use Rattle.std.specs.Prelude.{refl};

use std::io;
use std::io::{ErrorKind, Read, Write};
use units_io::{SteadyRead, SteadyWrite};

// A reader and a writer of one byte per call, whose second call returns this error.
#[derive(Drop)]
pub(crate) struct Hindered {
    calls: u64,
    error: ErrorKind,
}

impl Hindered {
    // Returns a reader and writer that was not called yet.
    pub(crate) fn new(error: ErrorKind) -> Hindered {
        Hindered { calls: 0, error }
    }

    // Counts a call. Returns the error for the second one.
    fn count_call(&mut self) -> io::Result<()> {
        self.calls = self.calls.saturating_add(1);
        if self.calls == 2 {
            return Err(io::Error::from(self.error));
        }
        Ok(())
    }
}

impl Read for Hindered {
    fn read(&mut self, buf: &mut [u8]) -> io::Result<usize> {
        self.count_call()?;
        if buf.is_empty() {
            return Ok(0);
        }
        buf[0] = b'x';
        Ok(1)
    }
}

impl Write for Hindered {
    fn write(&mut self, buf: &[u8]) -> io::Result<usize> {
        self.count_call()?;
        Ok(buf.len().min(1))
    }

    fn flush(&mut self) -> io::Result<()> {
        Ok(())
    }
}

// No contract states the bytes of these two.
impl SteadyRead for Hindered {
    ghost read_steady = { λ _ _ _. refl };
}

impl SteadyWrite for Hindered {
    ghost write_steady = { λ _ _ _. refl };
}
