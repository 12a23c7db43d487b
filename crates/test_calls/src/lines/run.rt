//! The run of a test program: its first word, its input, its output and its status.

ghost use Rattle.std.specs.Prelude.{◌≡◌, IfOk};
ghost use Rattle.std.specs.Process.{exit_status};

use std::alloc::{AllocError, Global};
use std::env::FillError;
use std::io;
use std::io::{Read, Write};
use std::process::ExitCode;
use std::rt::Env;

// The number of bytes of a word that is not too long to name a kind.
const LONGEST_WORD: usize = 256;

// Returns the first word of the command line, or an empty one if there is none.
pub(crate) fn first_word<R: Env>(rt: &R, alloc: Global) -> Result<Vec<u8>, AllocError> {
    let mut word = vec![in alloc; 0u8; LONGEST_WORD]?;
    match rt.arg(1, word.as_mut_slice()) {
        Ok(len) => word.truncate(len),
        Err(FillError::NotPresent) => word.clear(),
        Err(FillError::TooLong) => return Vec::from_slice(alloc, b"a word that is too long"),
    }
    Ok(word)
}

// Writes a message that a program knows no calls of the kind with this name, and which kinds it knows. Returns the
// status 2.
pub(crate) fn refuse_kind<O: Write>(
    errors: &mut O,
    program: &[u8],
    name: &[u8],
    kinds: &[u8],
) -> io::Result<ExitCode>
    ensures { IfOk result (λ code. exit_status code ≡ 2) }
{
    errors.write_all(program)?;
    if name.is_empty() {
        errors.write_all(b": no kind of calls is named")?;
    } else {
        errors.write_all(b": unknown kind of calls: ")?;
        errors.write_all(name)?;
    }
    errors.write_all(b"; the kinds are ")?;
    errors.write_all(kinds)?;
    errors.write_all(b"\n")?;
    Ok(ExitCode::from(2))
}

// Reads the input to its end.
pub(crate) fn read_all<I: Read>(alloc: Global, input: &mut I) -> io::Result<Vec<u8>> {
    let mut lines = Vec::new(alloc);
    input.read_to_end(&mut lines)?;
    Ok(lines)
}

// Writes the answers and returns the status 0.
pub(crate) fn write_all<O: Write>(output: &mut O, answers: &[u8]) -> io::Result<ExitCode>
    ensures { IfOk result (λ code. exit_status code ≡ 0) }
{
    output.write_all(answers)?;
    output.flush()?;
    Ok(ExitCode::SUCCESS)
}
