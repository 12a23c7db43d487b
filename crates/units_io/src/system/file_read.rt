//! Reading a file of the system.
ghost use Rattle.std.specs.Prelude.{◌≤◌, ◌+◌, length, vec_len, IfOk};
ghost use Rattle.units_io.specs.FileMap.{longest_file};

use crate::files::{FetchFault, LONGEST_FILE};
use crate::text::Text;
use std::alloc::{AllocError, Global};
use std::fs::{File, OpenFile};
use std::io;
use std::io::{ErrorKind, Read};
use std::rt::Files;

// The minimum free space in the buffer for each read.
const BLOCK: usize = 65_536;

// Returns the bytes of the file at this path, or `TooLong` if there are more than the limit.
pub(super) fn read_file<H: Files>(rt: &H, alloc: Global, path: &str) -> Result<Text, FetchFault>
    ensures { IfOk result (λ text. length text ≤ longest_file) }
{
    let mut file = open(rt, path)?;
    let mut bytes = vec![in alloc; 0; room_for(&file)]?;
    let len = read_whole(&mut file, &mut bytes)?;
    bytes.truncate(len);
    Ok(Text::from(bytes))
}

fn open<H: Files>(rt: &H, path: &str) -> Result<H::File, FetchFault> {
    match File::open(rt, path) {
        Ok(file) => Ok(file),
        Err(e) if e.kind() == ErrorKind::NotFound => Err(FetchFault::Absent),
        Err(_) => Err(FetchFault::Failed),
    }
}

// Returns the length that the system reports plus one block, so that most files are read in one go.
fn room_for<F: OpenFile>(file: &F) -> usize {
    match file.metadata() {
        Ok(metadata) => metadata.len().min(LONGEST_FILE as u64) as usize + BLOCK,
        Err(_) => BLOCK,
    }
}

// Reads up to the end of the file into `bytes`, which grows as needed, and returns the number of bytes read.
fn read_whole<F: Read>(file: &mut F, bytes: &mut Vec<u8>) -> Result<usize, FetchFault>
    ensures { IfOk result (λ len. len ≤ longest_file) }
{
    let mut end = 0;
    for _ in 0..u64::MAX {
        keep_block(bytes, end)?;
        let read = read_behind(file, bytes, end)?;
        if read == 0 {
            return Ok(end);
        }
        end += read;
        if end > LONGEST_FILE {
            return Err(FetchFault::TooLong);
        }
    }
    Err(FetchFault::Failed)
}

// Reads once into the space from `end` on, and returns the number of bytes read.
fn read_behind<F: Read>(file: &mut F, bytes: &mut Vec<u8>, end: usize) -> Result<usize, FetchFault>
    requires { end ≤ vec_len bytes.old }
    ensures { IfOk result (λ read. end + read ≤ vec_len bytes.new) }
{
    match read_some(file, &mut bytes.as_mut_slice()[end..]) {
        Ok(read) => Ok(read),
        Err(e) if e.kind() == ErrorKind::OutOfMemory => Err(FetchFault::OutOfMemory),
        Err(_) => Err(FetchFault::Failed),
    }
}

// Reads once, and retries if a signal interrupted the read.
fn read_some<F: Read>(file: &mut F, buf: &mut [u8]) -> io::Result<usize>
    ensures { IfOk result (λ n. n ≤ length buf.new) }
{
    for _ in 0..u64::MAX {
        match file.read(buf) {
            Err(e) if e.kind() == ErrorKind::Interrupted => {}
            answer => return answer,
        }
    }
    Err(io::Error::from(ErrorKind::Interrupted))
}

// Ensures that at least one block is free after `end`. The buffer grows by the amount read so far or by a block,
// whichever is larger.
fn keep_block(bytes: &mut Vec<u8>, end: usize) -> Result<(), AllocError>
    requires within { end ≤ vec_len bytes.old }
    requires limit { end ≤ longest_file }
    ensures { IfOk result (λ _. end + BLOCK ≤ vec_len bytes.new) }
{
    if bytes.len() - end < BLOCK {
        let wider = end + end.max(BLOCK);
        bytes.resize(wider, 0)?;
    }
    Ok(())
}
