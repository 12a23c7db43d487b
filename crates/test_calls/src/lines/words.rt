//! The arguments of calls.

use super::fault::CallFault;
use def_entry::{Key, KeyFault, cut_at, read_key};
use std::alloc::{AllocError, Global};
use std::str;

// Splits a text at the first space into the parts before and after it. If there is no space, the second part is empty.
pub(crate) fn split_at_space(text: &[u8]) -> (&[u8], &[u8]) {
    cut_at(text, b' ').unwrap_or((text, b""))
}

// Reads a number of lines or nodes.
pub(crate) fn read_number(text: &[u8]) -> Result<usize, CallFault> {
    read_usize(text).ok_or(CallFault::BadCall)
}

fn read_usize(text: &[u8]) -> Option<usize> {
    str::from_utf8(text).ok()?.parse().ok()
}

// Reads a key. Returns `None` if the text is not a key.
pub(crate) fn key_in(alloc: Global, text: &[u8]) -> Result<Option<Key>, AllocError> {
    match read_key(alloc, text) {
        Ok(key) => Ok(Some(key)),
        Err(KeyFault::NotKey) => Ok(None),
        Err(KeyFault::OutOfMemory) => Err(AllocError),
    }
}
