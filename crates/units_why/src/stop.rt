//! The reasons why a run ends without an answer.

use crate::status::Status;
use deck::DeckFault;
use std::alloc::AllocError;

/// The reasons why a run ends without an answer.
#[derive(Clone, Copy)]
pub(crate) enum Stop {
    /// There is no file with this name.
    NoFile,
    /// The file is longer than the limit.
    FileTooLong,
    /// The lines exceed a limit of the deck.
    DeckFull,
    /// A file could not be read.
    ReadFailed,
    /// Memory ran out.
    OutOfMemory,
}

impl Stop {
    /// Returns the status of the run.
    pub(crate) fn status(self) -> Status {
        match self {
            Stop::NoFile | Stop::FileTooLong | Stop::DeckFull => Status::NoFile,
            Stop::ReadFailed => Status::ReadFault,
            Stop::OutOfMemory => Status::NoMemory,
        }
    }

    /// Returns the words before the name of the file, or `None` if the run prints no message.
    pub(crate) fn words(self) -> Option<&'static [u8]> {
        match self {
            Stop::NoFile => Some(b"units-why: no file: ".as_slice()),
            Stop::FileTooLong => Some(b"units-why: file too long: ".as_slice()),
            Stop::DeckFull => Some(b"units-why: deck full: ".as_slice()),
            Stop::ReadFailed | Stop::OutOfMemory => None,
        }
    }
}

impl From<DeckFault> for Stop {
    fn from(fault: DeckFault) -> Self {
        match fault {
            DeckFault::Absent | DeckFault::BadLine(_) | DeckFault::NoSuchKey => Stop::NoFile,
            DeckFault::TooLong => Stop::FileTooLong,
            DeckFault::DeckFull => Stop::DeckFull,
            DeckFault::ReadFailed => Stop::ReadFailed,
            DeckFault::OutOfMemory => Stop::OutOfMemory,
        }
    }
}

impl From<AllocError> for Stop {
    fn from(_: AllocError) -> Self {
        Stop::OutOfMemory
    }
}
