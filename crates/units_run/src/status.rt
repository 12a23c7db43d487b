//! The status of a run.
ghost use Rattle.std.specs.Prelude.{◌≡◌};
ghost use Rattle.units_run.specs.Endings.{run_status_code};

/// How a run ended.
#[derive(Clone, Copy, Debug, PartialEq, Eq)]
pub enum Status {
    /// The run finished.
    Done,
    /// A reply is a fault or a conformability error, a check found something, or a cell is an error.
    Refused,
    /// The words are not a valid command line.
    Usage,
    /// The definition file is absent, too long, or exceeds the limits of a deck.
    NoFile,
    /// The source or the files failed, and have counted that.
    ReadFault,
    /// A sink failed, or a file could not be written; that is counted.
    WriteFault,
    /// Memory ran out.
    NoMemory,
    /// More than 4,294,967,296 bytes of the input of a session, or 16,777,216 of that of a column, were read.
    InputTooLong,
}

impl Status {
    /// Returns the exit status of the process.
    pub fn code(self) -> u8
        ensures { result ≡ run_status_code self }
    {
        match self {
            Status::Done => 0,
            Status::Refused => 1,
            Status::Usage => 2,
            Status::NoFile => 3,
            Status::ReadFault => 4,
            Status::WriteFault => 5,
            Status::NoMemory => 6,
            Status::InputTooLong => 7,
        }
    }
}
