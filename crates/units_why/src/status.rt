//! The exit status of a run.

ghost use Rattle.std.specs.Prelude.{◌≡◌};
ghost use Rattle.units_why.specs.Statuses as spec;

/// The outcome of a run. The numbers are the same as those of `units`.
#[derive(Clone, Copy)]
pub(crate) enum Status {
    /// The answer is written.
    Done,
    /// The value is a fault or a conformability error, or the definitions have findings.
    Refused,
    /// The command line is not valid.
    Usage,
    /// The definition file is absent, too long, or too much for a deck.
    NoFile,
    /// A file could not be read.
    ReadFault,
    /// The answer could not be written.
    WriteFault,
    /// There was not enough memory.
    NoMemory,
}

impl Status {
    /// Returns the exit code of the process.
    pub(crate) fn code(self) -> u8
        ensures { result ≡ spec.why_code_of self }
    {
        match self {
            Status::Done => 0,
            Status::Refused => 1,
            Status::Usage => 2,
            Status::NoFile => 3,
            Status::ReadFault => 4,
            Status::WriteFault => 5,
            Status::NoMemory => 6,
        }
    }
}
