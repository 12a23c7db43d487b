//! The status codes of calls.

ghost use Rattle.std.specs.Prelude.{◌≡◌};
ghost use Rattle.edited_table.specs.Statuses as spec;

/// The outcome of a call. C sees its number.
#[derive(Clone, Copy, Debug, PartialEq, Eq)]
pub enum Status {
    Done = 0,
    NoMemory = 1,
    NoRoom = 2,
    Closed = 3,
    AlreadyOpen = 4,
    BadOptions = 5,
    NoSuchFile = 16,
    FileTooLong = 17,
    ReadFailed = 18,
    DeckFull = 19,
    BadName = 20,
    BadDefinition = 21,
    BadTable = 22,
    BadKey = 23,
    NoSuchDefinition = 24,
    NothingToUndo = 25,
    NothingToRedo = 26,
    SyntaxError = 32,
    NumeralTooLong = 33,
    NestedTooDeep = 34,
    UnknownUnit = 35,
    RefusedFunction = 36,
    Cycle = 37,
    Overflow = 38,
    DivisionByZero = 39,
    NoExactRoot = 40,
    UnlikeSum = 41,
    ExponentNotNumber = 42,
    ExponentRange = 43,
    NotInDomain = 44,
    NotInRange = 45,
    WrongArgument = 46,
    WrongResult = 47,
    NoInverse = 48,
    OutsideTable = 49,
    ArgumentNeeded = 50,
    CallsTooDeep = 51,
    ListUnitNotPositive = 52,
    ConformabilityError = 53,
    CellError = 54,
}

impl Status {
    /// Returns the number of a status.
    pub fn code(self) -> u32
        ensures { result ≡ spec.status_code self }
    {
        self as u32
    }
}
