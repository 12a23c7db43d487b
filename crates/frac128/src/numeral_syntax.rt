//! The syntax of numerals.

ghost use Rattle.std.specs.Prelude.{◌≡◌, ◌<◌, ◌≤◌, ◌||◌, true, length, take};
ghost use Rattle.std.specs.List.{list_all};
ghost use Rattle.frac128.specs.Numerals.{is_numeral_digit, is_numeral_exponent_mark, is_numeral_point};
ghost use Rattle.frac128.specs.Numerals.{longest_numeral_len};
ghost use Rattle.frac128.specs.Stages.{numeral_byte_kind, numeral_may_end, numeral_stage_after};

// The kind of a byte in a numeral.
#[derive(Clone, Copy)]
enum Kind {
    Digit,
    Point,
    Mark,
    Sign,
    Other,
}

// The part of a numeral that the bytes so far have reached.
#[derive(Clone, Copy)]
enum Stage {
    Start,
    Whole,
    Pointed,
    Fraction,
    Marked,
    Signed,
    Exponent,
}

/// Returns the length of the longest numeral at the front of `bytes`, or 0 if there is none.
pub fn numeral_len(bytes: &[u8]) -> usize
    ensures { result ≡ longest_numeral_len bytes.now }
{
    let digits = whole_len(bytes);
    if digits > 0 {
        return digits;
    }
    staged_len(bytes)
}

// The length of the longest numeral at the front of `bytes` if it is digits alone. 0 if there is
// none, or if a point or a mark follows the digits.
pub(crate) fn whole_len(bytes: &[u8]) -> usize
    ensures len { 0 < result → result ≡ longest_numeral_len bytes.now }
    ensures digits { list_all is_numeral_digit (take result bytes.now) ≡ true }
    ensures within { result ≤ length bytes.now }
{
    for (i, &byte) in bytes.iter().enumerate() {
        if !byte.is_ascii_digit() {
            return if goes_on(byte) { 0 } else { i };
        }
    }
    bytes.len()
}

// Whether a numeral may continue with this byte after a run of digits.
fn goes_on(byte: u8) -> bool
    ensures { result ≡ (is_numeral_point byte || is_numeral_exponent_mark byte) }
{
    byte == b'.' || byte == b'E' || byte == b'e'
}

// The length of the longest numeral at the front of `bytes`, or 0 if there is none, stage by stage.
pub(crate) fn staged_len(bytes: &[u8]) -> usize
    ensures { result ≡ longest_numeral_len bytes.now }
{
    let mut stage = Stage::Start;
    let mut len = 0;
    for (i, &byte) in bytes.iter().enumerate() {
        // A digit leaves a stage at which a numeral may end as it is.
        if byte.is_ascii_digit() && stage.may_end() {
            len = i + 1;
            continue;
        }
        match stage.after(Kind::of(byte)) {
            Some(next) => stage = next,
            None => return len,
        }
        if stage.may_end() {
            len = i + 1;
        }
    }
    len
}

impl Kind {
    // The kind of a byte.
    fn of(byte: u8) -> Kind
        ensures { result ≡ numeral_byte_kind byte }
    {
        match byte {
            b'0'..=b'9' => Kind::Digit,
            b'.' => Kind::Point,
            b'E' | b'e' => Kind::Mark,
            b'+' | b'-' => Kind::Sign,
            _ => Kind::Other,
        }
    }
}

impl Stage {
    // The stage after one more byte, or `None` if no numeral continues with it.
    fn after(self, kind: Kind) -> Option<Stage>
        ensures { result ≡ numeral_stage_after self kind }
    {
        match (self, kind) {
            (Stage::Start | Stage::Whole, Kind::Digit) => Some(Stage::Whole),
            (Stage::Start, Kind::Point) => Some(Stage::Pointed),
            (Stage::Whole, Kind::Point) => Some(Stage::Fraction),
            (Stage::Pointed | Stage::Fraction, Kind::Digit) => Some(Stage::Fraction),
            (Stage::Whole | Stage::Fraction, Kind::Mark) => Some(Stage::Marked),
            (Stage::Marked, Kind::Sign) => Some(Stage::Signed),
            (Stage::Marked | Stage::Signed | Stage::Exponent, Kind::Digit) => Some(Stage::Exponent),
            _ => None,
        }
    }

    // Whether a numeral may end at the stage.
    fn may_end(self) -> bool
        ensures { result ≡ numeral_may_end self }
    {
        matches!(self, Stage::Whole | Stage::Fraction | Stage::Exponent)
    }
}
