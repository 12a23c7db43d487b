//! The digit of a word with a power.

ghost use Rattle.std.specs.Prelude.{◌≡◌, ◌-◌, IsTrue, Ok};
ghost use Rattle.frac128.specs.Decimals.{numeral_reading};
ghost use Rattle.expr_tree.specs.Names.{is_power_byte};
ghost use Rattle.expr_tree.specs.TokenViews.{power_token_numeral, seen_token_digit};

use frac128::{Numeral, read_numeral};

// A digit from 2 to 9. It keeps a token smaller than a numeral after the word would.
#[derive(Clone, Copy)]
pub(crate) enum PowerDigit {
    Two,
    Three,
    Four,
    Five,
    Six,
    Seven,
    Eight,
    Nine,
}

impl PowerDigit {
    // Returns the digit of an ASCII byte.
    pub(crate) fn of_byte(byte: u8) -> PowerDigit
        requires { IsTrue (is_power_byte byte) }
        ensures { seen_token_digit result ≡ byte - 48 }
    {
        match byte {
            b'2' => PowerDigit::Two,
            b'3' => PowerDigit::Three,
            b'4' => PowerDigit::Four,
            b'5' => PowerDigit::Five,
            b'6' => PowerDigit::Six,
            b'7' => PowerDigit::Seven,
            b'8' => PowerDigit::Eight,
            b'9' => PowerDigit::Nine,
            _ => unreachable!(),
        }
    }

    // Returns the digit as a numeral.
    pub(crate) fn numeral(self) -> Numeral
        ensures { result ≡ power_token_numeral self }
    {
        match read_numeral(self.text()) {
            Ok(numeral) => numeral,
            Err(_) => unreachable!(),
        }
    }

    // Returns the digit as text.
    fn text(self) -> &'static [u8]
        ensures { numeral_reading result.now ≡ Ok (power_token_numeral self) }
    {
        match self {
            PowerDigit::Two => b"2",
            PowerDigit::Three => b"3",
            PowerDigit::Four => b"4",
            PowerDigit::Five => b"5",
            PowerDigit::Six => b"6",
            PowerDigit::Seven => b"7",
            PowerDigit::Eight => b"8",
            PowerDigit::Nine => b"9",
        }
    }
}
