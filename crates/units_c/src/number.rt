//! Numbers as 64-bit words, which C can read.

ghost use Rattle.std.specs.Prelude.{◌≡◌, ◌/◌, ◌%◌, ◌^◌};
ghost use Rattle.units_c.specs.Numbers as spec;

use frac128::Frac;

const WORD: u128 = 1 << 64;

/// A fraction in lowest terms. The numerator and the denominator have at most 127 bits each.
#[repr(C)]
pub struct UnitsNumber {
    /// 1 if the number is below 0, else 0.
    pub negative: u64,
    pub numerator_high: u64,
    pub numerator_low: u64,
    pub denominator_high: u64,
    pub denominator_low: u64,
}

impl UnitsNumber {
    /// Stores a fraction.
    pub(crate) fn set(&mut self, x: &Frac)
        ensures { spec.IsCNumber self.new x.now }
    {
        let top = x.num().unsigned_abs();
        let bottom = x.den().unsigned_abs();
        self.negative = if x.num() < 0 { 1 } else { 0 };
        self.numerator_high = high_word(top);
        self.numerator_low = low_word(top);
        self.denominator_high = high_word(bottom);
        self.denominator_low = low_word(bottom);
    }
}

// Returns the high 64 bits of a number.
fn high_word(n: u128) -> u64
    ensures { result ≡ n / 2 ^ 64 }
{
    (n / WORD) as u64
}

// Returns the low 64 bits of a number.
fn low_word(n: u128) -> u64
    ensures { result ≡ n % 2 ^ 64 }
{
    (n % WORD) as u64
}
