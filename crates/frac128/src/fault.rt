//! Why a step on fractions has no answer.

ghost use Rattle.std.specs.Prelude.{◌≡◌};
ghost use Rattle.frac128.specs.Faults.{frac_fault_text};

/// Why a step on fractions has no answer.
#[derive(Clone, Copy, Debug, PartialEq, Eq)]
pub enum FracFault {
    /// A numerator or a denominator has more than 127 bits.
    Overflow,
    /// A divisor is 0, or the base of a negative power is 0.
    DivisionByZero,
    /// The root is no fraction.
    NoExactRoot,
}

impl FracFault {
    /// Returns the text of the fault: `overflow`, `division by zero` or `no exact root`.
    pub fn text(self) -> &'static [u8]
        ensures { result.now ≡ frac_fault_text self }
    {
        match self {
            FracFault::Overflow => b"overflow",
            FracFault::DivisionByZero => b"division by zero",
            FracFault::NoExactRoot => b"no exact root",
        }
    }
}
