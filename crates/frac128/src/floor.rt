//! The whole part.

ghost use Rattle.std.specs.Prelude.{◌≡◌};
ghost use Rattle.frac128.specs.Floor.{IsFractionFloor, fraction_floor};

use crate::fraction::Frac;
use crate::laws::floor_law;

impl Frac {
    /// Returns the greatest whole number that is at most the fraction.
    pub fn floor(&self) -> Frac
        ensures greatest { IsFractionFloor self.now result.num }
        ensures computed { result ≡ fraction_floor self.now }
    {
        floor_law();
        Frac::whole(self.num().div_euclid(self.den()))
    }
}
