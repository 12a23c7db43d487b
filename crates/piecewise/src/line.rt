//! Straight lines through two points.

ghost use Rattle.std.specs.Prelude.{◌≡◌};
ghost use Rattle.piecewise.specs.Lines as spec;

use frac128::{Frac, FracFault};

// A line through two points, each given by its x and its y.
#[derive(Clone, Copy)]
pub(crate) struct Line<'a> {
    pub(crate) x0: &'a Frac,
    pub(crate) y0: &'a Frac,
    pub(crate) x1: &'a Frac,
    pub(crate) y1: &'a Frac,
}

impl Line<'_> {
    // Returns the y at x: y0 + (y1 - y0) * (x - x0) / (x1 - x0).
    #[tactic(auto, unfolding(crate::specs::Lines::y_on_line_of_points))]
    pub(crate) fn at(&self, x: &Frac) -> Result<Frac, FracFault>
        ensures { result ≡ spec.y_on_line_of_points (self.now.x0.now, self.now.y0.now)
            (self.now.x1.now, self.now.y1.now) x.now }
    {
        let rise = self.y1.sub(self.y0)?;
        let run = x.sub(self.x0)?;
        let product = rise.mul(&run)?;
        let width = self.x1.sub(self.x0)?;
        let part = product.div(&width)?;
        self.y0.add(&part)
    }
}
