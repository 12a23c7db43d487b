//! Tables of points.

ghost use Rattle.std.specs.Prelude.{◌≡◌, ◌<◌, IfOk, All, length};
ghost use Rattle.std.specs.Bool.{OnTrue};
ghost use Rattle.std.specs.Ordering.{is_lt};
ghost use Rattle.frac128.specs.Order.{fraction_order};
ghost use Rattle.piecewise.specs.Points as point_spec;
ghost use Rattle.piecewise.specs.Tables as spec;

use crate::fault::{PointsFault, TableFault};
use crate::line::Line;
use frac128::{Frac, order_law};
use std::alloc::{AllocError, Global};
use std::cmp::Ordering;
use std::marker::Model;

// The minimum and the maximum number of points of a table.
const FEWEST: usize = 2;

const MOST: usize = 1_000;

// An x and its y.
type Point = (Frac, Frac);

/// From 2 to 1,000 points, each an x and its y, with strictly increasing x.
pub struct Points {
    points: Vec<Point>,
}

// Written by hand, so that code that drops a list of points need not prove anything about its contents.
impl Drop for Points {
    fn drop(self) {
        let Points { points: _ } = self;
    }
}

impl Model for Points {
    ghost use Rattle.std.specs.Prelude.{List};
    ghost use Rattle.piecewise.specs.Lines.{Point};

    ghost Value = { List Point };

    ghost use Rattle.piecewise.specs.Points.{ArePoints};

    ghost view = { λ table. table.points.items };

    ghost invariant = { λ table. ArePoints table.points.items };
}

impl Points {
    /// Creates a table of these points, each an x and its y. The error is `BadPoints` if there are fewer than 2 points
    /// or more than 1,000, or if the x are not strictly increasing.
    pub fn new(alloc: Global, pairs: &[(Frac, Frac)]) -> Result<Points, PointsFault>
        ensures { point_spec.IsPointsResult pairs.now result }
    {
        if pairs.len() < FEWEST || pairs.len() > MOST || !rises(pairs) {
            return Err(PointsFault::BadPoints);
        }
        Ok(Points {
            points: Vec::from_slice(alloc, pairs)?,
        })
    }

    /// Returns the y at x, on the first segment between neighbours that contains x. The error is `OutsideTable` if no
    /// segment does, and `Number` with the fault of the first operation that fails.
    pub fn at(&self, x: &Frac) -> Result<Frac, TableFault>
        ensures { result ≡ spec.y_at_x_on_points self.now x.now }
    {
        order_law();
        let place = self
            .points
            .partition_point(|point| is_less(&point.0, x))
            .max(1);
        let left = &self.points[place - 1];
        if is_less(x, &left.0) || place == self.points.len() {
            return Err(TableFault::OutsideTable);
        }
        y_on(left, &self.points[place], x)
    }

    /// Returns the x at y, on the first segment between neighbours that contains y. The segment may rise or fall; if
    /// it is flat, the result is the x of its left end. The error is `OutsideTable` if no segment contains y, and
    /// `Number` with the fault of the first operation that fails.
    pub fn back(&self, y: &Frac) -> Result<Frac, TableFault>
        ensures { result ≡ spec.x_at_y_on_points self.now y.now }
    {
        let mut before = self.points[0].1.cmp(y);
        for i in 1..self.points.len() {
            let right = &self.points[i];
            let after = right.1.cmp(y);
            if encloses(before, after) {
                return x_on(&self.points[i - 1], right, y);
            }
            before = after;
        }
        Err(TableFault::OutsideTable)
    }

    /// Returns a copy of the table.
    pub fn copy(&self, alloc: Global) -> Result<Points, AllocError>
        ensures { IfOk result (λ points. points ≡ self.now) }
    {
        Ok(Points {
            points: Vec::from_slice(alloc, &self.points)?,
        })
    }
}

// Reports whether each x is less than the next one. The denominators are those of fractions.
fn rises(points: &[Point]) -> bool
    requires { 1 < length points.now }
    ensures value { result ≡ point_spec.points_rise points.now }
    ensures denominators { OnTrue result (All (λ p. 0 < p.0.den) points.now) }
{
    for i in 1..points.len() {
        if !is_less(&points[i - 1].0, &points[i].0) {
            return false;
        }
    }
    true
}

// Reports whether one number is less than another. The denominators are those of fractions.
fn is_less(left: &Frac, right: &Frac) -> bool
    ensures order { result ≡ is_lt (fraction_order left.now right.now) }
    ensures denominators { (0 < left.now.den) × (0 < right.now.den) }
{
    left.cmp(right).is_lt()
}

// Reports whether a number lies between two others, inclusive, given how they compare with it.
fn encloses(left: Ordering, right: Ordering) -> bool
    ensures { result ≡ spec.are_coordinates_around left right }
{
    !matches!(
        (left, right),
        (Ordering::Less, Ordering::Less) | (Ordering::Greater, Ordering::Greater)
    )
}

// Returns the y at x on the segment.
fn y_on(left: &Point, right: &Point, x: &Frac) -> Result<Frac, TableFault>
    ensures { result ≡ spec.point_table_number_or_fault
        (spec.y_on_point_segment x.now (record { left_end = left.now; right_end = right.now })) }
{
    let line = Line {
        x0: &left.0,
        y0: &left.1,
        x1: &right.0,
        y1: &right.1,
    };
    line.at(x).map_err(TableFault::Number)
}

// Returns the x at y on the segment, or the x of its left end if it is flat.
fn x_on(left: &Point, right: &Point, y: &Frac) -> Result<Frac, TableFault>
    ensures { result ≡ spec.point_table_number_or_fault
        (spec.x_on_point_segment y.now (record { left_end = left.now; right_end = right.now })) }
{
    if left.1.cmp(&right.1).is_eq() {
        return Ok(left.0);
    }
    let exchanged = Line {
        x0: &left.1,
        y0: &left.0,
        x1: &right.1,
        y1: &right.0,
    };
    exchanged.at(y).map_err(TableFault::Number)
}
