//! The next decimal digit of a fraction, in 128 bits.

ghost use Rattle.std.specs.Prelude.{◌≡◌, ◌<◌, ◌≤◌, ◌+◌, ◌*◌, ◌^◌};

// A whole number and a remainder over the bottom.
#[derive(Clone, Copy)]
pub(crate) struct Mixed {
    pub(crate) whole: u128,
    pub(crate) rest: u128,
}

// Returns ten times `rest` over `bottom`. Since ten times `rest` may not fit in 128 bits, `bottom` is subtracted after
// each doubling.
pub(crate) fn ten_times(rest: u128, bottom: u128) -> Mixed
    requires rest { rest < bottom }
    requires bottom { bottom ≤ 2 ^ 127 }
    ensures value { result.whole * bottom + result.rest ≡ 10 * rest }
    ensures rest { result.rest < bottom }
    ensures digit { result.whole < 10 }
{
    let two = carry_whole(0, rest * 2, bottom);
    let four = carry_whole(two.whole * 2, two.rest * 2, bottom);
    let five = carry_whole(four.whole, four.rest + rest, bottom);
    carry_whole(five.whole * 2, five.rest * 2, bottom)
}

// Returns the whole number and the part over `bottom`, with `bottom` carried from the part if it is not below
// `bottom`.
fn carry_whole(whole: u128, part: u128, bottom: u128) -> Mixed
    requires few { whole < 100 }
    requires part { part < 2 * bottom }
    ensures value { result.whole * bottom + result.rest ≡ whole * bottom + part }
    ensures rest { result.rest < bottom }
    ensures few { result.whole ≤ whole + 1 }
{
    if part < bottom {
        Mixed { whole, rest: part }
    } else {
        Mixed {
            whole: whole + 1,
            rest: part - bottom,
        }
    }
}
