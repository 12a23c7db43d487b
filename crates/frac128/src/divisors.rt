//! The greatest common divisor.

ghost use Rattle.std.specs.Prelude.{◌≡◌, ◌<◌, ◌/◌, ◌%◌};
ghost use Rattle.frac128.specs.Divisors as spec;

// The greatest number of one word.
const NARROW: u128 = u64::MAX as u128;

// Returns the greatest common divisor. If one number fits in one word, a division leaves two such
// numbers; the rest needs no division, which is slow.
pub(crate) fn gcd(a: u128, b: u128) -> u128
    ensures is { result ≡ spec.gcd a b }
    ensures some { 0 < b → 0 < result }
{
    if a < b {
        ordered_gcd(b, a)
    } else {
        ordered_gcd(a, b)
    }
}

// The greatest common divisor of two numbers, of which the second is usually the smaller.
fn ordered_gcd(a: u128, b: u128) -> u128
    ensures { result ≡ spec.gcd a b }
{
    if b > NARROW {
        return wide_gcd(a, b);
    }
    let divisor = b as u64;
    match divisor {
        0 => a,
        1 => 1,
        _ => u128::from(narrow_gcd(rest(a, divisor), divisor)),
    }
}

// The remainder of a division, which is fast if the number fits in one word.
fn rest(a: u128, b: u64) -> u64
    requires { 0 < b }
    ensures { result ≡ a % b }
{
    if a > NARROW {
        (a % u128::from(b)) as u64
    } else {
        a as u64 % b
    }
}

// The greatest common divisor of two numbers, the second of which is above 0: that of their odd
// parts, times the smaller power of two.
fn narrow_gcd(a: u64, b: u64) -> u64
    requires { 0 < b }
    ensures { result ≡ spec.gcd a b }
{
    if a == 0 {
        return b;
    }
    let (i, j) = (a.trailing_zeros(), b.trailing_zeros());
    narrow_odd_gcd(a >> i, b >> j) << i.min(j)
}

// The greatest common divisor in two words, with the second number above 0.
fn wide_gcd(a: u128, b: u128) -> u128
    requires { 0 < b }
    ensures { result ≡ spec.gcd a b }
{
    if a == 0 {
        return b;
    }
    let (i, j) = (a.trailing_zeros(), b.trailing_zeros());
    wide_odd_gcd(a >> i, b >> j) << i.min(j)
}

// The greatest common divisor of two odd numbers. Their difference is even, and its factors of two
// do not matter.
fn narrow_odd_gcd(a: u64, b: u64) -> u64
    requires odd_a { a % 2 ≡ 1 }
    requires odd_b { b % 2 ≡ 1 }
    ensures { result ≡ spec.gcd a b }
{
    let mut x = a;
    let mut y = b;
    while x != y {
        let difference = x.abs_diff(y);
        x = x.min(y);
        y = difference >> difference.trailing_zeros();
    }
    x
}

// The greatest common divisor of two odd numbers, in two words as long as one of them needs two.
fn wide_odd_gcd(a: u128, b: u128) -> u128
    requires odd_a { a % 2 ≡ 1 }
    requires odd_b { b % 2 ≡ 1 }
    ensures { result ≡ spec.gcd a b }
{
    let mut x = a;
    let mut y = b;
    while x > NARROW || y > NARROW {
        if x == y {
            return x;
        }
        let difference = x.abs_diff(y);
        x = x.min(y);
        y = difference >> difference.trailing_zeros();
    }
    u128::from(narrow_odd_gcd(x as u64, y as u64))
}

// The quotient, without a division if the divisor is 1.
pub(crate) fn quotient(a: u128, divisor: u128) -> u128
    requires { 0 < divisor }
    ensures { result ≡ a / divisor }
{
    if divisor == 1 { a } else { a / divisor }
}
