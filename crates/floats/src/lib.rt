// The leaves on f64: magnitude, min, max and the square root, and the bit pattern of a number.
#![tactic(auto)]

pub mod schoolbook;
pub mod square;

ghost use Rattle.std.specs.Prelude.{◌≡◌, false};
ghost use Rattle.std.specs.Float.{binary64};
ghost use Rattle.std.specs.Float.Ieee.{mul, is_nan, of_bits, to_bits};
ghost use Rattle.floats.specs.Pick.{magnitude_of, least_of, largest_of};
ghost use Rattle.floats.specs.Root.{root_of};

// x with its sign cleared; a NaN stays a NaN.
// Rules out: a magnitude that leaves -0 as it is; one that leaves every number as it is.
#[tactic(auto, using(crate::proofs::Signs::sign_cleared))]
pub fn magnitude(x: f64) -> f64
    ensures { result ≡ magnitude_of x }
{
    x.abs()
}

// The smaller one, where a is a number: one comparison, since none with a NaN for b is true.
// Here and in the next three the comparison is written out: of two equal zeros `f64::min` and `f64::max` may answer either.
// Rules out: a minimum that answers the NaN where b is one; one that answers the later of two equal zeros.
#[tactic(auto, using(crate::proofs::Picks::least_below, crate::proofs::Picks::least_not_below))]
pub fn lesser(a: f64, b: f64) -> f64
    requires { is_nan a ≡ false }
    ensures { result ≡ least_of a b }
{
    if b < a { b } else { a }
}

// The larger one, in the same way.
// Rules out: a maximum that answers the NaN where b is one; one that answers the smaller of two numbers.
#[tactic(auto, using(crate::proofs::Picks::largest_above, crate::proofs::Picks::largest_not_above))]
pub fn greater(a: f64, b: f64) -> f64
    requires { is_nan a ≡ false }
    ensures { result ≡ largest_of a b }
{
    if a < b { b } else { a }
}

// The smaller one of any two.
// Rules out: a minimum that answers NaN when one operand is; one that answers the later of two equal zeros.
#[tactic(auto, using(crate::proofs::Picks::least_at_nan))]
pub fn least(a: f64, b: f64) -> f64
    ensures { result ≡ least_of a b }
{
    if a.is_nan() {
        return b;
    }
    lesser(a, b)
}

// The larger one, in the same way.
// Rules out: a maximum that answers NaN when one operand is; one that answers the smaller of two numbers.
#[tactic(auto, using(crate::proofs::Picks::largest_at_nan))]
pub fn largest(a: f64, b: f64) -> f64
    ensures { result ≡ largest_of a b }
{
    if a.is_nan() {
        return b;
    }
    greater(a, b)
}

// The square root, rounded to the nearest f64, a tie to the even one. Not `f64::sqrt`: the digits are those of docs/ROOT.md, each with the
// laws that specs/Schoolbook.antt states.
// Rules out: a root cut off, or wrong in its last place; one that answers +0 or NaN for -0.
pub fn root(x: f64) -> f64
    ensures { result ≡ root_of binary64 x }
{
    if x.is_nan() {
        return x;
    }
    let b = x.to_bits();
    if b == 0 || b == 0x8000_0000_0000_0000 {
        return x;
    }
    if 0x8000_0000_0000_0000 < b {
        return f64::NAN;
    }
    if b == 0x7ff0_0000_0000_0000 {
        return x;
    }
    f64::from_bits(square::root_pattern(b))
}

// The root of the rounded square of x. Where that square is finite and above the least normal value, the root is the magnitude of x
// (proofs/RootOfSquare.antt), and no digit need be extracted; the test stays well within these ends.
// Rules out: the magnitude where the square underflows or overflows.
#[tactic(auto, using(crate::proofs::RootOfSquare::usual_square, crate::proofs::Nans::holds))]
pub fn root_of_square(x: f64) -> f64
    ensures { result ≡ root_of binary64 (mul binary64 x x) }
{
    let s = x * x;
    if 1e-300 <= s && s <= 1e300 {
        return magnitude(x);
    }
    root(s)
}

// The bit pattern of any number, one pattern for every NaN.
// Rules out: a pattern that keeps a NaN's payload, so that equal outcomes differ; one that drops the sign of -0.
#[tactic(auto, using(crate::proofs::Nans::nan_pattern))]
pub fn pattern(x: f64) -> u64
    ensures { result ≡ to_bits binary64 x }
{
    if x.is_nan() {
        return 0x7ff8_0000_0000_0000;
    }
    x.to_bits()
}

// The number of any bit pattern; every NaN's pattern gives the NaN.
// Rules out: a reading that takes an infinity for a NaN; one that takes a subnormal for zero.
#[tactic(auto, using(crate::proofs::Nans::above_infinity, crate::proofs::Nans::up_to_infinity))]
pub fn of_pattern(b: u64) -> f64
    ensures { result ≡ of_bits binary64 b }
{
    if 0x7ff0_0000_0000_0000 < b % 0x8000_0000_0000_0000 {
        return f64::NAN;
    }
    f64::from_bits(b)
}
