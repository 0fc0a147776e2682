// The square root of a positive finite f64, on its bit pattern and in whole numbers: the number is a * 4^h / 4^1074. The schoolbook
// gives 54 binary digits of the root of a * 4^27, 53 that an f64 keeps and one by which they are rounded.
ghost use Rattle.std.specs.Prelude.{◌^◌, ◌≤◌, ◌<◌};
ghost use Rattle.floats.specs.Steps.{Scaling, RootPattern};

use super::schoolbook;

// a * 4^h
#[derive(Clone, Copy)]
pub struct Scaled {
    pub a: u64,
    pub h: u64,
}

// The pattern b of a subnormal, scaled: two binary places at a time until there are 53 digits.
fn scale_subnormal(b: u64) -> Scaled
    requires b_nonzero { 0 < b }
    requires b_bound { b < 2 ^ 52 }
    ensures { Scaling b result.a result.h }
{
    let mut a = b;
    let mut d: u64 = 0;
    while a < 0x10_0000_0000_0000 {
        a = 4 * a;
        d += 1;
    }
    Scaled { a, h: 537 - d }
}

// The pattern b of a normal number, scaled: at an odd exponent one factor of two goes to the digits.
#[tactic(auto, using(crate::proofs::Reading::even_scaled, crate::proofs::Reading::odd_scaled))]
fn scale_normal(b: u64) -> Scaled
    requires bound { 2 ^ 52 ≤ b }
    requires b_bound { b < 0x7ff0_0000_0000_0000 }
    ensures { Scaling b result.a result.h }
{
    let m = 0x10_0000_0000_0000 + b % 0x10_0000_0000_0000;
    let j = b / 0x10_0000_0000_0000 - 1;
    let h = 537 + j / 2;
    if j % 2 == 0 {
        Scaled { a: m, h }
    } else {
        Scaled { a: 2 * m, h }
    }
}

// The pattern b, scaled: a whole number whose root has the digits of the root, and how far it was moved.
// Rules out: an odd exponent halved as if it were even; a subnormal read with the leading digit of a normal number.
pub fn scale(b: u64) -> Scaled
    requires b_nonzero { 0 < b }
    requires b_bound { b < 0x7ff0_0000_0000_0000 }
    ensures { Scaling b result.a result.h }
{
    if b < 0x10_0000_0000_0000 {
        scale_subnormal(b)
    } else {
        scale_normal(b)
    }
}

// The pattern of the root of the number whose pattern is b: 27 digits from those of a, and 27 more from as many pairs of zeros.
// A pattern does not store the leading digit: added with the others, it raises the exponent's field by one, which h - 26 is short of.
// Rules out: the remainder of the first digits dropped; the second digits brought down before the first.
pub fn root_pattern(b: u64) -> u64
    requires b_nonzero { 0 < b }
    requires b_bound { b < 0x7ff0_0000_0000_0000 }
    ensures { RootPattern b result }
{
    let s = scale(b);
    let first = schoolbook::extract(0, 0, s.a);
    let all = schoolbook::extract(first.root, first.rest, 0);
    (s.h - 26) * 0x10_0000_0000_0000 + schoolbook::round_off(all.root, all.rest)
}
