// The length of two finite numbers with their signs clear, on their bit patterns and in whole numbers. A unit is the smallest positive
// f64, 2^-1074.
ghost use Rattle.std.specs.Prelude.{◌≡◌, false, ◌+◌, ◌*◌, ◌^◌, ◌≤◌, ◌<◌};
ghost use Rattle.std.specs.Float.{binary64};
ghost use Rattle.std.specs.Float.Ieee.{of_bits, nan_bits, units};
ghost use Rattle.hypot.specs.Steps.{InUnits, Leading, marked, LengthPattern};

use super::quick_root;
use super::squares::{self, Sum};

// m * 2^e units
#[derive(Clone, Copy)]
pub struct Units {
    pub m: u64,
    pub e: u64,
}

// The leading digits of a root, `moved` binary places up: (root * root + rest) * 4^moved and, below that, what is lost, in parts of 4^s.
#[derive(Clone, Copy)]
pub struct Digits {
    pub root: u64,
    pub rest: u64,
    pub lost: u64,
    pub moved: u64,
}

// The number whose pattern is b, in units. A pattern does not store the leading digit of a normal number.
// Rules out: a subnormal read with the leading digit of a normal number.
#[tactic(auto, using(crate::proofs::Length::subnormal, crate::proofs::Length::normal))]
fn in_units(b: u64) -> Units
    requires { b < 0x7ff0_0000_0000_0000 }
    ensures { InUnits b result.m result.e }
{
    if b < 0x10_0000_0000_0000 {
        return Units { m: b, e: 0 };
    }
    Units {
        m: 0x10_0000_0000_0000 + b % 0x10_0000_0000_0000,
        e: b / 0x10_0000_0000_0000 - 1,
    }
}

// The pattern of q * 2^k units; where that is beyond the largest number, it is the infinity's.
// Rules out: a pattern beyond the infinity's, which is a NaN's.
fn pattern_of(q: u64, k: u64) -> u64
    requires q_bound { q ≤ 2 ^ 53 }
    requires k_bound { k ≤ 2046 }
    requires bound { 0 < k → 2 ^ 52 ≤ q }
    ensures result_value { of_bits binary64 result ≡ units binary64 false q k }
    ensures result_value_2 { nan_bits binary64 result ≡ false }
{
    let b = k * 0x10_0000_0000_0000 + q;
    if b < 0x7ff0_0000_0000_0000 {
        b
    } else {
        0x7ff0_0000_0000_0000
    }
}

// The leading binary digits, at most 54, of twice the root of a * a + b * b / 4^s. Where the sum has a digit too many, two digits of it go
// to what is lost, and the root is one place further up.
// Rules out: those two digits dropped.
fn leading(a: u64, b: u64, s: u64) -> Digits
    requires a_bound { a < 2 ^ 53 }
    requires b_bound { b < 2 ^ 53 }
    requires s_bound { s < 27 }
    ensures { Leading a b s result.root result.rest result.lost result.moved }
{
    let Sum { high, low, lost } = squares::sum_of_squares(a, b, s);
    if high < 0x40_0000_0000_0000 {
        let r = quick_root::root_of(high, low);
        return Digits {
            root: r.root,
            rest: r.rest,
            lost,
            moved: 0,
        };
    }
    let r = quick_root::root_of(high / 4, high % 4 * 0x10_0000_0000_0000 + low / 4);
    Digits {
        root: r.root,
        rest: r.rest,
        lost: low % 4 * squares::power_of_four(s) + lost,
        moved: 1,
    }
}

// The remainder with what is lost below it: `round_off` asks of it only whether there is one.
// Rules out: what is lost forgotten, so that a length just above a tie is rounded as a tie.
fn with_lost(rest: u64, lost: u64) -> u64
    ensures { result ≡ marked rest lost }
{
    if rest == 0 && 0 < lost { 1 } else { rest }
}

// The pattern of the length of the numbers whose patterns are p, the larger one, and q. Where q is 0, or its exponent is 27 or more below
// that of p, it adds less than half a unit in the last place: the length is p.
// Rules out: q left out where it still counts.
pub fn length_pattern(p: u64, q: u64) -> u64
    requires q_le_p { q ≤ p }
    requires p_bound { p < 0x7ff0_0000_0000_0000 }
    ensures { LengthPattern p q result }
{
    if q == 0 {
        return p;
    }
    let x = in_units(p);
    let y = in_units(q);
    let s = x.e - y.e;
    if 27 <= s {
        return p;
    }
    let d = leading(x.m, y.m, s);
    let root = floats::schoolbook::round_off(d.root, with_lost(d.rest, d.lost));
    pattern_of(root, x.e + d.moved)
}
