// The square root as it is taught: two binary digits are brought down at a time, each pair gives one digit of the root, and every
// remainder is there to be seen. docs/ROOT.md is the lesson, specs/Schoolbook.antt has the definitions and the three laws.
//
// The root of 2 to eight binary digits. The pairs of 2 are 10 and then 00 without end.
//
//     pair    brought      trial  digit     rest      root
//       10         10          1      1        1         1
//       00        100        101      0      100        10
//       00      10000       1001      1      111       101
//       00      11100      10101      1      111      1011
//       00      11100     101101      0    11100     10110
//       00    1110000    1011001      1    10111    101101
//       00    1011100   10110101      0  1011100   1011010
//       00  101110000  101101001      1      111  10110101
//
// 10110101 is 181, and 181 * 181 + 7 is 32768, which is 2 with seven pairs of zeros behind it. So the root of 2 is 1.0110101 and a little
// more. With the last digit rounded off it is 1.011011: the digit is 1, and there is a remainder.
ghost use Rattle.std.specs.Prelude.{◌≡◌, ◌+◌, ◌*◌, ◌^◌, ◌≤◌, ◌<◌};
ghost use Rattle.floats.specs.Schoolbook.{Extracted, rounded_off};

// The digits of the root so far, and the remainder.
#[derive(Clone, Copy)]
pub struct Extraction {
    pub root: u64,
    pub rest: u64,
}

// The next digit. Two digits are brought down behind the remainder. The trial divisor is twice the root so far with a digit 1 behind it:
// what the square of the root would grow by. Where it fits, the digit is 1 and it is taken off; else the digit is 0.
// Rules out: one digit brought down in place of two; a digit 1 where the trial divisor does not fit, or without its being taken off.
pub fn step(root: u64, rest: u64, pair: u64) -> Extraction
    requires root_bound { root < 2 ^ 53 }
    requires rest_bound { rest ≤ 2 * root }
    requires pair_bound { pair < 4 }
    ensures { Extracted (4 * (root * root + rest) + pair) result.root result.rest }
{
    let brought = 4 * rest + pair;
    let trial = 4 * root + 1;
    let digit = if trial <= brought { 1 } else { 0 };
    let root = 2 * root + digit;
    let rest = brought - digit * trial;
    Extraction { root, rest }
}

// 27 digits more: the 54 binary digits of n are brought down, two at a time, the first ones first. At every turn root * root + rest is
// all that has been brought down, and rest is at most 2 * root. In `left` are the digits still to come, kept 54 places wide.
// Rules out: a digit left out or brought down twice; the remainder of an earlier digit handed on.
pub fn extract(root: u64, rest: u64, n: u64) -> Extraction
    requires root_bound { root < 2 ^ 27 }
    requires rest_bound { rest ≤ 2 * root }
    requires n_bound { n < 2 ^ 54 }
    ensures { Extracted ((root * root + rest) * 2 ^ 54 + n) result.root result.rest }
{
    let mut r = Extraction { root, rest };
    let mut left = n;
    for _ in 0..27_u32 {
        let pair = left / 0x10_0000_0000_0000;
        r = step(r.root, r.rest, pair);
        left = left % 0x10_0000_0000_0000 * 4;
    }
    r
}

// The root with its last digit rounded off, to the nearest, a tie to the even one. The last digit counts a half of the place before it:
// a 0 is less than a half, whatever the remainder, and a 1 is a half, or more than a half where there is a remainder.
// Rules out: every tie rounded up; a last digit 1 taken for a tie whatever the remainder.
pub fn round_off(root: u64, rest: u64) -> u64
    requires { rest ≤ 2 * root }
    ensures { result ≡ rounded_off (root * root + rest) }
{
    let kept = root / 2;
    if root % 2 == 0 {
        return kept;
    }
    if rest == 0 {
        return kept + kept % 2;
    }
    kept + 1
}
