// The digits of a root by divisions: the first 27 by a guess and a step of Newton's iteration, 27 more by one division. What is promised
// of them is what the schoolbook promises of its own (floats, specs/Schoolbook.antt).
ghost use Rattle.std.specs.Prelude.{◌+◌, ◌*◌, ◌^◌, ◌≤◌, ◌<◌};
ghost use Rattle.floats.specs.Root.{WholeRoot};
ghost use Rattle.floats.specs.Schoolbook.{Extracted};

// c0 + c1 * y - c2 * y^2 + c3 * y^3 where y is x / 2^20, which is below 4: from c1 and c2 at most four times the next
// coefficient is taken, so that no difference is below 0.
fn cubic(x: u64, c0: u64, c1: u64, c2: u64, c3: u64) -> u64
    requires x_bound { x < 2 ^ 22 }
    requires c1_bound { c0 + 4 * c1 ≤ 2 ^ 28 }
    requires c2_bound { 4 * c2 ≤ c1 }
    requires c3_bound { 4 * c3 ≤ c2 }
    ensures lower_bound { c0 ≤ result }
    ensures upper_bound { result ≤ 2 ^ 28 }
{
    c0 + x * (c1 - x * (c2 - x * c3 / 0x10_0000) / 0x10_0000) / 0x10_0000
}

// A guess at the root of a: a cubic in the leading digits of a, one for each half of the range. From 2^52 on it is no more
// than 7 parts in 100,000 off.
fn guess(a: u64) -> u64
    requires { a < 2 ^ 54 }
    ensures lower_bound { 2 ^ 24 ≤ result }
    ensures upper_bound { result ≤ 2 ^ 28 }
{
    let x = a / 0x1_0000_0000;
    if x < 0x20_0000 {
        cubic(x, 24827353, 52876633, 12263986, 1673522)
    } else {
        cubic(x, 35111179, 37389426, 4335974, 295840)
    }
}

// The largest r with r * r <= a. A step of Newton's iteration is never below it, and from so near a guess it is the root
// or one more, so the loop turns at most once.
// Rules out: a root whose square is above a; a step of the iteration taken for the root as it is.
fn whole_root(a: u64) -> u64
    requires bound { 2 ^ 52 ≤ a }
    requires a_bound { a < 2 ^ 54 }
    ensures { WholeRoot a result }
{
    let g = guess(a);
    let mut r = (g + a / g) / 2;
    while a < r * r {
        r -= 1;
    }
    r
}

// 27 more binary digits of the root of root * root + rest, as n's 54 digits are brought down. The quotient is a guess at them that is
// right or one too high: its square, `owed`, is to be taken from what the division leaves, and where that is too little the root is one
// less.
// Rules out: a root one too high; the digits of n left out of the remainder.
#[tactic(auto, using(crate::proofs::Division::high))]
fn divide(root: u64, rest: u64, n: u64) -> floats::schoolbook::Extraction
    requires root_bound { root < 2 ^ 27 }
    requires bound { 2 ^ 26 ≤ root }
    requires rest_bound { rest ≤ 2 * root }
    requires n_bound { n < 2 ^ 54 }
    ensures { Extracted ((root * root + rest) * 2 ^ 54 + n) result.root result.rest }
{
    let brought = rest * 0x800_0000 + n / 0x800_0000;
    let q = brought / (2 * root);
    let left = brought % (2 * root) * 0x800_0000 + n % 0x800_0000;
    let next = root * 0x800_0000 + q;
    let owed = q * q;
    if owed <= left {
        floats::schoolbook::Extraction {
            root: next,
            rest: left - owed,
        }
    } else {
        floats::schoolbook::Extraction {
            root: next - 1,
            rest: left + (2 * next - 1) - owed,
        }
    }
}

// The root of high * 2^54 + low, and the remainder. A guess needs a number of 53 or 54 digits; a smaller one, as only subnormal lengths
// have, is left to the schoolbook.
// Rules out: the remainder of the first digits dropped.
pub fn root_of(high: u64, low: u64) -> floats::schoolbook::Extraction
    requires high_bound { high < 2 ^ 54 }
    requires low_bound { low < 2 ^ 54 }
    ensures { Extracted (high * 2 ^ 54 + low) result.root result.rest }
{
    if high < 0x10_0000_0000_0000 {
        let first = floats::schoolbook::extract(0, 0, high);
        return floats::schoolbook::extract(first.root, first.rest, low);
    }
    let root = whole_root(high);
    divide(root, high - root * root, low)
}
