// The exact sum of two squares, in a low limb of 54 binary digits and a high one of at most 56.
ghost use Rattle.std.specs.Prelude.{◌≡◌, ◌+◌, ◌*◌, ◌^◌, ◌<◌};
ghost use Rattle.hypot.specs.Steps.{SumOfSquares};

// high * 2^54 + low
#[derive(Clone, Copy)]
pub struct Wide {
    pub high: u64,
    pub low: u64,
}

// (high * 2^54 + low) * 4^s + lost
#[derive(Clone, Copy)]
pub struct Sum {
    pub high: u64,
    pub low: u64,
    pub lost: u64,
}

// 4^s
#[tactic(auto, using(crate::proofs::Limbs::shifted_one))]
pub fn power_of_four(s: u64) -> u64
    requires { s < 27 }
    ensures { result ≡ 2 ^ s * 2 ^ s }
{
    1_u64 << (2 * s)
}

// c * c, by halves of 27 digits: 2 * h * l belongs half to the one limb and half to the other.
// Rules out: a carry out of the low limb lost.
fn square(c: u64) -> Wide
    requires { c < 2 ^ 54 }
    ensures low_value { result.high * 2 ^ 54 + result.low ≡ c * c }
    ensures low_bound { result.low < 2 ^ 54 }
    ensures high_bound { result.high < 2 ^ 54 }
{
    let h = c / 0x800_0000;
    let l = c % 0x800_0000;
    let m = 2 * (h * l);
    let low = m % 0x800_0000 * 0x800_0000 + l * l;
    Wide {
        high: h * h + m / 0x800_0000 + low / 0x40_0000_0000_0000,
        low: low % 0x40_0000_0000_0000,
    }
}

// Four times a * a + b * b / 4^s. The digits of b's square that fall below the low limb are not dropped but kept as `lost`.
// Rules out: those digits dropped; the square of b moved by s binary places in place of 2 * s.
pub fn sum_of_squares(a: u64, b: u64, s: u64) -> Sum
    requires a_bound { a < 2 ^ 53 }
    requires b_bound { b < 2 ^ 53 }
    requires s_bound { s < 27 }
    ensures { SumOfSquares a b s result.high result.low result.lost }
{
    let z = power_of_four(s);
    let u = 0x40_0000_0000_0000 / z;
    let p = square(2 * a);
    let q = square(2 * b);
    let low = p.low + q.high % z * u + q.low / z;
    Sum {
        high: p.high + q.high / z + low / 0x40_0000_0000_0000,
        low: low % 0x40_0000_0000_0000,
        lost: q.low % z,
    }
}
