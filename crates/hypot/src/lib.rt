// hypot as IEEE 754 recommends it: the f64 nearest the exact root of the exact sum of two squares, a tie to the even one.
#![tactic(auto)]

pub mod patterns;
pub mod quick_root;
pub mod squares;

ghost use Rattle.std.specs.Prelude.{◌≡◌};
ghost use Rattle.std.specs.Float.{binary64, nan};
ghost use Rattle.hypot.specs.Hypot.{hypot_of};

// The length of z and a NaN: infinite where z is, else a NaN.
#[tactic(auto, using(crate::proofs::Unsigned::nan_and_infinite, crate::proofs::Unsigned::nan_and_other))]
fn beside_nan(z: f64) -> f64
    ensures { result ≡ hypot_of binary64 z nan }
{
    if z.is_infinite() {
        f64::INFINITY
    } else {
        f64::NAN
    }
}

// hypot(x, y). Neither order nor signs matter, so the patterns are taken without the sign's bit, the larger one first.
// Rules out: the sum of squares rounded before its root is taken; squares that underflow or overflow where the length does not; a NaN
// beside an infinity.
pub fn hypot(x: f64, y: f64) -> f64
    ensures { result ≡ hypot_of binary64 x y }
{
    if x.is_nan() {
        return beside_nan(y);
    }
    if y.is_nan() {
        return beside_nan(x);
    }
    let p = x.to_bits() % 0x8000_0000_0000_0000;
    let q = y.to_bits() % 0x8000_0000_0000_0000;
    let longer = p.max(q);
    if longer == 0x7ff0_0000_0000_0000 {
        return f64::INFINITY;
    }
    f64::from_bits(patterns::length_pattern(longer, p.min(q)))
}
