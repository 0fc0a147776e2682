// Flat rules: the leaves on two and three points, and lists of points of space. The crate `outline` has lists of points of the plane.
#![tactic(auto)]

pub mod points;
pub mod space;

ghost use Rattle.std.specs.Prelude.{◌≡◌};
ghost use Rattle.flat.specs.Points.{plus_of, minus_of, over_of, scale_of};
ghost use Rattle.flat.specs.Flat.{cross2_of, newell_side, axis_of, project2_of, area_side, crossing_of};

// (b - a) x (c - a).
#[tactic(auto, unfolding(crate::specs::Flat::cross2_of))]
pub fn cross2(a: [f64; 2], b: [f64; 2], c: [f64; 2]) -> f64
    ensures { result ≡ cross2_of a b c }
{
    (b[0] - a[0]) * (c[1] - a[1]) - (b[1] - a[1]) * (c[0] - a[0])
}

// The sums s with the terms of the side from a to b added.
#[tactic(auto, unfolding(crate::specs::Flat::newell_side))]
fn newell_side(a: [f64; 3], b: [f64; 3], s: [f64; 3]) -> [f64; 3]
    ensures { result ≡ newell_side a b s }
{
    [
        s[0] + (a[1] - b[1]) * (a[2] + b[2]),
        s[1] + (a[2] - b[2]) * (a[0] + b[0]),
        s[2] + (a[0] - b[0]) * (a[1] + b[1]),
    ]
}

// The sum s with the term of the side from a to b added: of an outline of the plane, towards twice its area.
#[tactic(auto, unfolding(crate::specs::Flat::area_side))]
pub fn area_side(a: [f64; 2], b: [f64; 2], s: f64) -> f64
    ensures { result ≡ area_side a b s }
{
    s + (a[0] * b[1] - b[0] * a[1])
}

// The axis along which a normal is longest, the earlier one on a tie.
// Ruled out: `>` for `>=`, which takes the later one on a tie; comparing the parts with their signs, which passes over a long negative one.
#[tactic(auto, unfolding(crate::specs::Flat::axis_of))]
pub fn dominant_axis(n: [f64; 3]) -> usize
    ensures { result ≡ axis_of n }
{
    let x = floats::magnitude(n[0]);
    let y = floats::magnitude(n[1]);
    let z = floats::magnitude(n[2]);
    if x >= y && x >= z {
        0
    } else if y >= z {
        1
    } else {
        2
    }
}

// The point without that axis.
#[tactic(auto, unfolding(crate::specs::Flat::project2_of))]
pub fn project2(p: [f64; 3], axis: usize) -> [f64; 2]
    ensures { result ≡ project2_of p axis }
{
    match axis {
        0 => [p[1], p[2]],
        1 => [p[0], p[2]],
        _ => [p[0], p[1]],
    }
}

// Where the line from a to b meets that from p to q; q when the denominator is 0.
// Ruled out: dividing by a denominator of 0; the same point computed from p along q - p, which rounds otherwise.
#[tactic(auto, unfolding(crate::specs::Flat::crossing_of))]
pub fn segment_intersection(a: [f64; 2], b: [f64; 2], p: [f64; 2], q: [f64; 2]) -> [f64; 2]
    ensures { result ≡ crossing_of a b p q }
{
    let dax = b[0] - a[0];
    let day = b[1] - a[1];
    let dpx = q[0] - p[0];
    let dpy = q[1] - p[1];
    let denom = dax * dpy - day * dpx;
    if denom == 0.0 {
        return q;
    }
    let t = ((p[0] - a[0]) * dpy - (p[1] - a[1]) * dpx) / denom;
    [a[0] + t * dax, a[1] + t * day]
}

// Points of the plane or of space: s + p, and p with each coordinate divided by n.
// Ruled out: p taken off; each coordinate multiplied.
#[tactic(auto, using(crate::proofs::Coordinates::write_end), unfolding(crate::specs::Points::plus_of))]
pub fn plus<const N: usize>(p: [f64; N], mut s: [f64; N]) -> [f64; N]
    ensures { result ≡ plus_of N p.entry s.entry }
{
    for k in 0..N {
        s[k] = s[k] + p[k];
    }
    s
}

#[tactic(auto, using(crate::proofs::Coordinates::write_end), unfolding(crate::specs::Points::over_of))]
pub fn over<const N: usize>(mut p: [f64; N], n: f64) -> [f64; N]
    ensures { result ≡ over_of N p.entry n }
{
    for x in p.iter_mut() {
        *x /= n;
    }
    p
}

// The same in space, and p - q.
pub fn plus3(p: [f64; 3], s: [f64; 3]) -> [f64; 3]
    ensures { result ≡ plus_of 3 p s }
{
    plus(p, s)
}

#[tactic(auto, unfolding(crate::specs::Points::minus_of))]
pub fn minus3(p: [f64; 3], q: [f64; 3]) -> [f64; 3]
    ensures { result ≡ minus_of 3 p q }
{
    [p[0] - q[0], p[1] - q[1], p[2] - q[2]]
}

pub fn over3(p: [f64; 3], n: f64) -> [f64; 3]
    ensures { result ≡ over_of 3 p n }
{
    over(p, n)
}

// The longest side of a box.
#[tactic(auto, unfolding(crate::specs::Points::scale_of))]
pub fn scale(b: [[f64; 3]; 2]) -> f64
    ensures { result ≡ scale_of b }
{
    let [low, high] = b;
    let x = high[0] - low[0];
    let y = high[1] - low[1];
    let z = high[2] - low[2];
    floats::largest(floats::largest(x, y), z)
}
