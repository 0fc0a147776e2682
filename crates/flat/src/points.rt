// Lists of points of the plane or of space, as std's `as_chunks` reads them from a list of numbers: the vertex centroid and the bounds.
ghost use Rattle.std.specs.Prelude.{◌≡◌, ◌≤◌, ◌<◌, length};
ghost use Rattle.flat.specs.Points.{widen_of, centroid_of, bounds_of};
ghost use Rattle.flat.specs.Steps.{Numbers};

use super::space;

// The vertex centroid: the points added in order, and each coordinate divided by their number.
// Ruled out: the sum divided by two, whatever the number of points.
pub fn centroid<const N: usize>(points: &[[f64; N]]) -> [f64; N]
    requires dimension { N ≤ 3 }
    requires count { length points.now < 65536 }
    ensures { result ≡ centroid_of N points.now }
{
    let mut s = [0.0; N];
    for &p in points {
        let t = crate::plus(p, s);
        s = t;
    }
    crate::over(s, space::count(points.len() as u16))
}

// A box widened so that p is in it. No coordinate of the box is a NaN, so that each takes one comparison.
fn widen<const N: usize>(p: [f64; N], b: [[f64; N]; 2]) -> [[f64; N]; 2]
    requires { Numbers N b }
    ensures { result ≡ widen_of N p.entry b.entry }
{
    let [mut low, mut high] = b;
    for k in 0..N {
        low[k] = floats::lesser(low[k], p[k]);
        high[k] = floats::greater(high[k], p[k]);
    }
    [low, high]
}

// The smallest box that has the points: its corner of least and that of largest coordinates.
// Ruled out: starting from the box of 0, which draws the origin in; a NaN coordinate taken over, where the Rust's min and max pass it by.
pub fn bounds<const N: usize>(points: &[[f64; N]]) -> [[f64; N]; 2]
    requires { N ≤ 3 }
    ensures { result ≡ bounds_of N points.now }
{
    let mut b = [[f64::INFINITY; N], [f64::NEG_INFINITY; N]];
    for &p in points {
        let t = widen(p, b);
        b = t;
    }
    b
}
