// Outlines: lists of points of the plane, stored in pairs: the signed area, turning counterclockwise, the vertex centroid, the bounds.
#![tactic(auto)]

ghost use Rattle.std.specs.Prelude.{◌≡◌, ℕ, ◌<◌, ◌≤◌, ◌%◌, length, get_or, set, [], reverse};
ghost use Rattle.places.specs.Steps.{swapped, over_pairs};
ghost use Rattle.places.specs.Stored.{in_pairs, joined};
ghost use Rattle.flat.specs.Points.{centroid_of, bounds_of};
ghost use Rattle.flat.specs.Flat.{summed_area_of, signed_area_of, ccw_of};

use flat::points;

// The point at place i.
#[tactic(auto, using(places::proofs::Stored::length_pairs, places::proofs::Stored::pairs_at))]
pub fn pair(ps: &[f64], i: usize) -> [f64; 2]
    requires { i < length (in_pairs ps.now) }
    ensures { result ≡ get_or (in_pairs ps.now) i [] }
{
    let k = i * 2;
    [places::num(ps, k), places::num(ps, k + 1)]
}

// A point laid down at place i. Here and below, a number that stands after the last point stays as it was.
// Ruled out: the point laid down from number i on; y laid down before x.
#[tactic(auto, using(places::proofs::Stored::pairs_written))]
pub fn put_pair(ps: &mut [f64], i: usize, p: [f64; 2])
    requires { i < length (in_pairs ps.old) }
    ensures points { in_pairs ps.new ≡ set (in_pairs ps.old) i p }
    ensures over { over_pairs ps.new ≡ over_pairs ps.old }
{
    let k = i * 2;
    ps[k] = p[0];
    ps[k + 1] = p[1];
}

// Twice the signed area.
fn summed_area(ps: &[f64]) -> f64
    ensures { result ≡ summed_area_of (in_pairs ps.now) }
{
    let (points, _) = ps.as_chunks::<2>();
    let mut s = 0.0;
    for (i, &a) in points.iter().enumerate() {
        let b = points[places::next(i, points.len())];
        s = flat::area_side(a, b, s);
    }
    s
}

// The signed area: half the sum.
// Ruled out: leaving out the side from the last point to the first;
// measuring from the first point instead of the origin, which rounds otherwise.
#[tactic(auto, unfolding(flat::specs::Flat::signed_area_of))]
pub fn signed_area2(ps: &[f64]) -> f64
    ensures { result ≡ signed_area_of (in_pairs ps.now) }
{
    summed_area(ps) / 2.0
}

// The points at two places changed for each other.
#[tactic(auto, unfolding(places::specs::Steps::swapped))]
fn swap_points(ps: &mut [f64], i: usize, j: usize)
    requires i_in_bounds { i < length (in_pairs ps.old) }
    requires j_in_bounds { j < length (in_pairs ps.old) }
    ensures points { in_pairs ps.new ≡ swapped [] i j (in_pairs ps.old) }
    ensures over { over_pairs ps.new ≡ over_pairs ps.old }
{
    let a = pair(ps, i);
    let b = pair(ps, j);
    put_pair(ps, i, b);
    put_pair(ps, j, a);
}

// The points in the other order: each of the first half changes places with the one that is as far from the end.
// By swaps: std's `as_chunks_mut` says nothing of what the list ends as.
fn reverse_points(ps: &mut [f64])
    ensures points { in_pairs ps.new ≡ reverse (in_pairs ps.old) }
    ensures over { over_pairs ps.new ≡ over_pairs ps.old }
{
    let n = ps.len() / 2;
    for i in 0..n / 2 {
        swap_points(ps, i, n - 1 - i);
    }
}

// The outline turned counterclockwise, in place: reversed where its signed area is below 0.
// Ruled out: reversing the numbers, which changes each point's x for its y; reversing where the area is 0 or not a number.
#[tactic(auto, using(places::proofs::Stored::joined_pairs), unfolding(flat::specs::Flat::ccw_of))]
pub fn into_ccw2(ps: &mut [f64])
    requires { length ps.old % 2 ≡ 0 }
    ensures { ps.new ≡ joined (ccw_of (in_pairs ps.old)) }
{
    if signed_area2(ps) < 0.0 {
        reverse_points(ps);
    }
}

// The points added in order, and each coordinate divided by their number.
#[tactic(auto, using(places::proofs::Stored::pairs_chunks))]
pub fn vertex_centroid2(ps: &[f64]) -> [f64; 2]
    requires { length ps.now ≤ 1024 }
    ensures { result ≡ centroid_of 2 (in_pairs ps.now) }
{
    points::centroid(ps.as_chunks::<2>().0)
}

// The corner of least coordinates and that of largest.
// Ruled out: starting from the box of 0, which draws the origin in; a NaN coordinate taken over, where the Rust's min and max pass it by.
#[tactic(auto, using(places::proofs::Stored::pairs_chunks))]
pub fn bounds2(ps: &[f64]) -> [[f64; 2]; 2]
    ensures { result ≡ bounds_of 2 (in_pairs ps.now) }
{
    points::bounds(ps.as_chunks::<2>().0)
}
