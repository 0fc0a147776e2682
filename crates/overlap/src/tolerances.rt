// What an overlap measures before it clips: whether the boxes miss each other, and the tolerances.
ghost use Rattle.std.specs.Prelude.{◌≡◌, ◌||◌, ◌≤◌, length, pos};
ghost use Rattle.std.specs.Float.{binary64};
ghost use Rattle.std.specs.Float.Ieee.{of_int, lt};
ghost use Rattle.places.specs.Limits.{most_coordinates};
ghost use Rattle.places.specs.Loops.{fold_list};
ghost use Rattle.flat.specs.Points.{vertices_of, plus_of, over_of};
ghost use Rattle.overlap.specs.Tolerances.{boxes_miss, measures_of};
ghost use Rattle.overlap.specs.Steps.{farther_square};

use crate::Measures;

// Whether of two boxes one ends before the other starts, along an axis.
// Ruled out: `<=`, which lets boxes that touch miss each other; asking only whether the first ends before the second.
#[tactic(auto, unfolding(crate::specs::Tolerances::boxes_miss, crate::specs::Tolerances::apart_along))]
pub fn boxes_miss(a: [[f64; 3]; 2], b: [[f64; 3]; 2]) -> bool
    ensures { result ≡ boxes_miss a b }
{
    let [al, ah] = a;
    let [bl, bh] = b;
    apart(al[0], ah[0], bl[0], bh[0])
        || apart(al[1], ah[1], bl[1], bh[1])
        || apart(al[2], ah[2], bl[2], bh[2])
}

// Whether of two stretches of an axis one ends before the other starts.
fn apart(al: f64, ah: f64, bl: f64, bh: f64) -> bool
    ensures { result ≡ (lt ah bl || lt bh al) }
{
    ah < bl || bh < al
}

// The sum s with the points of a list added in order.
fn add_points(coords: &[f64], s: [f64; 3]) -> [f64; 3]
    ensures { result ≡ fold_list (plus_of 3) (vertices_of coords.now) s }
{
    let (points, _) = coords.as_chunks::<3>();
    let mut t = s;
    for &p in points {
        let u = flat::plus3(p, t);
        t = u;
    }
    t
}

// The sum of n points over their number.
fn mean(s: [f64; 3], n: usize) -> [f64; 3]
    requires { n ≤ 512 }
    ensures { result ≡ over_of 3 s (of_int binary64 (pos n)) }
{
    flat::over3(s, flat::space::count(n as u16))
}

// The larger of m and the largest square of a distance of a list's points from c.
fn farthest(coords: &[f64], c: [f64; 3], m: f64) -> f64
    ensures { result ≡ fold_list (farther_square c) (vertices_of coords.now) m }
{
    let (points, _) = coords.as_chunks::<3>();
    let mut far = m;
    for &p in points {
        far = floats::largest(far, clip_step::doubled::square3(p, c));
    }
    far
}

// The tolerances of an overlap and its reference point. The first cell's points are added once, for their own centroid and for that of
// both cells. The root grows with the number, so the largest distance is the root of the largest square. The constant is 2^-46, 64 times
// the distance from 1 to the next f64.
// Ruled out: a radial length of the first cell's vertices alone; the centroid of both cells for the reference point.
pub fn measures(a: &[f64], b: &[f64]) -> Measures
    requires { (length a.now ≤ most_coordinates) × (length b.now ≤ most_coordinates) }
    ensures { result ≡ measures_of (vertices_of a.now) (vertices_of b.now) }
{
    let n = a.len() / 3;
    let s = add_points(a, [0.0, 0.0, 0.0]);
    let c = mean(add_points(b, s), n + b.len() / 3);
    let radial = floats::root(farthest(b, c, farthest(a, c, 0.0)));
    let reference = mean(s, n);
    Measures {
        eps: 1.4210854715202004e-14 * flat::scale(flat::space::bounds(a)),
        coplanar: 0.0001 * radial,
        reference,
    }
}
