// One plane or one edge against an outline: from one list into another; and doubled points dropped in place.
// The plane's and the edge's forms stand side by side: over the dimension a `push` would take the writer of a point and the law by which
// a list is read, an `emit` keeps by a distance or by a flag, and the loops start at different points. They share definitions and lemmas.
#![tactic(auto)]

use planes::Plane;

pub mod doubled;
pub mod edge;

ghost use Rattle.std.specs.Prelude.{◌≡◌, [], ◌∷◌, ◌+◌, ◌*◌, ◌<◌, ◌≤◌, length};
ghost use Rattle.std.specs.Float.Ieee.{le};
ghost use Rattle.places.specs.Limits.{most_work_numbers};
ghost use Rattle.flat.specs.Points.{vertices_of};
ghost use Rattle.clip_step.specs.ClipStep.{side_leaves, segment_plane_of, trimmed_by};
ghost use Rattle.work_lists.specs.Steps.{Filled};

// Where the side from a to b crosses a plane, from the distances of its ends. It need not lie between them.
// Ruled out: t taken from db, or kept between 0 and 1; the point computed from b.
#[tactic(auto, unfolding(crate::specs::ClipStep::crossing_at, crate::specs::ClipStep::segment_plane_of))]
pub fn segment_plane_intersection(a: [f64; 3], b: [f64; 3], da: f64, db: f64) -> [f64; 3]
    ensures { result ≡ segment_plane_of a b da db }
{
    let t = da / (da - db);
    [
        a[0] + t * (b[0] - a[0]),
        a[1] + t * (b[1] - a[1]),
        a[2] + t * (b[2] - a[2]),
    ]
}

// A point laid down at place m where there is one. The count goes on past the end of the list.
// Ruled out: a count that stops where the list ends; a point that has no place laid over the last one.
fn push(s: &mut [f64], m: usize, p: [f64; 3]) -> usize
    requires { m < 8192 }
    ensures { Filled (p ∷ []) m (vertices_of s.old) result (vertices_of s.new) }
{
    if m < s.len() / 3 {
        flat::space::put_vertex(s, m, p);
        return m + 1;
    }
    m + 1
}

// What the side from a to b leaves, by the distances of its ends.
fn emit(s: &mut [f64], m: usize, eps: f64, a: [f64; 3], da: f64, b: [f64; 3], db: f64) -> usize
    requires { m < 8000 }
    ensures { Filled (side_leaves (le da eps) (le db eps) (segment_plane_of a b da db) b) m
        (vertices_of s.old) result (vertices_of s.new) }
{
    if da <= eps {
        if db <= eps {
            return push(s, m, b);
        }
        return push(s, m, segment_plane_intersection(a, b, da, db));
    }
    if db <= eps {
        let k = push(s, m, segment_plane_intersection(a, b, da, db));
        return push(s, k, b);
    }
    m
}

// An outline cut by a plane, as clip_polygon_by_plane does before doubled points are dropped.
// The count says how many points it has, even where they do not fit.
// Ruled out: leaving out the side from the last point to the first; keeping a point whose distance is not a number.
pub fn trim_by_plane(src: &[f64], dst: &mut [f64], plane: Plane, eps: f64) -> usize
    requires nonzero { 0 < length (vertices_of src.now) }
    requires src_len_bound { length src.now ≤ most_work_numbers }
    ensures { Filled (trimmed_by plane eps (vertices_of src.now)) 0 (vertices_of dst.old) result (vertices_of dst.new) }
{
    let (points, _) = src.as_chunks::<3>();
    let mut a = points[points.len() - 1];
    let mut da = planes::distance(plane, a);
    let mut m = 0;
    for &b in points {
        let db = planes::distance(plane, b);
        m = emit(dst, m, eps, a, da, b, db);
        a = b;
        da = db;
    }
    m
}
