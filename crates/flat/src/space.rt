// Lists of points of space, stored in threes: a vertex read or laid down, the Newell sums, the vertex centroid, the bounds.
ghost use Rattle.std.specs.Prelude.{◌≡◌, ℕ, ◌<◌, ◌≤◌, length, get_or, set, [], pos};
ghost use Rattle.std.specs.Float.{binary64};
ghost use Rattle.std.specs.Float.Ieee.{of_int};
ghost use Rattle.places.specs.Limits.{most_coordinates};
ghost use Rattle.places.specs.Steps.{over_threes};
ghost use Rattle.flat.specs.Points.{vertices_of, vertex_of, corners_of, centroid_of, bounds_of};
ghost use Rattle.flat.specs.Steps.{Inside};
ghost use Rattle.flat.specs.Flat.{newell_of, point_of};

use super::points;

// The vertex with a number.
#[tactic(auto, using(places::proofs::Stored::length_threes, places::proofs::Stored::threes_at))]
pub fn vertex(coords: &[f64], v: usize) -> [f64; 3]
    requires { v < length (vertices_of coords.now) }
    ensures { result ≡ vertex_of (vertices_of coords.now) v }
{
    let i = v * 3;
    [
        places::num(coords, i),
        places::num(coords, i + 1),
        places::num(coords, i + 2),
    ]
}

// A vertex laid down under a number. One or two numbers that stand after the last vertex stay as they were.
// Ruled out: the vertex laid down from the number's own place on; a number of the next vertex changed.
#[tactic(auto, using(places::proofs::Stored::threes_written))]
pub fn put_vertex(coords: &mut [f64], v: usize, p: [f64; 3])
    requires { v < length (vertices_of coords.old) }
    ensures vertices { vertices_of coords.new ≡ set (vertices_of coords.old) v p }
    ensures over { over_threes coords.new ≡ over_threes coords.old }
{
    let i = v * 3;
    coords[i] = p[0];
    coords[i + 1] = p[1];
    coords[i + 2] = p[2];
}

// The vertex at place i of a face.
#[tactic(auto, using(crate::proofs::Corners::corner_at))]
pub fn vertex_at(coords: &[f64], face: &[u32], i: usize) -> [f64; 3]
    requires inside { Inside (vertices_of coords.now) face.now }
    requires i_in_bounds { i < length face.now }
    ensures { result ≡ get_or (corners_of (vertices_of coords.now) face.now) i [] }
{
    let v = places::corner(face, i);
    vertex(coords, v)
}

// The same in the plane without an axis.
#[tactic(auto, using(crate::proofs::Corners::corner_at), unfolding(crate::specs::Flat::point_of))]
pub fn point_at(coords: &[f64], ring: &[u32], axis: usize, i: usize) -> [f64; 2]
    requires inside { Inside (vertices_of coords.now) ring.now }
    requires i_in_bounds { i < length ring.now }
    ensures { result ≡ point_of (vertices_of coords.now) axis (get_or ring.now i 0) }
{
    crate::project2(vertex_at(coords, ring, i), axis)
}

// The Newell sums of a face. A side's end is the next one's start, so each corner is read once.
pub fn face_normal(coords: &[f64], face: &[u32]) -> [f64; 3]
    requires { Inside (vertices_of coords.now) face.now }
    ensures { result ≡ newell_of (corners_of (vertices_of coords.now) face.now) }
{
    let Some((&v, rest)) = face.split_first() else {
        return [0.0; 3];
    };
    let first = vertex(coords, v as usize);
    let mut s = [0.0; 3];
    let mut a = first;
    for &v in rest {
        let b = vertex(coords, v as usize);
        let t = crate::newell_side(a, b, s);
        s = t;
        a = b;
    }
    crate::newell_side(a, first, s)
}

// The Newell sums of a list of points.
pub fn newell_normal(coords: &[f64]) -> [f64; 3]
    ensures { result ≡ newell_of (vertices_of coords.now) }
{
    let (points, _) = coords.as_chunks::<3>();
    let mut s = [0.0; 3];
    for (i, &a) in points.iter().enumerate() {
        let b = points[places::next(i, points.len())];
        let t = crate::newell_side(a, b, s);
        s = t;
    }
    s
}

// A count as a float.
pub fn count(n: u16) -> f64
    ensures { result ≡ of_int binary64 (pos n) }
{
    f64::from(n)
}

// The vertex centroid: the points added in order, and each coordinate divided by their number.
#[tactic(auto, using(places::proofs::Stored::threes_chunks))]
pub fn vertex_centroid(coords: &[f64]) -> [f64; 3]
    requires { length coords.now ≤ most_coordinates }
    ensures { result ≡ centroid_of 3 (vertices_of coords.now) }
{
    points::centroid(coords.as_chunks::<3>().0)
}

// The smallest box that has the points: its corner of least and that of largest coordinates.
#[tactic(auto, using(places::proofs::Stored::threes_chunks))]
pub fn bounds(coords: &[f64]) -> [[f64; 3]; 2]
    ensures { result ≡ bounds_of 3 (vertices_of coords.now) }
{
    points::bounds(coords.as_chunks::<3>().0)
}
