// Containment: the ray along +x, a cell's faces, and faces in one list with marks.
#![tactic(auto)]

ghost use Rattle.std.specs.Prelude.{◌≡◌, ◌≤◌, length};
ghost use Rattle.places.specs.Limits.{most_marked_corners};
ghost use Rattle.flat.specs.Points.{vertices_of};
ghost use Rattle.flat.specs.Steps.{Inside};
ghost use Rattle.flat.specs.Flat.{points_of};
ghost use Rattle.cell.specs.SoundCell.{vertices, faces};
ghost use Rattle.inside.specs.Ray.{meets_at, passes, pass_side, in_outline, along_of, distance_ahead, ray_crosses};
ghost use Rattle.places.specs.Loops.{count_of};
ghost use Rattle.inside.specs.Inside.{cross_face, cross_marked, contains_of, holds, phed_contains_of};
ghost use Rattle.inside.specs.Steps.{MarkedInside};

use cell::SoundCell;

// Where the side from a to b meets the height of p.
#[tactic(auto, unfolding(crate::specs::Ray::meets_at))]
fn meets_at(p: [f64; 2], a: [f64; 2], b: [f64; 2]) -> f64
    ensures { result ≡ meets_at p a b }
{
    let t = (p[1] - a[1]) / (b[1] - a[1]);
    a[0] + t * (b[0] - a[0])
}

// Whether the side from a to b passes the height of p, and to the right of p.
#[tactic(auto, unfolding(crate::specs::Ray::passes))]
fn passes(p: [f64; 2], a: [f64; 2], b: [f64; 2]) -> bool
    ensures { result ≡ passes p a b }
{
    (a[1] > p[1]) != (b[1] > p[1]) && p[0] < meets_at(p, a, b)
}

// A side that passes turns the answer round.
#[tactic(auto, unfolding(crate::specs::Ray::pass_side))]
fn pass_side(p: [f64; 2], a: [f64; 2], b: [f64; 2], inside: bool) -> bool
    ensures { result ≡ pass_side p a b inside }
{
    if passes(p, a, b) { !inside } else { inside }
}

// Whether p is in the outline of a face, seen along an axis. A side's end is the next one's start, so each corner is read once.
fn in_outline(coords: &[f64], face: &[u32], axis: usize, p: [f64; 2]) -> bool
    requires { Inside (vertices_of coords.now) face.now }
    ensures { result ≡ in_outline p (points_of (vertices_of coords.now) axis face.now) }
{
    let n = face.len();
    if n == 0 {
        return false;
    }
    let first = flat::space::point_at(coords, face, axis, 0);
    let mut inside = false;
    let mut a = first;
    for i in 1..n {
        let b = flat::space::point_at(coords, face, axis, i);
        inside = pass_side(p, a, b, inside);
        a = b;
    }
    pass_side(p, a, first, inside)
}

// Whether a normal is as good as at right angles to the ray; that is settled at once where its first part is 0, as in a box. The constant
// is 2^-46, which is 64 times the distance from 1 to the next f64.
fn along(n: [f64; 3]) -> bool
    ensures { result ≡ along_of n }
{
    let x = floats::magnitude(n[0]);
    if x == 0.0 {
        return true;
    }
    let y = floats::magnitude(n[1]);
    let z = floats::magnitude(n[2]);
    x <= 1.4210854715202004e-14 * floats::largest(floats::largest(x, y), z)
}

// How far along the ray from p the plane of normal n through v is.
#[tactic(auto, unfolding(crate::specs::Ray::distance_ahead))]
fn distance_ahead(p: [f64; 3], n: [f64; 3], v: [f64; 3]) -> f64
    ensures { result ≡ distance_ahead p n v }
{
    (n[0] * (v[0] - p[0]) + n[1] * (v[1] - p[1]) + n[2] * (v[2] - p[2])) / n[0]
}

// Whether the ray from p along +x crosses a face. A face of no corners has none to measure from, and its normal is three zeros.
// Ruled out: a program that lets t = 0 cross, so that a point on the far side is inside, and one that always drops x for the outline.
fn ray_crosses_face(coords: &[f64], face: &[u32], p: [f64; 3]) -> bool
    requires { Inside (vertices_of coords.now) face.now }
    ensures { result ≡ ray_crosses (vertices_of coords.now) p face.now }
{
    if face.len() == 0 {
        return false;
    }
    let n = flat::space::face_normal(coords, face);
    if along(n) {
        return false;
    }
    let v = flat::space::vertex_at(coords, face, 0);
    let t = distance_ahead(p, n, v);
    if t <= 0.0 {
        return false;
    }
    let axis = flat::dominant_axis(n);
    let q = flat::project2([p[0] + t, p[1], p[2]], axis);
    in_outline(coords, face, axis, q)
}

// A face that is crossed turns the answer round.
#[tactic(auto, unfolding(crate::specs::Inside::cross_face))]
fn cross_face(coords: &[f64], face: &[u32], p: [f64; 3], inside: bool) -> bool
    requires { Inside (vertices_of coords.now) face.now }
    ensures { result ≡ cross_face (vertices_of coords.now) p face.now inside }
{
    if ray_crosses_face(coords, face, p) {
        !inside
    } else {
        inside
    }
}

// Whether a cell contains p: an odd number of its faces is crossed.
// Ruled out: a program that says yes at the first face that is crossed, and one that leaves out the last face.
pub fn contains(cell: &SoundCell, p: [f64; 3]) -> bool
    ensures { result ≡ contains_of (vertices cell.now) p (faces cell.now) }
{
    let mut inside = false;
    let mut start = 0;
    for &end in cell.ends {
        let end = end as usize;
        let face = cell::face(cell.corners, start, end);
        inside = cross_face(cell.coords, face, p, inside);
        start = end;
    }
    inside
}

// A face of a list with marks turns the answer round where it is crossed. Under 3 corners it is skipped.
#[tactic(auto, unfolding(crate::specs::Inside::cross_marked))]
fn cross_marked(coords: &[f64], face: &[u32], p: [f64; 3], inside: bool) -> bool
    requires { Inside (vertices_of coords.now) face.now }
    ensures { result ≡ cross_marked (vertices_of coords.now) p face.now inside }
{
    if face.len() >= 3 {
        cross_face(coords, face, p, inside)
    } else {
        inside
    }
}

// Whether the faces of one list, each ended by a mark, contain p. After the last mark comes no face, or one with no mark of its own.
// Ruled out: a program that stops at the first mark, and one that leaves out a last face with no mark.
pub fn point_in_phed(coords: &[f64], cs: &[u32], p: [f64; 3]) -> bool
    requires marked_inside { MarkedInside (vertices_of coords.now) cs.now }
    requires cs_len_bound { length cs.now ≤ most_marked_corners }
    ensures { result ≡ phed_contains_of (vertices_of coords.now) p cs.now }
{
    let mut inside = false;
    for face in cs.split(|c| *c == 4294967295) {
        inside = cross_marked(coords, face, p, inside);
    }
    inside
}

// How many of the query points the cell contains.
pub fn count_contained(cell: &SoundCell, queries: &[f64]) -> usize
    requires { length queries.now ≤ 770 }
    ensures { result ≡ count_of (holds (vertices cell.now) (faces cell.now)) (vertices_of queries.now) }
{
    let mut found = 0;
    for i in 0..queries.len() / 3 {
        let p = flat::space::vertex(queries, i);
        found += usize::from(contains(cell, p));
    }
    found
}
