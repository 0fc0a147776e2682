// Convexity of a cell, and its faces turned outward.
#![tactic(auto)]

ghost use Rattle.std.specs.Prelude.{◌≡◌, false, cond, ◌<◌, length};
ghost use Rattle.places.specs.Loops.{any_of};
ghost use Rattle.flat.specs.Points.{vertices_of, vertex_of};
ghost use Rattle.flat.specs.Steps.{Inside};
ghost use Rattle.cell.specs.Faces.{faces_of};
ghost use Rattle.cell.specs.Refusals.{empty_refused};
ghost use Rattle.cell.specs.SoundCell.{vertices, faces};
ghost use Rattle.cell.specs.Steps.{Sound};
ghost use Rattle.outward.specs.Convexity.{tolerance_of, has_corner, other_vertices, plane_parts, face_parts, compute_convexity_of};
ghost use Rattle.outward.specs.Outward.{away_of, outward_of, outward_corners};
ghost use Rattle.outward.specs.Steps.{see_of};

use cell::SoundCell;

// What was seen of the vertices against a plane: one above it, one below it.
#[derive(Clone, Copy, PartialEq)]
struct Seen {
    above: bool,
    below: bool,
}

// How near to the plane of a normal a vertex counts as on it.
#[tactic(auto, unfolding(crate::specs::Convexity::tolerance_of))]
fn tolerance(n: [f64; 3]) -> f64
    ensures { result ≡ tolerance_of n }
{
    let x = floats::magnitude(n[0]);
    let y = floats::magnitude(n[1]);
    let z = floats::magnitude(n[2]);
    1e-12 * floats::largest(floats::largest(floats::largest(x, y), z), 1.0)
}

// Whether a vertex is among the corners of a face.
fn has_corner(face: &[u32], v: usize) -> bool
    ensures { result ≡ has_corner face.now v }
{
    face.iter().any(|&corner| v == corner as usize)
}

// What is seen when p is looked at besides.
fn see(n: [f64; 3], d: f64, eps: f64, p: [f64; 3], seen: Seen) -> Seen
    ensures { result ≡ see_of n d eps p seen }
{
    let v = planes::dot(n, p) + d;
    if v > eps {
        return Seen {
            above: true,
            below: seen.below,
        };
    }
    if v < -eps {
        return Seen {
            above: seen.above,
            below: true,
        };
    }
    seen
}

// The same for the vertex v; a corner of the face is passed over. The face is searched only where something new was seen, which is seldom.
fn look(coords: &[f64], face: &[u32], v: usize, n: [f64; 3], d: f64, eps: f64, seen: Seen) -> Seen
    requires { v < length (vertices_of coords.now) }
    ensures { result ≡ cond (has_corner face.now v) seen (see_of n d eps (vertex_of (vertices_of coords.now) v) seen) }
{
    let next = see(n, d, eps, flat::space::vertex(coords, v), seen);
    if next == seen || has_corner(face, v) {
        return seen;
    }
    next
}

// Whether a plane parts the vertices that are no corners of the face. The loop ends as soon as one of each side was seen.
fn plane_parts(coords: &[f64], face: &[u32], n: [f64; 3], d: f64, eps: f64) -> bool
    ensures { result ≡ plane_parts n d eps (other_vertices (vertices_of coords.now) face.now) }
{
    let mut seen = Seen {
        above: false,
        below: false,
    };
    for v in 0..coords.len() / 3 {
        seen = look(coords, face, v, n, d, eps, seen);
        if seen.above && seen.below {
            return true;
        }
    }
    false
}

// Whether a face of 3 or more corners has other vertices on both sides.
#[tactic(auto, unfolding(crate::specs::Convexity::face_parts))]
fn face_parts(coords: &[f64], face: &[u32]) -> bool
    requires { Inside (vertices_of coords.now) face.now }
    ensures { result ≡ face_parts (vertices_of coords.now) face.now }
{
    if face.len() < 3 {
        return false;
    }
    let n = flat::space::face_normal(coords, face);
    let d = planes::offset(n, flat::space::vertex_at(coords, face, 0));
    plane_parts(coords, face, n, d, tolerance(n))
}

// Whether a face of the cell does.
fn any_parts(cell: &SoundCell) -> bool
    ensures { result ≡ any_of (face_parts (vertices cell.now)) (faces cell.now) }
{
    let mut start = 0;
    for &end in cell.ends {
        let end = end as usize;
        let face = cell::face(cell.corners, start, end);
        if face_parts(cell.coords, face) {
            return true;
        }
        start = end;
    }
    false
}

// Whether each face has all other vertices on one side; a cell of under 4 vertices is convex.
// Ruled out: a face's own corners counted, which a face that is not flat has on both sides;
// a vertex right at the tolerance taken for one off the plane.
pub fn compute_convexity(cell: &SoundCell) -> bool
    ensures { result ≡ compute_convexity_of (vertices cell.now) (faces cell.now) }
{
    if cell.coords.len() / 3 < 4 {
        return true;
    }
    !any_parts(cell)
}

// How far a face looks away from a reference point.
#[tactic(auto, unfolding(crate::specs::Outward::away_of))]
fn away(coords: &[f64], face: &[u32], reference: [f64; 3]) -> f64
    requires inside { Inside (vertices_of coords.now) face.now }
    requires face_nonzero { 0 < length face.now }
    ensures { result ≡ away_of (vertices_of coords.now) reference face.now }
{
    let n = flat::space::face_normal(coords, face);
    let p = flat::space::vertex_at(coords, face, 0);
    planes::dot(n, flat::minus3(p, reference))
}

// A face turned outward, in place.
#[tactic(auto, unfolding(crate::specs::Outward::outward_of))]
fn face_outward(coords: &[f64], face: &mut [u32], reference: [f64; 3])
    requires inside { Inside (vertices_of coords.now) face.old }
    requires face_nonzero { 0 < length face.old }
    ensures { face.new ≡ outward_of (vertices_of coords.now) reference face.old }
{
    if away(coords, face, reference) < 0.0 {
        face.reverse();
    }
}

// The faces of a cell turned outward, each in its own stretch of the corner list.
// Ruled out: turning the faces whose normal looks away from the centroid; reversing the
// whole corner list, which lays each face in another's stretch.
pub fn into_ccw(coords: &[f64], corners: &mut [u32], ends: &[u32])
    requires sound { Sound coords.now corners.old ends.now }
    requires ends_value { empty_refused corners.old ends.now ≡ false }
    ensures { corners.new ≡ outward_corners (vertices_of coords.now) (faces_of corners.old ends.now) }
{
    let reference = flat::space::vertex_centroid(coords);
    let mut start = 0;
    for &end in ends {
        let end = end as usize;
        face_outward(coords, &mut corners[start..end], reference);
        start = end;
    }
}
