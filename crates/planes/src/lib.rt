// Planes: a unit normal and an offset, the plane of a face or that it has no area, and planes in a list.
#![tactic(auto)]

ghost use Rattle.std.specs.Prelude.{◌≡◌, [], ◌+◌, ◌*◌, ◌<◌, ◌≤◌, length, get_or, set, take};
ghost use Rattle.flat.specs.Points.{vertices_of, corners_of};
ghost use Rattle.flat.specs.Steps.{Inside};
ghost use Rattle.cell.specs.SoundCell.{vertices, faces, Solid};
ghost use Rattle.planes.specs.Planes.{dot_of, offset_of, unit_plane, all_zero, has_no_area, plane_of, planes_of, no_area_faces};
ghost use Rattle.planes.specs.Planes.{no_area_count};
ghost use Rattle.planes.specs.Planes.{distance_of, same_side, coplanar_opposite, in_fours};
ghost use Rattle.planes.specs.Steps.{no_plane, plane_if};

use cell::SoundCell;

// A unit normal and an offset; inside is n · x <= d.
#[derive(Clone, Copy)]
pub struct Plane {
    pub n: [f64; 3],
    pub d: f64,
}

// The product n · p.
#[tactic(auto, unfolding(crate::specs::Planes::dot_of))]
pub fn dot(n: [f64; 3], p: [f64; 3]) -> f64
    ensures { result ≡ dot_of n p }
{
    n[0] * p[0] + n[1] * p[1] + n[2] * p[2]
}

// The offset of the plane n · x + d = 0 through p.
#[tactic(auto, unfolding(crate::specs::Planes::offset_of))]
pub fn offset(n: [f64; 3], p: [f64; 3]) -> f64
    ensures { result ≡ offset_of n p }
{
    -dot(n, p)
}

// The plane n · x + d = 0 with its normal brought to length 1.
// Ruled out: an offset left on its side, d for -d; a norm that is the root of the three squares' sum, which rounds otherwise.
#[tactic(auto, unfolding(crate::specs::Planes::unit_plane))]
fn unit_plane(n: [f64; 3], d: f64) -> Plane
    ensures { result ≡ unit_plane n d }
{
    let inv = 1.0 / hypot::hypot(hypot::hypot(n[0], n[1]), n[2]);
    let unit = [n[0] * inv, n[1] * inv, n[2] * inv];
    Plane {
        n: unit,
        d: -d * inv,
    }
}

// Whether three sums are all 0, of either sign.
// Ruled out: a sum that is only small taken for 0; a NaN taken for 0.
#[tactic(auto, unfolding(crate::specs::Planes::all_zero))]
fn all_zero(n: [f64; 3]) -> bool
    ensures { result ≡ all_zero n }
{
    n[0] == 0.0 && n[1] == 0.0 && n[2] == 0.0
}

// Whether a face has no area.
// Ruled out: a face whose norm alone underflows; a face of two corners read as one with area.
#[tactic(auto, unfolding(crate::specs::Planes::has_no_area))]
pub fn has_no_area(coords: &[f64], face: &[u32]) -> bool
    requires { Inside (vertices_of coords.now) face.now }
    ensures { result ≡ has_no_area (corners_of (vertices_of coords.now) face.now) }
{
    all_zero(flat::space::face_normal(coords, face))
}

// The plane of a face, or nothing where it has no area. Where 1 / norm is infinite, no part of the plane is finite, as SCOPE 11 says.
// Ruled out: each part divided by the norm, which rounds once instead of twice; an offset taken at the last corner.
pub fn plane_of_face(coords: &[f64], face: &[u32]) -> Option<Plane>
    requires inside { Inside (vertices_of coords.now) face.now }
    requires face_nonzero { 0 < length face.now }
    ensures { result ≡ plane_if (plane_of (corners_of (vertices_of coords.now) face.now)) }
{
    let n = flat::space::face_normal(coords, face);
    if all_zero(n) {
        return None;
    }
    let p = flat::space::vertex_at(coords, face, 0);
    Some(unit_plane(n, offset(n, p)))
}

// How far p is beyond a plane.
// Ruled out: the offset added; the offset taken off before the products are added, which rounds otherwise.
#[tactic(auto, unfolding(crate::specs::Planes::distance_of, crate::specs::Planes::dot_of))]
pub fn distance(plane: Plane, p: [f64; 3]) -> f64
    ensures { result ≡ distance_of plane p }
{
    plane.n[0] * p[0] + plane.n[1] * p[1] + plane.n[2] * p[2] - plane.d
}

// Whether two planes are the same with the inside on the same side.
// Ruled out: `>=` for `>`, which lets a normal that is off by just 1e-10 pass; offsets compared with their signs.
#[tactic(auto, unfolding(crate::specs::Planes::same_side))]
pub fn plane_same_side(a: Plane, b: Plane, tol: f64) -> bool
    ensures { result ≡ same_side a b tol }
{
    let m = a.n;
    let n = b.n;
    if dot(m, n) <= 1.0 - 1e-10 {
        return false;
    }
    floats::magnitude(a.d - b.d) <= tol
}

// Whether two planes are the same with the inside on opposite sides.
// Ruled out: the difference of the offsets for their sum; a NaN normal read as not opposite.
#[tactic(auto, unfolding(crate::specs::Planes::coplanar_opposite))]
pub fn plane_coplanar_opposite(a: Plane, b: Plane, tol: f64) -> bool
    ensures { result ≡ coplanar_opposite a b tol }
{
    let m = a.n;
    let n = b.n;
    if dot(m, n) >= -1.0 + 1e-10 {
        return false;
    }
    floats::magnitude(a.d + b.d) <= tol
}

// The plane at place k.
// Ruled out: the offset read before the normal; the planes counted from the end.
#[tactic(auto, using(crate::proofs::Stored::length_fours))]
pub fn plane_at(planes: &[f64], k: usize) -> Plane
    requires { k < length (in_fours planes.now) }
    ensures { result ≡ get_or (in_fours planes.now) k no_plane }
{
    let i = k * 4;
    let n = [
        places::num(planes, i),
        places::num(planes, i + 1),
        places::num(planes, i + 2),
    ];
    Plane {
        n,
        d: places::num(planes, i + 3),
    }
}

// A plane laid down at place k.
// Ruled out: the offset laid down before the normal; a store that reaches into the plane after it.
#[tactic(auto, using(crate::proofs::Stored::length_fours))]
pub fn put_plane(out: &mut [f64], k: usize, plane: Plane)
    requires { k < length (in_fours out.old) }
    ensures { in_fours out.new ≡ set (in_fours out.old) k plane }
{
    let i = k * 4;
    out[i] = plane.n[0];
    out[i + 1] = plane.n[1];
    out[i + 2] = plane.n[2];
    out[i + 3] = plane.d;
}

// The planes of a cell's faces that have area, laid down at the front of a list, and how many there are.
// Ruled out: every face taken from the first corner on; a place kept free for a face of no area.
pub fn planes(cell: &SoundCell, out: &mut [f64]) -> usize
    requires solid { Solid cell.now }
    requires ends_in_bounds { 4 * length cell.now.ends.now ≤ length out.old }
    ensures value { result ≡ length (planes_of (vertices cell.now) (faces cell.now)) }
    ensures out_value { take result (in_fours out.new) ≡ planes_of (vertices cell.now) (faces cell.now) }
{
    let mut m = 0;
    let mut start = 0;
    for &end in cell.ends {
        let end = end as usize;
        let face = cell::face(cell.corners, start, end);
        start = end;
        if let Some(plane) = plane_of_face(cell.coords, face) {
            put_plane(out, m, plane);
            m += 1;
        }
    }
    m
}

// For each face of a cell 1 where it has no area, else 0, one a place of a list that has just so many.
// Ruled out: 1 for a face with area and 0 for the others; every face taken from the first corner on.
pub fn no_area_faces(cell: &SoundCell, out: &mut [usize])
    requires { length out.old ≡ length cell.now.ends.now }
    ensures { out.new ≡ no_area_faces (vertices cell.now) (faces cell.now) }
{
    let mut start = 0;
    for (k, &end) in cell.ends.iter().enumerate() {
        let end = end as usize;
        let face = cell::face(cell.corners, start, end);
        out[k] = usize::from(has_no_area(cell.coords, face));
        start = end;
    }
}

// How many faces of a cell have no area.
// Ruled out: the faces with area counted; the first such face alone.
pub fn no_area_count(cell: &SoundCell) -> usize
    ensures { result ≡ no_area_count (vertices cell.now) (faces cell.now) }
{
    let mut count = 0;
    let mut start = 0;
    for &end in cell.ends {
        let end = end as usize;
        let face = cell::face(cell.corners, start, end);
        count += usize::from(has_no_area(cell.coords, face));
        start = end;
    }
    count
}
