// Volume and centroids of a cell that is known to be sound.
#![tactic(auto)]

ghost use Rattle.std.specs.Prelude.{◌≡◌, ℕ, ◌+◌, ◌-◌, ◌<◌, ◌≤◌, ◌&&◌, leb, ltb, [], length};
ghost use Rattle.places.specs.Limits.{most_faces, most_corners};
ghost use Rattle.places.specs.Lists.{Each};
ghost use Rattle.places.specs.Loops.{fold_list, one_if};
ghost use Rattle.flat.specs.Points.{vertices_of, centroid_of};
ghost use Rattle.flat.specs.Steps.{Inside};
ghost use Rattle.cut.specs.Cut.{cut_of};
ghost use Rattle.cell.specs.SoundCell.{vertices, faces};
ghost use Rattle.volume.specs.Volume.{triple_of, corner_from, triple_about, add_triple, volume_of, add_moment, moments_of, balance_of};
ghost use Rattle.volume.specs.Volume.{geometric_centroid_of};
ghost use Rattle.volume.specs.Steps.{measured_of, add_face, add_face_moments};

use cell::SoundCell;

// What one pass over the faces tells: six times the signed volume, how many triangles there
// are, and how many faces of three or more corners gave too few.
#[derive(Clone, Copy)]
pub struct Measured {
    pub v6: f64,
    pub triangles: usize,
    pub short: usize,
}

// The sums of the geometric centroid.
#[derive(Clone, Copy)]
pub struct Moments {
    pub v6: f64,
    pub sum: [f64; 3],
}

// a . (b x c)
#[tactic(auto, unfolding(crate::specs::Volume::triple_of))]
pub fn triple_product(a: [f64; 3], b: [f64; 3], c: [f64; 3]) -> f64
    ensures { result ≡ triple_of a b c }
{
    let x = b[1] * c[2] - b[2] * c[1];
    let y = b[2] * c[0] - b[0] * c[2];
    let z = b[0] * c[1] - b[1] * c[0];
    a[0] * x + a[1] * y + a[2] * z
}

// Corner k of a triangle, taken from the reference point.
#[tactic(auto, using(flat::proofs::Corners::corner_at))]
fn corner_from(coords: &[f64], t: [u32; 3], refp: [f64; 3], k: usize) -> [f64; 3]
    requires inside { Inside (vertices_of coords.now) t }
    requires k_bound { k < 3 }
    ensures { result ≡ corner_from (vertices_of coords.now) refp t k }
{
    flat::minus3(flat::space::vertex_at(coords, &t, k), refp)
}

// The triple product of a triangle about the reference point.
#[tactic(auto, unfolding(crate::specs::Volume::triple_about))]
fn triple(coords: &[f64], t: [u32; 3], refp: [f64; 3]) -> f64
    requires { Inside (vertices_of coords.now) t }
    ensures { result ≡ triple_about (vertices_of coords.now) refp t }
{
    triple_product(
        corner_from(coords, t, refp, 0),
        corner_from(coords, t, refp, 1),
        corner_from(coords, t, refp, 2),
    )
}

// The sum v with the triple products of a list of triangles added.
fn add_triangles(coords: &[f64], tris: &[[u32; 3]], refp: [f64; 3], v: f64) -> f64
    requires { Each [] (Inside (vertices_of coords.now)) tris.now }
    ensures { result ≡ fold_list (add_triple (vertices_of coords.now) refp) tris.now v }
{
    let mut s = v;
    for &t in tris {
        s += triple(coords, t, refp);
    }
    s
}

// 1 for a face of n corners, three or more, that gave fewer than n - 2 triangles, else 0.
fn short_share(n: usize, triangles: usize) -> usize
    requires { triangles ≤ most_corners }
    ensures { (result ≡ one_if (leb 3 n && ltb (triangles + 2) n)) × (result ≤ 1) }
{
    usize::from(n >= 3 && triangles + 2 < n)
}

// What is known so far with a face's share added; its triangles are laid down in out.
fn add_face(
    coords: &[f64],
    face: &[u32],
    refp: [f64; 3],
    m: Measured,
    out: &mut [[u32; 3]],
) -> Measured
    requires inside { Inside (vertices_of coords.now) face.now }
    requires face_len_bound { (length face.now ≤ most_corners) × (length face.now - 2 ≤ length out.old) }
    requires triangles_le_most_corners { (m.triangles ≤ most_corners) × (m.short ≤ most_faces) }
    ensures { result ≡ add_face (vertices_of coords.now) refp face.now m }
{
    let c = cut::cut(coords, face, out);
    let k = c.triangles;
    let v6 = add_triangles(coords, &out[..k], refp, m.v6);
    let more = short_share(face.len(), k);
    Measured {
        v6,
        triangles: m.triangles + k,
        short: m.short + more,
    }
}

// One pass over the faces; the triangles of each are laid down in out.
fn measure_in(cell: &SoundCell, out: &mut [[u32; 3]]) -> Measured
    requires { length cell.now.corners.now ≤ length out.old }
    ensures { result ≡ measured_of (vertices cell.now) (faces cell.now) }
{
    let refp = flat::space::vertex_centroid(cell.coords);
    let mut m = Measured {
        v6: 0.0,
        triangles: 0,
        short: 0,
    };
    let mut start = 0;
    for &end in cell.ends {
        let end = end as usize;
        m = add_face(
            cell.coords,
            cell::face(cell.corners, start, end),
            refp,
            m,
            out,
        );
        start = end;
    }
    m
}

// The same with a list of its own for the triangles of a face, of N places. Each size is a function: a small cell does not clear the list
// of a large one.
fn measure_sized<const N: usize>(cell: &SoundCell) -> Measured
    requires { (length cell.now.corners.now ≤ N) × (N ≤ most_corners) }
    ensures { result ≡ measured_of (vertices cell.now) (faces cell.now) }
{
    let mut out = [[0u32; 3]; N];
    measure_in(cell, &mut out)
}

// The list for one face's triangles is cleared once a cell, and is small for usual cells.
pub fn measure(cell: &SoundCell) -> Measured
    ensures { result ≡ measured_of (vertices cell.now) (faces cell.now) }
{
    if cell.corners.len() <= 256 {
        measure_sized::<256>(cell)
    } else {
        measure_sized::<{ places::limits::MOST_CORNERS }>(cell)
    }
}

// |v6| / 6.
#[tactic(auto, unfolding(crate::specs::Volume::volume_of, crate::specs::Steps::measured_of))]
pub fn volume(cell: &SoundCell) -> f64
    ensures { result ≡ volume_of (vertices cell.now) (faces cell.now) }
{
    let m = measure(cell);
    floats::magnitude(m.v6) / 6.0
}

// The sums with those of one triangle added.
#[tactic(auto, unfolding(crate::specs::Volume::add_moment, crate::specs::Volume::triple_about))]
fn add_moment(coords: &[f64], t: [u32; 3], refp: [f64; 3], m: Moments) -> Moments
    requires { Inside (vertices_of coords.now) t }
    ensures { result ≡ add_moment (vertices_of coords.now) refp t m }
{
    let a = corner_from(coords, t, refp, 0);
    let b = corner_from(coords, t, refp, 1);
    let c = corner_from(coords, t, refp, 2);
    let d = triple_product(a, b, c);
    let s = m.sum;
    Moments {
        v6: m.v6 + d,
        sum: [
            s[0] + (a[0] + b[0] + c[0]) * d,
            s[1] + (a[1] + b[1] + c[1]) * d,
            s[2] + (a[2] + b[2] + c[2]) * d,
        ],
    }
}

// With those of a list of triangles.
fn add_moments(coords: &[f64], tris: &[[u32; 3]], refp: [f64; 3], m: Moments) -> Moments
    requires { Each [] (Inside (vertices_of coords.now)) tris.now }
    ensures { result ≡ fold_list (add_moment (vertices_of coords.now) refp) tris.now m }
{
    let mut s = m;
    for &t in tris {
        s = add_moment(coords, t, refp, s);
    }
    s
}

// With those of a face, whose triangles are laid down in out.
fn add_face_moments(
    coords: &[f64],
    face: &[u32],
    refp: [f64; 3],
    m: Moments,
    out: &mut [[u32; 3]],
) -> Moments
    requires inside { Inside (vertices_of coords.now) face.now }
    requires face_len_bound { (length face.now ≤ most_corners) × (length face.now - 2 ≤ length out.old) }
    ensures { result ≡ add_face_moments (vertices_of coords.now) refp face.now m }
{
    let c = cut::cut(coords, face, out);
    let k = c.triangles;
    add_moments(coords, &out[..k], refp, m)
}

// The sums over all faces, about the vertex centroid; the triangles of each face are laid down in out.
fn moments_in(cell: &SoundCell, refp: [f64; 3], out: &mut [[u32; 3]]) -> Moments
    requires corners_in_bounds { length cell.now.corners.now ≤ length out.old }
    requires refp_value { refp ≡ centroid_of 3 (vertices cell.now) }
    ensures { result ≡ moments_of (vertices cell.now) (faces cell.now) }
{
    let mut m = Moments {
        v6: 0.0,
        sum: [0.0, 0.0, 0.0],
    };
    let mut start = 0;
    for &end in cell.ends {
        let end = end as usize;
        m = add_face_moments(
            cell.coords,
            cell::face(cell.corners, start, end),
            refp,
            m,
            out,
        );
        start = end;
    }
    m
}

// The same with a list of its own for the triangles of a face, of N places.
fn moments_sized<const N: usize>(cell: &SoundCell, refp: [f64; 3]) -> Moments
    requires n_bound { (length cell.now.corners.now ≤ N) × (N ≤ most_corners) }
    requires refp_value { refp ≡ centroid_of 3 (vertices cell.now) }
    ensures { result ≡ moments_of (vertices cell.now) (faces cell.now) }
{
    let mut out = [[0u32; 3]; N];
    moments_in(cell, refp, &mut out)
}

// The list is small for usual cells.
fn sum_moments(cell: &SoundCell, refp: [f64; 3]) -> Moments
    requires { refp ≡ centroid_of 3 (vertices cell.now) }
    ensures { result ≡ moments_of (vertices cell.now) (faces cell.now) }
{
    if cell.corners.len() <= 256 {
        moments_sized::<256>(cell, refp)
    } else {
        moments_sized::<{ places::limits::MOST_CORNERS }>(cell, refp)
    }
}

// The point that the sums about the reference point give: the first vertex when |v6| < 1e-30.
#[tactic(auto, unfolding(crate::specs::Volume::balance_of))]
fn balance(coords: &[f64], refp: [f64; 3], m: Moments) -> [f64; 3]
    requires { 0 < length (vertices_of coords.now) }
    ensures { result ≡ balance_of (vertices_of coords.now) refp m }
{
    let v6 = m.v6;
    let sum = m.sum;
    if floats::magnitude(v6) < 1e-30 {
        return flat::space::vertex(coords, 0);
    }
    flat::plus3(refp, flat::over3(sum, 4.0 * v6))
}

// The point at which the cell balances, as the sums about the vertex centroid give it.
#[tactic(auto, using(places::proofs::Stored::length_threes), unfolding(crate::specs::Volume::geometric_centroid_of))]
pub fn geometric_centroid(cell: &SoundCell) -> [f64; 3]
    ensures { result ≡ geometric_centroid_of (vertices cell.now) (faces cell.now) }
{
    let refp = flat::space::vertex_centroid(cell.coords);
    let m = sum_moments(cell, refp);
    balance(cell.coords, refp, m)
}
