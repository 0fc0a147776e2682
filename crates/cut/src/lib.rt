// Cutting a face into triangles.
#![tactic(auto)]

pub mod by_place;

ghost use Rattle.std.specs.Prelude.{◌≡◌, ◌-◌, ◌<◌, ◌≤◌, length, get_or, set};
ghost use Rattle.places.specs.Limits.{most_corners};
ghost use Rattle.places.specs.Steps.{removed};
ghost use Rattle.places.specs.Ring.{ear_of};
ghost use Rattle.flat.specs.Points.{vertices_of};
ghost use Rattle.flat.specs.Steps.{Inside};
ghost use Rattle.flat.specs.Flat.{points_of};
ghost use Rattle.cut.specs.Cut.{cut_in, cut_of, ring_at};
ghost use Rattle.cut.specs.Steps.{triangle_at, Within, InOrder, Shown};

// How many triangles a cut gave, how many corners of the ring it left (none where it came to its end), and how many turn tests were made.
#[derive(Clone, Copy)]
pub struct Counts {
    pub triangles: usize,
    pub left: usize,
    pub tests: usize,
}

// The counts of a cut in one line, for each of its ends.
fn counted(triangles: usize, left: usize, tests: usize) -> Counts
    ensures { result ≡ record { triangles = triangles; left = left; tests = tests } }
{
    Counts {
        triangles,
        left,
        tests,
    }
}

// While a face is cut, the ring is kept as places of the face (ks) beside the points of its corners (ps). A place takes 16 bits, since a
// face has at most 2,048 corners; nothing that is known here bounds the numbers of its vertices so.
// Two lists: next_corner reads the points alone, and a list of pairs would be a larger array, for a pair is padded to 24 bytes.

// The corner at place i of the ring, and the triangle of those at three places.
fn corner_at(face: &[u32], ks: &[u16], i: usize) -> u32
    requires { Within face.now ks.now × (i < length ks.now) }
    ensures { result ≡ get_or (ring_at face.now ks.now) i 0 }
{
    face[usize::from(ks[i])]
}

fn triangle_at(face: &[u32], ks: &[u16], i: usize, k: usize, j: usize) -> [u32; 3]
    requires within { Within face.now ks.now }
    requires i_in_bounds { (i < length ks.now) × (k < length ks.now) × (j < length ks.now) }
    ensures { result ≡ triangle_at (ring_at face.now ks.now) i k j }
{
    [
        corner_at(face, ks, i),
        corner_at(face, ks, k),
        corner_at(face, ks, j),
    ]
}

// The triangle at place k of the ring is written to place t, and the corner goes from both lists: what comes after it moves one place left.
fn cut_at(
    face: &[u32],
    ks: &mut [u16],
    ps: &mut [[f64; 2]],
    k: usize,
    out: &mut [[u32; 3]],
    t: usize,
)
    requires within { Within face.now ks.old }
    requires k_in_bounds { (k < length ks.old) × (k < length ps.old) × (t < length out.old) }
    ensures places { ks.new ≡ removed k ks.old }
    ensures points { ps.new ≡ removed k ps.old }
    ensures written { out.new ≡ set out.old t (ear_of k (ring_at face.now ks.old)) }
{
    let n = ks.len();
    let i = places::prev(k, n);
    let j = places::next(k, n);
    let ear = triangle_at(face, ks, i, k, j);
    out[t] = ear;
    ks.copy_within(k + 1.., k);
    ps.copy_within(k + 1.., k);
}

// The places of a face in order, and the points of its corners, are laid down in lists of their own.
// by_place::fill_order does this in 32 bits: one function for both would have to say of any type what its numbers are, and is no plainer.
fn fill_places(ks: &mut [u16])
    requires { length ks.old ≤ most_corners }
    ensures { InOrder ks.new }
{
    for (i, k) in ks.iter_mut().enumerate() {
        *k = i as u16;
    }
}

fn fill_points(coords: &[f64], face: &[u32], axis: usize, ps: &mut [[f64; 2]])
    requires inside { Inside (vertices_of coords.now) face.now }
    requires ps_len { length ps.old ≡ length face.now }
    ensures { ps.new ≡ points_of (vertices_of coords.now) axis face.now }
{
    for (i, p) in ps.iter_mut().enumerate() {
        *p = flat::space::point_at(coords, face, axis, i);
    }
}

// A face of three corners or more is cut, seen along an axis. Its places and its points are laid down in ks and ps, which are used up.
fn cut_ring(
    coords: &[f64],
    face: &[u32],
    axis: usize,
    ks: &mut [u16],
    ps: &mut [[f64; 2]],
    out: &mut [[u32; 3]],
) -> Counts
    requires inside { Inside (vertices_of coords.now) face.now }
    requires ks_len { (length ks.old ≡ length face.now) × (length ps.old ≡ length face.now) }
    requires in_bounds { (3 ≤ length face.now) × (length face.now ≤ most_corners) × (length face.now - 2 ≤ length out.old) }
    ensures { Shown (cut_in (vertices_of coords.now) axis face.now) result out.old out.new }
{
    fill_places(ks);
    fill_points(coords, face, axis, ps);
    let dir = next_corner::direction(ps);
    let n = face.len();
    let mut tests = 0;
    for t in 0..n - 3 {
        let m = n - t;
        let c = next_corner::find_corner(&ps[..m], dir);
        tests += c.tests;
        let Some(k) = c.corner else {
            return counted(t, m, tests);
        };
        cut_at(face, &mut ks[..m], &mut ps[..m], k, out, t);
    }
    out[n - 3] = triangle_at(face, ks, 0, 1, 2);
    counted(n - 2, 0, tests)
}

// A face is cut in two lists that are lent for it.
fn cut_in(
    coords: &[f64],
    face: &[u32],
    ks: &mut [u16],
    ps: &mut [[f64; 2]],
    out: &mut [[u32; 3]],
) -> Counts
    requires inside { Inside (vertices_of coords.now) face.now }
    requires ks_len { (length ks.old ≡ length face.now) × (length ps.old ≡ length face.now) }
    requires in_bounds { (3 ≤ length face.now) × (length face.now ≤ most_corners) × (length face.now - 2 ≤ length out.old) }
    ensures { Shown (cut_of (vertices_of coords.now) face.now) result out.old out.new }
{
    let axis = flat::dominant_axis(flat::space::face_normal(coords, face));
    cut_ring(coords, face, axis, ks, ps, out)
}

// The same with lists of its own, of N places. Each size is a function: a small face does not clear the lists of a large one, and the
// stack holds those of one size at a time.
fn cut_sized<const N: usize>(coords: &[f64], face: &[u32], out: &mut [[u32; 3]]) -> Counts
    requires inside { Inside (vertices_of coords.now) face.now }
    requires n_bound { (length face.now ≤ N) × (N ≤ most_corners) }
    requires in_bounds { (3 ≤ length face.now) × (length face.now - 2 ≤ length out.old) }
    ensures { Shown (cut_of (vertices_of coords.now) face.now) result out.old out.new }
{
    let n = face.len();
    let mut ks = [0u16; N];
    let mut ps = [[0.0f64; 2]; N];
    cut_in(coords, face, &mut ks[..n], &mut ps[..n], out)
}

// A face is cut: its triangles are written to the front of out. The answer says how many, how many corners are left if the cutting
// stopped short, and how many turn tests were made.
pub fn cut(coords: &[f64], face: &[u32], out: &mut [[u32; 3]]) -> Counts
    requires inside { Inside (vertices_of coords.now) face.now }
    requires face_len_bound { (length face.now ≤ most_corners) × (length face.now - 2 ≤ length out.old) }
    ensures { Shown (cut_of (vertices_of coords.now) face.now) result out.old out.new }
{
    let n = face.len();
    if n < 3 {
        return counted(0, 0, 0);
    }
    if n <= 16 {
        return cut_sized::<16>(coords, face, out);
    }
    if n <= 128 {
        return cut_sized::<128>(coords, face, out);
    }
    cut_sized::<{ places::limits::MOST_CORNERS }>(coords, face, out)
}
