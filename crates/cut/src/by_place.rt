// A face cut by place: its triangles as places of the face, since a face may hold a vertex twice and a place names one corner.
// The corners' points are laid down in a list of their own, and its places in order are cut as a face of these points.
ghost use Rattle.std.specs.Prelude.{◌≡◌, ◌-◌, ◌≤◌, length};
ghost use Rattle.places.specs.Limits.{most_corners};
ghost use Rattle.places.specs.Ring.{places_below};
ghost use Rattle.flat.specs.Points.{vertices_of, corners_of};
ghost use Rattle.flat.specs.Steps.{Inside};
ghost use Rattle.cut.specs.Cut.{cut_by_place};
ghost use Rattle.cut.specs.Steps.{Shown};

// The points of a face's corners, in order, laid down in a list of their own.
fn fill_corners(coords: &[f64], face: &[u32], points: &mut [[f64; 3]])
    requires inside { Inside (vertices_of coords.now) face.now }
    requires points_len { length points.old ≡ length face.now }
    ensures { points.new ≡ corners_of (vertices_of coords.now) face.now }
{
    for (i, p) in points.iter_mut().enumerate() {
        *p = flat::space::vertex_at(coords, face, i);
    }
}

// The places of a face in order.
fn fill_order(order: &mut [u32])
    requires { length order.old ≤ most_corners }
    ensures { order.new ≡ places_below (length order.old) }
{
    for (i, k) in order.iter_mut().enumerate() {
        *k = i as u32;
    }
}

// A face is cut by place in two lists that are lent for it.
fn cut_copied(
    coords: &[f64],
    face: &[u32],
    points: &mut [[f64; 3]],
    order: &mut [u32],
    out: &mut [[u32; 3]],
) -> crate::Counts
    requires inside { Inside (vertices_of coords.now) face.now }
    requires points_len { (length points.old ≡ length face.now) × (length order.old ≡ length face.now) }
    requires face_len_bound { (length face.now ≤ most_corners) × (length face.now - 2 ≤ length out.old) }
    ensures { Shown (cut_by_place (vertices_of coords.now) face.now) result out.old out.new }
{
    fill_corners(coords, face, points);
    fill_order(order);
    crate::cut(points.as_flattened(), order, out)
}

// A face is cut by place with lists of its own, of N places. Each size is a function: a small face does not clear the lists of a large one,
// and the stack holds those of one size at a time.
fn by_place_sized<const N: usize>(
    coords: &[f64],
    face: &[u32],
    out: &mut [[u32; 3]],
) -> crate::Counts
    requires inside { Inside (vertices_of coords.now) face.now }
    requires n_bound { (length face.now ≤ N) × (N ≤ most_corners) }
    requires in_bounds { length face.now - 2 ≤ length out.old }
    ensures { Shown (cut_by_place (vertices_of coords.now) face.now) result out.old out.new }
{
    let n = face.len();
    let mut points = [[0.0f64; 3]; N];
    let mut order = [0u32; N];
    cut_copied(coords, face, &mut points[..n], &mut order[..n], out)
}

// A face is cut by place: its triangles are written to the front of out, each corner as its place in the face. The answer says how many,
// how many corners are left if the cutting stopped short, and how many turn tests were made.
pub fn cut_by_place(coords: &[f64], face: &[u32], out: &mut [[u32; 3]]) -> crate::Counts
    requires inside { Inside (vertices_of coords.now) face.now }
    requires face_len_bound { (length face.now ≤ most_corners) × (length face.now - 2 ≤ length out.old) }
    ensures { Shown (cut_by_place (vertices_of coords.now) face.now) result out.old out.new }
{
    let n = face.len();
    if n <= 16 {
        return by_place_sized::<16>(coords, face, out);
    }
    if n <= 128 {
        return by_place_sized::<128>(coords, face, out);
    }
    by_place_sized::<{ places::limits::MOST_CORNERS }>(coords, face, out)
}
