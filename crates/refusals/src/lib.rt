// Why the public entries refuse: each check in the order of SCOPE 3. A cell is three lists here, as C has them, since nothing is known of
// them before the check.
#![tactic(auto)]

ghost use Rattle.std.specs.Prelude.{◌≡◌, ◌-◌, ◌<◌};
ghost use Rattle.places.specs.Loops.{any_of};
ghost use Rattle.refusals.specs.Refusals.{list_refusal, local_refusal, pairs_refused, plane_refusal, cell_refusal, contains_refusal};
ghost use Rattle.refusals.specs.Refusals.{faces_refusal, no_area_refusal, check_size_refused, check_refusal};
ghost use Rattle.refusals.specs.Refusals.{face_refusal, room_refused, turn_faces_refusal, strays, phed_refusal, queries_refused};
ghost use Rattle.refusals.specs.Refusals.{survey_refusal};
ghost use Rattle.refusals.specs.Refusals.{planes_refused, work_refused, works_refusal, clip_refusal, planar_refusal, overlap_refusal};
ghost use Rattle.refusals.specs.Steps.{parts_refused};

use places::refusal::Refusal;

// Whether n numbers do not come in parts of a size, or make too many of them.
fn parts_refused(n: usize, size: usize, most: usize) -> bool
    requires { 0 < size }
    ensures { result ≡ parts_refused n size most }
{
    (n % size != 0) | (n / size > most)
}

// Not in pairs, or over 512 points.
fn pairs_refused(ps: &[f64]) -> bool
    ensures { result ≡ pairs_refused ps.now }
{
    parts_refused(ps.len(), 2, places::limits::MOST_PLANE_POINTS)
}

// Query values not in threes, or over 256 query points.
fn queries_refused(queries: &[f64]) -> bool
    ensures { result ≡ queries_refused queries.now }
{
    parts_refused(queries.len(), 3, places::limits::MOST_QUERIES)
}

// Not in fours, or over 256 planes.
fn planes_refused(planes: &[f64]) -> bool
    ensures { result ≡ planes_refused planes.now }
{
    parts_refused(planes.len(), 4, places::limits::MOST_PLANES)
}

// Over 3,072 numbers.
fn work_refused(l: &[f64]) -> bool
    ensures { result ≡ work_refused l.now }
{
    l.len() > places::limits::MOST_WORK_NUMBERS
}

// Why a list of points of space is refused.
// Ruled out: a NaN found before a list that is not in threes; an empty list let through.
pub fn list_refusal(coords: &[f64]) -> Result<(), Refusal>
    ensures { result ≡ list_refusal coords.now }
{
    if cell::points_refused(coords) {
        return Err(Refusal::Size);
    }
    if cell::number_refused(coords) {
        return Err(Refusal::Number);
    }
    Ok(())
}

// Why vertices are not moved to a local origin.
// Ruled out: 15 for a list that has a number out of range; 15 where every difference is an f64.
pub fn local_refusal(coords: &[f64]) -> Result<(), Refusal>
    ensures { result ≡ local_refusal coords.now }
{
    list_refusal(coords)?;
    if local::move_refused(coords) {
        return Err(Refusal::Inexact);
    }
    Ok(())
}

// Why a list of points of the plane is refused.
// Ruled out: an empty list refused; a limit of 512 numbers for 512 points.
pub fn plane_refusal(ps: &[f64]) -> Result<(), Refusal>
    ensures { result ≡ plane_refusal ps.now }
{
    if pairs_refused(ps) {
        return Err(Refusal::Size);
    }
    if cell::number_refused(ps) {
        return Err(Refusal::Number);
    }
    Ok(())
}

// Why a cell of which nothing else is asked is refused.
// Ruled out: every cell refused; an index judged before the ends.
pub fn cell_refusal(coords: &[f64], corners: &[u32], ends: &[u32]) -> Result<(), Refusal>
    ensures { result ≡ cell_refusal coords.now corners.now ends.now }
{
    cell::refusal(coords, corners, ends, &coords[..0], &corners[..0])
}

// Why a cell with one query point is refused.
// Ruled out: a query value above 2^40 taken; the point judged after the corners.
pub fn contains_refusal(
    coords: &[f64],
    corners: &[u32],
    ends: &[u32],
    p: [f64; 3],
) -> Result<(), Refusal>
    ensures { result ≡ contains_refusal coords.now corners.now ends.now p }
{
    cell::refusal(coords, corners, ends, &p, &corners[..0])
}

// Why a cell is refused whose faces are all to have corners; `asked` are the numbers of faces that are asked for.
// Ruled out: an empty face found before a corner that is out of range; only the faces that are asked for tested for corners.
pub fn faces_refusal(
    coords: &[f64],
    corners: &[u32],
    ends: &[u32],
    asked: &[u32],
) -> Result<(), Refusal>
    ensures { result ≡ faces_refusal coords.now corners.now ends.now asked.now }
{
    cell::refusal(coords, corners, ends, &coords[..0], asked)?;
    if cell::empty_refused(corners, ends) {
        return Err(Refusal::EmptyFace);
    }
    Ok(())
}

// Why the faces of no area are not told in a list with so much room.
// Ruled out: 6 for a cell that has an empty face; a list that is too short by one let through.
pub fn no_area_refusal(
    coords: &[f64],
    corners: &[u32],
    ends: &[u32],
    room: usize,
) -> Result<(), Refusal>
    ensures { result ≡ no_area_refusal coords.now corners.now ends.now room }
{
    faces_refusal(coords, corners, ends, &ends[..0])?;
    if room < ends.len() {
        return Err(Refusal::Room);
    }
    Ok(())
}

// Why turning the backward faces is refused; faces of 0 corners pass.
// Ruled out: 5 for an empty face; a side that occurs once found before a corner that is out of range.
pub fn turn_faces_refusal(coords: &[f64], corners: &[u32], ends: &[u32]) -> Result<(), Refusal>
    ensures { result ≡ turn_faces_refusal coords.now corners.now ends.now }
{
    cell_refusal(coords, corners, ends)?;
    facing::refusal(corners, ends, coords.len() / 3)
}

// Why a cell is refused of which the face with a number is asked for.
// Ruled out: a face that is not there let through; the face's number judged before the corners.
pub fn face_refusal(coords: &[f64], corners: &[u32], ends: &[u32], face: u32) -> Result<(), Refusal>
    ensures { result ≡ face_refusal coords.now corners.now ends.now face }
{
    cell::refusal(coords, corners, ends, &coords[..0], &[face])
}

// Whether `room` places are too few for the triangles of a face, which is refused as 6 after face_refusal; room is asked for even if
// the cut will stop short. The face is the caller's, who has found it once.
// Ruled out: a place asked for a face of two corners; one place too few let through.
pub fn room_refused(face: &[u32], room: usize) -> bool
    ensures { result ≡ room_refused face.now room }
{
    room < face.len().saturating_sub(2)
}

// A face of under 3 or over 256 corners; or triangles' corners, each a place of the face, not in threes, or over 254 triangles.
fn check_size_refused(n: u32, corners: &[u32]) -> bool
    ensures { result ≡ check_size_refused n corners.now }
{
    let many = n as usize > places::limits::MOST_CHECKED_CORNERS;
    ((n < 3) | many) | parts_refused(corners.len(), 3, places::limits::MOST_CHECKED_TRIANGLES)
}

// Why triangles over the places of a face of n corners are not checked; `corners` are the triangles' corners, each by its place.
// Ruled out: a place equal to n let through; 4 for a list that is not in threes.
pub fn check_refusal(n: u32, corners: &[u32]) -> Result<(), Refusal>
    ensures { result ≡ check_refusal n corners.now }
{
    if check_size_refused(n, corners) {
        return Err(Refusal::Size);
    }
    if cell::index_refused(n as usize, corners) {
        return Err(Refusal::Index);
    }
    Ok(())
}

// Whether an entry that is not the mark is not below n. Every entry is looked at, without an exit.
fn strays_in(n: usize, cs: &[u32]) -> bool
    requires { n < 4294967296 }
    ensures { result ≡ any_of (strays n) cs.now }
{
    let beyond = n as u32;
    let mut any = false;
    for &c in cs {
        any |= strays(beyond, c);
    }
    any
}

fn strays(n: u32, c: u32) -> bool
    ensures { result ≡ strays n c }
{
    (c != 4294967295) & (n <= c)
}

// Why point_in_phed refuses.
// Ruled out: a mark refused as an index; a list of 2,304 entries refused.
pub fn phed_refusal(coords: &[f64], cs: &[u32], p: [f64; 3]) -> Result<(), Refusal>
    ensures { result ≡ phed_refusal coords.now cs.now p }
{
    if cell::points_refused(coords) || cs.len() > places::limits::MOST_MARKED_CORNERS {
        return Err(Refusal::Size);
    }
    if cell::number_refused(coords) || cell::number_refused(&p) {
        return Err(Refusal::Number);
    }
    if strays_in(coords.len() / 3, cs) {
        return Err(Refusal::Index);
    }
    Ok(())
}

// Why a cell or its query points are refused.
// Ruled out: query values that are not looked at; too many query points found only after the cell's numbers.
pub fn survey_refusal(
    coords: &[f64],
    corners: &[u32],
    ends: &[u32],
    queries: &[f64],
) -> Result<(), Refusal>
    ensures { result ≡ survey_refusal coords.now corners.now ends.now queries.now }
{
    if queries_refused(queries) {
        return Err(Refusal::Size);
    }
    cell::refusal(coords, corners, ends, queries, &corners[..0])
}

// Why the two work lists are refused.
fn works_refusal(first: &[f64], second: &[f64]) -> Result<(), Refusal>
    ensures { result ≡ works_refusal first.now second.now }
{
    if work_refused(first) | work_refused(second) {
        return Err(Refusal::Size);
    }
    Ok(())
}

// Why the clipping of a face by planes is refused, room apart. The planes' own numbers are taken as they are.
// Ruled out: a NaN in a plane refused; a work list of 3,073 numbers let through because the other is short.
pub fn clip_refusal(
    coords: &[f64],
    corners: &[u32],
    ends: &[u32],
    face: u32,
    planes: &[f64],
    first: &[f64],
    second: &[f64],
) -> Result<(), Refusal>
    ensures { result ≡ clip_refusal coords.now corners.now ends.now face planes.now first.now second.now }
{
    if planes_refused(planes) {
        return Err(Refusal::Size);
    }
    works_refusal(first, second)?;
    face_refusal(coords, corners, ends, face)
}

// Why planar clipping is refused, room apart.
// Ruled out: the clip list's size judged before the subject's numbers; an empty clip list refused.
pub fn planar_refusal(
    subject: &[f64],
    clip: &[f64],
    first: &[f64],
    second: &[f64],
) -> Result<(), Refusal>
    ensures { result ≡ planar_refusal subject.now clip.now first.now second.now }
{
    works_refusal(first, second)?;
    plane_refusal(subject)?;
    plane_refusal(clip)
}

// Why the overlap of two cells is refused, room apart.
// Ruled out: the second cell judged before the first; the second cell's size judged with the first's.
pub fn overlap_refusal(
    coords: &[f64],
    corners: &[u32],
    ends: &[u32],
    coords2: &[f64],
    corners2: &[u32],
    ends2: &[u32],
    first: &[f64],
    second: &[f64],
) -> Result<(), Refusal>
    ensures { result ≡ overlap_refusal coords.now corners.now ends.now coords2.now corners2.now ends2.now first.now
        second.now }
{
    works_refusal(first, second)?;
    faces_refusal(coords, corners, ends, &corners[..0])?;
    faces_refusal(coords2, corners2, ends2, &corners[..0])
}
