// The gatehouse: every public entry takes any input, refuses by the numbers of SCOPE 3, in their order, and then calls a room.
// The entries on a cell and the check of triangles over a face's places stand here, with every type of a public signature (the refusal,
// which the checks below answer too, is exported again from `places`); those on lists of points in `in_space` and `in_plane`, clipping in
// `clipping`, the fixed shapes in `fixed`, the leaves in `leaves`. A cell's three lists stay three arguments, as every C name has them;
// past the check they go on as one sound cell.
#![tactic(auto)]

pub mod clipping;
pub mod fixed;
pub mod in_plane;
pub mod in_space;
pub mod leaves;

ghost use Rattle.std.specs.Prelude.{◌≡◌};
ghost use Rattle.geometry.specs.Answers.{named3, bounds3};
ghost use Rattle.geometry.specs.Cells.{volume_answer, centroid_answer, geometric_centroid_answer, bounds_answer, scale_answer};
ghost use Rattle.geometry.specs.Cells.{closed_answer, contains_answer, point_in_phed_answer, cell_of, describe_answer, is_convex_answer};
ghost use Rattle.geometry.specs.Cells.{into_ccw_answer, plane_of_face_answer, no_area_faces_answer, triangles_answer};
ghost use Rattle.geometry.specs.Cells.{triangle_places_answer, plane_shown};
ghost use Rattle.geometry.specs.CheckCut.{check_cut_answer, YesForCuts};
ghost use Rattle.geometry.specs.Survey.{survey_answer};
ghost use Rattle.geometry.specs.TurnFaces.{can_turn_answer, TurnFacesGives};

use cell::SoundCell;
pub use places::refusal::Refusal;

// A point and a box, of space and of the plane, with names for the coordinates.
#[derive(Clone, Copy)]
pub struct Point3 {
    pub x: f64,
    pub y: f64,
    pub z: f64,
}

#[derive(Clone, Copy)]
pub struct Bounds3 {
    pub low: Point3,
    pub high: Point3,
}

#[derive(Clone, Copy)]
pub struct Point2 {
    pub x: f64,
    pub y: f64,
}

#[derive(Clone, Copy)]
pub struct Bounds2 {
    pub low: Point2,
    pub high: Point2,
}

// What is known of a cell's shape.
#[derive(Clone, Copy)]
pub enum Convexity {
    Convex,
    Concave,
    Unknown,
}

// A cell by value, beside its lists: how many vertices, corners and faces they hold, and what is known of its shape.
#[derive(Clone, Copy)]
pub struct Cell {
    pub vertices: usize,
    pub corners: usize,
    pub faces: usize,
    pub convexity: Convexity,
}

// A plane: a unit normal and the offset along it; the inside is where n · x is at most d.
#[derive(Clone, Copy)]
pub struct Plane {
    pub n: [f64; 3],
    pub d: f64,
}

// The volume that two cells share, and how many faces of the first and of the second have no area.
#[derive(Clone, Copy)]
pub struct Shared {
    pub volume: f64,
    pub arealess: usize,
    pub arealess2: usize,
}

// An outline of so many points, in the first work list or in the second.
#[derive(Clone, Copy)]
pub struct Outline {
    pub points: usize,
    pub in_second: bool,
}

// How many triangles a face is cut into, and how many turn tests were made: how often turn × direction was tested at a corner.
#[derive(Clone, Copy)]
pub struct CutCounts {
    pub triangles: usize,
    pub tests: usize,
}

// What the cell report finds out about a cell.
#[derive(Clone, Copy)]
pub struct Findings {
    pub triangles: usize,
    pub closed: bool,
    pub short: usize,
    pub volume: f64,
    pub contained: usize,
}

// The coordinates of a point under their names.
impl From<[f64; 3]> for Point3 {
    ghost from_gives = { λ p named. named ≡ named3 p };

    fn from(p: [f64; 3]) -> Point3 {
        Point3 {
            x: p[0],
            y: p[1],
            z: p[2],
        }
    }
}

impl From<[[f64; 3]; 2]> for Bounds3 {
    ghost from_gives = { λ b named. named ≡ bounds3 b };

    fn from(b: [[f64; 3]; 2]) -> Bounds3 {
        let [low, high] = b;
        Bounds3 {
            low: Point3::from(low),
            high: Point3::from(high),
        }
    }
}

// A plane as an entry shows it.
impl From<planes::Plane> for Plane {
    ghost from_gives = { λ p shown. shown ≡ plane_shown p };

    fn from(p: planes::Plane) -> Plane {
        let n = p.n;
        Plane { n, d: p.d }
    }
}

// |v6| / 6, about the vertex centroid.
// Ruled out: the sum about the origin; a cell of one face cut only.
pub fn volume(coords: &[f64], corners: &[u32], ends: &[u32]) -> Result<f64, Refusal>
    ensures { result ≡ volume_answer coords.now corners.now ends.now }
{
    refusals::cell_refusal(coords, corners, ends)?;
    let cell = SoundCell {
        coords,
        corners,
        ends,
    };
    Ok(volume::volume(&cell))
}

// The vertex centroid.
// Ruled out: the mean over the corners, which counts a vertex once a face; an answer for a refused cell.
pub fn centroid(coords: &[f64], corners: &[u32], ends: &[u32]) -> Result<Point3, Refusal>
    ensures { result ≡ centroid_answer coords.now corners.now ends.now }
{
    refusals::cell_refusal(coords, corners, ends)?;
    Ok(Point3::from(flat::space::vertex_centroid(coords)))
}

// The volume's own centroid; the first vertex when |v6| < 1e-30.
// Ruled out: the vertex centroid; NaN for a cell of no volume.
pub fn geometric_centroid(coords: &[f64], corners: &[u32], ends: &[u32]) -> Result<Point3, Refusal>
    ensures { result ≡ geometric_centroid_answer coords.now corners.now ends.now }
{
    refusals::cell_refusal(coords, corners, ends)?;
    let cell = SoundCell {
        coords,
        corners,
        ends,
    };
    Ok(Point3::from(volume::geometric_centroid(&cell)))
}

// The box of all vertices.
// Ruled out: a box of the vertices that faces name only; one that holds the origin always.
pub fn bounds(coords: &[f64], corners: &[u32], ends: &[u32]) -> Result<Bounds3, Refusal>
    ensures { result ≡ bounds_answer coords.now corners.now ends.now }
{
    refusals::cell_refusal(coords, corners, ends)?;
    Ok(Bounds3::from(flat::space::bounds(coords)))
}

// The longest side of that box.
// Ruled out: the diagonal; the side along x.
pub fn scale(coords: &[f64], corners: &[u32], ends: &[u32]) -> Result<f64, Refusal>
    ensures { result ≡ scale_answer coords.now corners.now ends.now }
{
    refusals::cell_refusal(coords, corners, ends)?;
    Ok(flat::scale(flat::space::bounds(coords)))
}

// Whether, for all vertex numbers i and j that differ, face sides i to j are as many as j to i.
// Ruled out: yes for every cell; a test of sides without their direction.
pub fn closed(coords: &[f64], corners: &[u32], ends: &[u32]) -> Result<bool, Refusal>
    ensures { result ≡ closed_answer coords.now corners.now ends.now }
{
    refusals::cell_refusal(coords, corners, ends)?;
    Ok(closedness::closed(corners, ends, coords.len() / 3))
}

// Whether the ray from the point along +x crosses an odd number of faces.
// Ruled out: outside for every point; a query value above 2^40 taken.
pub fn contains(coords: &[f64], corners: &[u32], ends: &[u32], p: [f64; 3]) -> Result<bool, Refusal>
    ensures { result ≡ contains_answer coords.now corners.now ends.now p }
{
    refusals::contains_refusal(coords, corners, ends, p)?;
    let cell = SoundCell {
        coords,
        corners,
        ends,
    };
    Ok(inside::contains(&cell, p))
}

// The description of a cell's lists.
fn description(coords: &[f64], corners: &[u32], ends: &[u32], convexity: Convexity) -> Cell
    ensures { result ≡ cell_of coords.now corners.now ends.now convexity }
{
    Cell {
        vertices: coords.len() / 3,
        corners: corners.len(),
        faces: ends.len(),
        convexity,
    }
}

// The cell by value: how many vertices, corners and faces its lists hold, and what the caller knows of its shape.
// Ruled out: counts of a refused cell; a shape other than the caller's.
pub fn describe(
    coords: &[f64],
    corners: &[u32],
    ends: &[u32],
    convexity: Convexity,
) -> Result<Cell, Refusal>
    ensures { result ≡ describe_answer coords.now corners.now ends.now convexity }
{
    refusals::cell_refusal(coords, corners, ends)?;
    Ok(description(coords, corners, ends, convexity))
}

// Whether the cell is convex: what the caller knows, and where that is unknown, whether each face has all other vertices on one side.
// Ruled out: an unknown shape taken for a convex one; a face's own corners held against it.
pub fn is_convex(
    coords: &[f64],
    corners: &[u32],
    ends: &[u32],
    convexity: Convexity,
) -> Result<bool, Refusal>
    ensures { result ≡ is_convex_answer coords.now corners.now ends.now convexity }
{
    refusals::cell_refusal(coords, corners, ends)?;
    let cell = SoundCell {
        coords,
        corners,
        ends,
    };
    let c = description(coords, corners, ends, convexity);
    let shape = c.convexity;
    match shape {
        Convexity::Convex => Ok(true),
        Convexity::Concave => Ok(false),
        Convexity::Unknown => Ok(outward::compute_convexity(&cell)),
    }
}

// The faces turned outward, each in its own stretch of the corner list.
// Ruled out: faces turned inward; a refused list of which some faces are turned.
pub fn into_ccw(coords: &[f64], corners: &mut [u32], ends: &[u32]) -> Result<(), Refusal>
    ensures { (result, corners.new) ≡ into_ccw_answer coords.now corners.old ends.now }
{
    refusals::faces_refusal(coords, corners, ends, &ends[..0])?;
    outward::into_ccw(coords, corners, ends);
    Ok(())
}

// The backward faces turned: some faces are reversed, each in its own stretch of the corner list, so that the cell becomes closed.
// The answer is how many.
// Ruled out: the lowest face of a group reversed; 12 although a choice of reversals closes the cell; a refused list that is changed.
pub fn turn_faces(coords: &[f64], corners: &mut [u32], ends: &[u32]) -> Result<usize, Refusal>
    ensures { TurnFacesGives coords.now corners.old ends.now result corners.new }
{
    refusals::cell_refusal(coords, corners, ends)?;
    let n = ends.len();
    let mut code = [0u8; places::limits::MOST_FACES];
    let part = &mut code[..n];
    facing::choose(corners, ends, coords.len() / 3, part)?;
    Ok(facing::reverse_faces(corners, ends, part))
}

// Whether turn_faces would be carried out, or its refusal; nothing is turned.
// Ruled out: a yes for a cell that no choice of reversals closes; 5 for an empty face.
#[tactic(auto, unfolding(crate::specs::TurnFaces::can_turn_answer))]
pub fn can_turn(coords: &[f64], corners: &[u32], ends: &[u32]) -> Result<(), Refusal>
    ensures { result ≡ can_turn_answer coords.now corners.now ends.now }
{
    refusals::turn_faces_refusal(coords, corners, ends)
}

// The plane of the face with a number: a unit normal and an offset; or none, where the face has no area: its three Newell sums are all 0.
// Ruled out: the plane of the face before it; no area where only the norm underflows.
pub fn plane_of_face(
    coords: &[f64],
    corners: &[u32],
    ends: &[u32],
    face: u32,
) -> Result<Option<Plane>, Refusal>
    ensures { result ≡ plane_of_face_answer coords.now corners.now ends.now face }
{
    refusals::faces_refusal(coords, corners, ends, &[face])?;
    let part = cell::face_by_number(corners, ends, face as usize);
    Ok(planes::plane_of_face(coords, part).map(Plane::from))
}

// Which faces have no area: for each face 1 or 0, at the front of the list.
// Ruled out: 1 for a face with area; a refusal that writes; a place behind the faces that is changed.
pub fn no_area_faces(
    coords: &[f64],
    corners: &[u32],
    ends: &[u32],
    out: &mut [usize],
) -> Result<(), Refusal>
    ensures { (result, out.new) ≡ no_area_faces_answer coords.now corners.now ends.now out.old }
{
    refusals::no_area_refusal(coords, corners, ends, out.len())?;
    let cell = SoundCell {
        coords,
        corners,
        ends,
    };
    let n = ends.len();
    planes::no_area_faces(&cell, &mut out[..n]);
    Ok(())
}

// The triangles of the face with a number, at the front of out; room is asked for before the cut, even if it stops short. The answer says
// how many, and how many turn tests were made: at most n² + n − 12 for n ≥ 3 corners, and none below.
// Ruled out: a fan; a count above what was written; a refusal that writes; the tests of one pass alone.
pub fn triangles(
    coords: &[f64],
    corners: &[u32],
    ends: &[u32],
    face: u32,
    out: &mut [[u32; 3]],
) -> Result<CutCounts, Refusal>
    ensures { (result, out.new) ≡ triangles_answer coords.now corners.now ends.now face out.old }
{
    refusals::face_refusal(coords, corners, ends, face)?;
    let part = cell::face_by_number(corners, ends, face as usize);
    if refusals::room_refused(part, out.len()) {
        return Err(Refusal::Room);
    }
    let c = cut::cut(coords, part, out);
    Ok(CutCounts {
        triangles: c.triangles,
        tests: c.tests,
    })
}

// The triangles of the face with a number, each corner by its place in the face, 0 to n - 1, as `check_cut` takes them; room is asked for
// and tests are counted as by `triangles`. An entry beside `triangles`, since C has a name for each.
// Ruled out: the vertex number of a corner; the place of another corner at which the same vertex stands.
pub fn triangle_places(
    coords: &[f64],
    corners: &[u32],
    ends: &[u32],
    face: u32,
    out: &mut [[u32; 3]],
) -> Result<CutCounts, Refusal>
    ensures { (result, out.new) ≡ triangle_places_answer coords.now corners.now ends.now face out.old }
{
    refusals::face_refusal(coords, corners, ends, face)?;
    let part = cell::face_by_number(corners, ends, face as usize);
    if refusals::room_refused(part, out.len()) {
        return Err(Refusal::Room);
    }
    let c = cut::by_place::cut_by_place(coords, part, out);
    Ok(CutCounts {
        triangles: c.triangles,
        tests: c.tests,
    })
}

// Whether triangles over the places of a face of n corners, three places each, are a cut of the face: n - 2 of three different places,
// which run each side of the face once its own way and not back, and every other side that occurs once each way.
// Ruled out: a triangle that is turned round accepted; a list with one triangle too few accepted.
pub fn check_cut(n: u32, places: &[u32]) -> Result<bool, Refusal>
    ensures value { result ≡ check_cut_answer n places.now }
    ensures yes_for_cuts { YesForCuts n places.now result }
{
    refusals::check_refusal(n, places)?;
    Ok(cut_check::is_cut(n as usize, places))
}

// Whether the ray from the point along +x crosses an odd number of faces, which stand in one list: 4,294,967,295 ends a face,
// and faces under 3 corners are skipped.
// Ruled out: a mark taken for a corner; a face without a mark at the end of the list left out.
pub fn point_in_phed(coords: &[f64], cs: &[u32], p: [f64; 3]) -> Result<bool, Refusal>
    ensures { result ≡ point_in_phed_answer coords.now cs.now p }
{
    refusals::phed_refusal(coords, cs, p)?;
    Ok(inside::point_in_phed(coords, cs, p))
}

// What the cell report finds out about a cell with its query points: the cell is checked once, and its faces are cut once.
// Ruled out: a volume of one cell beside the count of another; faces under 3 corners counted among the short ones.
pub fn survey(
    coords: &[f64],
    corners: &[u32],
    ends: &[u32],
    queries: &[f64],
) -> Result<Findings, Refusal>
    ensures { result ≡ survey_answer coords.now corners.now ends.now queries.now }
{
    refusals::survey_refusal(coords, corners, ends, queries)?;
    let cell = SoundCell {
        coords,
        corners,
        ends,
    };
    let m = volume::measure(&cell);
    Ok(Findings {
        triangles: m.triangles,
        closed: closedness::closed(corners, ends, coords.len() / 3),
        short: m.short,
        volume: floats::magnitude(m.v6) / 6.0,
        contained: inside::count_contained(&cell, queries),
    })
}
