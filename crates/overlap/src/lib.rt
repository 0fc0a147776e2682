// The overlap of two cells: each cell's faces clipped by the planes of the other, and the contributions of what is left.
#![tactic(auto)]

use cell::SoundCell;
use planes::Plane;
use work_lists::{NoRoom, Outline};

pub mod tolerances;

ghost use Rattle.std.specs.Prelude.{◌≡◌, true, false, [], ◌∷◌, ◌+◌, ◌*◌, ◌≤◌, length, take, replicate};
ghost use Rattle.places.specs.Limits.{most_work_numbers};
ghost use Rattle.places.specs.Loops.{any_of};
ghost use Rattle.floats.specs.F64.{zero64};
ghost use Rattle.flat.specs.Points.{vertices_of, corners_of};
ghost use Rattle.cell.specs.SoundCell.{vertices, faces, Solid};
ghost use Rattle.flat.specs.Steps.{Inside};
ghost use Rattle.planes.specs.Planes.{has_no_area, has_plane, plane_of, planes_of, no_area_count, in_fours};
ghost use Rattle.planes.specs.Steps.{plane_if};
ghost use Rattle.work_lists.specs.WorkLists.{shorter_of};
ghost use Rattle.work_lists.specs.Steps.{Ended};
ghost use Rattle.overlap.specs.Overlap.{contribution_of, other_planes, first_patch, second_patch};
ghost use Rattle.overlap.specs.Overlap.{added_to, magnitude_of_sum, overlap_of, counted, overlapped_of};
ghost use Rattle.overlap.specs.Steps.{Ready, Next, Joint, Stocked, skip_of, face_patch, patches_of, room_of, own_part, other_part};
ghost use Rattle.overlap.specs.Steps.{both_counted};

// The clip's eps, the coplanar tolerance, and the point about which contributions are taken.
#[derive(Clone, Copy)]
pub struct Measures {
    pub eps: f64,
    pub coplanar: f64,
    pub reference: [f64; 3],
}

// The volume that two cells share, and how many faces of the first and of the second have no area.
#[derive(Clone, Copy)]
pub struct Shared {
    pub volume: f64,
    pub arealess: usize,
    pub arealess2: usize,
}

// How many planes the faces of the first cell have, and those of the second.
#[derive(Clone, Copy)]
struct PlaneCounts {
    planes: usize,
    planes2: usize,
}

// Whose faces are added, those of the first cell or of the other, how many planes they have, by which measures, and their sum so far.
// `other` is a truth, since the definitions are over it; a closure in its place would have its contract said at each use.
#[derive(Clone, Copy)]
struct SumSoFar {
    other: bool,
    count: usize,
    m: Measures,
    sum: f64,
}

// It is made here so that its callers stay short.
fn so_far(other: bool, count: usize, m: Measures, sum: f64) -> SumSoFar
    ensures { (result.other ≡ other) × (result.count ≡ count) × (result.m ≡ m) × (result.sum ≡ sum) }
{
    SumSoFar {
        other,
        count,
        m,
        sum,
    }
}

// The contribution of an outline: the triangles from its first point to each of its other sides, over 6.
// Each point is taken from the reference once.
// Ruled out: triangles about the origin; one triangle too few.
fn contribution(s: &[f64], reference: [f64; 3]) -> f64
    ensures { result ≡ contribution_of reference (vertices_of s.now) }
{
    let n = s.len() / 3;
    if n < 3 {
        return 0.0;
    }
    let p = flat::minus3(flat::space::vertex(s, 0), reference);
    let mut a = flat::minus3(flat::space::vertex(s, 1), reference);
    let mut v = 0.0;
    for i in 2..n {
        let b = flat::minus3(flat::space::vertex(s, i), reference);
        v = v + volume::triple_product(p, a, b);
        a = b;
    }
    v / 6.0
}

// Whether the plane p of the other cell keeps a face in this plane from being counted.
fn coplanar_skip(other: bool, plane: Plane, p: Plane, tol: f64) -> bool
    ensures { result ≡ skip_of other plane tol p }
{
    if !other {
        return planes::plane_coplanar_opposite(plane, p, tol);
    }
    planes::plane_coplanar_opposite(p, plane, tol) || planes::plane_same_side(p, plane, tol)
}

// Whether one of the planes does.
fn any_coplanar_skip(other: bool, plane: Plane, planes: &[f64], tol: f64) -> bool
    ensures { result ≡ any_of (skip_of other plane tol) (in_fours planes.now) }
{
    let n = planes.len() / 4;
    for i in 0..n {
        if coplanar_skip(other, plane, planes::plane_at(planes, i), tol) {
            return true;
        }
    }
    false
}

// The planes that are not this one from the same side, laid down at the front of a list; so many there are.
fn other_planes(plane: Plane, planes: &[f64], tol: f64, kept: &mut [f64]) -> usize
    requires { length planes.now ≤ length kept.old }
    ensures value { result ≡ length (other_planes plane tol (in_fours planes.now)) }
    ensures kept_after { take result (in_fours kept.new) ≡ other_planes plane tol (in_fours planes.now) }
    ensures result_in_bounds { result * 4 ≤ length planes.now }
{
    let n = planes.len() / 4;
    let mut m = 0;
    for i in 0..n {
        let p = planes::plane_at(planes, i);
        if !planes::plane_same_side(plane, p, tol) {
            planes::put_plane(kept, m, p);
            m += 1;
        }
    }
    m
}

// What is left of a face of the first cell that has this plane.
fn first_patch(
    coords: &[f64],
    face: &[u32],
    plane: Plane,
    planes: &[f64],
    kept: &mut [f64],
    m: Measures,
    first: &mut [f64],
    second: &mut [f64],
) -> Result<Option<Outline>, NoRoom>
    requires ready { Ready (vertices_of coords.now) face.now planes.now first.old second.old }
    requires planes_in_bounds { length planes.now ≤ length kept.old }
    ensures { Ended (first_patch (room_of first.old second.old) m (in_fours planes.now)
        (corners_of (vertices_of coords.now) face.now) (has_plane plane)) result (vertices_of first.new) (vertices_of second.new) }
{
    if any_coplanar_skip(false, plane, planes, m.coplanar) {
        return Ok(None);
    }
    let n = other_planes(plane, planes, m.coplanar, kept);
    clip::clip_face(coords, face, &kept[0..n * 4], m.eps, first, second)
}

// What is left of a face of the second cell that has this plane.
fn second_patch(
    coords: &[f64],
    face: &[u32],
    plane: Plane,
    planes: &[f64],
    m: Measures,
    first: &mut [f64],
    second: &mut [f64],
) -> Result<Option<Outline>, NoRoom>
    requires { Ready (vertices_of coords.now) face.now planes.now first.old second.old }
    ensures { Ended (second_patch (room_of first.old second.old) m (in_fours planes.now)
        (corners_of (vertices_of coords.now) face.now) (has_plane plane)) result (vertices_of first.new) (vertices_of second.new) }
{
    if any_coplanar_skip(true, plane, planes, m.coplanar) {
        return Ok(None);
    }
    clip::clip_face(coords, face, planes, m.eps, first, second)
}

// What is left of a face of the first cell or of the second. One of no area has no plane, so no plane of the other is its own.
fn patch(
    t: SumSoFar,
    coords: &[f64],
    face: &[u32],
    found: Option<Plane>,
    planes: &[f64],
    kept: &mut [f64],
    first: &mut [f64],
    second: &mut [f64],
) -> Result<Option<Outline>, NoRoom>
    requires ready { Ready (vertices_of coords.now) face.now planes.now first.old second.old }
    requires found_value { found ≡ plane_if (plane_of (corners_of (vertices_of coords.now) face.now)) }
    requires planes_in_bounds { length planes.now ≤ length kept.old }
    ensures { Ended (face_patch t.other (room_of first.old second.old) t.m (vertices_of coords.now) (in_fours planes.now)
        face.now) result (vertices_of first.new) (vertices_of second.new) }
{
    let m = t.m;
    let other = t.other;
    let Some(plane) = found else {
        return clip::clip_face(coords, face, planes, m.eps, first, second);
    };
    if other {
        return second_patch(coords, face, plane, planes, m, first, second);
    }
    first_patch(coords, face, plane, planes, kept, m, first, second)
}

// The sum with the contribution of what is left of one face.
fn add_face(
    t: SumSoFar,
    coords: &[f64],
    face: &[u32],
    found: Option<Plane>,
    planes: &[f64],
    kept: &mut [f64],
    first: &mut [f64],
    second: &mut [f64],
) -> Result<f64, NoRoom>
    requires ready { Ready (vertices_of coords.now) face.now planes.now first.old second.old }
    requires found_value { found ≡ plane_if (plane_of (corners_of (vertices_of coords.now) face.now)) }
    requires planes_in_bounds { length planes.now ≤ length kept.old }
    ensures { result ≡ added_to t.m.reference t.sum (face_patch t.other (room_of first.old second.old) t.m
        (vertices_of coords.now) (in_fours planes.now) face.now ∷ []) }
{
    let sum = t.sum;
    let m = t.m;
    let reference = m.reference;
    let Some(left) = patch(t, coords, face, found, planes, kept, first, second)? else {
        return Ok(sum);
    };
    let shown = work_lists::shown(first, second, left.points * 3, left.in_second);
    Ok(sum + contribution(shown, reference))
}

// The planes of both cells stand in one list, those of the first before those of the second.
// Of these the n numbers of the first cell's planes, or of the other's.
fn own_part(both: &[f64], n: usize, other: bool) -> &[f64]
    requires { n ≤ length both.now }
    ensures { result.now ≡ own_part other n both.now }
{
    if other {
        let from = both.len() - n;
        return &both[from..];
    }
    &both[0..n]
}

// And the numbers of the planes by which that cell's faces are clipped.
fn other_part(both: &[f64], n: usize, other: bool) -> &[f64]
    requires { n ≤ length both.now }
    ensures { result.now ≡ other_part other n both.now }
{
    if other {
        let end = both.len() - n;
        return &both[0..end];
    }
    &both[n..]
}

// Whether a face has no area. Where all faces of its cell have area it is not asked, so that sums are computed again only in a cell that
// has a face of no area.
fn has_no_area(coords: &[f64], face: &[u32], all: bool) -> bool
    requires inside { Inside (vertices_of coords.now) face.now }
    requires face_value { all ≡ true → has_no_area (corners_of (vertices_of coords.now) face.now) ≡ false }
    ensures { result ≡ has_no_area (corners_of (vertices_of coords.now) face.now) }
{
    if all {
        return false;
    }
    planes::has_no_area(coords, face)
}

// The plane of a face, or nothing where it has no area, from the planes of its cell: the faces before it have j of them, and `all` says
// whether all faces have one.
fn own_plane(coords: &[f64], face: &[u32], own: &[f64], j: usize, all: bool) -> Option<Plane>
    requires inside { Inside (vertices_of coords.now) face.now }
    requires next { Next (vertices_of coords.now) face.now (in_fours own.now) j all }
    ensures { result ≡ plane_if (plane_of (corners_of (vertices_of coords.now) face.now)) }
{
    if has_no_area(coords, face, all) {
        return None;
    }
    Some(planes::plane_at(own, j))
}

// The contributions of a cell's faces, added to the sum so far in the order of the faces.
fn add_faces(
    t: SumSoFar,
    cell: &SoundCell,
    both: &[f64],
    kept: &mut [f64],
    first: &mut [f64],
    second: &mut [f64],
) -> Result<f64, NoRoom>
    requires stocked { Stocked t.other (t.count * 4) (planes_of (vertices cell.now) (faces cell.now))
        both.now kept.old }
    requires first_len_bound { (length first.old ≤ most_work_numbers) × (length second.old ≤ most_work_numbers) }
    ensures { result ≡ added_to t.m.reference t.sum (patches_of t.other (room_of first.old second.old) t.m
        (vertices cell.now) (faces cell.now)
        (in_fours (other_part t.other (t.count * 4) both.now))) }
{
    let m = t.m;
    let n = t.count * 4;
    let own = own_part(both, n, t.other);
    let planes = other_part(both, n, t.other);
    let all = own.len() == cell.ends.len() * 4;
    let mut sum = t.sum;
    let mut j = 0;
    let mut start = 0;
    for &end in cell.ends {
        let face = cell::face(cell.corners, start, end as usize);
        let found = own_plane(cell.coords, face, own, j, all);
        start = end as usize;
        j += places::one_if(found.is_some());
        let u = so_far(t.other, t.count, m, sum);
        sum = add_face(u, cell.coords, face, found, planes, kept, first, second)?;
    }
    Ok(sum)
}

// The planes of both cells laid down at the front of a list, those of the first before those of the second, and how
// many there are of each.
fn both_planes(cell: &SoundCell, cell2: &SoundCell, list: &mut [f64]) -> PlaneCounts
    requires solid { Solid cell.now × Solid cell2.now }
    requires ends2_in_bounds { length cell.now.ends.now * 4 + length cell2.now.ends.now * 4 ≤ length list.old }
    ensures ends_value { result.planes + no_area_count (vertices cell.now) (faces cell.now) ≡ length cell.now.ends.now }
    ensures ends2_value { result.planes2 + no_area_count (vertices cell2.now) (faces cell2.now) ≡ length cell2.now.ends.now }
    ensures joint { Joint (result.planes * 4) (result.planes2 * 4) (planes_of (vertices cell.now) (faces cell.now))
        (planes_of (vertices cell2.now) (faces cell2.now)) (take ((result.planes + result.planes2) * 4) list.new) }
{
    let planes = planes::planes(cell, list);
    let from = planes * 4;
    let planes2 = planes::planes(cell2, &mut list[from..]);
    PlaneCounts { planes, planes2 }
}

// The overlap of two cells: one list has the planes of both, the other some of the second's, and they have so many numbers.
fn overlap_in<const BOTH: usize, const KEPT: usize>(
    cell: &SoundCell,
    cell2: &SoundCell,
    first: &mut [f64],
    second: &mut [f64],
) -> Result<Shared, NoRoom>
    requires solid { Solid cell.now × Solid cell2.now }
    requires both_in_bounds { (length cell.now.ends.now * 4 + length cell2.now.ends.now * 4 ≤ BOTH) × (BOTH ≤ 2048) }
    requires kept_in_bounds { (length cell.now.ends.now * 4 ≤ KEPT) × (length cell2.now.ends.now * 4 ≤ KEPT) × (KEPT ≤ 1024) }
    requires first_len_bound { (length first.old ≤ most_work_numbers) × (length second.old ≤ most_work_numbers) }
    ensures { result ≡ both_counted (overlap_of (room_of first.old second.old))
        (vertices cell.now) (faces cell.now) (vertices cell2.now) (faces cell2.now) }
{
    let mut list = [0.0; BOTH];
    let mut kept = [0.0; KEPT];
    let c = both_planes(cell, cell2, &mut list);
    let list = &list[..];
    let both = &list[0..(c.planes + c.planes2) * 4];
    let m = tolerances::measures(cell.coords, cell2.coords);
    let t = so_far(false, c.planes, m, 0.0);
    let sum = add_faces(t, cell, both, &mut kept, first, second)?;
    let u = so_far(true, c.planes2, m, sum);
    let whole = add_faces(u, cell2, both, &mut kept, first, second)?;
    Ok(Shared {
        volume: floats::magnitude(whole),
        arealess: cell.ends.len() - c.planes,
        arealess2: cell2.ends.len() - c.planes2,
    })
}

// The overlap of two cells. The lists are small where both cells have at most 16 faces; they stand on the stack, since there is no heap.
fn overlap(
    cell: &SoundCell,
    cell2: &SoundCell,
    first: &mut [f64],
    second: &mut [f64],
) -> Result<Shared, NoRoom>
    requires solid { Solid cell.now × Solid cell2.now }
    requires first_len_bound { (length first.old ≤ most_work_numbers) × (length second.old ≤ most_work_numbers) }
    ensures { result ≡ both_counted (overlap_of (room_of first.old second.old))
        (vertices cell.now) (faces cell.now) (vertices cell2.now) (faces cell2.now) }
{
    if cell.ends.len().max(cell2.ends.len()) <= 16 {
        return overlap_in::<128, 64>(cell, cell2, first, second);
    }
    overlap_in::<2048, 1024>(cell, cell2, first, second)
}

// The same, and 0 where the boxes miss each other.
fn intersection(
    cell: &SoundCell,
    cell2: &SoundCell,
    first: &mut [f64],
    second: &mut [f64],
) -> Result<Shared, NoRoom>
    requires solid { Solid cell.now × Solid cell2.now }
    requires first_len_bound { (length first.old ≤ most_work_numbers) × (length second.old ≤ most_work_numbers) }
    ensures { result ≡ overlapped_of (room_of first.old second.old) (vertices cell.now) (faces cell.now)
        (vertices cell2.now) (faces cell2.now) }
{
    if tolerances::boxes_miss(
        flat::space::bounds(cell.coords),
        flat::space::bounds(cell2.coords),
    ) {
        let arealess = planes::no_area_count(cell);
        let arealess2 = planes::no_area_count(cell2);
        return Ok(Shared {
            volume: 0.0,
            arealess,
            arealess2,
        });
    }
    overlap(cell, cell2, first, second)
}

// The volume of what two cells share, 0 where their boxes miss each other, and how many faces of each have no area. Both work lists are
// cleared.
// Ruled out: a face that both cells share counted twice; faces of no area counted only where the boxes meet.
pub fn convex_intersection_volume(
    cell: &SoundCell,
    cell2: &SoundCell,
    first: &mut [f64],
    second: &mut [f64],
) -> Result<Shared, NoRoom>
    requires solid { Solid cell.now × Solid cell2.now }
    requires first_len_bound { (length first.old ≤ most_work_numbers) × (length second.old ≤ most_work_numbers) }
    ensures value { result ≡ overlapped_of
        (shorter_of (length (vertices_of first.old)) (length (vertices_of second.old)))
        (vertices cell.now) (faces cell.now)
        (vertices cell2.now) (faces cell2.now) }
    ensures first_after { (first.new ≡ replicate (length first.old) zero64)
        × (second.new ≡ replicate (length second.old) zero64) }
{
    let r = intersection(cell, cell2, first, second);
    work_lists::wipe(first, 0);
    work_lists::wipe(second, 0);
    r
}
