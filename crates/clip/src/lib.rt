// A face clipped by planes, one after the other, from one work list into the other and back.
#![tactic(auto)]

ghost use Rattle.std.specs.Prelude.{◌≡◌, Bool, true, false, not, ◌<◌, ◌≤◌, length, take};
ghost use Rattle.places.specs.Limits.{most_corners, most_work_numbers};
ghost use Rattle.places.specs.Loops.{count_of};
ghost use Rattle.flat.specs.Points.{vertices_of, corners_of};
ghost use Rattle.flat.specs.Steps.{Inside};
ghost use Rattle.planes.specs.Planes.{in_fours};
ghost use Rattle.work_lists.specs.WorkLists.{outline, run_of, shorter_of};
ghost use Rattle.work_lists.specs.Steps.{Ended, Settled, Shows, Moved};
ghost use Rattle.clip_step.specs.ClipStep.{trimmed_by};
ghost use Rattle.clip.specs.Clip.{beyond, cut_change, slice, plane_change, clip_face_of};

use planes::Plane;
use work_lists::{NoRoom, Outline, Step};

// How many points of an outline are beyond a plane.
fn count_out(src: &[f64], plane: Plane, eps: f64) -> usize
    ensures { result ≡ count_of (beyond plane eps) (vertices_of src.now) }
{
    let (points, _) = src.as_chunks::<3>();
    let mut out = 0;
    for &p in points {
        if planes::distance(plane, p) > eps {
            out += 1;
        }
    }
    out
}

// An outline cut by a plane into another list, without doubled points.
fn cut(src: &[f64], dst: &mut [f64], room: usize, plane: Plane, eps: f64) -> Result<Step, NoRoom>
    requires nonzero { 0 < length (vertices_of src.now) }
    requires src_len_bound { (length src.now ≤ most_work_numbers) × (length dst.old ≤ most_work_numbers) }
    requires room_in_bounds { room ≤ length (vertices_of dst.old) }
    ensures { Shows room (cut_change room (trimmed_by plane eps (vertices_of src.now))) result (vertices_of dst.new) }
{
    let m = clip_step::trim_by_plane(src, dst, plane, eps);
    if room < m {
        return Err(NoRoom);
    }
    let left = clip_step::doubled::remove_consecutive_duplicates(&mut dst[0..m * 3]);
    if left < 3 {
        return Ok(Step::Gone);
    }
    Ok(Step::Made(left))
}

// The outline of n points stands in the first list, or in the second, and is cut into the other.
fn cut_from(
    first: &mut [f64],
    second: &mut [f64],
    in_second: bool,
    n: usize,
    room: usize,
    plane: Plane,
    eps: f64,
) -> Result<Step, NoRoom>
    requires first_len_bound { (length first.old ≤ most_work_numbers) × (length second.old ≤ most_work_numbers) }
    requires n_nonzero { (0 < n) × (n ≤ room) × (room ≤ length (vertices_of first.old)) × (room ≤ length (vertices_of second.old)) }
    ensures { Moved room (slice room eps) plane n in_second (vertices_of first.old) (vertices_of second.old)
        result (vertices_of first.new) (vertices_of second.new) }
{
    if in_second {
        return cut(&second[0..n * 3], first, room, plane, eps);
    }
    cut(&first[0..n * 3], second, room, plane, eps)
}

// What a plane makes of that outline: it is tested whole first.
// The test stands here and not beside the cut, so that a plane that cuts nothing costs no call.
fn advance(
    first: &mut [f64],
    second: &mut [f64],
    in_second: bool,
    n: usize,
    room: usize,
    plane: Plane,
    eps: f64,
) -> Result<Step, NoRoom>
    requires first_len_bound { (length first.old ≤ most_work_numbers) × (length second.old ≤ most_work_numbers) }
    requires n_le_room { (n ≤ room) × (room ≤ length (vertices_of first.old)) × (room ≤ length (vertices_of second.old)) }
    ensures { Moved room (plane_change room eps) plane n in_second (vertices_of first.old) (vertices_of second.old)
        result (vertices_of first.new) (vertices_of second.new) }
{
    if n < 3 {
        return Ok(Step::Gone);
    }
    let out = count_out(
        work_lists::shown(first, second, n * 3, in_second),
        plane,
        eps,
    );
    if out == 0 {
        return Ok(Step::Kept);
    }
    if out == n {
        return Ok(Step::Gone);
    }
    cut_from(first, second, in_second, n, room, plane, eps)
}

// The planes one after the other, from the outline of n points in the first list on.
fn run(
    first: &mut [f64],
    second: &mut [f64],
    count: usize,
    room: usize,
    planes: &[f64],
    eps: f64,
) -> Result<Option<Outline>, NoRoom>
    requires first_len_bound { (length first.old ≤ most_work_numbers) × (length second.old ≤ most_work_numbers) }
    requires count_le_room { (count ≤ room) × (room ≤ length (vertices_of first.old)) × (room ≤ length (vertices_of second.old)) }
    ensures { Ended (run_of (plane_change room eps) (in_fours planes.now) (outline false (take count (vertices_of first.old))))
        result (vertices_of first.new) (vertices_of second.new) }
{
    let many = planes.len() / 4;
    let mut n = count;
    let mut in_second = false;
    for i in 0..many {
        let plane = planes::plane_at(planes, i);
        match advance(first, second, in_second, n, room, plane, eps)? {
            Step::Kept => {}
            Step::Gone => return Ok(None),
            Step::Made(left) => {
                n = left;
                in_second = !in_second;
            }
        }
    }
    if n == 0 {
        return Ok(None);
    }
    Ok(Some(Outline {
        points: n,
        in_second,
    }))
}

// The points of a face laid down at the front of a list.
fn gather(coords: &[f64], face: &[u32], dst: &mut [f64])
    requires inside { Inside (vertices_of coords.now) face.now }
    requires face_in_bounds { length face.now ≤ length (vertices_of dst.old) }
    requires face_len_bound { length face.now ≤ most_corners }
    ensures { take (length face.now) (vertices_of dst.new) ≡ corners_of (vertices_of coords.now) face.now }
{
    for i in 0..face.len() {
        flat::space::put_vertex(dst, i, flat::space::vertex_at(coords, face, i));
    }
}

// A face clipped by planes that are stored in fours: the answer, with the outline at the front of its list.
// Both lists keep what else was written.
// Ruled out: a plane with a NaN part read as leaving all points outside; only the first plane applied.
pub fn clip_face(
    coords: &[f64],
    face: &[u32],
    planes: &[f64],
    eps: f64,
    first: &mut [f64],
    second: &mut [f64],
) -> Result<Option<Outline>, NoRoom>
    requires inside { Inside (vertices_of coords.now) face.now }
    requires face_len_bound { (length face.now ≤ most_corners) × (length planes.now ≤ 1024) }
    requires first_len_bound { (length first.old ≤ most_work_numbers) × (length second.old ≤ most_work_numbers) }
    ensures { Ended (clip_face_of (shorter_of (length (vertices_of first.old)) (length (vertices_of second.old))) eps
        (in_fours planes.now) (corners_of (vertices_of coords.now) face.now))
        result (vertices_of first.new) (vertices_of second.new) }
{
    let room = work_lists::shorter(first.len() / 3, second.len() / 3);
    if room < face.len() {
        return Err(NoRoom);
    }
    gather(coords, face, first);
    run(first, second, face.len(), room, planes, eps)
}

// The same, and then +0 in every number of both lists save the outline.
// Ruled out: numbers of an earlier outline left behind the shown one; lists left as they were where there is no room.
pub fn clip_face_shown(
    coords: &[f64],
    face: &[u32],
    planes: &[f64],
    eps: f64,
    first: &mut [f64],
    second: &mut [f64],
) -> Result<Option<Outline>, NoRoom>
    requires inside { Inside (vertices_of coords.now) face.now }
    requires face_len_bound { (length face.now ≤ most_corners) × (length planes.now ≤ 1024) }
    requires first_len_bound { (length first.old ≤ most_work_numbers) × (length second.old ≤ most_work_numbers) }
    ensures { Settled (clip_face_of (shorter_of (length (vertices_of first.old)) (length (vertices_of second.old))) eps
        (in_fours planes.now) (corners_of (vertices_of coords.now) face.now))
        result first.old second.old first.new second.new }
{
    let r = clip_face(coords, face, planes, eps, first, second);
    work_lists::settle_answer(first, second, r, 3);
    r
}
