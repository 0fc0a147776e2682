// An outline of the plane clipped by the edges of another, from one work list into the other and back;
// and the area of what is left.
// `run` and `gather` stand beside those of `clip`: one for both would take the step as a closure over both lists, with its contract spelled
// at each use. They share the law of the loop.
#![tactic(auto)]

ghost use Rattle.std.specs.Prelude.{◌≡◌, false, ◌<◌, ◌≤◌, length, take};
ghost use Rattle.places.specs.Limits.{most_work_numbers};
ghost use Rattle.places.specs.Stored.{in_pairs};
ghost use Rattle.places.specs.Ring.{sides};
ghost use Rattle.work_lists.specs.WorkLists.{outline, run_of, shorter_of};
ghost use Rattle.work_lists.specs.Steps.{Ended, Settled, Shows, Moved};
ghost use Rattle.planar.specs.Planar.{edge_change, clip_convex_of, area_answer};

use work_lists::{NoRoom, Outline, Step};

// What the edge from a to b makes of an outline.
fn advance(
    src: &[f64],
    dst: &mut [f64],
    room: usize,
    a: [f64; 2],
    b: [f64; 2],
) -> Result<Step, NoRoom>
    requires src_len_bound { length src.now ≤ most_work_numbers }
    requires room_in_bounds { room ≤ length (in_pairs dst.old) }
    ensures { Shows room (edge_change room (a, b) (in_pairs src.now)) result (in_pairs dst.new) }
{
    if src.len() / 2 < 3 {
        return Ok(Step::Gone);
    }
    let m = clip_step::edge::trim_at_edge(src, dst, a, b);
    if room < m {
        return Err(NoRoom);
    }
    Ok(Step::Made(m))
}

// The outline of n points stands in the first list, or in the second, and goes to the other.
fn advance_from(
    first: &mut [f64],
    second: &mut [f64],
    in_second: bool,
    n: usize,
    room: usize,
    a: [f64; 2],
    b: [f64; 2],
) -> Result<Step, NoRoom>
    requires first_len_bound { (length first.old ≤ most_work_numbers) × (length second.old ≤ most_work_numbers) }
    requires n_le_room { (n ≤ room) × (room ≤ length (in_pairs first.old)) × (room ≤ length (in_pairs second.old)) }
    ensures { Moved room (edge_change room) (a, b) n in_second (in_pairs first.old) (in_pairs second.old)
        result (in_pairs first.new) (in_pairs second.new) }
{
    if in_second {
        return advance(&second[0..n * 2], first, room, a, b);
    }
    advance(&first[0..n * 2], second, room, a, b)
}

// The edges one after the other, from the outline of n points in the first list on.
fn run(
    first: &mut [f64],
    second: &mut [f64],
    count: usize,
    room: usize,
    clip: &[f64],
) -> Result<Option<Outline>, NoRoom>
    requires first_len_bound { (length first.old ≤ most_work_numbers) × (length second.old ≤ most_work_numbers) }
    requires count_le_room { (count ≤ room) × (room ≤ length (in_pairs first.old)) × (room ≤ length (in_pairs second.old)) }
    ensures { Ended (run_of (edge_change room) (sides (in_pairs clip.now)) (outline false (take count (in_pairs first.old))))
        result (in_pairs first.new) (in_pairs second.new) }
{
    let many = clip.len() / 2;
    let mut n = count;
    let mut in_second = false;
    for i in 0..many {
        let a = outline::pair(clip, i);
        let b = outline::pair(clip, places::next(i, many));
        match advance_from(first, second, in_second, n, room, a, b)? {
            Step::Kept => {}
            Step::Gone => return Ok(None),
            Step::Made(left) => {
                n = left;
                in_second = !in_second;
            }
        }
    }
    if n == 0 {
        return Ok(None);
    }
    Ok(Some(Outline {
        points: n,
        in_second,
    }))
}

// The points of an outline laid down at the front of a list.
fn gather(src: &[f64], dst: &mut [f64])
    requires src_in_bounds { length (in_pairs src.now) ≤ length (in_pairs dst.old) }
    requires src_len_bound { length src.now ≤ most_work_numbers }
    ensures { take (length (in_pairs src.now)) (in_pairs dst.new) ≡ in_pairs src.now }
{
    let n = src.len() / 2;
    for i in 0..n {
        outline::put_pair(dst, i, outline::pair(src, i));
    }
}

// An outline clipped by the edges of another: the answer, with the outline at the front of its list.
// Both lists keep what else was written.
// Ruled out: a subject of 2 points emptied when there is no edge; a program that leaves out the edge from the last point to the first.
fn clip_convex(
    subject: &[f64],
    clip: &[f64],
    first: &mut [f64],
    second: &mut [f64],
) -> Result<Option<Outline>, NoRoom>
    requires subject_len_bound { (length subject.now ≤ 1024) × (length clip.now ≤ 1024) }
    requires first_len_bound { (length first.old ≤ most_work_numbers) × (length second.old ≤ most_work_numbers) }
    ensures { Ended (clip_convex_of (shorter_of (length (in_pairs first.old)) (length (in_pairs second.old)))
        (in_pairs subject.now) (in_pairs clip.now)) result (in_pairs first.new) (in_pairs second.new) }
{
    let room = work_lists::shorter(first.len() / 2, second.len() / 2);
    let n = subject.len() / 2;
    if room < n {
        return Err(NoRoom);
    }
    gather(subject, first);
    run(first, second, n, room, clip)
}

// The same, and then +0 in every number of both lists save the outline.
// Ruled out: numbers of an earlier outline left behind the shown one; lists left as they were where there is no room.
pub fn clip_convex_shown(
    subject: &[f64],
    clip: &[f64],
    first: &mut [f64],
    second: &mut [f64],
) -> Result<Option<Outline>, NoRoom>
    requires subject_len_bound { (length subject.now ≤ 1024) × (length clip.now ≤ 1024) }
    requires first_len_bound { (length first.old ≤ most_work_numbers) × (length second.old ≤ most_work_numbers) }
    ensures { Settled (clip_convex_of (shorter_of (length (in_pairs first.old)) (length (in_pairs second.old)))
        (in_pairs subject.now) (in_pairs clip.now)) result first.old second.old first.new second.new }
{
    let r = clip_convex(subject, clip, first, second);
    work_lists::settle_answer(first, second, r, 2);
    r
}

// The area of what is left of an outline clipped by the edges of another. Both lists keep what was written.
// Ruled out: the signed area, which is below 0 for a clockwise subject; an area of 0 where there is no room.
pub fn convex_intersection_area(
    subject: &[f64],
    clip: &[f64],
    first: &mut [f64],
    second: &mut [f64],
) -> Result<f64, NoRoom>
    requires subject_len_bound { (length subject.now ≤ 1024) × (length clip.now ≤ 1024) }
    requires first_len_bound { (length first.old ≤ most_work_numbers) × (length second.old ≤ most_work_numbers) }
    ensures { result ≡ area_answer (clip_convex_of (shorter_of (length (in_pairs first.old)) (length (in_pairs second.old)))
        (in_pairs subject.now) (in_pairs clip.now)) }
{
    let Some(left) = clip_convex(subject, clip, first, second)? else {
        return Ok(0.0);
    };
    let ps = work_lists::shown(first, second, left.points * 2, left.in_second);
    Ok(floats::magnitude(outline::signed_area2(ps)))
}
