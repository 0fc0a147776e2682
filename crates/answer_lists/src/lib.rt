// The answers of the public entries as numbers in lent lists: the values are put at the front of a list, if that has the room.
#![tactic(auto)]

pub mod given;
pub mod shown;

ghost use Rattle.std.specs.Prelude.{◌≡◌, [], cond};
ghost use Rattle.places.specs.Refusals.{number_of};
ghost use Rattle.places.specs.declared.refusal.Refusal.TheVariants.{Room};
ghost use Rattle.geometry.specs.Answers.{front};
ghost use Rattle.geometry.specs.Listed.{told, values, written, too_short, shape_number};
ghost use Rattle.geometry.specs.Listed.{of_number, of_truth, of_count, of_face_cut, of_place};
ghost use Rattle.geometry.specs.Listed.{of_plane_place, of_extent, of_plane_extent, of_done, of_surveyed, of_described, of_face_plane};
ghost use Rattle.geometry.specs.Listed.{of_clipped, of_overlapped, code_without_room};

use places::refusal::Refusal;

// Values at the front of a list, if it has the room.
// Ruled out: a list that is too short by one written to; the last value left out.
fn put_front<T: Copy>(vs: &[T], out: &mut [T]) -> u8
    ensures code { result ≡ cond (too_short vs.now out.old) (number_of Room) 0 }
    ensures list { out.new ≡ cond (too_short vs.now out.old) out.old (front vs.now out.old) }
{
    if out.len() < vs.len() {
        return u8::from(Refusal::Room);
    }
    out[..vs.len()].copy_from_slice(vs);
    0
}

// Numbers at the front of a list, if it has the room.
#[tactic(auto, using(crate::proofs::Writing::numbers_told))]
pub fn put(vs: &[f64], out: &mut [f64]) -> u8
    ensures { told result out.new [] ≡ written (values vs.now []) out.old [] }
{
    put_front(vs, out)
}

// Counts at the front of a list, if it has the room.
#[tactic(auto, using(crate::proofs::Writing::counts_told))]
pub fn put_counts(vs: &[usize], out: &mut [usize]) -> u8
    ensures { told result [] out.new ≡ written (values [] vs.now) [] out.old }
{
    put_front(vs, out)
}

// Numbers at the front of one list and counts at that of another, in neither unless both have the room.
// Ruled out: numbers written where the counts have no room; counts written where the numbers have none.
pub fn put_both(vs: &[f64], ms: &[usize], out: &mut [f64], counts: &mut [usize]) -> u8
    ensures { told result out.new counts.new ≡ written (values vs.now ms.now) out.old counts.old }
{
    if out.len() < vs.len() {
        return u8::from(Refusal::Room);
    }
    let code = put_counts(ms, counts);
    if code != 0 {
        return code;
    }
    put(vs, out)
}

// An answer: the refusal, or its values at the front of the list.
pub fn put_number(a: Result<f64, Refusal>, out: &mut [f64]) -> u8
    ensures { told result out.new [] ≡ written (of_number a) out.old [] }
{
    match a {
        Ok(x) => put(&[x], out),
        Err(why) => u8::from(why),
    }
}

pub fn put_truth(a: Result<bool, Refusal>, out: &mut [usize]) -> u8
    ensures { told result [] out.new ≡ written (of_truth a) [] out.old }
{
    match a {
        Ok(b) => put_counts(&[places::one_if(b)], out),
        Err(why) => u8::from(why),
    }
}

pub fn put_count(a: Result<usize, Refusal>, out: &mut [usize]) -> u8
    ensures { told result [] out.new ≡ written (of_count a) [] out.old }
{
    match a {
        Ok(n) => put_counts(&[n], out),
        Err(why) => u8::from(why),
    }
}

pub fn put_face_cut(a: Result<geometry::CutCounts, Refusal>, out: &mut [usize]) -> u8
    ensures { told result [] out.new ≡ written (of_face_cut a) [] out.old }
{
    match a {
        Ok(c) => put_counts(&[c.triangles, c.tests], out),
        Err(why) => u8::from(why),
    }
}

pub fn put_place(a: Result<geometry::Point3, Refusal>, out: &mut [f64]) -> u8
    ensures { told result out.new [] ≡ written (of_place a) out.old [] }
{
    match a {
        Ok(p) => put(&[p.x, p.y, p.z], out),
        Err(why) => u8::from(why),
    }
}

pub fn put_extent(a: Result<geometry::Bounds3, Refusal>, out: &mut [f64]) -> u8
    ensures { told result out.new [] ≡ written (of_extent a) out.old [] }
{
    match a {
        Ok(b) => put(
            &[b.low.x, b.low.y, b.low.z, b.high.x, b.high.y, b.high.z],
            out,
        ),
        Err(why) => u8::from(why),
    }
}

pub fn put_plane_place(a: Result<geometry::Point2, Refusal>, out: &mut [f64]) -> u8
    ensures { told result out.new [] ≡ written (of_plane_place a) out.old [] }
{
    match a {
        Ok(p) => put(&[p.x, p.y], out),
        Err(why) => u8::from(why),
    }
}

pub fn put_plane_extent(a: Result<geometry::Bounds2, Refusal>, out: &mut [f64]) -> u8
    ensures { told result out.new [] ≡ written (of_plane_extent a) out.old [] }
{
    match a {
        Ok(b) => put(&[b.low.x, b.low.y, b.high.x, b.high.y], out),
        Err(why) => u8::from(why),
    }
}

pub fn done_code(a: Result<(), Refusal>) -> u8
    ensures { told result [] [] ≡ written (of_done a) [] [] }
{
    match a {
        Ok(()) => 0,
        Err(why) => u8::from(why),
    }
}

// The code of turn_faces where its count has no room: the refusal, else 6.
pub fn untold(a: Result<(), Refusal>) -> u8
    ensures { result ≡ code_without_room a }
{
    match a {
        Ok(()) => u8::from(Refusal::Room),
        Err(why) => u8::from(why),
    }
}

// A survey goes into two lists.
pub fn put_surveyed(
    a: Result<geometry::Findings, Refusal>,
    counts: &mut [usize],
    volume: &mut [f64],
) -> u8
    ensures { told result volume.new counts.new ≡ written (of_surveyed a) volume.old counts.old }
{
    match a {
        Ok(s) => put_both(
            &[s.volume],
            &[s.triangles, places::one_if(s.closed), s.short, s.contained],
            volume,
            counts,
        ),
        Err(why) => u8::from(why),
    }
}

// What is known of a shape, as a number. Written out, since the numbers are C's.
fn shape_number(shape: geometry::Convexity) -> usize
    ensures { result ≡ shape_number shape }
{
    match shape {
        geometry::Convexity::Convex => 0,
        geometry::Convexity::Concave => 1,
        geometry::Convexity::Unknown => 2,
    }
}

// A cell's description: how many vertices, corners and faces, and what is known of its shape.
pub fn put_described(a: Result<geometry::Cell, Refusal>, out: &mut [usize]) -> u8
    ensures { told result [] out.new ≡ written (of_described a) [] out.old }
{
    match a {
        Ok(c) => put_counts(
            &[c.vertices, c.corners, c.faces, shape_number(c.convexity)],
            out,
        ),
        Err(why) => u8::from(why),
    }
}

// The plane of a face: its normal, then its offset, and 1; for a face of no area 0 alone.
pub fn put_face_plane(
    a: Result<Option<geometry::Plane>, Refusal>,
    out: &mut [f64],
    area: &mut [usize],
) -> u8
    ensures { told result out.new area.new ≡ written (of_face_plane a) out.old area.old }
{
    match a {
        Ok(Some(p)) => put_both(&[p.n[0], p.n[1], p.n[2], p.d], &[1], out, area),
        Ok(None) => put_counts(&[0], area),
        Err(why) => u8::from(why),
    }
}

// The overlap of two cells: its volume, and how many faces of the first and of the second have no area.
pub fn put_overlapped(
    a: Result<geometry::Shared, Refusal>,
    out: &mut [f64],
    arealess: &mut [usize],
) -> u8
    ensures { told result out.new arealess.new ≡ written (of_overlapped a) out.old arealess.old }
{
    match a {
        Ok(o) => put_both(&[o.volume], &[o.arealess, o.arealess2], out, arealess),
        Err(why) => u8::from(why),
    }
}

// What a clipping shows: how many points are left, 0 for nothing, and 1 where they stand in the second work list.
pub fn put_clipped(a: Result<Option<geometry::Outline>, Refusal>, out: &mut [usize]) -> u8
    ensures { told result [] out.new ≡ written (of_clipped a) [] out.old }
{
    match a {
        Ok(None) => put_counts(&[0, 0], out),
        Ok(Some(o)) => put_counts(&[o.points, places::one_if(o.in_second)], out),
        Err(why) => u8::from(why),
    }
}
