// The entries on a cell.
ghost use Rattle.std.specs.Prelude.{◌≡◌, [], ◌∷◌};
ghost use Rattle.geometry.specs.Cells.{volume_answer, centroid_answer, geometric_centroid_answer, bounds_answer, scale_answer};
ghost use Rattle.geometry.specs.Cells.{closed_answer, contains_answer, point_in_phed_answer, triangles_answer};
ghost use Rattle.geometry.specs.Survey.{survey_answer};
ghost use Rattle.geometry.specs.CheckCut.{check_cut_answer};
ghost use Rattle.geometry.specs.Listed.{told, written, of_number, of_truth, of_face_cut, of_place, of_extent, of_surveyed, triangles_told};
ghost use Rattle.geometry.specs.Listed.{triangle_places_told};

use places::refusal::Refusal;

pub fn wegrusamt_volume(coords: &[f64], corners: &[u32], ends: &[u32], out: &mut [f64]) -> u8
    ensures { told result out.new [] ≡ written (of_number (volume_answer coords.now corners.now ends.now)) out.old [] }
{
    answer_lists::put_number(geometry::volume(coords, corners, ends), out)
}

pub fn wegrusamt_centroid(coords: &[f64], corners: &[u32], ends: &[u32], out: &mut [f64]) -> u8
    ensures { told result out.new [] ≡ written (of_place (centroid_answer coords.now corners.now ends.now)) out.old [] }
{
    answer_lists::put_place(geometry::centroid(coords, corners, ends), out)
}

pub fn wegrusamt_geometric_centroid(
    coords: &[f64],
    corners: &[u32],
    ends: &[u32],
    out: &mut [f64],
) -> u8
    ensures { told result out.new [] ≡ written (of_place (geometric_centroid_answer coords.now corners.now ends.now))
        out.old [] }
{
    answer_lists::put_place(geometry::geometric_centroid(coords, corners, ends), out)
}

// Six numbers: the low corner, then the high one.
pub fn wegrusamt_bounds(coords: &[f64], corners: &[u32], ends: &[u32], out: &mut [f64]) -> u8
    ensures { told result out.new [] ≡ written (of_extent (bounds_answer coords.now corners.now ends.now)) out.old [] }
{
    answer_lists::put_extent(geometry::bounds(coords, corners, ends), out)
}

pub fn wegrusamt_scale(coords: &[f64], corners: &[u32], ends: &[u32], out: &mut [f64]) -> u8
    ensures { told result out.new [] ≡ written (of_number (scale_answer coords.now corners.now ends.now)) out.old [] }
{
    answer_lists::put_number(geometry::scale(coords, corners, ends), out)
}

// 1 for yes and 0 for no, here and below.
pub fn wegrusamt_closed(coords: &[f64], corners: &[u32], ends: &[u32], out: &mut [usize]) -> u8
    ensures { told result [] out.new ≡ written (of_truth (closed_answer coords.now corners.now ends.now)) [] out.old }
{
    answer_lists::put_truth(geometry::closed(coords, corners, ends), out)
}

pub fn wegrusamt_contains(
    coords: &[f64],
    corners: &[u32],
    ends: &[u32],
    x: f64,
    y: f64,
    z: f64,
    out: &mut [usize],
) -> u8
    ensures { told result [] out.new ≡ written (of_truth (contains_answer coords.now corners.now ends.now (x ∷ y ∷ z ∷ []))) []
        out.old }
{
    answer_lists::put_truth(geometry::contains(coords, corners, ends, [x, y, z]), out)
}

pub fn wegrusamt_point_in_phed(
    coords: &[f64],
    cs: &[u32],
    x: f64,
    y: f64,
    z: f64,
    out: &mut [usize],
) -> u8
    ensures { told result [] out.new ≡ written (of_truth (point_in_phed_answer coords.now cs.now (x ∷ y ∷ z ∷ []))) [] out.old }
{
    answer_lists::put_truth(geometry::point_in_phed(coords, cs, [x, y, z]), out)
}

// The return code of `triangles`, and so of `triangle_places`, when the caller's list for the two counts is too short.
fn uncounted(coords: &[f64], corners: &[u32], ends: &[u32], face: u32) -> u8
    ensures { told result [] [] ≡ written (of_face_cut (triangles_answer coords.now corners.now ends.now face []).0) [] [] }
{
    match geometry::triangles(coords, corners, ends, face, &mut []) {
        Ok(_) => u8::from(Refusal::Room),
        Err(why) => u8::from(why),
    }
}

// How many triangles there are and how many turn tests were made go into a list of their own. Without two places there is no room for a
// triangle either, so that nothing is written.
pub fn wegrusamt_triangles(
    coords: &[f64],
    corners: &[u32],
    ends: &[u32],
    face: u32,
    out: &mut [[u32; 3]],
    count: &mut [usize],
) -> u8
    ensures { (result, out.new, count.new) ≡ triangles_told coords.now corners.now ends.now face out.old count.old }
{
    if count.len() < 2 {
        return uncounted(coords, corners, ends, face);
    }
    answer_lists::put_face_cut(geometry::triangles(coords, corners, ends, face, out), count)
}

pub fn wegrusamt_triangle_places(
    coords: &[f64],
    corners: &[u32],
    ends: &[u32],
    face: u32,
    out: &mut [[u32; 3]],
    count: &mut [usize],
) -> u8
    ensures { (result, out.new, count.new) ≡ triangle_places_told coords.now corners.now ends.now face out.old count.old }
{
    if count.len() < 2 {
        return uncounted(coords, corners, ends, face);
    }
    answer_lists::put_face_cut(
        geometry::triangle_places(coords, corners, ends, face, out),
        count,
    )
}

pub fn wegrusamt_check_cut(n: u32, places: &[u32], out: &mut [usize]) -> u8
    ensures { told result [] out.new ≡ written (of_truth (check_cut_answer n places.now)) [] out.old }
{
    answer_lists::put_truth(geometry::check_cut(n, places), out)
}

// Four counts (triangles, closed, short, contained) in one list, the volume in another.
pub fn wegrusamt_survey(
    coords: &[f64],
    corners: &[u32],
    ends: &[u32],
    queries: &[f64],
    counts: &mut [usize],
    volume: &mut [f64],
) -> u8
    ensures { told result volume.new counts.new ≡ written (of_surveyed (survey_answer coords.now corners.now ends.now
        queries.now))
        volume.old counts.old }
{
    answer_lists::put_surveyed(
        geometry::survey(coords, corners, ends, queries),
        counts,
        volume,
    )
}
