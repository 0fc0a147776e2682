// The entries on a cell.
ghost use Rattle.std.specs.Prelude.{◌≡◌, [], ◌∷◌};
ghost use Rattle.geometry.specs.Cells.{volume_answer, centroid_answer, geometric_centroid_answer, bounds_answer, scale_answer};
ghost use Rattle.geometry.specs.Cells.{closed_answer, contains_answer, point_in_phed_answer, triangles_answer};
ghost use Rattle.geometry.specs.Survey.{survey_answer};
ghost use Rattle.geometry.specs.CheckCut.{check_cut_answer};
ghost use Rattle.geometry.specs.Listed.{told, written, of_number, of_truth, of_face_cut, of_place, of_extent, of_surveyed, triangles_told};
ghost use Rattle.geometry.specs.Listed.{triangle_places_told};

#[unsafe(no_mangle)]
pub extern "C" fn wegrusamt_volume(
    coords: &[f64],
    corners: &[u32],
    ends: &[u32],
    out: &mut [f64],
) -> u8
    ensures { told result out.new [] ≡ written (of_number (volume_answer coords.now corners.now ends.now)) out.old [] }
{
    abi::cells::wegrusamt_volume(coords, corners, ends, out)
}

#[unsafe(no_mangle)]
pub extern "C" fn wegrusamt_centroid(
    coords: &[f64],
    corners: &[u32],
    ends: &[u32],
    out: &mut [f64],
) -> u8
    ensures { told result out.new [] ≡ written (of_place (centroid_answer coords.now corners.now ends.now)) out.old [] }
{
    abi::cells::wegrusamt_centroid(coords, corners, ends, out)
}

#[unsafe(no_mangle)]
pub extern "C" fn wegrusamt_geometric_centroid(
    coords: &[f64],
    corners: &[u32],
    ends: &[u32],
    out: &mut [f64],
) -> u8
    ensures { told result out.new [] ≡ written (of_place (geometric_centroid_answer coords.now corners.now ends.now))
        out.old [] }
{
    abi::cells::wegrusamt_geometric_centroid(coords, corners, ends, out)
}

#[unsafe(no_mangle)]
pub extern "C" fn wegrusamt_bounds(
    coords: &[f64],
    corners: &[u32],
    ends: &[u32],
    out: &mut [f64],
) -> u8
    ensures { told result out.new [] ≡ written (of_extent (bounds_answer coords.now corners.now ends.now)) out.old [] }
{
    abi::cells::wegrusamt_bounds(coords, corners, ends, out)
}

#[unsafe(no_mangle)]
pub extern "C" fn wegrusamt_scale(
    coords: &[f64],
    corners: &[u32],
    ends: &[u32],
    out: &mut [f64],
) -> u8
    ensures { told result out.new [] ≡ written (of_number (scale_answer coords.now corners.now ends.now)) out.old [] }
{
    abi::cells::wegrusamt_scale(coords, corners, ends, out)
}

#[unsafe(no_mangle)]
pub extern "C" fn wegrusamt_closed(
    coords: &[f64],
    corners: &[u32],
    ends: &[u32],
    out: &mut [usize],
) -> u8
    ensures { told result [] out.new ≡ written (of_truth (closed_answer coords.now corners.now ends.now)) [] out.old }
{
    abi::cells::wegrusamt_closed(coords, corners, ends, out)
}

#[unsafe(no_mangle)]
pub extern "C" fn wegrusamt_contains(
    coords: &[f64],
    corners: &[u32],
    ends: &[u32],
    x: f64,
    y: f64,
    z: f64,
    out: &mut [usize],
) -> u8
    ensures { told result [] out.new ≡ written (of_truth (contains_answer coords.now corners.now ends.now (x ∷ y ∷ z ∷ []))) []
        out.old }
{
    abi::cells::wegrusamt_contains(coords, corners, ends, x, y, z, out)
}

#[unsafe(no_mangle)]
pub extern "C" fn wegrusamt_point_in_phed(
    coords: &[f64],
    cs: &[u32],
    x: f64,
    y: f64,
    z: f64,
    out: &mut [usize],
) -> u8
    ensures { told result [] out.new ≡ written (of_truth (point_in_phed_answer coords.now cs.now (x ∷ y ∷ z ∷ []))) [] out.old }
{
    abi::cells::wegrusamt_point_in_phed(coords, cs, x, y, z, out)
}

#[unsafe(no_mangle)]
pub extern "C" fn wegrusamt_triangles(
    coords: &[f64],
    corners: &[u32],
    ends: &[u32],
    face: u32,
    out: &mut [[u32; 3]],
    count: &mut [usize],
) -> u8
    ensures { (result, out.new, count.new) ≡ triangles_told coords.now corners.now ends.now face out.old count.old }
{
    abi::cells::wegrusamt_triangles(coords, corners, ends, face, out, count)
}

#[unsafe(no_mangle)]
pub extern "C" fn wegrusamt_triangle_places(
    coords: &[f64],
    corners: &[u32],
    ends: &[u32],
    face: u32,
    out: &mut [[u32; 3]],
    count: &mut [usize],
) -> u8
    ensures { (result, out.new, count.new) ≡ triangle_places_told coords.now corners.now ends.now face out.old count.old }
{
    abi::cells::wegrusamt_triangle_places(coords, corners, ends, face, out, count)
}

#[unsafe(no_mangle)]
pub extern "C" fn wegrusamt_check_cut(n: u32, places: &[u32], out: &mut [usize]) -> u8
    ensures { told result [] out.new ≡ written (of_truth (check_cut_answer n places.now)) [] out.old }
{
    abi::cells::wegrusamt_check_cut(n, places, out)
}

#[unsafe(no_mangle)]
pub extern "C" fn wegrusamt_survey(
    coords: &[f64],
    corners: &[u32],
    ends: &[u32],
    queries: &[f64],
    counts: &mut [usize],
    volume: &mut [f64],
) -> u8
    ensures { told result volume.new counts.new ≡ written (of_surveyed (survey_answer coords.now corners.now ends.now
        queries.now))
        volume.old counts.old }
{
    abi::cells::wegrusamt_survey(coords, corners, ends, queries, counts, volume)
}
