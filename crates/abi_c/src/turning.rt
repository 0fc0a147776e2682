// Convexity, outward turning, backward faces and planes under C names.
ghost use Rattle.std.specs.Prelude.{◌≡◌, []};
ghost use Rattle.geometry.specs.Cells.{describe_answer, is_convex_answer, into_ccw_answer, plane_of_face_answer, no_area_faces_answer};
ghost use Rattle.geometry.specs.Listed.{told, written, shape_known, of_truth, of_described, done_told, of_face_plane, TurnFacesTold};

#[unsafe(no_mangle)]
pub extern "C" fn wegrusamt_is_convex(
    coords: &[f64],
    corners: &[u32],
    ends: &[u32],
    shape: u8,
    out: &mut [usize],
) -> u8
    ensures { told result [] out.new ≡ written (of_truth (is_convex_answer coords.now corners.now ends.now
        (shape_known shape))) [] out.old }
{
    abi::turning::wegrusamt_is_convex(coords, corners, ends, shape, out)
}

#[unsafe(no_mangle)]
pub extern "C" fn wegrusamt_describe(
    coords: &[f64],
    corners: &[u32],
    ends: &[u32],
    shape: u8,
    out: &mut [usize],
) -> u8
    ensures { told result [] out.new ≡ written (of_described (describe_answer coords.now corners.now ends.now
        (shape_known shape))) [] out.old }
{
    abi::turning::wegrusamt_describe(coords, corners, ends, shape, out)
}

#[unsafe(no_mangle)]
pub extern "C" fn wegrusamt_into_ccw(coords: &[f64], corners: &mut [u32], ends: &[u32]) -> u8
    ensures { (result, corners.new) ≡ done_told (into_ccw_answer coords.now corners.old ends.now) }
{
    abi::turning::wegrusamt_into_ccw(coords, corners, ends)
}

#[unsafe(no_mangle)]
pub extern "C" fn wegrusamt_turn_faces(
    coords: &[f64],
    corners: &mut [u32],
    ends: &[u32],
    out: &mut [usize],
) -> u8
    ensures { TurnFacesTold coords.now corners.old ends.now out.old result corners.new out.new }
{
    abi::turning::wegrusamt_turn_faces(coords, corners, ends, out)
}

#[unsafe(no_mangle)]
pub extern "C" fn wegrusamt_plane_of_face(
    coords: &[f64],
    corners: &[u32],
    ends: &[u32],
    face: u32,
    out: &mut [f64],
    area: &mut [usize],
) -> u8
    ensures { told result out.new area.new ≡ written (of_face_plane (plane_of_face_answer coords.now corners.now ends.now face))
        out.old area.old }
{
    abi::turning::wegrusamt_plane_of_face(coords, corners, ends, face, out, area)
}

#[unsafe(no_mangle)]
pub extern "C" fn wegrusamt_no_area_faces(
    coords: &[f64],
    corners: &[u32],
    ends: &[u32],
    out: &mut [usize],
) -> u8
    ensures { (result, out.new) ≡ done_told (no_area_faces_answer coords.now corners.now ends.now out.old) }
{
    abi::turning::wegrusamt_no_area_faces(coords, corners, ends, out)
}
