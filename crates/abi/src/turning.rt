// Convexity, outward turning, backward faces and planes under C names.
ghost use Rattle.std.specs.Prelude.{◌≡◌, []};
ghost use Rattle.geometry.specs.Cells.{describe_answer, is_convex_answer, into_ccw_answer, plane_of_face_answer, no_area_faces_answer};
ghost use Rattle.geometry.specs.Listed.{told, written, shape_known, of_truth, of_described, done_told, of_face_plane, TurnFacesTold};

pub fn wegrusamt_is_convex(
    coords: &[f64],
    corners: &[u32],
    ends: &[u32],
    shape: u8,
    out: &mut [usize],
) -> u8
    ensures { told result [] out.new ≡ written (of_truth (is_convex_answer coords.now corners.now ends.now
        (shape_known shape))) [] out.old }
{
    answer_lists::put_truth(
        geometry::is_convex(
            coords,
            corners,
            ends,
            answer_lists::given::shape_known(shape),
        ),
        out,
    )
}

// Four numbers: how many vertices, corners and faces, and what is known of the shape, 2 for nothing.
pub fn wegrusamt_describe(
    coords: &[f64],
    corners: &[u32],
    ends: &[u32],
    shape: u8,
    out: &mut [usize],
) -> u8
    ensures { told result [] out.new ≡ written (of_described (describe_answer coords.now corners.now ends.now
        (shape_known shape))) [] out.old }
{
    answer_lists::put_described(
        geometry::describe(
            coords,
            corners,
            ends,
            answer_lists::given::shape_known(shape),
        ),
        out,
    )
}

pub fn wegrusamt_into_ccw(coords: &[f64], corners: &mut [u32], ends: &[u32]) -> u8
    ensures { (result, corners.new) ≡ done_told (into_ccw_answer coords.now corners.old ends.now) }
{
    answer_lists::done_code(geometry::into_ccw(coords, corners, ends))
}

// One number: how many faces were reversed. Where `out` has no room for it, only the refusal is computed,
// and the corner list stays as it was.
pub fn wegrusamt_turn_faces(
    coords: &[f64],
    corners: &mut [u32],
    ends: &[u32],
    out: &mut [usize],
) -> u8
    ensures { TurnFacesTold coords.now corners.old ends.now out.old result corners.new out.new }
{
    if out.len() < 1 {
        return answer_lists::untold(geometry::can_turn(coords, corners, ends));
    }
    answer_lists::put_count(geometry::turn_faces(coords, corners, ends), out)
}

// Four numbers and 1; or 0 alone, where the face has no area.
pub fn wegrusamt_plane_of_face(
    coords: &[f64],
    corners: &[u32],
    ends: &[u32],
    face: u32,
    out: &mut [f64],
    area: &mut [usize],
) -> u8
    ensures { told result out.new area.new ≡ written (of_face_plane (plane_of_face_answer coords.now corners.now ends.now face))
        out.old area.old }
{
    answer_lists::put_face_plane(
        geometry::plane_of_face(coords, corners, ends, face),
        out,
        area,
    )
}

pub fn wegrusamt_no_area_faces(
    coords: &[f64],
    corners: &[u32],
    ends: &[u32],
    out: &mut [usize],
) -> u8
    ensures { (result, out.new) ≡ done_told (no_area_faces_answer coords.now corners.now ends.now out.old) }
{
    answer_lists::done_code(geometry::no_area_faces(coords, corners, ends, out))
}
