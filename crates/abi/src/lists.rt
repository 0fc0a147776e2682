// The entries on lists of points: of space, stored in threes, and of the plane, in pairs.
ghost use Rattle.std.specs.Prelude.{◌≡◌, []};
ghost use Rattle.geometry.specs.Points.{newell_normal_answer, vertex_centroid_answer, list_bounds_answer};
ghost use Rattle.geometry.specs.Points.{signed_area2_answer, vertex_centroid2_answer, bounds2_answer, into_ccw2_answer};
ghost use Rattle.geometry.specs.Listed.{told, written, of_number, of_place, of_extent, of_plane_place, of_plane_extent, done_told};
ghost use Rattle.geometry.specs.Listed.{to_local_told};

pub fn wegrusamt_newell_normal(coords: &[f64], out: &mut [f64]) -> u8
    ensures { told result out.new [] ≡ written (of_place (newell_normal_answer coords.now)) out.old [] }
{
    answer_lists::put_place(geometry::in_space::newell_normal(coords), out)
}

pub fn wegrusamt_vertex_centroid(coords: &[f64], out: &mut [f64]) -> u8
    ensures { told result out.new [] ≡ written (of_place (vertex_centroid_answer coords.now)) out.old [] }
{
    answer_lists::put_place(geometry::in_space::vertex_centroid(coords), out)
}

pub fn wegrusamt_list_bounds(coords: &[f64], out: &mut [f64]) -> u8
    ensures { told result out.new [] ≡ written (of_extent (list_bounds_answer coords.now)) out.old [] }
{
    answer_lists::put_extent(geometry::in_space::list_bounds(coords), out)
}

// Three numbers: the vector by which the vertices were moved. Where `out` has no room for it only the refusal is asked for, and the
// vertices stay where they were.
pub fn wegrusamt_to_local(coords: &mut [f64], out: &mut [f64]) -> u8
    ensures { (result, coords.new, out.new) ≡ to_local_told coords.old out.old }
{
    if out.len() < 3 {
        return answer_lists::put_place(geometry::in_space::local_origin(coords), out);
    }
    answer_lists::put_place(geometry::in_space::to_local(coords), out)
}

pub fn wegrusamt_signed_area2(ps: &[f64], out: &mut [f64]) -> u8
    ensures { told result out.new [] ≡ written (of_number (signed_area2_answer ps.now)) out.old [] }
{
    answer_lists::put_number(geometry::in_plane::signed_area2(ps), out)
}

pub fn wegrusamt_vertex_centroid2(ps: &[f64], out: &mut [f64]) -> u8
    ensures { told result out.new [] ≡ written (of_plane_place (vertex_centroid2_answer ps.now)) out.old [] }
{
    answer_lists::put_plane_place(geometry::in_plane::vertex_centroid2(ps), out)
}

pub fn wegrusamt_bounds2(ps: &[f64], out: &mut [f64]) -> u8
    ensures { told result out.new [] ≡ written (of_plane_extent (bounds2_answer ps.now)) out.old [] }
{
    answer_lists::put_plane_extent(geometry::in_plane::bounds2(ps), out)
}

// The list itself is turned.
pub fn wegrusamt_into_ccw2(ps: &mut [f64]) -> u8
    ensures { (result, ps.new) ≡ done_told (into_ccw2_answer ps.old) }
{
    answer_lists::done_code(geometry::in_plane::into_ccw2(ps))
}
