// The entries on lists of points: of space, stored in threes, and of the plane, in pairs.
ghost use Rattle.std.specs.Prelude.{◌≡◌, []};
ghost use Rattle.geometry.specs.Points.{newell_normal_answer, vertex_centroid_answer, list_bounds_answer};
ghost use Rattle.geometry.specs.Points.{signed_area2_answer, vertex_centroid2_answer, bounds2_answer, into_ccw2_answer};
ghost use Rattle.geometry.specs.Listed.{told, written, of_number, of_place, of_extent, of_plane_place, of_plane_extent, done_told};
ghost use Rattle.geometry.specs.Listed.{to_local_told};

#[unsafe(no_mangle)]
pub extern "C" fn wegrusamt_newell_normal(coords: &[f64], out: &mut [f64]) -> u8
    ensures { told result out.new [] ≡ written (of_place (newell_normal_answer coords.now)) out.old [] }
{
    abi::lists::wegrusamt_newell_normal(coords, out)
}

#[unsafe(no_mangle)]
pub extern "C" fn wegrusamt_vertex_centroid(coords: &[f64], out: &mut [f64]) -> u8
    ensures { told result out.new [] ≡ written (of_place (vertex_centroid_answer coords.now)) out.old [] }
{
    abi::lists::wegrusamt_vertex_centroid(coords, out)
}

#[unsafe(no_mangle)]
pub extern "C" fn wegrusamt_list_bounds(coords: &[f64], out: &mut [f64]) -> u8
    ensures { told result out.new [] ≡ written (of_extent (list_bounds_answer coords.now)) out.old [] }
{
    abi::lists::wegrusamt_list_bounds(coords, out)
}

#[unsafe(no_mangle)]
pub extern "C" fn wegrusamt_to_local(coords: &mut [f64], out: &mut [f64]) -> u8
    ensures { (result, coords.new, out.new) ≡ to_local_told coords.old out.old }
{
    abi::lists::wegrusamt_to_local(coords, out)
}

#[unsafe(no_mangle)]
pub extern "C" fn wegrusamt_signed_area2(ps: &[f64], out: &mut [f64]) -> u8
    ensures { told result out.new [] ≡ written (of_number (signed_area2_answer ps.now)) out.old [] }
{
    abi::lists::wegrusamt_signed_area2(ps, out)
}

#[unsafe(no_mangle)]
pub extern "C" fn wegrusamt_vertex_centroid2(ps: &[f64], out: &mut [f64]) -> u8
    ensures { told result out.new [] ≡ written (of_plane_place (vertex_centroid2_answer ps.now)) out.old [] }
{
    abi::lists::wegrusamt_vertex_centroid2(ps, out)
}

#[unsafe(no_mangle)]
pub extern "C" fn wegrusamt_bounds2(ps: &[f64], out: &mut [f64]) -> u8
    ensures { told result out.new [] ≡ written (of_plane_extent (bounds2_answer ps.now)) out.old [] }
{
    abi::lists::wegrusamt_bounds2(ps, out)
}

#[unsafe(no_mangle)]
pub extern "C" fn wegrusamt_into_ccw2(ps: &mut [f64]) -> u8
    ensures { (result, ps.new) ≡ done_told (into_ccw2_answer ps.old) }
{
    abi::lists::wegrusamt_into_ccw2(ps)
}
