// Clipping and the overlaps, with two work lists each.
ghost use Rattle.std.specs.Prelude.{◌≡◌};
ghost use Rattle.geometry.specs.Clipping.{clip_face_answer, clip_convex_answer, overlap_area_answer, overlap_answer};
ghost use Rattle.geometry.specs.Listed.{clipping_told, measure_told, overlap_told};

#[unsafe(no_mangle)]
pub extern "C" fn wegrusamt_clip_face(
    coords: &[f64],
    corners: &[u32],
    ends: &[u32],
    face: u32,
    planes: &[f64],
    eps: f64,
    first: &mut [f64],
    second: &mut [f64],
    shown: &mut [usize],
) -> u8
    ensures { (result, shown.new, first.new, second.new) ≡ clipping_told (clip_face_answer coords.now corners.now ends.now
        face planes.now eps first.old second.old) shown.old }
{
    abi::clips::wegrusamt_clip_face(
        coords, corners, ends, face, planes, eps, first, second, shown,
    )
}

#[unsafe(no_mangle)]
pub extern "C" fn wegrusamt_clip_convex(
    subject: &[f64],
    clip: &[f64],
    first: &mut [f64],
    second: &mut [f64],
    shown: &mut [usize],
) -> u8
    ensures { (result, shown.new, first.new, second.new) ≡ clipping_told (clip_convex_answer subject.now clip.now
        first.old second.old) shown.old }
{
    abi::clips::wegrusamt_clip_convex(subject, clip, first, second, shown)
}

#[unsafe(no_mangle)]
pub extern "C" fn wegrusamt_convex_intersection_area(
    subject: &[f64],
    clip: &[f64],
    first: &mut [f64],
    second: &mut [f64],
    out: &mut [f64],
) -> u8
    ensures { (result, out.new, first.new, second.new) ≡ measure_told (overlap_area_answer subject.now clip.now
        first.old second.old) out.old }
{
    abi::clips::wegrusamt_convex_intersection_area(subject, clip, first, second, out)
}

#[unsafe(no_mangle)]
pub extern "C" fn wegrusamt_convex_intersection_volume(
    coords: &[f64],
    corners: &[u32],
    ends: &[u32],
    coords2: &[f64],
    corners2: &[u32],
    ends2: &[u32],
    first: &mut [f64],
    second: &mut [f64],
    out: &mut [f64],
    arealess: &mut [usize],
) -> u8
    ensures { (result, out.new, arealess.new, first.new, second.new) ≡ overlap_told (overlap_answer coords.now corners.now ends.now
        coords2.now corners2.now ends2.now first.old second.old) out.old arealess.old }
{
    abi::clips::wegrusamt_convex_intersection_volume(
        coords, corners, ends, coords2, corners2, ends2, first, second, out, arealess,
    )
}
