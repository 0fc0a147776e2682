// What part of a convex cell's volume lies in another: built on the promises of `geometry` alone.
#![tactic(auto)]

ghost use Rattle.std.specs.Prelude.{◌≡◌};
ghost use Rattle.share.specs.Share.{share_answer};

use geometry::Refusal;

// The volume that two convex cells share, over the volume of the first, as f64 divides; a first cell of no volume gives NaN or an infinity.
// Ruled out: the second cell's volume in its place; the volume over the overlap; the refusal of `volume` told before the overlap's; a share
// of a cell that `volume` refuses; work lists that show an outline.
pub fn share(
    coords: &[f64],
    corners: &[u32],
    ends: &[u32],
    coords2: &[f64],
    corners2: &[u32],
    ends2: &[u32],
    first: &mut [f64],
    second: &mut [f64],
) -> Result<f64, Refusal>
    ensures { (result, first.new, second.new) ≡ share_answer coords.now corners.now ends.now
        coords2.now corners2.now ends2.now first.old second.old }
{
    let part = geometry::clipping::convex_intersection_volume(
        coords, corners, ends, coords2, corners2, ends2, first, second,
    )?;
    let whole = geometry::volume(coords, corners, ends)?;
    Ok(part.volume / whole)
}
