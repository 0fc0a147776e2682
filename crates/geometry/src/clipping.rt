// Clipping and the overlaps, which work in two lent lists: clipping goes from one to the other and back,
// and shows what is left in the one where it ended.
ghost use Rattle.std.specs.Prelude.{◌≡◌};
ghost use Rattle.geometry.specs.Clipping.{clip_face_answer, clip_convex_answer, overlap_area_answer, overlap_answer, outline_shown};
ghost use Rattle.geometry.specs.Clipping.{shared_shown};
ghost use Rattle.geometry.specs.Clipping.{shared_answer, overlap_answer};

use crate::{Outline, Shared};
use cell::SoundCell;
use places::refusal::Refusal;

// An outline as an entry shows it.
impl From<work_lists::Outline> for Outline {
    ghost from_gives = { λ o shown. shown ≡ outline_shown o };

    fn from(o: work_lists::Outline) -> Outline {
        Outline {
            points: o.points,
            in_second: o.in_second,
        }
    }
}

// An overlap as an entry shows it.
impl From<overlap::Shared> for Shared {
    ghost from_gives = { λ o shown. shown ≡ shared_shown o };

    fn from(o: overlap::Shared) -> Shared {
        Shared {
            volume: o.volume,
            arealess: o.arealess,
            arealess2: o.arealess2,
        }
    }
}

// The face with a number clipped by planes, which are stored in fours, normal first, and are taken as they are.
// Ruled out: only the first plane applied; a refusal 6 that leaves what it wrote in the work lists.
pub fn clip_face(
    coords: &[f64],
    corners: &[u32],
    ends: &[u32],
    face: u32,
    planes: &[f64],
    eps: f64,
    first: &mut [f64],
    second: &mut [f64],
) -> Result<Option<Outline>, Refusal>
    ensures { (result, first.new, second.new) ≡ clip_face_answer coords.now corners.now ends.now face planes.now eps
        first.old second.old }
{
    refusals::clip_refusal(coords, corners, ends, face, planes, first, second)?;
    let part = cell::face_by_number(corners, ends, face as usize);
    let left = clip::clip_face_shown(coords, part, planes, eps, first, second)?;
    Ok(left.map(Outline::from))
}

// An outline of the plane clipped by the edges of another.
// Ruled out: a subject of 2 points emptied when there is no edge; the edge from the last point to the first left out.
pub fn clip_convex(
    subject: &[f64],
    clip: &[f64],
    first: &mut [f64],
    second: &mut [f64],
) -> Result<Option<Outline>, Refusal>
    ensures { (result, first.new, second.new) ≡ clip_convex_answer subject.now clip.now first.old second.old }
{
    refusals::planar_refusal(subject, clip, first, second)?;
    let left = planar::clip_convex_shown(subject, clip, first, second)?;
    Ok(left.map(Outline::from))
}

// The area of what is left of an outline of the plane clipped by the edges of another; both work lists are then +0.
// Ruled out: the signed area; an area of 0 where there is no room.
pub fn convex_intersection_area(
    subject: &[f64],
    clip: &[f64],
    first: &mut [f64],
    second: &mut [f64],
) -> Result<f64, Refusal>
    ensures { (result, first.new, second.new) ≡ overlap_area_answer subject.now clip.now first.old second.old }
{
    refusals::planar_refusal(subject, clip, first, second)?;
    let area = planar::convex_intersection_area(subject, clip, first, second);
    work_lists::settle(first, second, 0, false);
    Ok(area?)
}

// The volume of the overlap of two convex cells, and how many faces of each have no area, even where their boxes miss each other; both
// work lists are then +0.
// Ruled out: a shared face counted for an overlap; the faces of the first cell only; faces counted only where the boxes meet.
pub fn convex_intersection_volume(
    coords: &[f64],
    corners: &[u32],
    ends: &[u32],
    coords2: &[f64],
    corners2: &[u32],
    ends2: &[u32],
    first: &mut [f64],
    second: &mut [f64],
) -> Result<Shared, Refusal>
    ensures { (result, first.new, second.new) ≡ overlap_answer coords.now corners.now ends.now
        coords2.now corners2.now ends2.now first.old second.old }
{
    refusals::overlap_refusal(
        coords, corners, ends, coords2, corners2, ends2, first, second,
    )?;
    let cell = SoundCell {
        coords,
        corners,
        ends,
    };
    let cell2 = SoundCell {
        coords: coords2,
        corners: corners2,
        ends: ends2,
    };
    let shared = overlap::convex_intersection_volume(&cell, &cell2, first, second)?;
    Ok(Shared::from(shared))
}
