// Lists of points of the plane, stored in pairs.
ghost use Rattle.std.specs.Prelude.{◌≡◌};
ghost use Rattle.geometry.specs.Answers.{named2, bounds2};
ghost use Rattle.geometry.specs.Points.{signed_area2_answer, into_ccw2_answer, vertex_centroid2_answer, bounds2_answer};

use crate::{Bounds2, Point2};
use places::refusal::Refusal;

// The coordinates of a point under their names.
impl From<[f64; 2]> for Point2 {
    ghost from_gives = { λ p named. named ≡ named2 p };

    fn from(p: [f64; 2]) -> Point2 {
        Point2 { x: p[0], y: p[1] }
    }
}

impl From<[[f64; 2]; 2]> for Bounds2 {
    ghost from_gives = { λ b named. named ≡ bounds2 b };

    fn from(b: [[f64; 2]; 2]) -> Bounds2 {
        let [low, high] = b;
        Bounds2 {
            low: Point2::from(low),
            high: Point2::from(high),
        }
    }
}

// The signed area, above 0 where the outline runs counterclockwise.
// Ruled out: the magnitude of the area; an outline that is not closed by its last side.
pub fn signed_area2(ps: &[f64]) -> Result<f64, Refusal>
    ensures { result ≡ signed_area2_answer ps.now }
{
    refusals::plane_refusal(ps)?;
    Ok(outline::signed_area2(ps))
}

// The outline turned counterclockwise, in its own list.
// Ruled out: reversing the numbers, which changes each point's x for its y; a refused list that is turned.
pub fn into_ccw2(ps: &mut [f64]) -> Result<(), Refusal>
    ensures { (result, ps.new) ≡ into_ccw2_answer ps.old }
{
    refusals::plane_refusal(ps)?;
    outline::into_ccw2(ps);
    Ok(())
}

// The mean of the points; of no point it is NaN, as the Rust's.
// Ruled out: 0 for no point; the middle of the box.
pub fn vertex_centroid2(ps: &[f64]) -> Result<Point2, Refusal>
    ensures { result ≡ vertex_centroid2_answer ps.now }
{
    refusals::plane_refusal(ps)?;
    Ok(Point2::from(outline::vertex_centroid2(ps)))
}

// The box of the points; of no point it is upside down, from +infinity to -infinity.
// Ruled out: a box that holds the origin always; low and high exchanged.
pub fn bounds2(ps: &[f64]) -> Result<Bounds2, Refusal>
    ensures { result ≡ bounds2_answer ps.now }
{
    refusals::plane_refusal(ps)?;
    Ok(Bounds2::from(outline::bounds2(ps)))
}
