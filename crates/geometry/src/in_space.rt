// Lists of points of space, stored in threes.
ghost use Rattle.std.specs.Prelude.{◌≡◌};
ghost use Rattle.geometry.specs.Points.{newell_normal_answer, vertex_centroid_answer, list_bounds_answer, to_local_answer};
ghost use Rattle.geometry.specs.Points.{local_origin_answer};

use crate::{Bounds3, Point3};
use places::refusal::Refusal;

// The Newell sums.
// Ruled out: leaving out the side from the last point to the first; a unit normal.
pub fn newell_normal(coords: &[f64]) -> Result<Point3, Refusal>
    ensures { result ≡ newell_normal_answer coords.now }
{
    refusals::list_refusal(coords)?;
    Ok(Point3::from(flat::space::newell_normal(coords)))
}

// The mean of the points.
// Ruled out: dividing each point before it is added; the middle of the box.
pub fn vertex_centroid(coords: &[f64]) -> Result<Point3, Refusal>
    ensures { result ≡ vertex_centroid_answer coords.now }
{
    refusals::list_refusal(coords)?;
    Ok(Point3::from(flat::space::vertex_centroid(coords)))
}

// The box of the points.
// Ruled out: a box that holds the origin always; low and high exchanged.
pub fn list_bounds(coords: &[f64]) -> Result<Bounds3, Refusal>
    ensures { result ≡ list_bounds_answer coords.now }
{
    refusals::list_refusal(coords)?;
    Ok(Bounds3::from(flat::space::bounds(coords)))
}

// Vertices moved to a local origin, in their own list. What is answered is the vector that was taken off each: the first vertex's
// coordinates, brought to whole numbers towards zero.
// Ruled out: a list half moved where a later coordinate cannot be moved exactly; a vector that is not what the vertices were moved by.
pub fn to_local(coords: &mut [f64]) -> Result<Point3, Refusal>
    ensures { (result, coords.new) ≡ to_local_answer coords.old }
{
    refusals::local_refusal(coords)?;
    let origin = local::origin(coords);
    local::move_by(coords, origin);
    Ok(Point3::from(origin))
}

// That vector alone: nothing is moved. Under its C name `to_local` asks for it where there is no room for the vector.
// Ruled out: a vector for vertices that cannot be moved by it; the first vertex as it is.
pub fn local_origin(coords: &[f64]) -> Result<Point3, Refusal>
    ensures { result ≡ local_origin_answer coords.now }
{
    refusals::local_refusal(coords)?;
    Ok(Point3::from(local::origin(coords)))
}
