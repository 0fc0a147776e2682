// A cell far from the origin: its vertices moved by whole numbers, exactly, to where sums about the origin do not drown.
#![tactic(auto)]

ghost use Rattle.std.specs.Prelude.{◌≡◌, ◌%◌, ◌<◌, false, length};
ghost use Rattle.places.specs.Stored.{joined};
ghost use Rattle.flat.specs.Points.{vertices_of};
ghost use Rattle.cell.specs.Refusals.{out_of_range, number_refused};
ghost use Rattle.local.specs.Local.{whole_of, origin_of, moved_by, inexact, stays_behind, move_refused};
ghost use Rattle.local.specs.Steps.{InRange, Whole, WholePoint};

// x brought to a whole number towards zero.
// Ruled out: the nearest whole number; the next lower one, which is farther from 0 where x is below 0.
fn whole(x: f64) -> f64
    requires { out_of_range x ≡ false }
    ensures value { result ≡ whole_of x }
    ensures is { Whole result }
{
    std::num::nearest_i64_to_f64(std::num::truncating_f64_to_i64(x))
}

// The local origin of a list of vertices.
// Ruled out: the middle of the box, which need not be whole; the first coordinate taken for all three axes.
pub fn origin(coords: &[f64]) -> [f64; 3]
    requires nonzero { 0 < length (vertices_of coords.now) }
    requires coords_value { number_refused coords.now ≡ false }
    ensures value { result ≡ origin_of (vertices_of coords.now) }
    ensures is { WholePoint result }
{
    let p = flat::space::vertex(coords, 0);
    [whole(p[0]), whole(p[1]), whole(p[2])]
}

// Whether the difference of a coordinate and a whole number is no f64. It is one exactly where the whole number, added back, gives the
// coordinate again: for numbers of this size that sum is always exact.
// Ruled out: a difference off by less than some tolerance let through; every coordinate with a fraction refused.
fn inexact(x: f64, o: f64) -> bool
    requires x_value { out_of_range x ≡ false }
    requires whole { Whole o }
    ensures { result ≡ inexact x o }
{
    x - o + o != x
}

// Whether a coordinate of a vertex cannot be moved exactly.
#[tactic(auto, unfolding(crate::specs::Local::stays_behind))]
fn stays_behind(origin: [f64; 3], p: [f64; 3]) -> bool
    requires in_range { InRange p }
    requires whole_point { WholePoint origin }
    ensures { result ≡ stays_behind origin p }
{
    inexact(p[0], origin[0]) || inexact(p[1], origin[1]) || inexact(p[2], origin[2])
}

// Whether a vertex of the list cannot be moved exactly to its local origin.
// Ruled out: only the first vertex asked about; a list refused whose every difference is an f64.
pub fn move_refused(coords: &[f64]) -> bool
    requires nonzero { 0 < length (vertices_of coords.now) }
    requires coords_value { number_refused coords.now ≡ false }
    ensures { result ≡ move_refused (vertices_of coords.now) }
{
    let origin = origin(coords);
    for i in 0..coords.len() / 3 {
        if stays_behind(origin, flat::space::vertex(coords, i)) {
            return true;
        }
    }
    false
}

// Every vertex moved, in the vertices' own list: the local origin taken off it.
// Ruled out: one axis moved by another's number; the first vertex left where it was.
pub fn move_by(coords: &mut [f64], origin: [f64; 3])
    requires { length coords.old % 3 ≡ 0 }
    ensures { coords.new ≡ joined (moved_by origin (vertices_of coords.old)) }
{
    let n = coords.len() / 3;
    for v in 0..n {
        let p = flat::space::vertex(coords, v);
        flat::space::put_vertex(coords, v, flat::minus3(p, origin));
    }
}
