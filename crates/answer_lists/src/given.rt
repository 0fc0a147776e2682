// What comes in under C names: the corners of a fixed shape in one list, and what is known of a shape as a number.
ghost use Rattle.std.specs.Prelude.{◌≡◌, ◌*◌, length};
ghost use Rattle.geometry.specs.Leaves.{vertices_of};
ghost use Rattle.geometry.specs.Listed.{shape_known};

// What is known of a shape: 0 convex, 1 concave, any other number nothing. Written out, since the numbers are C's.
// Ruled out: 2 taken for concave; 0 taken for nothing known.
#[tactic(auto, unfolding(geometry::specs::Listed::shape_known))]
pub fn shape_known(shape: u8) -> geometry::Convexity
    ensures { result ≡ shape_known shape }
{
    match shape {
        0 => geometry::Convexity::Convex,
        1 => geometry::Convexity::Concave,
        _ => geometry::Convexity::Unknown,
    }
}

// The corners of a shape of N. One by one, since `copy_from_slice` is a call of memcpy, a name that the archive would need from outside.
// Ruled out: a corner read from place k on and not from 3 k; the corners from the last to the first.
#[tactic(auto, using(places::proofs::Stored::length_threes))]
pub fn vertices<const N: usize>(p: &[f64]) -> [[f64; 3]; N]
    requires { length p.now ≡ N * 3 }
    ensures { result ≡ vertices_of p.now }
{
    let mut vs = [[0.0; 3]; N];
    for k in 0..N {
        vs[k] = flat::space::vertex(p, k);
    }
    vs
}
