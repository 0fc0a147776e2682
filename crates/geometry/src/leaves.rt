// The leaves on numbers, points and planes: any bits, nothing refused. Each stands here because C has a name for it.
ghost use Rattle.std.specs.Prelude.{◌≡◌};
ghost use Rattle.std.specs.Float.{binary64};
ghost use Rattle.geometry.specs.Leaves.{magnitude_of, least_of, largest_of, root_of, hypot_of, to_bits, of_bits};
ghost use Rattle.geometry.specs.Leaves.{cross2_of, axis_of, project2_of, crossing_of, segment_plane_of};
ghost use Rattle.geometry.specs.Leaves.{plane_taken, plane_same_side_answer, plane_coplanar_opposite_answer};

// The number with its sign cleared.
// Ruled out: -0 left as it is; 0 for a NaN.
pub fn magnitude(x: f64) -> f64
    ensures { result ≡ magnitude_of x }
{
    floats::magnitude(x)
}

// The lesser of two numbers: the other where one is a NaN, the earlier on a tie.
// Ruled out: a NaN where one of the two is a number; the later one on a tie.
pub fn least(a: f64, b: f64) -> f64
    ensures { result ≡ least_of a b }
{
    floats::least(a, b)
}

// The larger of two numbers, likewise.
// Ruled out: the lesser; the later one on a tie.
pub fn largest(a: f64, b: f64) -> f64
    ensures { result ≡ largest_of a b }
{
    floats::largest(a, b)
}

// The square root, rounded once.
// Ruled out: a root that is off by one unit in the last place; 0 for a number below 0.
pub fn root(x: f64) -> f64
    ensures { result ≡ root_of binary64 x }
{
    floats::root(x)
}

// The length of two numbers: the exact root of the exact sum of their squares, rounded once.
// Ruled out: a sum of squares that is rounded before the root; 0 where both squares underflow.
pub fn hypot(x: f64, y: f64) -> f64
    ensures { result ≡ hypot_of binary64 x y }
{
    hypot::hypot(x, y)
}

// The bit pattern of a number; all NaNs have the same pattern.
// Ruled out: the sign of -0 lost; a NaN's payload told.
pub fn pattern(x: f64) -> u64
    ensures { result ≡ to_bits binary64 x }
{
    floats::pattern(x)
}

// The number with a bit pattern.
// Ruled out: a subnormal number read as 0; an infinity read as a NaN.
pub fn of_pattern(b: u64) -> f64
    ensures { result ≡ of_bits binary64 b }
{
    floats::of_pattern(b)
}

// (b - a) x (c - a).
// Ruled out: a fused product, which rounds once; the cross product about the origin.
pub fn cross2(a: [f64; 2], b: [f64; 2], c: [f64; 2]) -> f64
    ensures { result ≡ cross2_of a b c }
{
    flat::cross2(a, b, c)
}

// The axis along which a normal is longest, the earlier one on a tie.
// Ruled out: the later axis on a tie; the axis of the largest signed part.
pub fn dominant_axis(n: [f64; 3]) -> usize
    ensures { result ≡ axis_of n }
{
    flat::dominant_axis(n)
}

// The point without the axis with a number, 0 for x and 1 for y; any other number drops z.
// Ruled out: the axes turned round (z, x); a refusal of axis 3.
pub fn project2(p: [f64; 3], axis: usize) -> [f64; 2]
    ensures { result ≡ project2_of p axis }
{
    flat::project2(p, axis)
}

// Where the line from a to b meets that from p to q; q when the denominator is 0.
// Ruled out: p when the denominator is 0; a point moved onto its segment.
pub fn segment_intersection(a: [f64; 2], b: [f64; 2], p: [f64; 2], q: [f64; 2]) -> [f64; 2]
    ensures { result ≡ crossing_of a b p q }
{
    flat::segment_intersection(a, b, p, q)
}

// Where the side from a to b crosses a plane, from the distances of its ends. It need not lie between them.
// Ruled out: t kept between 0 and 1; the point computed from b.
pub fn segment_plane_intersection(a: [f64; 3], b: [f64; 3], da: f64, db: f64) -> [f64; 3]
    ensures { result ≡ segment_plane_of a b da db }
{
    clip_step::segment_plane_intersection(a, b, da, db)
}

// A plane as the rooms take it.
impl From<crate::Plane> for planes::Plane {
    ghost from_gives = { λ p taken. taken ≡ plane_taken p };

    fn from(p: crate::Plane) -> planes::Plane {
        let n = p.n;
        planes::Plane { n, d: p.d }
    }
}

// Whether two planes are the same with the inside on the same side.
// Ruled out: a normal that is off by just 1e-10 let through; offsets compared without their signs.
pub fn plane_same_side(a: crate::Plane, b: crate::Plane, tol: f64) -> bool
    ensures { result ≡ plane_same_side_answer a b tol }
{
    planes::plane_same_side(planes::Plane::from(a), planes::Plane::from(b), tol)
}

// Whether two planes are the same with the inside on opposite sides: the normals' product is not at least −1 + 1e-10, so a NaN passes,
// and the magnitude of the offsets' sum is at most the tolerance.
// Ruled out: the difference of the offsets for their sum; a NaN normal read as not opposite.
pub fn plane_coplanar_opposite(a: crate::Plane, b: crate::Plane, tol: f64) -> bool
    ensures { result ≡ plane_coplanar_opposite_answer a b tol }
{
    planes::plane_coplanar_opposite(planes::Plane::from(a), planes::Plane::from(b), tol)
}
