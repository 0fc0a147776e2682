// The leaves on f64 under C names: any bits, and nothing is refused but a list too short for a point (6).
ghost use Rattle.std.specs.Prelude.{◌≡◌, [], ◌∷◌};
ghost use Rattle.std.specs.Float.{binary64};
ghost use Rattle.places.specs.Loops.{one_if};
ghost use Rattle.geometry.specs.Leaves.{magnitude_of, least_of, largest_of, root_of, hypot_of, to_bits, of_bits};
ghost use Rattle.geometry.specs.Leaves.{cross2_of, axis_of, project2_of, crossing_of, segment_plane_of};
ghost use Rattle.geometry.specs.Leaves.{plane_same_side_answer, plane_coplanar_opposite_answer};
ghost use Rattle.geometry.specs.Listed.{told, written, values};

pub fn wegrusamt_magnitude(x: f64) -> f64
    ensures { result ≡ magnitude_of x }
{
    geometry::leaves::magnitude(x)
}

pub fn wegrusamt_least(a: f64, b: f64) -> f64
    ensures { result ≡ least_of a b }
{
    geometry::leaves::least(a, b)
}

pub fn wegrusamt_largest(a: f64, b: f64) -> f64
    ensures { result ≡ largest_of a b }
{
    geometry::leaves::largest(a, b)
}

pub fn wegrusamt_root(x: f64) -> f64
    ensures { result ≡ root_of binary64 x }
{
    geometry::leaves::root(x)
}

pub fn wegrusamt_hypot(x: f64, y: f64) -> f64
    ensures { result ≡ hypot_of binary64 x y }
{
    geometry::leaves::hypot(x, y)
}

pub fn wegrusamt_pattern(x: f64) -> u64
    ensures { result ≡ to_bits binary64 x }
{
    geometry::leaves::pattern(x)
}

pub fn wegrusamt_of_pattern(b: u64) -> f64
    ensures { result ≡ of_bits binary64 b }
{
    geometry::leaves::of_pattern(b)
}

// Points and normals come as their coordinates, and go to the front of a list.
pub fn wegrusamt_cross2(ax: f64, ay: f64, bx: f64, by: f64, cx: f64, cy: f64) -> f64
    ensures { result ≡ cross2_of (ax ∷ ay ∷ []) (bx ∷ by ∷ []) (cx ∷ cy ∷ []) }
{
    geometry::leaves::cross2([ax, ay], [bx, by], [cx, cy])
}

pub fn wegrusamt_dominant_axis(x: f64, y: f64, z: f64) -> usize
    ensures { result ≡ axis_of (x ∷ y ∷ z ∷ []) }
{
    geometry::leaves::dominant_axis([x, y, z])
}

pub fn wegrusamt_project2(x: f64, y: f64, z: f64, axis: usize, out: &mut [f64]) -> u8
    ensures { told result out.new [] ≡ written (values (project2_of (x ∷ y ∷ z ∷ []) axis) []) out.old [] }
{
    answer_lists::put(&geometry::leaves::project2([x, y, z], axis), out)
}

pub fn wegrusamt_segment_intersection(
    ax: f64,
    ay: f64,
    bx: f64,
    by: f64,
    px: f64,
    py: f64,
    qx: f64,
    qy: f64,
    out: &mut [f64],
) -> u8
    ensures { told result out.new [] ≡ written (values (crossing_of (ax ∷ ay ∷ []) (bx ∷ by ∷ []) (px ∷ py ∷ []) (qx ∷ qy ∷ [])) [])
        out.old [] }
{
    answer_lists::put(
        &geometry::leaves::segment_intersection([ax, ay], [bx, by], [px, py], [qx, qy]),
        out,
    )
}

pub fn wegrusamt_segment_plane_intersection(
    ax: f64,
    ay: f64,
    az: f64,
    bx: f64,
    by: f64,
    bz: f64,
    da: f64,
    db: f64,
    out: &mut [f64],
) -> u8
    ensures { told result out.new [] ≡ written (values (segment_plane_of (ax ∷ ay ∷ az ∷ []) (bx ∷ by ∷ bz ∷ []) da db) [])
        out.old [] }
{
    answer_lists::put(
        &geometry::leaves::segment_plane_intersection([ax, ay, az], [bx, by, bz], da, db),
        out,
    )
}

// A plane is its normal, then its offset; the answer is 1 for yes and 0 for no.
pub fn wegrusamt_plane_same_side(
    ax: f64,
    ay: f64,
    az: f64,
    ad: f64,
    bx: f64,
    by: f64,
    bz: f64,
    bd: f64,
    tol: f64,
) -> u8
    ensures { result ≡ one_if (plane_same_side_answer (record { n = ax ∷ ay ∷ az ∷ []; d = ad })
        (record { n = bx ∷ by ∷ bz ∷ []; d = bd }) tol) }
{
    let a = geometry::Plane {
        n: [ax, ay, az],
        d: ad,
    };
    let b = geometry::Plane {
        n: [bx, by, bz],
        d: bd,
    };
    u8::from(geometry::leaves::plane_same_side(a, b, tol))
}

pub fn wegrusamt_plane_coplanar_opposite(
    ax: f64,
    ay: f64,
    az: f64,
    ad: f64,
    bx: f64,
    by: f64,
    bz: f64,
    bd: f64,
    tol: f64,
) -> u8
    ensures { result ≡ one_if (plane_coplanar_opposite_answer (record { n = ax ∷ ay ∷ az ∷ []; d = ad })
        (record { n = bx ∷ by ∷ bz ∷ []; d = bd }) tol) }
{
    let a = geometry::Plane {
        n: [ax, ay, az],
        d: ad,
    };
    let b = geometry::Plane {
        n: [bx, by, bz],
        d: bd,
    };
    u8::from(geometry::leaves::plane_coplanar_opposite(a, b, tol))
}
