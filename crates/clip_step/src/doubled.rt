// Doubled points dropped in place, as remove_consecutive_duplicates does.
ghost use Rattle.std.specs.Prelude.{◌≡◌, ◌<◌, ◌≤◌, length, take};
ghost use Rattle.std.specs.Float.Ieee.{lt, le};
ghost use Rattle.places.specs.Limits.{most_work_numbers};
ghost use Rattle.flat.specs.Points.{vertices_of};
ghost use Rattle.clip_step.specs.Doubled.{square_of, dist3_of, largest_coordinate, doubled_within, spaced_of, opened_of, without_doubled};
ghost use Rattle.clip_step.specs.Steps.{Sure};

// The sum of the squares of what two points differ by.
// Ruled out: the squares added in another order, which rounds otherwise; their root.
#[tactic(auto, unfolding(crate::specs::Doubled::square_of))]
pub fn square3(a: [f64; 3], b: [f64; 3]) -> f64
    ensures { result ≡ square_of a b }
{
    let x = a[0] - b[0];
    let y = a[1] - b[1];
    let z = a[2] - b[2];
    x * x + y * y + z * z
}

// The largest magnitude of a point's coordinates and of m.
#[tactic(auto, unfolding(crate::specs::Doubled::largest_coordinate))]
fn largest_coordinate(p: [f64; 3], m: f64) -> f64
    ensures { result ≡ largest_coordinate p m }
{
    let x = floats::magnitude(p[0]);
    let y = floats::magnitude(p[1]);
    let z = floats::magnitude(p[2]);
    floats::largest(m, floats::largest(floats::largest(x, y), z))
}

// Points no farther apart than this are doubled. The constant is 2^-46.
// Ruled out: one tolerance for coordinates of every size; the largest coordinate taken with its sign.
fn doubled_within(s: &[f64]) -> f64
    ensures { result ≡ doubled_within (vertices_of s.now) }
{
    let (points, _) = s.as_chunks::<3>();
    let mut m = 0.0;
    for &p in points {
        m = largest_coordinate(p, m);
    }
    1.4210854715202004e-14 * m
}

// A sum of squares from which on the root is above eps, so that it need not be taken: the root grows with the number.
// The factor is far above all roundings, so a usual eps passes the test.
// Where it does not, the answer is a NaN, which no sum reaches, and every root is taken.
// The test itself takes no root but at the ends of the range, since that of the rounded square of h is the magnitude of h.
fn sure_square(eps: f64) -> f64
    ensures { Sure eps result }
{
    let h = eps * 1.0001;
    let s = h * h;
    if floats::root_of_square(h) > eps {
        return s;
    }
    0.0 / 0.0
}

// Whether two points are farther apart than eps; the root is taken only where it is in doubt.
#[tactic(auto, unfolding(crate::specs::Doubled::dist3_of))]
fn is_far(a: [f64; 3], b: [f64; 3], eps: f64, sure: f64) -> bool
    requires { Sure eps sure }
    ensures { result ≡ lt eps (dist3_of a b) }
{
    let s = square3(a, b);
    if sure <= s {
        return true;
    }
    floats::root(s) > eps
}

// Whether two points are at most eps apart, which is not the opposite where the distance is a NaN.
fn is_near(a: [f64; 3], b: [f64; 3], eps: f64, sure: f64) -> bool
    requires { Sure eps sure }
    ensures { result ≡ le (dist3_of a b) eps }
{
    let s = square3(a, b);
    if sure <= s {
        return false;
    }
    floats::root(s) <= eps
}

// Each point that is no farther than eps from the one kept before it is dropped; the rest move up.
fn space_out(s: &mut [f64], eps: f64, sure: f64) -> usize
    requires { (0 < length (vertices_of s.old)) × (length s.old ≤ most_work_numbers) × Sure eps sure }
    ensures value { result ≡ length (spaced_of eps (vertices_of s.old)) }
    ensures s_value { take result (vertices_of s.new) ≡ spaced_of eps (vertices_of s.old) }
{
    let n = s.len() / 3;
    let mut last = flat::space::vertex(s, 0);
    let mut kept = 1;
    // By index: kept points are written into the list that is read.
    for i in 1..n {
        let p = flat::space::vertex(s, i);
        if is_far(p, last, eps, sure) {
            flat::space::put_vertex(s, kept, p);
            kept += 1;
            last = p;
        }
    }
    kept
}

// How many of a list's points are left when the last goes where it doubles the first.
fn opened(s: &[f64], eps: f64, sure: f64) -> usize
    requires { (length s.now ≤ most_work_numbers) × Sure eps sure }
    ensures { result ≡ length (opened_of eps (vertices_of s.now)) }
{
    let n = s.len() / 3;
    if n < 2 {
        return n;
    }
    let first = flat::space::vertex(s, 0);
    let last = flat::space::vertex(s, n - 1);
    if is_near(first, last, eps, sure) {
        return n - 1;
    }
    n
}

// Doubled points dropped: so many are left, at the front.
// Ruled out: dropping the first of two doubled points; leaving the last where it doubles the first.
pub fn remove_consecutive_duplicates(s: &mut [f64]) -> usize
    requires { length s.old ≤ most_work_numbers }
    ensures value { result ≡ length (without_doubled (vertices_of s.old)) }
    ensures s_value { take result (vertices_of s.new) ≡ without_doubled (vertices_of s.old) }
{
    if s.len() < 3 {
        return 0;
    }
    let eps = doubled_within(s);
    let sure = sure_square(eps);
    let n = space_out(s, eps, sure);
    opened(&s[0..n * 3], eps, sure)
}
