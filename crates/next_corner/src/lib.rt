// The choice of the corner that is cut off next.
#![tactic(auto)]

ghost use Rattle.std.specs.Prelude.{◌≡◌, ◌<◌, ◌≤◌, length};
ghost use Rattle.places.specs.Limits.{most_corners};
ghost use Rattle.flat.specs.Flat.{summed_area_of};
ghost use Rattle.next_corner.specs.NextCorner.{direction_of, turns_of, strictly_in, blocks_of, blocked_of};
ghost use Rattle.next_corner.specs.NextCorner.{turns_at, ear_at, find_ear, find_turn, tried_of, find_corner};

// The corner that is cut off next, if any, and how many turn tests were made: how often turn × direction was tested at a corner.
#[derive(Clone, Copy)]
pub struct Choice {
    pub corner: Option<usize>,
    pub tests: usize,
}

// The summed area of a ring of points, and the direction in which it runs.
fn summed_area(ps: &[[f64; 2]]) -> f64
    ensures { result ≡ summed_area_of ps.now }
{
    let n = ps.len();
    let mut s = 0.0;
    for (i, &a) in ps.iter().enumerate() {
        s = flat::area_side(a, ps[places::next(i, n)], s);
    }
    s
}

#[tactic(auto, unfolding(crate::specs::NextCorner::direction_of))]
pub fn direction(ps: &[[f64; 2]]) -> f64
    ensures { result ≡ direction_of ps.now }
{
    if summed_area(ps) >= 0.0 { 1.0 } else { -1.0 }
}

// Whether the corner b between a and c turns the way of dir, or not at all.
#[tactic(auto, unfolding(crate::specs::NextCorner::turns_of))]
fn turns(a: [f64; 2], b: [f64; 2], c: [f64; 2], dir: f64) -> bool
    ensures { result ≡ turns_of a b c dir }
{
    flat::cross2(a, b, c) * dir >= 0.0
}

#[tactic(auto, unfolding(crate::specs::NextCorner::strictly_in))]
fn strictly_in(a: [f64; 2], b: [f64; 2], c: [f64; 2], dir: f64, p: [f64; 2]) -> bool
    ensures { result ≡ strictly_in a b c dir p }
{
    flat::cross2(a, b, p) * dir > 0.0
        && flat::cross2(b, c, p) * dir > 0.0
        && flat::cross2(c, a, p) * dir > 0.0
}

// Whether p is in the way of the triangle a, b, c.
#[tactic(auto, unfolding(crate::specs::NextCorner::blocks_of, crate::specs::NextCorner::same_of))]
fn blocks(a: [f64; 2], b: [f64; 2], c: [f64; 2], dir: f64, p: [f64; 2]) -> bool
    ensures { result ≡ blocks_of a b c dir p }
{
    p != a && p != b && p != c && strictly_in(a, b, c, dir, p)
}

fn blocked(ps: &[[f64; 2]], a: [f64; 2], b: [f64; 2], c: [f64; 2], dir: f64) -> bool
    ensures { result ≡ blocked_of ps.now a b c dir }
{
    ps.iter().any(|&p| blocks(a, b, c, dir, p))
}

// Whether the corner at place k turns the right way, and whether it is an ear.
#[tactic(auto, unfolding(crate::specs::NextCorner::turns_at))]
fn turns_at(ps: &[[f64; 2]], k: usize, dir: f64) -> bool
    requires { k < length ps.now }
    ensures { result ≡ turns_at ps.now dir k }
{
    let n = ps.len();
    let a = ps[places::prev(k, n)];
    let b = ps[k];
    let c = ps[places::next(k, n)];
    turns(a, b, c, dir)
}

#[tactic(auto, unfolding(crate::specs::NextCorner::ear_at, crate::specs::NextCorner::turns_at))]
fn ear_at(ps: &[[f64; 2]], k: usize, dir: f64) -> bool
    requires { k < length ps.now }
    ensures { result ≡ ear_at ps.now dir k }
{
    let n = ps.len();
    let a = ps[places::prev(k, n)];
    let b = ps[k];
    let c = ps[places::next(k, n)];
    turns(a, b, c, dir) && !blocked(ps, a, b, c, dir)
}

fn find_ear(ps: &[[f64; 2]], dir: f64) -> Option<usize>
    ensures { result ≡ find_ear ps.now dir }
{
    (0..ps.len()).find(|&k| ear_at(ps, k, dir))
}

fn find_turn(ps: &[[f64; 2]], dir: f64) -> Option<usize>
    ensures { result ≡ find_turn ps.now dir }
{
    (0..ps.len()).find(|&k| turns_at(ps, k, dir))
}

// How many of n corners a pass tries: each up to and including the one that it takes, and all where it takes none.
fn tried(n: usize, taken: Option<usize>) -> usize
    requires { tried_of n taken ≤ n }
    ensures { result ≡ tried_of n taken }
{
    match taken {
        Some(k) => k + 1,
        None => n,
    }
}

// A corner that is tried is tested once, whether or not it turns out to be blocked, so the count asks nothing of the passes.
pub fn find_corner(ps: &[[f64; 2]], dir: f64) -> Choice
    requires { length ps.now ≤ most_corners }
    ensures { result ≡ find_corner ps.now dir }
{
    let n = ps.len();
    let ear = find_ear(ps, dir);
    let first = tried(n, ear);
    if let Some(k) = ear {
        return Choice {
            corner: Some(k),
            tests: first,
        };
    }
    let turn = find_turn(ps, dir);
    let second = tried(n, turn);
    Choice {
        corner: turn,
        tests: first + second,
    }
}
