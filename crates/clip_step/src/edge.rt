// One edge of the plane against an outline.
ghost use Rattle.std.specs.Prelude.{◌≡◌, [], ◌∷◌, ◌<◌, ◌≤◌, length};
ghost use Rattle.places.specs.Limits.{most_work_numbers};
ghost use Rattle.places.specs.Stored.{in_pairs};
ghost use Rattle.flat.specs.Flat.{crossing_of};
ghost use Rattle.clip_step.specs.ClipStep.{side_leaves, on_left, trimmed_at};
ghost use Rattle.work_lists.specs.Steps.{Filled};

// Whether p is kept by the edge from a to b.
// Ruled out: leaving out a point on the edge's line; keeping a point for which cross2 is not a number.
fn on_left(a: [f64; 2], b: [f64; 2], p: [f64; 2]) -> bool
    ensures { result ≡ on_left a b p }
{
    flat::cross2(a, b, p) >= 0.0
}

// A point laid down at place m where there is one. The count goes on past the end of the list.
// Ruled out: a count that stops where the list ends; a point that has no place laid over the last one.
fn push(s: &mut [f64], m: usize, p: [f64; 2]) -> usize
    requires { m < 8192 }
    ensures { Filled (p ∷ []) m (in_pairs s.old) result (in_pairs s.new) }
{
    if m < s.len() / 2 {
        outline::put_pair(s, m, p);
        return m + 1;
    }
    m + 1
}

// What the side from p to q leaves of an edge from a to b, by whether its ends are kept.
fn emit(
    s: &mut [f64],
    m: usize,
    a: [f64; 2],
    b: [f64; 2],
    p: [f64; 2],
    p_in: bool,
    q: [f64; 2],
    q_in: bool,
) -> usize
    requires { m < 8000 }
    ensures { Filled (side_leaves p_in q_in (crossing_of a b p q) q) m (in_pairs s.old) result (in_pairs s.new) }
{
    if p_in {
        if q_in {
            return push(s, m, q);
        }
        return push(s, m, flat::segment_intersection(a, b, p, q));
    }
    if q_in {
        let k = push(s, m, flat::segment_intersection(a, b, p, q));
        return push(s, k, q);
    }
    m
}

// An outline cut by the edge from a to b. The count says how many points it has, even where they do not fit.
// Ruled out: taking the side from the last point first, as a plane does; writing a kept point before the crossing that leads to it.
pub fn trim_at_edge(src: &[f64], dst: &mut [f64], a: [f64; 2], b: [f64; 2]) -> usize
    requires nonzero { 0 < length (in_pairs src.now) }
    requires src_len_bound { length src.now ≤ most_work_numbers }
    ensures { Filled (trimmed_at a b (in_pairs src.now)) 0 (in_pairs dst.old) result (in_pairs dst.new) }
{
    let n = src.len() / 2;
    let first = outline::pair(src, 0);
    let first_in = on_left(a, b, first);
    let mut p = first;
    let mut p_in = first_in;
    let mut m = 0;
    for i in 1..n {
        let q = outline::pair(src, i);
        let q_in = on_left(a, b, q);
        m = emit(dst, m, a, b, p, p_in, q, q_in);
        p = q;
        p_in = q_in;
    }
    emit(dst, m, a, b, p, p_in, first, first_in)
}
