// The lists that a call is lent, and what is stored of them: how many words, and the words. A stored list of another length, or
// one that is cut short, is different.
ghost use Rattle.std.specs.Prelude.{◌≡◌, length, IfSome};

use crate::words::{capped, part, word};

// Each list comes from a function whose contract states only its length, so the prover never expands its elements. Numbers are
// the least above 0 and whole numbers 4294967295 before the call, so that a write past the answer is seen.
// They are functions each for itself, since each has its own type and what stands in it; one for all would be told both at every call.
pub fn values_room() -> [f64; 8]
    ensures { 8 ≡ length result }
{
    let least = floats::of_pattern(1);
    [least; 8]
}

pub fn counts_room() -> [usize; 264]
    ensures { 264 ≡ length result }
{
    [4294967295; 264]
}

pub fn work_room() -> [f64; 3080]
    ensures { 3080 ≡ length result }
{
    let least = floats::of_pattern(1);
    [least; 3080]
}

pub fn triangles_room() -> [[u32; 3]; 256]
    ensures { 256 ≡ length result }
{
    [[4294967295; 3]; 256]
}

// What is stored behind the list at the head.
pub fn behind(ws: &[u64]) -> &[u64] {
    let n = capped(ws, 0, 8192);
    part(ws, 1 + n, 8192)
}

// The list at the head, where it has n words.
fn stored(ws: &[u64], n: usize) -> Option<&[u64]>
    ensures { IfSome result (λ words. length words.now ≡ n) }
{
    let (first, rest) = ws.split_first()?;
    if *first != n as u64 {
        return None;
    }
    rest.get(..n)
}

// The pattern of a number; where zeros of either sign are the same, that of +0 for both.
fn pattern(x: f64, zeros: u64) -> u64 {
    if zeros == 1 && x == 0.0 {
        return 0;
    }
    floats::pattern(x)
}

// Whether the list at the head has the words of these values.
fn same<T, F: Fn(&T) -> u64>(ws: &[u64], xs: &[T], word_of: F) -> bool
    requires { F.IsAlwaysCallable word_of }
{
    let Some(words) = stored(ws, xs.len()) else {
        return false;
    };
    words.iter().zip(xs).all(|(w, x)| *w == word_of(x))
}

// Whether every number of a list is as stored.
pub fn same_numbers(ws: &[u64], xs: &[f64], zeros: u64) -> bool {
    same(ws, xs, |x| pattern(*x, zeros))
}

// The same of a list of counts.
pub fn same_counts(ws: &[u64], ns: &[usize]) -> bool {
    same(ws, ns, |n| *n as u64)
}

// The same of a list of corners.
pub fn same_corners(ws: &[u64], cs: &[u32]) -> bool {
    same(ws, cs, |c| u64::from(*c))
}

// The same of a list of triangles, whose corners are stored one after the other.
pub fn same_triangles(ws: &[u64], out: &[[u32; 3]]) -> bool {
    same_corners(ws, out.as_flattened())
}
