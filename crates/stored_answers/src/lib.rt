// A stored line holds a cell, questions about it and the answers that the Rust gave; `judge` asks the same through the C names,
// and compares every code and every number.
// The words of a line, in hex: how many coordinates, corners and ends; these three lists; then the questions. A question is
// how many words follow, and the words that the crate `questions` speaks of.
#![tactic(auto)]

mod text;

ghost use Rattle.std.specs.Prelude.{◌≤◌, ◌<◌, ◌≡◌, length};

use question_lists::words;

// How many questions a line asks, and how many of them are answered otherwise than stored.
#[derive(Clone, Copy, Default)]
pub struct Verdict {
    pub asked: u64,
    pub different: u64,
}

// Where the line that begins at `from` ends: at its line feed, or at the end of the text.
pub fn line_end(s: &[u8], from: usize) -> usize
    requires { from ≤ length s.now }
    ensures { (from ≤ result) × (result ≤ length s.now) }
{
    text::until(s, from, 10)
}

// Where the name at the head of a line ends: at its first space, or at the end of the line.
pub fn name_end(s: &[u8]) -> usize
    ensures { result ≤ length s.now }
{
    text::until(s, 0, 32)
}

// The words that stand in a line behind its name, and what comes of them.
pub fn judge(line: &[u8]) -> Verdict {
    let mut words = [0; 8192];
    let n = text::read(line, &mut words);
    case(&words[0..n])
}

// The words of the cell's three lists, and the verdict on the questions behind them.
fn case(ws: &[u64]) -> Verdict {
    let nc = words::capped(ws, 0, 8192);
    let nk = words::capped(ws, 1, 8192);
    let ne = words::capped(ws, 2, 8192);
    let coords = words::part(ws, 3, nc);
    let corners = words::part(ws, 3 + nc, nk);
    let ends = words::part(ws, 3 + nc + nk, ne);
    let rest = words::part(ws, 3 + nc + nk + ne, 8192);
    questions(coords, corners, ends, rest)
}

// Asks one question after the other. One that is cut off ends with the line.
fn questions(coords: &[u64], corners: &[u64], ends: &[u64], ws: &[u64]) -> Verdict {
    let mut verdict = Verdict::default();
    let mut rest = ws;
    while let Some((size, behind)) = rest.split_first() {
        let (question, next) = behind.split_at(behind.len().min(*size as usize));
        if !agrees(coords, corners, ends, question) {
            verdict.different += 1;
        }
        verdict.asked += 1;
        rest = next;
    }
    verdict
}

// Whether a question is answered as stored. The cell's lists are made anew for each, since an entry may write into them.
fn agrees(coords: &[u64], corners: &[u64], ends: &[u64], q: &[u64]) -> bool {
    let mut xs = [0.0; 1280];
    let mut cs = [0; 4096];
    let mut es = [0; 512];
    let nc = put(coords, &mut xs, floats::of_pattern);
    let nk = put(corners, &mut cs, words::low);
    let ne = put(ends, &mut es, words::low);
    questions::agrees(q, &mut xs[0..nc], &mut cs[0..nk], &es[0..ne])
}

// What the words are made into, at the front of a list, and how many there was room for.
fn put<T: Copy, F: Fn(u64) -> T>(ws: &[u64], out: &mut [T], value_of: F) -> usize
    requires { F.IsAlwaysCallable value_of }
    ensures { result ≤ length out.old }
{
    for (place, w) in out.iter_mut().zip(ws) {
        *place = value_of(*w);
    }
    ws.len().min(out.len())
}
