// The words of a line and of a question, by their places.
ghost use Rattle.std.specs.Prelude.{◌≤◌};

// The word at a place; 0 past the end.
pub fn word(ws: &[u64], at: usize) -> u64 {
    ws.get(at).copied().unwrap_or(0)
}

// The word at a place, or `most` where it is larger.
pub fn capped(ws: &[u64], at: usize, most: usize) -> usize
    ensures { result ≤ most }
{
    (word(ws, at) as usize).min(most)
}

// The lowest 32 bits of a word, and the lowest 8.
pub fn low(w: u64) -> u32 {
    (w % 4294967296) as u32
}

pub fn lowest(w: u64) -> u8 {
    (w % 256) as u8
}

// The words from a place on, at most n of them, as far as there are any.
pub fn part(ws: &[u64], at: usize, n: usize) -> &[u64] {
    let rest = ws.get(at..).unwrap_or(&[]);
    rest.get(..n).unwrap_or(rest)
}

// The number whose pattern is the word at a place.
pub fn argument(q: &[u64], at: usize) -> f64 {
    floats::of_pattern(word(q, at))
}

// The numbers from a place on, as far as there are any.
pub fn from(xs: &[f64], at: usize) -> &[f64] {
    xs.get(at..).unwrap_or(&[])
}

// The number at a place; 0 past the end.
pub fn number(xs: &[f64], at: usize) -> f64 {
    xs.get(at).copied().unwrap_or(0.0)
}
