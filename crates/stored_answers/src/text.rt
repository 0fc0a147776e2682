// Reading the stored text.
ghost use Rattle.std.specs.Prelude.{◌≤◌, ◌<◌, length, IfSome};

// The first place from `from` on that holds the byte, or the end.
pub fn until(s: &[u8], from: usize, byte: u8) -> usize
    requires { from ≤ length s.now }
    ensures { (from ≤ result) × (result ≤ length s.now) }
{
    match s[from..].iter().position(|b| *b == byte) {
        Some(k) => from + k,
        None => s.len(),
    }
}

// The value of a hex digit; none for any other byte.
fn digit(b: u8) -> Option<u64>
    ensures { IfSome result (λ d. d < 16) }
{
    match b {
        b'0'..=b'9' => Some(u64::from(b - b'0')),
        b'A'..=b'F' => Some(u64::from(b - b'A') + 10),
        _ => None,
    }
}

// The word with these digits; a digit too many pushes the first one out.
fn word(digits: &[u8]) -> u64 {
    digits
        .iter()
        .filter_map(|b| digit(*b))
        .fold(0, |w, d| w << 4 | d)
}

// Reads a line's words, which are the runs of hex digits, into a list, and returns how many; words past the list's end are left out.
pub fn read(line: &[u8], out: &mut [u64]) -> usize
    ensures { result ≤ length out.old }
{
    let mut words = line
        .split(|b| digit(*b).is_none())
        .filter(|run| !run.is_empty());
    let mut count = 0;
    for (place, run) in out.iter_mut().zip(words) {
        *place = word(run);
        count += 1;
    }
    count
}
