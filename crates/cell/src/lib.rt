// A cell: its faces, and why it is refused. A check takes three lists, as C has them, since nothing is known of them before it.
#![tactic(auto)]

ghost use Rattle.std.specs.Prelude.{◌≡◌, ◌||◌, ℕ, ◌<◌, ◌≤◌, [], ◌∷◌, length, get_or, T};
ghost use Rattle.std.proofs.Math.Seq.{slice};
ghost use Rattle.cell.specs.Faces.{faces_of, rises};
ghost use Rattle.cell.specs.Refusals.{out_of_range, points_refused, size_refused, number_refused, ends_refused, index_refused};
ghost use Rattle.cell.specs.Refusals.{empty_refused, refusal_of};
ghost use Rattle.cell.specs.Steps.{Sound};

use places::refusal::Refusal;

// The lists of a cell past the check, or of a fixed shape, with what is known of them beside: `Sound`, which says nothing of the numbers.
#[derive(Clone, Copy)]
pub struct SoundCell<'a> {
    pub coords: &'a [f64],
    pub corners: &'a [u32],
    pub ends: &'a [u32],
    pub ghost sound: { Sound coords.now corners.now ends.now },
}

// A face is shown as its own stretch of the lent corner list.
pub fn face(corners: &[u32], start: usize, end: usize) -> &[u32]
    requires { (start ≤ end) × (end ≤ length corners.now) }
    ensures { result.now ≡ slice start end corners.now }
{
    &corners[start..end]
}

// Where face k starts: at the end before it, at 0 for the first.
fn start(ends: &[u32], k: usize) -> usize
    requires { k < length ends.now }
    ensures { result ≡ get_or (0 ∷ ends.now) k 0 }
{
    if k == 0 {
        return 0;
    }
    places::corner(ends, k - 1)
}

// The face with the number k.
pub fn face_by_number<'a>(corners: &'a [u32], ends: &[u32], k: usize) -> &'a [u32]
    requires { T (rises 0 ends.now (length corners.now)) × (k < length ends.now) }
    ensures { result.now ≡ get_or (faces_of corners.now ends.now) k [] }
{
    face(corners, start(ends, k), places::corner(ends, k))
}

// The largest magnitude: 2^40.
const LIMIT: f64 = 1099511627776.0;

// A number that is NaN, infinite or above 2^40 in magnitude.
fn out_of_range(x: f64) -> bool
    ensures { result ≡ out_of_range x }
{
    !((x >= -LIMIT) & (x <= LIMIT))
}

// Refusal 1, of points of space: coordinates not in threes, 0 or over 256 vertices.
pub fn points_refused(coords: &[f64]) -> bool
    ensures { result ≡ points_refused coords.now }
{
    let n = coords.len();
    (n % 3 != 0) | (n == 0) | (n > places::limits::MOST_COORDINATES)
}

// Refusal 1: that, or over 256 faces, or over 2,048 corners.
fn size_refused(coords: &[f64], corners: &[u32], ends: &[u32]) -> bool
    ensures { result ≡ size_refused coords.now corners.now ends.now }
{
    let faces = ends.len() > places::limits::MOST_FACES;
    points_refused(coords) | faces | (corners.len() > places::limits::MOST_CORNERS)
}

// Refusal 2. Every number is looked at, without an exit, which is quicker where none is refused.
pub fn number_refused(xs: &[f64]) -> bool
    ensures { result ≡ number_refused xs.now }
{
    let mut refused = false;
    for &x in xs {
        refused |= out_of_range(x);
    }
    refused
}

// Refusal 3: the ends fall, or the last is not the corner count. Every end is looked at, without an exit.
fn ends_refused(corners: &[u32], ends: &[u32]) -> bool
    ensures { result ≡ ends_refused corners.now ends.now }
{
    let mut fall = false;
    let mut start = 0;
    for &end in ends {
        fall |= end < start;
        start = end;
    }
    fall | (start as usize != corners.len())
}

// Refusal 4: one of the numbers is not below n.
// Ruled out: n itself let through; the last number not looked at.
pub fn index_refused(n: usize, cs: &[u32]) -> bool
    requires { n < 4294967296 }
    ensures { result ≡ index_refused n cs.now }
{
    let beyond = n as u32;
    let mut refused = false;
    for &c in cs {
        refused |= c >= beyond;
    }
    refused
}

// Refusal 5: any face of 0 corners, in a cell whose ends are in order.
pub fn empty_refused(corners: &[u32], ends: &[u32]) -> bool
    requires { T (rises 0 ends.now (length corners.now)) }
    ensures { result ≡ empty_refused corners.now ends.now }
{
    let mut start = 0;
    for &end in ends {
        if start == end {
            return true;
        }
        start = end;
    }
    false
}

// Whether a cell passes, or why it is refused. Query values are judged with the coordinates; `asked` are the numbers of faces that are
// asked for.
pub fn refusal(
    coords: &[f64],
    corners: &[u32],
    ends: &[u32],
    query: &[f64],
    asked: &[u32],
) -> Result<(), Refusal>
    ensures { result ≡ refusal_of coords.now corners.now ends.now query.now asked.now }
{
    if size_refused(coords, corners, ends) {
        return Err(Refusal::Size);
    }
    if number_refused(coords) || number_refused(query) {
        return Err(Refusal::Number);
    }
    if ends_refused(corners, ends) {
        return Err(Refusal::Ends);
    }
    if index_refused(coords.len() / 3, corners) || index_refused(ends.len(), asked) {
        return Err(Refusal::Index);
    }
    Ok(())
}
