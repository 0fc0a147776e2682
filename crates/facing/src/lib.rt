// Which faces of a cell are to be reversed so that it becomes closed, and their reversal. From the lowest face of a group on,
// each face asks its neighbours, the faces with which it shares a side: one that was not reached before is turned against it,
// and waits in a list.
#![tactic(auto)]

ghost use Rattle.std.specs.Prelude.{◌≡◌, ◌≢◌, Bool, true, false, [], ◌∷◌, ℕ, ◌+◌, ◌*◌, ◌<◌, ◌≤◌, T, eqb, length, get_or};
ghost use Rattle.places.specs.Limits.{most_vertices, most_faces, most_corners};
ghost use Rattle.places.specs.Lists.{Each};
ghost use Rattle.places.specs.Ring.{sides};
ghost use Rattle.places.specs.Stored.{joined};
ghost use Rattle.places.specs.Loops.{one_if};
ghost use Rattle.places.specs.Steps.{Blank};
ghost use Rattle.exact.specs.Facing.{face_by, reversed_by, how_many, Made};
ghost use Rattle.cell.specs.Faces.{faces_of, rises};
ghost use Rattle.side_table.specs.Numbers.{Known, Numbered, entry_of};
ghost use Rattle.shared_sides.specs.Steps.{face_of, runs_up, first_at, second_at, Mates};
ghost use Rattle.facing.specs.Refused.{reversal_refusal};
ghost use Rattle.facing.specs.Steps.{code_choice, Ground, neighbour_of, up_of, against_of, Met, Spread, Waiting, Seeded, Whole, clash};
ghost use Rattle.facing.specs.Steps.{clash_face, clash_faces, Marked, Chosen};

use places::refusal::Refusal;
use shared_sides::SideTable;

// A cell with the table that has the two marks of each of its sides.
#[derive(Clone, Copy)]
struct Paired<'a> {
    sides: SideTable<'a>,
    corners: &'a [u32],
    ends: &'a [u32],
    ghost ground: { Ground sides.number.now sides.k sides.table.now corners.now ends.now },
}

// How far the faces are reached: all before `low`, and those in the list before `tail`;
// of these, those before `head` have asked their neighbours. The list is lent with its length beside it, since this crate has no heap.
// It and the codes are no part of a struct with ghost fields: they are written to, and no ghost field stands beside a `&mut`.
#[derive(Drop)]
struct Reached {
    low: usize,
    head: usize,
    tail: usize,
}

// The mark of the face on the other side of f's side from a to b; 0 where a is b.
#[tactic(auto, unfolding(crate::specs::Steps::neighbour_of))]
fn neighbour(sides: &SideTable, a: usize, b: usize, f: usize) -> u16
    requires known { Known sides.now.number.now sides.now.k a × Known sides.now.number.now sides.now.k b }
    requires marked { a ≢ b → 0 < first_at (entry_of sides.now.number.now sides.now.k) sides.now.table.now a b }
    ensures { result ≡ neighbour_of (entry_of sides.now.number.now sides.now.k) sides.now.table.now a b f }
{
    if a == b {
        return 0;
    }
    let m = sides.first_mark(a, b);
    if shared_sides::face_of(m) != f {
        return m;
    }
    sides.second_mark(a, b)
}

// Whether a face with the code w, as it is turned, runs its side from a to b from the lower vertex to the higher.
fn runs_up(a: usize, b: usize, w: u8) -> bool
    ensures { result ≡ up_of a b w }
{
    if w == 2 { b < a } else { a < b }
}

// The code that turns the face of the mark m against a neighbour that runs the side up, or down.
fn against(m: u16, up: bool) -> u8
    ensures { result ≡ against_of m up }
{
    if shared_sides::is_down(m) == up { 1 } else { 2 }
}

// The neighbour at a side is asked: one that was not reached before is turned against the asking face, which runs the side
// up or not, and comes into the list.
fn meet(code: &mut [u8], list: &mut [u8], tail: usize, m: u16, up: bool) -> usize
    requires m_in_bounds { (0 < m → face_of m < length code.old) × (length code.old ≤ most_faces) }
    requires tail_in_bounds { (0 < m → get_or code.old (face_of m) 0 ≡ 0 → tail < length list.old) × (length list.old ≤ most_faces) }
    ensures { Met code.old list.old tail m up code.new list.new result }
{
    if m == 0 {
        return tail;
    }
    let g = shared_sides::face_of(m);
    if code[g] != 0 {
        return tail;
    }
    code[g] = against(m, up);
    list[tail] = g as u8;
    tail + 1
}

// The first face from `from` on that is not reached.
fn next_unreached(code: &[u8], from: usize) -> usize
    requires { ((f : ℕ) → f < from → 0 < get_or code.now f 0) × (from ≤ length code.now) }
    ensures { ((f : ℕ) → f < result → 0 < get_or code.now f 0)
        × (result < length code.now → get_or code.now result 0 ≡ 0) × (result ≤ length code.now) }
{
    let n = code.len();
    for f in from..n {
        if code[f] == 0 {
            return f;
        }
    }
    n
}

// Where all faces in the list have asked, the lowest that is not reached keeps its direction and comes into the list.
fn seed(code: &mut [u8], list: &mut [u8], at: Reached) -> Reached
    requires { Waiting code.old list.old at.low at.head at.tail }
    ensures { Seeded code.old list.old at.low at.head at.tail code.new list.new
        result.low result.head result.tail }
{
    let head = at.head;
    let tail = at.tail;
    if head < tail {
        return at;
    }
    let low = next_unreached(code, at.low);
    code[low] = 1;
    list[tail] = low as u8;
    Reached {
        low,
        head,
        tail: tail + 1,
    }
}

// Whether the face that left a mark, as its code turns it, runs the side up.
fn mark_runs_up(code: &[u8], m: u16) -> bool
    requires { (0 < m) × (face_of m < length code.now) }
    ensures { result ≡ runs_up (code_choice code.now (face_of m)) m }
{
    let f = shared_sides::face_of(m);
    (code[f] == 2) == shared_sides::is_down(m)
}

// Whether both faces at the side from a to b, where these differ, run it the same way.
#[tactic(auto, unfolding(crate::specs::Steps::clash))]
fn clash_side(sides: &SideTable, code: &[u8], a: usize, b: usize) -> bool
    requires known { Known sides.now.number.now sides.now.k a × Known sides.now.number.now sides.now.k b }
    requires marked { Marked (entry_of sides.now.number.now sides.now.k) sides.now.table.now (length code.now) (a, b) }
    ensures { result ≡ clash (entry_of sides.now.number.now sides.now.k) sides.now.table.now code.now (a, b) }
{
    if a == b {
        return false;
    }
    let first = mark_runs_up(code, sides.first_mark(a, b));
    let second = mark_runs_up(code, sides.second_mark(a, b));
    first == second
}

impl<'a> Paired<'a> {
    // The first face in the list that has not asked asks its neighbours.
    fn ask(&self, code: &mut [u8], list: &mut [u8], at: Reached) -> Reached
        requires spread { Spread (faces_of self.now.corners.now self.now.ends.now) code.old list.old at.low at.head at.tail
            × (at.head < at.tail) }
        ensures { Spread (faces_of self.now.corners.now self.now.ends.now) code.new list.new result.low result.head
            result.tail × (result.head ≡ at.head + 1) }
    {
        let f = list[at.head] as usize;
        let face = cell::face_by_number(self.corners, self.ends, f);
        let w = code[f];
        let n = face.len();
        let mut tail = at.tail;
        for i in 0..n {
            let a = places::corner(face, i);
            let b = places::corner(face, places::next(i, n));
            let m = neighbour(&self.sides, a, b, f);
            tail = meet(code, list, tail, m, runs_up(a, b, w));
        }
        Reached {
            head: at.head + 1,
            tail,
            ..at
        }
    }

    // One more face asks its neighbours.
    fn step(&self, code: &mut [u8], list: &mut [u8], at: Reached) -> Reached
        requires spread { Spread (faces_of self.now.corners.now self.now.ends.now) code.old list.old at.low at.head at.tail
            × (at.head < length self.now.ends.now) }
        ensures { Spread (faces_of self.now.corners.now self.now.ends.now) code.new list.new result.low result.head
            result.tail × (result.head ≡ at.head + 1) }
    {
        let ready = seed(code, list, at);
        self.ask(code, list, ready)
    }

    // Every face is reached, by way of a list with room for each.
    fn reach_over(&self, code: &mut [u8], list: &mut [u8])
        requires blank { Blank code.old × (length code.old ≡ length self.now.ends.now) × (length list.old ≡ length self.now.ends.now) }
        ensures { Whole (faces_of self.now.corners.now self.now.ends.now) code.new }
    {
        let mut at = Reached {
            low: 0,
            head: 0,
            tail: 0,
        };
        while at.head < self.ends.len() {
            at = self.step(code, list, at);
        }
    }

    // The same with a list of its own.
    fn reach(&self, code: &mut [u8])
        requires blank { Blank code.old × (length code.old ≡ length self.now.ends.now) }
        ensures { Whole (faces_of self.now.corners.now self.now.ends.now) code.new }
    {
        let n = self.ends.len();
        let mut list = [0u8; places::limits::MOST_FACES];
        self.reach_over(code, &mut list[..n]);
    }

    // Whether both faces at a side of the face f run it the same way.
    fn clash_face(&self, code: &[u8], f: usize) -> bool
        requires code_len { (length code.now ≡ length self.now.ends.now) × (f < length self.now.ends.now) }
        ensures { result ≡ clash_face (entry_of self.now.sides.number.now self.now.sides.k) self.now.sides.table.now code.now
            (get_or (faces_of self.now.corners.now self.now.ends.now) f []) }
    {
        let face = cell::face_by_number(self.corners, self.ends, f);
        let n = face.len();
        for i in 0..n {
            let a = places::corner(face, i);
            let b = places::corner(face, places::next(i, n));
            if clash_side(&self.sides, code, a, b) {
                return true;
            }
        }
        false
    }

    // Whether that is so of a side of any face.
    fn clash_faces(&self, code: &[u8]) -> bool
        requires code_len { length code.now ≡ length self.now.ends.now }
        ensures { result ≡ clash_faces (entry_of self.now.sides.number.now self.now.sides.k) self.now.sides.table.now code.now
            (faces_of self.now.corners.now self.now.ends.now) }
    {
        for f in 0..self.ends.len() {
            if self.clash_face(code, f) {
                return true;
            }
        }
        false
    }
}

// A face in place, reversed where its code is 2; how many were: 1 or 0.
fn reverse_by_code(face: &mut [u32], w: u8) -> usize
    ensures turned { face.new ≡ face_by (eqb w 2) face.old }
    ensures count { result ≡ one_if (eqb w 2) }
{
    if w != 2 {
        return 0;
    }
    places::reverse_corners(face);
    1
}

// The faces by their codes, each in its own stretch of the corner list. What comes back is how many are reversed.
// Ruled out: the whole corner list reversed, which lays each face in another's stretch; a count of all faces.
pub fn reverse_faces(corners: &mut [u32], ends: &[u32], code: &[u8]) -> usize
    requires t { T (rises 0 ends.now (length corners.old)) × (length corners.old ≤ most_corners) }
    requires code_len { (length code.now ≡ length ends.now) × (length ends.now ≤ most_faces) }
    ensures list { corners.new ≡ joined (reversed_by (code_choice code.now)
        (faces_of corners.old ends.now)) }
    ensures count { result ≡ how_many (code_choice code.now) (length ends.now) }
{
    let mut count = 0;
    let mut start = 0;
    for (f, &end) in ends.iter().enumerate() {
        let end = end as usize;
        count += reverse_by_code(&mut corners[start..end], code[f]);
        start = end;
    }
    count
}

// Whether some faces may be reversed, or why none are, by way of a table of zeros with room for k rows and k columns;
// where some may be the codes are the choice.
fn choose_over<'a>(
    table: &mut [u16],
    number: &'a [u16],
    k: usize,
    corners: &'a [u32],
    ends: &'a [u32],
    code: &mut [u8],
) -> Result<(), Refusal>
    requires numbered { Numbered number.now k corners.now ends.now × (length ends.now ≤ most_faces) }
    requires k_in_bounds { (k * k ≤ length table.old) × Blank table.old × Blank code.old × (length code.old ≡ length ends.now) }
    ensures { Chosen (faces_of corners.now ends.now) code.new result }
{
    if !shared_sides::pair_up(table, number, k, corners, ends) {
        return Err(Refusal::Sides);
    }
    let sides = SideTable { table, number, k };
    let cell = Paired {
        sides,
        corners,
        ends,
    };
    cell.reach(code);
    if cell.clash_faces(code) {
        return Err(Refusal::Choice);
    }
    Ok(())
}

// The same with a table of its own, of SIDE rows and columns: what is cleared is not much more than what the vertices that occur need.
fn choose_in<const SIDE: usize, const ENTRIES: usize>(
    number: &[u16],
    k: usize,
    corners: &[u32],
    ends: &[u32],
    code: &mut [u8],
) -> Result<(), Refusal>
    requires numbered { Numbered number.now k corners.now ends.now × (length ends.now ≤ most_faces) }
    requires room { (SIDE * SIDE ≡ ENTRIES) × (ENTRIES ≤ most_vertices * most_vertices) }
    requires k_in_bounds { (k ≤ SIDE) × Blank code.old × (length code.old ≡ length ends.now) }
    ensures { Chosen (faces_of corners.now ends.now) code.new result }
{
    let mut table = [0u16; ENTRIES];
    choose_over(&mut table, number, k, corners, ends, code)
}

// Whether some faces of a cell of v vertices may be reversed, or why none are; then the codes are the choice, 2 for each face that it
// reverses.
// Ruled out: 12 for a cell that some choice closes; a choice that reverses the lowest face of a group.
pub fn choose(corners: &[u32], ends: &[u32], v: usize, code: &mut [u8]) -> Result<(), Refusal>
    requires each { Each 0 (λ c. c < v) corners.now × (v ≤ most_vertices) }
    requires corners_len_bound { (length corners.now ≤ most_corners) × T (rises 0 ends.now (length corners.now))
        × (length ends.now ≤ most_faces) }
    requires blank { Blank code.old × (length code.old ≡ length ends.now) }
    ensures { Chosen (faces_of corners.now ends.now) code.new result }
{
    let mut number = [256u16; places::limits::MOST_VERTICES];
    let k = side_table::number_all(&mut number, corners);
    match k {
        ..=16 => choose_in::<16, 256>(&number, k, corners, ends, code),
        ..=32 => choose_in::<32, 1024>(&number, k, corners, ends, code),
        ..=64 => choose_in::<64, 4096>(&number, k, corners, ends, code),
        ..=128 => choose_in::<128, 16384>(&number, k, corners, ends, code),
        _ => choose_in::<256, 65536>(&number, k, corners, ends, code),
    }
}

// Only why: for a caller that reverses nothing.
// Ruled out: 12 before 11; a refusal of a cell that is closed already.
pub fn refusal(corners: &[u32], ends: &[u32], v: usize) -> Result<(), Refusal>
    requires each { Each 0 (λ c. c < v) corners.now × (v ≤ most_vertices) }
    requires corners_len_bound { (length corners.now ≤ most_corners) × T (rises 0 ends.now (length corners.now))
        × (length ends.now ≤ most_faces) }
    ensures { result ≡ reversal_refusal (faces_of corners.now ends.now) }
{
    let n = ends.len();
    let mut code = [0u8; places::limits::MOST_FACES];
    choose(corners, ends, v, &mut code[..n])
}
