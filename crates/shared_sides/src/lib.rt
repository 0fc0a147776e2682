// For each side of a cell the two faces that have it. Each face leaves a mark at its sides, in a table with a row and a column
// for each vertex that occurs: at the side between a lower and a higher vertex the first mark stands in the lower one's row,
// the second in the higher one's.
#![tactic(auto)]

ghost use Rattle.std.specs.Prelude.{◌≡◌, Bool, true, false, not, ◌&&◌, cond, [], ◌∷◌, ℕ, ◌+◌, ◌*◌, ◌<◌, ◌≤◌, T, eqb, length, get_or};
ghost use Rattle.places.specs.Limits.{most_vertices, most_faces};
ghost use Rattle.places.specs.Loops.{any_of};
ghost use Rattle.places.specs.Lists.{Each};
ghost use Rattle.places.specs.Ring.{sides};
ghost use Rattle.places.specs.Steps.{Blank, Fresh};
ghost use Rattle.exact.specs.Facing.{doubled, unfit};
ghost use Rattle.cell.specs.Faces.{faces_of, rises};
ghost use Rattle.side_table.specs.Numbers.{Known, Numbered, entry_of};
ghost use Rattle.shared_sides.specs.Steps.{mark_of, face_of, down_of, mark_at, marks_in, marks_from, Left, Ready, first_at, second_at};
ghost use Rattle.shared_sides.specs.Steps.{lonely, lonely_face, lonely_faces, Mates};

// The mark of the face f at a side that it runs up, from the lower vertex to the higher, or down. It is a number, and 0 is none: the table
// has fixed memory for 65,536 of them, and an enum would take twice as much.
fn mark(f: usize, down: bool) -> u16
    requires { f < most_faces }
    ensures { (result ≡ mark_of f down) × (0 < result) }
{
    if down { f as u16 + 257 } else { f as u16 + 1 }
}

// Which face left a mark.
// Ruled out: the mark itself, which is one more; the marks of faces that run down taken for those of faces above 255.
pub fn face_of(m: u16) -> usize
    requires { 0 < m }
    ensures { result ≡ face_of m }
{
    if m < 257 {
        m as usize - 1
    } else {
        m as usize - 257
    }
}

// Whether that face runs the side down, from the higher vertex to the lower.
// Ruled out: yes for every mark; the face with the number 0 read from its mark as one that runs up always.
pub fn is_down(m: u16) -> bool
    ensures { result ≡ down_of m }
{
    m >= 257
}

// One more mark at the side between a lower and a higher vertex; false where there are two already. The table that is written to stays an
// argument beside the numbers: Rattle has no ghost field beside a `&mut`, and what holds of the table holds only between two marks.
fn put(table: &mut [u16], number: &[u16], k: usize, low: usize, high: usize, m: u16) -> bool
    requires ready { Ready number.now k table.old }
    requires known { Known number.now k low × Known number.now k high × (low < high) × (0 < m) }
    ensures { Left (Known number.now k) (entry_of number.now k) table.old
        (λ i j. cond (eqb low i && eqb high j) (m ∷ []) []) table.new result }
{
    let first = side_table::entry(number, k, low, high);
    if table[first] == 0 {
        table[first] = m;
        return true;
    }
    let second = side_table::entry(number, k, high, low);
    if table[second] == 0 {
        table[second] = m;
        return true;
    }
    false
}

// The mark of the face f at its side from a to b; none where a is b.
fn put_side(table: &mut [u16], number: &[u16], k: usize, a: usize, b: usize, f: usize) -> bool
    requires ready { Ready number.now k table.old }
    requires known { Known number.now k a × Known number.now k b × (f < most_faces) }
    ensures { Left (Known number.now k) (entry_of number.now k) table.old
        (λ i j. mark_at i j f (a, b)) table.new result }
{
    if a == b {
        return true;
    }
    if a < b {
        return put(table, number, k, a, b, mark(f, false));
    }
    put(table, number, k, b, a, mark(f, true))
}

// The marks of the face f at all its sides; false as soon as a side would have a third.
fn put_face(table: &mut [u16], number: &[u16], k: usize, face: &[u32], f: usize) -> bool
    requires ready { Ready number.now k table.old }
    requires each { Each 0 (Known number.now k) face.now × (f < most_faces) }
    ensures { Left (Known number.now k) (entry_of number.now k) table.old
        (λ i j. marks_in i j f (sides face.now)) table.new result }
{
    let n = face.len();
    for i in 0..n {
        let a = places::corner(face, i);
        let b = places::corner(face, places::next(i, n));
        if !put_side(table, number, k, a, b, f) {
            return false;
        }
    }
    true
}

// The marks of all faces.
fn put_faces(table: &mut [u16], number: &[u16], k: usize, corners: &[u32], ends: &[u32]) -> bool
    requires ready { Ready number.now k table.old }
    requires numbered { Numbered number.now k corners.now ends.now × (length ends.now ≤ most_faces) }
    ensures { Left (Known number.now k) (entry_of number.now k) table.old
        (λ i j. marks_from i j 0 (faces_of corners.now ends.now)) table.new result }
{
    let mut start = 0;
    for (j, &end) in ends.iter().enumerate() {
        let end = end as usize;
        if !put_face(table, number, k, cell::face(corners, start, end), j) {
            return false;
        }
        start = end;
    }
    true
}

// The table as it is read: the vertices that occur have the numbers below k, and it has a row and a column for each.
#[derive(Clone, Copy)]
pub struct SideTable<'a> {
    pub table: &'a [u16],
    pub number: &'a [u16],
    pub k: usize,
    pub ghost few: { k ≤ most_vertices },
    pub ghost wide: { k * k ≤ length table.now },
}

impl<'a> SideTable<'a> {
    // The mark in the row of one vertex and the column of another.
    fn mark(&self, row: usize, column: usize) -> u16
        requires known { Known self.now.number.now self.now.k row × Known self.now.number.now self.now.k column }
        ensures { result ≡ get_or self.now.table.now (entry_of self.now.number.now self.now.k row column) 0 }
    {
        self.table[side_table::entry(self.number, self.k, row, column)]
    }

    // The two marks at the side between a and b.
    // Ruled out: the same mark twice; the second of a side whose first vertex is the higher taken for the first.
    #[tactic(auto, using(crate::proofs::Rows::first_row, crate::proofs::Rows::lower_known, crate::proofs::Rows::higher_known))]
    pub fn first_mark(&self, a: usize, b: usize) -> u16
        requires known { Known self.now.number.now self.now.k a × Known self.now.number.now self.now.k b }
        ensures { result ≡ first_at (entry_of self.now.number.now self.now.k) self.now.table.now a b }
    {
        self.mark(a.min(b), a.max(b))
    }

    #[tactic(auto, using(crate::proofs::Rows::second_row, crate::proofs::Rows::lower_known, crate::proofs::Rows::higher_known))]
    pub fn second_mark(&self, a: usize, b: usize) -> u16
        requires known { Known self.now.number.now self.now.k a × Known self.now.number.now self.now.k b }
        ensures { result ≡ second_at (entry_of self.now.number.now self.now.k) self.now.table.now a b }
    {
        self.mark(a.max(b), a.min(b))
    }

    // Whether the side from a to b, where these differ, has no second mark.
    #[tactic(auto, unfolding(crate::specs::Steps::lonely))]
    fn lonely_side(&self, a: usize, b: usize) -> bool
        requires known { Known self.now.number.now self.now.k a × Known self.now.number.now self.now.k b }
        ensures { result ≡ lonely (entry_of self.now.number.now self.now.k) self.now.table.now (a, b) }
    {
        a != b && self.second_mark(a, b) == 0
    }

    // Whether that is so of a side of a face.
    fn lonely_face(&self, face: &[u32]) -> bool
        requires { Each 0 (Known self.now.number.now self.now.k) face.now }
        ensures { result ≡ lonely_face (entry_of self.now.number.now self.now.k) self.now.table.now face.now }
    {
        let n = face.len();
        for i in 0..n {
            let a = places::corner(face, i);
            let b = places::corner(face, places::next(i, n));
            if self.lonely_side(a, b) {
                return true;
            }
        }
        false
    }

    // Whether that is so of a side of any face.
    fn lonely_faces(&self, corners: &[u32], ends: &[u32]) -> bool
        requires numbered { Numbered self.now.number.now self.now.k corners.now ends.now }
        ensures { result ≡ lonely_faces (entry_of self.now.number.now self.now.k) self.now.table.now
            (faces_of corners.now ends.now) }
    {
        let mut start = 0;
        for &end in ends {
            let end = end as usize;
            if self.lonely_face(cell::face(corners, start, end)) {
                return true;
            }
            start = end;
        }
        false
    }
}

// Stamps the corners of a face with a number of its own; true as soon as a corner has that stamp already.
fn doubled_face(stamp: &mut [u16], face: &[u32], own: u16) -> bool
    requires each { Each 0 (λ x. x < most_vertices) face.now }
    requires stamp_len { (length stamp.old ≡ most_vertices) × Fresh own stamp.old }
    ensures { (result ≡ doubled face.now) × Fresh (own + 1) stamp.new }
{
    for &x in face {
        let x = x as usize;
        if stamp[x] == own {
            return true;
        }
        stamp[x] = own;
    }
    false
}

// Whether a face holds a vertex twice.
fn doubled_faces(stamp: &mut [u16], corners: &[u32], ends: &[u32]) -> bool
    requires each { Each 0 (λ x. x < most_vertices) corners.now × T (rises 0 ends.now (length corners.now))
        × (length ends.now ≤ most_faces) }
    requires stamp_len { (length stamp.old ≡ most_vertices) × Blank stamp.old }
    ensures { result ≡ any_of doubled (faces_of corners.now ends.now) }
{
    let mut start = 0;
    for (j, &end) in ends.iter().enumerate() {
        let end = end as usize;
        if doubled_face(stamp, cell::face(corners, start, end), j as u16 + 1) {
            return true;
        }
        start = end;
    }
    false
}

// The same with stamps of its own.
fn any_doubled(corners: &[u32], ends: &[u32]) -> bool
    requires { Each 0 (λ x. x < most_vertices) corners.now × T (rises 0 ends.now (length corners.now))
        × (length ends.now ≤ most_faces) }
    ensures { result ≡ any_of doubled (faces_of corners.now ends.now) }
{
    let mut stamp = [0u16; places::limits::MOST_VERTICES];
    doubled_faces(&mut stamp, corners, ends)
}

// Whether both conditions hold, on sides and on doubled vertices; then the table has the two marks of each side.
// Ruled out: yes for a side that occurs once; a table in which the marks of one face are missing.
pub fn pair_up(table: &mut [u16], number: &[u16], k: usize, corners: &[u32], ends: &[u32]) -> bool
    requires numbered { Numbered number.now k corners.now ends.now × (length ends.now ≤ most_faces) }
    requires k_in_bounds { (k * k ≤ length table.old) × Blank table.old }
    ensures value { result ≡ not (unfit (faces_of corners.now ends.now)) }
    ensures mates { result ≡ true → Mates (Known number.now k) (entry_of number.now k) table.new
        (faces_of corners.now ends.now) }
{
    if !put_faces(table, number, k, corners, ends) {
        return false;
    }
    let sides = SideTable { table, number, k };
    if sides.lonely_faces(corners, ends) {
        return false;
    }
    !any_doubled(corners, ends)
}
