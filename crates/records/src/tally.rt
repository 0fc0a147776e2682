// The running tally: a method for each kind of record, and one for any record.
ghost use Rattle.std.specs.Prelude.{◌≡◌, Bool, [], ◌∷◌, ◌+◌, ◌*◌, ◌≤◌, length, ltb};
ghost use Rattle.std.proofs.lemmas.List.Edits.{sets};
ghost use Rattle.places.specs.Limits.{most_coordinates, most_faces, most_corners};
ghost use Rattle.records.specs.Tally.{why_of, corner_fine, end_fine, vertex_why, corner_why, face_end_why, cell_end_why, query_why, new_of};
ghost use Rattle.records.specs.Tally.{refused_of, vertex_taken, corner_taken, face_end_taken, cell_end_taken, query_taken, fields_of};
ghost use Rattle.records.specs.Tally.{added};
ghost use Rattle.records.specs.Tally.{Sized, Fits};
ghost use Rattle.records.specs.Steps.{Tallied};

use crate::bytes::{Kind, Rec};
use places::refusal::Refusal;

// What is known of the cell so far: its number, how much of it came, whether a face has corners and
// no end yet, why it is refused where it is, and whether any record came.
#[derive(Clone, Copy)]
pub struct Tally {
    pub number: u64,
    pub verts: usize,
    pub corners: usize,
    pub faces: usize,
    pub queries: usize,
    pub loose: bool,
    pub refusal: Option<Refusal>,
    pub begun: bool,
}

// A bad record comes before no room, here and nowhere else.
fn why(fine: bool, n: usize, most: usize) -> Result<(), Refusal>
    ensures { result ≡ why_of fine (ltb n most) }
{
    if !fine {
        return Err(Refusal::Record);
    }
    if n < most { Ok(()) } else { Err(Refusal::Size) }
}

#[tactic(auto, unfolding(crate::specs::Tally::corner_fine))]
fn corner_fine(r: Rec) -> bool
    ensures { result ≡ corner_fine r }
{
    r.clear && r.b == 0 && r.c == 0 && r.a < 4294967296
}

#[tactic(auto, unfolding(crate::specs::Tally::end_fine))]
fn end_fine(r: Rec) -> bool
    ensures { result ≡ end_fine r }
{
    r.clear && r.a == 0 && r.b == 0 && r.c == 0
}

// Stores the three fields as numbers.
fn put_point(list: &mut [f64], at: usize, r: Rec)
    requires { at + 3 ≤ length list.old }
    ensures { list.new ≡ sets list.old at (fields_of r) }
{
    list[at] = floats::of_pattern(r.a);
    list[at + 1] = floats::of_pattern(r.b);
    list[at + 2] = floats::of_pattern(r.c);
}

impl Tally {
    // Before the first record of cell n.
    pub fn new(n: u64) -> Tally
        ensures { result ≡ new_of n }
    {
        Tally {
            number: n,
            verts: 0,
            corners: 0,
            faces: 0,
            queries: 0,
            loose: false,
            refusal: None,
            begun: false,
        }
    }

    // The cell is refused.
    pub fn refused(self, why: Refusal) -> Tally
        ensures { result ≡ refused_of self why }
    {
        Tally {
            refusal: Some(why),
            begun: true,
            ..self
        }
    }

    // Kind 1.
    pub fn vertex(self, r: Rec, coords: &mut [f64]) -> Tally
        requires { most_coordinates ≤ length coords.old }
        ensures value { result ≡ vertex_taken self r }
        ensures coords_value { coords.new ≡ sets coords.old (self.verts * 3) (added (vertex_why self r) (fields_of r)) }
    {
        match why(r.clear, self.verts, places::limits::MOST_VERTICES) {
            Ok(()) => {
                put_point(coords, self.verts * 3, r);
                Tally {
                    verts: self.verts + 1,
                    begun: true,
                    ..self
                }
            }
            Err(refusal) => self.refused(refusal),
        }
    }

    // Kind 2.
    pub fn corner(self, r: Rec, corners: &mut [u32]) -> Tally
        requires { most_corners ≤ length corners.old }
        ensures value { result ≡ corner_taken self r }
        ensures corners_value { corners.new ≡ sets corners.old self.corners (added (corner_why self r) (r.a ∷ [])) }
    {
        match why(corner_fine(r), self.corners, places::limits::MOST_CORNERS) {
            Ok(()) => {
                corners[self.corners] = r.a as u32;
                Tally {
                    corners: self.corners + 1,
                    loose: true,
                    begun: true,
                    ..self
                }
            }
            Err(refusal) => self.refused(refusal),
        }
    }

    // Kind 3.
    pub fn face_end(self, r: Rec, ends: &mut [u32]) -> Tally
        requires { (most_faces ≤ length ends.old) × (self.corners ≤ most_corners) }
        ensures value { result ≡ face_end_taken self r }
        ensures ends_value { ends.new ≡ sets ends.old self.faces (added (face_end_why self r) (self.corners ∷ [])) }
    {
        match why(end_fine(r), self.faces, places::limits::MOST_FACES) {
            Ok(()) => {
                ends[self.faces] = self.corners as u32;
                Tally {
                    faces: self.faces + 1,
                    loose: false,
                    begun: true,
                    ..self
                }
            }
            Err(refusal) => self.refused(refusal),
        }
    }

    // Kind 4, before the cell's line.
    #[tactic(auto, unfolding(crate::specs::Tally::cell_end_taken, crate::specs::Tally::why_of))]
    pub fn cell_end(self, r: Rec) -> Tally
        ensures { result ≡ cell_end_taken self r }
    {
        if !end_fine(r) || self.loose {
            return self.refused(Refusal::Record);
        }
        Tally {
            begun: true,
            ..self
        }
    }

    // Kind 5. Beside `vertex`: one function for both would take the list and the count of its field as a closure, and is no plainer.
    pub fn query(self, r: Rec, queries: &mut [f64]) -> Tally
        requires { most_coordinates ≤ length queries.old }
        ensures value { result ≡ query_taken self r }
        ensures queries_value { queries.new ≡ sets queries.old (self.queries * 3) (added (query_why self r) (fields_of r)) }
    {
        match why(r.clear, self.queries, places::limits::MOST_QUERIES) {
            Ok(()) => {
                put_point(queries, self.queries * 3, r);
                Tally {
                    queries: self.queries + 1,
                    begun: true,
                    ..self
                }
            }
            Err(refusal) => self.refused(refusal),
        }
    }

    // Any record. The first refusal stands: what follows it in the cell is skipped.
    pub fn take(
        self,
        r: Rec,
        coords: &mut [f64],
        corners: &mut [u32],
        ends: &mut [u32],
        queries: &mut [f64],
    ) -> Tally
        requires sized { Sized coords.old corners.old ends.old queries.old }
        requires fits { Fits self }
        ensures { Tallied self r coords.old corners.old ends.old queries.old
            result coords.new corners.new ends.new queries.new }
    {
        if self.refusal.is_some() {
            return self;
        }
        match r.kind {
            Some(Kind::Vertex) => self.vertex(r, coords),
            Some(Kind::Corner) => self.corner(r, corners),
            Some(Kind::FaceEnd) => self.face_end(r, ends),
            Some(Kind::CellEnd) => self.cell_end(r),
            Some(Kind::Query) => self.query(r, queries),
            None => self.refused(Refusal::Record),
        }
    }
}
