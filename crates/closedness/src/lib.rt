// Whether the faces of a cell are closed: whether each side is run as often one way as the other.
// The sides that have the same lower end are linked in a chain, and a tally is kept along each chain: time and room go by the corners.
#![tactic(auto)]

ghost use Rattle.std.specs.Prelude.{◌≡◌, List, ℕ, ◌+◌, ◌<◌, ◌≤◌, T, length, get_or, set};
ghost use Rattle.places.specs.Limits.{most_vertices, most_corners};
ghost use Rattle.places.specs.Lists.{Each};
ghost use Rattle.exact.specs.Sides.{closed_of};
ghost use Rattle.cell.specs.Faces.{faces_of, rises};
ghost use Rattle.closedness.specs.Steps.{code_of, opposite_of, Chain, Lists, Gains, push, push_face, push_faces};
ghost use Rattle.closedness.specs.Steps.{gap_of, Room, Raised, Tallied, Even};

// What stands for a side in the chain of its lower end: the other end, and 256 more where it runs down, to the lower end.
fn code(a: usize, b: usize) -> u16
    requires { (a < most_vertices) × (b < most_vertices) }
    ensures { (result ≡ code_of a b) × (result < 512) }
{
    if a < b { b as u16 } else { a as u16 + 256 }
}

// The code of the same side run the other way.
fn opposite(c: usize) -> usize
    requires { c < 512 }
    ensures { (result ≡ opposite_of c) × (result < 512) }
{
    if c < 256 { c + 256 } else { c - 256 }
}

// One more side with the code c. The gap, by which the tally has more sides one way than the other, comes back as it is then.
#[tactic(auto, using(crate::proofs::Gap::gap_narrows, crate::proofs::Gap::gap_widens))]
fn raise(tally: &mut [u32], c: usize, gap: usize) -> usize
    requires tally_len { (length tally.old ≡ 512) × (c < 512) × (get_or tally.old c 0 < 4294967295) }
    requires gap_value { (gap ≡ gap_of tally.old) × (gap < 4294967295) }
    ensures { (tally.new ≡ set tally.old c (get_or tally.old c 0 + 1)) × (result ≡ gap_of tally.new) × (result ≤ gap + 1) }
{
    let x = tally[c];
    let y = tally[opposite(c)];
    tally[c] = x + 1;
    if x < y { gap - 1 } else { gap + 1 }
}

// The sides of a cell, linked in chains: a chain for each vertex, of the sides that have it as their lower end. A link is 0 where the chain
// ends, and else 1 more than the place of a side, which has the next link of its chain and its code.
// Places stand for links, since there is no heap; nothing copies the arrays.
#[derive(Drop)]
struct Chains<const N: usize> {
    head: [u16; places::limits::MOST_VERTICES],
    next: [u16; N],
    other: [u16; N],
    // How many sides were taken in, and so the place of the next.
    len: usize,
    ghost few: { (N ≤ most_corners) × (len ≤ N) },
    // No chain holds a side that was not taken in, each goes on at an earlier side, and what stands for a side is a code.
    ghost first: { (m : ℕ) → get_or head m 0 ≤ len },
    ghost back: { (p : ℕ) → get_or next p 0 ≤ p },
    ghost codes: { (p : ℕ) → get_or other p 0 < 512 },
}

impl<const N: usize> Chains<N> {
    // The side from a to b becomes the first of the chain of its lower end. One that runs from a vertex to itself is in no chain.
    fn link_side(&mut self, a: usize, b: usize)
        requires room { self.old.len < N }
        requires a_lt_most_vertices { (a < most_vertices) × (b < most_vertices) }
        ensures taken { self.new.len ≡ self.old.len + 1 }
        ensures gains { Gains (Lists self.old.head self.old.next self.old.other) (Lists self.new.head self.new.next self.new.other)
            (push a b) }
    {
        let s = self.len;
        self.len = s + 1;
        if a == b {
            return;
        }
        let m = a.min(b);
        self.other[s] = code(a, b);
        self.next[s] = self.head[m];
        self.head[m] = (s + 1) as u16;
    }

    // The sides of a face.
    fn link_face(&mut self, face: &[u32])
        requires room { self.old.len + length face.now ≤ N }
        requires each { Each 0 (λ c. c < most_vertices) face.now }
        ensures taken { self.new.len ≡ self.old.len + length face.now }
        ensures gains { Gains (Lists self.old.head self.old.next self.old.other) (Lists self.new.head self.new.next self.new.other)
            (push_face face.now) }
    {
        let n = face.len();
        for i in 0..n {
            let a = places::corner(face, i);
            let b = places::corner(face, places::next(i, n));
            self.link_side(a, b);
        }
    }

    // The sides of all faces.
    fn link_faces(&mut self, corners: &[u32], ends: &[u32])
        requires room { self.old.len + length corners.now ≤ N }
        requires each { Each 0 (λ c. c < most_vertices) corners.now × T (rises 0 ends.now (length corners.now)) }
        ensures { Gains (Lists self.old.head self.old.next self.old.other) (Lists self.new.head self.new.next self.new.other)
            (push_faces (faces_of corners.now ends.now)) }
    {
        let mut start = 0;
        for &end in ends {
            let end = end as usize;
            self.link_face(cell::face(corners, start, end));
            start = end;
        }
    }

    // The sides of the chain that starts at `first`. What comes back is the gap.
    fn tally_chain(&self, tally: &mut [u32], first: usize) -> usize
        requires first_within { first ≤ N }
        requires room { Room first tally.old × (gap_of tally.old ≡ 0) }
        ensures value { (result ≡ gap_of tally.new) × Raised first tally.old tally.new }
        ensures by_index { (cs : List ℕ) → Chain self.now.next self.now.other first cs → Tallied cs tally.old tally.new }
    {
        let mut h = first;
        let mut gap = 0;
        while h > 0 {
            gap = raise(tally, self.other[h - 1] as usize, gap);
            h = self.next[h - 1] as usize;
        }
        gap
    }

    // Whether the chain of each of v vertices has as many sides up as down to each other vertex. What one chain leaves in the tally is as
    // much one way as the other, so it is not cleared for the next.
    fn is_even(&self, v: usize) -> bool
        requires { v ≤ most_vertices }
        ensures { (l : List (ℕ × ℕ)) → Lists self.now.head self.now.next self.now.other l → Even v l result }
    {
        let mut tally = [0u32; 512];
        for &first in &self.head[..v] {
            if self.tally_chain(&mut tally, first as usize) > 0 {
                return false;
            }
        }
        true
    }
}

// Whether the faces are closed, by way of chains that have room for N sides: what is cleared is not much more than what the corners need.
fn closed_within<const N: usize>(corners: &[u32], ends: &[u32], v: usize) -> bool
    requires each { Each 0 (λ c. c < v) corners.now × (v ≤ most_vertices) × T (rises 0 ends.now (length corners.now)) }
    requires room { (length corners.now ≤ N) × (N ≤ most_corners) }
    ensures { result ≡ closed_of (faces_of corners.now ends.now) }
{
    let mut chains = Chains::<N> {
        head: [0; places::limits::MOST_VERTICES],
        next: [0; N],
        other: [0; N],
        len: 0,
    };
    chains.link_faces(corners, ends);
    chains.is_even(v)
}

// Whether the faces of a cell of v vertices are closed.
pub fn closed(corners: &[u32], ends: &[u32], v: usize) -> bool
    requires each { Each 0 (λ c. c < v) corners.now × (v ≤ most_vertices) }
    requires corners_len_bound { (length corners.now ≤ most_corners) × T (rises 0 ends.now (length corners.now)) }
    ensures { result ≡ closed_of (faces_of corners.now ends.now) }
{
    let n = corners.len();
    if n <= 64 {
        return closed_within::<64>(corners, ends, v);
    }
    if n <= 512 {
        return closed_within::<512>(corners, ends, v);
    }
    closed_within::<{ places::limits::MOST_CORNERS }>(corners, ends, v)
}
