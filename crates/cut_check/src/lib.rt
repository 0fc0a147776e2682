// Whether triangles are a cut of a face of n corners, which are its places 0 to n - 1.
// The face is taken backward beside the triangles: then each side that occurs, the face's own among them, must occur once each way.
// The corners at the same place are linked in a chain, and stamps are written and taken off along each chain: time and room go by the
// corners.
#![tactic(auto)]

ghost use Rattle.std.specs.Prelude.{◌≡◌, ◌↔◌, true, List, [], ◌∷◌, map, ℕ, ◌+◌, ◌*◌, ◌<◌, ◌≤◌, ◌%◌, length, get_or};
ghost use Rattle.places.specs.Lists.{Each};
ghost use Rattle.places.specs.Limits.{most_checked_corners, most_checked_triangles};
ghost use Rattle.places.specs.Loops.{any_of};
ghost use Rattle.places.specs.Stored.{in_threes};
ghost use Rattle.places.specs.Steps.{Blank, Fresh};
ghost use Rattle.exact.specs.Facing.{doubled};
ghost use Rattle.cut_check.specs.CutCheck.{not_different, is_cut_of};
ghost use Rattle.cut_check.specs.Steps.{Paired, PairedAt, after_of, before_of, place_after, place_before, corners_at, CheckedCorners};
ghost use Rattle.cut_check.specs.Steps.{Chain, Lists, Linked, set_all, Took};

// The corner after s in its triangle, and the one before it.
fn corner_after(s: usize) -> usize
    requires { s < 3 * most_checked_triangles }
    ensures { result ≡ after_of s }
{
    if s % 3 == 2 { s - 2 } else { s + 1 }
}

fn corner_before(s: usize) -> usize
    requires { s < 3 * most_checked_triangles }
    ensures { result ≡ before_of s }
{
    if s % 3 == 0 { s + 2 } else { s - 1 }
}

// Whether two of three places are the same.
#[tactic(auto, using(crate::proofs::Same::doubled_three))]
fn two_same(a: u32, b: u32, c: u32) -> bool
    ensures { result ≡ doubled (a ∷ b ∷ c ∷ []) }
{
    a == b || a == c || b == c
}

// Whether any triangle has a place twice.
fn any_same(corners: &[u32]) -> bool
    ensures { result ≡ any_of not_different (in_threes corners.now) }
{
    corners.chunks_exact(3).any(|t| two_same(t[0], t[1], t[2]))
}

// The corners of triangles beside a face of n corners, linked in chains: a chain for each place, of the corners at that place. A link is 0
// where the chain ends, and else 1 more than the number of a corner, which has the next link of its chain.
// Places stand for links, since there is no heap; the lists are lent, so that no array is copied.
#[derive(Clone, Copy)]
struct Chains<'a> {
    n: usize,
    corners: &'a [u32],
    head: &'a [u16],
    next: &'a [u16],
    ghost places: { (n ≤ length head.now) × (n ≤ most_checked_corners) },
    ghost room: { (length corners.now ≤ length next.now) × (length corners.now ≤ 3 * most_checked_triangles) },
    ghost threes: { length corners.now % 3 ≡ 0 },
    ghost below: { (s : ℕ) → s < length corners.now → get_or corners.now s 0 < n },
    // Each chain goes on at an earlier corner.
    ghost back: { (p : ℕ) → get_or next.now p 0 ≤ p },
}

impl Chains<'_> {
    // What stands at the corner after s in its triangle, and at the one before it.
    fn place_after(&self, s: usize) -> usize
        requires { s < length self.now.corners.now }
        ensures { result ≡ place_after self.now.corners.now s }
    {
        places::corner(self.corners, corner_after(s))
    }

    fn place_before(&self, s: usize) -> usize
        requires { s < length self.now.corners.now }
        ensures { result ≡ place_before self.now.corners.now s }
    {
        places::corner(self.corners, corner_before(s))
    }

    // Writes the stamp `own` at each place from which a side comes to the place whose corners the chain holds.
    fn stamp_before(&self, stamp: &mut [u16], first: usize, own: u16)
        requires stamp_len { length stamp.old ≡ self.now.n }
        requires first_within { first ≤ length self.now.corners.now }
        ensures { (ps : List ℕ) → Chain self.now.next.now first ps
            → stamp.new ≡ set_all own (map (place_before self.now.corners.now) ps) stamp.old }
    {
        let mut h = first;
        while h > 0 {
            let b = self.place_before(h - 1);
            stamp[b] = own;
            h = self.next[h - 1] as usize;
        }
    }

    // Whether the sides that leave the place whose corners the chain holds go to places that have the stamp `own`, each to another: a stamp
    // that is used is taken off.
    fn take_after(&self, stamp: &mut [u16], first: usize, own: u16) -> bool
        requires stamp_len { length stamp.old ≡ self.now.n }
        requires first_within { first ≤ length self.now.corners.now }
        ensures { (ps : List ℕ) → Chain self.now.next.now first ps
            → Took own (map (place_after self.now.corners.now) ps) stamp.old stamp.new result }
    {
        let mut h = first;
        while h > 0 {
            let b = self.place_after(h - 1);
            if stamp[b] != own {
                return false;
            }
            stamp[b] = 0;
            h = self.next[h - 1] as usize;
        }
        true
    }

    // Whether at the place a, whose chain starts at `first`, each side that leaves goes to another place, from which one comes back. The
    // face, backward, comes from the place after a and goes to the one before it.
    fn paired_at(&self, stamp: &mut [u16], first: usize, a: usize) -> bool
        requires chain { Chain self.now.next.now first (corners_at a self.now.corners.now (length self.now.corners.now)) }
        requires stamp_len { (a < self.now.n) × (length stamp.old ≡ self.now.n) × Fresh (a + 1) stamp.old }
        ensures variant { (result ≡ true) ↔ PairedAt self.now.n (in_threes self.now.corners.now) a }
        ensures fresh { result ≡ true → Fresh (a + 1 + 1) stamp.new }
    {
        let own = (a + 1) as u16;
        self.stamp_before(stamp, first, own);
        stamp[places::next(a, self.n)] = own;
        if !self.take_after(stamp, first, own) {
            return false;
        }
        stamp[places::prev(a, self.n)] == own
    }

    // Whether at each place every side that leaves goes to another place, from which one comes back. The stamps that a place leaves need no
    // clearing, since each place has one of its own.
    fn paired(&self, stamp: &mut [u16]) -> bool
        requires lists { Lists self.now.head.now self.now.next.now self.now.corners.now (length self.now.corners.now) }
        requires stamp_len { (length stamp.old ≡ self.now.n) × Blank stamp.old }
        ensures { (result ≡ true) ↔ Paired self.now.n (in_threes self.now.corners.now) }
    {
        // The first link is read by `places::read`: from the elements of `head`, or by an index here, the compiler makes slower walks.
        for a in 0..self.n {
            if !self.paired_at(stamp, places::read(self.head, a), a) {
                return false;
            }
        }
        true
    }
}

// The most corners of the triangles of a face of 16 corners, of 64, and of as many as are checked: a face of n corners has n - 2 triangles.
const CORNERS_OF_16: usize = 3 * 14;

const CORNERS_OF_64: usize = 3 * 62;

const MOST_TRIANGLE_CORNERS: usize = 3 * places::limits::MOST_CHECKED_TRIANGLES;

// Each corner becomes the first of the chain of its place.
fn link(head: &mut [u16], next: &mut [u16], corners: &[u32], n: usize)
    requires checked_corners { CheckedCorners n corners.now }
    requires room { (n ≤ length head.old) × (length corners.now ≤ length next.old) }
    requires blank { Blank head.old × Blank next.old }
    ensures linked { Linked head.new next.new corners.now (length corners.now) }
{
    for (s, &place) in corners.iter().enumerate() {
        let a = place as usize;
        next[s] = head[a];
        head[a] = (s + 1) as u16;
    }
}

// Whether each side occurs once each way, by way of lists of zeros: a place for each corner of the face, twice, and one for each corner of
// a triangle. It stands apart from `paired_within`, so that the walks are in the machine code once: once for each size they took longer.
fn paired_in(
    head: &mut [u16],
    stamp: &mut [u16],
    next: &mut [u16],
    corners: &[u32],
    n: usize,
) -> bool
    requires checked_corners { CheckedCorners n corners.now × (n ≤ most_checked_corners) }
    requires head_len { (length head.old ≡ n) × (length stamp.old ≡ n) × (length next.old ≡ length corners.now) }
    requires blank { Blank head.old × Blank stamp.old × Blank next.old }
    ensures { (result ≡ true) ↔ Paired n (in_threes corners.now) }
{
    link(head, next, corners, n);
    let chains = Chains {
        n,
        corners,
        head,
        next,
    };
    chains.paired(stamp)
}

// Whether each side occurs once each way, with lists of its own, which have room for N corners of the face and M of its triangles: a small
// face does not clear the lists of a large one.
fn paired_within<const N: usize, const M: usize>(corners: &[u32], n: usize) -> bool
    requires checked_corners { CheckedCorners n corners.now }
    requires room { (n ≤ N) × (N ≤ most_checked_corners) × (length corners.now ≤ M) × (M ≤ 3 * most_checked_triangles) }
    ensures { (result ≡ true) ↔ Paired n (in_threes corners.now) }
{
    let m = corners.len();
    let mut head = [0u16; N];
    let mut stamp = [0u16; N];
    let mut next = [0u16; M];
    paired_in(&mut head[..n], &mut stamp[..n], &mut next[..m], corners, n)
}

// Whether triangles, three corners each, are a cut of a face of n corners.
pub fn is_cut(n: usize, corners: &[u32]) -> bool
    requires { (3 ≤ n) × (n ≤ most_checked_corners) × (length corners.now % 3 ≡ 0) × Each 0 (λ p. p < n) corners.now }
    ensures { result ≡ is_cut_of n (in_threes corners.now) }
{
    if corners.len() / 3 + 2 != n {
        return false;
    }
    if any_same(corners) {
        return false;
    }
    if n <= 16 {
        return paired_within::<16, CORNERS_OF_16>(corners, n);
    }
    if n <= 64 {
        return paired_within::<64, CORNERS_OF_64>(corners, n);
    }
    paired_within::<{ places::limits::MOST_CHECKED_CORNERS }, MOST_TRIANGLE_CORNERS>(corners, n)
}
