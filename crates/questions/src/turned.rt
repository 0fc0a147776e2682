// The entries that turn or move a list in place, and the triangles of a face: one list beside the numbers and the counts.
use crate::lists::{Lent, Question, others};
use question_lists::lent;
use question_lists::words::{capped, low, word};

// Whether the faces are turned outward as stored.
pub fn outward(q: &[u64], coords: &[f64], corners: &mut [u32], ends: &[u32], lent: &Lent) -> bool {
    let code = abi::turning::wegrusamt_into_ccw(coords, corners, ends);
    lent.agree_beside(q, code) && lent::same_corners(others(q), corners)
}

// Whether the backward faces are turned as stored.
pub fn backward(
    q: &[u64],
    coords: &[f64],
    corners: &mut [u32],
    ends: &[u32],
    lent: &mut Lent,
) -> bool {
    let code = abi::turning::wegrusamt_turn_faces(coords, corners, ends, lent.counts);
    lent.agree_beside(q, code) && lent::same_corners(others(q), corners)
}

// Whether an outline is turned as stored.
pub fn outline(q: &[u64], coords: &mut [f64], lent: &Lent) -> bool {
    let code = abi::lists::wegrusamt_into_ccw2(coords);
    lent.agree_beside(q, code) && lent::same_numbers(others(q), coords, 0)
}

// Whether vertices are moved to a local origin as stored.
pub fn local(q: &[u64], coords: &mut [f64], lent: &mut Lent) -> bool {
    let code = abi::lists::wegrusamt_to_local(coords, lent.values);
    lent.agree_beside(q, code) && lent::same_numbers(others(q), coords, 0)
}

impl Question<'_> {
    // The code of the triangles of a face, whose number is the first argument, by vertex number or by place.
    fn face_cut(self, out: &mut [[u32; 3]], counts: &mut [usize]) -> u8 {
        let Question {
            q,
            coords,
            corners,
            ends,
        } = self;
        let face = low(word(q, 1));
        match word(q, 0) {
            91 => abi::cells::wegrusamt_triangle_places(coords, corners, ends, face, out, counts),
            _ => abi::cells::wegrusamt_triangles(coords, corners, ends, face, out, counts),
        }
    }

    // Whether the triangles of a face are as stored, in a list of as many places as there are stored.
    pub fn triangles(self, lent: &mut Lent) -> bool {
        let q = self.q;
        let mut list = lent::triangles_room();
        let room = capped(others(q), 0, 768) / 3;
        let out = &mut list[0..room];
        let code = self.face_cut(out, lent.counts);
        lent.agree_beside(q, code) && lent::same_triangles(others(q), out)
    }
}
