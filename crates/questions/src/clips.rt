// Clipping and overlaps, which are lent two work lists. The second part of what they are given follows the first in the
// line's lists: planes or another outline behind the coordinates, a second cell behind each list of the first.
use crate::lists::{Lent, Question, others};
use question_lists::lent;
use question_lists::words::{argument, capped, low, word};

// The two work lists.
#[derive(Drop)]
struct Work<'a> {
    first: &'a mut [f64],
    second: &'a mut [f64],
}

impl Work<'_> {
    // Whether every number of both is as stored, and nothing is stored behind them.
    fn agree(&self, ws: &[u64]) -> bool {
        let rest = lent::behind(ws);
        lent::behind(rest).is_empty()
            && lent::same_numbers(ws, self.first, 0)
            && lent::same_numbers(rest, self.second, 0)
    }
}

impl Question<'_> {
    // A face by planes; the arguments are how many numbers the vertices have, the face and the tolerance.
    fn clipped_face(self, shown: &mut [usize], work: &mut Work) -> u8 {
        let n = capped(self.q, 1, self.coords.len());
        let (coords, planes) = self.coords.split_at(n);
        abi::clips::wegrusamt_clip_face(
            coords,
            self.corners,
            self.ends,
            low(word(self.q, 2)),
            planes,
            argument(self.q, 3),
            work.first,
            work.second,
            shown,
        )
    }

    // The overlap; the arguments are how many numbers, corners and ends the first cell has.
    fn overlap(self, lent: &mut Lent, work: &mut Work) -> u8 {
        let (coords, coords2) = self.coords.split_at(capped(self.q, 1, self.coords.len()));
        let (corners, corners2) = self.corners.split_at(capped(self.q, 2, self.corners.len()));
        let (ends, ends2) = self.ends.split_at(capped(self.q, 3, self.ends.len()));
        abi::clips::wegrusamt_convex_intersection_volume(
            coords,
            corners,
            ends,
            coords2,
            corners2,
            ends2,
            work.first,
            work.second,
            lent.values,
            lent.counts,
        )
    }

    // The code; of an outline by another, and of the area left, the first argument is how many numbers the subject has.
    fn clip(self, lent: &mut Lent, work: &mut Work) -> u8 {
        let (subject, clip) = self.coords.split_at(capped(self.q, 1, self.coords.len()));
        match word(self.q, 0) {
            100 => self.clipped_face(lent.counts, work),
            101 => abi::clips::wegrusamt_clip_convex(
                subject,
                clip,
                work.first,
                work.second,
                lent.counts,
            ),
            102 => abi::clips::wegrusamt_convex_intersection_area(
                subject,
                clip,
                work.first,
                work.second,
                lent.values,
            ),
            _ => self.overlap(lent, work),
        }
    }

    // Whether the answer, and every number of both work lists, are as stored, in lists of as many places as there are stored.
    pub fn clips(self, lent: &mut Lent) -> bool {
        let stored = others(self.q);
        let mut first = lent::work_room();
        let mut second = lent::work_room();
        let n = capped(stored, 0, 3080);
        let m = capped(lent::behind(stored), 0, 3080);
        let mut work = Work {
            first: &mut first[0..n],
            second: &mut second[0..m],
        };
        let code = self.clip(lent, &mut work);
        lent.agree(self.q, u64::from(code)) && work.agree(stored)
    }
}
