// One question: the C name that it says is called with the lists of the line and with lists lent for the answer, and the
// code and every number of every lent list are compared with the stored ones.
// The words of a question: the entry, by the numbers of tests/vectors/asking.py; three arguments; the code, or what a leaf
// returns; 1 where zeros of either sign are the same; then every lent list as it stands afterwards, each as how many words
// and the words: first the numbers and the counts, then the list that is turned or moved, the triangles or the two work lists.
#![tactic(auto)]

mod cells;
mod clips;
mod leaves;
mod lists;
mod points;
mod turned;

use lists::{Lent, Question, counts_on, lists};
use question_lists::lent;
use question_lists::words::{capped, word};

// A code that is not the stored one, for an entry that is not known.
fn unknown(q: &[u64]) -> u8 {
    u8::from(word(q, 4) == 0)
}

impl Question<'_> {
    // The code of an entry that is lent no other list.
    fn ask(self, lent: &mut Lent) -> u64 {
        let Question { q, coords, .. } = self;
        match word(q, 0) / 10 {
            1 => u64::from(self.measured(lent.values)),
            2 => u64::from(self.counted(lent.counts)),
            3 => u64::from(self.surveyed(lent)),
            4 => u64::from(points::measured(q, coords, lent.values)),
            5 => u64::from(points::shape(q, coords, lent)),
            6 => leaves::returned(q),
            7 => leaves::on_numbers(q, coords, lent.values),
            _ => u64::from(unknown(q)),
        }
    }

    // Whether an entry that reads the lists of the line alone is answered as stored.
    fn agrees(self, lent: &mut Lent) -> bool {
        match word(self.q, 0) {
            90 | 91 => self.triangles(lent),
            100..=103 => self.clips(lent),
            _ => {
                let code = self.ask(lent);
                lent.agree_alone(self.q, code)
            }
        }
    }
}

// The same of any entry.
fn in_lists(
    q: &[u64],
    coords: &mut [f64],
    corners: &mut [u32],
    ends: &[u32],
    lent: &mut Lent,
) -> bool {
    // By number, as the stored list has it: the tens lead to a function, and it reads the number; an enum of names would say each once
    // more.
    match word(q, 0) {
        80 => turned::outward(q, coords, corners, ends, lent),
        81 => turned::backward(q, coords, corners, ends, lent),
        82 => turned::outline(q, coords, lent),
        83 => turned::local(q, coords, lent),
        _ => Question {
            q,
            coords,
            corners,
            ends,
        }
        .agrees(lent),
    }
}

// Whether a question is answered as stored. It may write into the lists that it is lent.
pub fn agrees(q: &[u64], coords: &mut [f64], corners: &mut [u32], ends: &[u32]) -> bool {
    let mut values = lent::values_room();
    let mut counts = lent::counts_room();
    let n = capped(lists(q), 0, 8);
    let m = capped(counts_on(q), 0, 264);
    let mut lent = Lent {
        values: &mut values[0..n],
        counts: &mut counts[0..m],
    };
    in_lists(q, coords, corners, ends, &mut lent)
}
