// What goes with a question: its stored lists, the lists of its line, and those lent for the answer.
use question_lists::lent;
use question_lists::words::{part, word};

// The stored lists of a question; those behind the numbers; those behind the counts.
pub fn lists(q: &[u64]) -> &[u64] {
    part(q, 6, 8192)
}

pub fn counts_on(q: &[u64]) -> &[u64] {
    lent::behind(lists(q))
}

pub fn others(q: &[u64]) -> &[u64] {
    lent::behind(counts_on(q))
}

// A question with the lists of its line, for an entry that reads them alone.
#[derive(Clone, Copy)]
pub struct Question<'a> {
    pub q: &'a [u64],
    pub coords: &'a [f64],
    pub corners: &'a [u32],
    pub ends: &'a [u32],
}

// The lists lent for numbers and for counts.
#[derive(Drop)]
pub struct Lent<'a> {
    pub values: &'a mut [f64],
    pub counts: &'a mut [usize],
}

impl Lent<'_> {
    // Whether the code, the numbers and the counts are as stored.
    pub fn agree(&self, q: &[u64], code: u64) -> bool {
        word(q, 4) == code
            && lent::same_numbers(lists(q), self.values, word(q, 5))
            && lent::same_counts(counts_on(q), self.counts)
    }

    // The same, where no list is stored beside them, and where one list is.
    pub fn agree_alone(&self, q: &[u64], code: u64) -> bool {
        others(q).is_empty() && self.agree(q, code)
    }

    pub fn agree_beside(&self, q: &[u64], code: u8) -> bool {
        lent::behind(others(q)).is_empty() && self.agree(q, u64::from(code))
    }
}
