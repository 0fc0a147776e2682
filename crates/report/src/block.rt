// Whole records of a block, one after the other.
ghost use Rattle.std.specs.Prelude.{◌≡◌, ◌+◌, ◌*◌, ◌/◌, ◌^◌, ◌≤◌, ◌<◌, length};
ghost use Rattle.lines.specs.Text.{Put};
ghost use Rattle.records.specs.Tally.{Sized, Fits};
ghost use Rattle.report.specs.Report.{held_of, says_of, after, lines_of, records_of, lent_of, stored_of, stored_after, record_taken};

use crate::line::put_line;
use records::bytes::{Rec, read_record};
use records::tally::Tally;

// After a record: the tally, and how much is written.
#[derive(Clone, Copy)]
pub struct Taken {
    pub tally: Tally,
    pub made: usize,
}

// One record is taken. Any record of the kind of a cell end ends the cell, good or bad: its line, and a new tally.
pub fn take_record(
    t: Tally,
    r: Rec,
    coords: &mut [f64],
    corners: &mut [u32],
    ends: &mut [u32],
    queries: &mut [f64],
    out: &mut [u8],
    at: usize,
) -> Taken
    requires sized { Sized coords.old corners.old ends.old queries.old }
    requires fits { Fits t }
    requires number_bound { (t.number + 1 < 2 ^ 64) × (at + 256 ≤ length out.old) }
    ensures queries_value { held_of result.tally coords.new corners.new ends.new queries.new
        ≡ record_taken (held_of t coords.old corners.old ends.old queries.old) r }
    ensures queries_value_2 { lent_of coords.new corners.new ends.new queries.new
        ≡ stored_of t (lent_of coords.old corners.old ends.old queries.old) r }
    ensures put { Put out.old at (says_of (held_of t coords.old corners.old ends.old queries.old) r) out.new result.made }
    ensures fits_2 { Fits result.tally × (result.tally.number ≤ t.number + 1) × (result.made ≤ at + 256) }
{
    let u = t.take(r, coords, corners, ends, queries);
    if r.ends_cell() {
        let made = put_line(u, coords, corners, ends, queries, out, at);
        return Taken {
            tally: Tally::new(t.number + 1),
            made,
        };
    }
    Taken { tally: u, made: at }
}

// All whole records of a block; what is left of it is shorter than a record.
pub fn take_block(
    start: Tally,
    s: &[u8],
    coords: &mut [f64],
    corners: &mut [u32],
    ends: &mut [u32],
    queries: &mut [f64],
    out: &mut [u8],
) -> Taken
    requires sized { Sized coords.old corners.old ends.old queries.old }
    requires fits { Fits start }
    requires s_bound { (start.number + length s.now < 2 ^ 64) × (256 * (length s.now / 32) ≤ length out.old) }
    ensures queries_value { held_of result.tally coords.new corners.new ends.new queries.new
        ≡ after (held_of start coords.old corners.old ends.old queries.old) (records_of s.now) }
    ensures queries_value_2 { lent_of coords.new corners.new ends.new queries.new
        ≡ stored_after (held_of start coords.old corners.old ends.old queries.old)
        (lent_of coords.old corners.old ends.old queries.old) (records_of s.now) }
    ensures put { Put out.old 0 (lines_of (held_of start coords.old corners.old ends.old queries.old) (records_of s.now))
        out.new result.made }
    ensures fits_2 { Fits result.tally × (result.tally.number ≤ start.number + length s.now / 32) × (result.made ≤ length out.old) }
{
    let n = s.len() / 32;
    let mut t = start;
    let mut made = 0;
    for k in 0..n {
        let r = read_record(s, k * 32);
        let d = take_record(t, r, coords, corners, ends, queries, out, made);
        t = d.tally;
        made = d.made;
    }
    Taken { tally: t, made }
}
