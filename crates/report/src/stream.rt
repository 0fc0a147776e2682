// A stream that comes in blocks: the bytes of a record that is not whole yet stay at the front.
ghost use Rattle.std.specs.Prelude.{◌≡◌, ◌+◌, ◌-◌, ◌*◌, ◌/◌, ◌^◌, ◌≤◌, ◌<◌, length, take};
ghost use Rattle.lines.specs.Text.{Put};
ghost use Rattle.records.specs.Tally.{Sized, Fits};
ghost use Rattle.report.specs.Report.{held_of, after, lines_of, records_of, tail_of, moved_of, lent_of, stored_after};
ghost use Rattle.report.specs.Split.{Feeds, Finishes};

use crate::block::take_block;
use records::tally::Tally;

// Moves the bytes from `from` up to `to` to the front.
fn to_front(b: &mut [u8], from: usize, to: usize)
    requires { (from ≤ to) × (to ≤ length b.old) }
    ensures { b.new ≡ moved_of b.old from (to - from) }
{
    b.copy_within(from..to, 0);
}

// After a block: the tally, how many bytes wait at its front, and how much is written.
#[derive(Clone, Copy)]
pub struct Fed {
    pub tally: Tally,
    pub have: usize,
    pub made: usize,
}

// The first `total` bytes of the block are taken. Whichever of them waited and whichever came, a run
// that had come to this cell goes on as `Feeds` says, so that no split of the input changes the report.
pub fn feed(
    t: Tally,
    total: usize,
    block: &mut [u8],
    coords: &mut [f64],
    corners: &mut [u32],
    ends: &mut [u32],
    queries: &mut [f64],
    out: &mut [u8],
) -> Fed
    requires sized { Sized coords.old corners.old ends.old queries.old }
    requires fits { Fits t }
    requires total_bound { (t.number + total < 2 ^ 64) × (256 * (total / 32) ≤ length out.old) × (total ≤ length block.old) }
    ensures queries_value { held_of result.tally coords.new corners.new ends.new queries.new
        ≡ after (held_of t coords.old corners.old ends.old queries.old) (records_of (take total block.old)) }
    ensures queries_value_2 { lent_of coords.new corners.new ends.new queries.new
        ≡ stored_after (held_of t coords.old corners.old ends.old queries.old)
        (lent_of coords.old corners.old ends.old queries.old) (records_of (take total block.old)) }
    ensures put { Put out.old 0
        (lines_of (held_of t coords.old corners.old ends.old queries.old) (records_of (take total block.old)))
        out.new result.made }
    ensures have_value { (result.have ≡ total - total / 32 * 32)
        × (block.new ≡ moved_of block.old (total / 32 * 32) (total - total / 32 * 32)) }
    ensures fits_2 { Fits result.tally × (result.tally.number ≤ t.number + total / 32) × (result.made ≤ length out.old) }
    ensures feeds { Feeds (held_of t coords.old corners.old ends.old queries.old) (take total block.old)
        (held_of result.tally coords.new corners.new ends.new queries.new) (take result.have block.new) (take result.made out.new) }
{
    let d = take_block(t, &block[..total], coords, corners, ends, queries, out);
    let used = total / 32 * 32;
    to_front(block, used, total);
    let tally = d.tally;
    let made = d.made;
    let have = total - used;
    Fed { tally, have, made }
}

// At the end of the input, with `have` bytes that are no whole record. With these last lines the run
// has printed the report of all its bytes (`Finishes`).
pub fn finish(t: Tally, have: usize, out: &mut [u8]) -> usize
    requires { 15 ≤ length out.old }
    ensures put { Put out.old 0 (tail_of t.begun have) out.new result }
    ensures upper_bound { result ≤ length out.old }
    ensures finishes { Finishes t have (take result out.new) }
{
    if t.begun {
        return lines::put_tail(out, 0);
    }
    if have == 0 {
        return 0;
    }
    lines::put_tail(out, 0)
}
