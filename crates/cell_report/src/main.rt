// Reads records from standard input and writes the report's lines to standard output. A read or a write that fails is said on standard
// error.
#![tactic(auto)]

ghost use Rattle.std.specs.Prelude.{◌+◌, ◌^◌, ◌≤◌, ◌<◌, ◌≡◌, true, false, length, take};
ghost use Rattle.std.specs.Io.{WritesAtMost};
ghost use Rattle.records.specs.Tally.{Sized, Fits};
ghost use Rattle.report.specs.Report.{held_of};
ghost use Rattle.report.specs.Split.{Takes, came_of, TookRead};

use records::tally::Tally;
use report::stream::{Fed, feed, finish};
use std::io::{Error, ErrorKind, Read, Result, Write};
use std::thread::yield_now;

// What a read gave behind the bytes that waited: so many bytes, 0 at the end of the input, or it
// failed, and then whether it can be tried again.
#[derive(Clone, Copy)]
struct Came {
    waited: usize,
    bytes: usize,
    failed: bool,
    again: bool,
}

// Whether a call that has just failed can be tried again: a signal interrupted it, or the other end was
// not ready. There is no call that waits until it is, so another process is let run first.
fn can_try_again(error: &Error) -> bool {
    let kind = error.kind();
    if kind == ErrorKind::WouldBlock {
        yield_now();
        return true;
    }
    kind == ErrorKind::Interrupted
}

// What stands in an error's text before the number that ends it: the system's words.
fn words_of(text: &str) -> &str {
    match text.split_once(" (os error ") {
        Some((words, _)) => words,
        None => text,
    }
}

// Says on standard error what failed and why. Where there is no memory for the words alone, the error's number stands behind them.
fn say_failure(rt: &(impl Eprint + AllocGlobal), what: &str, error: &Error) {
    match format!(in rt.alloc(); "{error}") {
        Ok(text) => {
            let _ = eprintln!(rt; "cell_report: {what}: {}", words_of(text.as_str()));
        }
        Err(_) => {
            let _ = eprintln!(rt; "cell_report: {what}: {error}");
        }
    }
}

// Whether a write that took no byte can be tried again; if not, it is said why.
fn can_write_again(rt: &(impl Eprint + AllocGlobal), put: Result<usize>) -> bool {
    match put {
        Ok(_) => {
            let _ = eprintln!(rt; "cell_report: writing standard output: no byte was taken");
            false
        }
        Err(error) => {
            if can_try_again(&error) {
                return true;
            }
            say_failure(rt, "writing standard output", &error);
            false
        }
    }
}

// How many of the bytes a write took; none where it failed.
fn taken(put: Result<usize>, bytes: &[u8]) -> usize
    requires { WritesAtMost put bytes.now }
    ensures { result ≤ length bytes.now }
{
    match put {
        Ok(n) => n,
        Err(_) => 0,
    }
}

// Writes the bytes to the output, and answers whether all were taken. Nothing says that the output
// takes them some day, so the loop counts its writes down, from a number that no run uses up.
fn write_out<W: Write>(rt: &(impl Eprint + AllocGlobal), to: &mut W, bytes: &[u8]) -> bool {
    let n = bytes.len();
    let mut done = 0;
    let mut writes = 1125899906842624u64;
    while done < n && writes > 0 {
        let put = to.write(&bytes[done..]);
        let count = taken(put, &bytes[done..]);
        if count == 0 && !can_write_again(rt, put) {
            return false;
        }
        done += count;
        writes -= 1;
    }
    done == n
}

// A read that failed: whether it is tried again, and if not, it is said why.
fn can_read_again(rt: &(impl Eprint + AllocGlobal), error: &Error) -> bool {
    if can_try_again(error) {
        return true;
    }
    say_failure(rt, "reading standard input", error);
    false
}

// Reads once, behind the bytes that the block has already: these stay.
fn read_more<R: Read>(
    rt: &(impl Eprint + AllocGlobal),
    from: &mut R,
    block: &mut [u8],
    have: usize,
) -> Came
    requires { have ≤ length block.old }
    ensures waited_value { (result.waited ≡ have) × (have + result.bytes ≤ length block.old) × (result.failed ≡ true → result.bytes ≡ 0) }
    ensures block_value { take have block.new ≡ take have block.old }
{
    match from.read(&mut block[have..]) {
        Ok(bytes) => Came {
            waited: have,
            bytes,
            failed: false,
            again: false,
        },
        Err(error) => Came {
            waited: have,
            bytes: 0,
            failed: true,
            again: can_read_again(rt, &error),
        },
    }
}

// The bytes that came are fed behind those that waited: a run takes exactly them, and `out` has at
// its front what they print.
fn take_in(
    t: Tally,
    came: Came,
    block: &mut [u8],
    coords: &mut [f64],
    corners: &mut [u32],
    ends: &mut [u32],
    queries: &mut [f64],
    out: &mut [u8],
) -> Fed
    requires sized { Sized coords.old corners.old ends.old queries.old }
    requires fits { Fits t }
    requires number_bound { (t.number + 65536 < 2 ^ 64) × (came.waited + came.bytes ≤ length block.old)
        × (length block.old ≡ 65536) × (524288 ≤ length out.old) }
    ensures fits_2 { Fits result.tally × (result.tally.number ≤ t.number + 2048) × (result.have < 32) × (result.made ≤ length out.old) }
    ensures takes { Takes (held_of t coords.old corners.old ends.old queries.old)
        (take came.waited block.old) (came_of came.waited came.bytes block.old)
        (held_of result.tally coords.new corners.new ends.new queries.new)
        (take result.have block.new) (take result.made out.new) }
{
    let total = came.waited + came.bytes;
    feed(t, total, block, coords, corners, ends, queries, out)
}

// After a read: the tally, how many bytes wait, how many bytes of `out` were to be written, whether
// to go on, and whether the input has ended.
#[derive(Clone, Copy)]
struct Went {
    tally: Tally,
    have: usize,
    made: usize,
    more: bool,
    ended: bool,
}

// Nothing came: the input has ended, could not be read, or is to be read again.
fn stayed(tally: Tally, have: usize, more: bool, ended: bool) -> Went
    ensures { (result.tally ≡ tally) × (result.have ≡ have) × (result.made ≡ 0) × (result.ended ≡ ended) × (result.more ≡ more) }
{
    Went {
        tally,
        have,
        made: 0,
        more,
        ended,
    }
}

// A read failed: it is tried again where that can help, and where not, it has been said why it failed.
fn after_failure(tally: Tally, have: usize, again: bool) -> Went
    ensures { (result.tally ≡ tally) × (result.have ≡ have) × (result.made ≡ 0) × (result.ended ≡ false) }
{
    stayed(tally, have, again, false)
}

// What came was fed; it goes on where the output takes more.
fn went_on(d: Fed, more: bool) -> Went
    ensures { (result.tally ≡ d.tally) × (result.have ≡ d.have) × (result.made ≡ d.made) × (result.ended ≡ false) × (result.more ≡ more) }
{
    let tally = d.tally;
    Went {
        tally,
        have: d.have,
        made: d.made,
        more,
        ended: false,
    }
}

// After a read: the bytes that it left in the block are taken, and the lines of the records that are whole are written. A failed read
// is not the end of the input, and an output that takes no more ends the program.
fn after_read<W: Write>(
    rt: &(impl Eprint + AllocGlobal),
    to: &mut W,
    t: Tally,
    came: Came,
    block: &mut [u8],
    coords: &mut [f64],
    corners: &mut [u32],
    ends: &mut [u32],
    queries: &mut [f64],
    out: &mut [u8],
) -> Went
    requires sized { Sized coords.old corners.old ends.old queries.old }
    requires fits { Fits t }
    requires number_bound { (t.number + 65536 < 2 ^ 64) × (came.waited < 32) × (length block.old ≡ 65536) × (524288 ≤ length out.old) }
    requires bytes_in_bounds { (came.waited + came.bytes ≤ length block.old) × (came.failed ≡ true → came.bytes ≡ 0) }
    ensures fits_2 { Fits result.tally × (result.tally.number ≤ t.number + 2048) × (result.have < 32) }
    ensures took_read { TookRead (held_of t coords.old corners.old ends.old queries.old) block.old
        came.waited came.bytes came.failed
        (held_of result.tally coords.new corners.new ends.new queries.new) (take result.have block.new) (take result.made out.new)
        result.ended }
{
    let waited = came.waited;
    if came.failed {
        return after_failure(t, waited, came.again);
    }
    if came.bytes == 0 {
        return stayed(t, waited, false, true);
    }
    let d = take_in(t, came, block, coords, corners, ends, queries, out);
    let made = d.made;
    let more = write_out(rt, to, &out[..made]);
    went_on(d, more)
}

// Nothing says that the input ends, so the loop counts its reads down, from a number that no run
// uses up.
fn run<R: Read, W: Write>(
    rt: &(impl Eprint + AllocGlobal),
    from: &mut R,
    to: &mut W,
    block: &mut [u8],
    coords: &mut [f64],
    corners: &mut [u32],
    ends: &mut [u32],
    queries: &mut [f64],
    out: &mut [u8],
)
    requires sized { Sized coords.old corners.old ends.old queries.old }
    requires block_len { (length block.old ≡ 65536) × (524288 ≤ length out.old) }
{
    let mut t = Tally::new(1);
    let mut have = 0;
    let mut more = true;
    let mut ended = false;
    let mut reads = 1125899906842624u64;
    while more && reads > 0 {
        let came = read_more(rt, from, block, have);
        let w = after_read(rt, to, t, came, block, coords, corners, ends, queries, out);
        t = w.tally;
        have = w.have;
        more = w.more;
        ended = w.ended;
        reads -= 1;
    }
    if ended {
        let k = finish(t, have, out);
        write_out(rt, to, &out[..k]);
    }
}

// A list with the same value at each place, from a function whose contract has its length: the list
// itself is never computed with.
fn room<T: Copy, const N: usize>(value: T) -> [T; N]
    ensures { N ≡ length result }
{
    [value; N]
}

fn main(rt: HostRuntime) {
    let mut from = rt.stdin();
    let mut to = rt.stdout();
    let mut block: [u8; 65536] = room(0);
    let mut coords: [f64; 768] = room(0.0);
    let mut corners: [u32; 2048] = room(0);
    let mut ends: [u32; 256] = room(0);
    let mut queries: [f64; 768] = room(0.0);
    let mut out: [u8; 524288] = room(0);
    run(
        &rt,
        &mut from,
        &mut to,
        &mut block,
        &mut coords,
        &mut corners,
        &mut ends,
        &mut queries,
        &mut out,
    );
}
