// Replays the stored answers of the Rust: reads them from standard input, asks the same through the C names, and
// prints a line a case. tests/vectors has the list to read and how it was made. The list comes in parts of 65,536 bytes,
// each of whole lines: empty lines fill a part up.
#![tactic(auto)]

ghost use Rattle.std.specs.Prelude.{◌≡◌, ◌≤◌, length, IfOk, IfSome};

use std::io;
use std::io::{ErrorKind, Read};
use stored_answers::Verdict;

// What has been replayed so far.
#[derive(Clone, Copy, Default)]
struct Totals {
    cases: u64,
    asked: u64,
    different: u64,
}

impl Totals {
    // With one case more.
    fn with(self, v: Verdict) -> Totals {
        Totals {
            cases: self.cases.wrapping_add(1),
            asked: self.asked.wrapping_add(v.asked),
            different: self.different.wrapping_add(v.different),
        }
    }
}

// Writes ` same`, or ` different`, how many questions and of how many.
fn print_verdict(rt: &impl Print, v: Verdict) -> io::Result<()> {
    if v.different == 0 {
        return println!(rt; " same");
    }
    println!(rt; " different {} of {}", v.different, v.asked)
}

// Writes the counts.
fn print_totals(rt: &impl Print, t: Totals) -> io::Result<()> {
    println!(rt;
        "{} cases, {} questions, {} different",
        t.cases, t.asked, t.different
    )
}

// Whether a line is a case: not empty, and no remark.
fn is_case(line: &[u8]) -> bool {
    line.first().is_some_and(|b| *b != b'#')
}

// Replays a line, and returns the totals with it.
fn replay(rt: &impl Print, t: Totals, line: &[u8]) -> io::Result<Totals> {
    if !is_case(line) {
        return Ok(t);
    }
    let end = stored_answers::name_end(line);
    let v = stored_answers::judge(&line[end..]);
    rt.write_all(&line[0..end])?;
    print_verdict(rt, v)?;
    Ok(t.with(v))
}

// Replays one line after the other, and returns the totals with them.
fn replay_all(rt: &impl Print, start: Totals, text: &[u8]) -> io::Result<Totals>
    requires { length text.now ≤ 65536 }
{
    let mut t = start;
    let mut rest = text;
    while !rest.is_empty() {
        let end = stored_answers::line_end(rest, 0);
        t = replay(rt, t, &rest[..end])?;
        rest = rest.get(end + 1..).unwrap_or(&[]);
    }
    Ok(t)
}

// Reads once; a read that a signal interrupts gives no byte, and is to be tried again.
fn read_some(from: &mut impl Read, text: &mut [u8]) -> io::Result<Option<usize>>
    ensures { IfOk result (λ got. IfSome got (λ n. n ≤ length text.old)) }
{
    match from.read(text) {
        Ok(n) => Ok(Some(n)),
        Err(error) => {
            if error.kind() == ErrorKind::Interrupted {
                return Ok(None);
            }
            Err(error)
        }
    }
}

// Reads until the list is full or the input ends, and returns how many bytes stand at its front.
fn read_full(from: &mut impl Read, text: &mut [u8]) -> io::Result<usize>
    ensures { IfOk result (λ n. n ≤ length text.old) }
{
    let mut done = 0;
    for _ in 0..u64::MAX {
        if done >= text.len() {
            break;
        }
        match read_some(from, &mut text[done..])? {
            Some(0) => break,
            Some(n) => done += n,
            None => {}
        }
    }
    Ok(done)
}

// Reads the next part of the input, which ends with a whole line, and replays it.
fn replay_part(rt: &impl Print, from: &mut impl Read, t: Totals) -> io::Result<Totals> {
    let mut text = [0; 65536];
    let n = read_full(from, &mut text)?;
    replay_all(rt, t, &text[0..n])
}

// The list has at most 64 parts; past its end a part is empty.
fn main(rt: HostRuntime) -> io::Result<()> {
    let mut from = rt.stdin();
    let mut t = Totals::default();
    for _ in 0..64 {
        t = replay_part(&rt, &mut from, t)?;
    }
    print_totals(&rt, t)
}
