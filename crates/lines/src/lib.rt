// Text into a lent list of bytes: a number in decimal and in hex, and the report's lines.
#![tactic(auto)]

ghost use Rattle.std.specs.Prelude.{◌≡◌, ◌∷◌, [], ◌++◌, ◌+◌, ◌≤◌, ◌<◌, length};
ghost use Rattle.lines.specs.Text.{Put, decimal_of, digit_of, yes_or_no, hex_of};
ghost use Rattle.lines.specs.Lines.{refused_line, tail_line, counts_text, shape_text, findings_text, cell_line};

use geometry::Findings;

fn put_byte(out: &mut [u8], at: usize, b: u8) -> usize
    requires { at < length out.old }
    ensures { Put out.old at (b ∷ []) out.new result }
{
    out[at] = b;
    at + 1
}

fn put_text(out: &mut [u8], at: usize, text: &[u8]) -> usize
    requires { at + length text.now ≤ length out.old }
    ensures { Put out.old at text.now out.new result }
{
    let end = at + text.len();
    out[at..end].copy_from_slice(text);
    end
}

// Up to 20 digits.
fn put_decimal(out: &mut [u8], at: usize, n: u64) -> usize
    requires { at + 20 ≤ length out.old }
    ensures put { Put out.old at (decimal_of n) out.new result }
    ensures upper_bound { result ≤ at + 20 }
{
    if n < 10 {
        return put_byte(out, at, b'0' + n as u8);
    }
    let p = put_decimal(out, at, n / 10);
    put_byte(out, p, b'0' + (n % 10) as u8)
}

fn digit(d: u64) -> u8
    requires { d < 16 }
    ensures { result ≡ digit_of d }
{
    if d < 10 {
        b'0' + d as u8
    } else {
        b'A' - 10 + d as u8
    }
}

// The last k digits of n in base 16.
fn put_hex(out: &mut [u8], at: usize, n: u64, k: usize) -> usize
    requires { at + k ≤ length out.old }
    ensures put { Put out.old at (hex_of k n) out.new result }
    ensures value { result ≡ at + k }
{
    if k == 0 {
        return at;
    }
    let p = put_hex(out, at, n / 16, k - 1);
    put_byte(out, p, digit(n % 16))
}

// A label and a number.
fn put_field(out: &mut [u8], at: usize, label: &[u8], n: u64) -> usize
    requires { at + length label.now + 20 ≤ length out.old }
    ensures put { Put out.old at (label.now ++ decimal_of n) out.new result }
    ensures upper_bound { result ≤ at + length label.now + 20 }
{
    let p = put_text(out, at, label);
    put_decimal(out, p, n)
}

fn put_yes_or_no(out: &mut [u8], at: usize, yes: bool) -> usize
    requires { at + 3 ≤ length out.old }
    ensures put { Put out.old at (yes_or_no yes) out.new result }
    ensures upper_bound { result ≤ at + 3 }
{
    if yes {
        return put_text(out, at, b"yes");
    }
    put_text(out, at, b"no")
}

// The line of a refused cell, with the number of the refusal. No line is longer than 256 bytes.
pub fn put_refused(out: &mut [u8], at: usize, number: u64, why: u8) -> usize
    requires { at + 256 ≤ length out.old }
    ensures put { Put out.old at (refused_line number why) out.new result }
    ensures upper_bound { result ≤ at + 256 }
{
    let p1 = put_field(out, at, b"cell ", number);
    let p2 = put_field(out, p1, b" refused ", u64::from(why));
    put_byte(out, p2, 10)
}

// The line of bytes after the last cell end.
pub fn put_tail(out: &mut [u8], at: usize) -> usize
    requires { at + 15 ≤ length out.old }
    ensures { Put out.old at tail_line out.new result }
{
    put_text(out, at, b"tail refused 8\n")
}

fn put_counts(
    out: &mut [u8],
    at: usize,
    number: u64,
    verts: usize,
    faces: usize,
    triangles: usize,
) -> usize
    requires { at + 94 ≤ length out.old }
    ensures put { Put out.old at (counts_text number verts faces triangles) out.new result }
    ensures upper_bound { result ≤ at + 94 }
{
    let p1 = put_field(out, at, b"cell ", number);
    let p2 = put_field(out, p1, b" v ", verts as u64);
    let p3 = put_field(out, p2, b" f ", faces as u64);
    put_field(out, p3, b" t ", triangles as u64)
}

fn put_shape(out: &mut [u8], at: usize, closed: bool, short: usize) -> usize
    requires { at + 38 ≤ length out.old }
    ensures put { Put out.old at (shape_text closed short) out.new result }
    ensures upper_bound { result ≤ at + 38 }
{
    let p1 = put_text(out, at, b" closed ");
    let p2 = put_yes_or_no(out, p1, closed);
    put_field(out, p2, b" short ", short as u64)
}

fn put_findings(out: &mut [u8], at: usize, volume: f64, contained: usize) -> usize
    requires { at + 46 ≤ length out.old }
    ensures put { Put out.old at (findings_text volume contained) out.new result }
    ensures upper_bound { result ≤ at + 46 }
{
    let p1 = put_text(out, at, b" vol ");
    let p2 = put_hex(out, p1, floats::pattern(volume), 16);
    let p3 = put_field(out, p2, b" in ", contained as u64);
    put_byte(out, p3, 10)
}

// The line of a cell with `verts` vertices and `faces` faces, and what the survey found of it.
pub fn put_cell(
    out: &mut [u8],
    at: usize,
    number: u64,
    verts: usize,
    faces: usize,
    s: Findings,
) -> usize
    requires { at + 256 ≤ length out.old }
    ensures put { Put out.old at (cell_line number verts faces s) out.new result }
    ensures upper_bound { result ≤ at + 256 }
{
    let p1 = put_counts(out, at, number, verts, faces, s.triangles);
    let p2 = put_shape(out, p1, s.closed, s.short);
    put_findings(out, p2, s.volume, s.contained)
}
