// The line of a cell, at its end.
ghost use Rattle.std.specs.Prelude.{◌≡◌, ◌+◌, ◌*◌, ◌≤◌, length, take};
ghost use Rattle.geometry.specs.Survey.{survey_answer};
ghost use Rattle.lines.specs.Text.{Put};
ghost use Rattle.records.specs.Tally.{Sized, Fits};
ghost use Rattle.report.specs.Report.{held_of, line_of};

use geometry::Findings;
use places::refusal::Refusal;
use records::tally::Tally;

// The survey of what the lists hold of the cell.
fn found(
    t: Tally,
    coords: &[f64],
    corners: &[u32],
    ends: &[u32],
    queries: &[f64],
) -> Result<Findings, Refusal>
    requires sized { Sized coords.now corners.now ends.now queries.now }
    requires fits { Fits t }
    ensures { result ≡ survey_answer (take (t.verts * 3) coords.now) (take t.corners corners.now)
        (take t.faces ends.now) (take (t.queries * 3) queries.now) }
{
    let v = t.verts * 3;
    let c = t.corners;
    let f = t.faces;
    let q = t.queries * 3;
    geometry::survey(&coords[0..v], &corners[0..c], &ends[0..f], &queries[0..q])
}

// A record's refusal decides; where there is none, the survey does.
pub fn put_line(
    t: Tally,
    coords: &[f64],
    corners: &[u32],
    ends: &[u32],
    queries: &[f64],
    out: &mut [u8],
    at: usize,
) -> usize
    requires sized { Sized coords.now corners.now ends.now queries.now }
    requires fits { Fits t }
    requires at_in_bounds { at + 256 ≤ length out.old }
    ensures put { Put out.old at (line_of (held_of t coords.now corners.now ends.now queries.now)) out.new result }
    ensures upper_bound { result ≤ at + 256 }
{
    if let Some(why) = t.refusal {
        return lines::put_refused(out, at, t.number, why.number());
    }
    match found(t, coords, corners, ends, queries) {
        Ok(s) => lines::put_cell(out, at, t.number, t.verts, t.faces, s),
        Err(why) => lines::put_refused(out, at, t.number, why.number()),
    }
}
