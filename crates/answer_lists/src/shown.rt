// What a clipping shows, and both work lists where there is no room to say so.
ghost use Rattle.std.specs.Prelude.{◌≡◌, []};
ghost use Rattle.geometry.specs.Listed.{told, written, of_clipped, hidden, clipping_told};

use places::refusal::Refusal;

// The code of a clipping where nothing can be shown: its refusal, else 6; an outline that it left is cleared away.
fn unshown(
    a: Result<Option<geometry::Outline>, Refusal>,
    first: &mut [f64],
    second: &mut [f64],
) -> u8
    ensures code { told result [] [] ≡ written (of_clipped a) [] [] }
    ensures first { first.new ≡ hidden a first.old }
    ensures second { second.new ≡ hidden a second.old }
{
    match a {
        Ok(None) => u8::from(Refusal::Room),
        Ok(Some(_)) => {
            work_lists::settle(first, second, 0, false);
            u8::from(Refusal::Room)
        }
        Err(why) => u8::from(why),
    }
}

// What a clipping shows, or, where there is no room to say it, both work lists without it.
// Ruled out: a refusal 6 that leaves the outline in a work list; lists cleared where a check refused.
pub fn put_shown(
    a: Result<Option<geometry::Outline>, Refusal>,
    first: &mut [f64],
    second: &mut [f64],
    out: &mut [usize],
) -> u8
    ensures { (result, out.new, first.new, second.new) ≡ clipping_told (a, first.old, second.old) out.old }
{
    if out.len() < 2 {
        return unshown(a, first, second);
    }
    crate::put_clipped(a, out)
}
