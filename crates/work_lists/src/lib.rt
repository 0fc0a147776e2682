// Work lists: the answer of a clipping, the stretch that shows it, and +0 everywhere else. They stay two arguments, as C lends them.
#![tactic(auto)]

ghost use Rattle.std.specs.Prelude.{◌≡◌, true, false, cond, ◌++◌, ◌-◌, ◌≤◌, length, take, replicate};
ghost use Rattle.floats.specs.F64.{zero64};
ghost use Rattle.places.specs.declared.refusal.Refusal.TheVariants.{Room};
ghost use Rattle.work_lists.specs.WorkLists.{shorter_of};
ghost use Rattle.work_lists.specs.Steps.{shown_numbers};

use places::refusal::Refusal;

// A work list has no room for what a step makes.
#[derive(Clone, Copy, Debug, PartialEq, Eq)]
pub struct NoRoom;

// An entry that has no room refuses for that reason.
// Ruled out: no room told as a list of a size that is refused.
impl From<NoRoom> for Refusal {
    ghost from_gives = { λ _ why. why ≡ Room };

    fn from(_none: NoRoom) -> Refusal {
        Refusal::Room
    }
}

// What one plane or edge makes of an outline: it is left whole, nothing is left, or so many points are left in the other list.
#[derive(Clone, Copy, Debug, PartialEq, Eq)]
pub enum Step {
    Kept,
    Gone,
    Made(usize),
}

// An outline that is left: so many points, in the first work list or in the second.
#[derive(Clone, Copy, Debug, PartialEq, Eq)]
pub struct Outline {
    pub points: usize,
    pub in_second: bool,
}

// The smaller of two numbers.
pub fn shorter(a: usize, b: usize) -> usize
    ensures { result ≡ shorter_of a b }
{
    a.min(b)
}

// The filled stretch of the list where an outline ended, n numbers long.
// Ruled out: the stretch of the other list; the whole list.
pub fn shown<'a>(first: &'a [f64], second: &'a [f64], n: usize, in_second: bool) -> &'a [f64]
    requires { n ≤ length (cond in_second second.now first.now) }
    ensures { result.now ≡ take n (cond in_second second.now first.now) }
{
    if in_second {
        &second[0..n]
    } else {
        &first[0..n]
    }
}

// +0 in every number from a place on.
// Ruled out: the number at that place left as it was; a number before it changed.
pub fn wipe(s: &mut [f64], from: usize)
    requires { from ≤ length s.old }
    ensures { s.new ≡ take from s.old ++ replicate (length s.old - from) zero64 }
{
    s[from..].fill(0.0);
}

// +0 in every number of both lists, save the first n of the one that shows an outline.
// Ruled out: the other list left as it was; +0 only as far as the outline was written.
pub fn settle(first: &mut [f64], second: &mut [f64], n: usize, in_second: bool)
    requires { n ≤ length (cond in_second second.old first.old) }
    ensures first_value { first.new ≡ take (cond in_second 0 n) first.old ++ replicate (length first.old - cond in_second 0 n) zero64 }
    ensures second_value { second.new ≡ take (cond in_second n 0) second.old ++ replicate (length second.old - cond in_second n 0) zero64 }
{
    if in_second {
        wipe(first, 0);
        wipe(second, n);
        return;
    }
    wipe(first, n);
    wipe(second, 0);
}

// The same by an answer, at so many numbers a point: where it shows no outline nothing is left.
// Ruled out: numbers of an outline cleared with the rest; a refused call that leaves what it wrote.
pub fn settle_answer(
    first: &mut [f64],
    second: &mut [f64],
    r: Result<Option<Outline>, NoRoom>,
    size: usize,
)
    requires { (shown_numbers r size false ≤ length first.old) × (shown_numbers r size true ≤ length second.old) }
    ensures first_value { first.new ≡ take (shown_numbers r size false) first.old
        ++ replicate (length first.old - shown_numbers r size false) zero64 }
    ensures second_value { second.new ≡ take (shown_numbers r size true) second.old
        ++ replicate (length second.old - shown_numbers r size true) zero64 }
{
    match r {
        Ok(Some(left)) => settle(first, second, left.points * size, left.in_second),
        Ok(None) | Err(NoRoom) => settle(first, second, 0, false),
    }
}
