// Numbers for the vertices that occur in a corner list, in the order of first mention, and the side table: a row and a column for each
// such vertex, and no others.
#![tactic(auto)]

ghost use Rattle.std.specs.Prelude.{◌≡◌, ℕ, ◌*◌, ◌<◌, ◌≤◌};
ghost use Rattle.places.specs.Limits.{most_vertices};
ghost use Rattle.places.specs.Lists.{Each};
ghost use Rattle.side_table.specs.Numbers.{Known, Numbering, mentioned, Follows, Named, entry_of};

// The vertex x gets the number k unless it has one. What comes back is how many have one now. 256 is no number: the list has fixed memory
// of 16 bits a vertex, and an Option would take twice as much.
fn number_vertex(number: &mut [u16], k: usize, x: usize) -> usize
    requires { Numbering number.old k × (x < most_vertices) }
    ensures { Named number.old k x number.new result }
{
    if number[x] != 256 {
        return k;
    }
    number[x] = k as u16;
    k + 1
}

// Each vertex that occurs gets a number, in the order of first mention. What comes back is how many there are.
pub fn number_all(number: &mut [u16], corners: &[u32]) -> usize
    requires { Numbering number.old 0 × Each 0 (λ x. x < most_vertices) corners.now }
    ensures { Numbering number.new result × Each 0 (Known number.new result) corners.now
        × Follows number.new result (mentioned corners.now) }
{
    let mut k = 0;
    for &x in corners {
        k = number_vertex(number, k, x as usize);
    }
    k
}

// Which entry of the table is that for the sides from a to b.
#[tactic(auto, using(crate::proofs::Numbers::entry_below), unfolding(crate::specs::Numbers::entry_of))]
pub fn entry(number: &[u16], k: usize, a: usize, b: usize) -> usize
    requires { Known number.now k a × Known number.now k b × (k ≤ most_vertices) }
    ensures { (result ≡ entry_of number.now k a b) × (result < k * k) }
{
    number[a] as usize * k + number[b] as usize
}
