// Why a call is refused: the rows of the table of SCOPE 3, each with its number.
ghost use Rattle.std.specs.Prelude.{◌≡◌};
ghost use Rattle.places.specs.Refusals.{number_of, NumberOf};

// A row of the table by its name.
#[derive(Clone, Copy, Debug, PartialEq, Eq)]
pub enum Refusal {
    Size,
    Number,
    Ends,
    Index,
    EmptyFace,
    Room,
    Record,
    Tail,
    Sides,
    Choice,
    Inexact,
}

impl Refusal {
    // The row's number, as C and the report's lines have it. A method, so that a caller of `geometry` needs no other crate to read it.
    // Ruled out: a number that the table has not; a row's place in the list for its number.
    pub fn number(self) -> u8
        ensures { result ≡ number_of self }
    {
        match self {
            Refusal::Size => 1,
            Refusal::Number => 2,
            Refusal::Ends => 3,
            Refusal::Index => 4,
            Refusal::EmptyFace => 5,
            Refusal::Room => 6,
            Refusal::Record => 7,
            Refusal::Tail => 8,
            Refusal::Sides => 11,
            Refusal::Choice => 12,
            Refusal::Inexact => 15,
        }
    }
}

impl From<Refusal> for u8 {
    ghost from_gives = { NumberOf };

    fn from(why: Refusal) -> u8 {
        why.number()
    }
}
