// Reading a record out of its 32 bytes.
ghost use Rattle.std.specs.Prelude.{◌≡◌, ◌+◌, ◌≤◌, ◌<◌, length};
ghost use Rattle.records.specs.Bytes.{word_of, clear_of, record_of, kind_of, ends_cell};

// What a record tells of the cell.
#[derive(Clone, Copy)]
pub enum Kind {
    Vertex,
    Corner,
    FaceEnd,
    CellEnd,
    Query,
}

impl Kind {
    // The kind that byte 0 names.
    #[tactic(auto, unfolding(crate::specs::Bytes::kind_of))]
    fn of(byte: u8) -> Option<Kind>
        ensures { result ≡ kind_of byte }
    {
        match byte {
            1 => Some(Kind::Vertex),
            2 => Some(Kind::Corner),
            3 => Some(Kind::FaceEnd),
            4 => Some(Kind::CellEnd),
            5 => Some(Kind::Query),
            _ => None,
        }
    }
}

// A record: byte 0 names its kind, `clear` says that bytes 1 to 7 are zero, and then come three fields.
#[derive(Clone, Copy)]
pub struct Rec {
    pub kind: Option<Kind>,
    pub clear: bool,
    pub a: u64,
    pub b: u64,
    pub c: u64,
}

impl Rec {
    // Whether it ends the cell.
    pub fn ends_cell(self) -> bool
        ensures { result ≡ ends_cell self.kind }
    {
        matches!(self.kind, Some(Kind::CellEnd))
    }
}

// The 8 bytes from `at` on, little-endian.
fn word(s: &[u8], at: usize) -> u64
    requires { at + 8 ≤ length s.now }
    ensures { result ≡ word_of s.now at }
{
    u64::from_le_bytes([
        s[at],
        s[at + 1],
        s[at + 2],
        s[at + 3],
        s[at + 4],
        s[at + 5],
        s[at + 6],
        s[at + 7],
    ])
}

// The seven bytes after `at` are zero: the word there is its first byte.
fn clear(s: &[u8], at: usize) -> bool
    requires { at + 8 ≤ length s.now }
    ensures { result ≡ clear_of s.now at }
{
    word(s, at) == u64::from(s[at])
}

// The record whose 32 bytes begin at `at`.
pub fn read_record(s: &[u8], at: usize) -> Rec
    requires { at + 32 ≤ length s.now }
    ensures { result ≡ record_of s.now at }
{
    Rec {
        kind: Kind::of(s[at]),
        clear: clear(s, at),
        a: word(s, at + 8),
        b: word(s, at + 16),
        c: word(s, at + 24),
    }
}
