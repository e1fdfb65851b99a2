// Positions in a text, by lines and columns.
ghost use Rattle.std.specs.Prelude.{◌≡◌, ◌+◌, ◌≤◌, ◌<◌, ◌*◌, ◌^◌, ◌-◌, ◌⊎◌, ◌↔◌, IsTrue, length, take};
ghost use Rattle.editor_text.specs.Positions.{IsUpTo, feeds, after_byte, position_at, units};

/// The units of columns.
#[derive(Clone, Copy, Debug, PartialEq, Eq)]
pub enum Encoding {
    /// Bytes.
    Utf8,
    /// UTF-16 code units.
    Utf16,
}

/// A position in a text. A line ends with a line feed, and both numbers count from 0.
#[derive(Clone, Copy, Debug, PartialEq, Eq)]
pub struct Position {
    /// The line.
    pub line: usize,
    /// The number of units before it in its line.
    pub column: usize,
}

// The number of units that a byte begins.
fn units(encoding: Encoding, byte: u8) -> usize
    ensures is { result ≡ units encoding byte }
    ensures few { result ≤ 2 }
{
    match encoding {
        Encoding::Utf8 => 1,
        Encoding::Utf16 => match byte {
            0x00..=0x7f => 1,
            0x80..=0xbf => 0,
            0xc0..=0xef => 1,
            0xf0..=0xff => 2,
        },
    }
}

impl Position {
    // The position after one more byte.
    fn after(self, encoding: Encoding, byte: u8) -> Position
        requires line { self.line < 2 ^ 63 }
        requires column { self.column < 2 ^ 64 - 2 }
        ensures { result ≡ after_byte encoding self byte }
    {
        if byte == b'\n' {
            Position {
                line: self.line + 1,
                column: 0,
            }
        } else {
            Position {
                line: self.line,
                column: self.column + units(encoding, byte),
            }
        }
    }

    // Whether it is at or before the other.
    fn is_up_to(self, other: Position) -> bool
        ensures { IsTrue result ↔ IsUpTo self other }
    {
        self.line < other.line || (self.line == other.line && self.column <= other.column)
    }
}

/// The position of a byte of a text, or of its end.
pub fn position_of(encoding: Encoding, text: &[u8], byte: usize) -> Position
    requires { byte ≤ length text.now }
    ensures { result ≡ position_at encoding text.now byte }
{
    let mut position = Position { line: 0, column: 0 };
    for place in 0..byte {
        position = position.after(encoding, text[place]);
    }
    position
}

/// The byte at a position of a text: the last one, or the end, whose position is not later.
pub fn byte_of(encoding: Encoding, text: &[u8], position: Position) -> usize
    ensures within { result ≤ length text.now }
    ensures reached { IsUpTo (position_at encoding text.now result) position }
    ensures last { (result ≡ length text.now) ⊎ ¬ IsUpTo (position_at encoding text.now (result + 1)) position }
{
    let mut found = Position { line: 0, column: 0 };
    for place in 0..text.len() {
        let next = found.after(encoding, text[place]);
        if !next.is_up_to(position) {
            return place;
        }
        found = next;
    }
    text.len()
}
