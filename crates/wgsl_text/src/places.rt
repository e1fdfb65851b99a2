// Positions of bytes.
ghost use Rattle.std.specs.Prelude.{◌≡◌, length, min};
ghost use Rattle.editor_text.specs.Positions.{position_at};
ghost use Rattle.editor_text.specs.declared.position.Encoding.TheVariants.{Utf16};

use editor_text::{Encoding, Position, position_of};

/// The line and column of a byte of a text, or of its end, counted from 0. A line ends with a line feed; columns are code units of
/// UTF-16.
pub fn place_of(text: &[u8], byte: usize) -> Position
    ensures { result ≡ position_at Utf16 text.now (min byte (length text.now)) }
{
    position_of(Encoding::Utf16, text, byte.min(text.len()))
}
