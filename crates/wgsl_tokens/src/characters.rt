// Characters in UTF-8.
ghost use Rattle.std.specs.Prelude.{◌≤◌, ◌<◌, ◌+◌, ◌≡◌, length};

use unicode_ident::{is_xid_continue, is_xid_start};

// A character and the byte after it.
#[derive(Clone, Copy)]
pub(crate) struct Character {
    // none if the bytes are not UTF-8
    pub code: Option<char>,
    pub end: usize,
}

// The length of a character by its first byte, and the bits of it in that byte.
fn lead(byte: u8) -> (usize, u32)
    ensures { 0 < result.0 }
{
    match byte {
        0x00..=0x7f => (1, u32::from(byte)),
        0xc0..=0xdf => (2, u32::from(byte & 0x1f)),
        0xe0..=0xef => (3, u32::from(byte & 0x0f)),
        0xf0..=0xf7 => (4, u32::from(byte & 0x07)),
        0x80..=0xbf | 0xf8..=0xff => (1, 0xd800),
    }
}

// The character that begins at this byte.
pub(crate) fn character_at(text: &[u8], at: usize) -> Character
    requires { at < length text.now }
    ensures more { at < result.end }
    ensures within { result.end ≤ length text.now }
{
    let (count, first) = lead(text[at]);
    let end = if text.len() - at < count {
        text.len()
    } else {
        at + count
    };
    let mut code = first;
    for place in at + 1..end {
        code = (code << 6) | u32::from(text[place] & 0x3f);
    }
    Character {
        code: char::from_u32(code),
        end,
    }
}

// Whether an identifier may begin with the character.
pub(crate) fn starts_name(character: Character) -> bool {
    match character.code {
        Some(code) => code == '_' || is_xid_start(code),
        None => false,
    }
}

// Whether the character continues identifiers only since Unicode 15.1, which naga does not follow: the joiners and two middle dots.
fn is_recent(code: char) -> bool {
    matches!(code, '\u{200c}' | '\u{200d}' | '\u{30fb}' | '\u{ff65}')
}

// Whether an identifier may continue with the character.
fn continues_name(character: Character) -> bool {
    match character.code {
        Some(code) => is_xid_continue(code) && !is_recent(code),
        None => false,
    }
}

// The end of the identifier.
pub(crate) fn name_end(text: &[u8], start: usize) -> usize
    requires { start ≤ length text.now }
    ensures more { start ≤ result }
    ensures within { result ≤ length text.now }
{
    let mut at = start;
    while at < text.len() {
        let character = character_at(text, at);
        if !continues_name(character) {
            return at;
        }
        at = character.end;
    }
    at
}
