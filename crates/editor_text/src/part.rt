// The range of a part of a JSON text.
ghost use Rattle.std.specs.Prelude.{◌≤◌, ◌<◌, ◌≡◌, length, IfSome};

use crate::scan::{after_space, after_value};

/// A range of a text: the bytes from `start` on, before `end`.
#[derive(Clone, Copy, Debug, PartialEq, Eq)]
pub struct Part {
    /// Its first byte.
    pub start: usize,
    /// The first byte after it.
    pub end: usize,
    ghost ordered: { start ≤ end },
}

// The offset of the element at this index, of an array that begins at this byte.
fn item_at(text: &[u8], array: usize, index: u32) -> Option<usize>
    requires { array ≤ length text.now }
    ensures { IfSome result (λ at. at ≤ length text.now) }
{
    if array == text.len() || text[array] != b'[' {
        return None;
    }
    let mut at = after_space(text, array + 1);
    for _ in 0..index {
        at = after_space(text, after_value(text, at));
        if at == text.len() || text[at] != b',' {
            return None;
        }
        at = after_space(text, at + 1);
    }
    if at == text.len() || text[at] == b']' {
        return None;
    }
    Some(at)
}

/// The range of the part of a JSON text at a path of indices, or of the last existing part on it. If the text is not JSON, it is
/// an arbitrary range.
pub fn part_at(text: &[u8], path: &[u32]) -> Part
    ensures { result.end ≤ length text.now }
{
    let mut start = after_space(text, 0);
    for index in path {
        match item_at(text, start, *index) {
            Some(next) => start = next,
            None => break,
        }
    }
    Part {
        start,
        end: after_value(text, start),
    }
}

/// The UTF-8 character of a text that begins at this byte; nothing at the end.
pub fn character_at(text: &[u8], start: usize) -> Part
    requires { start ≤ length text.now }
    ensures begins { result.start ≡ start }
    ensures within { result.end ≤ length text.now }
{
    if start == text.len() {
        return Part { start, end: start };
    }
    for end in start + 1..text.len() {
        if !matches!(text[end], 0x80..=0xbf) {
            return Part { start, end };
        }
    }
    Part {
        start,
        end: text.len(),
    }
}
