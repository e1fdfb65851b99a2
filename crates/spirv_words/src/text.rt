// Literal texts.

use crate::error::{Malformed, SpirvError};
use std::alloc::Global;

/// The text that the words begin with, and how many words it takes. What is no UTF-8 in it is replaced. `word` is where the
/// words stand.
pub fn read_text(alloc: Global, words: &[u32], word: u32) -> Result<(String, usize), SpirvError> {
    let mut bytes = Vec::new(alloc);
    for (taken, each) in words.iter().enumerate() {
        // the lowest byte of a word comes first (section 2.2.1)
        for byte in each.to_le_bytes() {
            if byte == 0 {
                let text = String::from_utf8_lossy(alloc, &bytes)?;
                return Ok((text, taken.saturating_add(1)));
            }
            bytes.push(byte)?;
        }
    }
    Err(SpirvError::malformed(Malformed::Text, word))
}

/// How many words the text takes that the words begin with; all of them where it does not end.
pub fn text_length(words: &[u32]) -> usize {
    for (taken, each) in words.iter().enumerate() {
        for byte in each.to_le_bytes() {
            if byte == 0 {
                return taken.saturating_add(1);
            }
        }
    }
    words.len()
}

/// Whether the words begin with this text, and no more than that where `whole`.
pub fn starts_text(words: &[u32], text: &str, whole: bool) -> bool {
    let mut at = 0;
    let wanted = text.as_bytes();
    for each in words {
        // the lowest byte of a word comes first (section 2.2.1)
        for byte in each.to_le_bytes() {
            match wanted.get(at) {
                Some(next) if *next == byte => at += 1,
                Some(_) => return false,
                None => return !whole || byte == 0,
            }
        }
    }
    false
}
