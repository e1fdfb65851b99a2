// Lookup of words in tables.

/// The entry of a word in a table, or `None` if the table does not contain the word.
pub fn find<T: Copy>(table: &[(&'static str, T)], word: &[u8]) -> Option<T> {
    for entry in table {
        if entry.0.as_bytes() == word {
            return Some(entry.1);
        }
    }
    None
}
