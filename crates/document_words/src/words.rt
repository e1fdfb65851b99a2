// Word tables, and lookups in them.
ghost use Rattle.std.specs.Prelude.{◌≡◌, ℕ, List, map};
ghost use Rattle.document_words.specs.Lookup.{lookup, spelled};

/// A type whose values are denoted by the words of a table.
pub trait Word: Copy + 'static {
    ghost table: { List (List ℕ × Self) };

    /// The table: each word with its value.
    fn table() -> &'static [(&'static str, Self)]
        ensures { map spelled result.now ≡ table };
}

/// A set type: an array of words in any order denotes the union of the words' sets.
pub trait SetWord: Word {
    ghost none: { Self };

    ghost union: { Self → Self → Self };

    /// The empty set.
    fn none() -> Self
        ensures { result ≡ none };

    /// The union.
    fn with(self, other: Self) -> Self
        ensures { result ≡ union self other };
}

/// The value of a word in a table, or `None` if the table does not have the word.
pub fn find_in<T: Copy>(table: &[(&str, T)], word: &str) -> Option<T>
    ensures { result ≡ lookup word.now (map spelled table.now) }
{
    for entry in table {
        if word == entry.0 {
            return Some(entry.1);
        }
    }
    None
}

/// The value of a word in its type's table, or `None` if the table does not have the word.
pub fn find_word<W: Word>(word: &str) -> Option<W>
    ensures { result ≡ lookup word.now W.table }
{
    find_in(W::table(), word)
}
