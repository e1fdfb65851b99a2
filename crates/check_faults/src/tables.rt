// Lookup of words in tables.
ghost use Rattle.std.specs.Prelude.{◌≡◌, map};
ghost use Rattle.check_faults.specs.Tables.{lookup, spelled};

/// The entry of a word in a table, or `None`.
pub fn find_in<T: Copy>(table: &[(&str, T)], word: &str) -> Option<T>
    ensures { result ≡ lookup word.now (map spelled table.now) }
{
    for entry in table {
        if word == entry.0 {
            return Some(entry.1);
        }
    }
    None
}
