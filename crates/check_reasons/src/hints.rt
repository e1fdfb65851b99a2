// Hints at what bytes look like that are not JSON, and at the value where a document is not in its format.

ghost use Rattle.std.specs.Prelude.{◌≡◌, map};
ghost use Rattle.check_faults.specs.Tables.{listed};
ghost use Rattle.check_reasons.specs.Hints.{after_space as past_space, hint as hint_of, hint_for, hints as hints_listed};

use crate::show::{Shown, value_at};
use check_faults::document::{at, parts};
use check_faults::sets::{set_of, words_of};
use serde_json::Value;
use std::fmt::{self, Display};

// A prefix of the bytes, and the hint for it.
type Hint = (&'static [u8], &'static str);

static HINTS: [Hint; 16] = [
    (
        b"\xEF\xBB\xBF",
        "the bytes begin with a byte order mark, which JSON has not",
    ),
    (
        b"\xFF\xFE",
        "the bytes begin with the byte order mark of UTF-16, and a document is UTF-8",
    ),
    (
        b"\xFE\xFF",
        "the bytes begin with the byte order mark of UTF-16, and a document is UTF-8",
    ),
    (
        b"\x03\x02\x23\x07",
        "this is SPIR-V, and a document is JSON",
    ),
    (
        b"\x07\x23\x02\x03",
        "this is SPIR-V, and a document is JSON",
    ),
    (b"@", "this looks like WGSL, and a document is JSON"),
    (b"fn ", "this looks like WGSL, and a document is JSON"),
    (b"struct ", "this looks like WGSL, and a document is JSON"),
    (b"var", "this looks like WGSL, and a document is JSON"),
    (b"const ", "this looks like WGSL, and a document is JSON"),
    (b"override ", "this looks like WGSL, and a document is JSON"),
    (b"alias ", "this looks like WGSL, and a document is JSON"),
    (b"enable ", "this looks like WGSL, and a document is JSON"),
    (b"//", "this looks like WGSL, and a document is JSON"),
    (b"#version", "this looks like GLSL, and a document is JSON"),
    (b"{", "a document is an array of arrays, and has no object"),
];

// The bytes after leading whitespace.
fn after_space(bytes: &[u8]) -> &[u8]
    ensures { result.now ≡ past_space bytes.now }
{
    for (index, byte) in bytes.iter().enumerate() {
        if !byte.is_ascii_whitespace() {
            return bytes.get(index..).unwrap_or(&[]);
        }
    }
    &[]
}

fn hints() -> &'static [Hint]
    ensures { map listed result.now ≡ hints_listed }
{
    &HINTS
}

fn hint_on(table: &'static [Hint], begin: &[u8]) -> &'static str
    ensures { result.now ≡ hint_for begin.now (map listed table.now) }
{
    for row in table {
        if begin.starts_with(row.0) {
            return row.1;
        }
    }
    ""
}

/// A hint at what bytes look like that are not JSON, in one line without a line feed, or nothing.
pub fn hint(bytes: &[u8]) -> &'static str
    ensures { result.now ≡ hint_of bytes.now }
{
    let begin = after_space(bytes);
    if begin.is_empty() {
        return "there are no bytes but white space";
    }
    hint_on(hints(), begin)
}

// The maximum number of words of a set that are listed.
const MOST_WORDS: usize = 12;

/// The details of a value of a document that is not in its format.
#[derive(Clone, Copy)]
pub struct Slip<'a> {
    /// The document as a JSON value.
    pub document: &'a Value,
    /// The path of indices to the value.
    pub path: &'a [u32],
    /// The requirement, as text.
    pub wanted: &'a str,
}

// Whether two words begin with the same letter, ignoring case.
fn begin_alike(word: &str, other: &str) -> bool {
    match (word.as_bytes().first(), other.as_bytes().first()) {
        (Some(a), Some(b)) => a.to_ascii_lowercase() == b.to_ascii_lowercase(),
        _ => false,
    }
}

// How many words of a set begin like this one.
fn count_alike(set: &str, word: &str) -> usize {
    let mut count: usize = 0;
    for other in words_of(set).split_whitespace() {
        if begin_alike(word, other) {
            count = count.saturating_add(1);
        }
    }
    count
}

// A word of a list, with the number of words written so far.
fn write_word<W: fmt::Write>(f: &mut fmt::Formatter<W>, word: &str, count: usize) -> fmt::Result {
    if count > 0 {
        write!(f, ", ")?;
    }
    write!(f, "{word}")
}

impl Slip<'_> {
    fn item(&self) -> Option<&Value> {
        value_at(self.document, self.path)
    }

    // Writes the words of a set: all of a small one; of a large one those that begin like the actual word, or the
    // first ones.
    fn write_words<W: fmt::Write>(
        &self,
        f: &mut fmt::Formatter<W>,
        set: &str,
        found: &str,
    ) -> fmt::Result {
        let is_small = words_of(set).split_whitespace().count() <= MOST_WORDS;
        let is_chosen = !is_small && count_alike(set, found) > 0;
        let mut count: usize = 0;
        for word in words_of(set).split_whitespace() {
            if count < MOST_WORDS && (!is_chosen || begin_alike(found, word)) {
                write_word(f, word, count)?;
                count = count.saturating_add(1);
            }
        }
        if is_small { Ok(()) } else { write!(f, ", ..") }
    }

    // Writes which words are allowed, if the actual one is not.
    fn write_set<W: fmt::Write>(&self, f: &mut fmt::Formatter<W>) -> fmt::Result {
        let set = set_of(self.document, self.path);
        let Some(item) = self.item() else {
            return Ok(());
        };
        if set.is_empty() {
            return write!(f, "; {} stands there", Shown(item));
        }
        write!(f, "; {} is no {set}, and these are: ", Shown(item))?;
        self.write_words(f, set, item.as_str().unwrap_or(""))
    }

    // Writes the actual value, and its parent.
    fn write_found<W: fmt::Write>(&self, f: &mut fmt::Formatter<W>) -> fmt::Result {
        let Some(item) = self.item() else {
            return Ok(());
        };
        let around = self
            .path
            .get(..self.path.len().saturating_sub(1))
            .unwrap_or(&[]);
        match value_at(self.document, around) {
            Some(holder) if around.len() > 1 => {
                write!(f, "; {} stands there, in {}", Shown(item), Shown(holder))
            }
            _ => write!(f, "; {} stands there", Shown(item)),
        }
    }

    // Writes the number of elements, if one is missing or superfluous.
    fn write_count<W: fmt::Write>(&self, f: &mut fmt::Formatter<W>) -> fmt::Result {
        let around = self
            .path
            .get(..self.path.len().saturating_sub(1))
            .unwrap_or(&[]);
        match value_at(self.document, around) {
            Some(holder) if !around.is_empty() => {
                let count = parts(holder).len();
                write!(f, "; {} has {count} parts", Shown(holder))
            }
            Some(holder) => write!(f, "; the document has {} parts", parts(holder).len()),
            None => Ok(()),
        }
    }

    // Writes which earlier item of the list is equal.
    fn write_equal<W: fmt::Write>(&self, f: &mut fmt::Formatter<W>) -> fmt::Result {
        let (Some(list), Some(index)) = (self.path.first(), self.path.get(1)) else {
            return Ok(());
        };
        let (Some(items), Some(item)) = (at(self.document, *list as usize), self.item()) else {
            return Ok(());
        };
        for (earlier, other) in parts(items).iter().enumerate() {
            if earlier < *index as usize && self.path.len() == 2 && is_equal(other, item) {
                return write!(f, "; it equals types[{earlier}]");
            }
        }
        Ok(())
    }
}

fn is_equal(one: &Value, other: &Value) -> bool {
    one == other
}

impl Display for Slip<'_> {
    fn fmt<W: fmt::Write>(&self, f: &mut fmt::Formatter<W>) -> fmt::Result {
        match self.wanted {
            "a word of its set" | "an array that begins with a word" | "a built-in" => {
                self.write_set(f)
            }
            "what does not stand there yet" => self.write_equal(f),
            "a further part" | "no further part" => self.write_count(f),
            _ => self.write_found(f),
        }
    }
}
