// The JSON writer.

use document_words::{SetWord, Word};
use ir_arena::handle::Handle;
use std::alloc::{AllocError, Global};

/// Writes JSON values one after the other. Each value is followed by a comma until its array ends. Out of memory
/// is remembered, and reported at the end.
#[derive(Drop)]
pub struct Writer {
    text: String,
    failed: Option<AllocError>,
}

impl Writer {
    /// An empty writer.
    pub fn new(alloc: Global) -> Writer {
        Writer {
            text: String::new(alloc),
            failed: None,
        }
    }

    /// The text written.
    pub fn finish(self) -> Result<String, AllocError> {
        let Writer { text, failed } = self;
        if let Some(error) = failed {
            return Err(error);
        }
        let mut text = text;
        let _ = text.pop();
        Ok(text)
    }

    // Remembers that an allocation failed.
    fn note(&mut self, written: Result<(), AllocError>) {
        if let Err(error) = written {
            self.failed = Some(error);
        }
    }

    // Writes a string as it is.
    fn push(&mut self, text: &str) {
        let written = self.text.push_str(text);
        self.note(written);
    }

    // Writes a character as it is.
    fn push_letter(&mut self, letter: char) {
        let written = self.text.push(letter);
        self.note(written);
    }

    /// Starts an array.
    pub fn open(&mut self) {
        self.push("[");
    }

    /// Ends an array.
    pub fn close(&mut self) {
        if self.text.ends_with(",") {
            let _ = self.text.pop();
        }
        self.push("],");
    }

    // Writes a value whose text is given.
    fn plain(&mut self, text: &str) {
        self.push(text);
        self.push(",");
    }

    /// Writes `null`.
    pub fn null(&mut self) {
        self.plain("null");
    }

    /// Writes a boolean.
    pub fn truth(&mut self, value: bool) {
        self.plain(if value { "true" } else { "false" });
    }

    /// Writes an unsigned integer.
    pub fn number(&mut self, value: u64) {
        let written = write!(self.text, "{value},");
        self.note(written);
    }

    /// Writes a signed integer.
    pub fn signed(&mut self, value: i64) {
        let written = write!(self.text, "{value},");
        self.note(written);
    }

    /// Writes an unsigned integer, or `null`.
    pub fn optional(&mut self, value: Option<u32>) {
        match value {
            Some(value) => self.number(u64::from(value)),
            None => self.null(),
        }
    }

    /// Writes a handle.
    pub fn handle<T>(&mut self, handle: Handle<T>) {
        self.number(handle.index() as u64);
    }

    /// Writes a string that needs no escapes.
    pub fn word(&mut self, word: &str) {
        self.push("\"");
        self.push(word);
        self.push("\",");
    }

    /// Starts an array with this tag.
    pub fn begin(&mut self, word: &str) {
        self.open();
        self.word(word);
    }

    /// Writes an array of a tag alone.
    pub fn alone(&mut self, word: &str) {
        self.begin(word);
        self.close();
    }

    /// Writes a string.
    pub fn text(&mut self, text: &str) {
        self.push("\"");
        for letter in text.chars() {
            self.escaped(letter);
        }
        self.push("\",");
    }

    // Writes a character of a string.
    fn escaped(&mut self, letter: char) {
        let code = u32::from(letter);
        if letter == '"' || letter == '\\' {
            self.push("\\");
            self.push_letter(letter);
        } else if code < 32 {
            let written = write!(self.text, "\\u{code:04x}");
            self.note(written);
        } else {
            self.push_letter(letter);
        }
    }

    /// Writes a name, or `null`.
    pub fn name(&mut self, name: Option<&str>) {
        match name {
            Some(name) => self.text(name),
            None => self.null(),
        }
    }

    /// Writes the word of a value.
    pub fn word_of<W: Word + PartialEq>(&mut self, value: W) {
        for row in W::table() {
            if row.1 == value {
                self.word(row.0);
                return;
            }
        }
        self.null();
    }

    /// Writes the word of a value, or `null`.
    pub fn maybe_word<W: Word + PartialEq>(&mut self, value: Option<W>) {
        match value {
            Some(value) => self.word_of(value),
            None => self.null(),
        }
    }

    /// Starts a string of consecutive words.
    pub fn open_text(&mut self) {
        self.push("\"");
    }

    /// Writes the word of a value within such a string.
    pub fn bare_word_of<W: Word + PartialEq>(&mut self, value: W) {
        for row in W::table() {
            if row.1 == value {
                self.push(row.0);
                return;
            }
        }
    }

    /// Ends such a string.
    pub fn close_text(&mut self) {
        self.push("\",");
    }

    /// Writes the words of a set.
    pub fn set_of<W: SetWord + PartialEq>(&mut self, set: W) {
        self.open();
        for row in W::table() {
            if set.with(row.1) == set {
                self.word(row.0);
            }
        }
        self.close();
    }
}
