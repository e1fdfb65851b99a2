//! Cases as lines of data: lists of strings.

use serde_json::Value;

/// A question about a document, and its answer.
#[derive(Clone, Copy)]
pub struct Case<'a> {
    /// The name of the case.
    pub name: &'a str,
    /// The question.
    pub question: &'a str,
    /// The document.
    pub document: &'a str,
    /// The expected result.
    pub answer: &'a str,
    // An alternative expected result.
    also: Option<&'a str>,
}

// The string at an index of a line, or the empty string.
fn text(line: &Value, place: usize) -> &str {
    match line.get(place) {
        Some(item) => item.as_str().unwrap_or(""),
        None => "",
    }
}

// The second of two expected results.
fn another(line: &Value) -> Option<&str> {
    match line.get(4) {
        Some(item) => item.as_str(),
        None => None,
    }
}

// Whether a string starts with these words.
fn begins_with(text: &str, words: &str) -> bool {
    match text.strip_prefix(words) {
        Some(rest) => rest.is_empty() || rest.starts_with(' '),
        None => false,
    }
}

impl Case<'_> {
    /// A case from a line: name, question, document, expected result and optionally an alternative.
    pub fn read(line: &Value) -> Case<'_> {
        Case {
            name: text(line, 0),
            question: text(line, 1),
            document: text(line, 2),
            answer: text(line, 3),
            also: another(line),
        }
    }

    /// Whether a result is right. For an error of a function, the types at the end of the error and the cause of non-uniform
    /// control flow are not compared.
    pub fn is_right(&self, found: &str) -> bool {
        let second = match self.also {
            Some(also) => self.agrees(found, also),
            None => false,
        };
        second || self.agrees(found, self.answer)
    }

    // Whether a result equals this one or, for an error of a function, continues with another word.
    fn agrees(&self, found: &str, right: &str) -> bool {
        if self.question == "functions" {
            begins_with(found, right)
        } else {
            found == right
        }
    }
}
