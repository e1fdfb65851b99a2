// Displays of parts of a document: JSON in short, types and their expressions as text.

use check_faults::document::{along, at, number_at, parts, word, word_at};
use serde_json::Value;
use std::fmt::{self, Display};

// The maximum number of parts displayed.
const MOST_PARTS: usize = 12;
// The maximum number of characters of a string displayed.
const MOST_CHARACTERS: usize = 60;
// The maximum depth to which pointers and arrays are displayed.
const MOST_TYPES: u32 = 4;

/// A part of the document as JSON, without deeper levels, and with long lists abbreviated.
#[derive(Clone, Copy)]
pub(crate) struct Shown<'a>(pub(crate) &'a Value);

// A string in quotes, abbreviated if it is long.
fn write_text<W: fmt::Write>(f: &mut fmt::Formatter<W>, text: &str) -> fmt::Result {
    let end = match text.char_indices().nth(MOST_CHARACTERS) {
        Some((end, _)) => end,
        None => return write!(f, "{text:?}"),
    };
    match text.get(..end) {
        Some(head) => write!(f, "{head:?}.."),
        None => Ok(()),
    }
}

fn write_number<W: fmt::Write>(f: &mut fmt::Formatter<W>, value: &Value) -> fmt::Result {
    match (value.as_u64(), value.as_i64()) {
        (Some(number), _) => write!(f, "{number}"),
        (None, Some(number)) => write!(f, "{number}"),
        (None, None) => write!(f, "a number"),
    }
}

// A value that is not an array.
fn write_leaf<W: fmt::Write>(f: &mut fmt::Formatter<W>, value: &Value) -> fmt::Result {
    match value {
        Value::Null => write!(f, "null"),
        Value::Bool(truth) => write!(f, "{truth}"),
        Value::Number(_) => write_number(f, value),
        Value::String(text) => write_text(f, text.as_str()),
        Value::Array(_) => write!(f, "[..]"),
        Value::Object(_) => write!(f, "an object"),
    }
}

fn write_value<W: fmt::Write>(f: &mut fmt::Formatter<W>, value: &Value, depth: u32) -> fmt::Result {
    let items = parts(value);
    if items.is_empty() && value.is_array() {
        return write!(f, "[]");
    }
    if items.is_empty() || depth == 0 {
        return write_leaf(f, value);
    }
    write!(f, "[")?;
    for (index, item) in items.iter().take(MOST_PARTS).enumerate() {
        if index > 0 {
            write!(f, ",")?;
        }
        write_value(f, item, depth - 1)?;
    }
    if items.len() > MOST_PARTS {
        write!(f, ",..")?;
    }
    write!(f, "]")
}

impl Display for Shown<'_> {
    fn fmt<W: fmt::Write>(&self, f: &mut fmt::Formatter<W>) -> fmt::Result {
        write_value(f, self.0, 2)
    }
}

/// The value at a path.
pub(crate) fn value_at<'a>(document: &'a Value, path: &[u32]) -> Option<&'a Value> {
    let mut found = document;
    for step in path {
        found = at(found, *step as usize)?;
    }
    Some(found)
}

/// The index of the list of types in the document.
pub(crate) const TYPES: usize = 5;

// The type inner of a type of the document.
fn inner_of(document: &Value, index: usize) -> Option<&Value> {
    along(document, &[TYPES, index, 1])
}

fn write_vector<W: fmt::Write>(
    f: &mut fmt::Formatter<W>,
    size: Option<usize>,
    scalar: &str,
) -> fmt::Result {
    match size {
        Some(size) => write!(f, "vec{size}<{scalar}>"),
        None => write!(f, "{scalar}"),
    }
}

// A type of the document that contains no other type.
fn write_plain<W: fmt::Write>(f: &mut fmt::Formatter<W>, inner: &Value) -> fmt::Result {
    match word(inner) {
        "Scalar" => write!(f, "{}", word_at(inner, 1)),
        "Vector" => write_vector(f, number_at(inner, 1), word_at(inner, 2)),
        "Matrix" => {
            let rows = number_at(inner, 2).unwrap_or(0);
            let columns = number_at(inner, 1).unwrap_or(0);
            write!(f, "mat{columns}x{rows}<{}>", word_at(inner, 3))
        }
        "Atomic" => write!(f, "atomic<{}>", word_at(inner, 1)),
        "Struct" => write!(f, "a struct"),
        _ => write!(f, "{}", Shown(inner)),
    }
}

// A pointer to a vector or a scalar.
fn write_value_pointer<W: fmt::Write>(f: &mut fmt::Formatter<W>, inner: &Value) -> fmt::Result {
    write!(f, "a pointer in {} to ", word_at(inner, 3))?;
    write_vector(f, number_at(inner, 1), word_at(inner, 2))
}

// The type at an index, followed through pointer bases and array elements.
fn write_type_at<W: fmt::Write>(
    f: &mut fmt::Formatter<W>,
    document: &Value,
    index: usize,
) -> fmt::Result {
    let mut at = index;
    for _ in 0..MOST_TYPES {
        let Some(inner) = inner_of(document, at) else {
            break;
        };
        match word(inner) {
            "Pointer" => write!(f, "a pointer in {} to ", word_at(inner, 2))?,
            "Array" => write!(f, "an array of ")?,
            "ValuePointer" => return write_value_pointer(f, inner),
            _ => return write_plain(f, inner),
        }
        at = number_at(inner, 1).unwrap_or(0);
    }
    write!(f, "types[{at}]")
}

/// A type of the document, by its index.
#[derive(Clone, Copy)]
pub(crate) struct TypeAt<'a>(pub(crate) &'a Value, pub(crate) usize);

impl Display for TypeAt<'_> {
    fn fmt<W: fmt::Write>(&self, f: &mut fmt::Formatter<W>) -> fmt::Result {
        write_type_at(f, self.0, self.1)
    }
}
