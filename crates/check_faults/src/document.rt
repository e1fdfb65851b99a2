// The document as a JSON value: lookup of parts by path.

ghost use Rattle.std.specs.Prelude.{◌≡◌, option_map};
ghost use Rattle.serde_json.specs.View.{items_view, view};
ghost use Rattle.serde_json.specs.Find.{at as part_at};
ghost use Rattle.check_faults.specs.Parts.{along as part_along, is_number_at as has_number_at, number as number_of, number_at as number_in, parts as parts_of, word as word_of, word_at as word_in};

use serde_json::Value;

/// The part at an index.
pub fn at(value: &Value, index: usize) -> Option<&Value>
    ensures { option_map (λ d. view d.now) result ≡ part_at index (view value.now) }
{
    value.get(index)
}

/// The part at a path of indices.
pub fn along<'a>(value: &'a Value, steps: &[usize]) -> Option<&'a Value>
    ensures { option_map (λ d. view d.now) result ≡ part_along steps.now (view value.now) }
{
    let mut found = value;
    for step in steps {
        found = at(found, *step)?;
    }
    Some(found)
}

/// The elements of an array, or none for any other value.
pub fn parts(value: &Value) -> &[Value]
    ensures { items_view result.now ≡ parts_of (view value.now) }
{
    match value.as_array() {
        Some(items) => items.as_slice(),
        None => &[],
    }
}

/// A string, or the string that an array begins with.
pub fn word(value: &Value) -> &str
    ensures { result.now ≡ word_of (view value.now) }
{
    match value.as_str() {
        Some(text) => text,
        None => match at(value, 0) {
            Some(first) => first.as_str().unwrap_or(""),
            None => "",
        },
    }
}

/// The word at an index, or the first of the array there.
pub fn word_at(value: &Value, index: usize) -> &str
    ensures { result.now ≡ word_in (view value.now) index }
{
    match at(value, index) {
        Some(part) => word(part),
        None => "",
    }
}

/// The number that a value is.
pub fn number(value: &Value) -> Option<usize>
    ensures { result ≡ number_of (view value.now) }
{
    match value.as_u64() {
        Some(number) => usize::try_from(number).ok(),
        None => None,
    }
}

/// The number at an index.
pub fn number_at(value: &Value, index: usize) -> Option<usize>
    ensures { result ≡ number_in (view value.now) index }
{
    number(at(value, index)?)
}

/// Whether the part at an index is this number.
pub fn is_number_at(value: &Value, index: usize, wanted: usize) -> bool
    ensures { result ≡ has_number_at (view value.now) index wanted }
{
    number_at(value, index) == Some(wanted)
}
