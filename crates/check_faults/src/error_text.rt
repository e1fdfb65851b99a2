// The parsing of an error in `Debug` form: `Name`, `Name(part, part)` or `Name { field: part }`.

ghost use Rattle.std.specs.Prelude.{◌≡◌, ◌≤◌, [], IsUtf8, length, take};
ghost use Rattle.check_faults.specs.Names.{head as head_of, is_name as is_of_name, name_length as length_of_name};

use std::str::from_utf8;

// The state of a scan of an error: the number of open brackets, and whether it is in a string.
#[derive(Clone, Copy)]
struct Scan {
    depth: u32,
    quoted: bool,
    escaped: bool,
}

impl Scan {
    fn start() -> Scan {
        Scan {
            depth: 0,
            quoted: false,
            escaped: false,
        }
    }

    // The state after one more byte.
    fn after(self, byte: u8) -> Scan {
        if self.quoted {
            return Scan {
                depth: self.depth,
                quoted: self.escaped || byte != b'"',
                escaped: !self.escaped && byte == b'\\',
            };
        }
        let depth = match byte {
            b'(' | b'[' | b'{' | b'<' => self.depth.saturating_add(1),
            b')' | b']' | b'}' | b'>' => self.depth.saturating_sub(1),
            _ => self.depth,
        };
        Scan {
            depth,
            quoted: byte == b'"',
            escaped: false,
        }
    }

    fn is_outside(self) -> bool {
        self.depth == 0 && !self.quoted
    }
}

// The number of bytes before the first such byte outside brackets, or before the end.
fn length_before(text: &[u8], end: u8) -> usize {
    let mut scan = Scan::start();
    for (index, byte) in text.iter().enumerate() {
        if *byte == end && scan.is_outside() {
            return index;
        }
        scan = scan.after(*byte);
    }
    text.len()
}

fn front(text: &[u8], count: usize) -> &[u8]
    ensures { count ≤ length text.now → result.now ≡ take count text.now }
{
    text.get(..count).unwrap_or(&[])
}

fn back(text: &[u8], count: usize) -> &[u8] {
    text.get(count..).unwrap_or(&[])
}

fn is_name(byte: u8) -> bool
    ensures { result ≡ is_of_name byte }
{
    byte.is_ascii_alphanumeric() || byte == b'_'
}

// The length of the identifier at the start.
fn name_length(text: &[u8]) -> usize
    ensures length { result ≡ length_of_name text.now }
    ensures within { result ≤ length text.now }
{
    for (index, byte) in text.iter().enumerate() {
        if !is_name(*byte) {
            return index;
        }
    }
    text.len()
}

// The bytes without a space at the start and one at the end.
fn trimmed(text: &[u8]) -> &[u8] {
    let rest = text.strip_prefix(b" ").unwrap_or(text);
    rest.strip_suffix(b" ").unwrap_or(rest)
}

/// The identifier that an error begins with.
pub fn head(error: &[u8]) -> &[u8]
    ensures { result.now ≡ head_of error.now }
{
    front(error, name_length(error))
}

/// The contents of the brackets after the name of an error.
pub fn inside(error: &[u8]) -> &[u8] {
    let rest = trimmed(back(error, name_length(error)));
    match rest.split_first() {
        Some((first, rest)) if *first == b'(' || *first == b'{' => {
            trimmed(front(rest, rest.len().saturating_sub(1)))
        }
        _ => &[],
    }
}

// The parts after the first one.
fn later_parts(parts: &[u8]) -> &[u8] {
    trimmed(back(parts, length_before(parts, b',').saturating_add(1)))
}

// A part without the name of its field.
fn value_of(part: &[u8]) -> &[u8] {
    let count = length_before(part, b':');
    if count < part.len() {
        trimmed(back(part, count.saturating_add(1)))
    } else {
        part
    }
}

/// The part at an index, or empty if there is none.
pub fn part(error: &[u8], index: usize) -> &[u8] {
    value_of(named_part(error, index))
}

/// The part with this name, which is a field name or a digit, or empty if there is none.
pub fn field<'a>(error: &'a [u8], name: &str) -> &'a [u8] {
    if let Ok(index) = name.parse::<u8>() {
        return part(error, usize::from(index));
    }
    let mut parts = inside(error);
    for _ in 0..16 {
        let first = front(parts, length_before(parts, b','));
        if front(first, length_before(first, b':')) == name.as_bytes() {
            return value_of(first);
        }
        parts = later_parts(parts);
    }
    &[]
}

// The part, if it is not empty.
fn given(part: &[u8]) -> &[u8] {
    if name_of(part) == "Some" {
        inside(part)
    } else {
        part
    }
}

/// The bytes as a string, or nothing if they are not UTF-8.
pub fn text_of(bytes: &[u8]) -> &str
    ensures text { IsUtf8 bytes.now → result.now ≡ bytes.now }
    ensures none { ¬ IsUtf8 bytes.now → result.now ≡ [] }
{
    from_utf8(bytes).unwrap_or("")
}

/// The identifier that an error begins with, as a string.
pub fn name_of(error: &[u8]) -> &str
    ensures { IsUtf8 (head_of error.now) → result.now ≡ head_of error.now }
{
    text_of(head(error))
}

/// A number, or the index of a handle.
pub fn number(part: &[u8]) -> Option<usize> {
    let bare = given(part);
    let open = bare.strip_prefix(b"[").unwrap_or(bare);
    let digits = open.strip_suffix(b"]").unwrap_or(open);
    text_of(digits).parse::<usize>().ok()
}

/// A string part, without its quotes.
pub fn quoted(part: &[u8]) -> &[u8] {
    let rest = part.strip_prefix(b"\"").unwrap_or(part);
    rest.strip_suffix(b"\"").unwrap_or(rest)
}

// The part at an index with its field name.
fn named_part(error: &[u8], index: usize) -> &[u8] {
    let mut parts = inside(error);
    for _ in 0..index {
        parts = later_parts(parts);
    }
    front(parts, length_before(parts, b','))
}

/// The field name at an index, or empty if it has none.
pub fn field_name(error: &[u8], index: usize) -> &[u8] {
    let found = named_part(error, index);
    let count = length_before(found, b':');
    if count < found.len() {
        front(found, count)
    } else {
        &[]
    }
}

/// The number of parts of an error, at most 16.
pub fn part_count(error: &[u8]) -> usize {
    let mut parts = inside(error);
    for count in 0..16usize {
        if parts.is_empty() {
            return count;
        }
        parts = later_parts(parts);
    }
    16
}

/// The index of the handle that a part of an error is, or nothing for any other part.
pub fn handle(part: &[u8]) -> Option<usize> {
    if part.first() == Some(&b'[') {
        number(part)
    } else {
        None
    }
}
