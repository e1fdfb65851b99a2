// A part of a text by lines and columns.
ghost use Rattle.std.specs.Prelude.{◌≡◌, ◌≤◌, length, min};
ghost use Rattle.editor_text.specs.Positions.{position_at};
ghost use Rattle.editor_text.specs.declared.position.Encoding.TheVariants.{Utf8, Utf16};

use editor_text::{Encoding, Part, Position, position_of};
use serde_json::{Map, Value, put};
use std::alloc::{AllocError, Global};

/// A part of a text, with the positions of its start and its end. Lines and columns count from 0.
#[derive(Clone, Copy, Debug, PartialEq, Eq)]
pub struct Location {
    /// Its bytes.
    pub part: Part,
    /// The position of its start, in UTF-16 code units.
    pub start: Position,
    /// The position of its end, in UTF-16 code units.
    pub end: Position,
    /// The position of its start, in bytes.
    pub start_in_bytes: Position,
    /// The position of its end, in bytes.
    pub end_in_bytes: Position,
}

impl Location {
    /// The bytes of a text from `start` on, before `end`, as far as the text goes; none if `end` is before `start`.
    pub fn new(text: &[u8], start: usize, end: usize) -> Location
        ensures start { result.part.start ≡ min start (length text.now) }
        ensures within { result.part.end ≤ length text.now }
        ensures units { result.start ≡ position_at Utf16 text.now result.part.start }
        ensures bytes { result.start_in_bytes ≡ position_at Utf8 text.now result.part.start }
    {
        let start = start.min(text.len());
        let end = end.min(text.len());
        let end = if end < start { start } else { end };
        Location {
            part: Part { start, end },
            start: position_of(Encoding::Utf16, text, start),
            end: position_of(Encoding::Utf16, text, end),
            start_in_bytes: position_of(Encoding::Utf8, text, start),
            end_in_bytes: position_of(Encoding::Utf8, text, end),
        }
    }

    /// The line, counted from 1.
    pub fn line(&self) -> usize {
        self.start.line.saturating_add(1)
    }

    /// The column in UTF-16 code units, counted from 1.
    pub fn column(&self) -> usize {
        self.start.column.saturating_add(1)
    }

    /// The JSON object: `offset` and `length` in bytes, `line`, `column` (UTF-16) and `byte_column` counted from 1, and the same of
    /// its `end`. The error is out of memory.
    pub fn value(&self, alloc: Global) -> Result<Value, AllocError> {
        let mut end = Map::new(alloc);
        put_position(&mut end, alloc, self.end, self.end_in_bytes)?;
        let mut map = Map::new(alloc);
        let length = self.part.end.saturating_sub(self.part.start);
        put_number(&mut map, alloc, "offset", self.part.start)?;
        put_number(&mut map, alloc, "length", length)?;
        put_position(&mut map, alloc, self.start, self.start_in_bytes)?;
        put(&mut map, alloc, "end", Value::Object(end))?;
        Ok(Value::Object(map))
    }
}

fn put_number(
    map: &mut Map<String, Value>,
    alloc: Global,
    key: &str,
    number: usize,
) -> Result<(), AllocError> {
    put(
        map,
        alloc,
        key,
        Value::from(u64::try_from(number).unwrap_or(u64::MAX)),
    )
}

// Inserts a position, counted from 1.
fn put_position(
    map: &mut Map<String, Value>,
    alloc: Global,
    units: Position,
    bytes: Position,
) -> Result<(), AllocError> {
    put_number(map, alloc, "line", units.line.saturating_add(1))?;
    put_number(map, alloc, "column", units.column.saturating_add(1))?;
    put_number(map, alloc, "byte_column", bytes.column.saturating_add(1))
}
