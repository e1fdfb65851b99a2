// The locations of SPIR-V instructions, as data.

use serde_json::{Map, Value, put};
use spirv_lines::{Position, error_text, position_in};
use spirv_words::SpirvError;
use std::alloc::{AllocError, Global};

/// Inserts the location of an instruction into an object: as text, and its file and line, or null if unknown. The error is out
/// of memory.
pub fn put_position(
    map: &mut Map<String, Value>,
    alloc: Global,
    position: &Position,
) -> Result<(), AllocError> {
    let at = format!(in alloc; "{position}")?;
    put(map, alloc, "at", Value::try_from_str(alloc, &at)?)?;
    let (file, line) = match position {
        Position::Source(line) => (
            Value::try_from_str(alloc, &line.file)?,
            Value::from(u64::from(line.number)),
        ),
        Position::Module(_) => (Value::Null, Value::Null),
    };
    put(map, alloc, "file", file)?;
    put(map, alloc, "line", line)
}

/// One JSON object with the reason why no module was read, in one line without a line feed. The error is out of memory.
pub fn unread_json(alloc: Global, bytes: &[u8], error: &SpirvError) -> Result<String, AllocError> {
    let (verdict, word) = match error {
        SpirvError::Memory => return Err(AllocError),
        SpirvError::Malformed { word, .. } => ("malformed", *word),
        SpirvError::Unsupported { word, .. } => ("unsupported", *word),
    };
    let text = error_text(alloc, bytes, error)?;
    let position = match position_in(alloc, bytes, word) {
        Ok(position) => position,
        Err(_) => return Err(AllocError),
    };
    let mut map = Map::new(alloc);
    put(
        &mut map,
        alloc,
        "verdict",
        Value::try_from_str(alloc, verdict)?,
    )?;
    put(&mut map, alloc, "word", Value::from(u64::from(word)))?;
    put_position(&mut map, alloc, &position)?;
    put(&mut map, alloc, "text", Value::try_from_str(alloc, &text)?)?;
    Value::Object(map).to_string(alloc)
}
