// Why no module was read from a text.

use crate::excerpt::Excerpt;
use crate::location::Location;
use serde_json::{Map, Value, put};
use std::alloc::{AllocError, Global};
use wgsl_reader::{Cause, WgslError, message_of};

/// The part of the text that an error is about.
pub fn unread_location(bytes: &[u8], error: &WgslError) -> Location {
    Location::new(
        bytes,
        error.extent.start as usize,
        error.extent.end as usize,
    )
}

/// Why no module was read from a text, with the excerpt. The error is out of memory.
pub fn unread_text(alloc: Global, bytes: &[u8], error: &WgslError) -> Result<String, AllocError> {
    let mut text = message_of(alloc, bytes, error)?;
    let location = unread_location(bytes, error);
    let excerpt = Excerpt::new(bytes, &location);
    let excerpt = format!(in alloc; "\n{excerpt}")?;
    text.push_str(&excerpt)?;
    Ok(text)
}

/// One JSON object with the reason why no module was read, in one line without a line feed. The error is out of memory.
pub fn unread_object(alloc: Global, bytes: &[u8], error: &WgslError) -> Result<String, AllocError> {
    let verdict = match error.cause {
        Cause::Memory => return Err(AllocError),
        Cause::Malformed => "malformed",
        Cause::Unsupported => "unsupported",
    };
    let text = message_of(alloc, bytes, error)?;
    let location = unread_location(bytes, error);
    let mut map = Map::new(alloc);
    put(
        &mut map,
        alloc,
        "verdict",
        Value::try_from_str(alloc, verdict)?,
    )?;
    put(&mut map, alloc, "text", Value::try_from_str(alloc, &text)?)?;
    put(&mut map, alloc, "wgsl", location.value(alloc)?)?;
    Value::Object(map).to_string(alloc)
}
