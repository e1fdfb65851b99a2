// The message of an error.

use crate::error::{Cause, Extent, Quote, WgslError};
use crate::places::place_of;
use std::alloc::{AllocError, Global};

// The maximum number of bytes quoted.
const MAX_QUOTE: usize = 80;

// The part of the text, with invalid UTF-8 replaced.
fn quoted(alloc: Global, text: &[u8], extent: Extent) -> Result<String, AllocError> {
    let start = extent.start as usize;
    let end = (extent.end as usize).min(start.saturating_add(MAX_QUOTE));
    let part = text.get(start..end).unwrap_or(&[]);
    String::from_utf8_lossy(alloc, part)
}

// The message without the location.
fn told(alloc: Global, text: &[u8], error: &WgslError) -> Result<String, AllocError> {
    let part = quoted(alloc, text, error.extent)?;
    let before = error.before;
    let after = error.after;
    match error.quote {
        Quote::Nothing => String::from_str(alloc, before),
        Quote::Name => format!(in alloc; "{before}`{part}`{after}"),
        Quote::Found => format!(in alloc; "{before}, found \"{part}\""),
    }
}

/// The message with the line and column, both counted from 1.
pub fn message_of(alloc: Global, text: &[u8], error: &WgslError) -> Result<String, AllocError> {
    let what = told(alloc, text, error)?;
    let place = place_of(text, error.extent.start as usize);
    let line = place.line.saturating_add(1);
    let column = place.column.saturating_add(1);
    match error.cause {
        Cause::Memory => Ok(what),
        Cause::Malformed => format!(in alloc; "malformed: {what} at {line}:{column}"),
        Cause::Unsupported => format!(in alloc; "unsupported: {what} at {line}:{column}"),
    }
}
