// Diagnostics of a document.

use crate::document::{Document, Text};
use crate::reply::notice;
use editor_text::{Encoding, Part, Position, position_of};
use serde_json::{Map, Value, json, put};
use std::alloc::{AllocError, Global};

/// The diagnostic of a text.
#[derive(Clone, Copy)]
pub struct Slip<'a> {
    /// Its range.
    pub part: Part,
    /// Its message.
    pub text: &'a str,
}

// A position as JSON of the protocol.
fn position_value(alloc: Global, position: Position) -> Result<Value, AllocError> {
    json!(in alloc; {"line": (position.line as u64), "character": (position.column as u64)})
}

// A range of a text as JSON of the protocol. If it is out of bounds, it is the end of the text.
fn range_value(
    alloc: Global,
    encoding: Encoding,
    text: &[u8],
    part: Part,
) -> Result<Value, AllocError> {
    let start = position_of(encoding, text, part.start.min(text.len()));
    let end = position_of(encoding, text, part.end.min(text.len()));
    let start = position_value(alloc, start)?;
    let end = position_value(alloc, end)?;
    json!(in alloc; {"start": start, "end": end})
}

// A diagnostic as JSON of the protocol.
fn slip_value(
    alloc: Global,
    encoding: Encoding,
    text: &[u8],
    slip: Slip<'_>,
) -> Result<Value, AllocError> {
    let range = range_value(alloc, encoding, text, slip.part)?;
    json!(in alloc; {
        "range": range,
        "severity": 1,
        "source": "shader-check",
        "message": (slip.text)
    })
}

// The diagnostics notification for a document.
fn noted(alloc: Global, document: &Document, slips: Value) -> Result<String, AllocError> {
    let mut params = Map::new(alloc);
    put(
        &mut params,
        alloc,
        "uri",
        Value::try_from_str(alloc, &document.uri)?,
    )?;
    if let Some(version) = document.version {
        put(&mut params, alloc, "version", Value::from(version))?;
    }
    put(&mut params, alloc, "diagnostics", slips)?;
    notice(
        alloc,
        "textDocument/publishDiagnostics",
        Value::Object(params),
    )
}

/// The notification that a document has no diagnostics any more. The error is out of memory.
pub(crate) fn withdrawn(alloc: Global, document: &Document) -> Result<String, AllocError> {
    noted(alloc, document, json!(in alloc; [])?)
}

/// The diagnostics notification for a document. The error is out of memory.
pub(crate) fn published(
    alloc: Global,
    encoding: Encoding,
    document: &Document,
    slip: Option<Slip<'_>>,
) -> Result<String, AllocError> {
    let Some(slip) = slip else {
        return withdrawn(alloc, document);
    };
    let text: &[u8] = match &document.text {
        Text::Known(text) => text,
        Text::TooLong => &[],
    };
    let slip = slip_value(alloc, encoding, text, slip)?;
    noted(alloc, document, json!(in alloc; [slip])?)
}
