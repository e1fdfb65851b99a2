// The documents that are open in the editor.
ghost use Rattle.std.specs.Prelude.{◌≡◌, ◌≤◌, ◌<◌, IfOk, IfSome, OnOk, length, slice_index};
ghost use Rattle.editor_protocol.specs.Documents.{IsWithin};

use crate::message::text_at;
use editor_text::{Encoding, Part, Position, byte_of, replaced};
use serde_json::Value;
use std::alloc::{AllocError, Global};

/// The maximum size of a text that is kept, in bytes.
pub const MAX_TEXT: usize = 64 << 20;

/// The maximum number of open documents.
pub const MAX_DOCUMENTS: usize = 1000;

/// The maximum number of changes in a message.
pub const MAX_CHANGES: usize = 10_000;

/// The text of a document.
#[derive(Drop)]
pub enum Text {
    /// Its bytes.
    Known(Vec<u8>),
    /// It is longer than [`MAX_TEXT`], and is not kept.
    TooLong,
}

/// A document that is open in the editor.
#[derive(Drop)]
pub struct Document {
    /// Its URI.
    pub uri: String,
    /// Its version, if the editor gives one.
    pub version: Option<i64>,
    /// Its text.
    pub text: Text,
}

// A content change: of a range, or of the whole text.
#[derive(Clone, Copy)]
struct Change<'a> {
    range: Option<(Position, Position)>,
    text: &'a str,
}

// A number at a key of an object.
fn number_at(value: &Value, key: &str) -> Option<usize> {
    Some(value.get(key)?.as_u64()? as usize)
}

// A position at a key of an object.
fn position_at(value: &Value, key: &str) -> Option<Position> {
    let value = value.get(key)?;
    Some(Position {
        line: number_at(value, "line")?,
        column: number_at(value, "character")?,
    })
}

// The change in a JSON object; nothing if it is not a content change of the protocol.
fn change_of(value: &Value) -> Option<Change<'_>> {
    let text = text_at(value, "text")?;
    let range = match value.get("range") {
        Some(range) => Some((position_at(range, "start")?, position_at(range, "end")?)),
        None => None,
    };
    Some(Change { range, text })
}

// A copy of the bytes, unless there are too many.
fn kept(alloc: Global, bytes: &[u8]) -> Result<Text, AllocError>
    ensures { IfOk result IsWithin }
{
    if bytes.len() > MAX_TEXT {
        return Ok(Text::TooLong);
    }
    Ok(Text::Known(bytes.to_vec(alloc)?))
}

// The text with a range replaced, unless the result is too long.
fn spliced(alloc: Global, text: &[u8], part: Part, by: &[u8]) -> Result<Text, AllocError>
    requires { part.end ≤ length text.now }
    ensures { IfOk result IsWithin }
{
    let new = replaced(alloc, text, part, by)?;
    if new.len() > MAX_TEXT {
        return Ok(Text::TooLong);
    }
    Ok(Text::Known(new))
}

// The text after a change.
fn changed(
    alloc: Global,
    encoding: Encoding,
    text: &Text,
    change: Change<'_>,
) -> Result<Text, AllocError>
    ensures { IfOk result IsWithin }
{
    let by = change.text.as_bytes();
    match (change.range, text) {
        (None, _) => kept(alloc, by),
        (Some(_), Text::TooLong) => Ok(Text::TooLong),
        (Some((from, to)), Text::Known(text)) => {
            let start = byte_of(encoding, text, from);
            let end = byte_of(encoding, text, to).max(start);
            spliced(alloc, text, Part { start, end }, by)
        }
    }
}

impl Document {
    /// The document in an object of the protocol; nothing if there is none. The error is out of memory.
    pub(crate) fn of(alloc: Global, value: &Value) -> Result<Option<Document>, AllocError> {
        let (Some(uri), Some(text)) = (text_at(value, "uri"), text_at(value, "text")) else {
            return Ok(None);
        };
        let version = version_of(value);
        let text = kept(alloc, text.as_bytes())?;
        let uri = String::from_str(alloc, uri)?;
        Ok(Some(Document { uri, version, text }))
    }

    /// Applies the changes in order. Returns whether they are valid changes of the protocol; if not, the text is unchanged.
    /// The error is out of memory; some of the changes may be applied.
    pub(crate) fn change(
        &mut self,
        alloc: Global,
        encoding: Encoding,
        changes: &[Value],
    ) -> Result<bool, AllocError> {
        if changes.len() > MAX_CHANGES {
            return Ok(false);
        }
        for change in changes {
            if change_of(change).is_none() {
                return Ok(false);
            }
        }
        for change in changes {
            if let Some(change) = change_of(change) {
                self.text = changed(alloc, encoding, &self.text, change)?;
            }
        }
        Ok(true)
    }
}

/// The version of a document, in an object of the protocol.
pub(crate) fn version_of(value: &Value) -> Option<i64> {
    value.get("version")?.as_i64()
}

/// The index of a document in a list, by its URI.
pub(crate) fn place_of(documents: &[Document], uri: &str) -> Option<usize>
    ensures { IfSome result (λ at. at < length documents.now) }
{
    documents.iter().position(|it| it.uri.as_str() == uri)
}
