// Reads a document from bytes.
ghost use Rattle.std.specs.Prelude.{◌≢◌, IfOk, IfErr};
ghost use Rattle.document_reader.specs.judged.Plain.{PlainDocument};
ghost use Rattle.document_reader.specs.found.View.{document_view};
ghost use Rattle.document_reader.specs.judged.Form.{IsValueOf, Reads};
ghost use Rattle.serde_json.specs.Data.{Data};
ghost use Rattle.serde_json.specs.View.{view as data_of};
ghost use Rattle.document_reader.specs.found.Reasons.{IsReason};
ghost use Rattle.document_reader.specs.declared.error.DocumentError.TheVariants.{Memory};

use crate::document::read_value;
use crate::error::DocumentError;
use crate::model::Document;
use ir_sets::keyed::KeyedState;
use serde_json::Value;
use std::alloc::Global;

/// The greatest length of a document in bytes.
pub const MAX_LEN: usize = 16777216;

// The JSON value of the bytes, if these are not too long.
fn value_of(alloc: Global, bytes: &[u8]) -> Result<Value, DocumentError>
    ensures value { IfOk result (λ value. IsValueOf bytes.now (data_of value)) }
    ensures reason { IfErr result (λ e. IsReason bytes.now e) }
    ensures none { IfErr result (λ e. e ≢ Memory → (value : Data) → ¬ IsValueOf bytes.now value) }
{
    if bytes.len() > MAX_LEN {
        return Err(DocumentError::TooLong);
    }
    match Value::from_slice(alloc, bytes) {
        Ok(value) => Ok(value),
        Err(e) if e.is_memory() => Err(DocumentError::Memory),
        Err(e) => Err(DocumentError::NotJson {
            line: e.line(),
            column: e.column(),
        }),
    }
}

/// Decodes the document of the bytes. An error other than [`DocumentError::Memory`] proves that they are none, and says why:
/// [`DocumentError::TooLong`] if there are too many bytes, [`DocumentError::NotJson`] if the JSON reader rejects
/// them, [`DocumentError::Malformed`] if their JSON value encodes no document with distinct types.
pub fn read_document(alloc: Global, bytes: &[u8]) -> Result<Document, DocumentError>
    ensures found { IfOk result (λ d. Reads bytes.now (document_view d)) }
    ensures reason { IfErr result (λ e. IsReason bytes.now e) }
    ensures refused { IfErr result (λ e. e ≢ Memory → (d : PlainDocument) → ¬ Reads bytes.now d) }
{
    match value_of(alloc, bytes) {
        Ok(value) => Ok(read_value(alloc, value, KeyedState::of_bytes(bytes))?),
        Err(error) => Err(error),
    }
}

/// Decodes the document of the bytes, which are freed once the JSON reader has read them, so that the document and the
/// bytes are never both allocated.
pub fn take_document(alloc: Global, bytes: Vec<u8>) -> Result<Document, DocumentError>
    ensures found { IfOk result (λ d. Reads bytes.items (document_view d)) }
    ensures reason { IfErr result (λ e. IsReason bytes.items e) }
    ensures refused { IfErr result (λ e. e ≢ Memory → (d : PlainDocument) → ¬ Reads bytes.items d) }
{
    let read = value_of(alloc, bytes.as_slice());
    let key = KeyedState::of_bytes(bytes.as_slice());
    drop(bytes);
    match read {
        Ok(value) => Ok(read_value(alloc, value, key)?),
        Err(error) => Err(error),
    }
}
