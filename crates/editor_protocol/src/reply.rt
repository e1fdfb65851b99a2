// The texts of responses and of notifications.
ghost use Rattle.std.specs.Prelude.{IfOk, string_bytes};
ghost use Rattle.serde_json.specs.View.{view};
ghost use Rattle.editor_protocol.specs.Replies.{IsResponse, IsResponseTo};

use crate::fault::Fault;
use serde_json::{Value, json};
use std::alloc::{AllocError, Global};

// The object of a result with an id.
fn result_object(alloc: Global, id: &Value, given: Value) -> Result<Value, AllocError>
    ensures { IfOk result (λ v. IsResponseTo (view id.now) (view v)) }
{
    json!(in alloc; {"jsonrpc": "2.0", "id": id, "result": given})
}

// The object of an error with an id.
fn error_object(alloc: Global, id: &Value, fault: Fault) -> Result<Value, AllocError>
    ensures { IfOk result (λ v. IsResponseTo (view id.now) (view v)) }
{
    let text = format!(in alloc; "{fault}")?;
    let error = json!(in alloc; {"code": (fault.code()), "message": (text.as_str())})?;
    json!(in alloc; {"jsonrpc": "2.0", "id": id, "error": error})
}

/// The response with a result to the request with this id. The error is out of memory.
pub(crate) fn response(alloc: Global, id: &Value, given: Value) -> Result<String, AllocError>
    ensures { IfOk result (λ text. IsResponse (view id.now) (string_bytes text)) }
{
    match result_object(alloc, id, given) {
        Ok(object) => object.to_string(alloc),
        Err(error) => Err(error),
    }
}

/// The response with an error to the request with this id, or to a message without one, with id null. The error is out of memory.
pub(crate) fn refusal(alloc: Global, id: &Value, fault: Fault) -> Result<String, AllocError>
    ensures { IfOk result (λ text. IsResponse (view id.now) (string_bytes text)) }
{
    match error_object(alloc, id, fault) {
        Ok(object) => object.to_string(alloc),
        Err(error) => Err(error),
    }
}

/// A notification with this method. The error is out of memory.
pub(crate) fn notice(alloc: Global, method: &str, params: Value) -> Result<String, AllocError> {
    json!(in alloc; {"jsonrpc": "2.0", "method": method, "params": params})?.to_string(alloc)
}

/// A notification of the error of a message that has no response. The error is out of memory.
pub(crate) fn complaint(alloc: Global, about: &str, why: &str) -> Result<String, AllocError> {
    let text = format!(in alloc; "{about}: {why}")?;
    let params = json!(in alloc; {"type": 1, "message": (text.as_str())})?;
    notice(alloc, "window/logMessage", params)
}
