// The kinds of messages: a request, a notification or a response of JSON-RPC 2.0.
ghost use Rattle.std.specs.Prelude.{◌≡◌, codes, option_map};
ghost use Rattle.serde_json.specs.Find.{get};
ghost use Rattle.serde_json.specs.View.{view};
ghost use Rattle.editor_protocol.specs.Messages.{by_answer, by_id, is_id, is_version, kind_in, kind_of, text_at};

use serde_json::Value;

/// A message.
#[derive(Clone, Copy)]
pub(crate) enum Message<'a> {
    /// A request, which has a response with its id.
    Request {
        id: &'a Value,
        method: &'a str,
        params: Option<&'a Value>,
    },
    /// A notification, which has no response.
    Notification {
        method: &'a str,
        params: Option<&'a Value>,
    },
    /// A response. The server sends no requests, so it ignores it.
    Response,
    /// It is not a message of JSON-RPC 2.0.
    NoMessage,
}

/// The string at a key of an object.
pub(crate) fn text_at<'a>(value: &'a Value, key: &str) -> Option<&'a str>
    ensures { option_map (λ t. t.now) result ≡ text_at key.now (view value.now) }
{
    match value.get(key) {
        Some(found) => found.as_str(),
        None => None,
    }
}

fn is_version(version: Option<&str>) -> bool
    ensures { result ≡ is_version (option_map (λ t. t.now) version.entry) }
{
    match version {
        Some(version) => version == "2.0",
        None => false,
    }
}

fn is_id(id: &Value) -> bool
    ensures { result ≡ is_id (view id.now) }
{
    id.is_number() || id.is_string()
}

// The kind of a message with this method.
fn with_method<'a>(value: &'a Value, method: &'a str) -> Message<'a>
    ensures { kind_in result ≡ by_id (get (codes "id") (view value.now)) }
{
    let params = value.get("params");
    match value.get("id") {
        None => Message::Notification { method, params },
        Some(id) if is_id(id) => Message::Request { id, method, params },
        Some(_) => Message::NoMessage,
    }
}

// The kind of a message without a method.
fn without_method(value: &Value) -> Message<'_>
    ensures { kind_in result ≡ by_answer (view value.now) }
{
    if value.get("result").is_some() || value.get("error").is_some() {
        Message::Response
    } else {
        Message::NoMessage
    }
}

/// The kind of a message.
pub(crate) fn message_of(value: &Value) -> Message<'_>
    ensures { kind_in result ≡ kind_of (view value.now) }
{
    if !is_version(text_at(value, "jsonrpc")) {
        return Message::NoMessage;
    }
    match text_at(value, "method") {
        Some(method) => with_method(value, method),
        None => without_method(value),
    }
}
