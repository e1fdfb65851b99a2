// The JSON object of a validation result.

ghost use Rattle.std.specs.Prelude.{◌≡◌, IfOk, OnOk, codes, option_map};
ghost use Rattle.serde_json.specs.Data.{put as with_member, string};
ghost use Rattle.serde_json.specs.View.{members_view, view};
ghost use Rattle.check_faults.specs.Objects.{Has, number_or_null as number_data, steps as steps_data, text_or_null as text_data};

use crate::error_text::name_of;
use crate::fields::fields_value;
use serde_json::{Map, Value, push, put};
use std::alloc::{AllocError, Global};

/// The details of an invalid document.
#[derive(Clone, Copy)]
pub struct Refused<'a> {
    /// The word for the finding.
    pub verdict: &'a str,
    /// The name of the step.
    pub step: &'a str,
    /// The index of the item, if the step has one.
    pub index: Option<usize>,
    /// The name of the item, if it has one.
    pub name: Option<&'a str>,
    /// The error in `Debug` form, with its fields.
    pub error: &'a str,
    /// The path, as text.
    pub path: &'a str,
    /// The path, as indices.
    pub steps: &'a [u32],
    /// The reason.
    pub text: &'a str,
}

fn number_or_null(number: Option<usize>) -> Value
    ensures { view result ≡ number_data number }
{
    match number {
        Some(number) => Value::from(number as u64),
        None => Value::Null,
    }
}

fn text_or_null(alloc: Global, text: Option<&str>) -> Result<Value, AllocError>
    ensures { IfOk result (λ v. view v ≡ text_data (option_map (λ t. t.now) text.entry)) }
{
    match text {
        Some(text) => Value::try_from_str(alloc, text),
        None => Ok(Value::Null),
    }
}

fn steps_value(alloc: Global, steps: &[u32]) -> Result<Value, AllocError>
    ensures { IfOk result (λ v. view v ≡ steps_data steps.now) }
{
    let mut list = Vec::new(alloc);
    for step in steps {
        push(&mut list, Value::from(u64::from(*step)))?;
    }
    Ok(Value::Array(list))
}

// Inserts a string at a key of an object.
fn put_text(
    map: &mut Map<String, Value>,
    alloc: Global,
    key: &str,
    text: &str,
) -> Result<(), AllocError>
    ensures { OnOk result (members_view map.new.entries ≡ with_member key.now (string text.now) (members_view map.old.entries)) }
{
    put(map, alloc, key, Value::try_from_str(alloc, text)?)
}

// Inserts a string, or null, at a key of an object.
fn put_optional_text(
    map: &mut Map<String, Value>,
    alloc: Global,
    key: &str,
    text: Option<&str>,
) -> Result<(), AllocError>
    ensures { OnOk result (members_view map.new.entries
        ≡ with_member key.now (text_data (option_map (λ t. t.now) text.entry)) (members_view map.old.entries)) }
{
    put(map, alloc, key, text_or_null(alloc, text)?)
}

// Inserts the indices of a path at the key `steps` of an object.
fn put_steps(map: &mut Map<String, Value>, alloc: Global, steps: &[u32]) -> Result<(), AllocError>
    ensures { OnOk result (members_view map.new.entries ≡ with_member (codes "steps") (steps_data steps.now) (members_view map.old.entries)) }
{
    put(map, alloc, "steps", steps_value(alloc, steps)?)
}

/// The object of an invalid document, with the location in a function and the broken rule. The error is out of
/// memory.
pub fn refused_value(
    alloc: Global,
    refused: &Refused<'_>,
    place: Value,
    cause: Value,
) -> Result<Value, AllocError>
    ensures verdict { IfOk result (λ v. Has (view v) (codes "verdict") (string refused.now.verdict.now)) }
    ensures step { IfOk result (λ v. Has (view v) (codes "step") (string refused.now.step.now)) }
    ensures index { IfOk result (λ v. Has (view v) (codes "index") (number_data refused.now.index)) }
    ensures name { IfOk result (λ v. Has (view v) (codes "name") (text_data (option_map (λ t. t.now) refused.now.name))) }
    ensures path { IfOk result (λ v. Has (view v) (codes "path") (string refused.now.path.now)) }
    ensures steps { IfOk result (λ v. Has (view v) (codes "steps") (steps_data refused.now.steps.now)) }
    ensures text { IfOk result (λ v. Has (view v) (codes "text") (string refused.now.text.now)) }
{
    let mut map = Map::new(alloc);
    put_text(&mut map, alloc, "verdict", refused.verdict)?;
    put_text(&mut map, alloc, "step", refused.step)?;
    put(&mut map, alloc, "index", number_or_null(refused.index))?;
    put_optional_text(&mut map, alloc, "name", refused.name)?;
    let error = refused.error.as_bytes();
    put_text(&mut map, alloc, "error", name_of(error))?;
    put(&mut map, alloc, "fields", fields_value(alloc, error)?)?;
    put_text(&mut map, alloc, "path", refused.path)?;
    put_steps(&mut map, alloc, refused.steps)?;
    put_text(&mut map, alloc, "text", refused.text)?;
    put(&mut map, alloc, "place", place)?;
    put(&mut map, alloc, "cause", cause)?;
    Ok(Value::Object(map))
}

/// The object of bytes that are not a document, with the line and the byte column at which the JSON parser stopped, both from 1, if
/// they are not JSON. The error is out of memory.
pub fn no_document_value(
    alloc: Global,
    path: &str,
    steps: &[u32],
    text: &str,
    line: Option<usize>,
    column: Option<usize>,
) -> Result<Value, AllocError>
    ensures verdict { IfOk result (λ v. Has (view v) (codes "verdict") (string (codes "refused"))) }
    ensures step { IfOk result (λ v. Has (view v) (codes "step") (string (codes "document"))) }
    ensures path { IfOk result (λ v. Has (view v) (codes "path") (string path.now)) }
    ensures steps { IfOk result (λ v. Has (view v) (codes "steps") (steps_data steps.now)) }
    ensures text { IfOk result (λ v. Has (view v) (codes "text") (string text.now)) }
    ensures line { IfOk result (λ v. Has (view v) (codes "line") (number_data line)) }
    ensures column { IfOk result (λ v. Has (view v) (codes "column") (number_data column)) }
{
    let mut map = Map::new(alloc);
    put_text(&mut map, alloc, "verdict", "refused")?;
    put_text(&mut map, alloc, "step", "document")?;
    put_text(&mut map, alloc, "path", path)?;
    put_steps(&mut map, alloc, steps)?;
    put_text(&mut map, alloc, "text", text)?;
    put(&mut map, alloc, "line", number_or_null(line))?;
    put(&mut map, alloc, "column", number_or_null(column))?;
    Ok(Value::Object(map))
}
