// An error as JSON, from its `Debug` form.

use crate::error_text::{field_name, inside, name_of, number, part, part_count, quoted, text_of};
use serde_json::{Map, Value, push, put};
use std::alloc::{AllocError, Global};

// The maximum nesting depth of an error.
const DEEPEST: u32 = 64;

// Bitsets, which are written as arrays of words.
static SETS: [&str; 7] = [
    "Capabilities",
    "TypeFlags",
    "StorageAccess",
    "GlobalUse",
    "UniformityRequirements",
    "SubgroupOperationSet",
    "ShaderStages",
];

fn is_set(name: &str) -> bool {
    for set in &SETS {
        if *set == name {
            return true;
        }
    }
    false
}

// The words of a set.
fn words(alloc: Global, set: &[u8]) -> Result<Value, AllocError> {
    let mut list = Vec::new(alloc);
    for word in text_of(set).split_whitespace() {
        if word != "|" {
            push(&mut list, Value::try_from_str(alloc, word)?)?;
        }
    }
    Ok(Value::Array(list))
}

// A part without nested parts: a number or a handle, a bool, a string or a word.
fn leaf(alloc: Global, text: &[u8]) -> Result<Value, AllocError> {
    if let Some(found) = number(text) {
        return Ok(Value::from(found as u64));
    }
    match text_of(text) {
        "None" => Ok(Value::Null),
        "true" => Ok(Value::Bool(true)),
        "false" => Ok(Value::Bool(false)),
        _ => Value::try_from_str(alloc, text_of(quoted(text))),
    }
}

// The parts of an error: an object if they have names, else an array.
#[cycle(values)]
fn parts_value(alloc: Global, error: &[u8], depth: u32) -> Result<Value, AllocError> {
    if depth == 0 {
        return Ok(Value::Null);
    }
    if error.ends_with(b"}") {
        return named_parts(alloc, error, depth - 1);
    }
    let mut list = Vec::new(alloc);
    for index in 0..part_count(error) {
        push(&mut list, value(alloc, part(error, index), depth - 1)?)?;
    }
    Ok(Value::Array(list))
}

#[cycle(values)]
fn named_parts(alloc: Global, error: &[u8], depth: u32) -> Result<Value, AllocError> {
    if depth == 0 {
        return Ok(Value::Null);
    }
    let mut map = Map::new(alloc);
    for index in 0..part_count(error) {
        let found = value(alloc, part(error, index), depth - 1)?;
        put(&mut map, alloc, text_of(field_name(error, index)), found)?;
    }
    Ok(Value::Object(map))
}

// A part of an error.
#[cycle(values)]
fn value(alloc: Global, text: &[u8], depth: u32) -> Result<Value, AllocError> {
    let name = name_of(text);
    if depth == 0 || part_count(text) == 0 {
        return leaf(alloc, text);
    }
    if is_set(name) {
        return words(alloc, inside(text));
    }
    if name == "Some" || name == "Alignment" {
        return value(alloc, part(text, 0), depth - 1);
    }
    inner_value(alloc, text, depth - 1)
}

#[cycle(values)]
fn inner_value(alloc: Global, text: &[u8], depth: u32) -> Result<Value, AllocError> {
    let mut map = Map::new(alloc);
    put(
        &mut map,
        alloc,
        "name",
        Value::try_from_str(alloc, name_of(text))?,
    )?;
    if depth > 0 {
        put(
            &mut map,
            alloc,
            "fields",
            parts_value(alloc, text, depth - 1)?,
        )?;
    }
    Ok(Value::Object(map))
}

/// All fields of an error, or null if it has none. The error is out of memory.
pub(crate) fn fields_value(alloc: Global, error: &[u8]) -> Result<Value, AllocError> {
    if part_count(error) == 0 {
        return Ok(Value::Null);
    }
    parts_value(alloc, error, DEEPEST)
}
