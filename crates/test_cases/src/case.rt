// A case, and the result of the check.
use crate::check::check;
use crate::rows::{Answer, Row};
use base64::engine::general_purpose::STANDARD;
use document_reader::Document;
use document_writer::write_document;
use serde_json::Value;
use shader_check::{DocumentError, read_document};
use std::alloc::{AllocError, Global};
use test_support::call::freeing;
use test_support::fakes::Padded;

/// A document, with the expected output, or whether it is one.
#[derive(Clone, Copy)]
struct Case<'a> {
    input: &'a [u8],
    spaces: u64,
    form: Option<bool>,
    output: &'a str,
}

// The string with this key, if any.
fn text_of<'a>(item: &'a Value, key: &str) -> Option<&'a str> {
    item.get(key)?.as_str()
}

// The number of spaces after the input, if it is a number.
fn spaces_of(item: &Value) -> Option<u64> {
    match item.get("spaces") {
        Some(number) => number.as_u64(),
        None => Some(0),
    }
}

// A case with this input from a data file; nothing if a part is missing or malformed.
fn case_of<'a>(item: &'a Value, input: &'a [u8]) -> Option<Case<'a>> {
    let form = item.get("form").and_then(Value::as_bool);
    let output = match form {
        Some(_) => "",
        None => text_of(item, "output")?,
    };
    Some(Case {
        input,
        spaces: spaces_of(item)?,
        form,
        output,
    })
}

fn first_line(text: &str) -> &str {
    text.lines().next().unwrap_or("")
}

// Whether the document is written as it was read.
fn is_written_so(alloc: Global, document: &Document, input: &[u8]) -> Result<bool, AllocError> {
    match write_document(alloc, document) {
        Ok(text) => Ok(freeing(text.as_bytes() == input, text)),
        Err(error) => Err(error),
    }
}

// Whether the bytes are a document that is written as it was read, or `None` if they are not a document.
fn form_of(alloc: Global, input: &[u8]) -> Result<Option<bool>, AllocError> {
    match read_document(alloc, input) {
        Ok(document) => freeing(is_written_so(alloc, &document, input).map(Some), document),
        Err(DocumentError::Memory) => Err(AllocError),
        Err(_) => Ok(None),
    }
}

// Reads the case's bytes as a document, and writes it. Returns the difference from the expected result, if any.
fn judge_form(alloc: Global, case: Case<'_>, form: bool) -> Result<Option<String>, AllocError> {
    let found = form_of(alloc, case.input)?;
    if found == form.then_some(true) {
        return Ok(None);
    }
    let difference = format!(in alloc;
        "a document: {form} is expected, but whether it was read and written as it was read is {found:?}"
    )?;
    Ok(Some(difference))
}

// How a result and its output differ from the expected ones.
fn difference(
    alloc: Global,
    case: Case<'_>,
    answer: Answer,
    written: &[u8],
) -> Result<Option<String>, AllocError> {
    let row = Row {
        input: "",
        expected: case.output,
    };
    if row.is_met(answer, written) {
        return Ok(None);
    }
    let wanted = first_line(case.output);
    let line = first_line(std::str::from_utf8(written).unwrap_or("no text"));
    let difference = format!(in alloc;
        "{wanted:?} is known, but it wrote {line:?} and answered {answer:?}"
    )?;
    Ok(Some(difference))
}

// Runs the check on the case's bytes, and compares.
fn judge_output(alloc: Global, case: Case<'_>) -> Result<Option<String>, AllocError> {
    let mut written: Vec<u8> = Vec::new(alloc);
    let reader = Padded {
        text: case.input,
        spaces: case.spaces,
    };
    let checked = check(alloc, reader, &mut written);
    freeing(difference(alloc, case, checked.answer, &written), written)
}

// The message for an item that is not a case.
fn no_case(alloc: Global) -> Result<Option<String>, AllocError> {
    String::from_str(alloc, "a part is missing, or of another form").map(Some)
}

// The same for a case with this input.
fn judge_input(alloc: Global, item: &Value, input: &[u8]) -> Result<Option<String>, AllocError> {
    let Some(case) = case_of(item, input) else {
        return no_case(alloc);
    };
    match case.form {
        Some(form) => judge_form(alloc, case, form),
        None => judge_output(alloc, case),
    }
}

/// Reads the bytes of a case as a document if its data file says whether they are one, else runs the check on them. Returns the
/// difference from the expected result, if any.
pub fn judge(alloc: Global, item: &Value) -> Result<Option<String>, AllocError> {
    let Some(text) = text_of(item, "input_b64") else {
        return match text_of(item, "input") {
            Some(text) => judge_input(alloc, item, text.as_bytes()),
            None => no_case(alloc),
        };
    };
    match STANDARD.decode(alloc, text.as_bytes()) {
        Ok(input) => freeing(judge_input(alloc, item, &input), input),
        Err(_) => no_case(alloc),
    }
}
