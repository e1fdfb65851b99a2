// The invalid item, and why it is invalid.

use crate::causes::cause_value;
use crate::required::{Requirement, requirement_in};
use crate::sites::{body_of, site_of};
use crate::types::{forms_of, operand_types, refused_function, types_in};
use check_reasons::{OperandType, Reason, Refusal, name_of, path_of};
use check_sentences::function_errors::{Named, ValidationError};
use check_sentences::module_steps::ModuleError;
use check_sentences::part_path;
use ir_flags::Capabilities;
use ir_items::Module;
use judgement::{Finding, Step};
use serde_json::Value;
use std::alloc::{AllocError, Global};
use std::str::from_utf8;
use typing_forms::TypeResolution;

/// The item that fails a step, and why.
#[derive(Drop)]
pub struct RefusedItem {
    /// The name of the step.
    pub step: &'static str,
    /// Its index, if the step has one.
    pub index: Option<usize>,
    /// Its name, if it has one.
    pub name: Option<String>,
    /// The path of indices to it, or to its faulty part, from the outermost inward.
    pub path: Vec<u32>,
    /// The actual value, and what is required.
    pub text: String,
    /// The error in `Debug` form, with its fields.
    pub error: String,
    /// The broken rule of an expression, if its kind has several, as JSON; else null.
    pub cause: Value,
}

// The name of a step.
fn word_of(step: Step) -> &'static str {
    match step {
        Step::Layout => "layout",
        Step::Type => "type",
        Step::Typing => "typing",
        Step::Expression => "expression",
        Step::Constant => "constant",
        Step::Override => "override",
        Step::Global => "global",
        Step::Function => "function",
        Step::Entry => "entry",
    }
}

// The step and the index of a finding.
fn step_of(finding: Finding) -> (&'static str, Option<usize>) {
    match finding {
        Finding::Refused(step, index) => (word_of(step), Some(index)),
        Finding::RefusedHandles => ("handles", None),
        Finding::RefusedDocument => ("document", None),
        Finding::Accepted { .. } => ("", None),
    }
}

/// The bytes of a document as a JSON value; null if they are not JSON. The error is out of memory.
pub fn value_of(alloc: Global, bytes: &[u8]) -> Result<Value, AllocError> {
    let Ok(text) = from_utf8(bytes) else {
        return Ok(Value::Null);
    };
    match Value::from_str(alloc, text) {
        Ok(value) => Ok(value),
        Err(error) if error.is_memory() => Err(AllocError),
        Err(_) => Ok(Value::Null),
    }
}

fn copied(alloc: Global, name: Option<&str>) -> Result<Option<String>, AllocError> {
    match name {
        Some(name) => Ok(Some(String::from_str(alloc, name)?)),
        None => Ok(None),
    }
}

// The path to the item, and the reason.
fn reason_of(alloc: Global, refusal: &Refusal<'_>) -> Result<(Vec<u32>, String), AllocError> {
    let path = path_of(alloc, refusal)?;
    let reason = Reason {
        refusal: *refusal,
        path: &path,
    };
    match format!(in alloc; "{reason}") {
        Ok(text) => Ok((path, text)),
        Err(error) => Err(error),
    }
}

// Builds the item from the error.
fn item_of(
    alloc: Global,
    refusal: &Refusal<'_>,
    step: &'static str,
    index: Option<usize>,
    named: String,
    cause: Value,
) -> Result<RefusedItem, AllocError> {
    let (path, text) = reason_of(alloc, refusal)?;
    let name = copied(
        alloc,
        name_of(refusal.document, refusal.step, refusal.index),
    )?;
    Ok(RefusedItem {
        step,
        index,
        name,
        path,
        text,
        error: named,
        cause,
    })
}

// The marker of a range in `Debug` form, which is left out.
const MARKER: &str = ", marker: PhantomData<_>";

// The error in `Debug` form, without the `PhantomData` marker of a range.
fn name_with_fields(alloc: Global, error: &ValidationError) -> Result<String, AllocError> {
    let named = format!(in alloc; "{}", Named(error))?;
    match named.split_once(MARKER) {
        Some((before, after)) => format!(in alloc; "{before}{after}"),
        None => String::from_str(alloc, &named),
    }
}

// Whether the error is in a function, at a global expression, or at an item whose value is one.
fn is_of_values(error: &ValidationError) -> bool {
    match error {
        ValidationError::Module(error) => match error {
            ModuleError::ConstExpression(_) | ModuleError::Constant(_) | ModuleError::Override(_) =>
                true,
            ModuleError::InvalidHandle(_) | ModuleError::Layouter(_) | ModuleError::Typing(_) =>
                false,
        },
        ValidationError::GlobalVariable(_)
        | ValidationError::Function(_)
        | ValidationError::EntryPoint(_) => true,
    }
}

// The types of the expressions around the error, as far as they are known.
fn known_types(
    alloc: Global,
    module: &Module,
    error: &ValidationError,
) -> Result<Vec<TypeResolution>, AllocError> {
    if is_of_values(error) {
        types_in(alloc, module, refused_function(module, error))
    } else {
        Ok(Vec::new(alloc))
    }
}

// The details of an error of a document at this part, if it is neither in a body nor at a handle.
fn refusal_of<'a>(
    document: &'a Value,
    found: (&'static str, Option<usize>),
    error: &'a ValidationError,
    body: &'a [usize],
    part: &'a [usize],
    types: &'a [OperandType],
    required: &'a str,
) -> Refusal<'a> {
    let (step, index) = found;
    Refusal {
        document,
        step,
        index: index.unwrap_or(0),
        types,
        site: site_of(error, body, part),
        required,
    }
}

// The item of a document with this error and requirement.
fn item_in(
    alloc: Global,
    document: &Value,
    module: &Module,
    finding: Finding,
    error: &ValidationError,
    types: &[TypeResolution],
    requirement: &Requirement,
) -> Result<RefusedItem, AllocError> {
    let named = name_with_fields(alloc, error)?;
    let found = step_of(finding);
    let part = part_path(alloc, module, error)?;
    let operands = operand_types(alloc, module, types)?;
    let body = body_of(alloc, error)?;
    let required = requirement.text.as_str();
    let refusal = refusal_of(document, found, error, &body, &part, &operands, required);
    let cause = match &requirement.cause {
        Some(cause) => cause_value(alloc, module, cause)?,
        None => Value::Null,
    };
    let (step, index) = found;
    item_of(alloc, &refusal, step, index, named, cause)
}

/// The item of a module, of the document in the bytes, with this error, and the finding for it, under these capabilities. The
/// error is out of memory.
pub fn refused_item(
    alloc: Global,
    capabilities: Capabilities,
    bytes: &[u8],
    module: &Module,
    finding: Finding,
    error: &ValidationError,
) -> Result<RefusedItem, AllocError> {
    let types = known_types(alloc, module, error)?;
    let forms = forms_of(alloc, module, &types)?;
    let requirement = requirement_in(alloc, capabilities, &*module, &forms, &*error)?;
    match value_of(alloc, bytes) {
        Ok(document) => item_in(
            alloc,
            &document,
            module,
            finding,
            error,
            &types,
            &requirement,
        ),
        Err(memory) => Err(memory),
    }
}
