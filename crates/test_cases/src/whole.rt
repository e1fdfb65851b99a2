// Whether a document is valid, and its error.
use crate::modules::error_told;
use crate::refusals::refusal_reported;
use document_reader::Document;
use function_entry_checks::EntryPointError;
use shader_check::{
    Examined, Finding, InvalidEntryPoint, Named, ValidationError, examine_document, refused_by,
};
use std::alloc::{AllocError, Global};
use test_support::call::freeing;

// The error of an entry point: that of its function in words, any other by name.
fn entry_told(alloc: Global, refused: &InvalidEntryPoint) -> Result<String, AllocError> {
    match &refused.error {
        EntryPointError::Function(error) => refusal_reported(alloc, "entry", refused.index, error),
        error => format!(in alloc; "entry {} {error:?}", refused.index),
    }
}

// The error of a module: that of a function in words.
fn told_in_words(alloc: Global, error: &ValidationError) -> Result<String, AllocError> {
    match error {
        ValidationError::Module(error) => error_told(alloc, error),
        ValidationError::GlobalVariable(refused) => {
            format!(in alloc; "global {} {:?}", refused.global.index(), refused.error)
        }
        ValidationError::Function(refused) => {
            refusal_reported(alloc, "function", refused.function.index(), &refused.error)
        }
        ValidationError::EntryPoint(refused) => entry_told(alloc, refused),
    }
}

// The verdict, and the error by name with its fields.
fn told_by_name(alloc: Global, error: &ValidationError) -> Result<String, AllocError> {
    match refused_by(error) {
        Finding::Refused(step, index) => {
            format!(in alloc; "refused {step} {index}: {}", Named(error))
        }
        _ => format!(in alloc; "refused handles: {}", Named(error)),
    }
}

// Whether a document is valid, or its error.
fn found_told(alloc: Global, question: &str, found: &Examined) -> Result<String, AllocError> {
    match found {
        Examined::Accepted { .. } => String::from_str(alloc, "accepted"),
        Examined::Refused(error) => match question {
            "functions" => told_in_words(alloc, error),
            _ => told_by_name(alloc, error),
        },
    }
}

/// Whether a document is valid, or its error: that of a function in words if the question is `functions`, else the verdict and
/// the error by name. Missing returns are inserted if the document asks for it.
pub fn refusal_told(
    alloc: Global,
    question: &str,
    document: &mut Document,
) -> Result<String, AllocError> {
    match examine_document(alloc, document) {
        Ok(found) => freeing(found_told(alloc, question, &found), found),
        Err(error) => Err(error),
    }
}
