// The questions about the types, the expressions and the functions of a document.
use crate::conditions::{Test, tests_told};
use crate::constness::{kinds_told, tracked};
use crate::infos::{Reported, infos_told};
use crate::layouts::{laid, layouts_told};
use crate::left::left_told;
use crate::summaries::{ordered, summaries_told, summarized};
use crate::types::{typed, types_told};
use document_reader::{Document, DocumentError, read_document};
use std::alloc::{AllocError, Global};
use test_support::call::freeing;

// The answer about the types of a document, or the error of the first invalid one.
fn infos_of(alloc: Global, reported: Reported, document: &Document) -> Result<String, AllocError> {
    let capabilities = document.settings.capabilities;
    infos_told(alloc, reported, capabilities, &document.module.types)
}

// The answer to a question about a document.
fn answer_of(alloc: Global, question: &str, document: &mut Document) -> Result<String, AllocError> {
    match question {
        "left of layouts" | "left of functions" | "left of a copy" | "left of returns" => {
            left_told(alloc, question, document)
        }
        _ => answer_unchanged(alloc, question, document),
    }
}

// The answer to a question that changes nothing.
fn answer_unchanged(
    alloc: Global,
    question: &str,
    document: &Document,
) -> Result<String, AllocError> {
    let module = &document.module;
    match question {
        "layouts" => layouts_told(alloc, &module.types),
        "constness" => kinds_told(alloc, module),
        "types" => types_told(alloc, module),
        "tests" => tests_told(alloc, module, None),
        "tests but callees" => tests_told(alloc, module, Some(Test::Callees)),
        "tests but filters" => tests_told(alloc, module, Some(Test::Filters)),
        "tests but arities" => tests_told(alloc, module, Some(Test::Arities)),
        "infos" => infos_of(alloc, Reported::Infos, document),
        "refused" => infos_of(alloc, Reported::Refusal, document),
        "summaries" => summaries_told(alloc, module, document.settings.flags),
        _ => measured(alloc, question, document),
    }
}

// The answer to a question for measurements: whether all types can be laid out, all kinds or all types of expressions are
// found, the handles of all functions are in order, and each function is analysed; or nothing is done. Each is measured alone.
fn measured(alloc: Global, question: &str, document: &Document) -> Result<String, AllocError> {
    let module = &document.module;
    let word = match question {
        "laid" => laid(alloc, &module.types),
        "tracked" => tracked(alloc, module),
        "typed" => typed(alloc, module),
        "ordered" => Ok(ordered(module)),
        "summarized" => summarized(alloc, module, document.settings.flags),
        "read" => Ok("read"),
        _ => Ok("no question"),
    };
    String::from_str(alloc, word?)
}

/// The answer to a question about the document in a string.
pub fn answer(alloc: Global, question: &str, text: &str) -> Result<String, AllocError> {
    match read_document(alloc, text.as_bytes()) {
        Ok(mut document) => freeing(answer_of(alloc, question, &mut document), document),
        Err(DocumentError::Memory) => Err(AllocError),
        Err(_) => String::from_str(alloc, "no document"),
    }
}
