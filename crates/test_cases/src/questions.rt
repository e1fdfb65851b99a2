// Questions about the modules of documents: whether all handles are in order, whether a module is valid up to its overrides,
// whether it is valid and its error, the error of a document, what a call leaves after its allocation failed, and the results
// of one validator for several modules. Prints which results differ from the expected ones.
//
// A line of a data file is a list of strings: the case's name, the question, a document, and the answer, or two that are both
// right. make_checks.py, make_functions.py, make_names.py and make_turns.py of test_typing write these files. The answers come
// from two independent implementations; the errors of functions come from the model in model_functions.py.
use crate::left::left_told;
use crate::modules::{Overrides, checks_told, handles_told};
use crate::turns::turns_told;
use crate::whole::refusal_told;
use anyhow::{Context, Result, ensure};
use document_reader::{Document, DocumentError, read_document};
use std::alloc::{AllocError, Global};
use std::fs;
use test_support::call::freeing;
use test_support::questions::{Questions, ask_lines};

/// The files of cases.
const FILES: [&str; 5] = [
    "handles.jsonl",
    "checks.jsonl",
    "functions.jsonl",
    "names.jsonl",
    "turns.jsonl",
];

// The answer to a question about a document.
fn answer_of(alloc: Global, question: &str, document: &mut Document) -> Result<String, AllocError> {
    match question {
        "handles" => handles_told(alloc, &document.module),
        "checks" => checks_told(alloc, document, Overrides::Open),
        "resolved" => checks_told(alloc, document, Overrides::Resolved),
        "functions" | "refusal" => refusal_told(alloc, question, document),
        "left of a report" => left_told(alloc, document),
        _ => String::from_str(alloc, "no question"),
    }
}

// The same for the document in these bytes.
fn answer_read(alloc: Global, question: &str, text: &str) -> Result<String, AllocError> {
    match read_document(alloc, text.as_bytes()) {
        Ok(mut document) => freeing(answer_of(alloc, question, &mut document), document),
        Err(DocumentError::Memory) => Err(AllocError),
        Err(_) => String::from_str(alloc, "no document"),
    }
}

// Answers them.
#[derive(Clone, Copy)]
struct Modules;

impl Questions for Modules {
    fn answer(&self, alloc: Global, question: &str, document: &str) -> Result<String, AllocError> {
        match question {
            "turns" => turns_told(alloc, document),
            _ => answer_read(alloc, question, document),
        }
    }
}

// Answers the questions of a file. Returns how many results differ.
fn ask_file(rt: &HostRuntime, name: &str) -> Result<usize> {
    let text = fs::read_to_string(rt, name).context(format_args!("reading {name}"))?;
    Ok(freeing(ask_lines(rt, &Modules, name, &text), text)?)
}

/// Answers all questions.
pub fn run(rt: &HostRuntime) -> Result<()> {
    let mut differing = 0usize;
    for name in FILES {
        differing = differing.saturating_add(ask_file(rt, name)?);
    }
    ensure!(differing == 0, "{differing} cases differ");
    Ok(())
}
