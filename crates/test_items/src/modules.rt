// The contents of modules and documents.
use crate::told::Told;
use document_reader::{Document, DocumentError, read_document};
use ir_items::Module;
use serde_json::Value;
use std::alloc::{AllocError, Global};
use test_support::call::{freeing, no_call, text, told};

type Counts = (usize, usize, usize, usize);

/// The document in these bytes, if they are one.
pub fn document_of(alloc: Global, bytes: &[u8]) -> Result<Option<Document>, AllocError> {
    match read_document(alloc, bytes) {
        Ok(document) => Ok(Some(document)),
        Err(DocumentError::Memory) => Err(AllocError),
        Err(_) => Ok(None),
    }
}

fn counts_of_context(module: &Module) -> Counts {
    let context = module.to_ctx();
    (
        context.types.len(),
        context.constants.len(),
        context.overrides.len(),
        context.global_expressions.len(),
    )
}

fn counts(module: &Module) -> Counts {
    (
        module.types.len(),
        module.global_variables.len(),
        module.functions.len(),
        module.entry_points.len(),
    )
}

impl Told for Module {
    // The length of each list of a module, or of its context.
    fn tell(
        &mut self,
        alloc: Global,
        _source: &Self,
        _other: &Option<Self>,
        call: &Value,
    ) -> Result<String, AllocError> {
        match text(call, 0) {
            "context" => told(alloc, counts_of_context(self)),
            _ => told(alloc, counts(self)),
        }
    }
}

// The length of each list of a copy of a document.
fn of_copy(alloc: Global, document: &Document) -> Result<String, AllocError> {
    let copy = document.clone(alloc)?;
    freeing(told(alloc, counts(&copy.module)), copy)
}

/// The length of each list of a copy of a document.
pub fn of_document(alloc: Global, call: &Value) -> Result<String, AllocError> {
    match document_of(alloc, text(call, 1).as_bytes())? {
        Some(document) => freeing(of_copy(alloc, &document), document),
        None => no_call(alloc),
    }
}
