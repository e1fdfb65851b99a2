// Validation of SPIR-V modules with options.

use crate::choices::Choices;
use check_explanation::{Requested, SpirvError, Traced, explain_made};
use document_writer::write_document;
use spirv_reader::read_spirv;
use std::alloc::{AllocError, Global};

/// The explanation of the document that this SPIR-V binary is translated to, with these options, and with the requested
/// lines, if it is valid.
pub fn explain_chosen(
    alloc: Global,
    requested: Requested,
    choices: &Choices,
    bytes: &[u8],
) -> Result<Traced, SpirvError> {
    match read_spirv(alloc, bytes) {
        Ok(mut document) => {
            choices.apply(&mut document.settings);
            let traced = explain_made(alloc, requested, bytes, &mut document);
            drop(document);
            traced
        }
        Err(error) => Err(error),
    }
}

/// The document that the module is translated to, with these options, as JSON in one line without a line feed.
pub fn chosen_document(
    alloc: Global,
    choices: &Choices,
    bytes: &[u8],
) -> Result<String, SpirvError> {
    match read_spirv(alloc, bytes) {
        Ok(mut document) => {
            choices.apply(&mut document.settings);
            let text = write_document(alloc, &document);
            drop(document);
            match text {
                Ok(text) => Ok(text),
                Err(_) => Err(SpirvError::Memory),
            }
        }
        Err(error) => Err(error),
    }
}

/// The object of an explanation in one line without a line feed, with the skipped checks. The error is out of memory.
pub fn chosen_json(
    alloc: Global,
    choices: &Choices,
    traced: &Traced,
) -> Result<String, AllocError> {
    let without = choices.left_out(alloc)?;
    traced.json(alloc, &without)
}
