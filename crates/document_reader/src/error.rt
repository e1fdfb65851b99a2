// The error of a document reader.
ghost use Rattle.std.specs.Prelude.{◌≡◌};

use crate::reading::MAX_LEN;
use document_forms::{Place, ReadError, Wanted};
use std::alloc::AllocError;
use thiserror::Error;

/// Why bytes are rejected as a document.
#[derive(Clone, Copy, Debug, PartialEq, Eq, Error)]
pub enum DocumentError {
    /// Out of memory.
    #[error("out of memory")]
    Memory,
    /// There are more than [`MAX_LEN`] bytes.
    #[error("more than {max} bytes", max = MAX_LEN)]
    TooLong,
    /// The bytes are not UTF-8, not JSON, or nested deeper than [`MAX_DEPTH`](document_forms::MAX_DEPTH).
    #[error("no JSON at line {line}, column {column}")]
    NotJson {
        /// The line at which the JSON reader stopped, from 1.
        line: usize,
        /// The byte within that line, from 1, or 0 if the line has none.
        column: usize,
    },
    /// The JSON value is no document.
    #[error("{place}: {} is wanted", .wanted.text())]
    Malformed {
        /// The first element that does not have the expected form.
        place: Place,
        /// What is expected there.
        wanted: Wanted,
    },
}

impl From<AllocError> for DocumentError {
    ghost use Rattle.document_reader.specs.declared.error.DocumentError.TheVariants.{Memory};

    ghost from_gives = { λ _ e. e ≡ Memory };

    fn from(_e: AllocError) -> DocumentError {
        DocumentError::Memory
    }
}

impl From<ReadError> for DocumentError {
    ghost use Rattle.document_reader.specs.found.Reasons.{of_part};

    ghost from_gives = { λ p e. e ≡ of_part p };

    fn from(e: ReadError) -> DocumentError {
        match e {
            ReadError::Memory => DocumentError::Memory,
            ReadError::Malformed { place, wanted } => DocumentError::Malformed { place, wanted },
        }
    }
}
