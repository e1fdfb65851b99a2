// The error of a decoder, and where in the JSON value it is.
ghost use Rattle.std.specs.Prelude.{◌≡◌, ◌≢◌, ◌↔◌};
ghost use Rattle.document_forms.specs.declared.error.ReadError.TheVariants.{Memory};

use crate::wanted::Wanted;
use std::alloc::{AllocError, AllocFailed};
use std::fmt::{self, Display};
use thiserror::Error;

/// The path to an element of nested arrays: the indices from the outermost array on, up to a fixed number of levels.
#[derive(Clone, Copy, Debug, PartialEq, Eq)]
pub struct Place {
    steps: [u32; 8],
    // the number of levels, which may exceed those stored
    count: u8,
}

impl Place {
    // The top-level value.
    fn here() -> Place {
        Place {
            steps: [0; 8],
            count: 0,
        }
    }

    // The same place, inside the array element at this index.
    fn inside(self, index: usize) -> Place {
        let [a, b, c, d, e, f, g, _] = self.steps;
        Place {
            steps: [
                u32::try_from(index).unwrap_or(u32::MAX),
                a,
                b,
                c,
                d,
                e,
                f,
                g,
            ],
            count: self.count.saturating_add(1),
        }
    }

    /// The indices, the outermost first.
    pub fn steps(&self) -> &[u32] {
        let count = usize::from(self.count).min(self.steps.len());
        &self.steps[..count]
    }
}

impl Display for Place {
    fn fmt<W: fmt::Write>(&self, f: &mut fmt::Formatter<W>) -> fmt::Result {
        if self.count == 0 {
            return write!(f, "the whole");
        }
        for index in self.steps() {
            write!(f, "[{index}]")?;
        }
        Ok(())
    }
}

/// The error of a decoder.
#[derive(Clone, Copy, Debug, PartialEq, Eq, Error)]
pub enum ReadError {
    /// Out of memory for the decoded item.
    #[error("out of memory")]
    Memory,
    /// The JSON value does not have the expected form.
    #[error("{place}: {} is wanted", .wanted.text())]
    Malformed {
        /// The first element that does not.
        place: Place,
        /// What is expected there.
        wanted: Wanted,
    },
}

impl ReadError {
    /// The error at the value itself.
    pub fn here(wanted: Wanted) -> ReadError
        ensures { result ≢ Memory }
    {
        ReadError::Malformed {
            place: Place::here(),
            wanted,
        }
    }

    /// The same error, inside the array element at this index.
    pub fn at(self, index: usize) -> ReadError
        ensures { (result ≡ Memory) ↔ (self ≡ Memory) }
    {
        match self {
            ReadError::Memory => ReadError::Memory,
            ReadError::Malformed { place, wanted } => ReadError::Malformed {
                place: place.inside(index),
                wanted,
            },
        }
    }
}

impl From<AllocError> for ReadError {
    ghost from_gives = { λ _ e. e ≡ Memory };

    fn from(_e: AllocError) -> ReadError {
        ReadError::Memory
    }
}

impl<T: Drop> From<AllocFailed<T>> for ReadError {
    ghost from_gives = { λ _ e. e ≡ Memory };

    fn from(_e: AllocFailed<T>) -> ReadError {
        ReadError::Memory
    }
}
