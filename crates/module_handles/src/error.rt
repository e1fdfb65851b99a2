//! The errors of a module's handles.

use ir_arena::handle::BadHandle;
use ir_arena::range::BadRangeError;
use thiserror::Error;

/// An item that depends on one at a later or equal index (naga's `FwdDepError`). Both are given by kind and
/// index, as in [`BadHandle`].
#[derive(Clone, Copy, PartialEq, Eq, Debug, Error)]
#[error("[{subject}] of kind {subject_kind:?} depends on [{depends_on}] of kind {depends_on_kind}, which has not been processed yet")]
pub struct FwdDepError {
    /// The index of the item.
    pub subject: usize,
    /// The word for its [`ir_arena::handle::Kind`].
    pub subject_kind: &'static str,
    /// The index of its dependency.
    pub depends_on: usize,
    /// The word for the dependency's kind.
    pub depends_on_kind: &'static str,
}

/// An invalid handle or range of a module (naga's `InvalidHandleError`).
#[derive(Clone, Copy, PartialEq, Eq, Debug, Error)]
pub enum InvalidHandleError {
    /// A handle is out of bounds.
    #[error(transparent)]
    BadHandle(BadHandle),
    /// An item depends on one that does not precede it.
    #[error(transparent)]
    ForwardDependency(FwdDepError),
    /// A range is reversed or out of bounds.
    #[error(transparent)]
    BadRange(BadRangeError),
}
