//! Handle errors.

use spec_expressions::ItemKind;

/// An error of a handle or of a range of handles. Indices are counted from 0.
#[derive(Clone, Copy)]
pub enum HandleFault {
    /// An item is referred to that does not exist.
    Missing {
        /// Its kind.
        kind: ItemKind,
        /// Its index.
        index: usize,
    },
    /// An item depends on one of the same arena that does not come before it.
    Forward {
        /// The kind of both.
        kind: ItemKind,
        /// The index of the item.
        index: usize,
        /// The index of its dependency.
        depends_on: usize,
    },
    /// A range of expressions ends before it begins, or is out of bounds.
    Range {
        /// The index of the first expression.
        first: u32,
        /// The index after the last expression.
        end: u32,
    },
}
