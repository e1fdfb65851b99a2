//! The layout of a type.

ghost use Rattle.std.specs.Prelude.{◌+◌, ◌≤◌};
ghost use Rattle.typing_layout.specs.judged.Layout.{IsLeastMultiple};

use crate::alignment::Alignment;

/// The size of a type's values and their alignment (naga's `TypeLayout`). Their sum is at
/// most 4294967296, so that the stride of an array of the type fits.
#[derive(Clone, Copy, PartialEq, Eq, Debug)]
pub struct TypeLayout {
    /// In bytes.
    pub size: u32,
    /// The alignment of a value's address.
    pub alignment: Alignment,
    ghost in_range: { size + alignment ≤ 4294967296 },
}

impl TypeLayout {
    /// The minimum stride of an array of elements of the type, in bytes: the size rounded up to a multiple of the
    /// alignment.
    pub fn to_stride(&self) -> u32
        ensures { IsLeastMultiple self.now.alignment self.now.size result }
    {
        self.alignment.round_up(self.size)
    }
}
