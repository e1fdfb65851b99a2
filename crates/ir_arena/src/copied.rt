//! Values that can be copied into memory of their own.

ghost use Rattle.std.specs.Prelude.{◌≡◌, map, IfOk};

use std::alloc::{AllocError, Global};

/// A type whose values can be copied into memory of their own.
pub trait Copied: Sized {
    /// The view of a value, which a copy preserves.
    ghost View: { Type 0 };

    ghost view: { Self → View };

    /// A copy with the same view. The error is out of memory.
    fn copied(&self, alloc: Global) -> Result<Self, AllocError>
        ensures { IfOk result (λ copy. view copy ≡ view self.now) };
}

/// A list of copies, with the same views. The error is out of memory.
pub fn copy_list<T: Copied + Drop>(alloc: Global, items: &[T]) -> Result<Vec<T>, AllocError>
    ensures { IfOk result (λ copy. map T.view copy.items ≡ map T.view items.now) }
{
    let mut copy = Vec::with_capacity(alloc, items.len())?;
    for item in items {
        copy.push(item.copied(alloc)?)?;
    }
    Ok(copy)
}
