//! Bit flag sets of memory: accesses, barriers and decorations.

use crate::debug::write_set;
use bitflags::{Flag, Flags, bitflag_items};
use std::fmt;

/// The access mode of a storage buffer or a storage texture (naga's `StorageAccess`). A contract sees
/// the number of its bits, as `set.0`.
#[derive(Clone, Copy, PartialEq, Eq, Hash)]
pub struct StorageAccess(
    /// The bits as a number.
    pub u32,
);

bitflag_items! {
    impl StorageAccess: u32 {
        /// Loads.
        const LOAD = 1;
        /// Stores.
        const STORE = 2;
        /// Atomic operations on storage textures.
        const ATOMIC = 4;
    }
}

impl fmt::Debug for StorageAccess {
    fn fmt<W: fmt::Write>(&self, f: &mut fmt::Formatter<W>) -> fmt::Result {
        write_set(f, "StorageAccess", self)
    }
}

impl Flags for StorageAccess {
    ghost use Rattle.std.specs.Prelude.{⊤};
    ghost use Rattle.ir_flags.specs.Words.{storage_access_bits};

    type Bits = u32;

    ghost exact = { ⊤ };

    ghost table = { storage_access_bits };

    ghost set_of = { λ s. s.0 };

    fn flags<'a>() -> &'a [Flag<StorageAccess>] {
        StorageAccess::FLAGS
    }

    fn bits(&self) -> u32 {
        self.0
    }

    fn from_bits_retain(bits: u32) -> StorageAccess {
        StorageAccess(bits)
    }
}

/// The memory that a barrier orders (naga's `Barrier`). A contract sees
/// the number of its bits, as `set.0`.
#[derive(Clone, Copy, PartialEq, Eq)]
pub struct Barrier(
    /// The bits as a number.
    pub u32,
);

bitflag_items! {
    impl Barrier: u32 {
        /// Storage buffers.
        const STORAGE = 1;
        /// Workgroup memory.
        const WORK_GROUP = 2;
        /// The invocations of the subgroup.
        const SUB_GROUP = 4;
        /// Textures.
        const TEXTURE = 8;
    }
}

impl fmt::Debug for Barrier {
    fn fmt<W: fmt::Write>(&self, f: &mut fmt::Formatter<W>) -> fmt::Result {
        write_set(f, "Barrier", self)
    }
}

impl Flags for Barrier {
    ghost use Rattle.std.specs.Prelude.{⊤};
    ghost use Rattle.ir_flags.specs.Words.{barrier_bits};

    type Bits = u32;

    ghost exact = { ⊤ };

    ghost table = { barrier_bits };

    ghost set_of = { λ s. s.0 };

    fn flags<'a>() -> &'a [Flag<Barrier>] {
        Barrier::FLAGS
    }

    fn bits(&self) -> u32 {
        self.0
    }

    fn from_bits_retain(bits: u32) -> Barrier {
        Barrier(bits)
    }
}

/// The memory decorations of a storage buffer (naga's `MemoryDecorations`). A contract sees
/// the number of its bits, as `set.0`.
#[derive(Clone, Copy, PartialEq, Eq)]
pub struct MemoryDecorations(
    /// The bits as a number.
    pub u8,
);

bitflag_items! {
    impl MemoryDecorations: u8 {
        /// Coherent: other invocations see the writes.
        const COHERENT = 1;
        /// Volatile: the memory may change at any time.
        const VOLATILE = 2;
    }
}

impl fmt::Debug for MemoryDecorations {
    fn fmt<W: fmt::Write>(&self, f: &mut fmt::Formatter<W>) -> fmt::Result {
        write_set(f, "MemoryDecorations", self)
    }
}

impl Flags for MemoryDecorations {
    ghost use Rattle.std.specs.Prelude.{⊤};
    ghost use Rattle.ir_flags.specs.Words.{memory_decoration_bits};

    type Bits = u8;

    ghost exact = { ⊤ };

    ghost table = { memory_decoration_bits };

    ghost set_of = { λ s. s.0 };

    fn flags<'a>() -> &'a [Flag<MemoryDecorations>] {
        MemoryDecorations::FLAGS
    }

    fn bits(&self) -> u8 {
        self.0
    }

    fn from_bits_retain(bits: u8) -> MemoryDecorations {
        MemoryDecorations(bits)
    }
}
