// The word tables of bit flag sets: each word denotes the set with its one flag.
ghost use Rattle.std.specs.Prelude.{◌≡◌};
ghost use Rattle.document_words.specs.Tables.{storage_access, barriers, memory_decorations};
ghost use Rattle.document_words.specs.Unions.{access_union, barrier_union, decoration_union};

use crate::words::{SetWord, Word};
use ir_flags::{Barrier, MemoryDecorations, StorageAccess};

static STORAGE_ACCESS: [(&str, StorageAccess); 3] = [
    ("LOAD", StorageAccess::LOAD),
    ("STORE", StorageAccess::STORE),
    ("ATOMIC", StorageAccess::ATOMIC),
];

impl Word for StorageAccess {
    ghost table = { storage_access };

    fn table() -> &'static [(&'static str, StorageAccess)] {
        &STORAGE_ACCESS
    }
}

impl SetWord for StorageAccess {
    ghost none = { record { 0 = 0 } };

    ghost union = { access_union };

    fn none() -> StorageAccess {
        StorageAccess(0)
    }

    fn with(self, other: StorageAccess) -> StorageAccess {
        StorageAccess(self.0 | other.0)
    }
}

static BARRIERS: [(&str, Barrier); 4] = [
    ("STORAGE", Barrier::STORAGE),
    ("WORK_GROUP", Barrier::WORK_GROUP),
    ("SUB_GROUP", Barrier::SUB_GROUP),
    ("TEXTURE", Barrier::TEXTURE),
];

impl Word for Barrier {
    ghost table = { barriers };

    fn table() -> &'static [(&'static str, Barrier)] {
        &BARRIERS
    }
}

impl SetWord for Barrier {
    ghost none = { record { 0 = 0 } };

    ghost union = { barrier_union };

    fn none() -> Barrier {
        Barrier(0)
    }

    fn with(self, other: Barrier) -> Barrier {
        Barrier(self.0 | other.0)
    }
}

static MEMORY_DECORATIONS: [(&str, MemoryDecorations); 2] = [
    ("COHERENT", MemoryDecorations::COHERENT),
    ("VOLATILE", MemoryDecorations::VOLATILE),
];

impl Word for MemoryDecorations {
    ghost table = { memory_decorations };

    fn table() -> &'static [(&'static str, MemoryDecorations)] {
        &MEMORY_DECORATIONS
    }
}

impl SetWord for MemoryDecorations {
    ghost none = { record { 0 = 0 } };

    ghost union = { decoration_union };

    fn none() -> MemoryDecorations {
        MemoryDecorations(0)
    }

    fn with(self, other: MemoryDecorations) -> MemoryDecorations {
        MemoryDecorations(self.0 | other.0)
    }
}
