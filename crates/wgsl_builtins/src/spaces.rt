// Address spaces and access modes.

use ir_flags::StorageAccess;
use ir_kinds::AddressSpace;
use wgsl_words::find;

static SPACES: [(&str, AddressSpace); 9] = [
    ("function", AddressSpace::Function),
    ("private", AddressSpace::Private),
    ("workgroup", AddressSpace::WorkGroup),
    ("uniform", AddressSpace::Uniform),
    (
        "storage",
        AddressSpace::Storage {
            access: StorageAccess(0),
        },
    ),
    ("immediate", AddressSpace::Immediate),
    ("task_payload", AddressSpace::TaskPayload),
    ("ray_payload", AddressSpace::RayPayload),
    ("incoming_ray_payload", AddressSpace::IncomingRayPayload),
];

/// The address space with this name; `storage` has no access yet.
pub fn space_of(word: &[u8]) -> Option<AddressSpace> {
    find(&SPACES, word)
}

static ACCESSES: [(&str, StorageAccess); 4] = [
    ("read", StorageAccess(1)),
    ("write", StorageAccess(2)),
    ("read_write", StorageAccess(3)),
    ("atomic", StorageAccess(7)),
];

/// The access mode with this name.
pub fn access_of(word: &[u8]) -> Option<StorageAccess> {
    find(&ACCESSES, word)
}
