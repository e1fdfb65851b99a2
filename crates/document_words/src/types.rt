// The word tables of types.
ghost use Rattle.document_words.specs.Tables.{scalars, spaces, scalar_kinds, cooperative_roles, image_dimensions, storage_formats};

use crate::words::Word;
use ir_kinds::{AddressSpace, CooperativeRole, ImageDimension, Scalar, ScalarKind, StorageFormat};

static SCALAR_KINDS: [(&str, ScalarKind); 6] = [
    ("Sint", ScalarKind::Sint),
    ("Uint", ScalarKind::Uint),
    ("Float", ScalarKind::Float),
    ("Bool", ScalarKind::Bool),
    ("AbstractInt", ScalarKind::AbstractInt),
    ("AbstractFloat", ScalarKind::AbstractFloat),
];

impl Word for ScalarKind {
    ghost table = { scalar_kinds };

    fn table() -> &'static [(&'static str, ScalarKind)] {
        &SCALAR_KINDS
    }
}

static COOPERATIVE_ROLES: [(&str, CooperativeRole); 3] = [
    ("A", CooperativeRole::A),
    ("B", CooperativeRole::B),
    ("C", CooperativeRole::C),
];

impl Word for CooperativeRole {
    ghost table = { cooperative_roles };

    fn table() -> &'static [(&'static str, CooperativeRole)] {
        &COOPERATIVE_ROLES
    }
}

static IMAGE_DIMENSIONS: [(&str, ImageDimension); 4] = [
    ("D1", ImageDimension::D1),
    ("D2", ImageDimension::D2),
    ("D3", ImageDimension::D3),
    ("Cube", ImageDimension::Cube),
];

impl Word for ImageDimension {
    ghost table = { image_dimensions };

    fn table() -> &'static [(&'static str, ImageDimension)] {
        &IMAGE_DIMENSIONS
    }
}

static STORAGE_FORMATS: [(&str, StorageFormat); 41] = [
    ("R8Unorm", StorageFormat::R8Unorm),
    ("R8Snorm", StorageFormat::R8Snorm),
    ("R8Uint", StorageFormat::R8Uint),
    ("R8Sint", StorageFormat::R8Sint),
    ("R16Uint", StorageFormat::R16Uint),
    ("R16Sint", StorageFormat::R16Sint),
    ("R16Float", StorageFormat::R16Float),
    ("Rg8Unorm", StorageFormat::Rg8Unorm),
    ("Rg8Snorm", StorageFormat::Rg8Snorm),
    ("Rg8Uint", StorageFormat::Rg8Uint),
    ("Rg8Sint", StorageFormat::Rg8Sint),
    ("R32Uint", StorageFormat::R32Uint),
    ("R32Sint", StorageFormat::R32Sint),
    ("R32Float", StorageFormat::R32Float),
    ("Rg16Uint", StorageFormat::Rg16Uint),
    ("Rg16Sint", StorageFormat::Rg16Sint),
    ("Rg16Float", StorageFormat::Rg16Float),
    ("Rgba8Unorm", StorageFormat::Rgba8Unorm),
    ("Rgba8Snorm", StorageFormat::Rgba8Snorm),
    ("Rgba8Uint", StorageFormat::Rgba8Uint),
    ("Rgba8Sint", StorageFormat::Rgba8Sint),
    ("Bgra8Unorm", StorageFormat::Bgra8Unorm),
    ("Rgb10a2Uint", StorageFormat::Rgb10a2Uint),
    ("Rgb10a2Unorm", StorageFormat::Rgb10a2Unorm),
    ("Rg11b10Ufloat", StorageFormat::Rg11b10Ufloat),
    ("R64Uint", StorageFormat::R64Uint),
    ("Rg32Uint", StorageFormat::Rg32Uint),
    ("Rg32Sint", StorageFormat::Rg32Sint),
    ("Rg32Float", StorageFormat::Rg32Float),
    ("Rgba16Uint", StorageFormat::Rgba16Uint),
    ("Rgba16Sint", StorageFormat::Rgba16Sint),
    ("Rgba16Float", StorageFormat::Rgba16Float),
    ("Rgba32Uint", StorageFormat::Rgba32Uint),
    ("Rgba32Sint", StorageFormat::Rgba32Sint),
    ("Rgba32Float", StorageFormat::Rgba32Float),
    ("R16Unorm", StorageFormat::R16Unorm),
    ("R16Snorm", StorageFormat::R16Snorm),
    ("Rg16Unorm", StorageFormat::Rg16Unorm),
    ("Rg16Snorm", StorageFormat::Rg16Snorm),
    ("Rgba16Unorm", StorageFormat::Rgba16Unorm),
    ("Rgba16Snorm", StorageFormat::Rgba16Snorm),
];

impl Word for StorageFormat {
    ghost table = { storage_formats };

    fn table() -> &'static [(&'static str, StorageFormat)] {
        &STORAGE_FORMATS
    }
}

static SCALARS: [(&str, Scalar); 12] = [
    (
        "bool",
        Scalar {
            kind: ScalarKind::Bool,
            width: 1,
        },
    ),
    (
        "i16",
        Scalar {
            kind: ScalarKind::Sint,
            width: 2,
        },
    ),
    (
        "u16",
        Scalar {
            kind: ScalarKind::Uint,
            width: 2,
        },
    ),
    (
        "i32",
        Scalar {
            kind: ScalarKind::Sint,
            width: 4,
        },
    ),
    (
        "u32",
        Scalar {
            kind: ScalarKind::Uint,
            width: 4,
        },
    ),
    (
        "i64",
        Scalar {
            kind: ScalarKind::Sint,
            width: 8,
        },
    ),
    (
        "u64",
        Scalar {
            kind: ScalarKind::Uint,
            width: 8,
        },
    ),
    (
        "f16",
        Scalar {
            kind: ScalarKind::Float,
            width: 2,
        },
    ),
    (
        "f32",
        Scalar {
            kind: ScalarKind::Float,
            width: 4,
        },
    ),
    (
        "f64",
        Scalar {
            kind: ScalarKind::Float,
            width: 8,
        },
    ),
    (
        "aint",
        Scalar {
            kind: ScalarKind::AbstractInt,
            width: 8,
        },
    ),
    (
        "afloat",
        Scalar {
            kind: ScalarKind::AbstractFloat,
            width: 8,
        },
    ),
];

impl Word for Scalar {
    ghost table = { scalars };

    fn table() -> &'static [(&'static str, Scalar)] {
        &SCALARS
    }
}

static SPACES: [(&str, AddressSpace); 9] = [
    ("Function", AddressSpace::Function),
    ("Private", AddressSpace::Private),
    ("WorkGroup", AddressSpace::WorkGroup),
    ("Uniform", AddressSpace::Uniform),
    ("Handle", AddressSpace::Handle),
    ("Immediate", AddressSpace::Immediate),
    ("TaskPayload", AddressSpace::TaskPayload),
    ("RayPayload", AddressSpace::RayPayload),
    ("IncomingRayPayload", AddressSpace::IncomingRayPayload),
];

impl Word for AddressSpace {
    ghost table = { spaces };

    fn table() -> &'static [(&'static str, AddressSpace)] {
        &SPACES
    }
}
