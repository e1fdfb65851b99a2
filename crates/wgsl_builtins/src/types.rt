// Predeclared types by name.

use crate::rays::RayWord;
use crate::textures::TextureKind;
use ir_kinds::{CooperativeRole, CooperativeSize, ImageDimension, Scalar, VectorSize};
use wgsl_words::find;

/// A predeclared type or type generator.
#[derive(Clone, Copy)]
pub enum TypeWord {
    /// A scalar.
    Scalar(Scalar),
    /// A vector whose scalar is a template argument or inferred from the components.
    Vector(VectorSize),
    /// A vector of this scalar.
    VectorOf(VectorSize, Scalar),
    /// A matrix with these columns and rows whose scalar is a template argument or inferred from the components.
    Matrix(VectorSize, VectorSize),
    /// A matrix of this scalar.
    MatrixOf(VectorSize, VectorSize, Scalar),
    /// An array.
    Array,
    /// An atomic.
    Atomic,
    /// A pointer.
    Pointer,
    /// A sampler, or a comparison sampler.
    Sampler(bool),
    /// A texture: its dimension, whether it is arrayed, and its kind.
    Texture(ImageDimension, bool, TextureKind),
    /// A binding array.
    BindingArray,
    /// A ray query type.
    Ray(RayWord),
    /// A cooperative matrix with this many columns and rows.
    Cooperative(CooperativeSize),
}

impl TypeWord {
    /// The maximum number of template arguments.
    pub fn most_arguments(self) -> usize {
        match self {
            TypeWord::Array | TypeWord::BindingArray | TypeWord::Cooperative(_) => 2,
            TypeWord::Texture(_, _, TextureKind::Storage) => 2,
            TypeWord::Pointer => 3,
            _ => 1,
        }
    }
}

static TYPES: [(&str, TypeWord); 81] = [
    ("bool", TypeWord::Scalar(Scalar::BOOL)),
    ("i32", TypeWord::Scalar(Scalar::I32)),
    ("u32", TypeWord::Scalar(Scalar::U32)),
    ("f32", TypeWord::Scalar(Scalar::F32)),
    ("f16", TypeWord::Scalar(Scalar::F16)),
    ("i64", TypeWord::Scalar(Scalar::I64)),
    ("u64", TypeWord::Scalar(Scalar::U64)),
    ("f64", TypeWord::Scalar(Scalar::F64)),
    ("i16", TypeWord::Scalar(Scalar::I16)),
    ("u16", TypeWord::Scalar(Scalar::U16)),
    ("vec2", TypeWord::Vector(VectorSize::Bi)),
    ("vec2i", TypeWord::VectorOf(VectorSize::Bi, Scalar::I32)),
    ("vec2u", TypeWord::VectorOf(VectorSize::Bi, Scalar::U32)),
    ("vec2f", TypeWord::VectorOf(VectorSize::Bi, Scalar::F32)),
    ("vec2h", TypeWord::VectorOf(VectorSize::Bi, Scalar::F16)),
    ("vec3", TypeWord::Vector(VectorSize::Tri)),
    ("vec3i", TypeWord::VectorOf(VectorSize::Tri, Scalar::I32)),
    ("vec3u", TypeWord::VectorOf(VectorSize::Tri, Scalar::U32)),
    ("vec3f", TypeWord::VectorOf(VectorSize::Tri, Scalar::F32)),
    ("vec3h", TypeWord::VectorOf(VectorSize::Tri, Scalar::F16)),
    ("vec4", TypeWord::Vector(VectorSize::Quad)),
    ("vec4i", TypeWord::VectorOf(VectorSize::Quad, Scalar::I32)),
    ("vec4u", TypeWord::VectorOf(VectorSize::Quad, Scalar::U32)),
    ("vec4f", TypeWord::VectorOf(VectorSize::Quad, Scalar::F32)),
    ("vec4h", TypeWord::VectorOf(VectorSize::Quad, Scalar::F16)),
    ("mat2x2", TypeWord::Matrix(VectorSize::Bi, VectorSize::Bi)),
    (
        "mat2x2f",
        TypeWord::MatrixOf(VectorSize::Bi, VectorSize::Bi, Scalar::F32),
    ),
    (
        "mat2x2h",
        TypeWord::MatrixOf(VectorSize::Bi, VectorSize::Bi, Scalar::F16),
    ),
    ("mat2x3", TypeWord::Matrix(VectorSize::Bi, VectorSize::Tri)),
    (
        "mat2x3f",
        TypeWord::MatrixOf(VectorSize::Bi, VectorSize::Tri, Scalar::F32),
    ),
    (
        "mat2x3h",
        TypeWord::MatrixOf(VectorSize::Bi, VectorSize::Tri, Scalar::F16),
    ),
    ("mat2x4", TypeWord::Matrix(VectorSize::Bi, VectorSize::Quad)),
    (
        "mat2x4f",
        TypeWord::MatrixOf(VectorSize::Bi, VectorSize::Quad, Scalar::F32),
    ),
    (
        "mat2x4h",
        TypeWord::MatrixOf(VectorSize::Bi, VectorSize::Quad, Scalar::F16),
    ),
    ("mat3x2", TypeWord::Matrix(VectorSize::Tri, VectorSize::Bi)),
    (
        "mat3x2f",
        TypeWord::MatrixOf(VectorSize::Tri, VectorSize::Bi, Scalar::F32),
    ),
    (
        "mat3x2h",
        TypeWord::MatrixOf(VectorSize::Tri, VectorSize::Bi, Scalar::F16),
    ),
    ("mat3x3", TypeWord::Matrix(VectorSize::Tri, VectorSize::Tri)),
    (
        "mat3x3f",
        TypeWord::MatrixOf(VectorSize::Tri, VectorSize::Tri, Scalar::F32),
    ),
    (
        "mat3x3h",
        TypeWord::MatrixOf(VectorSize::Tri, VectorSize::Tri, Scalar::F16),
    ),
    (
        "mat3x4",
        TypeWord::Matrix(VectorSize::Tri, VectorSize::Quad),
    ),
    (
        "mat3x4f",
        TypeWord::MatrixOf(VectorSize::Tri, VectorSize::Quad, Scalar::F32),
    ),
    (
        "mat3x4h",
        TypeWord::MatrixOf(VectorSize::Tri, VectorSize::Quad, Scalar::F16),
    ),
    ("mat4x2", TypeWord::Matrix(VectorSize::Quad, VectorSize::Bi)),
    (
        "mat4x2f",
        TypeWord::MatrixOf(VectorSize::Quad, VectorSize::Bi, Scalar::F32),
    ),
    (
        "mat4x2h",
        TypeWord::MatrixOf(VectorSize::Quad, VectorSize::Bi, Scalar::F16),
    ),
    (
        "mat4x3",
        TypeWord::Matrix(VectorSize::Quad, VectorSize::Tri),
    ),
    (
        "mat4x3f",
        TypeWord::MatrixOf(VectorSize::Quad, VectorSize::Tri, Scalar::F32),
    ),
    (
        "mat4x3h",
        TypeWord::MatrixOf(VectorSize::Quad, VectorSize::Tri, Scalar::F16),
    ),
    (
        "mat4x4",
        TypeWord::Matrix(VectorSize::Quad, VectorSize::Quad),
    ),
    (
        "mat4x4f",
        TypeWord::MatrixOf(VectorSize::Quad, VectorSize::Quad, Scalar::F32),
    ),
    (
        "mat4x4h",
        TypeWord::MatrixOf(VectorSize::Quad, VectorSize::Quad, Scalar::F16),
    ),
    ("array", TypeWord::Array),
    ("atomic", TypeWord::Atomic),
    ("ptr", TypeWord::Pointer),
    ("sampler", TypeWord::Sampler(false)),
    ("sampler_comparison", TypeWord::Sampler(true)),
    (
        "texture_1d",
        TypeWord::Texture(ImageDimension::D1, false, TextureKind::Sampled),
    ),
    (
        "texture_2d",
        TypeWord::Texture(ImageDimension::D2, false, TextureKind::Sampled),
    ),
    (
        "texture_2d_array",
        TypeWord::Texture(ImageDimension::D2, true, TextureKind::Sampled),
    ),
    (
        "texture_3d",
        TypeWord::Texture(ImageDimension::D3, false, TextureKind::Sampled),
    ),
    (
        "texture_cube",
        TypeWord::Texture(ImageDimension::Cube, false, TextureKind::Sampled),
    ),
    (
        "texture_cube_array",
        TypeWord::Texture(ImageDimension::Cube, true, TextureKind::Sampled),
    ),
    (
        "texture_multisampled_2d",
        TypeWord::Texture(ImageDimension::D2, false, TextureKind::Multisampled),
    ),
    (
        "texture_depth_2d",
        TypeWord::Texture(ImageDimension::D2, false, TextureKind::Depth),
    ),
    (
        "texture_depth_2d_array",
        TypeWord::Texture(ImageDimension::D2, true, TextureKind::Depth),
    ),
    (
        "texture_depth_cube",
        TypeWord::Texture(ImageDimension::Cube, false, TextureKind::Depth),
    ),
    (
        "texture_depth_cube_array",
        TypeWord::Texture(ImageDimension::Cube, true, TextureKind::Depth),
    ),
    (
        "texture_depth_multisampled_2d",
        TypeWord::Texture(ImageDimension::D2, false, TextureKind::MultisampledDepth),
    ),
    (
        "texture_storage_1d",
        TypeWord::Texture(ImageDimension::D1, false, TextureKind::Storage),
    ),
    (
        "texture_storage_2d",
        TypeWord::Texture(ImageDimension::D2, false, TextureKind::Storage),
    ),
    (
        "texture_storage_2d_array",
        TypeWord::Texture(ImageDimension::D2, true, TextureKind::Storage),
    ),
    (
        "texture_storage_3d",
        TypeWord::Texture(ImageDimension::D3, false, TextureKind::Storage),
    ),
    (
        "texture_external",
        TypeWord::Texture(ImageDimension::D2, false, TextureKind::External),
    ),
    (
        "acceleration_structure",
        TypeWord::Ray(RayWord::AccelerationStructure),
    ),
    ("ray_query", TypeWord::Ray(RayWord::Query)),
    ("RayDesc", TypeWord::Ray(RayWord::Descriptor)),
    ("RayIntersection", TypeWord::Ray(RayWord::Intersection)),
    ("binding_array", TypeWord::BindingArray),
    ("coop_mat8x8", TypeWord::Cooperative(CooperativeSize::Eight)),
    (
        "coop_mat16x16",
        TypeWord::Cooperative(CooperativeSize::Sixteen),
    ),
];

/// The predeclared type or type generator with this name.
pub fn type_of(word: &[u8]) -> Option<TypeWord> {
    find(&TYPES, word)
}

static ROLES: [(&str, CooperativeRole); 3] = [
    ("A", CooperativeRole::A),
    ("B", CooperativeRole::B),
    ("C", CooperativeRole::C),
];

/// The role of a cooperative matrix with this name.
pub fn role_of(word: &[u8]) -> Option<CooperativeRole> {
    find(&ROLES, word)
}
