// Texture types and built-ins, and storage formats.

use ir_kinds::{ImageClass, StorageFormat};
use wgsl_words::find;

/// The kind of a texture type.
#[derive(Clone, Copy, PartialEq, Eq)]
pub enum TextureKind {
    /// A sampled texture.
    Sampled,
    /// A multisampled texture.
    Multisampled,
    /// A depth texture.
    Depth,
    /// A multisampled depth texture.
    MultisampledDepth,
    /// A storage texture.
    Storage,
    /// An external texture.
    External,
}

impl TextureKind {
    /// The image class of a texture that takes no template arguments: a depth texture or an external one. `None` for other kinds.
    pub fn plain_class(self) -> Option<ImageClass> {
        match self {
            TextureKind::Depth => Some(ImageClass::Depth { multi: false }),
            TextureKind::MultisampledDepth => Some(ImageClass::Depth { multi: true }),
            TextureKind::External => Some(ImageClass::External),
            TextureKind::Sampled | TextureKind::Multisampled | TextureKind::Storage => None,
        }
    }

    /// The end of the error message for a texture type without its template arguments.
    pub fn wanted(self) -> &'static str {
        match self {
            TextureKind::Storage =>
                " needs a template argument specified: `Format`, a texel format",
            _ => " needs a template argument specified: `T`, a scalar type",
        }
    }
}

/// An image query.
#[derive(Clone, Copy, PartialEq, Eq)]
pub enum QueryWord {
    /// `textureDimensions`.
    Dimensions,
    /// `textureNumLayers`.
    NumLayers,
    /// `textureNumLevels`.
    NumLevels,
    /// `textureNumSamples`.
    NumSamples,
}

/// A sample or a gather.
#[derive(Clone, Copy, PartialEq, Eq)]
pub enum SampleWord {
    /// `textureGather`.
    Gather,
    /// `textureGatherCompare`.
    GatherCompare,
    /// `textureSample`.
    Sample,
    /// `textureSampleBias`.
    Bias,
    /// `textureSampleCompare`.
    Compare,
    /// `textureSampleCompareLevel`.
    CompareLevel,
    /// `textureSampleGrad`.
    Grad,
    /// `textureSampleLevel`.
    Level,
    /// `textureSampleBaseClampToEdge`.
    BaseClampToEdge,
}

/// A texel atomic operation.
#[derive(Clone, Copy, PartialEq, Eq)]
pub enum TexelWord {
    /// `textureAtomicMin`.
    Min,
    /// `textureAtomicMax`.
    Max,
    /// `textureAtomicAdd`.
    Add,
    /// `textureAtomicAnd`.
    And,
    /// `textureAtomicOr`.
    Or,
    /// `textureAtomicXor`.
    Xor,
}

/// A texture built-in.
#[derive(Clone, Copy, PartialEq, Eq)]
pub enum TextureWord {
    /// An image query.
    Query(QueryWord),
    /// A sample or a gather.
    Sample(SampleWord),
    /// `textureLoad`.
    Load,
    /// `textureStore`.
    Store,
    /// A texel atomic operation.
    Atomic(TexelWord),
}

impl TextureWord {
    /// Whether the built-in returns a value.
    pub fn has_value(self) -> bool {
        match self {
            TextureWord::Query(_) | TextureWord::Sample(_) | TextureWord::Load => true,
            TextureWord::Store | TextureWord::Atomic(_) => false,
        }
    }
}

static FORMATS: [(&str, StorageFormat); 41] = [
    ("r8unorm", StorageFormat::R8Unorm),
    ("r8snorm", StorageFormat::R8Snorm),
    ("r8uint", StorageFormat::R8Uint),
    ("r8sint", StorageFormat::R8Sint),
    ("r16uint", StorageFormat::R16Uint),
    ("r16sint", StorageFormat::R16Sint),
    ("r16float", StorageFormat::R16Float),
    ("rg8unorm", StorageFormat::Rg8Unorm),
    ("rg8snorm", StorageFormat::Rg8Snorm),
    ("rg8uint", StorageFormat::Rg8Uint),
    ("rg8sint", StorageFormat::Rg8Sint),
    ("r32uint", StorageFormat::R32Uint),
    ("r32sint", StorageFormat::R32Sint),
    ("r32float", StorageFormat::R32Float),
    ("rg16uint", StorageFormat::Rg16Uint),
    ("rg16sint", StorageFormat::Rg16Sint),
    ("rg16float", StorageFormat::Rg16Float),
    ("rgba8unorm", StorageFormat::Rgba8Unorm),
    ("rgba8snorm", StorageFormat::Rgba8Snorm),
    ("rgba8uint", StorageFormat::Rgba8Uint),
    ("rgba8sint", StorageFormat::Rgba8Sint),
    ("bgra8unorm", StorageFormat::Bgra8Unorm),
    ("rgb10a2uint", StorageFormat::Rgb10a2Uint),
    ("rgb10a2unorm", StorageFormat::Rgb10a2Unorm),
    ("rg11b10ufloat", StorageFormat::Rg11b10Ufloat),
    ("r64uint", StorageFormat::R64Uint),
    ("rg32uint", StorageFormat::Rg32Uint),
    ("rg32sint", StorageFormat::Rg32Sint),
    ("rg32float", StorageFormat::Rg32Float),
    ("rgba16uint", StorageFormat::Rgba16Uint),
    ("rgba16sint", StorageFormat::Rgba16Sint),
    ("rgba16float", StorageFormat::Rgba16Float),
    ("rgba32uint", StorageFormat::Rgba32Uint),
    ("rgba32sint", StorageFormat::Rgba32Sint),
    ("rgba32float", StorageFormat::Rgba32Float),
    ("r16unorm", StorageFormat::R16Unorm),
    ("r16snorm", StorageFormat::R16Snorm),
    ("rg16unorm", StorageFormat::Rg16Unorm),
    ("rg16snorm", StorageFormat::Rg16Snorm),
    ("rgba16unorm", StorageFormat::Rgba16Unorm),
    ("rgba16snorm", StorageFormat::Rgba16Snorm),
];

/// The storage format with this name.
pub fn format_of(word: &[u8]) -> Option<StorageFormat> {
    find(&FORMATS, word)
}

static TEXTURES: [(&str, TextureWord); 21] = [
    (
        "textureDimensions",
        TextureWord::Query(QueryWord::Dimensions),
    ),
    ("textureGather", TextureWord::Sample(SampleWord::Gather)),
    (
        "textureGatherCompare",
        TextureWord::Sample(SampleWord::GatherCompare),
    ),
    ("textureLoad", TextureWord::Load),
    ("textureNumLayers", TextureWord::Query(QueryWord::NumLayers)),
    ("textureNumLevels", TextureWord::Query(QueryWord::NumLevels)),
    (
        "textureNumSamples",
        TextureWord::Query(QueryWord::NumSamples),
    ),
    ("textureSample", TextureWord::Sample(SampleWord::Sample)),
    ("textureSampleBias", TextureWord::Sample(SampleWord::Bias)),
    (
        "textureSampleCompare",
        TextureWord::Sample(SampleWord::Compare),
    ),
    (
        "textureSampleCompareLevel",
        TextureWord::Sample(SampleWord::CompareLevel),
    ),
    ("textureSampleGrad", TextureWord::Sample(SampleWord::Grad)),
    ("textureSampleLevel", TextureWord::Sample(SampleWord::Level)),
    (
        "textureSampleBaseClampToEdge",
        TextureWord::Sample(SampleWord::BaseClampToEdge),
    ),
    ("textureStore", TextureWord::Store),
    ("textureAtomicMin", TextureWord::Atomic(TexelWord::Min)),
    ("textureAtomicMax", TextureWord::Atomic(TexelWord::Max)),
    ("textureAtomicAdd", TextureWord::Atomic(TexelWord::Add)),
    ("textureAtomicAnd", TextureWord::Atomic(TexelWord::And)),
    ("textureAtomicOr", TextureWord::Atomic(TexelWord::Or)),
    ("textureAtomicXor", TextureWord::Atomic(TexelWord::Xor)),
];

/// The texture built-in with this name.
pub fn texture_of(word: &[u8]) -> Option<TextureWord> {
    find(&TEXTURES, word)
}
