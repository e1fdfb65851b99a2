//! Image types: dimensions, storage formats and classes.

ghost use Rattle.std.specs.Prelude.{◌≡◌};
ghost use Rattle.ir_kinds.specs.judged.Images.{is_depth, is_mipmapped, is_multisampled};

use crate::scalars::{Scalar, ScalarKind};
use ir_flags::StorageAccess;

/// The dimension of an image (naga's `ImageDimension`).
#[derive(Clone, Copy, PartialEq, Eq, PartialOrd, Ord, Hash, Debug)]
pub enum ImageDimension {
    /// One-dimensional.
    D1,
    /// Two-dimensional.
    D2,
    /// Three-dimensional.
    D3,
    /// A cube map.
    Cube,
}

/// The texel format of a storage image (naga's `StorageFormat`).
#[derive(Clone, Copy, PartialEq, Eq, Hash, Debug)]
pub enum StorageFormat {
    /// One component of 8 bits, normalised and unsigned.
    R8Unorm,
    /// One component of 8 bits, normalised and signed.
    R8Snorm,
    /// One component of 8 bits, unsigned.
    R8Uint,
    /// One component of 8 bits, signed.
    R8Sint,
    /// One component of 16 bits, unsigned.
    R16Uint,
    /// One component of 16 bits, signed.
    R16Sint,
    /// One component of 16 bits, floating point.
    R16Float,
    /// Two components of 8 bits, normalised and unsigned.
    Rg8Unorm,
    /// Two components of 8 bits, normalised and signed.
    Rg8Snorm,
    /// Two components of 8 bits, unsigned.
    Rg8Uint,
    /// Two components of 8 bits, signed.
    Rg8Sint,
    /// One component of 32 bits, unsigned.
    R32Uint,
    /// One component of 32 bits, signed.
    R32Sint,
    /// One component of 32 bits, floating point.
    R32Float,
    /// Two components of 16 bits, unsigned.
    Rg16Uint,
    /// Two components of 16 bits, signed.
    Rg16Sint,
    /// Two components of 16 bits, floating point.
    Rg16Float,
    /// Four components of 8 bits, normalised and unsigned.
    Rgba8Unorm,
    /// Four components of 8 bits, normalised and signed.
    Rgba8Snorm,
    /// Four components of 8 bits, unsigned.
    Rgba8Uint,
    /// Four components of 8 bits, signed.
    Rgba8Sint,
    /// Four components of 8 bits in the order blue, green, red, alpha, normalised and unsigned.
    Bgra8Unorm,
    /// Three components of 10 bits and one of 2, unsigned.
    Rgb10a2Uint,
    /// Three components of 10 bits and one of 2, normalised and unsigned.
    Rgb10a2Unorm,
    /// Two components of 11 bits and one of 10, unsigned floating point.
    Rg11b10Ufloat,
    /// One component of 64 bits, unsigned.
    R64Uint,
    /// Two components of 32 bits, unsigned.
    Rg32Uint,
    /// Two components of 32 bits, signed.
    Rg32Sint,
    /// Two components of 32 bits, floating point.
    Rg32Float,
    /// Four components of 16 bits, unsigned.
    Rgba16Uint,
    /// Four components of 16 bits, signed.
    Rgba16Sint,
    /// Four components of 16 bits, floating point.
    Rgba16Float,
    /// Four components of 32 bits, unsigned.
    Rgba32Uint,
    /// Four components of 32 bits, signed.
    Rgba32Sint,
    /// Four components of 32 bits, floating point.
    Rgba32Float,
    /// One component of 16 bits, normalised and unsigned.
    R16Unorm,
    /// One component of 16 bits, normalised and signed.
    R16Snorm,
    /// Two components of 16 bits, normalised and unsigned.
    Rg16Unorm,
    /// Two components of 16 bits, normalised and signed.
    Rg16Snorm,
    /// Four components of 16 bits, normalised and unsigned.
    Rgba16Unorm,
    /// Four components of 16 bits, normalised and signed.
    Rgba16Snorm,
}

/// The class of an image (naga's `ImageClass`).
#[derive(Clone, Copy, PartialEq, Eq, Hash, Debug)]
pub enum ImageClass {
    /// A sampled image, multisampled if `multi`. Its texels are sampled or loaded.
    Sampled {
        kind: ScalarKind,
        multi: bool,
    },
    /// A depth image, multisampled if `multi`.
    Depth {
        multi: bool,
    },
    /// An external image, such as a video frame.
    External,
    /// A storage image, whose texels are loaded and stored in this format.
    Storage {
        format: StorageFormat,
        access: StorageAccess,
    },
}

impl From<StorageFormat> for Scalar {
    ghost use Rattle.std.specs.Prelude.{◌≡◌};
    ghost use Rattle.ir_kinds.specs.judged.Images.{format_scalar};

    ghost from_gives = { λ f r. r ≡ format_scalar f };

    /// The scalar type of a component of this format in a shader.
    fn from(format: StorageFormat) -> Self {
        match format {
            StorageFormat::R8Uint
            | StorageFormat::R16Uint
            | StorageFormat::Rg8Uint
            | StorageFormat::R32Uint
            | StorageFormat::Rg16Uint
            | StorageFormat::Rgba8Uint
            | StorageFormat::Rgb10a2Uint
            | StorageFormat::Rg32Uint
            | StorageFormat::Rgba16Uint
            | StorageFormat::Rgba32Uint => Scalar::U32,
            StorageFormat::R8Sint
            | StorageFormat::R16Sint
            | StorageFormat::Rg8Sint
            | StorageFormat::R32Sint
            | StorageFormat::Rg16Sint
            | StorageFormat::Rgba8Sint
            | StorageFormat::Rg32Sint
            | StorageFormat::Rgba16Sint
            | StorageFormat::Rgba32Sint => Scalar::I32,
            StorageFormat::R64Uint => Scalar::U64,
            _ => Scalar::F32,
        }
    }
}

impl ImageClass {
    /// Whether the image is multisampled (naga's `ImageClass::is_multisampled`).
    pub const fn is_multisampled(self) -> bool
        ensures { result ≡ is_multisampled self }
    {
        match self {
            ImageClass::Sampled { multi, .. } | ImageClass::Depth { multi } => multi,
            ImageClass::External | ImageClass::Storage { .. } => false,
        }
    }

    /// Whether the image has mip levels: a sampled or a depth image that is not multisampled
    /// (naga's `ImageClass::is_mipmapped`).
    pub const fn is_mipmapped(self) -> bool
        ensures { result ≡ is_mipmapped self }
    {
        match self {
            ImageClass::Sampled { multi, .. } | ImageClass::Depth { multi } => !multi,
            ImageClass::External | ImageClass::Storage { .. } => false,
        }
    }

    /// Whether it is a depth image (naga's `ImageClass::is_depth`).
    pub const fn is_depth(self) -> bool
        ensures { result ≡ is_depth self }
    {
        matches!(self, ImageClass::Depth { .. })
    }
}
