//! Scalar types, and the sizes of vectors and matrices.

ghost use Rattle.std.specs.Prelude.{◌≡◌, ◌↔◌, ◌⊎◌, ◌≢◌, IsTrue, min};
ghost use Rattle.ir_kinds.specs.judged.Scalars.{component_place, floating};

/// A number of bytes (naga's `Bytes`).
pub type Bytes = u8;

/// The scalar kind (naga's `ScalarKind`).
#[derive(Clone, Copy, PartialEq, Eq, PartialOrd, Ord, Hash, Debug)]
pub enum ScalarKind {
    /// Signed integer.
    Sint,
    /// Unsigned integer.
    Uint,
    /// Floating point.
    Float,
    /// Boolean.
    Bool,
    /// WGSL's abstract integer.
    AbstractInt,
    /// WGSL's abstract float.
    AbstractFloat,
}

/// A scalar type: its kind and its width in bytes (naga's `Scalar`).
#[derive(Clone, Copy, PartialEq, Eq, PartialOrd, Ord, Hash, Debug)]
pub struct Scalar {
    /// The kind.
    pub kind: ScalarKind,
    /// The width in bytes.
    pub width: Bytes,
}

/// The number of components of a vector, or of columns or rows of a matrix (naga's `VectorSize`).
#[derive(Clone, Copy, PartialEq, Eq, PartialOrd, Ord, Hash, Debug)]
pub enum VectorSize {
    /// Two.
    Bi = 2,
    /// Three.
    Tri = 3,
    /// Four.
    Quad = 4,
}

/// The number of columns or rows of a cooperative matrix (naga's `CooperativeSize`).
#[derive(Clone, Copy, PartialEq, Eq, PartialOrd, Ord, Hash, Debug)]
pub enum CooperativeSize {
    /// Eight.
    Eight = 8,
    /// Sixteen.
    Sixteen = 16,
}

/// The role of a cooperative matrix in `A * B + C` (naga's `CooperativeRole`).
#[derive(Clone, Copy, PartialEq, Eq, PartialOrd, Ord, Hash, Debug)]
pub enum CooperativeRole {
    /// The left factor `A`.
    A,
    /// The right factor `B`.
    B,
    /// The addend `C`, or the result.
    C,
}

/// A vector component that a swizzle selects (naga's `SwizzleComponent`).
#[derive(Clone, Copy, PartialEq, Eq, Debug)]
pub enum SwizzleComponent {
    /// The first.
    X,
    /// The second.
    Y,
    /// The third.
    Z,
    /// The fourth.
    W,
}

/// The width of a boolean in bytes (naga's `BOOL_WIDTH`).
pub const BOOL_WIDTH: Bytes = 1;

/// The width of an abstract number in bytes (naga's `ABSTRACT_WIDTH`).
pub const ABSTRACT_WIDTH: Bytes = 8;

impl Scalar {
    /// A 16-bit signed integer.
    pub const I16: Scalar = Scalar {
        kind: ScalarKind::Sint,
        width: 2,
    };

    /// A 16-bit unsigned integer.
    pub const U16: Scalar = Scalar {
        kind: ScalarKind::Uint,
        width: 2,
    };

    /// A 32-bit signed integer.
    pub const I32: Scalar = Scalar {
        kind: ScalarKind::Sint,
        width: 4,
    };

    /// A 32-bit unsigned integer.
    pub const U32: Scalar = Scalar {
        kind: ScalarKind::Uint,
        width: 4,
    };

    /// A 64-bit signed integer.
    pub const I64: Scalar = Scalar {
        kind: ScalarKind::Sint,
        width: 8,
    };

    /// A 64-bit unsigned integer.
    pub const U64: Scalar = Scalar {
        kind: ScalarKind::Uint,
        width: 8,
    };

    /// A 16-bit float.
    pub const F16: Scalar = Scalar {
        kind: ScalarKind::Float,
        width: 2,
    };

    /// A 32-bit float.
    pub const F32: Scalar = Scalar {
        kind: ScalarKind::Float,
        width: 4,
    };

    /// A 64-bit float.
    pub const F64: Scalar = Scalar {
        kind: ScalarKind::Float,
        width: 8,
    };

    /// A boolean.
    pub const BOOL: Scalar = Scalar {
        kind: ScalarKind::Bool,
        width: BOOL_WIDTH,
    };

    /// An abstract integer.
    pub const ABSTRACT_INT: Scalar = Scalar {
        kind: ScalarKind::AbstractInt,
        width: ABSTRACT_WIDTH,
    };

    /// An abstract float.
    pub const ABSTRACT_FLOAT: Scalar = Scalar {
        kind: ScalarKind::AbstractFloat,
        width: ABSTRACT_WIDTH,
    };
}

impl Scalar {
    /// A float of `width` bytes (naga's `Scalar::float`).
    pub const fn float(width: Bytes) -> Self
        ensures { result ≡ floating width }
    {
        Scalar {
            kind: ScalarKind::Float,
            width,
        }
    }

    /// Whether it is abstract (naga's `Scalar::is_abstract`).
    pub const fn is_abstract(self) -> bool
        ensures { IsTrue result
            ↔ ((self.kind ≡ ScalarKind.AbstractInt) ⊎ (self.kind ≡ ScalarKind.AbstractFloat)) }
    {
        matches!(
            self.kind,
            ScalarKind::AbstractInt | ScalarKind::AbstractFloat
        )
    }
}

impl ScalarKind {
    /// Whether it is numeric: any kind but `Bool` (naga's `ScalarKind::is_numeric`).
    pub const fn is_numeric(self) -> bool
        ensures { IsTrue result ↔ (self ≢ ScalarKind.Bool) }
    {
        match self {
            ScalarKind::Sint
            | ScalarKind::Uint
            | ScalarKind::Float
            | ScalarKind::AbstractInt
            | ScalarKind::AbstractFloat => true,
            ScalarKind::Bool => false,
        }
    }
}

impl VectorSize {
    /// The greatest vector size (naga's `VectorSize::MAX`).
    pub const MAX: usize = VectorSize::Quad as usize;
}

impl From<VectorSize> for u8 {
    ghost use Rattle.std.specs.Prelude.{◌≡◌};
    ghost use Rattle.ir_kinds.specs.judged.Scalars.{component_count};

    ghost from_gives = { λ s n. n ≡ component_count s };

    /// The number of components.
    fn from(size: VectorSize) -> Self {
        size as u8
    }
}

impl From<VectorSize> for u32 {
    ghost use Rattle.std.specs.Prelude.{◌≡◌};
    ghost use Rattle.ir_kinds.specs.judged.Scalars.{component_count};

    ghost from_gives = { λ s n. n ≡ component_count s };

    /// The number of columns or rows.
    fn from(size: VectorSize) -> Self {
        size as u32
    }
}

impl SwizzleComponent {
    /// The components in order (naga's `SwizzleComponent::XYZW`).
    pub const XYZW: [SwizzleComponent; 4] = [
        SwizzleComponent::X,
        SwizzleComponent::Y,
        SwizzleComponent::Z,
        SwizzleComponent::W,
    ];

    /// The index of the component, from 0 (naga's `SwizzleComponent::index`).
    pub const fn index(&self) -> u32
        ensures { result ≡ component_place self.now }
    {
        match *self {
            SwizzleComponent::X => 0,
            SwizzleComponent::Y => 1,
            SwizzleComponent::Z => 2,
            SwizzleComponent::W => 3,
        }
    }

    /// The component at an index, `W` for 3 and above (naga's `SwizzleComponent::from_index`).
    pub const fn from_index(idx: u32) -> Self
        ensures { component_place result ≡ min idx 3 }
    {
        match idx {
            0 => SwizzleComponent::X,
            1 => SwizzleComponent::Y,
            2 => SwizzleComponent::Z,
            _ => SwizzleComponent::W,
        }
    }
}
