// What the types of a SPIR-V module are, by their ids.

use ir_arena::handle::Handle;
use ir_arena::span::Span;
use ir_kinds::{ImageClass, ImageDimension, Scalar, ScalarKind, StorageFormat, VectorSize};
use ir_types::{ArraySize, key};
use spirv_tables::{Decorated, Layout, matrix_layout, vector_layout};
use spirv_words::{Feature, Instruction, SpirvError, Unsupported};

/// The handle of a type of the module that is built.
pub type TypeHandle = Handle<key::IrType>;

/// An image's type as it is declared.
#[derive(Clone, Copy)]
pub struct ImageShape {
    /// How many dimensions it has.
    pub dim: ImageDimension,
    /// Whether it has layers.
    pub arrayed: bool,
    /// Whether it is multisampled.
    pub multi: bool,
    /// Whether it is declared as a depth image.
    pub depth: bool,
    /// What its texels are made of.
    pub scalar: Scalar,
    /// The format of a storage image.
    pub format: Option<StorageFormat>,
    /// Whether it is an attachment that is read at the place of the fragment.
    pub attachment: bool,
}

/// An image that a variable or an argument is.
#[derive(Clone, Copy)]
pub struct ImageUse {
    /// The image as it is declared.
    pub shape: ImageShape,
    /// The class in which it is used.
    pub class: ImageClass,
}

/// What is said of the memory of each member of a struct.
#[derive(Clone, Copy)]
pub struct MemberMemory {
    /// It is coherent.
    pub coherent: bool,
    /// It is volatile.
    pub volatile: bool,
    /// It is not written.
    pub non_writable: bool,
    /// It is not read.
    pub non_readable: bool,
}

impl MemberMemory {
    // What is said of each of no members.
    pub(crate) const ALL: MemberMemory = MemberMemory {
        coherent: true,
        volatile: true,
        non_writable: true,
        non_readable: true,
    };

    // With a member more, of which this is said.
    pub(crate) fn and(&self, said: &Decorated) -> MemberMemory {
        MemberMemory {
            coherent: self.coherent && said.coherent,
            volatile: self.volatile && said.volatile,
            non_writable: self.non_writable && said.non_writable,
            non_readable: self.non_readable && said.non_readable,
        }
    }
}

/// The shape of a type.
#[derive(Clone, Copy)]
pub enum Shape {
    /// No type.
    Nothing,
    /// No value.
    Void,
    /// A number or a bool.
    Scalar(Scalar),
    /// Scalars in a row.
    Vector {
        /// Number of parts.
        size: VectorSize,
        /// What each is.
        scalar: Scalar,
        /// The type of one.
        component: u32,
    },
    /// Columns in a row.
    Matrix {
        /// How many columns.
        columns: VectorSize,
        /// How many scalars a column has.
        rows: VectorSize,
        /// What each is.
        scalar: Scalar,
        /// The type of a column.
        column: u32,
    },
    /// An image.
    Image(ImageShape),
    /// A sampler.
    Sampler,
    /// An image with a sampler, and the type of the image.
    SampledImage(u32),
    /// What rays are traced through.
    AccelerationStructure,
    /// The tracing of a ray.
    RayQuery,
    /// Elements in a row.
    Array {
        /// The type of one.
        element: u32,
        /// Number of parts.
        size: ArraySize,
        /// Whether they are resources.
        binding: bool,
    },
    /// Members, by their places in the table of members.
    Struct {
        /// The first of them.
        first: u32,
        /// Number of parts.
        count: u32,
        /// What is said of the memory of each.
        memory: MemberMemory,
    },
    /// A pointer into a storage class.
    Pointer {
        /// The class.
        class: u32,
        /// The type that it points to.
        to: u32,
    },
    /// A function.
    Function,
}

impl Shape {
    /// Whether it is an image, a sampler or both, or an acceleration structure.
    pub fn is_handle(&self) -> bool {
        matches!(
            self,
            Shape::Image(_) | Shape::Sampler | Shape::SampledImage(_) | Shape::AccelerationStructure
        )
    }

    /// The scalar of a number, a vector or a matrix.
    pub fn scalar(&self) -> Option<Scalar> {
        match *self {
            Shape::Scalar(scalar) | Shape::Vector { scalar, .. } | Shape::Matrix { scalar, .. } =>
                Some(scalar),
            _ => None,
        }
    }

    /// The kind of the scalars of a number, a vector or a matrix.
    pub fn kind(&self) -> Option<ScalarKind> {
        match self.scalar() {
            Some(scalar) => Some(scalar.kind),
            None => None,
        }
    }

    /// The size of a vector.
    pub fn size(&self) -> Option<VectorSize> {
        match *self {
            Shape::Vector { size, .. } => Some(size),
            _ => None,
        }
    }
}

/// How the matrices in a part are stored.
#[derive(Clone, Copy)]
pub struct Stored {
    /// Row by row.
    pub row_major: bool,
    /// The bytes from column to column, or from row to row, where they are stored as arrays of these; else 0.
    pub stride: u32,
}

impl Stored {
    /// As the IR has them.
    pub const PLAIN: Stored = Stored {
        row_major: false,
        stride: 0,
    };

    /// Whether they are stored as the IR has them.
    pub fn is_plain(&self) -> bool {
        !self.row_major && self.stride == 0
    }

    /// Whether the columns of a matrix that is stored so, or its rows, are arrays of scalars: their stride is no multiple of
    /// the alignment of a vector.
    pub fn is_packed(&self, matrix: &MatrixShape) -> bool {
        let (_, length) = matrix.lines(self.row_major);
        let alignment = vector_layout(length, matrix.scalar).alignment;
        match u64::from(self.stride).checked_rem(alignment) {
            Some(over) => over != 0,
            None => false,
        }
    }

    /// Those in a part of what is stored so.
    pub fn around(&self, part: &Stored) -> Stored {
        Stored {
            row_major: self.row_major || part.row_major,
            stride: self.stride.max(part.stride),
        }
    }

    /// Why an operation of such matrices is not translated: their stride, or else this.
    pub fn unsupported(&self, instruction: &Instruction, feature: Feature) -> SpirvError {
        if self.stride == 0 {
            instruction.unsupported_by(feature)
        } else {
            instruction.unsupported_as(Unsupported::MatrixStride(self.stride))
        }
    }
}

/// A matrix.
#[derive(Clone, Copy)]
pub struct MatrixShape {
    /// How many columns.
    pub columns: VectorSize,
    /// How many scalars a column has.
    pub rows: VectorSize,
    /// What each is.
    pub scalar: Scalar,
}

impl MatrixShape {
    /// The matrix that a type is, if it is one.
    pub fn of(shape: &Shape) -> Option<MatrixShape> {
        match *shape {
            Shape::Matrix {
                columns,
                rows,
                scalar,
                ..
            } => Some(MatrixShape {
                columns,
                rows,
                scalar,
            }),
            _ => None,
        }
    }

    // How it lies in memory where it is stored so.
    pub(crate) fn stored_layout(&self, stored: Stored) -> Layout {
        let (lines, length) = self.lines(stored.row_major);
        let mut layout = matrix_layout(lines, length, self.scalar);
        if stored.stride != 0 {
            layout.size = u64::from(stored.stride).saturating_mul(u64::from(u8::from(lines)));
        }
        if stored.is_packed(self) {
            layout.alignment = u64::from(self.scalar.width);
        }
        layout
    }

    // How a column or a row of it lies in memory where it is stored so.
    pub(crate) fn line_layout(&self, stored: Stored) -> Layout {
        let (_, length) = self.lines(stored.row_major);
        let mut layout = vector_layout(length, self.scalar);
        if stored.is_packed(self) {
            layout.alignment = u64::from(self.scalar.width);
        }
        layout
    }

    /// How many columns or rows it is stored as, and how many scalars each has.
    pub fn lines(&self, row_major: bool) -> (VectorSize, VectorSize) {
        if row_major {
            (self.rows, self.columns)
        } else {
            (self.columns, self.rows)
        }
    }
}

/// A member of a struct.
#[derive(Clone, Copy)]
pub struct MemberShape {
    /// Its type.
    pub ty: u32,
    /// How the matrices in it are stored.
    pub stored: Stored,
    /// Its place among the members of the struct that is built, or the first of its columns or rows.
    pub index: u32,
    /// Whether its columns or rows are members of the struct that is built, each by itself.
    pub split: bool,
}

/// The span of an instruction, in words.
pub fn span_of(instruction: &Instruction) -> Span {
    Span::new(instruction.start, instruction.end)
}
