//! Rules of math functions.

ghost use Rattle.std.specs.Prelude.{◌≡◌, length, slice_get};
ghost use Rattle.typing_forms.specs.IrTypes.{plain, inner_view};
ghost use Rattle.typing_rules.specs.judged.Types.{constructor_place, inner_of, value_type_of, argument_list};
ghost use Rattle.typing_rules.specs.judged.Ranks.{type_rank, rank_at, accepts_inner, is_abstract_kind, is_concrete};

use ir_kinds::{PredeclaredType, Scalar, ScalarKind, VectorSize};
use typing_forms::conversion_rank;
use typing_forms::ir_types::TypeInner;

/// The shape of a value, without its scalar (naga's `ConstructorSize`).
#[derive(Clone, Copy, PartialEq, Eq, Debug)]
pub enum ConstructorSize {
    /// A scalar.
    Scalar,
    /// A vector.
    Vector(VectorSize),
    /// A matrix.
    Matrix {
        /// The number of columns.
        columns: VectorSize,
        /// The number of rows.
        rows: VectorSize,
    },
}

impl ConstructorSize {
    /// The type of this shape with a scalar (naga's `ConstructorSize::to_inner`).
    pub const fn to_inner(self, scalar: Scalar) -> TypeInner
        ensures { inner_view result ≡ plain (inner_of self scalar) }
    {
        match self {
            ConstructorSize::Scalar => TypeInner::Scalar(scalar),
            ConstructorSize::Vector(size) => TypeInner::Vector { size, scalar },
            ConstructorSize::Matrix { columns, rows } => TypeInner::Matrix {
                columns,
                rows,
                scalar,
            },
        }
    }

    /// The constructor's index among the thirteen, counted from 0: the scalar, vectors by size, matrices by columns
    /// and then rows.
    pub const fn place(self) -> u8
        ensures { result ≡ constructor_place self }
    {
        match self {
            ConstructorSize::Scalar => 0,
            ConstructorSize::Vector(VectorSize::Bi) => 1,
            ConstructorSize::Vector(VectorSize::Tri) => 2,
            ConstructorSize::Vector(VectorSize::Quad) => 3,
            ConstructorSize::Matrix { columns, rows } => match (columns, rows) {
                (VectorSize::Bi, VectorSize::Bi) => 4,
                (VectorSize::Bi, VectorSize::Tri) => 5,
                (VectorSize::Bi, VectorSize::Quad) => 6,
                (VectorSize::Tri, VectorSize::Bi) => 7,
                (VectorSize::Tri, VectorSize::Tri) => 8,
                (VectorSize::Tri, VectorSize::Quad) => 9,
                (VectorSize::Quad, VectorSize::Bi) => 10,
                (VectorSize::Quad, VectorSize::Tri) => 11,
                (VectorSize::Quad, VectorSize::Quad) => 12,
            },
        }
    }
}

/// The type of a scalar, a vector or a matrix.
#[derive(Clone, Copy, PartialEq, Eq, Debug)]
pub struct ValueType {
    /// Its shape.
    pub size: ConstructorSize,
    /// Its scalar.
    pub scalar: Scalar,
}

impl ValueType {
    /// The inner type.
    pub const fn to_inner(self) -> TypeInner
        ensures { inner_view result ≡ plain (inner_of self.size self.scalar) }
    {
        self.size.to_inner(self.scalar)
    }

    /// The value type of an inner type, or `None` if it is no scalar, vector or matrix.
    pub const fn of(inner: &TypeInner) -> Option<ValueType>
        ensures { result ≡ value_type_of (inner_view inner.now) }
    {
        match *inner {
            TypeInner::Scalar(scalar) => Some(ValueType {
                size: ConstructorSize::Scalar,
                scalar,
            }),
            TypeInner::Vector { size, scalar } => Some(ValueType {
                size: ConstructorSize::Vector(size),
                scalar,
            }),
            TypeInner::Matrix {
                columns,
                rows,
                scalar,
            } => Some(ValueType {
                size: ConstructorSize::Matrix { columns, rows },
                scalar,
            }),
            _ => None,
        }
    }

    // Whether the scalar is abstract.
    const fn is_abstract(self) -> bool
        ensures { result ≡ is_abstract_kind self.scalar.kind }
    {
        match self.scalar.kind {
            ScalarKind::AbstractInt | ScalarKind::AbstractFloat => true,
            ScalarKind::Sint | ScalarKind::Uint | ScalarKind::Float | ScalarKind::Bool => false,
        }
    }

    /// The conversion rank from this type to the required type, or `None` if there is no conversion: the
    /// rank of the scalars if the shapes are the same.
    pub fn rank_to(self, wanted: ValueType) -> Option<u32>
        ensures { result ≡ type_rank self wanted }
    {
        if self.size.place() == wanted.size.place() {
            conversion_rank(self.scalar, wanted.scalar)
        } else {
            None
        }
    }
}

/// The types of a rule's arguments, in order.
#[derive(Clone, Copy, PartialEq, Eq, Debug)]
pub enum Arguments {
    /// One argument.
    One(ValueType),
    /// Two arguments.
    Two(ValueType, ValueType),
    /// Three arguments.
    Three(ValueType, ValueType, ValueType),
    /// Four arguments.
    Four(ValueType, ValueType, ValueType, ValueType),
}

impl Arguments {
    /// The number of arguments.
    pub const fn len(&self) -> usize
        ensures { result ≡ length (argument_list self.now) }
    {
        match *self {
            Arguments::One(_) => 1,
            Arguments::Two(_, _) => 2,
            Arguments::Three(_, _, _) => 3,
            Arguments::Four(_, _, _, _) => 4,
        }
    }

    /// The type at an index, counted from 0, or `None` if there is no such argument.
    pub const fn get(&self, place: usize) -> Option<ValueType>
        ensures { result ≡ slice_get (argument_list self.now) place }
    {
        match (*self, place) {
            (Arguments::One(first), 0)
            | (Arguments::Two(first, _), 0)
            | (Arguments::Three(first, _, _), 0)
            | (Arguments::Four(first, _, _, _), 0) => Some(first),
            (Arguments::Two(_, second), 1)
            | (Arguments::Three(_, second, _), 1)
            | (Arguments::Four(_, second, _, _), 1) => Some(second),
            (Arguments::Three(_, _, third), 2) | (Arguments::Four(_, _, third, _), 2) => Some(
                third,
            ),
            (Arguments::Four(_, _, _, fourth), 3) => Some(fourth),
            _ => None,
        }
    }
}

/// The result of a rule (naga's `Conclusion`).
#[derive(Clone, Copy, PartialEq, Eq, Debug)]
pub enum Conclusion {
    /// A value of this type.
    Value(ValueType),
    /// A predeclared struct.
    Predeclared(PredeclaredType),
}

/// The argument types that a function accepts together, and its result type (naga's `Rule`).
#[derive(Clone, Copy, PartialEq, Eq, Debug)]
pub struct Rule {
    /// The types of its arguments.
    pub arguments: Arguments,
    /// The result.
    pub conclusion: Conclusion,
}

impl Rule {
    /// The conversion rank from the type to the rule's argument at an index, counted from 0, or `None` if there is
    /// no conversion or no such argument.
    pub fn rank_at(&self, place: usize, given: ValueType) -> Option<u32>
        ensures { result ≡ rank_at place given self.now }
    {
        given.rank_to(self.arguments.get(place)?)
    }

    /// Whether the rule accepts an argument of the inner type at an index, counted from 0.
    pub fn accepts(&self, place: usize, given: &TypeInner) -> bool
        ensures { result ≡ accepts_inner place (inner_view given.now) self.now }
    {
        match ValueType::of(given) {
            Some(given) => self.rank_at(place, given).is_some(),
            None => false,
        }
    }

    /// Whether no argument has an abstract scalar.
    pub const fn is_concrete(&self) -> bool
        ensures { result ≡ is_concrete self.now }
    {
        match self.arguments {
            Arguments::One(a) => !a.is_abstract(),
            Arguments::Two(a, b) => !(a.is_abstract() || b.is_abstract()),
            Arguments::Three(a, b, c) => !(a.is_abstract() || b.is_abstract() || c.is_abstract()),
            Arguments::Four(a, b, c, d) => {
                !(a.is_abstract() || b.is_abstract() || c.is_abstract() || d.is_abstract())
            }
        }
    }
}
