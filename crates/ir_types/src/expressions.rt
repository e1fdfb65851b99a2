// Expressions.
ghost use Rattle.std.specs.Prelude.{◌≡◌, IfOk};
ghost use Rattle.ir_types.specs.judged.ExpressionPlain.{expression_view, IsPlain, IsComputed, IsImageOrResult, IsResult, implicit_derivatives, always_in_scope, is_dynamic};

use crate::key;
use ir_arena::copied::Copied;
use ir_arena::handle::Handle;
use ir_kinds::{
    BinaryOperator, Bytes, CooperativeRole, CooperativeSize, DerivativeAxis, DerivativeControl,
    Literal, MathFunction, RelationalFunction, ScalarKind, SwizzleComponent, UnaryOperator,
    VectorSize,
};
use std::alloc::{AllocError, Global};

/// The level of detail of an image sample (naga's `SampleLevel`).
#[derive(Clone, Copy, PartialEq, Debug)]
pub enum SampleLevel {
    /// Computed from the derivatives of the coordinate.
    Auto,
    /// Level zero.
    Zero,
    /// This level.
    Exact(Handle<key::Expression>),
    /// As `Auto`, with this bias added.
    Bias(Handle<key::Expression>),
    /// Computed from these gradients of the coordinate.
    Gradient {
        /// The gradient in x.
        x: Handle<key::Expression>,
        /// The gradient in y.
        y: Handle<key::Expression>,
    },
}

impl SampleLevel {
    /// Whether it requires implicit derivatives, which are taken across neighbouring fragments.
    pub fn implicit_derivatives(self) -> bool
        ensures { result ≡ implicit_derivatives self }
    {
        match self {
            SampleLevel::Auto | SampleLevel::Bias(_) => true,
            SampleLevel::Zero | SampleLevel::Exact(_) | SampleLevel::Gradient { .. } => false,
        }
    }
}

/// A query of an image (naga's `ImageQuery`).
#[derive(Clone, Copy, PartialEq, Debug)]
pub enum ImageQuery {
    /// The size in texels.
    Size {
        /// The level of detail; level zero if `None`.
        level: Option<Handle<key::Expression>>,
    },
    /// The number of mip levels.
    NumLevels,
    /// The number of array layers.
    NumLayers,
    /// The number of samples per texel.
    NumSamples,
}

/// The memory operand of a cooperative load or store (naga's `CooperativeData`).
#[derive(Clone, Copy, PartialEq, Debug)]
pub struct CooperativeData {
    /// A pointer to the first scalar.
    pub pointer: Handle<key::Expression>,
    /// The stride between rows or columns, in scalars.
    pub stride: Handle<key::Expression>,
    /// Whether the layout is row-major.
    pub row_major: bool,
}

/// An expression of a function, or a global expression (naga's `Expression`).
#[derive(PartialEq, Debug, Drop)]
pub enum Expression {
    /// A literal.
    Literal(Literal),
    /// A constant.
    Constant(Handle<key::Constant>),
    /// An override.
    Override(Handle<key::Override>),
    /// The zero value of a type.
    ZeroValue(Handle<key::IrType>),
    /// A composite of components.
    Compose {
        /// The type of the composite.
        ty: Handle<key::IrType>,
        /// The components in order.
        components: Vec<Handle<key::Expression>>,
    },
    /// An access with a computed index.
    Access {
        /// The composite, or a pointer to it.
        base: Handle<key::Expression>,
        /// The index.
        index: Handle<key::Expression>,
    },
    /// An access with an index that is known statically.
    AccessIndex {
        /// The composite, or a pointer to it.
        base: Handle<key::Expression>,
        /// The index.
        index: u32,
    },
    /// A vector with all components equal to a scalar.
    Splat {
        /// The size of the vector.
        size: VectorSize,
        /// The scalar.
        value: Handle<key::Expression>,
    },
    /// A vector of components of another vector.
    Swizzle {
        /// The size of the result.
        size: VectorSize,
        /// The vector.
        vector: Handle<key::Expression>,
        /// The components; the first `size` of them count.
        pattern: [SwizzleComponent; 4],
    },
    /// The function argument at this index.
    FunctionArgument(u32),
    /// A global variable: a pointer to it, or its value in the address space `Handle`.
    GlobalVariable(Handle<key::GlobalVariable>),
    /// A pointer to a local variable.
    LocalVariable(Handle<key::LocalVariable>),
    /// A load through a pointer.
    Load {
        /// The pointer.
        pointer: Handle<key::Expression>,
    },
    /// An image sample.
    ImageSample {
        /// The image.
        image: Handle<key::Expression>,
        /// The sampler.
        sampler: Handle<key::Expression>,
        /// The component that is gathered, if it is a gather.
        gather: Option<SwizzleComponent>,
        /// The texture coordinate.
        coordinate: Handle<key::Expression>,
        /// The array layer.
        array_index: Option<Handle<key::Expression>>,
        /// The offset in texels.
        offset: Option<Handle<key::Expression>>,
        /// The level of detail.
        level: SampleLevel,
        /// The depth reference value of a comparison.
        depth_ref: Option<Handle<key::Expression>>,
        /// Whether the coordinate is clamped to half a texel from the edge.
        clamp_to_edge: bool,
    },
    /// A load of a texel.
    ImageLoad {
        /// The image.
        image: Handle<key::Expression>,
        /// The texel coordinate.
        coordinate: Handle<key::Expression>,
        /// The array layer.
        array_index: Option<Handle<key::Expression>>,
        /// The sample index.
        sample: Option<Handle<key::Expression>>,
        /// The level of detail.
        level: Option<Handle<key::Expression>>,
    },
    /// An image query.
    ImageQuery {
        /// The image.
        image: Handle<key::Expression>,
        /// The query.
        query: ImageQuery,
    },
    /// A unary expression.
    Unary {
        /// The operator.
        op: UnaryOperator,
        /// The operand.
        expr: Handle<key::Expression>,
    },
    /// A binary expression.
    Binary {
        /// The operator.
        op: BinaryOperator,
        /// The left operand.
        left: Handle<key::Expression>,
        /// The right operand.
        right: Handle<key::Expression>,
    },
    /// A selection: one of two values.
    Select {
        /// The condition, which selects component by component if it is a vector.
        condition: Handle<key::Expression>,
        /// The value if true.
        accept: Handle<key::Expression>,
        /// The value if false.
        reject: Handle<key::Expression>,
    },
    /// A derivative in screen space.
    Derivative {
        /// The axis.
        axis: DerivativeAxis,
        /// The precision.
        ctrl: DerivativeControl,
        /// The operand.
        expr: Handle<key::Expression>,
    },
    /// A call of a relational function.
    Relational {
        /// The function.
        fun: RelationalFunction,
        /// The argument.
        argument: Handle<key::Expression>,
    },
    /// A call of a math function.
    Math {
        /// The function.
        fun: MathFunction,
        /// The first argument.
        arg: Handle<key::Expression>,
        /// The second argument.
        arg1: Option<Handle<key::Expression>>,
        /// The third argument.
        arg2: Option<Handle<key::Expression>>,
        /// The fourth argument.
        arg3: Option<Handle<key::Expression>>,
    },
    /// A cast to another scalar kind.
    As {
        /// The operand.
        expr: Handle<key::Expression>,
        /// The new scalar kind.
        kind: ScalarKind,
        /// The new width in bytes of a conversion; a bitcast if `None`.
        convert: Option<Bytes>,
    },
    /// The result of a call of this function.
    CallResult(Handle<key::Function>),
    /// The result of an atomic operation.
    AtomicResult {
        /// The type of the result.
        ty: Handle<key::IrType>,
        /// Whether the operation is a compare-exchange.
        comparison: bool,
    },
    /// The result of a uniform load of workgroup memory.
    WorkGroupUniformLoadResult {
        /// The type of the result.
        ty: Handle<key::IrType>,
    },
    /// The length of a runtime-sized array, by a pointer to it.
    ArrayLength(Handle<key::Expression>),
    /// The vertex positions of the triangle that the ray hit.
    RayQueryVertexPositions {
        /// The ray query.
        query: Handle<key::Expression>,
        /// Whether it is the committed intersection, or else the candidate.
        committed: bool,
    },
    /// The result of a `Proceed` of a ray query: whether there is another candidate.
    RayQueryProceedResult,
    /// An intersection of a ray query.
    RayQueryGetIntersection {
        /// The ray query.
        query: Handle<key::Expression>,
        /// Whether it is the committed intersection, or else the candidate.
        committed: bool,
    },
    /// The result of a subgroup ballot.
    SubgroupBallotResult,
    /// The result of a subgroup operation.
    SubgroupOperationResult {
        /// The type of the result.
        ty: Handle<key::IrType>,
    },
    /// A load of a cooperative matrix.
    CooperativeLoad {
        /// The number of columns.
        columns: CooperativeSize,
        /// The number of rows.
        rows: CooperativeSize,
        /// The role in a multiply-add.
        role: CooperativeRole,
        /// The memory (naga's `data`).
        block: CooperativeData,
    },
    /// A multiply-add of cooperative matrices, `a * b + c`.
    CooperativeMultiplyAdd {
        /// The left factor.
        a: Handle<key::Expression>,
        /// The right factor.
        b: Handle<key::Expression>,
        /// The addend.
        c: Handle<key::Expression>,
    },
}

impl Copied for Expression {
    ghost use Rattle.ir_types.specs.judged.ExpressionPlain.{PlainExpression, expression_view};

    ghost View = { PlainExpression };

    ghost view = { expression_view };

    fn copied(&self, alloc: Global) -> Result<Expression, AllocError> {
        self.clone(alloc)
    }
}

impl Expression {
    /// Whether the expression is in scope in the whole function and never emitted: literals, constants, overrides, zero
    /// values, arguments and variables.
    pub fn needs_pre_emit(&self) -> bool
        ensures { result ≡ always_in_scope self.now }
    {
        match *self {
            Expression::Literal(_)
            | Expression::Constant(_)
            | Expression::Override(_)
            | Expression::ZeroValue(_)
            | Expression::FunctionArgument(_)
            | Expression::GlobalVariable(_)
            | Expression::LocalVariable(_) => true,
            Expression::Compose { .. }
            | Expression::Access { .. }
            | Expression::AccessIndex { .. }
            | Expression::Splat { .. }
            | Expression::Swizzle { .. }
            | Expression::Load { .. }
            | Expression::ImageSample { .. }
            | Expression::ImageLoad { .. }
            | Expression::ImageQuery { .. }
            | Expression::Unary { .. }
            | Expression::Binary { .. }
            | Expression::Select { .. }
            | Expression::Derivative { .. }
            | Expression::Relational { .. }
            | Expression::Math { .. }
            | Expression::As { .. }
            | Expression::CallResult(_)
            | Expression::AtomicResult { .. }
            | Expression::WorkGroupUniformLoadResult { .. }
            | Expression::ArrayLength(_)
            | Expression::RayQueryVertexPositions { .. }
            | Expression::RayQueryProceedResult
            | Expression::RayQueryGetIntersection { .. }
            | Expression::SubgroupBallotResult
            | Expression::SubgroupOperationResult { .. }
            | Expression::CooperativeLoad { .. }
            | Expression::CooperativeMultiplyAdd { .. } => false,
        }
    }

    /// Whether an access with this index is dynamic: the index is neither a literal, nor a constant, nor a zero value.
    pub fn is_dynamic_index(&self) -> bool
        ensures { result ≡ is_dynamic self.now }
    {
        match *self {
            Expression::Literal(_) | Expression::Constant(_) | Expression::ZeroValue(_) => false,
            Expression::Override(_)
            | Expression::Compose { .. }
            | Expression::Access { .. }
            | Expression::AccessIndex { .. }
            | Expression::Splat { .. }
            | Expression::Swizzle { .. }
            | Expression::FunctionArgument(_)
            | Expression::GlobalVariable(_)
            | Expression::LocalVariable(_)
            | Expression::Load { .. }
            | Expression::ImageSample { .. }
            | Expression::ImageLoad { .. }
            | Expression::ImageQuery { .. }
            | Expression::Unary { .. }
            | Expression::Binary { .. }
            | Expression::Select { .. }
            | Expression::Derivative { .. }
            | Expression::Relational { .. }
            | Expression::Math { .. }
            | Expression::As { .. }
            | Expression::CallResult(_)
            | Expression::AtomicResult { .. }
            | Expression::WorkGroupUniformLoadResult { .. }
            | Expression::ArrayLength(_)
            | Expression::RayQueryVertexPositions { .. }
            | Expression::RayQueryProceedResult
            | Expression::RayQueryGetIntersection { .. }
            | Expression::SubgroupBallotResult
            | Expression::SubgroupOperationResult { .. }
            | Expression::CooperativeLoad { .. }
            | Expression::CooperativeMultiplyAdd { .. } => true,
        }
    }

    /// An equal expression in memory of its own. The error is out of memory.
    pub fn clone(&self, alloc: Global) -> Result<Expression, AllocError>
        ensures { IfOk result (λ copy. expression_view copy ≡ expression_view self.now) }
    {
        match self {
            Expression::Compose { ty, components } => Ok(Expression::Compose {
                ty: *ty,
                components: Vec::from_slice(alloc, components)?,
            }),
            plain => Ok(plain.copy_plain()),
        }
    }

    // An equal expression, if it is no `Compose`.
    fn copy_plain(&self) -> Expression
        requires { IsPlain (expression_view self.now) }
        ensures { expression_view result ≡ expression_view self.now }
    {
        match *self {
            Expression::Literal(value) => Expression::Literal(value),
            Expression::Constant(handle) => Expression::Constant(handle),
            Expression::Override(handle) => Expression::Override(handle),
            Expression::ZeroValue(ty) => Expression::ZeroValue(ty),
            Expression::Access { base, index } => Expression::Access { base, index },
            Expression::AccessIndex { base, index } => Expression::AccessIndex { base, index },
            Expression::Splat { size, value } => Expression::Splat { size, value },
            Expression::Swizzle {
                size,
                vector,
                pattern,
            } => Expression::Swizzle {
                size,
                vector,
                pattern,
            },
            Expression::FunctionArgument(index) => Expression::FunctionArgument(index),
            Expression::GlobalVariable(handle) => Expression::GlobalVariable(handle),
            Expression::LocalVariable(handle) => Expression::LocalVariable(handle),
            Expression::Load { pointer } => Expression::Load { pointer },
            Expression::ArrayLength(array) => Expression::ArrayLength(array),
            _ => self.copy_computed(),
        }
    }

    // An equal expression of a kind that computes on its operands.
    fn copy_computed(&self) -> Expression
        requires { IsComputed self.now }
        ensures { expression_view result ≡ expression_view self.now }
    {
        match *self {
            Expression::Unary { op, expr } => Expression::Unary { op, expr },
            Expression::Binary { op, left, right } => Expression::Binary { op, left, right },
            Expression::Select {
                condition,
                accept,
                reject,
            } => Expression::Select {
                condition,
                accept,
                reject,
            },
            Expression::Derivative { axis, ctrl, expr } => Expression::Derivative {
                axis,
                ctrl,
                expr,
            },
            Expression::Relational { fun, argument } => Expression::Relational { fun, argument },
            Expression::Math {
                fun,
                arg,
                arg1,
                arg2,
                arg3,
            } => Expression::Math {
                fun,
                arg,
                arg1,
                arg2,
                arg3,
            },
            Expression::As {
                expr,
                kind,
                convert,
            } => Expression::As {
                expr,
                kind,
                convert,
            },
            _ => self.copy_found(),
        }
    }

    // An equal expression on an image, or of the kinds below.
    fn copy_found(&self) -> Expression
        requires { IsImageOrResult self.now }
        ensures { expression_view result ≡ expression_view self.now }
    {
        match *self {
            Expression::ImageSample {
                image,
                sampler,
                gather,
                coordinate,
                array_index,
                offset,
                level,
                depth_ref,
                clamp_to_edge,
            } => Expression::ImageSample {
                image,
                sampler,
                gather,
                coordinate,
                array_index,
                offset,
                level,
                depth_ref,
                clamp_to_edge,
            },
            Expression::ImageLoad {
                image,
                coordinate,
                array_index,
                sample,
                level,
            } => Expression::ImageLoad {
                image,
                coordinate,
                array_index,
                sample,
                level,
            },
            Expression::ImageQuery { image, query } => Expression::ImageQuery { image, query },
            _ => self.copy_result(),
        }
    }

    // An equal result of a statement, or an equal expression of ray queries or cooperative matrices.
    fn copy_result(&self) -> Expression
        requires { IsResult self.now }
        ensures { expression_view result ≡ expression_view self.now }
    {
        match *self {
            Expression::CallResult(function) => Expression::CallResult(function),
            Expression::AtomicResult { ty, comparison } => Expression::AtomicResult {
                ty,
                comparison,
            },
            Expression::WorkGroupUniformLoadResult { ty } =>
                Expression::WorkGroupUniformLoadResult { ty },
            Expression::RayQueryVertexPositions { query, committed } =>
                Expression::RayQueryVertexPositions { query, committed },
            Expression::RayQueryProceedResult => Expression::RayQueryProceedResult,
            Expression::RayQueryGetIntersection { query, committed } =>
                Expression::RayQueryGetIntersection { query, committed },
            Expression::SubgroupBallotResult => Expression::SubgroupBallotResult,
            Expression::SubgroupOperationResult { ty } => Expression::SubgroupOperationResult {
                ty,
            },
            Expression::CooperativeLoad {
                columns,
                rows,
                role,
                block,
            } => Expression::CooperativeLoad {
                columns,
                rows,
                role,
                block,
            },
            Expression::CooperativeMultiplyAdd { a, b, c } => Expression::CooperativeMultiplyAdd {
                a,
                b,
                c,
            },
            _ => unreachable!(),
        }
    }
}
