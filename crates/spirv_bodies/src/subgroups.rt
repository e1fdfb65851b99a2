// What entry points compute for functions from built-ins: the invocation's index in its subgroup, the subgroup's size, and the fragment's
// position.

use crate::writing::{Writing, type_in};
use ir_arena::span::Span;
use ir_items::{Expression, FunctionArgument, IrType, Statement, TypeInner};
use ir_kinds::{
    BinaryOperator, Binding, BuiltIn, Scalar, ScalarKind, SwizzleComponent, VectorSize,
};
use spirv_declarations::Variable;
use spirv_expressions::{Emits, Value, Words, keep};
use spirv_tables::SubgroupMask;
use spirv_types::Types;

/// What is computed by an entry point.
#[derive(Clone, Copy)]
pub struct Subgroups {
    /// How the words are computed.
    pub words: Words,
}

// The type in which an entry point takes a built-in: the position as four floats, a subgroup's numbers as words.
fn inner_of(built_in: BuiltIn) -> TypeInner {
    match built_in {
        BuiltIn::Position { .. } => TypeInner::Vector {
            size: VectorSize::Quad,
            scalar: Scalar::F32,
        },
        _ => TypeInner::Scalar(Scalar::U32),
    }
}

// The index of the argument with a built-in.
fn place_of(arguments: &[FunctionArgument], built_in: BuiltIn) -> Option<u32> {
    let mut place = 0u32;
    for argument in arguments {
        if is_bound(argument, built_in) {
            return Some(place);
        }
        place = place.saturating_add(1);
    }
    None
}

// Whether an argument has a built-in; the position is one, computed alike everywhere or not.
fn is_bound(argument: &FunctionArgument, built_in: BuiltIn) -> bool {
    match argument.binding {
        Some(Binding::BuiltIn(BuiltIn::Position { .. })) => {
            matches!(built_in, BuiltIn::Position { .. })
        }
        Some(Binding::BuiltIn(other)) => other == built_in,
        _ => false,
    }
}

impl Subgroups {
    // The argument with a built-in, which is taken where none is.
    fn argument<T: Types, W: Writing>(
        &self,
        built: &mut T,
        body: &mut W,
        arguments: &mut Vec<FunctionArgument>,
        built_in: BuiltIn,
    ) -> Value {
        let count = u32::try_from(arguments.len()).unwrap_or(u32::MAX);
        // each mask looks at all of them
        body.spend(u64::from(count), self.words.span);
        let place = match place_of(arguments, built_in) {
            Some(place) => place,
            None => {
                let inner = inner_of(built_in);
                let made = built.insert(IrType { name: None, inner }, Span::UNDEFINED);
                let argument = FunctionArgument {
                    name: None,
                    ty: type_in(body, made),
                    binding: Some(Binding::BuiltIn(built_in)),
                };
                keep(body, arguments, argument);
                count
            }
        };
        body.place(Expression::FunctionArgument(place), self.words.span)
    }

    // A store into a variable.
    fn store<W: Writing>(&self, body: &mut W, variable: &Variable, value: Value) {
        let pointer = body.place(Expression::GlobalVariable(variable.handle), self.words.span);
        body.statement(Statement::Store { pointer, value }, self.words.span);
    }

    /// Stores a mask into its variable: the invocations from its beginning up to its end.
    pub fn store_mask<T: Types, W: Writing>(
        &self,
        built: &mut T,
        body: &mut W,
        arguments: &mut Vec<FunctionArgument>,
        variable: &Variable,
        mask: SubgroupMask,
    ) {
        let ty = variable.built;
        let here = self.argument(built, body, arguments, BuiltIn::SubgroupInvocationId);
        let one = self.words.word(body, 1);
        let next = self.words.binary(body, BinaryOperator::Add, here, one);
        let end = match mask {
            SubgroupMask::Equal | SubgroupMask::LessEqual => next,
            SubgroupMask::Less => here,
            SubgroupMask::GreaterEqual | SubgroupMask::Greater => {
                self.argument(built, body, arguments, BuiltIn::SubgroupSize)
            }
        };
        let lower = self.words.below(body, ty, end);
        let begin = match mask {
            SubgroupMask::Equal | SubgroupMask::GreaterEqual => here,
            SubgroupMask::Greater => next,
            SubgroupMask::LessEqual | SubgroupMask::Less => {
                return self.store(body, variable, lower);
            }
        };
        let before = self.words.below(body, ty, begin);
        let value = self
            .words
            .binary(body, BinaryOperator::ExclusiveOr, lower, before);
        self.store(body, variable, value);
    }

    /// Stores the invocation's index and the subgroup's size into their variable.
    pub fn store_numbers<T: Types, W: Writing>(
        &self,
        built: &mut T,
        body: &mut W,
        arguments: &mut Vec<FunctionArgument>,
        variable: &Variable,
    ) {
        let here = self.argument(built, body, arguments, BuiltIn::SubgroupInvocationId);
        let size = self.argument(built, body, arguments, BuiltIn::SubgroupSize);
        let mut components = Vec::new(self.words.alloc);
        keep(body, &mut components, here);
        keep(body, &mut components, size);
        let ty = variable.built;
        let value = body.compute(Expression::Compose { ty, components }, self.words.span);
        self.store(body, variable, value);
    }

    /// Stores the fragment's position into its variable.
    pub fn store_place<T: Types, W: Writing>(
        &self,
        built: &mut T,
        body: &mut W,
        arguments: &mut Vec<FunctionArgument>,
        variable: &Variable,
    ) {
        let position = BuiltIn::Position { invariant: false };
        let vector = self.argument(built, body, arguments, position);
        let swizzle = Expression::Swizzle {
            size: VectorSize::Bi,
            vector,
            pattern: SwizzleComponent::XYZW,
        };
        let expr = body.compute(swizzle, self.words.span);
        let whole = Expression::As {
            expr,
            kind: ScalarKind::Uint,
            convert: Some(4),
        };
        let value = body.compute(whole, self.words.span);
        self.store(body, variable, value);
    }
}
