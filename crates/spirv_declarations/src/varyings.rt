// Inputs and outputs of stages.

use crate::variables::{Built, Draft, Varying};
use ir_arena::handle::Handle;
use ir_arena::span::Span;
use ir_flags::Capabilities;
use ir_kinds::{AddressSpace, Binding, BuiltIn, Scalar, ScalarKind, VectorSize};
use ir_types::{Expression, StructMember, TypeInner};
use spirv_constants::{ConstantTable, Constants, ExpressionHandle};
use spirv_numbers::{numbers, ops};
use spirv_tables::{Decorated, Demands, is_unsigned, with_default};
use spirv_types::{Reading, Shape, TypeHandle, TypeTable, Types, insert, span_of};
use spirv_words::{Failure, Feature, Malformed, SpirvError, Unsupported};

// An input or an output: a private variable, and its form as an argument or a result of an entry point.
pub(crate) fn varying_of<T: Types>(
    reading: &Reading,
    types: &TypeTable,
    built: &mut T,
    demands: &mut Demands,
    draft: &Draft,
    failed: &mut Failure,
) -> Built {
    let said = bound_as(reading, demands, draft, failed);
    let plain = failed.take(types.need(draft.ty, &draft.instruction), Handle::at(0));
    let is_input = draft.class == numbers::CLASS_INPUT;
    let is_block = matches!(draft.shape, Shape::Struct { .. });
    if !is_block && said.is_none() {
        failed.fail(draft.instruction.unsupported_by(Feature::UnboundVarying));
    }
    let (ty, binding) = if !is_block {
        (plain, said)
    } else if is_input || said.is_some() {
        let bound = bound_struct(reading, types, built, demands, draft, plain, failed);
        (bound, None)
    } else {
        (plain, None)
    };
    let taken = match argument_of(demands, draft, binding) {
        Some(inner) => insert(built, inner, Span::UNDEFINED, failed),
        None => ty,
    };
    let mut variable = Built::of(ty, AddressSpace::Private);
    variable.varying = Some(Varying {
        binding,
        component: draft.said.component,
        mask: draft.said.mask(),
        ty: if is_input { taken } else { ty },
    });
    variable
}

// Its binding. A mask of a subgroup's invocations, an input of four words, is computed from this invocation's index.
fn bound_as(
    reading: &Reading,
    demands: &mut Demands,
    draft: &Draft,
    failed: &mut Failure,
) -> Option<Binding> {
    let is_words = matches!(
        draft.shape,
        Shape::Vector {
            size: VectorSize::Quad,
            scalar: Scalar {
                kind: ScalarKind::Uint,
                width: 4
            },
            ..
        }
    );
    if draft.class == numbers::CLASS_INPUT && is_words && draft.said.mask().is_some() {
        demands.ask(Capabilities::SUBGROUP);
        return Some(Binding::BuiltIn(BuiltIn::SubgroupInvocationId));
    }
    let mut said = draft.said;
    if said.built_in == Some(numbers::BUILT_IN_INSTANCE_ID)
        && reading.scan.is_of_hit(draft.instruction.id)
    {
        // a ray stage has no first instance
        said.built_in = Some(numbers::BUILT_IN_INSTANCE_INDEX);
    }
    if let Some(number) = said.foreign_built_in() {
        let what = Unsupported::BuiltIn(number);
        failed.fail(draft.instruction.unsupported_as(what));
    }
    said.bound(demands)
}

// The scalar or vector of the type in which it is taken, where that differs: unsigned for a signed built-in, a word for a mask.
fn argument_of(
    demands: &mut Demands,
    draft: &Draft,
    binding: Option<Binding>,
) -> Option<TypeInner> {
    let Some(Binding::BuiltIn(built_in)) = binding else {
        return None;
    };
    if built_in == BuiltIn::SampleIndex {
        demands.ask(Capabilities::MULTISAMPLED_SHADING);
    }
    let scalar = Scalar::U32;
    if draft.said.mask().is_some() {
        return Some(TypeInner::Scalar(scalar));
    }
    match draft.shape.kind() {
        Some(ScalarKind::Sint) if is_unsigned(built_in) => match draft.shape.size() {
            Some(size) => Some(TypeInner::Vector { size, scalar }),
            None => Some(TypeInner::Scalar(scalar)),
        },
        _ => None,
    }
}

// The initial value of a variable, if given, or if it is an output.
pub(crate) fn initial<T: Types, C: Constants>(
    reading: &Reading,
    types: &TypeTable,
    built: &T,
    constants: &mut ConstantTable<C>,
    draft: &Draft,
    variable: &Built,
    failed: &mut Failure,
) -> Option<ExpressionHandle> {
    let span = span_of(&draft.instruction);
    let said = reading.listing.operand(&draft.instruction, 1);
    let init = match (draft.class, said, variable.varying) {
        (numbers::CLASS_INPUT | numbers::CLASS_UNIFORM_CONSTANT, _, _) | (_, None, None) => {
            return None;
        }
        (_, Some(id), Some(_)) if types.handle(draft.ty) != Some(variable.ty) => {
            given(reading, constants, draft, variable.ty, id)
        }
        (_, Some(id), _) => constants.expression(id, &draft.instruction),
        (_, None, Some(Varying { binding, .. })) => {
            constants.default_value(reading.alloc, built, binding, variable.ty, span)
        }
    };
    Some(failed.take(init, Handle::at(0)))
}

// The initializer of a rebuilt struct, reassembled.
fn given<C: Constants>(
    reading: &Reading,
    constants: &mut ConstantTable<C>,
    draft: &Draft,
    ty: TypeHandle,
    id: u32,
) -> Result<ExpressionHandle, SpirvError> {
    let Some(constant) = reading.listing.definition(id) else {
        return Err(draft.instruction.malformed(Malformed::NoConstant));
    };
    let init = match constant.opcode {
        ops::CONSTANT_NULL => Expression::ZeroValue(ty),
        ops::CONSTANT_COMPOSITE => {
            let parts = reading.listing.operands(&constant);
            match constants.expressions_of(reading.alloc, parts, &draft.instruction) {
                Ok(components) => Expression::Compose { ty, components },
                Err(error) => return Err(error),
            }
        }
        _ => return Err(draft.instruction.unsupported_by(Feature::BlockInitializer)),
    };
    constants.add(init, span_of(&draft.instruction))
}

/// The scalar kind of a number or a vector.
pub fn scalar_kind(inner: Option<&TypeInner>) -> Option<ScalarKind> {
    match inner {
        Some(TypeInner::Scalar(scalar) | TypeInner::Vector { scalar, .. }) => Some(scalar.kind),
        _ => None,
    }
}

// The struct of an interface block.
fn bound_struct<T: Types>(
    reading: &Reading,
    types: &TypeTable,
    built: &mut T,
    demands: &mut Demands,
    draft: &Draft,
    plain: TypeHandle,
    failed: &mut Failure,
) -> TypeHandle {
    match failed.take(built.copy(reading.alloc, plain), None) {
        Some(ty) => {
            let mut ty = ty;
            match &mut ty.inner {
                TypeInner::Struct { members, .. } => {
                    bind_members(reading, types, built, demands, draft, members, failed);
                }
                _ => failed.fail(draft.instruction.malformed(Malformed::WrongType)),
            }
            failed.take(built.insert(ty, span_of(&draft.instruction)), plain)
        }
        None => {
            failed.fail(draft.instruction.malformed(Malformed::NoType));
            plain
        }
    }
}

// Gives each member of an interface block its binding: locations continue from the block's.
fn bind_members<T: Types>(
    reading: &Reading,
    types: &TypeTable,
    built: &T,
    demands: &mut Demands,
    draft: &Draft,
    members: &mut [StructMember],
    failed: &mut Failure,
) {
    let is_of_fragment = reading.scan.is_of_fragment(draft.instruction.id);
    let by_default = draft.class == numbers::CLASS_INPUT && is_of_fragment;
    let mut location = draft.said.location;
    let mut place = 0u32;
    for member in members {
        let mut said = between(reading, &draft.said, draft.ty, place);
        if said.built_in.is_none() {
            let Some(here) = said.location.or(location) else {
                let feature = Feature::BlockWithoutLocations;
                failed.fail(draft.instruction.unsupported_by(feature));
                return;
            };
            said.location = Some(here);
            let mut binding = said.bound(demands);
            if by_default {
                binding = with_default(binding, scalar_kind(built.inner(member.ty)));
            }
            member.binding = binding;
            location = Some(here.saturating_add(locations_of(types, draft.ty, place)));
        }
        place = place.saturating_add(1);
    }
}

/// The decorations of a member of an interface block, or of its variable.
pub fn between(reading: &Reading, variable: &Decorated, block: u32, place: u32) -> Decorated {
    let mut said = Decorated::of(&reading.listing, block, Some(place));
    said.flat |= variable.flat;
    said.linear |= variable.linear;
    said.centroid |= variable.centroid;
    said.sample |= variable.sample;
    said.per_primitive |= variable.per_primitive;
    said
}

/// The number of locations that a member of a block takes.
pub fn locations_of(types: &TypeTable, block: u32, place: u32) -> u32 {
    let ty = match types.member(block, place) {
        Some(member) => member.ty,
        None => 0,
    };
    u32::try_from(types.layout(ty).locations).unwrap_or(u32::MAX)
}
