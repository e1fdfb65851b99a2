//! Expressions that are sources of non-uniformity.

ghost use Rattle.std.specs.Prelude.{◌≡◌, Some, Option, map, slice_get, option_map};
ghost use Rattle.std.specs.Option.{option_copied};
ghost use Rattle.ir_types.specs.judged.ExpressionPlain.{expression_view};
ghost use Rattle.ir_items.specs.found.GlobalView.{values_of, global_view};
ghost use Rattle.ir_items.specs.found.View.{argument_view, function_view, module_view};
ghost use Rattle.ir_types.specs.judged.Plain.{inner_view, type_view};
ghost use Rattle.spec_expressions.specs.judged.Values.{may_store, space_varies, class_varies, inner_varies, type_varies, global_varies, built_in_varies, binding_varies, argument_varies, is_source};

use bitflags::Flags;
use ir_arena::handle::Handle;
use ir_flags::StorageAccess;
use ir_items::{Function, FunctionArgument, GlobalVariable, Module};
use ir_kinds::{AddressSpace, Binding, BuiltIn, ImageClass};
use ir_types::{Expression, IrType, TypeInner, key};

// Whether the memory may be written.
fn may_store(access: StorageAccess) -> bool
    ensures { result ≡ may_store access }
{
    access.contains(StorageAccess::STORE)
}

fn space_varies(space: AddressSpace) -> bool
    ensures { result ≡ space_varies space }
{
    match space {
        AddressSpace::Private
        | AddressSpace::WorkGroup
        | AddressSpace::TaskPayload
        | AddressSpace::RayPayload
        | AddressSpace::IncomingRayPayload => true,
        AddressSpace::Storage { access } => may_store(access),
        AddressSpace::Function
        | AddressSpace::Uniform
        | AddressSpace::Handle
        | AddressSpace::Immediate => false,
    }
}

fn class_varies(class: ImageClass) -> bool
    ensures { result ≡ class_varies class }
{
    match class {
        ImageClass::Storage { access, .. } => may_store(access),
        ImageClass::Sampled { .. } | ImageClass::Depth { .. } | ImageClass::External => false,
    }
}

fn inner_varies(inner: &TypeInner) -> bool
    ensures { result ≡ inner_varies (inner_view inner.now) }
{
    match *inner {
        TypeInner::Image { class, .. } => class_varies(class),
        TypeInner::Scalar(_)
        | TypeInner::Vector { .. }
        | TypeInner::Matrix { .. }
        | TypeInner::CooperativeMatrix { .. }
        | TypeInner::Atomic(_)
        | TypeInner::Pointer { .. }
        | TypeInner::ValuePointer { .. }
        | TypeInner::Array { .. }
        | TypeInner::Struct { .. }
        | TypeInner::Sampler { .. }
        | TypeInner::AccelerationStructure { .. }
        | TypeInner::RayQuery { .. }
        | TypeInner::BindingArray { .. } => false,
    }
}

// The type at a handle, if there is one.
#[tactic(auto, using(crate::proofs::Lookups::found, crate::proofs::Lookups::missing))]
fn type_at(module: &Module, handle: Handle<key::IrType>) -> Option<&IrType>
    ensures { slice_get (module_view «module».now).types handle ≡ option_map type_view (option_copied result) }
{
    if handle.index() < module.types.len() {
        Some(&module.types[handle])
    } else {
        None
    }
}

// The global variable at a handle, if there is one.
#[tactic(auto, using(crate::proofs::Lookups::found, crate::proofs::Lookups::missing))]
fn global_at(module: &Module, handle: Handle<key::GlobalVariable>) -> Option<&GlobalVariable>
    ensures { slice_get (module_view «module».now).globals handle ≡ option_map global_view (option_copied result) }
{
    if handle.index() < module.global_variables.len() {
        Some(&module.global_variables[handle])
    } else {
        None
    }
}

fn type_varies(module: &Module, handle: Handle<key::IrType>) -> bool
    ensures { result ≡ type_varies (slice_get (module_view «module».now).types handle) }
{
    match type_at(module, handle) {
        Some(ty) => inner_varies(&ty.inner),
        None => false,
    }
}

fn global_varies(module: &Module, handle: Handle<key::GlobalVariable>) -> bool
    ensures { result ≡ global_varies (module_view «module».now).types (slice_get (module_view «module».now).globals handle) }
{
    match global_at(module, handle) {
        Some(global) => space_varies(global.space) || type_varies(module, global.ty),
        None => false,
    }
}

fn built_in_varies(value: BuiltIn) -> bool
    ensures { result ≡ built_in_varies value }
{
    !matches!(
        value,
        BuiltIn::WorkGroupId | BuiltIn::WorkGroupSize | BuiltIn::NumWorkGroups
    )
}

fn binding_varies(binding: Option<Binding>) -> bool
    ensures { result ≡ binding_varies binding }
{
    match binding {
        Some(Binding::BuiltIn(value)) => built_in_varies(value),
        Some(Binding::Location { .. }) => true,
        None => true,
    }
}

#[tactic(auto, using(crate::proofs::Lookups::argument_found))]
fn argument_varies(arguments: &[FunctionArgument], number: u32) -> bool
    ensures { result ≡ argument_varies (slice_get (map argument_view arguments.now) number) }
{
    match arguments.get(number as usize) {
        Some(argument) => binding_varies(argument.binding),
        None => true,
    }
}

// Whether the expression is a source of non-uniformity, whatever its operands are.
pub(crate) fn is_source(module: &Module, function: &Function, expression: &Expression) -> bool
    ensures { result ≡ is_source (module_view «module».now) (function_view function.now) (expression_view expression.now) }
{
    match *expression {
        Expression::FunctionArgument(number) => argument_varies(&function.arguments, number),
        Expression::GlobalVariable(global) => global_varies(module, global),
        Expression::LocalVariable(_)
        | Expression::CallResult(_)
        | Expression::AtomicResult { .. }
        | Expression::RayQueryProceedResult
        | Expression::SubgroupBallotResult
        | Expression::SubgroupOperationResult { .. } => true,
        Expression::Literal(_)
        | Expression::Constant(_)
        | Expression::Override(_)
        | Expression::ZeroValue(_)
        | Expression::Compose { .. }
        | Expression::Access { .. }
        | Expression::AccessIndex { .. }
        | Expression::Splat { .. }
        | Expression::Swizzle { .. }
        | Expression::Load { .. }
        | Expression::ImageSample { .. }
        | Expression::ImageLoad { .. }
        | Expression::ImageQuery { .. }
        | Expression::Unary { .. }
        | Expression::Binary { .. }
        | Expression::Select { .. }
        | Expression::Derivative { .. }
        | Expression::Relational { .. }
        | Expression::Math { .. }
        | Expression::As { .. }
        | Expression::WorkGroupUniformLoadResult { .. }
        | Expression::ArrayLength(_)
        | Expression::RayQueryVertexPositions { .. }
        | Expression::RayQueryGetIntersection { .. }
        | Expression::CooperativeLoad { .. }
        | Expression::CooperativeMultiplyAdd { .. } => false,
    }
}
