//! The broken rules of statements.

ghost use Rattle.std.specs.Prelude.{◌≡◌, IfSome, MatchOption};
ghost use Rattle.check_causes.specs.Bodies.{BrokenReturn, BrokenStore, BrokenValue, IsReturned, pointed_value};
ghost use Rattle.module_context.specs.OperandView.{scene_in, types_in};
ghost use Rattle.spec_expressions.specs.judged.Loads.{loaded, loaded_value};
ghost use Rattle.spec_statements.specs.judged.Stores.{pointer_space};
ghost use Rattle.typing_forms.specs.judged.Resolutions.{inner_at};

use bitflags::Flags;
use ir_arena::handle::Handle;
use ir_flags::StorageAccess;
use ir_kinds::{AddressSpace, Scalar, VectorSize};
use ir_types::{TypeInner, key};
use module_context::{CheckContext, are_same};
use typing_forms::{Form, form_of_type, inner_of};

/// A broken rule of a `Return`.
#[derive(Clone, Copy)]
pub enum ReturnCause {
    /// A value of this type is returned, but the function has no result.
    NoResult(Form),
    /// No value is returned, but the function has a result of this type.
    Nothing(Form),
    /// The value has the first type, but the function's result has the second.
    Differ(Form, Form),
}

/// A broken rule of a `Store`.
#[derive(Clone, Copy)]
pub enum StoreCause {
    /// The operand has this type, which is not a pointer.
    NoPointer(Form),
    /// The memory in this address space is not writable.
    Space(AddressSpace),
    /// The value has the first type, but the pointer's base has the second.
    Value(Form, Form),
}

/// The broken rule of a `Return`, if any: a value is returned exactly if the function has a result, and has its type.
pub fn broken_return(
    context: &CheckContext<'_>,
    declared: Option<Handle<key::IrType>>,
    value: Option<Handle<key::Expression>>,
) -> Option<ReturnCause>
    ensures { MatchOption result
        (IsReturned (types_in context.now) declared (scene_in context.now).forms value)
        (BrokenReturn (types_in context.now) declared (scene_in context.now).forms value) }
{
    match declared {
        None => match value {
            Some(value) => Some(ReturnCause::NoResult(context.form_at(value))),
            None => None,
        },
        Some(ty) => {
            let wanted = form_of_type(context.types, ty);
            match value {
                None => Some(ReturnCause::Nothing(wanted)),
                Some(value) => broken_value(context.form_at(value), wanted),
            }
        }
    }
}

// The error if the type of a value is not the required one.
fn broken_value(given: Form, wanted: Form) -> Option<ReturnCause>
    ensures { MatchOption result (given ≡ wanted) (BrokenValue given wanted) }
{
    match unlike(&given, &wanted) {
        Some((given, wanted)) => Some(ReturnCause::Differ(given, wanted)),
        None => None,
    }
}

// Two types, if they differ.
fn unlike(given: &Form, wanted: &Form) -> Option<(Form, Form)>
    ensures { MatchOption result (given.now ≡ wanted.now) (λ two. (two.0 ≡ given.now) × (two.1 ≡ wanted.now) × ¬ (given.now ≡ wanted.now)) }
{
    if are_same(*given, *wanted) {
        None
    } else {
        Some((*given, *wanted))
    }
}

// ---- stores

// The address space of a pointer.
const fn pointer_space(of: &Form) -> Option<AddressSpace>
    ensures { result ≡ pointer_space of.now }
{
    match *of {
        Form::Pointer { space, .. } | Form::ValuePointer { space, .. } => Some(space),
        Form::Scalar(_)
        | Form::Vector { .. }
        | Form::Matrix { .. }
        | Form::CooperativeMatrix { .. }
        | Form::Atomic(_)
        | Form::Array { .. }
        | Form::Struct(_)
        | Form::Image { .. }
        | Form::Sampler { .. }
        | Form::AccelerationStructure { .. }
        | Form::RayQuery { .. }
        | Form::BindingArray { .. }
        | Form::Nothing => None,
    }
}

// The type that is loaded from a scalar or a vector.
const fn value_of(size: Option<VectorSize>, scalar: Scalar) -> Form
    ensures { result ≡ loaded_value size scalar }
{
    match size {
        Some(size) => Form::Vector { size, scalar },
        None => Form::Scalar(scalar),
    }
}

// The type that is loaded from a type: for an atomic its scalar, and else the whole.
fn loaded_of(context: &CheckContext<'_>, base: Handle<key::IrType>) -> Form
    ensures { result ≡ loaded (types_in context.now) base (inner_at (types_in context.now) base) }
{
    match inner_of(context.types, base) {
        Some(TypeInner::Atomic(scalar)) => Form::Scalar(*scalar),
        _ => form_of_type(context.types, base),
    }
}

// The base type of a pointer.
fn pointed(context: &CheckContext<'_>, of: &Form) -> Option<Form>
    ensures { result ≡ pointed_value (types_in context.now) of.now }
{
    match *of {
        Form::Pointer { base, .. } => Some(loaded_of(context, base)),
        Form::ValuePointer { size, scalar, .. } => Some(value_of(size, scalar)),
        Form::Scalar(_)
        | Form::Vector { .. }
        | Form::Matrix { .. }
        | Form::CooperativeMatrix { .. }
        | Form::Atomic(_)
        | Form::Array { .. }
        | Form::Struct(_)
        | Form::Image { .. }
        | Form::Sampler { .. }
        | Form::AccelerationStructure { .. }
        | Form::RayQuery { .. }
        | Form::BindingArray { .. }
        | Form::Nothing => None,
    }
}

// The error if the type of a value is not the base type of a pointer.
fn broken_stored(context: &CheckContext<'_>, pointer: &Form, value: &Form) -> Option<StoreCause>
    ensures { IfSome result (BrokenStore (types_in context.now) pointer.now value.now) }
{
    let wanted = pointed(context, pointer)?;
    let (given, wanted) = unlike(value, &wanted)?;
    Some(StoreCause::Value(given, wanted))
}

/// A broken rule of a `Store`, if it is one of these: the operand is a pointer, to writable memory, and the value has its base
/// type. Whether the pointer originates from a variable is not checked.
pub fn broken_store(context: &CheckContext<'_>, pointer: &Form, value: &Form) -> Option<StoreCause>
    ensures { IfSome result (BrokenStore (types_in context.now) pointer.now value.now) }
{
    let Some(space) = pointer_space(pointer) else {
        return Some(StoreCause::NoPointer(*pointer));
    };
    if !space.access().contains(StorageAccess::STORE) {
        return Some(StoreCause::Space(space));
    }
    broken_stored(context, pointer, value)
}
