//! Arguments, variables and loads.

ghost use Rattle.std.specs.Prelude.{◌≡◌, ◌<◌, List, Some, length, map, ok_or, option_map, slice_get};
ghost use Rattle.ir_items.specs.found.GlobalView.{values_of, global_view};
ghost use Rattle.ir_items.specs.found.View.{argument_view, local_view};
ghost use Rattle.ir_kinds.specs.judged.Scalars.{unsigned};
ghost use Rattle.ir_types.specs.judged.Plain.{PlainType};
ghost use Rattle.typing_forms.specs.declared.form.Form.TheVariants as form;
ghost use Rattle.spec_expressions.specs.judged.Loads.{variable_type, global_if, local_if, loaded, loaded_value, load_type};
ghost use Rattle.spec_expressions.specs.declared.faults.TypingFault.TheVariants.{FunctionArgumentNotFound};
ghost use Rattle.typing_forms.specs.judged.Forms.{form_of_type};
ghost use Rattle.typing_forms.specs.judged.Resolutions.{types_view, inner_at};
ghost use Rattle.typing_errors.specs.Answers.{form_given, form_answer};

use crate::access::pointer_to;
use ir_arena::arena::Arena;
use ir_arena::handle::Handle;
use ir_items::{FunctionArgument, GlobalVariable, LocalVariable};
use ir_kinds::{AddressSpace, Scalar, VectorSize};
use ir_sets::unique_arena::UniqueArena;
use ir_types::{IrType, TypeInner, key};
use spec_expressions::TypingFault;
use typing_forms::{Form, TypeResolution, inner_of};

// The type of a function argument: the declared one.
pub(crate) fn argument_type(
    arguments: &[FunctionArgument],
    number: u32,
) -> Result<TypeResolution, TypingFault>
    ensures { (types : List PlainType) → form_answer types result
        ≡ ok_or (option_map (λ a. form_of_type types a.ty) (slice_get (map argument_view arguments.now) number)) (FunctionArgumentNotFound number) }
{
    match arguments.get(number as usize) {
        Some(argument) => Ok(TypeResolution::Handle(argument.ty)),
        None => Err(TypingFault::FunctionArgumentNotFound(number)),
    }
}

// The type of a variable: its own type in the handle space, and otherwise a pointer to it.
fn variable_type(ty: Handle<key::IrType>, space: AddressSpace) -> TypeResolution
    ensures { (types : List PlainType) → form_given types result ≡ variable_type types ty space }
{
    match space {
        AddressSpace::Handle => TypeResolution::Handle(ty),
        AddressSpace::Function
        | AddressSpace::Private
        | AddressSpace::WorkGroup
        | AddressSpace::Uniform
        | AddressSpace::Storage { .. }
        | AddressSpace::Immediate
        | AddressSpace::TaskPayload
        | AddressSpace::RayPayload
        | AddressSpace::IncomingRayPayload => pointer_to(ty, space),
    }
}

// The global variable at a handle.
#[tactic(auto, using(ir_items::proofs::Lookups::found))]
fn global_at(
    globals: &Arena<GlobalVariable, key::GlobalVariable>,
    global: Handle<key::GlobalVariable>,
) -> &GlobalVariable
    requires { global < length globals.now }
    ensures { slice_get (map global_view (values_of globals.now)) global ≡ Some (global_view result.now) }
{
    &globals[global]
}

// The type of a global variable.
pub(crate) fn global_type(
    globals: &Arena<GlobalVariable, key::GlobalVariable>,
    global: Handle<key::GlobalVariable>,
) -> TypeResolution
    requires { global < length globals.now }
    ensures { (types : List PlainType) → form_given types result
        ≡ global_if types (slice_get (map global_view (values_of globals.now)) global) }
{
    let variable = global_at(globals, global);
    variable_type(variable.ty, variable.space)
}

// The type of a local variable: a pointer to the declared type.
#[tactic(auto, using(ir_items::proofs::Lookups::found))]
pub(crate) fn local_type(
    locals: &Arena<LocalVariable, key::LocalVariable>,
    local: Handle<key::LocalVariable>,
) -> TypeResolution
    requires { local < length locals.now }
    ensures { (types : List PlainType) → form_given types result
        ≡ local_if types (option_map (λ l. l.ty) (slice_get (map local_view (values_of locals.now)) local)) }
{
    pointer_to(locals[local].ty, AddressSpace::Function)
}

// The type of a load through a pointer.
fn loaded(types: &UniqueArena<IrType, key::IrType>, base: Handle<key::IrType>) -> TypeResolution
    ensures { form_given (types_view types.now) result ≡ loaded (types_view types.now) base (inner_at (types_view types.now) base) }
{
    match inner_of(types, base) {
        Some(TypeInner::Atomic(scalar)) => TypeResolution::Value(TypeInner::Scalar(*scalar)),
        Some(
            TypeInner::Scalar(_)
            | TypeInner::Vector { .. }
            | TypeInner::Matrix { .. }
            | TypeInner::CooperativeMatrix { .. }
            | TypeInner::Pointer { .. }
            | TypeInner::ValuePointer { .. }
            | TypeInner::Array { .. }
            | TypeInner::Struct { .. }
            | TypeInner::Image { .. }
            | TypeInner::Sampler { .. }
            | TypeInner::AccelerationStructure { .. }
            | TypeInner::RayQuery { .. }
            | TypeInner::BindingArray { .. },
        )
        | None => TypeResolution::Handle(base),
    }
}

// A vector of this size, or a scalar if none is given.
const fn loaded_value(size: Option<VectorSize>, scalar: Scalar) -> TypeResolution
    ensures { (types : List PlainType) → form_given types result ≡ loaded_value size scalar }
{
    match size {
        None => TypeResolution::Value(TypeInner::Scalar(scalar)),
        Some(size) => TypeResolution::Value(TypeInner::Vector { size, scalar }),
    }
}

// The type of a load.
pub(crate) fn load_type(
    types: &UniqueArena<IrType, key::IrType>,
    pointer: Handle<key::Expression>,
    of: Form,
) -> Result<TypeResolution, TypingFault>
    ensures { form_answer (types_view types.now) result ≡ load_type (types_view types.now) pointer of }
{
    match of {
        Form::Pointer { base, .. } => Ok(loaded(types, base)),
        Form::ValuePointer { size, scalar, .. } => Ok(loaded_value(size, scalar)),
        _ => Err(TypingFault::InvalidPointer(pointer)),
    }
}

// The type of an array length.
pub(crate) fn array_length_type() -> TypeResolution
    ensures { (types : List PlainType) → form_given types result ≡ form.Scalar (unsigned 4) }
{
    TypeResolution::Value(TypeInner::Scalar(Scalar::U32))
}
