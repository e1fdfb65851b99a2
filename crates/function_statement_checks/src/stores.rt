//! `Store`.

ghost use Rattle.std.specs.Prelude.{◌≡◌, List, MatchResult, IfSome, None};
ghost use Rattle.ir_types.specs.judged.Plain.{inner_view, PlainType};
ghost use Rattle.ir_items.specs.judged.Bases.{BasesPrecede};
ghost use Rattle.spec_statements.specs.judged.BlockContext.{form_at};
ghost use Rattle.spec_statements.specs.judged.Stores.{StoreOK, IsStorable};
ghost use Rattle.function_statement_checks.specs.Stores.{IsStoreFault};
ghost use Rattle.typing_forms.specs.judged.Forms.{form_in};

use crate::context::StatementContext;
use crate::pointers::{fits_at, is_variable_at, is_writable};
use ir_arena::handle::Handle;
use ir_types::{TypeInner, key};
use typing_errors::FunctionError;
use typing_forms::Form;

// The type of an image or a sampler, which can't be stored.
fn unstorable(value: Form) -> Option<TypeInner>
    ensures stored { result ≡ None → IsStorable value }
    ensures found { IfSome result (λ i. (¬ IsStorable value) × ((types : List PlainType) → form_in types None (inner_view i) ≡ value)) }
{
    match value {
        Form::Image {
            dim,
            arrayed,
            class,
        } => Some(TypeInner::Image {
            dim,
            arrayed,
            class,
        }),
        Form::Sampler { comparison } => Some(TypeInner::Sampler { comparison }),
        Form::Scalar(_)
        | Form::Vector { .. }
        | Form::Matrix { .. }
        | Form::CooperativeMatrix { .. }
        | Form::Atomic(_)
        | Form::Pointer { .. }
        | Form::ValuePointer { .. }
        | Form::Array { .. }
        | Form::Struct(_)
        | Form::AccelerationStructure { .. }
        | Form::RayQuery { .. }
        | Form::BindingArray { .. }
        | Form::Nothing => None,
    }
}

// Whether a storable value fits its target and the target is writable.
fn check_target<C: StatementContext>(
    context: &C,
    pointer: Handle<key::Expression>,
    value: Handle<key::Expression>,
) -> Result<(), FunctionError>
    requires precede { BasesPrecede (C.seen context.now).f.expressions }
    requires storable { IsStorable (form_at (C.seen context.now) value) }
    ensures { MatchResult result
        (λ _. StoreOK (C.seen context.now) pointer value)
        (IsStoreFault (C.seen context.now) pointer value) }
{
    let start = context.beginning_of(pointer);
    if !is_variable_at(context, start) {
        return Err(FunctionError::InvalidStorePointer(start));
    }
    if !fits_at(context, context.form_at(pointer), context.form_at(value)) {
        return Err(FunctionError::InvalidStoreTypes { pointer, value });
    }
    if !is_writable(context.form_at(pointer)) {
        return Err(FunctionError::InvalidStorePointer(pointer));
    }
    Ok(())
}

/// Whether a value can be stored through a pointer: a chain of accesses to a variable or an argument, to the type that would be
/// loaded, in a writable address space. Requires that the base of each access precedes it.
///
/// # Errors
///
/// [`FunctionError::InvalidStorePointer`] with the pointer's origin if that is neither a variable nor an argument, or with the
/// pointer if its address space is read-only; [`FunctionError::InvalidStoreTexture`] for an image or a sampler;
/// [`FunctionError::InvalidStoreTypes`] for a value of another type.
pub fn check_store<C: StatementContext>(
    context: &C,
    pointer: Handle<key::Expression>,
    value: Handle<key::Expression>,
) -> Result<(), FunctionError>
    requires { BasesPrecede (C.seen context.now).f.expressions }
    ensures { MatchResult result
        (λ _. StoreOK (C.seen context.now) pointer value)
        (IsStoreFault (C.seen context.now) pointer value) }
{
    match unstorable(context.form_at(value)) {
        Some(actual_ty) => Err(FunctionError::InvalidStoreTexture {
            actual: value,
            actual_ty,
        }),
        None => check_target(context, pointer, value),
    }
}
