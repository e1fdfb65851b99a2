//! The result types of statements.

ghost use Rattle.std.specs.Prelude.{◌↔◌, IsTrue, MatchResult};
ghost use Rattle.module_context.specs.Refused.{IsRefused};
ghost use Rattle.module_context.specs.OperandView.{types_in, IsKnown};
ghost use Rattle.spec_statements.specs.judged.ExpressionResults.{IsAtomicValue, IsExchange, AtomicResultTypeOK, UniformLoadOK};
ghost use Rattle.typing_layout.specs.judged.Widths.{AtomicOK};
ghost use Rattle.typing_forms.specs.judged.Resolutions.{inner_at};

use crate::exchanges::exchanged_value;
use crate::shapes::is_alone;
use ir_arena::handle::Handle;
use ir_flags::Capabilities;
use ir_kinds::Scalar;
use ir_types::key;
use module_context::{CheckContext, refused_unless, shaped_of};
use module_type_checks::check_atomic;
use typing_errors::ExpressionError;
use typing_forms::{Form, form_of_type};

// ---- atomic operations

// Whether a scalar type may be atomic.
fn is_atomic(capabilities: Capabilities, scalar: Scalar) -> bool
    ensures { IsTrue result ↔ AtomicOK capabilities scalar }
{
    check_atomic(capabilities, scalar).is_ok()
}

// Whether a type is a scalar that may be atomic.
fn is_atomic_value(capabilities: Capabilities, of: Form) -> bool
    ensures { IsTrue result ↔ IsAtomicValue capabilities of }
{
    match shaped_of(of) {
        Some(shaped) => is_alone(shaped.shape) && is_atomic(capabilities, shaped.scalar),
        None => false,
    }
}

// Whether a type is the result of a compare-exchange on an atomic scalar.
#[tactic(auto, using(crate::proofs::OldValues::by_test, crate::proofs::OldValues::by_none))]
fn is_atomic_exchange(context: &CheckContext<'_>, ty: Handle<key::IrType>) -> bool
    ensures { IsTrue result ↔ IsExchange context.now.capabilities (types_in context.now) (inner_at (types_in context.now) ty) }
{
    match exchanged_value(context.types, ty) {
        Some(old) => is_atomic_value(context.capabilities, old),
        None => false,
    }
}

// Whether an atomic operation may have a result of this type.
fn is_atomic_result(context: &CheckContext<'_>, ty: Handle<key::IrType>, comparison: bool) -> bool
    ensures { IsTrue result ↔ AtomicResultTypeOK context.now.capabilities (types_in context.now) ty comparison }
{
    if comparison {
        is_atomic_exchange(context, ty)
    } else {
        is_atomic_value(context.capabilities, form_of_type(context.types, ty))
    }
}

/// Whether an atomic operation may have a result of this type: a scalar, or the struct of a compare-exchange.
///
/// # Errors
///
/// [`ExpressionError::Other`] if it may not.
#[tactic(auto, using(module_context::proofs::Refusals::by_test))]
pub fn check_atomic_result(
    context: &CheckContext<'_>,
    ty: Handle<key::IrType>,
    comparison: bool,
) -> Result<(), ExpressionError>
    ensures { MatchResult result
        (λ _. AtomicResultTypeOK context.now.capabilities (types_in context.now) ty comparison)
        (IsRefused (AtomicResultTypeOK context.now.capabilities (types_in context.now) ty comparison)) }
{
    refused_unless(is_atomic_result(context, ty, comparison))
}

// ---- workgroup uniform loads

// Whether a type has a fixed size and is constructible.
fn is_loaded_uniformly(context: &CheckContext<'_>, ty: Handle<key::IrType>) -> bool
    requires { IsKnown context.now }
    ensures { IsTrue result ↔ UniformLoadOK (types_in context.now) ty }
{
    context.is_sized(ty) && context.is_constructible(ty)
}

/// Whether `workgroupUniformLoad` may return this type: it has a fixed size and is constructible.
///
/// # Errors
///
/// [`ExpressionError::Other`] if it may not.
#[tactic(auto, using(module_context::proofs::Refusals::by_test))]
pub fn check_uniform_load(
    context: &CheckContext<'_>,
    ty: Handle<key::IrType>,
) -> Result<(), ExpressionError>
    requires { IsKnown context.now }
    ensures { MatchResult result
        (λ _. UniformLoadOK (types_in context.now) ty)
        (IsRefused (UniformLoadOK (types_in context.now) ty)) }
{
    refused_unless(is_loaded_uniformly(context, ty))
}
