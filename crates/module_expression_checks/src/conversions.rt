//! The check of `As`.

ghost use Rattle.std.specs.Prelude.{◌↔◌, IsTrue, MatchResult};
ghost use Rattle.module_context.specs.Refused.{IsRefused};
ghost use Rattle.module_context.specs.OperandView.{scene_in};
ghost use Rattle.spec_statements.specs.judged.Conversions.{IsConverted, AsOK};
ghost use Rattle.spec_statements.specs.judged.Scene.{form_among};
ghost use Rattle.typing_layout.specs.judged.Widths.{ScalarOK};

use ir_arena::handle::Handle;
use ir_flags::Capabilities;
use ir_kinds::{Bytes, Scalar, ScalarKind};
use ir_types::key;
use module_context::{CheckContext, refused_unless, shaped_of};
use module_type_checks::check_width;
use typing_errors::ExpressionError;
use typing_forms::Form;

// Whether a scalar type is valid.
fn is_there(capabilities: Capabilities, scalar: Scalar) -> bool
    ensures { IsTrue result ↔ ScalarOK capabilities scalar }
{
    check_width(capabilities, scalar).is_ok()
}

// Whether a scalar converts to a scalar kind, and to a width if one is given.
fn is_converted(
    capabilities: Capabilities,
    kind: ScalarKind,
    convert: Option<Bytes>,
    scalar: Scalar,
) -> bool
    ensures { IsTrue result ↔ IsConverted capabilities kind convert scalar }
{
    match convert {
        Some(width) => is_there(capabilities, Scalar { kind, width }),
        None => kind != ScalarKind::Bool && scalar.kind != ScalarKind::Bool,
    }
}

// Whether a value of a type can be converted.
fn converts(capabilities: Capabilities, kind: ScalarKind, convert: Option<Bytes>, of: Form) -> bool
    ensures { IsTrue result ↔ AsOK capabilities kind convert of }
{
    match shaped_of(of) {
        Some(shaped) => is_converted(capabilities, kind, convert, shaped.scalar),
        None => false,
    }
}

/// Whether an expression can be converted: to a valid scalar type; a bitcast (no width) is neither from nor to
/// `Bool`.
///
/// # Errors
///
/// [`ExpressionError::Other`] if it can't.
#[tactic(auto, using(module_context::proofs::Refusals::by_test))]
pub fn check_as(
    context: &CheckContext<'_>,
    expr: Handle<key::Expression>,
    kind: ScalarKind,
    convert: Option<Bytes>,
) -> Result<(), ExpressionError>
    ensures { MatchResult result
        (λ _. AsOK context.now.capabilities kind convert (form_among (scene_in context.now).forms expr))
        (IsRefused (AsOK context.now.capabilities kind convert (form_among (scene_in context.now).forms expr))) }
{
    refused_unless(converts(context.capabilities, kind, convert, context.form_at(expr)))
}
