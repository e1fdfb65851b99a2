//! The checks of `Literal` and `ZeroValue`.

ghost use Rattle.std.specs.Prelude.{MatchResult};
ghost use Rattle.module_context.specs.Refused.{IsRefused};
ghost use Rattle.module_context.specs.OperandView.{types_in, IsKnown};
ghost use Rattle.module_expression_checks.specs.Faults.{IsBadLiteral};
ghost use Rattle.spec_statements.specs.judged.Literals.{ZeroOK};
ghost use Rattle.spec_expressions.specs.judged.LiteralScalars.{LiteralOK};

use ir_arena::handle::Handle;
use ir_flags::Capabilities;
use ir_kinds::Literal;
use ir_types::key;
use module_context::{CheckContext, refused_unless};
use module_type_checks::validate_literal;
use typing_errors::ExpressionError;

/// Whether a literal is valid.
///
/// # Errors
///
/// [`ExpressionError::Literal`] if its scalar type is invalid.
pub fn check_literal(capabilities: Capabilities, value: Literal) -> Result<(), ExpressionError>
    ensures { MatchResult result (λ _. LiteralOK capabilities value) (IsBadLiteral capabilities value) }
{
    match validate_literal(capabilities, value) {
        Ok(()) => Ok(()),
        Err(error) => Err(ExpressionError::Literal(error)),
    }
}

/// Whether a type has a zero value: it is constructible.
///
/// # Errors
///
/// [`ExpressionError::Other`] if it has none.
#[tactic(auto, using(module_context::proofs::Refusals::by_test))]
pub fn check_zero(
    context: &CheckContext<'_>,
    ty: Handle<key::IrType>,
) -> Result<(), ExpressionError>
    requires { IsKnown context.now }
    ensures { MatchResult result (λ _. ZeroOK (types_in context.now) ty) (IsRefused (ZeroOK (types_in context.now) ty)) }
{
    refused_unless(context.is_constructible(ty))
}
