//! The error of an expression that breaks a rule with no error of its own.

ghost use Rattle.std.specs.Prelude.{IsTrue, MatchResult};
ghost use Rattle.module_context.specs.Refused.{IsRefused};

use typing_errors::ExpressionError;

/// Returns an error unless a rule holds.
///
/// # Errors
///
/// [`ExpressionError::Other`] if it does not hold.
pub fn refused_unless(holds: bool) -> Result<(), ExpressionError>
    ensures { MatchResult result (λ _. IsTrue holds) (IsRefused (IsTrue holds)) }
{
    if holds {
        Ok(())
    } else {
        Err(ExpressionError::Other)
    }
}
