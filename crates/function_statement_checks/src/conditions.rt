//! Conditions.

ghost use Rattle.std.specs.Prelude.{◌≡◌, ◌↔◌, IsTrue, MatchResult};
ghost use Rattle.spec_statements.specs.judged.BlockContext.{form_at};
ghost use Rattle.spec_statements.specs.judged.Conditions.{ConditionOK};
ghost use Rattle.function_statement_checks.specs.Conditions.{IsConditionFault};

use crate::context::StatementContext;
use ir_arena::handle::Handle;
use ir_kinds::ScalarKind;
use ir_types::key;
use typing_errors::FunctionError;
use typing_forms::Form;

// Whether a type is a scalar `bool`.
const fn is_condition(of: Form) -> bool
    ensures { IsTrue result ↔ ConditionOK of }
{
    match of {
        Form::Scalar(scalar) => match scalar.kind {
            ScalarKind::Bool => true,
            ScalarKind::Sint
            | ScalarKind::Uint
            | ScalarKind::Float
            | ScalarKind::AbstractInt
            | ScalarKind::AbstractFloat => false,
        },
        Form::Vector { .. }
        | Form::Matrix { .. }
        | Form::CooperativeMatrix { .. }
        | Form::Atomic(_)
        | Form::Pointer { .. }
        | Form::ValuePointer { .. }
        | Form::Array { .. }
        | Form::Struct(_)
        | Form::Image { .. }
        | Form::Sampler { .. }
        | Form::AccelerationStructure { .. }
        | Form::RayQuery { .. }
        | Form::BindingArray { .. }
        | Form::Nothing => false,
    }
}

/// Whether an expression is a condition: a scalar `bool`.
///
/// # Errors
///
/// [`FunctionError::InvalidIfType`] if it is not.
pub fn check_condition<C: StatementContext>(
    context: &C,
    condition: Handle<key::Expression>,
) -> Result<(), FunctionError>
    ensures { MatchResult result
        (λ _. ConditionOK (form_at (C.seen context.now) condition))
        (IsConditionFault (C.seen context.now) condition) }
{
    if is_condition(context.form_at(condition)) {
        Ok(())
    } else {
        Err(FunctionError::InvalidIfType(condition))
    }
}
