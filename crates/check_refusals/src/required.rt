// The requirement that an error breaks, and the broken rule.

ghost use Rattle.std.specs.Prelude.{◌≡◌, IfSome, map};
ghost use Rattle.ir_items.specs.found.GlobalView.{values_of};
ghost use Rattle.ir_types.specs.judged.ExpressionPlain.{expression_view};
ghost use Rattle.check_refusals.specs.Ruled.{IsBrokenAt, ruled, ruled_in};
ghost use Rattle.module_context.specs.OperandView.{expressions_in, scene_in};
ghost use Rattle.typing_layout.specs.judged.Constness.{AreKinds};

use crate::types::refused_function;
use check_causes::{Cause, broken_at};
use check_sentences::function_errors::ValidationError;
use check_sentences::module_steps::ModuleError;
use check_sentences::{Scene, Sentence};
use function_entry_checks::EntryPointError;
use ir_arena::arena::Arena;
use ir_arena::handle::Handle;
use ir_flags::Capabilities;
use ir_items::Module;
use ir_types::{Expression, key};
use module_context::CheckContext;
use std::alloc::{AllocError, Global};
use typing_errors::{ConstExpressionError, ExpressionError, FunctionError};
use typing_forms::Form;
use typing_layout::{ExpressionKindTracker, origins_precede};

/// The requirement that an error breaks, and the broken rule of an expression.
#[derive(Drop)]
pub(crate) struct Requirement {
    /// The requirement.
    pub text: String,
    /// The rule, if the expression kind has several.
    pub cause: Option<Cause>,
}

// The expression of a function that breaks a rule of its kind.
fn ruled_in(error: &FunctionError) -> Option<Handle<key::Expression>>
    ensures { result ≡ ruled_in error.now }
{
    match error {
        FunctionError::Expression {
            handle,
            source: ExpressionError::Other,
        }
        | FunctionError::Expression {
            handle,
            source: ExpressionError::Typing(_),
        } => Some(*handle),
        _ => None,
    }
}

// The expression that breaks a rule of its kind.
fn ruled(error: &ValidationError) -> Option<Handle<key::Expression>>
    ensures { result ≡ ruled error.now }
{
    match error {
        ValidationError::Function(refused) => ruled_in(&refused.error),
        ValidationError::EntryPoint(refused) => match &refused.error {
            EntryPointError::Function(error) => ruled_in(error),
            _ => None,
        },
        ValidationError::Module(ModuleError::ConstExpression(refused)) => match &refused.error {
            ConstExpressionError::Other | ConstExpressionError::Typing(_) => {
                Some(refused.expression)
            }
            _ => None,
        },
        ValidationError::Module(_) | ValidationError::GlobalVariable(_) => None,
    }
}

// The rule that the expression named by the error breaks.
fn cause_of(context: &CheckContext<'_>, error: &ValidationError) -> Option<Cause>
    requires { AreKinds (expressions_in context.now) context.now.kinds.now }
    ensures { IfSome result (IsBrokenAt (scene_in context.now) (ruled error.now)) }
{
    match ruled(error) {
        Some(handle) => broken_at(context, handle),
        None => None,
    }
}

// The requirement at an error, for the expressions of a context.
fn requirement_among<'a>(
    alloc: Global,
    context: &CheckContext<'a>,
    module: &'a Module,
    error: &'a ValidationError,
) -> Result<Requirement, AllocError>
    requires { AreKinds (expressions_in context.now) context.now.kinds.now }
{
    let cause = cause_of(context, error);
    let scene = Scene {
        context: *context,
        globals: &module.global_variables,
        cause: cause.as_ref(),
    };
    let sentence = Sentence {
        scene,
        module,
        error,
    };
    let text = format!(in alloc; "{sentence}")?;
    Ok(Requirement { text, cause })
}

// The requirement at an error, for expressions with these forms and kinds.
fn requirement_by<'a>(
    alloc: Global,
    capabilities: Capabilities,
    module: &'a Module,
    expressions: &'a Arena<Expression, key::Expression>,
    forms: &'a [Form],
    kinds: &'a ExpressionKindTracker,
    error: &'a ValidationError,
) -> Result<Requirement, AllocError>
    requires { AreKinds (map expression_view (values_of expressions.now)) kinds.now }
{
    let context = CheckContext {
        capabilities,
        types: &module.types,
        infos: &[],
        expressions,
        forms,
        kinds,
        callees: &[],
    };
    requirement_among(alloc, &context, module, error)
}

// The expressions around the error.
fn expressions_of<'a>(
    module: &'a Module,
    error: &ValidationError,
) -> &'a Arena<Expression, key::Expression> {
    match refused_function(module, error) {
        Some(function) => &function.expressions,
        None => &module.global_expressions,
    }
}

/// The requirement at an error, with these capabilities, for expressions whose types have these forms. The error is out of
/// memory.
pub(crate) fn requirement_in(
    alloc: Global,
    capabilities: Capabilities,
    module: &Module,
    forms: &[Form],
    error: &ValidationError,
) -> Result<Requirement, AllocError> {
    let expressions = expressions_of(module, error);
    if !origins_precede(expressions) {
        return Ok(Requirement {
            text: String::new(alloc),
            cause: None,
        });
    }
    let kinds = ExpressionKindTracker::from_arena(alloc, expressions)?;
    requirement_by(
        alloc,
        capabilities,
        &*module,
        &*expressions,
        &*forms,
        &kinds,
        &*error,
    )
}
