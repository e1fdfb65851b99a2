//! Math functions, resolved by their overload sets.

ghost use Rattle.std.specs.Prelude.{◌≡◌, IfOk, Some};
ghost use Rattle.ir_types.specs.judged.Plain.{inner_view};
ghost use Rattle.typing_rules.specs.judged.MathTable.{math_overloads};
ghost use Rattle.typing_rules.specs.judged.Types.{value_type_of};
ghost use Rattle.spec_expressions.specs.judged.Maths.{value_of, matching_rules, concluded, math_of, math_type};
ghost use Rattle.typing_overloads.specs.Either.{any_rules};
ghost use Rattle.typing_errors.specs.Answers.{form_answer};
ghost use Rattle.typing_errors.specs.Operands.{given_form};
ghost use Rattle.typing_resolve.specs.View.{context_view};

use crate::context::ResolveContext;
use ir_arena::handle::Handle;
use ir_kinds::MathFunction;
use ir_types::{TypeInner, key};
use spec_expressions::{ConclusionExt, TypingFault};
use std::alloc::{AllocError, Global};
use typing_errors::{Given, Typing, given_form};
use typing_forms::Form;
use typing_overloads::{AnyOverloadSet, MathFunctionExt, OverloadSet};
use typing_rules::Rule;

// The type of an argument for the overload sets: if it is no value type, a placeholder that no rule accepts.
fn argument_inner(of: Form) -> TypeInner
    ensures { value_type_of (inner_view result) ≡ value_of of }
{
    match of {
        Form::Scalar(scalar) => TypeInner::Scalar(scalar),
        Form::Vector { size, scalar } => TypeInner::Vector { size, scalar },
        Form::Matrix {
            columns,
            rows,
            scalar,
        } => TypeInner::Matrix {
            columns,
            rows,
            scalar,
        },
        _ => TypeInner::Sampler { comparison: false },
    }
}

// The remaining rules of a function for these arguments. The error is out of memory.
#[tactic(auto, using(crate::proofs::Taken::taken_one, crate::proofs::Taken::taken_all))]
fn taking(alloc: Global, fun: MathFunction, given: &[Form]) -> Result<AnyOverloadSet, AllocError>
    ensures { IfOk result (λ set. any_rules set ≡ matching_rules 0 given.now (math_overloads fun)) }
{
    let mut rules = fun.overloads(alloc)?;
    for place in 0..given.len() {
        rules = rules.arg(alloc, place, &argument_inner(given[place]))?;
    }
    Ok(rules)
}

// The result type of a rule.
fn concluded(context: &ResolveContext<'_>, rule: Rule) -> Typing
    ensures { form_answer (context_view context.now).types result ≡ concluded (context_view context.now) (Some rule) }
{
    match rule.conclusion.into_resolution(context.special_types) {
        Ok(given) => Ok(given),
        Err(_) => Err(TypingFault::MissingSpecialType),
    }
}

// The result type of a function for these arguments. The error is out of memory.
fn math_of(
    alloc: Global,
    context: &ResolveContext<'_>,
    fun: MathFunction,
    given: &[Form],
) -> Result<Typing, AllocError>
    ensures { IfOk result (λ o. form_answer (context_view context.now).types o ≡ math_of (context_view context.now) fun (Some given.now)) }
{
    if given.len() != fun.argument_count() {
        return Ok(Err(TypingFault::BuiltinArgumentsInvalid));
    }
    let rules = taking(alloc, fun, given)?;
    if rules.is_empty() {
        return Ok(Err(TypingFault::BuiltinArgumentsInvalid));
    }
    Ok(concluded(context, rules.most_preferred()))
}

// The result type of a function for up to four arguments, the first of which has this form. The error is out of memory.
pub(crate) fn math_type(
    alloc: Global,
    context: &ResolveContext<'_>,
    fun: MathFunction,
    second: Option<Handle<key::Expression>>,
    third: Option<Handle<key::Expression>>,
    fourth: Option<Handle<key::Expression>>,
    first: Form,
    given: &Given<'_>,
) -> Result<Typing, AllocError>
    ensures { IfOk result (λ o. form_answer (context_view context.now).types o
        ≡ math_type (context_view context.now) fun second third fourth first
        (given_form (context_view context.now).types given.now.second)
        (given_form (context_view context.now).types given.now.third)
        (given_form (context_view context.now).types given.now.fourth)) }
{
    let types = context.types;
    match (second, third, fourth) {
        (None, None, None) => math_of(alloc, context, fun, &[first]),
        (Some(_), None, None) => math_of(
            alloc,
            context,
            fun,
            &[first, given_form(types, given.second)],
        ),
        (Some(_), Some(_), None) => {
            let b = given_form(types, given.second);
            let c = given_form(types, given.third);
            math_of(alloc, context, fun, &[first, b, c])
        }
        (Some(_), Some(_), Some(_)) => {
            let b = given_form(types, given.second);
            let c = given_form(types, given.third);
            let d = given_form(types, given.fourth);
            math_of(alloc, context, fun, &[first, b, c, d])
        }
        (None, Some(_), _) | (None, None, Some(_)) | (Some(_), None, Some(_)) => {
            Ok(Err(TypingFault::BuiltinArgumentsInvalid))
        }
    }
}
