//! Whether the operands that determine an expression's kind come before it.

ghost use Rattle.std.specs.Prelude.{◌≡◌, ◌<◌, ◌↔◌, ◌++◌, ◌∷◌, [], IsTrue, map, option_to_list, All};
ghost use Rattle.typing_forms.specs.IrArena.{value_of_entry};
ghost use Rattle.typing_forms.specs.IrTypes.{expression_view};
ghost use Rattle.typing_layout.specs.judged.Constness.{OriginsPrecede, origin_of, operands_from};

use typing_forms::ir_arena::arena::Arena;
use typing_forms::ir_arena::handle::Handle;
use typing_forms::ir_types::{Expression, key};

// Whether each of these expressions comes before a place.
fn are_below(operands: &[Handle<key::Expression>], place: usize) -> bool
    ensures { IsTrue result ↔ All (λ operand. operand < place) operands.now }
{
    operands.iter().all(|operand| operand.index() < place)
}

// Whether an optional expression comes before a place.
fn is_below(operand: Option<Handle<key::Expression>>, place: usize) -> bool
    ensures { IsTrue result ↔ All (λ operand. operand < place) (option_to_list operand) }
{
    match operand {
        Some(operand) => are_below(&[operand], place),
        None => true,
    }
}

// Whether the arguments of a math function come before a place.
fn arguments_below(
    arg: Handle<key::Expression>,
    arg1: Option<Handle<key::Expression>>,
    arg2: Option<Handle<key::Expression>>,
    arg3: Option<Handle<key::Expression>>,
    place: usize,
) -> bool
    ensures { IsTrue result ↔ All (λ operand. operand < place) (arg ∷ (option_to_list arg1 ++ option_to_list arg2 ++ option_to_list arg3)) }
{
    if !are_below(&[arg], place) || !is_below(arg1, place) {
        return false;
    }
    is_below(arg2, place) && is_below(arg3, place)
}

// Whether the operands that determine an expression's kind come before a place.
fn origin_precedes(expression: &Expression, place: usize) -> bool
    ensures { IsTrue result ↔ All (λ operand. operand < place) (operands_from (origin_of (expression_view expression.now))) }
{
    match *expression {
        Expression::Compose { ref components, .. } => are_below(components.as_slice(), place),
        Expression::Access { base, index } => are_below(&[base, index], place),
        Expression::AccessIndex { base, .. } => are_below(&[base], place),
        Expression::Splat { value, .. } => are_below(&[value], place),
        Expression::Swizzle { vector, .. } => are_below(&[vector], place),
        Expression::Unary { expr, .. } | Expression::As { expr, .. } => are_below(&[expr], place),
        Expression::Binary { left, right, .. } => are_below(&[left, right], place),
        Expression::Select {
            condition,
            accept,
            reject,
        } => are_below(&[condition, accept, reject], place),
        Expression::Relational { argument, .. } => are_below(&[argument], place),
        Expression::Math {
            arg,
            arg1,
            arg2,
            arg3,
            ..
        } => arguments_below(arg, arg1, arg2, arg3, place),
        Expression::Literal(_)
        | Expression::Constant(_)
        | Expression::Override(_)
        | Expression::ZeroValue(_)
        | Expression::FunctionArgument(_)
        | Expression::GlobalVariable(_)
        | Expression::LocalVariable(_)
        | Expression::Load { .. }
        | Expression::ImageSample { .. }
        | Expression::ImageLoad { .. }
        | Expression::ImageQuery { .. }
        | Expression::Derivative { .. }
        | Expression::CallResult(_)
        | Expression::AtomicResult { .. }
        | Expression::WorkGroupUniformLoadResult { .. }
        | Expression::ArrayLength(_)
        | Expression::RayQueryVertexPositions { .. }
        | Expression::RayQueryProceedResult
        | Expression::RayQueryGetIntersection { .. }
        | Expression::SubgroupBallotResult
        | Expression::SubgroupOperationResult { .. }
        | Expression::CooperativeLoad { .. }
        | Expression::CooperativeMultiplyAdd { .. } => true,
    }
}

/// Whether the operands that determine an expression's kind come before it, for each expression of an arena. It is what
/// [`crate::ExpressionKindTracker::from_arena`] requires.
pub fn origins_precede(arena: &Arena<Expression, key::Expression>) -> bool
    ensures { IsTrue result ↔ OriginsPrecede (map expression_view (map value_of_entry arena.now)) }
{
    for place in 0..arena.len() {
        if !origin_precedes(&arena[Handle::at(place)], place) {
            return false;
        }
    }
    true
}
