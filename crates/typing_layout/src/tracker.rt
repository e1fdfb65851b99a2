//! The constness of the expressions of an arena.

ghost use Rattle.std.specs.Prelude.{◌≡◌, ◌<◌, ◌↔◌, ◌⊎◌, ◌++◌, ◌∷◌, [], ℕ, Some, IsTrue, IfOk, length, map, option_to_list, slice_get, All};
ghost use Rattle.typing_forms.specs.IrArena.{value_of_entry};
ghost use Rattle.typing_forms.specs.IrTypes.{expression_view};
ghost use Rattle.typing_layout.specs.judged.Constness.{AreKinds, OriginsPrecede, later, latest, origin_of, operands_from};
ghost use Rattle.typing_layout.specs.declared.constness.ExpressionKind.TheVariants.{Const, Override};
ghost use Rattle.typing_layout.specs.found.Kinds.{known_kind, kind_by};

use crate::constness::ExpressionKind;
use std::alloc::{AllocError, Global};
use std::marker::Model;
use typing_forms::ir_arena::arena::Arena;
use typing_forms::ir_arena::handle::Handle;
use typing_forms::ir_types::{Expression, key};

/// The constness of each expression of an arena, by its handle (naga's `ExpressionKindTracker`). In a contract it is the list of
/// the kinds.
#[derive(Debug, Drop)]
pub struct ExpressionKindTracker {
    kinds: Vec<ExpressionKind>,
}

impl Model for ExpressionKindTracker {
    ghost use Rattle.std.specs.Prelude.{List};
    ghost use Rattle.typing_layout.specs.declared.constness.ExpressionKind.{ExpressionKind};

    ghost Value = { List ExpressionKind };

    ghost view = { λ t. t.kinds.items };
}

// The kind of the expression at a handle.
fn known_kind(kinds: &[ExpressionKind], handle: Handle<key::Expression>) -> ExpressionKind
    requires { handle < length kinds.now }
    ensures { result ≡ known_kind kinds.now handle }
{
    kinds[handle.index()]
}

// The later of two kinds.
fn later(left: ExpressionKind, right: ExpressionKind) -> ExpressionKind
    ensures { result ≡ later left right }
{
    match (left, right) {
        (ExpressionKind::Const, kind) => kind,
        (ExpressionKind::Override, ExpressionKind::Runtime) => ExpressionKind::Runtime,
        (ExpressionKind::Override, _) => ExpressionKind::Override,
        (ExpressionKind::Runtime, _) => ExpressionKind::Runtime,
    }
}

// The latest of the kinds of these expressions.
fn latest_kind(kinds: &[ExpressionKind], operands: &[Handle<key::Expression>]) -> ExpressionKind
    requires { All (λ operand. operand < length kinds.now) operands.now }
    ensures { result ≡ latest (map (known_kind kinds.now) operands.now) }
{
    let mut latest = ExpressionKind::Const;
    for operand in operands {
        latest = later(latest, known_kind(kinds, *operand));
    }
    latest
}

// The kind of an optional operand, const if there is none.
fn optional_kind(
    kinds: &[ExpressionKind],
    operand: Option<Handle<key::Expression>>,
) -> ExpressionKind
    requires { All (λ operand. operand < length kinds.now) (option_to_list operand) }
    ensures { result ≡ latest (map (known_kind kinds.now) (option_to_list operand)) }
{
    match operand {
        Some(operand) => latest_kind(kinds, &[operand]),
        None => ExpressionKind::Const,
    }
}

// The latest of the kinds of the arguments of a math function.
#[tactic(auto, using(crate::proofs::Latest::latest_of_two, crate::proofs::Latest::all_left, crate::proofs::Latest::all_right))]
fn math_kind(
    kinds: &[ExpressionKind],
    arg: Handle<key::Expression>,
    arg1: Option<Handle<key::Expression>>,
    arg2: Option<Handle<key::Expression>>,
    arg3: Option<Handle<key::Expression>>,
) -> ExpressionKind
    requires { All (λ operand. operand < length kinds.now) (arg ∷ (option_to_list arg1 ++ option_to_list arg2 ++ option_to_list arg3)) }
    ensures { result ≡ latest (map (known_kind kinds.now) (arg ∷ (option_to_list arg1 ++ option_to_list arg2 ++ option_to_list arg3))) }
{
    let first = known_kind(kinds, arg);
    let second = optional_kind(kinds, arg1);
    let third = optional_kind(kinds, arg2);
    let fourth = optional_kind(kinds, arg3);
    later(first, later(later(second, third), fourth))
}

// The kind of an expression, given those of the earlier expressions.
fn kind_of(kinds: &[ExpressionKind], expression: &Expression) -> ExpressionKind
    requires { All (λ operand. operand < length kinds.now) (operands_from (origin_of (expression_view expression.now))) }
    ensures { result ≡ kind_by kinds.now (origin_of (expression_view expression.now)) }
{
    match *expression {
        Expression::Literal(_) | Expression::Constant(_) | Expression::ZeroValue(_) => {
            ExpressionKind::Const
        }
        Expression::Override(_) => ExpressionKind::Override,
        Expression::Compose { ref components, .. } => latest_kind(kinds, components.as_slice()),
        Expression::Access { base, index } => latest_kind(kinds, &[base, index]),
        Expression::AccessIndex { base, .. } => latest_kind(kinds, &[base]),
        Expression::Splat { value, .. } => latest_kind(kinds, &[value]),
        Expression::Swizzle { vector, .. } => latest_kind(kinds, &[vector]),
        Expression::Unary { expr, .. } | Expression::As { expr, .. } => latest_kind(kinds, &[expr]),
        Expression::Binary { left, right, .. } => latest_kind(kinds, &[left, right]),
        Expression::Select {
            condition,
            accept,
            reject,
        } => latest_kind(kinds, &[condition, accept, reject]),
        Expression::Relational { argument, .. } => latest_kind(kinds, &[argument]),
        Expression::Math {
            arg,
            arg1,
            arg2,
            arg3,
            ..
        } => math_kind(kinds, arg, arg1, arg2, arg3),
        Expression::FunctionArgument(_)
        | Expression::GlobalVariable(_)
        | Expression::LocalVariable(_)
        | Expression::Load { .. }
        | Expression::ImageSample { .. }
        | Expression::ImageLoad { .. }
        | Expression::ImageQuery { .. }
        | Expression::Derivative { .. }
        | Expression::CallResult(_)
        | Expression::AtomicResult { .. }
        | Expression::WorkGroupUniformLoadResult { .. }
        | Expression::ArrayLength(_)
        | Expression::RayQueryVertexPositions { .. }
        | Expression::RayQueryProceedResult
        | Expression::RayQueryGetIntersection { .. }
        | Expression::SubgroupBallotResult
        | Expression::SubgroupOperationResult { .. }
        | Expression::CooperativeLoad { .. }
        | Expression::CooperativeMultiplyAdd { .. } => ExpressionKind::Runtime,
    }
}

// The kind of each expression.
fn kinds_of(
    alloc: Global,
    arena: &Arena<Expression, key::Expression>,
) -> Result<Vec<ExpressionKind>, AllocError>
    requires { OriginsPrecede (map expression_view (map value_of_entry arena.now)) }
    ensures { IfOk result (λ kinds. AreKinds (map expression_view (map value_of_entry arena.now)) kinds.items) }
{
    let mut kinds = Vec::with_capacity(alloc, arena.len())?;
    for place in 0..arena.len() {
        let kind = kind_of(kinds.as_slice(), &arena[Handle::at(place)]);
        kinds.push(kind)?;
    }
    Ok(kinds)
}

impl ExpressionKindTracker {
    /// The kinds of the expressions of an arena. Requires that the operands that determine a kind precede. Each expression is
    /// visited once. The error is out of memory.
    pub fn from_arena(
        alloc: Global,
        arena: &Arena<Expression, key::Expression>,
    ) -> Result<Self, AllocError>
        requires { OriginsPrecede (map expression_view (map value_of_entry arena.now)) }
        ensures { IfOk result (AreKinds (map expression_view (map value_of_entry arena.now))) }
    {
        let kinds = kinds_of(alloc, arena)?;
        Ok(ExpressionKindTracker { kinds })
    }

    /// Whether an expression is const.
    pub fn is_const(&self, handle: Handle<key::Expression>) -> bool
        requires { handle < length self.now }
        ensures { IsTrue result ↔ (slice_get self.now handle ≡ Some Const) }
    {
        self.kinds[handle.index()] == ExpressionKind::Const
    }

    /// Whether an expression is const or override.
    pub fn is_const_or_override(&self, handle: Handle<key::Expression>) -> bool
        requires { handle < length self.now }
        ensures { IsTrue result ↔ ((slice_get self.now handle ≡ Some Const) ⊎ (slice_get self.now handle ≡ Some Override)) }
    {
        self.kinds[handle.index()] != ExpressionKind::Runtime
    }
}
