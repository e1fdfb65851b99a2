//! Whether handles are in their arena and reference earlier items, by looking at each.
ghost use Rattle.std.specs.Prelude.{◌≡◌, ◌<◌, length, IsTrue};
ghost use Rattle.std.specs.List.{All};
ghost use Rattle.std.specs.Option.{ForSome};
ghost use Rattle.ir_types.specs.judged.ExpressionPlain.{expression_view};
ghost use Rattle.ir_items.specs.judged.Bases.{expressions_of, base_of, BasesPrecede};
ghost use Rattle.ir_items.specs.found.Filters.{nodes_of, ParentsPrecede};
ghost use Rattle.ir_items.specs.found.Flat.{parts_of, PartsPrecede};

use ir_arena::arena::Arena;
use ir_arena::handle::Handle;
use ir_items::{DiagnosticFilterNode, Expression, key};

/// Whether each node comes after its parent.
pub fn parents_precede(arena: &Arena<DiagnosticFilterNode, key::DiagnosticFilterNode>) -> bool
    ensures { IsTrue result → ParentsPrecede (nodes_of arena.now) }
{
    for place in 0..arena.len() {
        if !parent_is_before(&arena[Handle::at(place)], place) {
            return false;
        }
    }
    true
}

fn parent_is_before(node: &DiagnosticFilterNode, place: usize) -> bool
    ensures { IsTrue result → ForSome node.now.parent (λ parent. parent < place) }
{
    match node.parent {
        Some(parent) => parent.index() < place,
        None => true,
    }
}

/// Whether each access comes after its base.
pub fn bases_precede(arena: &Arena<Expression, key::Expression>) -> bool
    ensures { IsTrue result → BasesPrecede (expressions_of arena.now) }
{
    for place in 0..arena.len() {
        if !base_is_before(&arena[Handle::at(place)], place) {
            return false;
        }
    }
    true
}

fn base_is_before(expression: &Expression, place: usize) -> bool
    ensures { IsTrue result → ForSome (base_of (expression_view expression.now)) (λ base. base < place) }
{
    match *expression {
        Expression::Access { base, .. } => base.index() < place,
        Expression::AccessIndex { base, .. } => base.index() < place,
        Expression::Literal(_)
        | Expression::Constant(_)
        | Expression::Override(_)
        | Expression::ZeroValue(_)
        | Expression::Compose { .. }
        | Expression::Splat { .. }
        | Expression::Swizzle { .. }
        | Expression::FunctionArgument(_)
        | Expression::GlobalVariable(_)
        | Expression::LocalVariable(_)
        | Expression::Load { .. }
        | Expression::ImageSample { .. }
        | Expression::ImageLoad { .. }
        | Expression::ImageQuery { .. }
        | Expression::Unary { .. }
        | Expression::Binary { .. }
        | Expression::Select { .. }
        | Expression::Derivative { .. }
        | Expression::Relational { .. }
        | Expression::Math { .. }
        | Expression::As { .. }
        | Expression::CallResult(_)
        | Expression::AtomicResult { .. }
        | Expression::WorkGroupUniformLoadResult { .. }
        | Expression::ArrayLength(_)
        | Expression::RayQueryVertexPositions { .. }
        | Expression::RayQueryProceedResult
        | Expression::RayQueryGetIntersection { .. }
        | Expression::SubgroupBallotResult
        | Expression::SubgroupOperationResult { .. }
        | Expression::CooperativeLoad { .. }
        | Expression::CooperativeMultiplyAdd { .. } => true,
    }
}

/// Whether each `Compose` and `Splat` comes after its components.
pub fn parts_precede(arena: &Arena<Expression, key::Expression>) -> bool
    ensures { IsTrue result → PartsPrecede (expressions_of arena.now) }
{
    for place in 0..arena.len() {
        if !parts_are_before(&arena[Handle::at(place)], place) {
            return false;
        }
    }
    true
}

fn parts_are_before(expression: &Expression, place: usize) -> bool
    ensures { IsTrue result → ForSome (parts_of (expression_view expression.now)) (All (λ part. part < place)) }
{
    match *expression {
        Expression::Compose { ref components, .. } => all_before(components.as_slice(), place),
        Expression::Splat { value, .. } => value.index() < place,
        Expression::Literal(_)
        | Expression::Constant(_)
        | Expression::Override(_)
        | Expression::ZeroValue(_)
        | Expression::Access { .. }
        | Expression::AccessIndex { .. }
        | Expression::Swizzle { .. }
        | Expression::FunctionArgument(_)
        | Expression::GlobalVariable(_)
        | Expression::LocalVariable(_)
        | Expression::Load { .. }
        | Expression::ImageSample { .. }
        | Expression::ImageLoad { .. }
        | Expression::ImageQuery { .. }
        | Expression::Unary { .. }
        | Expression::Binary { .. }
        | Expression::Select { .. }
        | Expression::Derivative { .. }
        | Expression::Relational { .. }
        | Expression::Math { .. }
        | Expression::As { .. }
        | Expression::CallResult(_)
        | Expression::AtomicResult { .. }
        | Expression::WorkGroupUniformLoadResult { .. }
        | Expression::ArrayLength(_)
        | Expression::RayQueryVertexPositions { .. }
        | Expression::RayQueryProceedResult
        | Expression::RayQueryGetIntersection { .. }
        | Expression::SubgroupBallotResult
        | Expression::SubgroupOperationResult { .. }
        | Expression::CooperativeLoad { .. }
        | Expression::CooperativeMultiplyAdd { .. } => true,
    }
}

/// Whether each handle has an index below this one.
pub fn all_before(handles: &[Handle<key::Expression>], place: usize) -> bool
    ensures { IsTrue result → All (λ handle. handle < place) handles.now }
{
    for handle in handles {
        if handle.index() >= place {
            return false;
        }
    }
    true
}
