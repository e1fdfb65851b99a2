//! The checks of `RayQueryVertexPositions` and `RayQueryGetIntersection`.

ghost use Rattle.std.specs.Prelude.{◌≡◌, ◌↔◌, IsTrue, MatchResult, Some};
ghost use Rattle.module_context.specs.Refused.{IsRefused};
ghost use Rattle.module_context.specs.OperandView.{scene_in, types_in};
ghost use Rattle.ir_types.specs.judged.Plain.{inner_view};
ghost use Rattle.spec_statements.specs.judged.ExpressionRayQueries.{query_of, VertexPositionsOK, IntersectionOK};
ghost use Rattle.spec_statements.specs.judged.Scene.{form_among};
ghost use Rattle.spec_statements.specs.judged.Shapes.{pointed_in};

use ir_arena::handle::Handle;
use ir_types::{TypeInner, key};
use module_context::{CheckContext, refused_unless};
use typing_errors::ExpressionError;
use typing_forms::Form;

/// Whether a ray query type returns vertex positions.
pub const fn query_of(inner: &TypeInner) -> Option<bool>
    ensures { result ≡ query_of (Some (inner_view inner.now)) }
{
    match *inner {
        TypeInner::RayQuery { vertex_return } => Some(vertex_return),
        TypeInner::Scalar(_)
        | TypeInner::Vector { .. }
        | TypeInner::Matrix { .. }
        | TypeInner::CooperativeMatrix { .. }
        | TypeInner::Atomic(_)
        | TypeInner::Pointer { .. }
        | TypeInner::ValuePointer { .. }
        | TypeInner::Array { .. }
        | TypeInner::Struct { .. }
        | TypeInner::Image { .. }
        | TypeInner::Sampler { .. }
        | TypeInner::AccelerationStructure { .. }
        | TypeInner::BindingArray { .. } => None,
    }
}

// Whether the base of a pointer is a ray query that returns vertex positions.
fn pointed_query(context: &CheckContext<'_>, query: Form) -> Option<bool>
    ensures { result ≡ query_of (pointed_in (types_in context.now) query) }
{
    match context.pointed_in(query) {
        Some(inner) => query_of(inner),
        None => None,
    }
}

// Whether a pointer type's base is a ray query that returns vertex positions.
fn gives_positions(context: &CheckContext<'_>, query: Form) -> bool
    ensures { IsTrue result ↔ VertexPositionsOK (types_in context.now) query }
{
    match pointed_query(context, query) {
        Some(vertex_return) => vertex_return,
        None => false,
    }
}

// Whether a pointer type's base is a ray query.
fn gives_intersection(context: &CheckContext<'_>, query: Form) -> bool
    ensures { IsTrue result ↔ IntersectionOK (types_in context.now) query }
{
    pointed_query(context, query).is_some()
}

/// Whether vertex positions can be read through a pointer: its base is a ray query that returns them.
///
/// # Errors
///
/// [`ExpressionError::Other`] if they can't.
#[tactic(auto, using(module_context::proofs::Refusals::by_test))]
pub fn check_vertex_positions(
    context: &CheckContext<'_>,
    query: Handle<key::Expression>,
) -> Result<(), ExpressionError>
    ensures { MatchResult result
        (λ _. VertexPositionsOK (types_in context.now) (form_among (scene_in context.now).forms query))
        (IsRefused (VertexPositionsOK (types_in context.now) (form_among (scene_in context.now).forms query))) }
{
    refused_unless(gives_positions(context, context.form_at(query)))
}

/// Whether an intersection can be read through a pointer: its base is a ray query.
///
/// # Errors
///
/// [`ExpressionError::Other`] if it can't.
#[tactic(auto, using(module_context::proofs::Refusals::by_test))]
pub fn check_intersection(
    context: &CheckContext<'_>,
    query: Handle<key::Expression>,
) -> Result<(), ExpressionError>
    ensures { MatchResult result
        (λ _. IntersectionOK (types_in context.now) (form_among (scene_in context.now).forms query))
        (IsRefused (IntersectionOK (types_in context.now) (form_among (scene_in context.now).forms query))) }
{
    refused_unless(gives_intersection(context, context.form_at(query)))
}
