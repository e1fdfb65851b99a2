//! Operations on ray queries.

ghost use Rattle.std.specs.Prelude.{◌≡◌, ◌↔◌, IsTrue, MatchResult, option_map, slice_get};
ghost use Rattle.ir_blocks.specs.declared.operations.RayQueryFunction.TheVariants.{Initialize};
ghost use Rattle.ir_types.specs.judged.ExpressionPlain.{expression_view};
ghost use Rattle.function_statements.specs.RayQueries.{IsStartFault, IsStepFault, IsRayQueryFault};
ghost use Rattle.spec_statements.specs.judged.ExpressionRayQueries.{query_of};
ghost use Rattle.spec_statements.specs.judged.Shapes.{IsMadeOf, IsScalarShape, IsFloating};
ghost use Rattle.spec_statements.specs.judged.RayQueries.{local_of, local_type_at, GivesVertices, RayStepOK, RayQueryOK};
ghost use Rattle.typing_forms.specs.judged.Resolutions.{inner_at};

use crate::rays::{is_ray_descriptor, structure_of};
use function_atomic_checks::module_expression_checks::{is_alone, query_of};
use function_statement_checks::StatementContext;
use ir_arena::handle::Handle;
use ir_blocks::RayQueryFunction;
use ir_types::{Expression, key};
use module_context::{is_floating, shaped_of};
use typing_errors::FunctionError;
use typing_forms::Form;

// ---- the query

// The local variable that an expression names.
fn local_of(expression: &Expression) -> Option<Handle<key::LocalVariable>>
    ensures { result ≡ local_of (expression_view expression.now) }
{
    match *expression {
        Expression::LocalVariable(local) => Some(local),
        _ => None,
    }
}

// The type of the local variable that the expression at a handle names.
fn local_type_at<C: StatementContext>(
    context: &C,
    handle: Handle<key::Expression>,
) -> Option<Handle<key::IrType>>
    ensures { result ≡ local_type_at (C.seen context.now).f handle }
{
    match context.expression_at(handle) {
        Some(expression) => match local_of(expression) {
            Some(local) => context.local_type(local),
            None => None,
        },
        None => None,
    }
}

// Whether a ray query type has vertex return.
fn query_at<C: StatementContext>(context: &C, ty: Handle<key::IrType>) -> Option<bool>
    ensures { result ≡ query_of (inner_at (C.seen context.now).m.types ty) }
{
    match context.inner_of(ty) {
        Some(inner) => query_of(inner),
        None => None,
    }
}

// ---- steps

// Whether an acceleration structure has vertex return if required.
const fn gives_vertices(asked: bool, given: bool) -> bool
    ensures { IsTrue result ↔ GivesVertices asked given }
{
    !asked || given
}

// Whether a query begins with a suitable acceleration structure and a ray descriptor.
fn check_start<C: StatementContext>(
    context: &C,
    query: Handle<key::Expression>,
    vertices: bool,
    structure: Handle<key::Expression>,
    descriptor: Handle<key::Expression>,
) -> Result<(), FunctionError>
    requires { C.known context.now }
    ensures { MatchResult result
        (λ _. RayStepOK (C.seen context.now) vertices (Initialize structure descriptor))
        (IsStartFault (C.seen context.now) query vertices structure descriptor) }
{
    match structure_of(context.form_at(structure)) {
        None => Err(FunctionError::InvalidAccelerationStructure(structure)),
        Some(given) => {
            if !gives_vertices(vertices, given) {
                return Err(FunctionError::MissingAccelerationStructureVertexReturn(
                    structure, query,
                ));
            }
            let described = context.form_at(descriptor);
            if !is_ray_descriptor(context, &described) {
                return Err(FunctionError::InvalidRayDescriptor(descriptor));
            }
            Ok(())
        }
    }
}

// Whether a type is that of a distance: `f32`.
fn is_distance(of: Form) -> bool
    ensures { IsTrue result ↔ IsMadeOf IsScalarShape IsFloating of }
{
    match shaped_of(of) {
        Some(shaped) => is_alone(shaped.shape) && is_floating(shaped.scalar.kind),
        None => false,
    }
}

// Whether an operation on a query is allowed.
fn check_step<C: StatementContext>(
    context: &C,
    query: Handle<key::Expression>,
    vertices: bool,
    fun: &RayQueryFunction,
) -> Result<(), FunctionError>
    requires { C.known context.now }
    ensures { MatchResult result
        (λ _. RayStepOK (C.seen context.now) vertices fun.now)
        (IsStepFault (C.seen context.now) query vertices fun.now) }
{
    match *fun {
        RayQueryFunction::Initialize {
            acceleration_structure,
            descriptor,
        } => check_start(context, query, vertices, acceleration_structure, descriptor),
        RayQueryFunction::GenerateIntersection { hit_t } => {
            if is_distance(context.form_at(hit_t)) {
                Ok(())
            } else {
                Err(FunctionError::InvalidHitDistanceType(hit_t))
            }
        }
        RayQueryFunction::Proceed { .. }
        | RayQueryFunction::ConfirmIntersection
        | RayQueryFunction::Terminate => Ok(()),
    }
}

/// Whether an operation on a ray query is valid: the query is a local variable; it is initialized with an acceleration
/// structure, which has vertex return if the query does, and a ray descriptor; and a generated hit has an `f32` distance.
///
/// # Errors
///
/// [`FunctionError::InvalidRayQueryExpression`] if it is not a local variable, and [`FunctionError::InvalidRayQueryType`] if
/// that is not a ray query; [`FunctionError::InvalidAccelerationStructure`],
/// [`FunctionError::MissingAccelerationStructureVertexReturn`] or [`FunctionError::InvalidRayDescriptor`] for invalid operands
/// of the initialization; [`FunctionError::InvalidHitDistanceType`] for a distance that is not `f32`.
pub fn check_ray_query<C: StatementContext>(
    context: &C,
    query: Handle<key::Expression>,
    fun: RayQueryFunction,
) -> Result<(), FunctionError>
    requires { C.known context.now }
    ensures { MatchResult result
        (λ _. RayQueryOK (C.seen context.now) query fun)
        (IsRayQueryFault (C.seen context.now) query fun) }
{
    match local_type_at(context, query) {
        None => Err(FunctionError::InvalidRayQueryExpression(query)),
        Some(ty) => match query_at(context, ty) {
            None => Err(FunctionError::InvalidRayQueryType(ty)),
            Some(vertices) => match check_step(context, query, vertices, &fun) {
                Ok(()) => Ok(()),
                Err(error) => Err(error),
            },
        },
    }
}
