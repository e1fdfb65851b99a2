//! The type of an expression from the types of its operands: one match arm for each kind.

ghost use Rattle.std.specs.Prelude.{◌≡◌, List, IfOk, Some};
ghost use Rattle.ir_types.specs.judged.Plain.{PlainType};
ghost use Rattle.ir_types.specs.judged.ExpressionPlain.{expression_view};
ghost use Rattle.spec_expressions.specs.judged.Context.{NamesItem};
ghost use Rattle.typing_errors.specs.Answers.{form_answer, told};
ghost use Rattle.typing_errors.specs.Operands.{rule_given};
ghost use Rattle.typing_resolve.specs.View.{context_view};

use crate::access::{access_index_type, access_type};
use crate::compositions::{splat_type, swizzle_type};
use crate::context::ResolveContext;
use crate::conversions::as_type;
use crate::cooperative_matrices::cooperative_load_type;
use crate::image_loads::{image_load_type, image_query_type};
use crate::image_samples::image_sample_type;
use crate::literals::{constant_type, literal_type, override_type};
use crate::loads::{argument_type, array_length_type, global_type, load_type, local_type};
use crate::maths::math_type;
use crate::operators::binary_type;
use crate::ray_queries::{proceed_type, special_type};
use crate::results::call_result_type;
use crate::selections::relational_type;
use crate::subgroups::ballot_type;
use ir_types::Expression;
use std::alloc::{AllocError, Global};
use typing_errors::{Given, ResolveRefusal, Typing, error_of, given_again, given_form};
use typing_forms::TypeResolution;

// The type of an expression, given those of its operands. The error is out of memory.
fn typing(
    alloc: Global,
    context: &ResolveContext<'_>,
    expression: &Expression,
    given: &Given<'_>,
) -> Result<Typing, AllocError>
    requires { NamesItem (context_view context.now) (expression_view expression.now) }
    ensures { IfOk result (λ o. form_answer (context_view context.now).types o
        ≡ rule_given (context_view context.now) (expression_view expression.now) given.now) }
{
    let (types, special) = (context.types, context.special_types);
    let of = given_form(types, given.first);
    match *expression {
        Expression::Literal(value) => Ok(Ok(literal_type(value))),
        Expression::Constant(constant) => Ok(Ok(constant_type(context.constants, constant))),
        Expression::Override(id) => Ok(Ok(override_type(context.overrides, id))),
        Expression::ZeroValue(ty) => Ok(Ok(TypeResolution::Handle(ty))),
        Expression::Compose { ty, .. } => Ok(Ok(TypeResolution::Handle(ty))),
        Expression::Access { base, .. } => Ok(access_type(types, base, of)),
        Expression::AccessIndex { base, index } => Ok(access_index_type(types, base, index, of)),
        Expression::Splat { size, value } => Ok(splat_type(size, value, of)),
        Expression::Swizzle { size, vector, .. } => Ok(swizzle_type(size, vector, of)),
        Expression::FunctionArgument(number) => Ok(argument_type(context.arguments, number)),
        Expression::GlobalVariable(global) => Ok(Ok(global_type(context.global_vars, global))),
        Expression::LocalVariable(local) => Ok(Ok(local_type(context.local_vars, local))),
        Expression::Load { pointer } => Ok(load_type(types, pointer, of)),
        Expression::ImageSample { image, gather, .. } => Ok(image_sample_type(image, gather, of)),
        Expression::ImageLoad { image, .. } => Ok(image_load_type(image, of)),
        Expression::ImageQuery { image, query } => Ok(image_query_type(image, query, of)),
        Expression::Unary { .. } | Expression::Select { .. } | Expression::Derivative { .. } => {
            given_again(alloc, types, given.first)
        }
        Expression::Binary { op, .. } => binary_type(alloc, types, op, given.first, given.second),
        Expression::Relational { fun, .. } => Ok(relational_type(fun, of)),
        Expression::Math {
            fun,
            arg1,
            arg2,
            arg3,
            ..
        } => math_type(alloc, context, fun, arg1, arg2, arg3, of, given),
        Expression::As { kind, convert, .. } => Ok(as_type(kind, convert, of)),
        Expression::CallResult(function) => Ok(call_result_type(context.functions, function)),
        Expression::AtomicResult { ty, .. }
        | Expression::WorkGroupUniformLoadResult { ty }
        | Expression::SubgroupOperationResult { ty } => Ok(Ok(TypeResolution::Handle(ty))),
        Expression::ArrayLength(_) => Ok(Ok(array_length_type())),
        Expression::RayQueryVertexPositions { .. } => Ok(special_type(special.ray_vertex_return)),
        Expression::RayQueryProceedResult => Ok(Ok(proceed_type())),
        Expression::RayQueryGetIntersection { .. } => Ok(special_type(special.ray_intersection)),
        Expression::SubgroupBallotResult => Ok(Ok(ballot_type())),
        Expression::CooperativeLoad {
            columns,
            rows,
            role,
            block,
        } => Ok(cooperative_load_type(types, columns, rows, role, block.pointer, of)),
        Expression::CooperativeMultiplyAdd { .. } => given_again(alloc, types, given.first),
    }
}

// Converts a type or a fault into a result: the fault as an error, if there is memory for its message.
fn answer(alloc: Global, found: Typing) -> Result<TypeResolution, ResolveRefusal>
    ensures { (types : List PlainType) → told types (Some (form_answer types found)) result ≡ Some (form_answer types found) }
{
    match found {
        Ok(given) => Ok(given),
        Err(fault) => match error_of(alloc, fault) {
            Ok(error) => Err(ResolveRefusal::Fault(error)),
            Err(error) => Err(ResolveRefusal::Memory(error)),
        },
    }
}

// The type of an expression, given those of its operands, or why there is none.
pub(crate) fn answered(
    alloc: Global,
    context: &ResolveContext<'_>,
    expression: &Expression,
    given: &Given<'_>,
) -> Result<TypeResolution, ResolveRefusal>
    requires { NamesItem (context_view context.now) (expression_view expression.now) }
    ensures { told (context_view context.now).types
        (Some (rule_given (context_view context.now) (expression_view expression.now) given.now)) result
        ≡ Some (rule_given (context_view context.now) (expression_view expression.now) given.now) }
{
    match typing(alloc, context, expression, given) {
        Ok(found) => answer(alloc, found),
        Err(error) => Err(ResolveRefusal::Memory(error)),
    }
}
