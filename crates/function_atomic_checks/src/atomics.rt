//! Atomic operations on memory.

ghost use Rattle.std.specs.Prelude.{◌≡◌, ◌↔◌, IsTrue, MatchResult, IfSome, Some, None, option_and_then, option_map, slice_get};
ghost use Rattle.ir_types.specs.judged.ExpressionPlain.{expression_view};
ghost use Rattle.ir_types.specs.judged.Plain.{inner_view};
ghost use Rattle.function_atomic_checks.specs.Atomics.{IsWide, IsWideFault, IsFloatFault, IsScalarFault, IsPlainFault, IsExchangeFault, IsAnswerFault, IsChangeFault, IsAtomicFault};
ghost use Rattle.function_atomic_checks.specs.View.{answer_view};
ghost use Rattle.spec_statements.specs.judged.ExpressionResults.{IsExchangeOf};
ghost use Rattle.spec_expressions.specs.judged.Operands.{comparand};
ghost use Rattle.typing_layout.specs.judged.Rules.{IsStorageSpace};
ghost use Rattle.spec_statements.specs.judged.Atomics.{atomic_of, changed_scalar, IsInStorage, IsStorageMinMaxWithoutResult, Int64AtomicOK, IsDoneWithFloats, Float32AtomicOK, ScalarAllows, declared_answer, AtomicAnswerOK, MayOmitResult, AtomicResultOK, AtomicChangeOK, AtomicStatementOK};
ghost use Rattle.spec_statements.specs.judged.BlockContext.{form_at};
ghost use Rattle.spec_statements.specs.judged.StorageImages.{IsMinOrMax};
ghost use Rattle.spec_statements.specs.judged.Stores.{pointer_space};
ghost use Rattle.typing_forms.specs.judged.Resolutions.{inner_at};

use bitflags::Flags;
use function_statement_checks::{StatementContext, pointer_space};
use ir_arena::handle::Handle;
use ir_blocks::AtomicFunction;
use ir_flags::Capabilities;
use ir_kinds::{AddressSpace, Scalar};
use ir_types::{Expression, TypeInner, key};
use module_context::are_same;
use module_expressions::module_expression_checks::exchanged_value;
use typing_errors::{AtomicError, FunctionError};
use typing_forms::Form;

// ---- the target

// The scalar of an atomic, and its address space.
#[derive(Clone, Copy)]
struct Changed {
    scalar: Scalar,
    space: AddressSpace,
}

// The scalar of an atomic.
const fn atomic_of(inner: &TypeInner) -> Option<Scalar>
    ensures { result ≡ atomic_of (Some (inner_view inner.now)) }
{
    match *inner {
        TypeInner::Atomic(scalar) => Some(scalar),
        TypeInner::Scalar(_)
        | TypeInner::Vector { .. }
        | TypeInner::Matrix { .. }
        | TypeInner::CooperativeMatrix { .. }
        | TypeInner::Pointer { .. }
        | TypeInner::ValuePointer { .. }
        | TypeInner::Array { .. }
        | TypeInner::Struct { .. }
        | TypeInner::Image { .. }
        | TypeInner::Sampler { .. }
        | TypeInner::AccelerationStructure { .. }
        | TypeInner::RayQuery { .. }
        | TypeInner::BindingArray { .. } => None,
    }
}

// The same for a type of the module.
fn atomic_at<C: StatementContext>(context: &C, ty: Handle<key::IrType>) -> Option<Scalar>
    ensures { result ≡ atomic_of (inner_at (C.seen context.now).m.types ty) }
{
    match context.inner_of(ty) {
        Some(inner) => atomic_of(inner),
        None => None,
    }
}

// The atomic that a pointer points to.
fn changed_by<C: StatementContext>(context: &C, pointer: &Form) -> Option<Changed>
    ensures scalar { option_map (λ x. x.scalar) result ≡ changed_scalar (C.seen context.now).m.types pointer.now }
    ensures space { IfSome result (λ x. pointer_space pointer.now ≡ Some x.space) }
{
    match *pointer {
        Form::Pointer { base, space } => match atomic_at(context, base) {
            Some(scalar) => Some(Changed { scalar, space }),
            None => None,
        },
        Form::Scalar(_)
        | Form::Vector { .. }
        | Form::Matrix { .. }
        | Form::CooperativeMatrix { .. }
        | Form::Atomic(_)
        | Form::ValuePointer { .. }
        | Form::Array { .. }
        | Form::Struct(_)
        | Form::Image { .. }
        | Form::Sampler { .. }
        | Form::AccelerationStructure { .. }
        | Form::RayQuery { .. }
        | Form::BindingArray { .. }
        | Form::Nothing => None,
    }
}

/// The scalar of the atomic that a pointer points to.
pub(crate) fn changed_scalar<C: StatementContext>(context: &C, pointer: &Form) -> Option<Scalar>
    ensures { result ≡ changed_scalar (C.seen context.now).m.types pointer.now }
{
    match changed_by(context, pointer) {
        Some(changed) => Some(changed.scalar),
        None => None,
    }
}

// ---- operations by scalar

// Whether two scalars are the same.
#[tactic(auto, using(crate::proofs::Scalars::same_scalar))]
fn is_scalar(scalar: Scalar, other: Scalar) -> bool
    ensures { IsTrue result ↔ (scalar ≡ other) }
{
    are_same(Form::Scalar(scalar), Form::Scalar(other))
}

// Whether a scalar is a 64-bit integer.
fn is_wide(scalar: Scalar) -> bool
    ensures { IsTrue result ↔ IsWide scalar }
{
    is_scalar(scalar, Scalar::I64) || is_scalar(scalar, Scalar::U64)
}

// Whether an address space is `Storage`.
const fn is_storage(space: AddressSpace) -> bool
    ensures { IsTrue result ↔ IsStorageSpace space }
{
    match space {
        AddressSpace::Storage { .. } => true,
        AddressSpace::Function
        | AddressSpace::Private
        | AddressSpace::WorkGroup
        | AddressSpace::Uniform
        | AddressSpace::Handle
        | AddressSpace::Immediate
        | AddressSpace::TaskPayload
        | AddressSpace::RayPayload
        | AddressSpace::IncomingRayPayload => false,
    }
}

// Whether a pointer points into `Storage`.
fn is_in_storage(pointer: &Form) -> bool
    ensures { IsTrue result ↔ IsInStorage pointer.now }
{
    match pointer_space(*pointer) {
        Some(space) => is_storage(space),
        None => false,
    }
}

/// Whether the operation is a minimum or a maximum.
pub(crate) const fn is_extremum(fun: &AtomicFunction) -> bool
    ensures { IsTrue result ↔ IsMinOrMax fun.now }
{
    match *fun {
        AtomicFunction::Min | AtomicFunction::Max => true,
        AtomicFunction::Add
        | AtomicFunction::Subtract
        | AtomicFunction::And
        | AtomicFunction::ExclusiveOr
        | AtomicFunction::InclusiveOr
        | AtomicFunction::Exchange { .. } => false,
    }
}

// Whether the operation is a minimum or a maximum in a storage buffer, without a result.
fn is_kept_extremum(
    pointer: &Form,
    fun: &AtomicFunction,
    answer: &Option<Handle<key::Expression>>,
) -> bool
    ensures { IsTrue result ↔ IsStorageMinMaxWithoutResult pointer.now fun.now answer.now }
{
    is_extremum(fun) && is_in_storage(pointer) && answer.is_none()
}

// Whether this operation is allowed on a 64-bit integer.
fn check_wide(
    capabilities: Capabilities,
    pointer: &Form,
    fun: &AtomicFunction,
    answer: &Option<Handle<key::Expression>>,
) -> Result<(), AtomicError>
    ensures { MatchResult result
        (λ _. Int64AtomicOK capabilities pointer.now fun.now answer.now)
        (IsWideFault capabilities pointer.now fun.now answer.now) }
{
    if capabilities.contains(Capabilities::SHADER_INT64_ATOMIC_ALL_OPS) {
        return Ok(());
    }
    if !is_kept_extremum(pointer, fun, answer) {
        return Err(AtomicError::MissingCapability(Capabilities::SHADER_INT64_ATOMIC_ALL_OPS));
    }
    if !capabilities.contains(Capabilities::SHADER_INT64_ATOMIC_MIN_MAX) {
        return Err(AtomicError::MissingCapability(Capabilities::SHADER_INT64_ATOMIC_MIN_MAX));
    }
    Ok(())
}

// Whether the operation is allowed on floats.
const fn is_done_with_floats(fun: &AtomicFunction) -> bool
    ensures { IsTrue result ↔ IsDoneWithFloats fun.now }
{
    match *fun {
        AtomicFunction::Add | AtomicFunction::Subtract => true,
        AtomicFunction::Exchange { compare } => match compare {
            Some(_) => false,
            None => true,
        },
        AtomicFunction::And
        | AtomicFunction::ExclusiveOr
        | AtomicFunction::InclusiveOr
        | AtomicFunction::Min
        | AtomicFunction::Max => false,
    }
}

// Whether this operation is allowed on an `f32` in a space.
fn check_float(
    capabilities: Capabilities,
    pointer: &Form,
    space: AddressSpace,
    fun: &AtomicFunction,
) -> Result<(), AtomicError>
    requires { pointer_space pointer.now ≡ Some space }
    ensures { MatchResult result
        (λ _. Float32AtomicOK capabilities pointer.now fun.now)
        (IsFloatFault capabilities pointer.now fun.now) }
{
    if !capabilities.contains(Capabilities::SHADER_FLOAT32_ATOMIC) {
        return Err(AtomicError::MissingCapability(Capabilities::SHADER_FLOAT32_ATOMIC));
    }
    if !is_done_with_floats(fun) {
        return Err(AtomicError::InvalidOperator(*fun));
    }
    if !is_in_storage(pointer) {
        return Err(AtomicError::InvalidAddressSpace(space));
    }
    Ok(())
}

// Whether this operation is allowed on the scalar of an atomic.
#[tactic(auto, using(crate::proofs::Scalars::wide_allows, crate::proofs::Scalars::float_allows, crate::proofs::Scalars::others_allow))]
fn check_scalar(
    capabilities: Capabilities,
    pointer: &Form,
    changed: Changed,
    fun: &AtomicFunction,
    answer: &Option<Handle<key::Expression>>,
) -> Result<(), AtomicError>
    requires { pointer_space pointer.now ≡ Some changed.space }
    ensures { MatchResult result
        (λ _. ScalarAllows capabilities changed.scalar pointer.now fun.now answer.now)
        (IsScalarFault capabilities changed.scalar pointer.now fun.now answer.now) }
{
    if is_wide(changed.scalar) {
        return match check_wide(capabilities, pointer, fun, answer) {
            Ok(()) => Ok(()),
            Err(error) => Err(error),
        };
    }
    if is_scalar(changed.scalar, Scalar::F32) {
        return match check_float(capabilities, pointer, changed.space, fun) {
            Ok(()) => Ok(()),
            Err(error) => Err(error),
        };
    }
    Ok(())
}

// ---- the result

// The type that an `AtomicResult` declares.
#[derive(Clone, Copy)]
struct DeclaredAnswer {
    ty: Handle<key::IrType>,
    comparison: bool,
}

// The declaration of an `AtomicResult`; `None` for other expressions.
fn declared_answer(expression: &Expression) -> Option<DeclaredAnswer>
    ensures { option_map answer_view result ≡ declared_answer (expression_view expression.now) }
{
    match *expression {
        Expression::AtomicResult { ty, comparison } => Some(DeclaredAnswer { ty, comparison }),
        _ => None,
    }
}

// The same for the expression at a handle.
fn declared_at<C: StatementContext>(
    context: &C,
    handle: Handle<key::Expression>,
) -> Option<DeclaredAnswer>
    ensures { option_map answer_view result ≡ option_and_then declared_answer (slice_get (C.seen context.now).f.expressions handle) }
{
    match context.expression_at(handle) {
        Some(expression) => declared_answer(expression),
        None => None,
    }
}

// Whether the result type of a compare-exchange has this scalar.
fn is_exchange_of<C: StatementContext>(context: &C, ty: Handle<key::IrType>, scalar: Scalar) -> bool
    ensures { IsTrue result
        ↔ IsExchangeOf (λ old. old ≡ Form.Scalar scalar) (C.seen context.now).m.types (inner_at (C.seen context.now).m.types ty) }
{
    match exchanged_value(context.types(), ty) {
        Some(old) => are_same(old, Form::Scalar(scalar)),
        None => false,
    }
}

// Whether the result is the old value.
fn check_plain<C: StatementContext>(
    context: &C,
    scalar: Scalar,
    answer: Handle<key::Expression>,
    declared: &DeclaredAnswer,
) -> Result<(), AtomicError>
    ensures { MatchResult result
        (λ _. AtomicAnswerOK (C.seen context.now) scalar None (answer_view declared.now))
        (IsPlainFault (C.seen context.now) scalar answer (answer_view declared.now)) }
{
    if !are_same(context.form_of(declared.ty), Form::Scalar(scalar)) {
        return Err(AtomicError::ResultTypeMismatch(answer));
    }
    if declared.comparison {
        return Err(AtomicError::ResultExpressionExchange(answer));
    }
    Ok(())
}

// Whether the result is the struct of a compare-exchange: the old value, and whether it was replaced.
fn check_exchange<C: StatementContext>(
    context: &C,
    scalar: Scalar,
    compare: Handle<key::Expression>,
    answer: Handle<key::Expression>,
    declared: &DeclaredAnswer,
) -> Result<(), AtomicError>
    ensures { MatchResult result
        (λ _. AtomicAnswerOK (C.seen context.now) scalar (Some compare) (answer_view declared.now))
        (IsExchangeFault (C.seen context.now) scalar compare answer (answer_view declared.now)) }
{
    if !are_same(context.form_at(compare), Form::Scalar(scalar)) {
        return Err(AtomicError::InvalidOperand(compare));
    }
    if !is_exchange_of(context, declared.ty, scalar) {
        return Err(AtomicError::ResultTypeMismatch(answer));
    }
    if !declared.comparison {
        return Err(AtomicError::ResultExpressionNotExchange(answer));
    }
    Ok(())
}

// The comparand of a compare-exchange.
const fn compared(fun: &AtomicFunction) -> Option<Handle<key::Expression>>
    ensures { result ≡ comparand fun.now }
{
    match *fun {
        AtomicFunction::Exchange { compare } => compare,
        AtomicFunction::Add
        | AtomicFunction::Subtract
        | AtomicFunction::And
        | AtomicFunction::ExclusiveOr
        | AtomicFunction::InclusiveOr
        | AtomicFunction::Min
        | AtomicFunction::Max => None,
    }
}

// Whether the operation may have no result.
const fn may_be_unanswered(fun: &AtomicFunction) -> bool
    ensures { IsTrue result ↔ MayOmitResult fun.now }
{
    match *fun {
        AtomicFunction::Exchange { compare } => match compare {
            Some(_) => true,
            None => false,
        },
        AtomicFunction::Add
        | AtomicFunction::Subtract
        | AtomicFunction::And
        | AtomicFunction::ExclusiveOr
        | AtomicFunction::InclusiveOr
        | AtomicFunction::Min
        | AtomicFunction::Max => true,
    }
}

// Whether an expression is the result of this operation.
fn check_result<C: StatementContext>(
    context: &C,
    scalar: Scalar,
    fun: &AtomicFunction,
    answer: Handle<key::Expression>,
) -> Result<(), AtomicError>
    ensures { MatchResult result
        (λ _. AtomicResultOK (C.seen context.now) scalar fun.now (Some answer))
        (IsAnswerFault (C.seen context.now) scalar fun.now (Some answer)) }
{
    match declared_at(context, answer) {
        None => Err(AtomicError::InvalidResultExpression(answer)),
        Some(declared) => match compared(fun) {
            None => match check_plain(context, scalar, answer, &declared) {
                Ok(()) => Ok(()),
                Err(error) => Err(error),
            },
            Some(compare) => match check_exchange(context, scalar, compare, answer, &declared) {
                Ok(()) => Ok(()),
                Err(error) => Err(error),
            },
        },
    }
}

// Whether the operation has this result.
fn check_answer<C: StatementContext>(
    context: &C,
    scalar: Scalar,
    fun: &AtomicFunction,
    answer: &Option<Handle<key::Expression>>,
) -> Result<(), AtomicError>
    ensures { MatchResult result
        (λ _. AtomicResultOK (C.seen context.now) scalar fun.now answer.now)
        (IsAnswerFault (C.seen context.now) scalar fun.now answer.now) }
{
    match *answer {
        Some(answer) => check_result(context, scalar, fun, answer),
        None => {
            if may_be_unanswered(fun) {
                Ok(())
            } else {
                Err(AtomicError::MissingReturnValue)
            }
        }
    }
}

// ---- the rule

// Whether a value is an operand for the scalar of an atomic.
fn check_change<C: StatementContext>(
    context: &C,
    pointer: Handle<key::Expression>,
    changed: Changed,
    fun: &AtomicFunction,
    value: Handle<key::Expression>,
    answer: &Option<Handle<key::Expression>>,
) -> Result<(), AtomicError>
    requires { pointer_space (form_at (C.seen context.now) pointer) ≡ Some changed.space }
    ensures { MatchResult result
        (λ _. AtomicChangeOK (C.seen context.now) pointer fun.now value answer.now changed.scalar)
        (IsChangeFault (C.seen context.now) pointer fun.now value answer.now changed.scalar) }
{
    if !are_same(context.form_at(value), Form::Scalar(changed.scalar)) {
        return Err(AtomicError::InvalidOperand(value));
    }
    let place = context.form_at(pointer);
    match check_scalar(context.capabilities(), &place, changed, fun, answer) {
        Err(error) => Err(error),
        Ok(()) => match check_answer(context, changed.scalar, fun, answer) {
            Ok(()) => Ok(()),
            Err(error) => Err(error),
        },
    }
}

/// Whether an atomic operation is valid: the pointer points to an atomic, the value and the comparand have its scalar, the
/// operation is allowed on it, and the result is an `AtomicResult` of that scalar, or of the result struct of a
/// compare-exchange.
///
/// # Errors
///
/// [`FunctionError::InvalidAtomic`] with the broken requirement.
pub fn check_atomic<C: StatementContext>(
    context: &C,
    pointer: Handle<key::Expression>,
    fun: AtomicFunction,
    value: Handle<key::Expression>,
    answer: Option<Handle<key::Expression>>,
) -> Result<(), FunctionError>
    ensures { MatchResult result
        (λ _. AtomicStatementOK (C.seen context.now) pointer fun value answer)
        (IsAtomicFault (C.seen context.now) pointer fun value answer) }
{
    let place = context.form_at(pointer);
    match changed_by(context, &place) {
        None => Err(FunctionError::InvalidAtomic(AtomicError::InvalidPointer(pointer))),
        Some(changed) => match check_change(context, pointer, changed, &fun, value, &answer) {
            Ok(()) => Ok(()),
            Err(error) => Err(FunctionError::InvalidAtomic(error)),
        },
    }
}
