//! Subgroup operations.

ghost use Rattle.std.specs.Prelude.{◌≡◌, ◌↔◌, IsTrue, MatchResult, IfSome, IsSomeAnd, Some, None, option_and_then, slice_get};
ghost use Rattle.ir_types.specs.judged.ExpressionPlain.{expression_view};
ghost use Rattle.ir_flags.specs.declared.stages.TheConstants.SubgroupOperationSet.{BALLOT};
ghost use Rattle.ir_kinds.specs.judged.Scalars.{unsigned};
ghost use Rattle.function_statements.specs.Subgroups.{IsOperationFault, IsBallotFault, IsCollectiveFault, IsGatherFault};
ghost use Rattle.spec_statements.specs.judged.Shapes.{IsScalarOrVector, IsMadeOf, shaped_of};
ghost use Rattle.spec_expressions.specs.judged.Operands.{gather_index};
ghost use Rattle.spec_statements.specs.judged.BlockContext.{form_at};
ghost use Rattle.spec_statements.specs.judged.Subgroups.{collective_needs, gather_needs, HasOperation, answered_type, AnswersAs, BallotOK, IsSubgroupNumber, TakesShape, IsScanned, GoesOver, CollectiveOK, IndexIsKnown, GatherOK};

use bitflags::Flags;
use function_atomic_checks::module_expression_checks::{is_alone, is_of_value};
use function_statement_checks::StatementContext;
use ir_arena::handle::Handle;
use ir_blocks::GatherMode;
use ir_flags::{Capabilities, SubgroupOperationSet};
use ir_kinds::{CollectiveOperation, Scalar, ScalarKind, SubgroupOperation};
use ir_types::{Expression, key};
use module_context::{are_same, is_integer, is_truth, shaped_of};
use spec_statements::Shape;
use typing_errors::{FunctionError, SubgroupError};
use typing_forms::Form;

// ---- required operation sets

// The operation set that a collective operation needs.
const fn collective_needs(op: SubgroupOperation) -> SubgroupOperationSet
    ensures { result ≡ collective_needs op }
{
    match op {
        SubgroupOperation::All | SubgroupOperation::Any => SubgroupOperationSet::VOTE,
        SubgroupOperation::Add
        | SubgroupOperation::Mul
        | SubgroupOperation::Min
        | SubgroupOperation::Max
        | SubgroupOperation::And
        | SubgroupOperation::Or
        | SubgroupOperation::Xor => SubgroupOperationSet::ARITHMETIC,
    }
}

// The operation set that a gather needs.
const fn gather_needs(mode: &GatherMode) -> SubgroupOperationSet
    ensures { result ≡ gather_needs mode.now }
{
    match *mode {
        GatherMode::BroadcastFirst | GatherMode::Broadcast(_) => SubgroupOperationSet::BALLOT,
        GatherMode::Shuffle(_) | GatherMode::ShuffleXor(_) => SubgroupOperationSet::SHUFFLE,
        GatherMode::ShuffleDown(_) | GatherMode::ShuffleUp(_) => {
            SubgroupOperationSet::SHUFFLE_RELATIVE
        }
        GatherMode::QuadBroadcast(_) | GatherMode::QuadSwap(_) => SubgroupOperationSet::QUAD,
    }
}

// Whether a subgroup operation is supported.
fn check_operation<C: StatementContext>(
    context: &C,
    needed: SubgroupOperationSet,
) -> Result<(), FunctionError>
    ensures { MatchResult result
        (λ _. HasOperation (C.seen context.now) needed)
        (IsOperationFault (C.seen context.now) needed) }
{
    if !context.capabilities().contains(Capabilities::SUBGROUP) {
        return Err(FunctionError::MissingCapability(Capabilities::SUBGROUP));
    }
    if !context.operations().contains(needed) {
        return Err(FunctionError::InvalidSubgroup(SubgroupError::UnsupportedOperation(needed)));
    }
    Ok(())
}

// ---- results

// The type that the result of a subgroup operation declares.
fn answered_type(expression: &Expression) -> Option<Handle<key::IrType>>
    ensures { result ≡ answered_type (expression_view expression.now) }
{
    match *expression {
        Expression::SubgroupOperationResult { ty } => Some(ty),
        _ => None,
    }
}

// The same for the expression at a handle.
fn answered_at<C: StatementContext>(
    context: &C,
    handle: Handle<key::Expression>,
) -> Option<Handle<key::IrType>>
    ensures { result ≡ option_and_then answered_type (slice_get (C.seen context.now).f.expressions handle) }
{
    match context.expression_at(handle) {
        Some(expression) => answered_type(expression),
        None => None,
    }
}

// Whether a result has the argument's type.
fn answers_as<C: StatementContext>(
    context: &C,
    argument: Handle<key::Expression>,
    answer: Handle<key::Expression>,
) -> bool
    ensures { IsTrue result ↔ AnswersAs (C.seen context.now) argument answer }
{
    match answered_at(context, answer) {
        Some(ty) => are_same(context.form_of(ty), context.form_at(argument)),
        None => false,
    }
}

// ---- ballots

// Whether the predicate of a supported ballot is a `bool` or absent.
fn check_predicate<C: StatementContext>(
    context: &C,
    predicate: &Option<Handle<key::Expression>>,
) -> Result<(), FunctionError>
    requires { HasOperation (C.seen context.now) BALLOT }
    ensures { MatchResult result
        (λ _. BallotOK (C.seen context.now) predicate.now)
        (IsBallotFault (C.seen context.now) predicate.now) }
{
    match *predicate {
        Some(given) => {
            if are_same(context.form_at(given), Form::Scalar(Scalar::BOOL)) {
                Ok(())
            } else {
                Err(FunctionError::InvalidSubgroup(SubgroupError::InvalidOperand(given)))
            }
        }
        None => Ok(()),
    }
}

/// Whether a ballot is valid: subgroup operations are enabled and ballots supported, and the predicate, if any, is a `bool`.
///
/// # Errors
///
/// [`FunctionError::MissingCapability`] without subgroup operations; [`FunctionError::InvalidSubgroup`] with
/// [`SubgroupError::UnsupportedOperation`] if ballots are not supported, and with [`SubgroupError::InvalidOperand`] for another
/// predicate.
pub fn check_ballot<C: StatementContext>(
    context: &C,
    predicate: Option<Handle<key::Expression>>,
) -> Result<(), FunctionError>
    ensures { MatchResult result
        (λ _. BallotOK (C.seen context.now) predicate)
        (IsBallotFault (C.seen context.now) predicate) }
{
    match check_operation(context, SubgroupOperationSet::BALLOT) {
        Ok(()) => check_predicate(context, &predicate),
        Err(error) => Err(error),
    }
}

// ---- collective operations

// Whether a scalar kind is one of integers or floats.
const fn is_number(kind: ScalarKind) -> bool
    ensures { IsTrue result ↔ IsSubgroupNumber kind }
{
    match kind {
        ScalarKind::Sint | ScalarKind::Uint | ScalarKind::Float => true,
        ScalarKind::Bool | ScalarKind::AbstractInt | ScalarKind::AbstractFloat => false,
    }
}

// Whether an operation takes values of this shape.
fn takes_shape(op: SubgroupOperation, shape: Shape, scalar: Scalar) -> bool
    ensures { IsTrue result ↔ TakesShape op shape scalar }
{
    match op {
        SubgroupOperation::All | SubgroupOperation::Any => {
            is_alone(shape) && is_truth(scalar.kind)
        }
        SubgroupOperation::Add
        | SubgroupOperation::Mul
        | SubgroupOperation::Min
        | SubgroupOperation::Max => is_of_value(shape) && is_number(scalar.kind),
        SubgroupOperation::And | SubgroupOperation::Or | SubgroupOperation::Xor => {
            is_of_value(shape) && is_integer(scalar.kind) && scalar.width >= 4
        }
    }
}

// Whether an operation takes values of a type.
fn takes(op: SubgroupOperation, of: Form) -> bool
    ensures { IsTrue result ↔ IsSomeAnd (shaped_of of) (λ v. TakesShape op v.shape v.scalar) }
{
    match shaped_of(of) {
        Some(shaped) => takes_shape(op, shaped.shape, shaped.scalar),
        None => false,
    }
}

// Whether an operation has scans.
const fn is_scanned(op: SubgroupOperation) -> bool
    ensures { IsTrue result ↔ IsScanned op }
{
    match op {
        SubgroupOperation::Add | SubgroupOperation::Mul => true,
        SubgroupOperation::All
        | SubgroupOperation::Any
        | SubgroupOperation::Min
        | SubgroupOperation::Max
        | SubgroupOperation::And
        | SubgroupOperation::Or
        | SubgroupOperation::Xor => false,
    }
}

// Whether an operation has this collective mode.
const fn goes_over(collective_op: CollectiveOperation, op: SubgroupOperation) -> bool
    ensures { IsTrue result ↔ GoesOver collective_op op }
{
    match collective_op {
        CollectiveOperation::Reduce => true,
        CollectiveOperation::InclusiveScan | CollectiveOperation::ExclusiveScan => is_scanned(op),
    }
}

// Whether a supported operation has a suitable argument, collective mode and result.
fn check_collected<C: StatementContext>(
    context: &C,
    op: SubgroupOperation,
    collective_op: CollectiveOperation,
    argument: Handle<key::Expression>,
    answer: Handle<key::Expression>,
) -> Result<(), FunctionError>
    requires { HasOperation (C.seen context.now) (collective_needs op) }
    ensures { MatchResult result
        (λ _. CollectiveOK (C.seen context.now) op collective_op argument answer)
        (IsCollectiveFault (C.seen context.now) op collective_op argument answer) }
{
    if !takes(op, context.form_at(argument)) {
        return Err(FunctionError::InvalidSubgroup(SubgroupError::InvalidOperand(argument)));
    }
    if !goes_over(collective_op, op) {
        return Err(FunctionError::InvalidSubgroup(SubgroupError::UnknownOperation));
    }
    if !answers_as(context, argument, answer) {
        return Err(FunctionError::InvalidSubgroup(SubgroupError::ResultTypeMismatch(answer)));
    }
    Ok(())
}

/// Whether a collective operation is valid: subgroup operations are enabled and it is supported, takes its argument, has its
/// collective mode, and its result has the argument's type.
///
/// # Errors
///
/// [`FunctionError::MissingCapability`] without subgroup operations; [`FunctionError::InvalidSubgroup`] with
/// [`SubgroupError::UnsupportedOperation`], [`SubgroupError::InvalidOperand`], [`SubgroupError::UnknownOperation`] or
/// [`SubgroupError::ResultTypeMismatch`] for the broken requirement.
pub fn check_collective<C: StatementContext>(
    context: &C,
    op: SubgroupOperation,
    collective_op: CollectiveOperation,
    argument: Handle<key::Expression>,
    answer: Handle<key::Expression>,
) -> Result<(), FunctionError>
    ensures { MatchResult result
        (λ _. CollectiveOK (C.seen context.now) op collective_op argument answer)
        (IsCollectiveFault (C.seen context.now) op collective_op argument answer) }
{
    match check_operation(context, collective_needs(op)) {
        Ok(()) => check_collected(context, op, collective_op, argument, answer),
        Err(error) => Err(error),
    }
}

// ---- gathers

// The invocation index of a gather.
const fn gather_index(mode: &GatherMode) -> Option<Handle<key::Expression>>
    ensures { result ≡ gather_index mode.now }
{
    match *mode {
        GatherMode::Broadcast(index)
        | GatherMode::Shuffle(index)
        | GatherMode::ShuffleDown(index)
        | GatherMode::ShuffleUp(index)
        | GatherMode::ShuffleXor(index)
        | GatherMode::QuadBroadcast(index) => Some(index),
        GatherMode::BroadcastFirst | GatherMode::QuadSwap(_) => None,
    }
}

// The index, if its type is not `u32`.
fn bad_index<C: StatementContext>(context: &C, mode: &GatherMode) -> Option<Handle<key::Expression>>
    ensures good { result ≡ None → IfSome (gather_index mode.now) (λ e. form_at (C.seen context.now) e ≡ Form.Scalar (unsigned 4)) }
    ensures bad { IfSome result (λ e. (gather_index mode.now ≡ Some e) × ¬ (form_at (C.seen context.now) e ≡ Form.Scalar (unsigned 4))) }
{
    match gather_index(mode) {
        Some(index) => {
            if are_same(context.form_at(index), Form::Scalar(Scalar::U32)) {
                None
            } else {
                Some(index)
            }
        }
        None => None,
    }
}

// The index, if it must be constant and is not.
fn unknown_index<C: StatementContext>(
    context: &C,
    mode: &GatherMode,
) -> Option<Handle<key::Expression>>
    requires { C.known context.now }
    ensures good { result ≡ None → IndexIsKnown (C.seen context.now) mode.now }
    ensures bad { IfSome result (λ e. (gather_index mode.now ≡ Some e) × ¬ IndexIsKnown (C.seen context.now) mode.now) }
{
    match *mode {
        GatherMode::Broadcast(index) | GatherMode::QuadBroadcast(index) => {
            if context.is_const(index) {
                None
            } else {
                Some(index)
            }
        }
        GatherMode::BroadcastFirst
        | GatherMode::Shuffle(_)
        | GatherMode::ShuffleDown(_)
        | GatherMode::ShuffleUp(_)
        | GatherMode::ShuffleXor(_)
        | GatherMode::QuadSwap(_) => None,
    }
}

// Whether values of a type can be gathered: scalars and vectors of numbers.
fn is_gathered(of: Form) -> bool
    ensures { IsTrue result ↔ IsMadeOf IsScalarOrVector IsSubgroupNumber of }
{
    match shaped_of(of) {
        Some(shaped) => is_of_value(shaped.shape) && is_number(shaped.scalar.kind),
        None => false,
    }
}

// Whether a supported gather is valid.
fn check_gathered<C: StatementContext>(
    context: &C,
    mode: &GatherMode,
    argument: Handle<key::Expression>,
    answer: Handle<key::Expression>,
) -> Result<(), FunctionError>
    requires known { C.known context.now }
    requires operation { HasOperation (C.seen context.now) (gather_needs mode.now) }
    ensures { MatchResult result
        (λ _. GatherOK (C.seen context.now) mode.now argument answer)
        (IsGatherFault (C.seen context.now) mode.now argument answer) }
{
    if let Some(index) = bad_index(context, mode) {
        return Err(FunctionError::InvalidSubgroup(SubgroupError::InvalidOperand(index)));
    }
    if let Some(index) = unknown_index(context, mode) {
        return Err(FunctionError::InvalidSubgroup(SubgroupError::InvalidInvocationIdExprType(
            index,
        )));
    }
    if !is_gathered(context.form_at(argument)) {
        return Err(FunctionError::InvalidSubgroup(SubgroupError::InvalidOperand(argument)));
    }
    if !answers_as(context, argument, answer) {
        return Err(FunctionError::InvalidSubgroup(SubgroupError::ResultTypeMismatch(answer)));
    }
    Ok(())
}

/// Whether a gather is valid: subgroup operations are enabled and it is supported, the invocation index is a `u32`, constant
/// for a broadcast, and the result has the argument's numeric type.
///
/// # Errors
///
/// [`FunctionError::MissingCapability`] without subgroup operations; [`FunctionError::InvalidSubgroup`] with
/// [`SubgroupError::UnsupportedOperation`], [`SubgroupError::InvalidOperand`], [`SubgroupError::InvalidInvocationIdExprType`]
/// or [`SubgroupError::ResultTypeMismatch`] for the broken requirement.
pub fn check_gather<C: StatementContext>(
    context: &C,
    mode: GatherMode,
    argument: Handle<key::Expression>,
    answer: Handle<key::Expression>,
) -> Result<(), FunctionError>
    requires { C.known context.now }
    ensures { MatchResult result
        (λ _. GatherOK (C.seen context.now) mode argument answer)
        (IsGatherFault (C.seen context.now) mode argument answer) }
{
    match check_operation(context, gather_needs(&mode)) {
        Ok(()) => check_gathered(context, &mode, argument, answer),
        Err(error) => Err(error),
    }
}
