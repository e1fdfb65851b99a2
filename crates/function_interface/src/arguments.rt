//! The arguments of a function.

ghost use Rattle.std.specs.Prelude.{◌≡◌, ◌↔◌, Bool, IfOk, IsTrue, MatchResult};
ghost use Rattle.function_interface.specs.Arguments.{IsArgumentFault, IsArgumentsFault, IsNamed};
ghost use Rattle.function_interface.specs.Items.{EachOK, IsFirstAt};
ghost use Rattle.function_interface.specs.Refusals.{IsRefusal};
ghost use Rattle.function_interface.specs.Reported.{AreReported};
ghost use Rattle.ir_items.specs.found.View.{argument_view};
ghost use Rattle.spec_statements.specs.judged.BlockContext.{BlockContext as PlainContext};
ghost use Rattle.spec_statements.specs.judged.Interfaces.{ArgumentOK, IsGiven};
ghost use Rattle.function_statement_checks.specs.View.{context_view};

use crate::flags::is_argument;
use crate::item_names::name_of;
use function_statement_checks::{BlockContext, StatementContext, pointer_space};
use ir_items::FunctionArgument;
use ir_kinds::AddressSpace;
use ir_types::refusal::Refusal;
use ir_types::with_span::WithSpan;
use std::alloc::{AllocError, Global};
use typing_errors::FunctionError;
use typing_layout::TypeInfo;

// The error of an argument.
#[derive(Clone, Copy)]
pub(crate) enum ArgumentFault {
    // A pointer into this address space.
    Space(AddressSpace),
    // Its type is not allowed.
    Type,
    // It has a binding, in a function that is not an entry point's.
    Binding,
}

// Whether pointers into an address space may be arguments.
const fn is_given(space: AddressSpace) -> bool
    ensures { IsTrue result ↔ IsGiven space }
{
    match space {
        AddressSpace::Function | AddressSpace::Private => true,
        AddressSpace::WorkGroup
        | AddressSpace::Uniform
        | AddressSpace::Storage { .. }
        | AddressSpace::Handle
        | AddressSpace::Immediate
        | AddressSpace::TaskPayload
        | AddressSpace::RayPayload
        | AddressSpace::IncomingRayPayload => false,
    }
}

// Whether an argument is allowed.
fn check_argument(
    context: &BlockContext<'_>,
    infos: &[TypeInfo],
    entry: bool,
    argument: &FunctionArgument,
) -> Result<(), ArgumentFault>
    requires { AreReported (context_view context.now).m.types infos.now }
    ensures { MatchResult result
        (λ _. ArgumentOK (context_view context.now).m entry (argument_view argument.now))
        (IsArgumentFault (context_view context.now).m entry (argument_view argument.now)) }
{
    if let Some(space) = pointer_space(context.form_of(argument.ty)) {
        if !is_given(space) {
            return Err(ArgumentFault::Space(space));
        }
    }
    if !is_argument(infos, argument.ty) {
        return Err(ArgumentFault::Type);
    }
    if !entry && argument.binding.is_some() {
        return Err(ArgumentFault::Binding);
    }
    Ok(())
}

// The error of an invalid argument.
fn error_of(
    alloc: Global,
    index: usize,
    argument: &FunctionArgument,
    fault: ArgumentFault,
) -> Result<FunctionError, AllocError>
    ensures { IfOk result (IsNamed index (argument_view argument.now) fault) }
{
    let name = name_of(alloc, &argument.name)?;
    Ok(match fault {
        ArgumentFault::Space(space) => {
            FunctionError::InvalidArgumentPointerSpace { index, name, space }
        }
        ArgumentFault::Type => FunctionError::InvalidArgumentType { index, name },
        ArgumentFault::Binding => FunctionError::PipelineInputRegularFunction { name },
    })
}

// Its refusal.
fn refused_argument(
    alloc: Global,
    index: usize,
    argument: &FunctionArgument,
    fault: ArgumentFault,
) -> Refusal<FunctionError>
    ensures { (c : PlainContext) (entry : Bool) → IsFirstAt (ArgumentOK c.m entry) (λ a. (a ≡ argument_view argument.now) × IsArgumentFault c.m entry a fault) c.f.arguments index
        → IsRefusal (EachOK (ArgumentOK c.m entry) c.f.arguments) (IsArgumentsFault c entry) result }
{
    match error_of(alloc, index, argument, fault) {
        Ok(error) => Refusal::Fault(WithSpan::new(alloc, error)),
        Err(error) => Refusal::Memory(error),
    }
}

/// Whether the arguments of a function are valid. `infos` has the `TypeInfo`s of the module; `entry` is whether the function is
/// an entry point's, whose arguments alone have bindings.
///
/// # Errors
///
/// [`Refusal::Fault`] for the first invalid argument, with its name, empty if it has none:
/// [`FunctionError::InvalidArgumentPointerSpace`] for a pointer into another address space than `Function` and `Private`,
/// [`FunctionError::InvalidArgumentType`] for a type that arguments can't have, and
/// [`FunctionError::PipelineInputRegularFunction`] for a binding in a function that is not an entry point's.
/// [`Refusal::Memory`] if there is no memory for its name.
pub fn check_arguments(
    alloc: Global,
    context: &BlockContext<'_>,
    infos: &[TypeInfo],
    entry: bool,
) -> Result<(), Refusal<FunctionError>>
    requires { AreReported (context_view context.now).m.types infos.now }
    ensures { MatchResult result
        (λ _. EachOK (ArgumentOK (context_view context.now).m entry) (context_view context.now).f.arguments)
        (IsRefusal (EachOK (ArgumentOK (context_view context.now).m entry) (context_view context.now).f.arguments) (IsArgumentsFault (context_view context.now) entry)) }
{
    let arguments = context.function.arguments.as_slice();
    for index in 0..arguments.len() {
        let argument = &arguments[index];
        if let Err(fault) = check_argument(context, infos, entry, argument) {
            return Err(refused_argument(alloc, index, argument, fault));
        }
    }
    Ok(())
}
