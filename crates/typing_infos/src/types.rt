//! The types of the expressions of a list.

ghost use Rattle.std.specs.Prelude.{◌≡◌, ◌++◌, ◌∷◌, [], List, Err, IfOk, IfErr, OnOk, length, map, slice_index_or};
ghost use Rattle.ir_types.specs.judged.ExpressionPlain.{PlainExpression, expression_view};
ghost use Rattle.ir_items.specs.found.GlobalView.{values_of};
ghost use Rattle.spec_expressions.specs.judged.Values.{UsesPrecede};
ghost use Rattle.spec_expressions.specs.judged.Context.{Context, NamesItem};
ghost use Rattle.typing_infos.specs.Types.{ItemsNamed, AreTypes, IsFirstUntyped, OperandsBelow, Decided, DecidedAt, IsTypedBy};
ghost use Rattle.typing_errors.specs.Answers.{IsAnswer};
ghost use Rattle.typing_resolve.specs.View.{context_view};

use crate::refusal::TypingRefusal;
use ir_arena::arena::Arena;
use ir_arena::handle::Handle;
use ir_types::{Expression, TypeInner, key};
use std::alloc::{AllocError, Global};
use typing_errors::ResolveRefusal;
use typing_forms::TypeResolution;
use typing_resolve::ResolveContext;

// The placeholder for the type of an operand that does not precede.
pub(crate) fn missing_type() -> TypeResolution {
    TypeResolution::Value(TypeInner::Sampler { comparison: false })
}

// The type of an operand, or the placeholder if it does not precede.
fn found_at<'a>(
    types: &'a [TypeResolution],
    operand: Handle<key::Expression>,
    missing: &'a TypeResolution,
) -> &'a TypeResolution
    ensures { result.now ≡ slice_index_or types.now operand missing.now }
{
    match types.get(operand.index()) {
        Some(found) => found,
        None => missing,
    }
}

// The type of an expression, given the types of the earlier ones.
pub(crate) fn type_pointed(
    alloc: Global,
    context: &ResolveContext<'_>,
    types: &[TypeResolution],
    missing: &TypeResolution,
    expression: &Expression,
) -> Result<TypeResolution, ResolveRefusal>
    requires named { NamesItem (context_view context.now) (expression_view expression.now) }
    requires precede { OperandsBelow (length types.now) (expression_view expression.now) }
    ensures { Decided (context_view context.now) types.now (expression_view expression.now) result }
{
    context.resolve(
        alloc,
        expression,
        |operand| found_at(types, operand, missing),
    )
}

// The error for the expression at a handle.
fn refused_at(handle: Handle<key::Expression>, refusal: ResolveRefusal) -> TypingRefusal
    ensures { (c : Context) (expressions : List PlainExpression) → IsAnswer c expressions handle (Err refusal) → IsTypedBy c expressions handle (Err result) }
{
    match refusal {
        ResolveRefusal::Memory(error) => TypingRefusal::Memory(error),
        ResolveRefusal::Fault(error) => TypingRefusal::Fault {
            expression: handle,
            error,
        },
    }
}

// The type of the expression at a handle.
fn type_at(
    alloc: Global,
    context: &ResolveContext<'_>,
    types: &[TypeResolution],
    missing: &TypeResolution,
    handle: Handle<key::Expression>,
    expression: &Expression,
) -> Result<TypeResolution, TypingRefusal>
    requires named { NamesItem (context_view context.now) (expression_view expression.now) }
    requires precede { OperandsBelow (length types.now) (expression_view expression.now) }
    ensures { DecidedAt (context_view context.now) types.now handle (expression_view expression.now) result }
{
    match type_pointed(alloc, context, types, missing, expression) {
        Ok(found) => Ok(found),
        Err(refusal) => Err(refused_at(handle, refusal)),
    }
}

fn keep(types: &mut Vec<TypeResolution>, found: TypeResolution) -> Result<(), AllocError>
    ensures { OnOk result (types.new.items ≡ types.old.items ++ found ∷ []) }
{
    types.push(found)?;
    Ok(())
}

// An empty list of types, with room reserved if there is memory.
fn room_for(alloc: Global, count: usize) -> Vec<TypeResolution>
    ensures { result.items ≡ [] }
{
    match Vec::with_capacity(alloc, count) {
        Ok(room) => room,
        Err(_) => Vec::new(alloc),
    }
}

/// The types of all expressions of a list, in order. Requires that operands precede, and that each item which an
/// expression refers to exists.
///
/// # Errors
///
/// [`TypingRefusal::Fault`] exactly if an expression has no type: the first that has none. [`TypingRefusal::Memory`] if
/// out of memory.
pub fn types_of(
    alloc: Global,
    context: &ResolveContext<'_>,
    expressions: &Arena<Expression, key::Expression>,
) -> Result<Vec<TypeResolution>, TypingRefusal>
    requires precede { UsesPrecede (map expression_view (values_of expressions.now)) }
    requires named { ItemsNamed (context_view context.now) (map expression_view (values_of expressions.now)) }
    ensures ok { IfOk result (λ v. AreTypes (context_view context.now) (map expression_view (values_of expressions.now)) v.items) }
    ensures fault { IfErr result (IsFirstUntyped (context_view context.now) (map expression_view (values_of expressions.now))) }
{
    let missing = missing_type();
    let mut types = room_for(alloc, expressions.len());
    for (handle, expression) in expressions.iter() {
        match type_at(alloc, context, &types, &missing, handle, expression) {
            Ok(found) => match keep(&mut types, found) {
                Ok(()) => {}
                Err(error) => return Err(TypingRefusal::Memory(error)),
            },
            Err(refusal) => return Err(refusal),
        }
    }
    Ok(types)
}
