//! Handles of types.

ghost use Rattle.std.specs.Prelude.{◌≡◌, ◌<◌, [], ◌∷◌, length, map};
ghost use Rattle.std.specs.Option.{MatchOption, option_or};
ghost use Rattle.ir_types.specs.judged.ExpressionPlain.{expression_view};
ghost use Rattle.ir_items.specs.found.View.{module_view};
ghost use Rattle.typing_references.specs.Faults.{outside_functions};
ghost use Rattle.typing_references.specs.First.{first_past};
ghost use Rattle.ir_types.specs.judged.Plain.{inner_view, member_view};
ghost use Rattle.module_handles.specs.Found.{pending_missing, built_forward, named_forward, looked_through};
ghost use Rattle.module_handles.specs.LookupFound.{counted_forward};
ghost use Rattle.module_handles.specs.InOrder.{IsFaultIn, NamesBefore, NamesForward, TypesOK};
ghost use Rattle.typing_forms.specs.judged.Order.{named_types};
ghost use Rattle.typing_forms.specs.judged.Resolutions.{inner_at};

use crate::{counted_by, counted_forward, forward, init_of, pending_of, type_named};
use ir_arena::handle::Handle;
use ir_items::{Expression, Module, StructMember, TypeInner, key};
use spec_expressions::{ItemKind, Target};
use typing_references::{Bounds, HandleFault};

// The first member type that is not below a bound.
fn member_past(members: &[StructMember], end: usize) -> Option<usize>
    ensures { result ≡ first_past end (map (λ m. m.ty) members.now) }
{
    for member in members {
        if member.ty.index() >= end {
            return Some(member.ty.index());
        }
    }
    None
}

// An element type that is not below a bound.
fn base_past(base: Handle<key::IrType>, end: usize) -> Option<usize>
    ensures { result ≡ first_past end (base ∷ []) }
{
    if base.index() < end {
        None
    } else {
        Some(base.index())
    }
}

// The first of the types a type references that is not below a bound.
fn built_past(inner: &TypeInner, end: usize) -> Option<usize>
    ensures { result ≡ first_past end (named_types (inner_view inner.now)) }
{
    match *inner {
        TypeInner::Pointer { base, .. }
        | TypeInner::Array { base, .. }
        | TypeInner::BindingArray { base, .. } => base_past(base, end),
        TypeInner::Struct { ref members, .. } => member_past(members.as_slice(), end),
        TypeInner::Scalar(_)
        | TypeInner::Vector { .. }
        | TypeInner::Matrix { .. }
        | TypeInner::CooperativeMatrix { .. }
        | TypeInner::Atomic(_)
        | TypeInner::ValuePointer { .. }
        | TypeInner::Image { .. }
        | TypeInner::Sampler { .. }
        | TypeInner::AccelerationStructure { .. }
        | TypeInner::RayQuery { .. } => None,
    }
}

// The error of the override that gives a type's length, if it is out of bounds.
fn pending_missing(inner: &TypeInner, bounds: &Bounds) -> Option<HandleFault>
    ensures { result ≡ pending_missing bounds.now (inner_view inner.now) }
{
    match pending_of(inner) {
        Some(handle) => bounds.missing_item(Target::Override(handle)),
        None => None,
    }
}

// The error of a type that the one at an index references, if it does not precede it.
fn built_forward(inner: &TypeInner, index: usize) -> Option<HandleFault>
    ensures { result ≡ built_forward index (inner_view inner.now) }
{
    match built_past(inner, index) {
        Some(depends_on) => Some(HandleFault::Forward {
            kind: ItemKind::Type,
            index,
            depends_on,
        }),
        None => None,
    }
}

// The error of a type's own handles.
fn type_fault(module: &Module, inner: &TypeInner, index: usize) -> Option<HandleFault>
    ensures { result ≡ option_or (pending_missing (outside_functions (module_view «module».now)) (inner_view inner.now))
        (option_or (built_forward index (inner_view inner.now)) (counted_forward (module_view «module».now) index (inner_view inner.now))) }
{
    if let Some(fault) = pending_missing(inner, &Bounds::outside_functions(module)) {
        return Some(fault);
    }
    if let Some(fault) = built_forward(inner, index) {
        return Some(fault);
    }
    counted_forward(module, inner, index)
}

// The number of global expressions to check for a type: all up to the initializer of the override that gives the type's
// length.
fn looked_through(module: &Module, inner: &TypeInner) -> usize
    ensures { result ≡ looked_through (module_view «module».now) (inner_view inner.now) }
{
    match counted_by(inner) {
        Some(item) => match init_of(module, item) {
            Some(init) => init.index() + 1,
            None => 0,
        },
        None => 0,
    }
}

// The error of the type that a global expression references, if it does not precede the type at an index.
fn named_forward(module: &Module, expression: &Expression, index: usize) -> Option<HandleFault>
    ensures { result ≡ named_forward (module_view «module».now) index (expression_view expression.now) }
{
    forward(ItemKind::Type, index, type_named(module, expression))
}

// The first error of the types that the global expressions in a range reference.
fn named_between(module: &Module, index: usize, from: usize, end: usize) -> Option<HandleFault>
    ensures { MatchOption result (NamesBefore (module_view «module».now) index from end) (NamesForward (module_view «module».now) index from end) }
{
    let end = end.min(module.global_expressions.len());
    for place in from..end {
        let expression = &module.global_expressions[Handle::at(place)];
        if let Some(fault) = named_forward(module, expression, index) {
            return Some(fault);
        }
    }
    None
}

// The `TypeInner` of the type at an index.
fn type_at(module: &Module, index: usize) -> &TypeInner
    requires within { index < length (module_view «module».now).types }
    requires in_range { index < 4294967295 }
    ensures { Some (inner_view result.now) ≡ inner_at (module_view «module».now).types index }
{
    &module.types[Handle::at(index)].inner
}

/// The error of a handle of a type, if it is out of bounds or a forward dependency. Each global expression is visited
/// once: types that precede one type precede all later types too.
pub(crate) fn fault_of_types(module: &Module) -> Option<HandleFault>
    ensures { MatchOption result (TypesOK (module_view «module».now)) (IsFaultIn (module_view «module».now)) }
{
    let mut known = 0;
    for index in 0..module.types.len() {
        let inner = type_at(module, index);
        if let Some(fault) = type_fault(module, inner, index) {
            return Some(fault);
        }
        let end = looked_through(module, inner);
        if let Some(fault) = named_between(module, index, known, end) {
            return Some(fault);
        }
        known = known.max(end);
    }
    None
}
