//! Overrides that size arrays.

ghost use Rattle.std.specs.Prelude.{◌≡◌};
ghost use Rattle.ir_items.specs.found.View.{module_view};
ghost use Rattle.ir_types.specs.judged.Plain.{inner_view};
ghost use Rattle.module_handles.specs.LookupFound.{counted_by, counted_forward};
ghost use Rattle.spec_expressions.specs.judged.ItemNames.{pending_in, pending_of};

use crate::lookups::{forward, place_of, type_of};
use ir_arena::handle::Handle;
use ir_items::{ArraySize, Module, TypeInner, key};
use spec_expressions::{ItemKind, Target};
use typing_references::HandleFault;

// The override that an array size references.
fn pending_in(size: ArraySize) -> Option<Handle<key::Override>>
    ensures { result ≡ pending_in size }
{
    match size {
        ArraySize::Pending(handle) => Some(handle),
        ArraySize::Constant(_) | ArraySize::Dynamic => None,
    }
}

/// The override that gives the length of an array type.
pub fn pending_of(inner: &TypeInner) -> Option<Handle<key::Override>>
    ensures { result ≡ pending_of (inner_view inner.now) }
{
    match *inner {
        TypeInner::Array { size, .. } | TypeInner::BindingArray { size, .. } => pending_in(size),
        TypeInner::Scalar(_)
        | TypeInner::Vector { .. }
        | TypeInner::Matrix { .. }
        | TypeInner::CooperativeMatrix { .. }
        | TypeInner::Atomic(_)
        | TypeInner::Pointer { .. }
        | TypeInner::ValuePointer { .. }
        | TypeInner::Struct { .. }
        | TypeInner::Image { .. }
        | TypeInner::Sampler { .. }
        | TypeInner::AccelerationStructure { .. }
        | TypeInner::RayQuery { .. } => None,
    }
}

/// The override that gives the length of an array type, as an item.
pub fn counted_by(inner: &TypeInner) -> Option<Target>
    ensures { result ≡ counted_by (inner_view inner.now) }
{
    match pending_of(inner) {
        Some(handle) => Some(Target::Override(handle)),
        None => None,
    }
}

/// The error of the type of the override that gives an array's length, if it does not precede the array type.
pub fn counted_forward(module: &Module, inner: &TypeInner, index: usize) -> Option<HandleFault>
    ensures { result ≡ counted_forward (module_view «module».now) index (inner_view inner.now) }
{
    match counted_by(inner) {
        Some(item) => forward(ItemKind::Type, index, place_of(type_of(module, item))),
        None => None,
    }
}
