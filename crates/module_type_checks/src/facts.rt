//! Facts about a type that another one references.

ghost use Rattle.std.specs.Prelude.{◌≡◌, ◌<◌, ℕ, Some, length, max, if◌then◌else◌};
ghost use Rattle.ir_types.specs.judged.Plain.{inner_view};
ghost use Rattle.typing_layout.specs.judged.Buffers.{uniform_alignment, free_after};
ghost use Rattle.typing_layout.specs.judged.Parts.{TreeMember, end_of};
ghost use Rattle.typing_layout.specs.judged.Layout.{alignment};
ghost use Rattle.typing_layout.specs.judged.Tree.{Tree};
ghost use Rattle.typing_layout.specs.judged.View.{tree_by};
ghost use Rattle.module_type_checks.specs.Known.{AreFacts, IsKnown, tree_in};
ghost use Rattle.typing_layout.specs.TypingForms.{types_view, inner_at, rounded_up};

use crate::context::TypeContext;
use ir_arena::handle::Handle;
use ir_sets::unique_arena::UniqueArena;
use ir_types::{IrType, TypeInner, key};
use typing_layout::{Alignment, TypeInfo};

/// Facts about a type that another one references.
#[derive(Clone, Copy)]
pub struct Facts {
    /// Its size in bytes.
    pub size: u32,
    /// Its alignment.
    pub alignment: Alignment,
    /// Its alignment in a uniform buffer.
    pub uniform_alignment: Alignment,
    /// Whether it is a struct.
    pub is_struct: bool,
    /// Its type flags.
    pub info: TypeInfo,
}

/// The `TypeInner` of the type at a handle.
pub fn type_at(types: &UniqueArena<IrType, key::IrType>, ty: Handle<key::IrType>) -> &TypeInner
    requires { ty < length types.now }
    ensures { Some (inner_view result.now) ≡ inner_at (types_view types.now) ty }
{
    &types[ty].inner
}

// Whether a type is a struct, after which uniform buffers need padding.
fn is_struct(inner: &TypeInner) -> bool
    ensures { (tree : ℕ → Tree) (p : TreeMember)
        → free_after p (tree_by tree (inner_view inner.now)) ≡ (if result then rounded_up 16 (end_of p) else 0) }
{
    match *inner {
        TypeInner::Struct { .. } => true,
        TypeInner::Scalar(_)
        | TypeInner::Vector { .. }
        | TypeInner::Matrix { .. }
        | TypeInner::CooperativeMatrix { .. }
        | TypeInner::Atomic(_)
        | TypeInner::Pointer { .. }
        | TypeInner::ValuePointer { .. }
        | TypeInner::Array { .. }
        | TypeInner::Image { .. }
        | TypeInner::Sampler { .. }
        | TypeInner::AccelerationStructure { .. }
        | TypeInner::RayQuery { .. }
        | TypeInner::BindingArray { .. } => false,
    }
}

/// The alignment, rounded up to at least 16 bytes.
pub fn at_least_sixteen(own: Alignment) -> Alignment
    ensures { result ≡ max 16 own }
{
    if own.get() < 16 {
        Alignment::SIXTEEN
    } else {
        own
    }
}

// The alignment of a type in a uniform buffer, from its own.
fn uniform_alignment(inner: &TypeInner, own: Alignment) -> Alignment
    ensures { (tree : ℕ → Tree) → own ≡ alignment (tree_by tree (inner_view inner.now))
        → result ≡ uniform_alignment (tree_by tree (inner_view inner.now)) }
{
    match *inner {
        TypeInner::Array { .. } | TypeInner::Struct { .. } => at_least_sixteen(own),
        TypeInner::Scalar(_)
        | TypeInner::Vector { .. }
        | TypeInner::Matrix { .. }
        | TypeInner::CooperativeMatrix { .. }
        | TypeInner::Atomic(_)
        | TypeInner::Pointer { .. }
        | TypeInner::ValuePointer { .. }
        | TypeInner::Image { .. }
        | TypeInner::Sampler { .. }
        | TypeInner::AccelerationStructure { .. }
        | TypeInner::RayQuery { .. }
        | TypeInner::BindingArray { .. } => own,
    }
}

/// The facts about an earlier type.
pub fn facts_of(context: &TypeContext<'_>, ty: Handle<key::IrType>) -> Facts
    requires known { IsKnown context.now }
    requires before { ty < length context.now.infos.now }
    ensures { AreFacts context.now (tree_in context.now ty) result }
{
    let inner = type_at(context.types, ty);
    let layout = context.layouter[ty];
    Facts {
        size: layout.size,
        alignment: layout.alignment,
        uniform_alignment: uniform_alignment(inner, layout.alignment),
        is_struct: is_struct(inner),
        info: context.infos[ty.index()],
    }
}
