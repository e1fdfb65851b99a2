//! The layout of a type, given those of the earlier types: its alignment is computed here, its size by `try_size` of
//! `typing_forms`.
//!
//! The contracts here hold for any trees of the types that the type refers to, as long as their alignments are
//! those of the layouts.

ghost use Rattle.std.specs.Prelude.{◌≡◌, ◌<◌, ◌≤◌, ◌*◌, ℕ, length, map, max, All, MatchOption, MatchResult};
ghost use Rattle.std.specs.Int.{IsPowerOfTwo};
ghost use Rattle.typing_forms.specs.IrTypes.{inner_view, member_view};
ghost use Rattle.typing_forms.specs.judged.Order.{named_types};
ghost use Rattle.typing_forms.specs.judged.Sizes.{vector_alignment};
ghost use Rattle.typing_layout.specs.judged.Layout.{alignment, greatest_alignment};
ghost use Rattle.typing_layout.specs.judged.Tree.{Tree};
ghost use Rattle.typing_layout.specs.judged.View.{members_by, tree_by};
ghost use Rattle.typing_layout.specs.found.Held.{IsLayoutOf, IsFaultOf};
ghost use Rattle.typing_layout.specs.found.Laid.{AreAligned, IsAlignmentOf};

use crate::alignment::Alignment;
use crate::error::LayoutErrorInner;
use crate::layout::TypeLayout;
use ir_kinds::{Scalar, VectorSize};
use typing_forms::TypeInnerExt;
use typing_forms::ir_types::{StructMember, TypeInner};

// The alignment of a scalar, if its width is a valid alignment.
fn scalar_alignment(scalar: Scalar) -> Option<Alignment>
    ensures { MatchOption result (¬ IsPowerOfTwo scalar.width) (λ a. IsPowerOfTwo scalar.width × (a ≡ scalar.width)) }
{
    Alignment::new(u32::from(scalar.width))
}

// The alignment of a vector, if the width of its scalars is a valid alignment.
fn vector_alignment(size: VectorSize, scalar: Scalar) -> Option<Alignment>
    ensures { MatchOption result (¬ IsPowerOfTwo scalar.width) (λ a. IsPowerOfTwo scalar.width × (a ≡ vector_alignment size scalar.width)) }
{
    match scalar_alignment(scalar) {
        Some(width) => Some(Alignment::from(size) * width),
        None => None,
    }
}

// The greater of two alignments.
fn greater(left: Alignment, right: Alignment) -> Alignment
    ensures { result ≡ max left right }
{
    if left.get() < right.get() {
        right
    } else {
        left
    }
}

// The greatest alignment of a member, and one if there is none.
#[tactic(auto, using(crate::proofs::Alignments::below_at))]
fn greatest_alignment(members: &[StructMember], layouts: &[TypeLayout]) -> Alignment
    requires { All (λ m. m.ty < length layouts.now) members.now }
    ensures { (tree : ℕ → Tree) → AreAligned tree layouts.now → result ≡ greatest_alignment (members_by tree (map member_view members.now)) }
{
    let mut greatest = Alignment::ONE;
    for member in members {
        greatest = greater(greatest, layouts[member.ty.index()].alignment);
    }
    greatest
}

// The alignment of a type, if the scalar width it depends on is a valid alignment.
fn alignment_of(inner: &TypeInner, layouts: &[TypeLayout]) -> Option<Alignment>
    requires { All (λ named. named < length layouts.now) (named_types (inner_view inner.now)) }
    ensures { (tree : ℕ → Tree) → AreAligned tree layouts.now → IsAlignmentOf (tree_by tree (inner_view inner.now)) result }
{
    match *inner {
        TypeInner::Scalar(scalar) | TypeInner::Atomic(scalar) => scalar_alignment(scalar),
        TypeInner::Vector { size, scalar } => vector_alignment(size, scalar),
        TypeInner::Matrix { rows, scalar, .. } => vector_alignment(rows, scalar),
        TypeInner::CooperativeMatrix { scalar, .. } => scalar_alignment(scalar),
        TypeInner::Array { base, .. } => Some(layouts[base.index()].alignment),
        TypeInner::Struct { ref members, .. } => {
            Some(greatest_alignment(members.as_slice(), layouts))
        }
        TypeInner::Pointer { .. }
        | TypeInner::ValuePointer { .. }
        | TypeInner::Image { .. }
        | TypeInner::Sampler { .. }
        | TypeInner::AccelerationStructure { .. }
        | TypeInner::RayQuery { .. }
        | TypeInner::BindingArray { .. } => Some(Alignment::ONE),
    }
}

/// The layout of a type, given those of the types that it refers to, or why it has none.
pub(crate) fn layout_of(
    inner: &TypeInner,
    layouts: &[TypeLayout],
) -> Result<TypeLayout, LayoutErrorInner>
    requires { All (λ named. named < length layouts.now) (named_types (inner_view inner.now)) }
    ensures { (tree : ℕ → Tree) → AreAligned tree layouts.now → MatchResult result (IsLayoutOf (tree_by tree (inner_view inner.now))) (IsFaultOf (tree_by tree (inner_view inner.now))) }
{
    let Some(alignment) = alignment_of(inner, layouts) else {
        return Err(LayoutErrorInner::NonPowerOfTwoWidth);
    };
    let _bytes = alignment.get();
    match inner.try_size() {
        Some(size) => Ok(TypeLayout {
            size: size as u32,
            alignment,
        }),
        None => Err(LayoutErrorInner::TooLarge),
    }
}
