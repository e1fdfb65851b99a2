//! The leaves of a value, in the order of their paths.

ghost use Rattle.std.specs.Prelude.{◌≡◌, ◌<◌, ◌≤◌, ◌+◌, ◌*◌, ◌^◌, ◌++◌, ◌∷◌, [], map, OnOk};
ghost use Rattle.ir_types.specs.judged.Plain.{inner_view, member_view};
ghost use Rattle.judgement_report.specs.Rows.{rows, AreInRange, HasRoom};
ghost use Rattle.judgement.specs.judged.Leaves.{leaves, member_leaves, repeated};
ghost use Rattle.typing_forms.specs.judged.Resolutions.{types_view};
ghost use Rattle.typing_forms.specs.judged.Sizes.{counted, type_size, vector_alignment};
ghost use Rattle.typing_forms.specs.declared.sizes.TheConstants.{MAX_TYPE_SIZE};
ghost use Rattle.typing_layout.specs.judged.View.{members_by, tree_by, tree_along};

use ir_arena::handle::Handle;
use ir_kinds::VectorSize;
use ir_sets::unique_arena::UniqueArena;
use ir_types::{ArraySize, IrType, StructMember, TypeInner, key};
use std::alloc::AllocError;
use typing_forms::{TypeInnerExt, inner_of};

/// A leaf of a buffer: the byte range of a scalar, vector, matrix or atomic.
#[derive(Clone, Copy, PartialEq, Eq, Debug)]
pub struct Leaf {
    /// Its offset in the buffer, in bytes.
    pub first: u64,
    /// Its size in bytes.
    pub len: u64,
    /// Its alignment in bytes.
    pub alignment: u64,
}

// Appends the leaf of a value at this offset that is itself a leaf.
fn add_leaf(
    inner: &TypeInner,
    alignment: u64,
    start: u64,
    out: &mut Vec<Leaf>,
) -> Result<(), AllocError>
    ensures { OnOk result (out.new.items ≡ out.old.items ++ record { first = start; len = type_size (inner_view inner.now); alignment = alignment } ∷ []) }
{
    out.push(Leaf {
        first: start,
        len: inner.size(),
        alignment,
    })?;
    Ok(())
}

/// The alignment in bytes of a vector with scalars of this width.
pub(crate) fn vector_alignment(size: VectorSize, width: u8) -> u64
    ensures { result ≡ vector_alignment size width }
{
    match size {
        VectorSize::Bi => 2 * u64::from(width),
        VectorSize::Tri | VectorSize::Quad => 4 * u64::from(width),
    }
}

/// The number of elements that are listed: one if the length is not known.
pub(crate) fn counted(size: ArraySize) -> u32
    ensures { result ≡ counted size }
{
    match size {
        ArraySize::Constant(count) => count,
        ArraySize::Pending(_) | ArraySize::Dynamic => 1,
    }
}

// Appends the leaves of `n` elements, the first of which is at this offset.
#[cycle(leaves)]
fn add_elements(
    types: &UniqueArena<IrType, key::IrType>,
    depth: usize,
    base: Handle<key::IrType>,
    count: u32,
    stride: u32,
    start: u64,
    out: &mut Vec<Leaf>,
) -> Result<(), AllocError>
    requires sizes { AreInRange (types_view types.now) }
    requires size { count * stride ≤ MAX_TYPE_SIZE }
    requires room { HasRoom start (depth + 1) }
    ensures { OnOk result (out.new.items ≡ out.old.items ++ rows start (repeated count 0 stride (leaves 1 (tree_along (types_view types.now) depth base)))) }
{
    for place in 0..count {
        let offset = u64::from(place) * u64::from(stride);
        add_along(types, depth, base, start + offset, out)?;
    }
    Ok(())
}

// Appends the leaves of the members of a struct at this offset.
#[cycle(leaves)]
fn add_members(
    types: &UniqueArena<IrType, key::IrType>,
    depth: usize,
    members: &[StructMember],
    start: u64,
    out: &mut Vec<Leaf>,
) -> Result<(), AllocError>
    requires sizes { AreInRange (types_view types.now) }
    requires room { HasRoom start (depth + 1) }
    ensures { OnOk result (out.new.items ≡ out.old.items ++ rows start (member_leaves 1 0 (members_by (tree_along (types_view types.now) depth) (map member_view members.now)))) }
{
    for member in members {
        let offset = u64::from(member.offset);
        add_along(types, depth, member.ty, start + offset, out)?;
    }
    Ok(())
}

// Appends the leaves of a value at this offset, by its `TypeInner`.
#[cycle(leaves)]
fn add_inner(
    types: &UniqueArena<IrType, key::IrType>,
    depth: usize,
    inner: &TypeInner,
    start: u64,
    out: &mut Vec<Leaf>,
) -> Result<(), AllocError>
    requires sizes { AreInRange (types_view types.now) }
    requires size { type_size (inner_view inner.now) ≤ MAX_TYPE_SIZE }
    requires room { HasRoom start (depth + 1) }
    ensures { OnOk result (out.new.items ≡ out.old.items ++ rows start (leaves 1 (tree_by (tree_along (types_view types.now) depth) (inner_view inner.now)))) }
{
    match *inner {
        TypeInner::Scalar(scalar)
        | TypeInner::Atomic(scalar)
        | TypeInner::CooperativeMatrix { scalar, .. } => {
            add_leaf(inner, u64::from(scalar.width), start, out)
        }
        TypeInner::Vector { size, scalar } => {
            add_leaf(inner, vector_alignment(size, scalar.width), start, out)
        }
        TypeInner::Matrix { rows, scalar, .. } => {
            add_leaf(inner, vector_alignment(rows, scalar.width), start, out)
        }
        TypeInner::Array { base, size, stride } => {
            add_elements(types, depth, base, counted(size), stride, start, out)
        }
        TypeInner::Struct { ref members, .. } => {
            add_members(types, depth, members.as_slice(), start, out)
        }
        TypeInner::Pointer { .. }
        | TypeInner::ValuePointer { .. }
        | TypeInner::Image { .. }
        | TypeInner::Sampler { .. }
        | TypeInner::AccelerationStructure { .. }
        | TypeInner::RayQuery { .. }
        | TypeInner::BindingArray { .. } => Ok(()),
    }
}

/// Appends the leaves of a value of the type at a handle, at this offset, with this limit on the nesting depth.
#[cycle(leaves)]
pub(crate) fn add_along(
    types: &UniqueArena<IrType, key::IrType>,
    depth: usize,
    handle: Handle<key::IrType>,
    start: u64,
    out: &mut Vec<Leaf>,
) -> Result<(), AllocError>
    requires sizes { AreInRange (types_view types.now) }
    requires room { HasRoom start depth }
    ensures { OnOk result (out.new.items ≡ out.old.items ++ rows start (leaves 1 (tree_along (types_view types.now) depth handle))) }
{
    if depth == 0 {
        return Ok(());
    }
    match inner_of(types, handle) {
        Some(inner) => add_inner(types, depth - 1, inner, start, out),
        None => Ok(()),
    }
}
