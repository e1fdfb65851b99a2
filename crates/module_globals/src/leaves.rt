//! The immediate-data slots that the leaves of a value overlap.

ghost use Rattle.std.specs.Prelude.{◌≡◌, ◌↔◌, ◌<◌, ◌+◌, ◌*◌, ℕ, map, min};
ghost use Rattle.module_globals.specs.Reached.{IsReached, IsReachedIn, IsReachedAmong, IsMet};
ghost use Rattle.module_globals.specs.Slots.{IsIn, Meets};
ghost use Rattle.ir_types.specs.judged.Plain.{inner_view, member_view};
ghost use Rattle.typing_layout.specs.judged.Tree.{Tree};
ghost use Rattle.typing_layout.specs.judged.View.{members_by, tree_by, tree_along, type_tree};
ghost use Rattle.typing_forms.specs.judged.Order.{TypesGoBack};
ghost use Rattle.typing_forms.specs.judged.Resolutions.{types_view};
ghost use Rattle.typing_forms.specs.judged.Sizes.{counted, type_size};

use crate::slots::ImmediateSlots;
use ir_arena::handle::Handle;
use ir_sets::unique_arena::UniqueArena;
use ir_types::{ArraySize, IrType, StructMember, TypeInner, key};
use typing_forms::{TypeInnerExt, inner_of};

// A size in bytes, capped at the 256 bytes that the slots cover.
fn capped(size: u64) -> u32
    ensures { result ≡ min size 256 }
{
    if size < 256 { size as u32 } else { 256 }
}

// The slots that a leaf overlaps.
#[tactic(auto, using(crate::proofs::Parts::met_capped))]
fn slots_of_leaf(leaf: &TypeInner, offset: u32) -> ImmediateSlots
    ensures { (k : ℕ) → k < 64 → IsIn result.0 k ↔ Meets offset (type_size (inner_view leaf.now)) k }
{
    ImmediateSlots::from_range(offset, capped(leaf.size()))
}

// The number of elements used for the size of an array.
fn counted(size: ArraySize) -> u32
    ensures { result ≡ counted size }
{
    match size {
        ArraySize::Constant(count) => count,
        ArraySize::Pending(_) | ArraySize::Dynamic => 1,
    }
}

// The number of elements at distinct offsets: with stride 0 all elements share one offset.
fn apart(count: u32, stride: u32) -> u32
    ensures { (k : ℕ) (element : Tree) (offset : ℕ) → IsReachedAmong k element stride offset result ↔ IsReachedAmong k element stride offset count }
{
    if stride == 0 && count > 1 { 1 } else { count }
}

// The offset of an element.
fn begin_of(place: u32, stride: u32, offset: u32) -> u64
    ensures { result ≡ offset + place * stride }
{
    u64::from(offset) + u64::from(place) * u64::from(stride)
}

// The slots that the leaves of array elements overlap.
#[cycle(leaves)]
fn slots_of_elements(
    types: &UniqueArena<IrType, key::IrType>,
    depth: usize,
    base: Handle<key::IrType>,
    count: u32,
    stride: u32,
    offset: u32,
) -> ImmediateSlots
    ensures { (k : ℕ) → k < 64 → IsIn result.0 k ↔ IsReachedAmong k (tree_along (types_view types.now) depth base) stride offset count }
{
    let mut slots = ImmediateSlots(0);
    for place in 0..apart(count, stride) {
        let begin = begin_of(place, stride, offset);
        if begin >= 256 {
            return slots;
        }
        slots = slots | slots_along(types, depth, base, begin);
    }
    slots
}

// The slots that the leaves of struct members overlap.
#[cycle(leaves)]
fn slots_of_members(
    types: &UniqueArena<IrType, key::IrType>,
    depth: usize,
    members: &[StructMember],
    offset: u32,
) -> ImmediateSlots
    ensures { (k : ℕ) → k < 64 → IsIn result.0 k ↔ IsReachedIn k (members_by (tree_along (types_view types.now) depth) (map member_view members.now)) offset }
{
    let mut slots = ImmediateSlots(0);
    for member in members {
        let begin = u64::from(offset) + u64::from(member.offset);
        slots = slots | slots_along(types, depth, member.ty, begin);
    }
    slots
}

// The slots that the leaves of a `TypeInner` overlap.
#[cycle(leaves)]
fn slots_of(
    types: &UniqueArena<IrType, key::IrType>,
    depth: usize,
    inner: &TypeInner,
    offset: u32,
) -> ImmediateSlots
    ensures { (k : ℕ) → k < 64 → IsIn result.0 k ↔ IsReached k (tree_by (tree_along (types_view types.now) depth) (inner_view inner.now)) offset }
{
    match *inner {
        TypeInner::Scalar(_)
        | TypeInner::Vector { .. }
        | TypeInner::Matrix { .. }
        | TypeInner::CooperativeMatrix { .. }
        | TypeInner::Atomic(_) => slots_of_leaf(inner, offset),
        TypeInner::Array { base, size, stride } => {
            slots_of_elements(types, depth, base, counted(size), stride, offset)
        }
        TypeInner::Struct { ref members, .. } => {
            slots_of_members(types, depth, members.as_slice(), offset)
        }
        TypeInner::Pointer { .. }
        | TypeInner::ValuePointer { .. }
        | TypeInner::Image { .. }
        | TypeInner::Sampler { .. }
        | TypeInner::AccelerationStructure { .. }
        | TypeInner::RayQuery { .. }
        | TypeInner::BindingArray { .. } => ImmediateSlots(0),
    }
}

// The slots that the leaves of the type at a handle overlap, with this limit on the nesting depth.
#[cycle(leaves)]
fn slots_along(
    types: &UniqueArena<IrType, key::IrType>,
    depth: usize,
    handle: Handle<key::IrType>,
    offset: u64,
) -> ImmediateSlots
    ensures { (k : ℕ) → k < 64 → IsIn result.0 k ↔ IsReached k (tree_along (types_view types.now) depth handle) offset }
{
    if depth == 0 || offset >= 256 {
        return ImmediateSlots(0);
    }
    match inner_of(types, handle) {
        Some(inner) => slots_of(types, depth - 1, inner, offset as u32),
        None => ImmediateSlots(0),
    }
}

impl ImmediateSlots {
    /// The slots that the leaves of a value at a byte offset overlap. An array whose length is not known counts as one
    /// element. Padding between the leaves is not counted.
    ///
    /// Requires that types reference only earlier types. Each leaf that begins in the first 256 bytes is visited once for each
    /// occurrence in the value, which may be often if elements or members overlap. The recursion is as deep as types nest.
    pub fn from_type(ty: &TypeInner, offset: u32, types: &UniqueArena<IrType, key::IrType>) -> Self
        requires { TypesGoBack (types_view types.now) }
        ensures { (k : ℕ) → k < 64 → IsIn result.0 k ↔ IsMet k (tree_by (type_tree (types_view types.now)) (inner_view ty.now)) offset }
    {
        slots_of(types, types.len(), ty, offset)
    }
}
