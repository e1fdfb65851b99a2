//! The type flags of types.

ghost use Rattle.std.specs.Prelude.{◌<◌, ◌≤◌, ◌↔◌, ℕ, IsTrue, All, length, map};
ghost use Rattle.ir_types.specs.judged.Plain.{inner_view, member_view};
ghost use Rattle.module_type_checks.specs.Kinds.{whole_flags};
ghost use Rattle.module_type_checks.specs.Sets.{AreOf, AreKept, AreShared, AreCommon, Follows};
ghost use Rattle.typing_layout.specs.judged.Flags.{scalar_flags, pointer_flags, array_flags, IsInOrder};
ghost use Rattle.typing_layout.specs.judged.Tree.{Tree, array, struct};
ghost use Rattle.typing_layout.specs.judged.View.{members_by};
ghost use Rattle.module_type_checks.specs.Known.{IsKnown, tree_in};
ghost use Rattle.module_type_checks.specs.Placed.{parts_in, AtPlace};
ghost use Rattle.typing_layout.specs.found.Infos.{AreFlags};

use crate::{TypeContext, has_source, member_at, member_before};
use ir_kinds::{AddressSpace, ScalarKind};
use ir_types::{ArraySize, StructMember, TypeInner};
use typing_layout::TypeFlags;

// Flags of constructible values.
const VALUE: TypeFlags = TypeFlags(
    TypeFlags::DATA.0
        | TypeFlags::SIZED.0
        | TypeFlags::COPY.0
        | TypeFlags::CREATION_RESOLVED.0
        | TypeFlags::ARGUMENT.0
        | TypeFlags::CONSTRUCTIBLE.0,
);
// Flags of host-shareable values.
const SHAREABLE: TypeFlags = TypeFlags(VALUE.0 | TypeFlags::HOST_SHAREABLE.0);
// Flags of numeric values, which are also IO-shareable.
const NUMBER: TypeFlags = TypeFlags(SHAREABLE.0 | TypeFlags::IO_SHAREABLE.0);

const ATOMIC: TypeFlags = TypeFlags(
    TypeFlags::DATA.0
        | TypeFlags::SIZED.0
        | TypeFlags::HOST_SHAREABLE.0
        | TypeFlags::CREATION_RESOLVED.0,
);

const FAR_POINTER: TypeFlags = TypeFlags(
    TypeFlags::SIZED.0 | TypeFlags::COPY.0 | TypeFlags::CREATION_RESOLVED.0,
);

const OWN_POINTER: TypeFlags = TypeFlags(FAR_POINTER.0 | TypeFlags::ARGUMENT.0);

const RESOURCE: TypeFlags = TypeFlags(TypeFlags::CREATION_RESOLVED.0 | TypeFlags::ARGUMENT.0);

const QUERY: TypeFlags = TypeFlags(
    TypeFlags::DATA.0
        | TypeFlags::SIZED.0
        | TypeFlags::CONSTRUCTIBLE.0
        | TypeFlags::CREATION_RESOLVED.0,
);
// Flags that an override-sized array may take from its element type.
const PENDING: TypeFlags = TypeFlags(
    TypeFlags::DATA.0
        | TypeFlags::SIZED.0
        | TypeFlags::COPY.0
        | TypeFlags::HOST_SHAREABLE.0
        | TypeFlags::ARGUMENT.0,
);
// Flags that a runtime-sized array may take from its element type.
const DYNAMIC: TypeFlags = TypeFlags(
    TypeFlags::DATA.0
        | TypeFlags::COPY.0
        | TypeFlags::HOST_SHAREABLE.0
        | TypeFlags::CREATION_RESOLVED.0,
);

const ALL: TypeFlags = TypeFlags(255);

const ALL_BUT_HOST: TypeFlags = TypeFlags(239);

const ALL_BUT_IO: TypeFlags = TypeFlags(247);

// The flags of a scalar or a vector.
#[tactic(auto, using(crate::proofs::Sets::value_set, crate::proofs::Sets::number_set))]
const fn scalar_flags(kind: ScalarKind) -> TypeFlags
    ensures { AreOf result.0 (scalar_flags kind) }
{
    match kind {
        ScalarKind::Bool => VALUE,
        ScalarKind::Sint
        | ScalarKind::Uint
        | ScalarKind::Float
        | ScalarKind::AbstractInt
        | ScalarKind::AbstractFloat => NUMBER,
    }
}

// The flags of a pointer.
#[tactic(auto, using(crate::proofs::Sets::own_set, crate::proofs::Sets::far_set))]
const fn pointer_flags(space: AddressSpace) -> TypeFlags
    ensures { AreOf result.0 (pointer_flags space) }
{
    match space {
        AddressSpace::Function | AddressSpace::Private => OWN_POINTER,
        AddressSpace::WorkGroup
        | AddressSpace::Uniform
        | AddressSpace::Storage { .. }
        | AddressSpace::Handle
        | AddressSpace::Immediate
        | AddressSpace::TaskPayload
        | AddressSpace::RayPayload
        | AddressSpace::IncomingRayPayload => FAR_POINTER,
    }
}

// Flags that an array may take from its element type.
#[tactic(auto, using(crate::proofs::Sets::shareable_set, crate::proofs::Sets::pending_set, crate::proofs::Sets::dynamic_set))]
const fn array_flags(size: ArraySize) -> TypeFlags
    ensures { AreOf result.0 (array_flags size) }
{
    match size {
        ArraySize::Constant(_) => SHAREABLE,
        ArraySize::Pending(_) => PENDING,
        ArraySize::Dynamic => DYNAMIC,
    }
}

/// The flags of a type that references no other; for an array, the mask for the element type's flags; none for a struct.
#[tactic(auto, using(crate::proofs::Sets::shareable_set, crate::proofs::Sets::atomic_set, crate::proofs::Sets::resource_set, crate::proofs::Sets::query_set, crate::proofs::Sets::binding_array_set, crate::proofs::Sets::empty_set))]
pub fn whole_flags(inner: &TypeInner) -> TypeFlags
    ensures { AreOf result.0 (whole_flags (inner_view inner.now)) }
{
    match *inner {
        TypeInner::Scalar(scalar) | TypeInner::Vector { scalar, .. } => scalar_flags(scalar.kind),
        TypeInner::Matrix { .. } | TypeInner::CooperativeMatrix { .. } => SHAREABLE,
        TypeInner::Atomic(_) => ATOMIC,
        TypeInner::Pointer { space, .. } | TypeInner::ValuePointer { space, .. } => {
            pointer_flags(space)
        }
        TypeInner::Array { size, .. } => array_flags(size),
        TypeInner::Struct { .. } => TypeFlags(0),
        TypeInner::Image { .. }
        | TypeInner::Sampler { .. }
        | TypeInner::AccelerationStructure { .. } => RESOURCE,
        TypeInner::RayQuery { .. } => QUERY,
        TypeInner::BindingArray { .. } => TypeFlags::CREATION_RESOLVED,
    }
}

/// The flags of an array, from those of its element type.
pub fn flags_of_array(base: TypeFlags, size: ArraySize) -> TypeFlags
    ensures { (t : Tree) (stride : ℕ) → AreFlags base t → AreFlags result (array t size stride) }
{
    TypeFlags(base.0 & array_flags(size).0)
}

// The flags that all members have.
fn common_flags(context: &TypeContext<'_>, members: &[StructMember]) -> TypeFlags
    requires known { IsKnown context.now }
    requires named { All (λ m. m.ty < length context.now.infos.now) members.now }
    ensures { AreCommon context.now (map member_view members.now) result }
{
    let mut common = ALL;
    for place in 0..members.len() {
        let flags = member_at(context, members, place).facts.info.flags;
        common = TypeFlags(common.0 & flags.0);
    }
    common
}

// Whether a member's offset is at or after the end of the previous member.
fn follows(context: &TypeContext<'_>, members: &[StructMember], place: usize) -> bool
    requires known { IsKnown context.now }
    requires named { All (λ m. m.ty < length context.now.infos.now) members.now }
    requires within { place < length members.now }
    ensures { IsTrue result ↔ AtPlace (Follows (parts_in context.now (map member_view members.now))) (parts_in context.now (map member_view members.now)) place }
{
    let member = member_at(context, members, place);
    match member_before(context, members, place) {
        None => true,
        Some(before) => before.end() <= u64::from(member.offset),
    }
}

// Whether each member's offset is at or after the end of the previous member.
fn is_in_order(context: &TypeContext<'_>, members: &[StructMember]) -> bool
    requires known { IsKnown context.now }
    requires named { All (λ m. m.ty < length context.now.infos.now) members.now }
    ensures { IsTrue result ↔ IsInOrder (parts_in context.now (map member_view members.now)) }
{
    for place in 0..members.len() {
        if !follows(context, members, place) {
            return false;
        }
    }
    true
}

// The flags, without `HOST_SHAREABLE` if members are not in order.
#[tactic(auto, using(crate::proofs::Sets::kept_in, crate::proofs::Sets::kept_out))]
fn ordered_flags(flags: TypeFlags, in_order: bool) -> TypeFlags
    ensures { AreKept flags.0 in_order result.0 }
{
    if in_order {
        flags
    } else {
        TypeFlags(flags.0 & ALL_BUT_HOST.0)
    }
}

// The flags, with `IO_SHAREABLE` exactly if members have blend sources.
#[tactic(auto, using(crate::proofs::Sets::shared_in, crate::proofs::Sets::shared_out))]
fn shared_flags(flags: TypeFlags, blended: bool) -> TypeFlags
    ensures { AreShared flags.0 blended result.0 }
{
    if blended {
        TypeFlags(flags.0 | TypeFlags::IO_SHAREABLE.0)
    } else {
        TypeFlags(flags.0 & ALL_BUT_IO.0)
    }
}

/// The flags of a struct, from those of its members.
pub fn flags_of_struct(context: &TypeContext<'_>, members: &[StructMember]) -> TypeFlags
    requires known { IsKnown context.now }
    requires named { All (λ m. m.ty < length context.now.infos.now) members.now }
    ensures { (span : ℕ) → AreFlags result (struct (members_by (tree_in context.now) (map member_view members.now)) span) }
{
    let common = common_flags(context, members);
    let ordered = ordered_flags(common, is_in_order(context, members));
    shared_flags(ordered, has_source(members))
}
