// Types with atomic parts.

use ir_types::{StructMember, TypeInner};
use spirv_flow::PathPart;
use spirv_types::{Reading, TypeHandle, Types, insert, span_of};
use spirv_words::{Failure, Feature, Instruction};

// The type with the parts below this path made atomic; the same type after an error.
#[cycle(upgrading)]
pub(crate) fn upgraded<T: Types>(
    built: &mut T,
    reading: &Reading,
    instruction: &Instruction,
    handle: TypeHandle,
    place: u32,
    depth: u32,
    failed: &mut Failure,
) -> TypeHandle {
    // what were copied after that would be unused, and over the budget
    if failed.first.is_some() {
        return handle;
    }
    let span = span_of(instruction);
    let (Some(part), Some(depth)) = (reading.uses.atomics.part(place), depth.checked_sub(1)) else {
        failed.fail(instruction.unsupported_by(Feature::DeepAtomic));
        return handle;
    };
    if let Some(TypeInner::Struct { .. }) = built.inner(handle) {
        if let Some(inside) = elements_in(reading, place) {
            return upgraded(built, reading, instruction, handle, inside, depth, failed);
        }
    }
    if let Some(TypeInner::Scalar(scalar)) = built.inner(handle) {
        if part.is_atomic {
            let atomic = TypeInner::Atomic(*scalar);
            return insert(built, atomic, span, failed);
        }
    }
    match failed.take(built.copy(reading.alloc, handle), None) {
        Some(ty) => {
            let mut ty = ty;
            upgrade(
                built,
                reading,
                instruction,
                &mut ty.inner,
                place,
                depth,
                failed,
            );
            failed.take(built.insert(ty, span), handle)
        }
        None => {
            failed.fail(instruction.unsupported());
            handle
        }
    }
}

// The same for the inner part of a type, at this path.
#[cycle(upgrading)]
fn upgrade<T: Types>(
    built: &mut T,
    reading: &Reading,
    instruction: &Instruction,
    inner: &mut TypeInner,
    place: u32,
    depth: u32,
    failed: &mut Failure,
) {
    let first = reading.uses.atomics.first(place);
    match inner {
        TypeInner::Array { base, .. } | TypeInner::BindingArray { base, .. } => match first {
            Some(inside) => {
                *base = upgraded(built, reading, instruction, *base, inside, depth, failed);
            }
            None => failed.fail(instruction.unsupported_by(Feature::AtomicOfNoNumber)),
        },
        TypeInner::Struct { members, .. } => {
            upgrade_members(built, reading, instruction, members, first, depth, failed);
        }
        _ => failed.fail(instruction.unsupported_by(Feature::AtomicOfNoNumber)),
    }
}

// The elements below the part at this path, of an array in an array of resources, which are built as one array.
fn elements_in(reading: &Reading, place: u32) -> Option<u32> {
    let Some(inside) = reading.uses.atomics.first(place) else {
        return None;
    };
    match reading.uses.atomics.part(inside) {
        Some(PathPart { member: None, .. }) => Some(inside),
        _ => None,
    }
}

// The same for the members of a struct; this is the first part that changes.
#[cycle(upgrading)]
fn upgrade_members<T: Types>(
    built: &mut T,
    reading: &Reading,
    instruction: &Instruction,
    members: &mut [StructMember],
    first: Option<u32>,
    depth: u32,
    failed: &mut Failure,
) {
    let paths = &reading.uses.atomics;
    let mut at = first;
    for _ in 0..MAX_PARTS {
        let Some(inside) = at else {
            break;
        };
        let index = match paths.part(inside) {
            Some(part) => part.member.unwrap_or(0),
            None => 0,
        };
        if let Some(member) = members.get_mut(index as usize) {
            member.ty = upgraded(
                built,
                reading,
                instruction,
                member.ty,
                inside,
                depth,
                failed,
            );
        }
        at = paths.next(inside);
    }
}

// The most atomic parts of one value.
const MAX_PARTS: u32 = 255;
