// The SPIR-V variable of a varying.

use crate::spans::{ENTRIES, member_at, step, type_at};
use ir_items::{Module, TypeInner};
use ir_kinds::Binding;
use spirv_numbers::{numbers, ops};
use spirv_words::{Instruction, Listing};

// A location by its variable's storage class and its number.
#[derive(Clone, Copy)]
struct Place {
    class: u32,
    location: u32,
}

// The location of a binding.
fn place_of(binding: Option<Binding>, class: u32) -> Option<Place> {
    match binding? {
        Binding::Location { location, .. } => Some(Place { class, location }),
        Binding::BuiltIn(_) => None,
    }
}

// The location of the entry point argument at a path.
fn argument_place(module: &Module, path: &[u32]) -> Option<Place> {
    let entry = module.entry_points.get(step(path, 1)? as usize)?;
    if step(path, 2) != Some(6) || step(path, 3) != Some(1) {
        return None;
    }
    let argument = entry.function.arguments.get(step(path, 4)? as usize)?;
    place_of(argument.binding, numbers::CLASS_INPUT)
}

// The location of the output struct member at a path.
fn member_place(module: &Module, path: &[u32]) -> Option<Place> {
    let member = member_at(path)?;
    let TypeInner::Struct { members, .. } = &type_at(module, path)?.inner else {
        return None;
    };
    place_of(members.get(member as usize)?.binding, numbers::CLASS_OUTPUT)
}

// Whether a variable has this location.
fn is_at(listing: &Listing, id: u32, location: u32) -> bool {
    for place in listing.decorations(id, None) {
        let said = listing.at(*place);
        if listing.operand(&said, 1) == Some(numbers::DECORATION_LOCATION)
            && listing.operand(&said, 2) == Some(location)
        {
            return true;
        }
    }
    false
}

/// The interface variable of an entry point that the argument, or the result's member, at a path comes from, if it
/// has a location.
pub(crate) fn varying_at(
    listing: &Listing,
    module: &Module,
    path: &[u32],
    entry: &Instruction,
) -> Option<Instruction> {
    let place = if step(path, 0) == Some(ENTRIES) {
        argument_place(module, path)?
    } else {
        member_place(module, path)?
    };
    // operands that are words of the name do not match a variable
    for id in listing.operands(entry) {
        if let Some(made) = listing.definition(*id) {
            let is_variable = made.opcode == ops::VARIABLE;
            if is_variable
                && listing.operand(&made, 0) == Some(place.class)
                && is_at(listing, *id, place.location)
            {
                return Some(made);
            }
        }
    }
    None
}
