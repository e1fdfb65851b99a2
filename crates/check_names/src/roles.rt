// The roles of global variables in SPIR-V.

use ir_items::Module;
use spirv_numbers::names::Names as NumberNames;
use spirv_numbers::{numbers, ops};
use spirv_words::{Instruction, Listing, SpirvError, list};
use std::alloc::{AllocError, Global};

/// The interface location of an input or an output.
#[derive(Clone, Copy)]
pub enum Bound {
    /// At a location.
    Location(u32),
    /// A built-in value, by its SPIR-V name.
    BuiltIn(&'static str),
    /// A block, whose members have locations or built-ins.
    Members,
}

/// The role of a global variable in a SPIR-V module.
#[derive(Clone, Copy)]
pub enum Role {
    /// The same as in the IR.
    Same,
    /// An input.
    Input(Bound),
    /// An output.
    Output(Bound),
    /// The sampler of the combined image sampler at this index of the global variables, at a binding that is not in the module.
    SamplerOf(u32),
}

/// The roles of a SPIR-V module's global variables, by index.
#[derive(Drop)]
pub struct Roles {
    all: Vec<Role>,
}

// The interface location of a variable.
fn bound_of(listing: &Listing, id: u32) -> Bound {
    for place in listing.decorations(id, None) {
        let said = listing.at(*place);
        let number = listing.operand(&said, 2).unwrap_or(0);
        match listing.operand(&said, 1) {
            Some(numbers::DECORATION_LOCATION) => return Bound::Location(number),
            Some(numbers::DECORATION_BUILT_IN) => {
                return Bound::BuiltIn(NumberNames::BuiltIn.name(number));
            }
            Some(_) | None => {}
        }
    }
    Bound::Members
}

// The role of the variable that this instruction declares.
fn role_of(listing: &Listing, variable: &Instruction) -> Role {
    match listing.operand(variable, 0) {
        Some(numbers::CLASS_INPUT) => Role::Input(bound_of(listing, variable.id)),
        Some(numbers::CLASS_OUTPUT) => Role::Output(bound_of(listing, variable.id)),
        Some(_) | None => Role::Same,
    }
}

// The index of the first declaration, from this index on, that begins at or after this word.
fn next_at(listing: &Listing, from: usize, word: u32) -> usize {
    let mut at = from;
    for place in listing.parts.declarations.get(from..).unwrap_or(&[]) {
        if listing.at(*place).start >= word {
            break;
        }
        at = at.saturating_add(1);
    }
    at
}

// The role of the variable declared at this index, if the declaration begins at this word.
fn role_at(listing: &Listing, at: usize, word: u32) -> Role {
    let place = listing.parts.declarations.get(at).copied();
    let found = listing.at(place.unwrap_or(u32::MAX));
    if found.start == word && found.opcode == ops::VARIABLE {
        role_of(listing, &found)
    } else {
        Role::Same
    }
}

impl Roles {
    /// The roles for a module not from SPIR-V.
    pub fn none(alloc: Global) -> Roles {
        Roles {
            all: Vec::new(alloc),
        }
    }

    /// The roles for a module translated from this SPIR-V binary, with its spans.
    pub fn of_bytes(alloc: Global, module: &Module, bytes: &[u8]) -> Result<Roles, SpirvError> {
        let listing = list(alloc, bytes)?;
        let roles = Roles::of_module(alloc, module, &listing);
        drop(listing);
        match roles {
            Ok(roles) => Ok(roles),
            Err(_) => Err(SpirvError::Memory),
        }
    }

    // The roles for a module translated from these bytes.
    fn of_module(alloc: Global, module: &Module, listing: &Listing) -> Result<Roles, AllocError> {
        let mut all = Vec::new(alloc);
        // the number of declarations visited
        let mut at = 0usize;
        // the first word of the previous variable, and its index: a combined image has the same as its sampler
        let mut before = (0u32, 0u32);
        let mut place = 0u32;
        for (handle, _) in module.global_variables.iter() {
            let word = match module.global_variables.get_span(handle).to_range() {
                Some(range) => u32::try_from(range.start).unwrap_or(0),
                None => 0,
            };
            at = next_at(listing, at, word);
            let role = if word != 0 && word == before.0 {
                Role::SamplerOf(before.1)
            } else {
                role_at(listing, at, word)
            };
            all.push(role)?;
            before = (word, place);
            place = place.saturating_add(1);
        }
        Ok(Roles { all })
    }

    /// The role of the global variable at this index.
    pub fn at(&self, place: usize) -> Role {
        self.all.get(place).copied().unwrap_or(Role::Same)
    }
}
