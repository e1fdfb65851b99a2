// All declarations of a module, in order.

use crate::variables::{Bindings, KnownVariables, Variables};
use ir_flags::Capabilities;
use ir_kinds::VectorSize;
use ir_types::ArraySize;
use spirv_constants::{ConstantTable, Constants, KnownConstants};
use spirv_flow::{FRAGMENT_PLACE, MESH_TASKS, SUBGROUP_NUMBERS, is_debug};
use spirv_numbers::ops;
use spirv_tables::Demands;
use spirv_types::{Reading, TypeTable, Types};
use spirv_words::{Failure, Instruction, Listing, SpirvError};

/// What is known of a module's declarations, independent of where they are built.
pub struct Declared {
    /// The types by id.
    pub types: TypeTable,
    /// The constants by id.
    pub constants: KnownConstants,
    /// The global variables by id.
    pub variables: KnownVariables,
    /// The capabilities and operations that it requires.
    pub demands: Demands,
}

// Written out, so that a drop anywhere is a call into this crate.
impl Drop for Declared {
    fn drop(self) {
        let Declared {
            types: _types,
            constants: _constants,
            variables: _variables,
            demands: _demands,
        } = self;
    }
}

// Declarations under construction, with their arenas.
pub(crate) struct Declarations<T: Types, C: Constants, V: Variables> {
    pub types: TypeTable,
    pub built: T,
    pub constants: ConstantTable<C>,
    pub variables: KnownVariables,
    pub bindings: Bindings,
    pub built_variables: V,
    pub demands: Demands,
}

/// The declarations of a module, and the arenas of its types, constants and global variables.
pub fn declare<T: Types, C: Constants, V: Variables>(
    reading: &Reading,
    types: T,
    constants: C,
    variables: V,
    failed: &mut Failure,
) -> (Declared, T, C, V) {
    let (alloc, bound) = (reading.alloc, reading.listing.bound());
    let mut all = Declarations {
        types: TypeTable::new(alloc, bound, failed),
        built: types,
        constants: ConstantTable::new(alloc, bound, constants, failed),
        variables: KnownVariables::new(alloc, bound, failed),
        bindings: Bindings::of(alloc, &reading.listing, failed),
        built_variables: variables,
        demands: Demands::NONE,
    };
    all.take_all(reading, failed);
    let Declarations {
        types,
        built,
        constants,
        variables,
        bindings,
        built_variables,
        demands,
    } = all;
    drop(bindings);
    let (constants, built_constants) = constants.finish();
    let declared = Declared {
        types,
        constants,
        variables,
        demands,
    };
    (declared, built, built_constants, built_variables)
}

impl<T: Types, C: Constants, V: Variables> Declarations<T, C, V> {
    // Reads the capabilities and declarations of a module, and what its functions need besides, up to the first error.
    fn take_all(&mut self, reading: &Reading, failed: &mut Failure) {
        let listing = &reading.listing;
        for place in &listing.parts.capabilities {
            let number = failed.take(listing.need(&listing.at(*place), 0), 0);
            self.demands.declare(number);
        }
        for place in &listing.parts.declarations {
            if failed.first.is_none() {
                let taken = self.take(reading, &listing.at(*place));
                failed.take(taken, ());
            }
        }
        let uses = &reading.uses;
        if uses.numbered {
            self.demands.ask(Capabilities::SUBGROUP);
            self.add_hidden(SUBGROUP_NUMBERS, VectorSize::Bi, failed);
        }
        if uses.placed {
            self.add_hidden(FRAGMENT_PLACE, VectorSize::Bi, failed);
        }
        if reading.scan.has_tasks {
            self.add_hidden(MESH_TASKS, VectorSize::Tri, failed);
        }
    }

    // Declares a type, a constant or a variable.
    fn take(&mut self, reading: &Reading, instruction: &Instruction) -> Result<(), SpirvError> {
        let Declarations {
            types,
            built,
            constants,
            demands,
            ..
        } = self;
        match instruction.opcode {
            ops::VARIABLE => self.declare_variable(reading, instruction),
            ops::TYPE_ARRAY | ops::TYPE_RUNTIME_ARRAY => {
                match length_of(&constants.known, &reading.listing, instruction) {
                    Ok(size) => types.declare_array(built, reading, instruction, &size),
                    Err(error) => Err(error),
                }
            }
            ops::TYPE_STRUCT => types.declare_struct(built, reading, instruction, demands),
            ops::TYPE_VOID..=ops::TYPE_FUNCTION
            | ops::TYPE_RAY_QUERY
            | ops::TYPE_ACCELERATION_STRUCTURE => {
                types.declare(built, reading, instruction, demands)
            }
            ops::SPEC_CONSTANT_OP => constants.declare_operation(reading, types, instruction),
            ops::UNDEF | ops::CONSTANT_TRUE..=ops::SPEC_CONSTANT_COMPOSITE => {
                constants.declare(reading, types, instruction)
            }
            ops::EXT_INST if is_debug(&reading.listing, instruction) => Ok(()),
            _ => Err(instruction.unsupported()),
        }
    }
}

// The number of elements of an array.
fn length_of(
    constants: &KnownConstants,
    listing: &Listing,
    instruction: &Instruction,
) -> Result<ArraySize, SpirvError> {
    if instruction.opcode == ops::TYPE_RUNTIME_ARRAY {
        return Ok(ArraySize::Dynamic);
    }
    match listing.need(instruction, 1) {
        Ok(id) => constants.length(id, instruction),
        Err(error) => Err(error),
    }
}
