// Instructions of extended sets.

use ir_flags::Capabilities;
use spirv_expressions::{Value, need};
use spirv_flow::is_debug;
use spirv_math::{cast, math, trinary};
use spirv_operations::{FunctionBuilder, split};
use spirv_words::{Feature, Instruction, starts_text};

// Doubles out of two words, and the other way.
const PACK_DOUBLE_2X32: u32 = 59;

const UNPACK_DOUBLE_2X32: u32 = 65;

/// Does an instruction of an extended set.
pub fn extended<L: FunctionBuilder>(lowering: &mut L, operation: &Instruction) {
    if is_debug(&lowering.reading().listing, operation) {
        return;
    }
    let set = need(lowering, operation, 0);
    let listing = &lowering.reading().listing;
    let name = listing.operands(&listing.defined(set));
    let is_standard = starts_text(name, "GLSL.std.450", true);
    let is_trinary = starts_text(name, "SPV_AMD_shader_trinary_minmax", true);
    let number = need(lowering, operation, 1);
    let value = if is_standard {
        function(lowering, operation, number)
    } else if is_trinary {
        trinary(lowering, operation, number)
    } else {
        None
    };
    match value {
        Some(value) => lowering.define(operation, value),
        None => lowering.fail(operation.unsupported_by(Feature::InstructionSet)),
    }
}

// The value of a function of GLSL.std.450.
fn function<L: FunctionBuilder>(
    lowering: &mut L,
    operation: &Instruction,
    number: u32,
) -> Option<Value> {
    if number == PACK_DOUBLE_2X32 || number == UNPACK_DOUBLE_2X32 {
        // the words are composed as one number
        lowering.require(Capabilities::SHADER_INT64);
        return Some(cast(lowering, operation, 2));
    }
    match split(lowering, operation, number) {
        Some(value) => Some(value),
        None => Some(math(lowering, operation, number)),
    }
}
