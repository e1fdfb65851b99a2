//! Laws of the bit flag sets. A set denotes the number of its bits.

ghost use Rattle.std.specs.Prelude.{◌≡◌, ◌-◌, ◌^◌};
ghost use Rattle.std.specs.Int.RustNames.{bit_and, bit_or};
ghost use Rattle.bitflags.specs.Sets.{known_bits};
ghost use Rattle.ir_flags.specs.Sets.{IsWithin};
ghost use Rattle.ir_flags.specs.Words.{storage_access_bits, barrier_bits, memory_decoration_bits, shader_stage_bits, subgroup_operation_bits, validation_flags, capability_bits};

use crate::ShaderStages;

/// The compute-like stages are compute, task and mesh.
pub fn compute_like()
    ensures { ShaderStages.COMPUTE_LIKE.0
        ≡ bit_or (bit_or ShaderStages.COMPUTE.0 ShaderStages.MESH.0) ShaderStages.TASK.0 }
{}

/// All flags of a set together are the bits below their count.
pub fn all_words()
    ensures storage_access { known_bits storage_access_bits ≡ 2 ^ 3 - 1 }
    ensures barrier { known_bits barrier_bits ≡ 2 ^ 4 - 1 }
    ensures memory_decorations { known_bits memory_decoration_bits ≡ 2 ^ 2 - 1 }
    ensures shader_stages { known_bits shader_stage_bits ≡ 2 ^ 9 - 1 }
    ensures subgroup_operations { known_bits subgroup_operation_bits ≡ 2 ^ 7 - 1 }
    ensures validation_flags { known_bits validation_flags ≡ 2 ^ 7 - 1 }
    ensures capabilities { known_bits capability_bits ≡ 2 ^ 38 - 1 }
{}

/// Inclusion of sets is a partial order, in which a union is the least set that includes both, and an intersection
/// the greatest that both include.
pub fn within(a: u64, b: u64, c: u64)
    ensures reflexive { IsWithin a a }
    ensures transitive { IsWithin a b → IsWithin b c → IsWithin a c }
    ensures union_left { IsWithin a (bit_or a b) }
    ensures union_right { IsWithin b (bit_or a b) }
    ensures union_least { IsWithin a c → IsWithin b c → IsWithin (bit_or a b) c }
    ensures intersection_left { IsWithin (bit_and a b) a }
    ensures intersection_right { IsWithin (bit_and a b) b }
    ensures intersection_greatest { IsWithin c a → IsWithin c b → IsWithin c (bit_and a b) }
{}
