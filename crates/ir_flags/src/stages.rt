//! Bit flag sets of shader stages and of subgroup operations.

use crate::debug::write_set;
use bitflags::{Flag, Flags, bitflag_items};
use std::fmt;

/// A set of shader stages (naga's `ShaderStages`). A contract sees
/// the number of its bits, as `set.0`.
#[derive(Clone, Copy, PartialEq, Eq)]
pub struct ShaderStages(
    /// The bits as a number.
    pub u16,
);

bitflag_items! {
    impl ShaderStages: u16 {
        /// The vertex stage.
        const VERTEX = 1;
        /// The fragment stage.
        const FRAGMENT = 2;
        /// The compute stage.
        const COMPUTE = 4;
        /// The mesh stage.
        const MESH = 8;
        /// The task stage.
        const TASK = 16;
        /// The ray generation stage.
        const RAY_GENERATION = 32;
        /// The any-hit stage.
        const ANY_HIT = 64;
        /// The closest-hit stage.
        const CLOSEST_HIT = 128;
        /// The miss stage.
        const MISS = 256;
    }
}

impl fmt::Debug for ShaderStages {
    fn fmt<W: fmt::Write>(&self, f: &mut fmt::Formatter<W>) -> fmt::Result {
        write_set(f, "ShaderStages", self)
    }
}

impl Flags for ShaderStages {
    ghost use Rattle.std.specs.Prelude.{⊤};
    ghost use Rattle.ir_flags.specs.Words.{shader_stage_bits};

    type Bits = u16;

    ghost exact = { ⊤ };

    ghost table = { shader_stage_bits };

    ghost set_of = { λ s. s.0 };

    fn flags<'a>() -> &'a [Flag<ShaderStages>] {
        ShaderStages::FLAGS
    }

    fn bits(&self) -> u16 {
        self.0
    }

    fn from_bits_retain(bits: u16) -> ShaderStages {
        ShaderStages(bits)
    }
}

/// The kinds of subgroup operations that a device supports (naga's `SubgroupOperationSet`). A contract sees
/// the number of its bits, as `set.0`.
#[derive(Clone, Copy, PartialEq, Eq)]
pub struct SubgroupOperationSet(
    /// The bits as a number.
    pub u8,
);

bitflag_items! {
    impl SubgroupOperationSet: u8 {
        /// Basic: elections and barriers.
        const BASIC = 1;
        /// Votes: `All` and `Any`.
        const VOTE = 2;
        /// Arithmetic: reductions and scans.
        const ARITHMETIC = 4;
        /// Ballots and broadcasts.
        const BALLOT = 8;
        /// Shuffles.
        const SHUFFLE = 16;
        /// Relative shuffles: up and down.
        const SHUFFLE_RELATIVE = 32;
        /// Quad operations.
        const QUAD = 64;
    }
}

impl fmt::Debug for SubgroupOperationSet {
    fn fmt<W: fmt::Write>(&self, f: &mut fmt::Formatter<W>) -> fmt::Result {
        write_set(f, "SubgroupOperationSet", self)
    }
}

impl Flags for SubgroupOperationSet {
    ghost use Rattle.std.specs.Prelude.{⊤};
    ghost use Rattle.ir_flags.specs.Words.{subgroup_operation_bits};

    type Bits = u8;

    ghost exact = { ⊤ };

    ghost table = { subgroup_operation_bits };

    ghost set_of = { λ s. s.0 };

    fn flags<'a>() -> &'a [Flag<SubgroupOperationSet>] {
        SubgroupOperationSet::FLAGS
    }

    fn bits(&self) -> u8 {
        self.0
    }

    fn from_bits_retain(bits: u8) -> SubgroupOperationSet {
        SubgroupOperationSet(bits)
    }
}

impl ShaderStages {
    /// The compute-like stages: compute, task and mesh.
    pub const COMPUTE_LIKE: ShaderStages = ShaderStages(
        ShaderStages::COMPUTE.0 | ShaderStages::TASK.0 | ShaderStages::MESH.0,
    );
}
