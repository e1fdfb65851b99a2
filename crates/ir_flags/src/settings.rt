//! The settings of a validator: checks, capabilities, and subgroup support.

ghost use Rattle.std.specs.Prelude.{◌≡◌, ◌-◌, ◌^◌};

use crate::debug::write_set;
use crate::stages::{ShaderStages, SubgroupOperationSet};
use bitflags::{Flag, Flags, bitflag_items};
use std::fmt;

/// The settings by which a validator validates a module, its functions and its entry points.
#[derive(Clone, Copy, Debug, PartialEq, Eq)]
pub struct Settings {
    /// The checks that are enabled.
    pub flags: ValidationFlags,
    /// The capabilities that shaders may use.
    pub capabilities: Capabilities,
    /// The stages that support subgroup operations.
    pub subgroup_stages: ShaderStages,
    /// The subgroup operations that are supported.
    pub subgroup_operations: SubgroupOperationSet,
}

/// The checks of a validator (naga's `ValidationFlags`). A contract sees
/// the number of its bits, as `set.0`.
#[derive(Clone, Copy, PartialEq, Eq)]
pub struct ValidationFlags(
    /// The bits as a number.
    pub u8,
);

bitflag_items! {
    impl ValidationFlags: u8 {
        /// Expressions.
        const EXPRESSIONS = 1;
        /// Statements and blocks.
        const BLOCKS = 2;
        /// Control flow uniformity.
        const CONTROL_FLOW_UNIFORMITY = 4;
        /// Layouts of host-shareable structs.
        const STRUCT_LAYOUTS = 8;
        /// Constants and overrides.
        const CONSTANTS = 16;
        /// Bindings and varyings.
        const BINDINGS = 32;
        /// Every operand is in scope where it is used (a check that naga does not have).
        const STRICT_SCOPE = 64;
    }
}

impl fmt::Debug for ValidationFlags {
    fn fmt<W: fmt::Write>(&self, f: &mut fmt::Formatter<W>) -> fmt::Result {
        write_set(f, "ValidationFlags", self)
    }
}

impl Flags for ValidationFlags {
    ghost use Rattle.std.specs.Prelude.{⊤};
    ghost use Rattle.ir_flags.specs.Words.{validation_flags};

    type Bits = u8;

    ghost exact = { ⊤ };

    ghost table = { validation_flags };

    ghost set_of = { λ s. s.0 };

    fn flags<'a>() -> &'a [Flag<ValidationFlags>] {
        ValidationFlags::FLAGS
    }

    fn bits(&self) -> u8 {
        self.0
    }

    fn from_bits_retain(bits: u8) -> ValidationFlags {
        ValidationFlags(bits)
    }
}

/// The capabilities that a shader may use (naga's `Capabilities`). A contract sees
/// the number of its bits, as `set.0`.
#[derive(Clone, Copy, PartialEq, Eq)]
pub struct Capabilities(
    /// The bits as a number.
    pub u64,
);

bitflag_items! {
    impl Capabilities: u64 {
        /// Globals in the immediate address space.
        const IMMEDIATES = 1;
        /// 64-bit floats.
        const FLOAT64 = 2;
        /// 16-bit floats.
        const SHADER_FLOAT16 = 4;
        /// 16-bit integers.
        const SHADER_INT16 = 8;
        /// 64-bit integers.
        const SHADER_INT64 = 16;
        /// The primitive index built-in.
        const PRIMITIVE_INDEX = 32;
        /// Binding arrays of uniform buffers.
        const BUFFER_BINDING_ARRAY = 64;
        /// Binding arrays of storage buffers.
        const STORAGE_BUFFER_BINDING_ARRAY = 128;
        /// Binding arrays of sampled textures and samplers.
        const TEXTURE_AND_SAMPLER_BINDING_ARRAY = 256;
        /// Binding arrays of storage textures.
        const STORAGE_TEXTURE_BINDING_ARRAY = 512;
        /// Binding arrays of acceleration structures.
        const ACCELERATION_STRUCTURE_BINDING_ARRAY = 1024;
        /// Storage textures of 16-bit normalised formats.
        const STORAGE_TEXTURE_16BIT_NORM_FORMATS = 2048;
        /// Cube texture arrays.
        const CUBE_ARRAY_TEXTURES = 4096;
        /// Clip distances.
        const CLIP_DISTANCES = 8192;
        /// Cull distances.
        const CULL_DISTANCE = 16384;
        /// Multiview rendering.
        const MULTIVIEW = 32768;
        /// Early depth tests.
        const EARLY_DEPTH_TEST = 65536;
        /// Per-sample shading.
        const MULTISAMPLED_SHADING = 131072;
        /// Dual-source blending.
        const DUAL_SOURCE_BLENDING = 262144;
        /// Subgroup operations.
        const SUBGROUP = 524288;
        /// Subgroup barriers.
        const SUBGROUP_BARRIER = 1048576;
        /// 64-bit atomic `Min` and `Max` without a result.
        const SHADER_INT64_ATOMIC_MIN_MAX = 2097152;
        /// All 64-bit atomic operations.
        const SHADER_INT64_ATOMIC_ALL_OPS = 4194304;
        /// 32-bit float atomics.
        const SHADER_FLOAT32_ATOMIC = 8388608;
        /// 32-bit atomics on storage textures.
        const TEXTURE_ATOMIC = 16777216;
        /// 64-bit atomics on storage textures.
        const TEXTURE_INT64_ATOMIC = 33554432;
        /// External textures.
        const TEXTURE_EXTERNAL = 67108864;
        /// Ray queries.
        const RAY_QUERY = 134217728;
        /// Vertex positions of ray hits.
        const RAY_HIT_VERTEX_POSITION = 268435456;
        /// Ray tracing pipelines.
        const RAY_TRACING_PIPELINE = 536870912;
        /// Barycentric coordinates.
        const SHADER_BARYCENTRICS = 1073741824;
        /// Mesh and task shaders.
        const MESH_SHADER = 2147483648;
        /// Mesh shaders with the point topology.
        const MESH_SHADER_POINT_TOPOLOGY = 4294967296;
        /// Per-vertex inputs of fragment shaders.
        const PER_VERTEX = 8589934592;
        /// The draw index built-in.
        const DRAW_INDEX = 17179869184;
        /// Cooperative matrices.
        const COOPERATIVE_MATRIX = 34359738368;
        /// Coherent memory.
        const MEMORY_DECORATION_COHERENT = 68719476736;
        /// Volatile memory.
        const MEMORY_DECORATION_VOLATILE = 137438953472;
    }
}

impl fmt::Debug for Capabilities {
    fn fmt<W: fmt::Write>(&self, f: &mut fmt::Formatter<W>) -> fmt::Result {
        write_set(f, "Capabilities", self)
    }
}

impl Flags for Capabilities {
    ghost use Rattle.std.specs.Prelude.{⊤};
    ghost use Rattle.ir_flags.specs.Words.{capability_bits};

    type Bits = u64;

    ghost exact = { ⊤ };

    ghost table = { capability_bits };

    ghost set_of = { λ s. s.0 };

    fn flags<'a>() -> &'a [Flag<Capabilities>] {
        Capabilities::FLAGS
    }

    fn bits(&self) -> u64 {
        self.0
    }

    fn from_bits_retain(bits: u64) -> Capabilities {
        Capabilities(bits)
    }
}

impl Default for ValidationFlags {
    /// naga's six checks: all but [`ValidationFlags::STRICT_SCOPE`].
    fn default() -> Self
        ensures { result.0 ≡ 2 ^ 6 - 1 }
    {
        ValidationFlags(63)
    }
}
