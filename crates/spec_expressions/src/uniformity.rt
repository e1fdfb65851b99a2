//! Uniformity of expressions: sources of non-uniformity, and requirements of uniform control flow.

use bitflags::{Flag, Flags, bitflag_items};
use ir_arena::handle::Handle;
use ir_flags::write_set;
use std::fmt;
use typing_layout::ir_types::key;

/// Why uniform control flow is required (naga's `UniformityRequirements`). A contract sees the
/// bits, as `set.0`.
#[derive(Clone, Copy, PartialEq, Eq)]
pub struct UniformityRequirements(
    /// The bits.
    pub u8,
);

bitflag_items! {
    impl UniformityRequirements: u8 {
        /// A workgroup barrier.
        const WORK_GROUP_BARRIER = 1;
        /// A derivative.
        const DERIVATIVE = 2;
        /// An implicit level of detail.
        const IMPLICIT_LEVEL = 4;
        /// A cooperative load or multiply-add.
        const COOP_OPS = 8;
    }
}

impl fmt::Debug for UniformityRequirements {
    fn fmt<W: fmt::Write>(&self, f: &mut fmt::Formatter<W>) -> fmt::Result {
        write_set(f, "UniformityRequirements", self)
    }
}

impl Flags for UniformityRequirements {
    ghost use Rattle.std.specs.Prelude.{⊤};
    ghost use Rattle.spec_expressions.specs.found.Words.{requirement_words};

    type Bits = u8;

    ghost exact = { ⊤ };

    ghost table = { requirement_words };

    ghost set_of = { λ s. s.0 };

    fn flags<'a>() -> &'a [Flag<UniformityRequirements>] {
        UniformityRequirements::FLAGS
    }

    fn bits(&self) -> u8 {
        self.0
    }

    fn from_bits_retain(bits: u8) -> UniformityRequirements {
        UniformityRequirements(bits)
    }
}

/// The uniformity of an expression (naga's `Uniformity`).
#[derive(Clone, Copy, PartialEq, Debug)]
pub struct Uniformity {
    /// The source of its non-uniformity, if any: an expression that its value depends on.
    pub non_uniform_result: Option<Handle<key::Expression>>,
    /// The expression's own requirements.
    pub requirements: UniformityRequirements,
}
