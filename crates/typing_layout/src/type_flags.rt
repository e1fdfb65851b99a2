//! Type flags.

use bitflags::{Flag, Flags, bitflag_items};
use ir_flags::write_set;
use std::fmt;

/// The flags of a type (naga's `TypeFlags`). A contract sees its bits, as `set.0`.
#[derive(Clone, Copy, PartialEq, Eq)]
pub struct TypeFlags(
    /// The bits.
    pub u8,
);

bitflag_items! {
    impl TypeFlags: u8 {
        /// Values can be stored in memory.
        const DATA = 1;
        /// The size is known at pipeline creation.
        const SIZED = 2;
        /// Values can be copied.
        const COPY = 4;
        /// Values can be passed between stages.
        const IO_SHAREABLE = 8;
        /// The type is host-shareable.
        const HOST_SHAREABLE = 16;
        /// The size does not depend on an override.
        const CREATION_RESOLVED = 32;
        /// Functions take arguments of the type.
        const ARGUMENT = 64;
        /// Values can be constructed.
        const CONSTRUCTIBLE = 128;
    }
}

impl fmt::Debug for TypeFlags {
    fn fmt<W: fmt::Write>(&self, f: &mut fmt::Formatter<W>) -> fmt::Result {
        write_set(f, "TypeFlags", self)
    }
}

impl Flags for TypeFlags {
    ghost use Rattle.std.specs.Prelude.{⊤};
    ghost use Rattle.typing_layout.specs.found.FlagWords.{type_flags};

    type Bits = u8;

    ghost exact = { ⊤ };

    ghost table = { type_flags };

    ghost set_of = { λ s. s.0 };

    fn flags<'a>() -> &'a [Flag<TypeFlags>] {
        TypeFlags::FLAGS
    }

    fn bits(&self) -> u8 {
        self.0
    }

    fn from_bits_retain(bits: u8) -> TypeFlags {
        TypeFlags(bits)
    }
}
