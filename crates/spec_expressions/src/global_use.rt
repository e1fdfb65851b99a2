//! Uses of global variables.

use bitflags::{Flag, Flags, bitflag_items};
use ir_flags::write_set;
use std::fmt;

/// How a function uses a global variable (naga's `GlobalUse`). A contract sees its bits, as
/// `set.0`.
#[derive(Clone, Copy, PartialEq, Eq)]
pub struct GlobalUse(
    /// The bits.
    pub u8,
);

bitflag_items! {
    impl GlobalUse: u8 {
        /// Its data is read.
        const READ = 1;
        /// Its data is written.
        const WRITE = 2;
        /// Its metadata (size) is queried, or it is only referred to.
        const QUERY = 4;
        /// An image atomic is done on it.
        const ATOMIC = 8;
    }
}

impl fmt::Debug for GlobalUse {
    fn fmt<W: fmt::Write>(&self, f: &mut fmt::Formatter<W>) -> fmt::Result {
        write_set(f, "GlobalUse", self)
    }
}

impl Flags for GlobalUse {
    ghost use Rattle.std.specs.Prelude.{⊤};
    ghost use Rattle.spec_expressions.specs.found.Words.{global_use_words};

    type Bits = u8;

    ghost exact = { ⊤ };

    ghost table = { global_use_words };

    ghost set_of = { λ s. s.0 };

    fn flags<'a>() -> &'a [Flag<GlobalUse>] {
        GlobalUse::FLAGS
    }

    fn bits(&self) -> u8 {
        self.0
    }

    fn from_bits_retain(bits: u8) -> GlobalUse {
        GlobalUse(bits)
    }
}
