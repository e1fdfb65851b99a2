//! The `Debug` text of bit flag sets.

use bitflags::Flags;
use bitflags::parser::{WriteHex, to_writer};
use std::fmt;

/// Writes a set as its type's name and its flags in parentheses (`StorageAccess(LOAD | STORE)`), or `0x0`
/// if it is empty.
///
/// # Errors
///
/// Those of the writer.
pub fn write_set<B: Flags, W: fmt::Write>(
    f: &mut fmt::Formatter<W>,
    name: &str,
    set: &B,
) -> fmt::Result
where
    <B as Flags>::Bits: WriteHex,
{
    f.write_str(name)?;
    if set.is_empty() {
        return f.write_str("(0x0)");
    }
    f.write_str("(")?;
    to_writer(set, f)?;
    f.write_str(")")
}
