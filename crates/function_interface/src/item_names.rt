//! Names of invalid items.

ghost use Rattle.std.specs.Prelude.{◌≡◌, IfOk, option_map, string_bytes};
ghost use Rattle.function_interface.specs.Named.{name_of};

use std::alloc::{AllocError, Global};

/// An owned copy of an item's name, empty if it has none. The error is out of memory.
pub(crate) fn name_of(alloc: Global, name: &Option<String>) -> Result<String, AllocError>
    ensures { IfOk result (λ copy. string_bytes copy ≡ name_of (option_map string_bytes name.now)) }
{
    match name {
        Some(name) => String::from_str(alloc, name.as_str()),
        None => Ok(String::new(alloc)),
    }
}
