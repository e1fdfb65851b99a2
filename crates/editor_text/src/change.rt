// A change of a text.
ghost use Rattle.std.specs.Prelude.{◌≡◌, ◌≤◌, ◌++◌, length, take, drop, IfOk};

use crate::part::Part;
use std::alloc::{AllocError, Global};

/// The text with a range replaced. The error is out of memory.
pub fn replaced(alloc: Global, text: &[u8], part: Part, by: &[u8]) -> Result<Vec<u8>, AllocError>
    requires { part.end ≤ length text.now }
    ensures { IfOk result (λ new. new.items ≡ take part.start text.now ++ by.now ++ drop part.end text.now) }
{
    let mut new = Vec::new(alloc);
    new.extend_from_slice(&text[..part.start])?;
    new.extend_from_slice(by)?;
    new.extend_from_slice(&text[part.end..])?;
    Ok(new)
}
