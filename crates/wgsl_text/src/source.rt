// Input checks.
ghost use Rattle.std.specs.Prelude.{◌≤◌, length, IfOk};
ghost use Rattle.std.specs.Str.{IsUtf8};

use crate::error::{Extent, WgslError};

/// The maximum length of a text, in bytes.
pub const MAX_LEN: usize = 16777216;

/// Checks that bytes are a text. The error is that there are too many, or that they are not UTF-8.
pub fn check_source(bytes: &[u8]) -> Result<(), WgslError>
    ensures few { IfOk result (λ _. length bytes.now ≤ 16777216) }
    ensures utf8 { IfOk result (λ _. IsUtf8 bytes.now) }
{
    if bytes.len() > MAX_LEN {
        return Err(WgslError::unsupported("a text of more than 16777216 bytes", Extent::NONE));
    }
    match str::from_utf8(bytes) {
        Ok(_) => Ok(()),
        Err(_) => Err(WgslError::malformed("the text is not UTF-8", Extent::NONE)),
    }
}
