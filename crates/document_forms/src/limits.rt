// The greatest numbers that are decoded, and the greatest nesting depth.

/// The greatest nesting depth of the JSON reader.
pub const MAX_DEPTH: usize = 127;

/// The greatest handle.
pub const MAX_HANDLE: u64 = 4294967294;

/// The greatest 8-bit unsigned integer.
pub const MAX_U8: u64 = 255;

/// The greatest 16-bit unsigned integer.
pub const MAX_U16: u64 = 65535;

/// The greatest 32-bit unsigned integer.
pub const MAX_U32: u64 = 4294967295;

/// The greatest 64-bit unsigned integer.
pub const MAX_U64: u64 = 18446744073709551615;

/// The greatest 16-bit signed integer.
pub const MAX_I16: u64 = 32767;

/// The greatest 32-bit signed integer.
pub const MAX_I32: u64 = 2147483647;

/// The greatest 64-bit signed integer.
pub const MAX_I64: u64 = 9223372036854775807;
