// Keyed hashers. The expected values come from a separate SipHash-1-3, which gives the published values of that function.
use ir_sets::keyed::KeyedState;
use std::hash::{BuildHasher, Hasher};
use std::io;

// The hash of bytes under a key.
fn hashed(state: &KeyedState, bytes: &[u8]) -> u64 {
    let mut hasher = state.build_hasher();
    hasher.write(bytes);
    hasher.finish()
}

fn tell(rt: &impl Print, what: &str, state: &KeyedState) -> io::Result<()> {
    let (none, one) = (hashed(state, b""), hashed(state, b"x"));
    println!(rt; "hashed under {what} {none} {one}")
}

/// Hashes under keys of two numbers and of bytes.
pub fn run(rt: &impl Print) -> io::Result<()> {
    tell(rt, "1 and 2", &KeyedState::with_keys(1, 2))?;
    tell(rt, "no bytes", &KeyedState::of_bytes(b""))?;
    tell(rt, "three bytes", &KeyedState::of_bytes(b"abc"))
}
