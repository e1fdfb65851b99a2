// Reads standard input as JSON only: the least that any check of a document takes.
use check_ports::Source;
use serde_json::Value;
use std::io;

/// One byte more than the maximum length of a document.
const MOST_BYTES: usize = 16777217;

/// Prints whether standard input is JSON.
pub fn run(rt: &HostRuntime) -> io::Result<()> {
    let mut source = Source::new(rt.reader());
    let is_read = match source.take_all(rt.alloc(), MOST_BYTES) {
        Ok(bytes) => Value::from_slice(rt.alloc(), &bytes).is_ok(),
        Err(_) => false,
    };
    println!(rt; "{}", if is_read { "read" } else { "not read" })
}
