// The results for SPIR-V modules, whose words stand as numbers.

use check_explanation::{Requested, check_spirv, error_text, explain_spirv};
use std::alloc::{AllocError, Global};
use std::io;

// The bytes of a module.
fn bytes_of(alloc: Global, words: &str) -> Result<Vec<u8>, AllocError> {
    let mut bytes = Vec::new(alloc);
    for word in words.split_whitespace() {
        if let Ok(number) = word.parse::<u32>() {
            for byte in number.to_le_bytes() {
                bytes.push(byte)?;
            }
        }
    }
    Ok(bytes)
}

// The verdict on a module and its report, or its buffers with their leaves.
fn answer_of(alloc: Global, bytes: &[u8], has_leaves: bool) -> Result<String, AllocError> {
    if !has_leaves {
        return Ok(check_spirv(alloc, bytes)?.text);
    }
    match explain_spirv(alloc, Requested::Leaves, bytes) {
        Ok(found) => {
            let text = found.explanation.listing(alloc);
            drop(found);
            text
        }
        Err(error) => error_text(alloc, bytes, &error),
    }
}

/// Prints the verdict on a module and its report, or its buffers with their leaves.
pub fn print_module(rt: &HostRuntime, words: &str, has_leaves: bool) -> io::Result<()> {
    let alloc = rt.alloc();
    match bytes_of(alloc, words) {
        Ok(bytes) => {
            let answer = answer_of(alloc, &bytes, has_leaves);
            drop(bytes);
            match answer {
                Ok(text) => print!(rt; "{text}"),
                Err(_) => println!(rt; "out of memory"),
            }
        }
        Err(_) => println!(rt; "out of memory"),
    }
}
