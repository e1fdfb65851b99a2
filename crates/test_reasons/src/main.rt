//! Results for the cases on standard input: first documents, each invalid for a known reason, then WGSL texts and SPIR-V modules.
//!
//! A line of the first part is the path of the fault, a tab, and the document; the program prints how often the reported path
//! leads to the fault. `try_reasons.py --write` of crates/test_cases makes these lines. Each text of the second part stands after
//! a line `==== NAME`, for its verdict and report, `==== NAME --explain`, for its diagnostic, `==== NAME --json`, for the JSON
//! object of that, or `==== NAME --leaves`, for its buffers with their leaves. After `==== NAME --spirv` and `==== NAME --spirv
//! --leaves` stand the words of a module as numbers. `make_modules.py` writes the modules.
#![tactic(auto)]

mod measure;
mod modules;
mod wgsl;

use anyhow::{Result, bail};
use check_ports::{Source, TakeError};
use measure::Measured;
use std::str::from_utf8;

// The maximum number of bytes read.
const MAX_TAKEN: usize = 16_777_216;

// Prints the results for all documents, and for all texts after them.
fn answer_all(rt: &HostRuntime, input: &str) -> Result<()> {
    let (documents, texts) = match input.split_once(wgsl::HEAD) {
        Some(both) => both,
        None => (input, ""),
    };
    let mut measured = Measured::new();
    measured.read_all(rt.alloc(), documents)?;
    println!(rt; "{measured}")?;
    wgsl::answer_all(rt, texts)?;
    Ok(())
}

fn main(rt: HostRuntime) -> Result<()> {
    let mut source = Source::new(rt.reader());
    let bytes = match source.take_all(rt.alloc(), MAX_TAKEN) {
        Ok(bytes) => bytes,
        Err(TakeError::Memory) => bail!("no memory"),
        Err(TakeError::Read) => bail!("standard input cannot be read"),
    };
    let done = answer_all(&rt, from_utf8(&bytes).unwrap_or(""));
    drop(bytes);
    done
}
