// The results for WGSL texts and SPIR-V modules.

use crate::modules::print_module;
use check_explanation::Requested;
use check_wgsl::{Cause, Diagnosed, check_wgsl, explain_wgsl, unread_object, unread_text};
use std::alloc::{AllocError, Global};
use std::io;

/// The start of the line before each text.
pub const HEAD: &str = "==== ";

// The text of a diagnostic, or its JSON object.
fn answer_of(
    alloc: Global,
    found: &Diagnosed,
    text: &[u8],
    is_object: bool,
) -> Result<String, AllocError> {
    if is_object {
        found.json(alloc)
    } else {
        found.text(alloc, text, false)
    }
}

// The diagnostic of a text, or its JSON object.
fn diagnostic(alloc: Global, text: &[u8], is_object: bool) -> Result<String, AllocError> {
    match explain_wgsl(alloc, Requested::Report, text) {
        Ok(found) => {
            let answer = answer_of(alloc, &found, text, is_object);
            drop(found);
            answer
        }
        Err(error) => {
            if is_object {
                unread_object(alloc, text, &error)
            } else {
                unread_text(alloc, text, &error)
            }
        }
    }
}

// Prints the diagnostic of a text.
fn print_diagnostic(rt: &HostRuntime, text: &[u8], is_object: bool) -> io::Result<()> {
    match diagnostic(rt.alloc(), text, is_object) {
        Ok(found) => println!(rt; "{found}"),
        Err(_) => println!(rt; "out of memory"),
    }
}

// The buffers of a text with their leaves.
fn listing(alloc: Global, text: &[u8]) -> Result<String, AllocError> {
    match explain_wgsl(alloc, Requested::Leaves, text) {
        Ok(found) => {
            let answer = found.explanation.listing(alloc);
            drop(found);
            answer
        }
        Err(error) if matches!(error.cause, Cause::Memory) => Err(AllocError),
        Err(error) => unread_text(alloc, text, &error),
    }
}

// Prints the buffers of a text with their leaves.
fn print_listing(rt: &HostRuntime, text: &[u8]) -> io::Result<()> {
    match listing(rt.alloc(), text) {
        Ok(found) => print!(rt; "{found}"),
        Err(_) => println!(rt; "out of memory"),
    }
}

// Prints the verdict on a text and its report.
fn print_verdict(rt: &HostRuntime, text: &[u8]) -> io::Result<()> {
    match check_wgsl(rt.alloc(), text) {
        Ok(answer) => {
            let written = print!(rt; "{}", answer.text);
            drop(answer);
            written
        }
        Err(_) => println!(rt; "out of memory"),
    }
}

// Prints the result for a text under its line.
fn answer(rt: &HostRuntime, part: &str) -> io::Result<()> {
    let (head, text) = match part.split_once('\n') {
        Some(both) => both,
        None => (part, ""),
    };
    println!(rt; "{HEAD}{head}")?;
    if head.ends_with(" --explain") {
        print_diagnostic(rt, text.as_bytes(), false)
    } else if head.ends_with(" --json") {
        print_diagnostic(rt, text.as_bytes(), true)
    } else if head.ends_with(" --spirv") {
        print_module(rt, text, false)
    } else if head.ends_with(" --spirv --leaves") {
        print_module(rt, text, true)
    } else if head.ends_with(" --leaves") {
        print_listing(rt, text.as_bytes())
    } else {
        print_verdict(rt, text.as_bytes())
    }
}

/// Prints the results for all texts and modules, each after the name in its first line.
pub fn answer_all(rt: &HostRuntime, input: &str) -> io::Result<()> {
    for part in input.split(HEAD) {
        if !part.is_empty() {
            answer(rt, part)?;
        }
    }
    Ok(())
}
