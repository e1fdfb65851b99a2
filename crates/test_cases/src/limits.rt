// Input longer than a document may be, endless input, and documents of many types.
use crate::check::{Checked, check};
use std::alloc::{AllocError, Global};
use test_support::call::{completed, freeing, push, told};
use test_support::fakes::{Interrupted, Spaces, plain};

// The result, the output, and whether the reader failed.
fn seen(alloc: Global, checked: Checked, written: &[u8], count: u64) -> Result<String, AllocError> {
    let text = std::str::from_utf8(written).unwrap_or("no text");
    told(alloc, (checked.answer, text, checked.read_failed, count))
}

/// The outcome for endless spaces, this many per call, and how many were read.
pub fn past_the_limit(alloc: Global, step: usize) -> Result<String, AllocError> {
    let mut written: Vec<u8> = Vec::new(alloc);
    let mut spaces = Spaces {
        step,
        given: 0,
        calls: 0,
    };
    let checked = check(alloc, &mut spaces, &mut written);
    freeing(seen(alloc, checked, &written, spaces.given), written)
}

/// The outcome for a reader that is interrupted forever, and how often it was called.
pub fn interrupted_for_ever(alloc: Global) -> Result<String, AllocError> {
    let mut written: Vec<u8> = Vec::new(alloc);
    let mut reader = Interrupted { calls: 0 };
    let checked = check(alloc, &mut reader, &mut written);
    freeing(seen(alloc, checked, &written, reader.calls), written)
}

// Appends a scalar type with a name to a string.
fn push_scalar(alloc: Global, text: &mut String, name: u32) -> Result<(), AllocError> {
    push(text, format!(in alloc; "[\"{name}\",[\"Scalar\",\"u32\"]]"))
}

// Appends a document to a string, whose types are one scalar with this many names: the index of each, but for the last.
fn push_document(
    alloc: Global,
    text: &mut String,
    count: u32,
    last: u32,
) -> Result<(), AllocError> {
    text.push_str("[1,[],[],[[],[]],false,[")?;
    for index in 1..count {
        push_scalar(alloc, text, index - 1)?;
        text.push_str(",")?;
    }
    push_scalar(alloc, text, last)?;
    text.push_str("],[null,null,null,[]],[[],null],[],[],[],[],[],[]]")
}

// The outcome for a document.
fn of_document(alloc: Global, text: &str, count: u32) -> Result<String, AllocError> {
    let mut written: Vec<u8> = Vec::new(alloc);
    let checked = check(alloc, plain(text, 4096), &mut written);
    freeing(seen(alloc, checked, &written, u64::from(count)), written)
}

/// The outcome for a document of this many types that differ only in their names, the last with the name of this index.
pub fn named_types(alloc: Global, count: u32, last: u32) -> Result<String, AllocError> {
    let mut text = String::new(alloc);
    let text = completed(push_document(alloc, &mut text, count, last), text)?;
    freeing(of_document(alloc, &text, count), text)
}
