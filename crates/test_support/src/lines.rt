//! Programs that make the calls of standard input, one per line, and print the results.

use crate::call::{freeing, no_call};
use serde_json::Value;
use std::alloc::{AllocError, Global};
use std::io;

/// The inputs of a program's calls.
pub trait Answers {
    /// The printed result of a call.
    fn answer(&mut self, alloc: Global, call: &Value) -> Result<String, AllocError>;
}

// The result of a call, or `None` for a string, which is a heading.
fn answered<S: Answers>(
    alloc: Global,
    subject: &mut S,
    call: &Value,
) -> Result<Option<String>, AllocError> {
    if call.is_string() {
        return Ok(None);
    }
    Ok(Some(subject.answer(alloc, call)?))
}

// The same for a line.
fn line_answered<S: Answers>(
    alloc: Global,
    subject: &mut S,
    line: &str,
) -> Result<Option<String>, AllocError> {
    match Value::from_str(alloc, line) {
        Ok(call) => freeing(answered(alloc, subject, &call), call),
        Err(_) => Ok(Some(no_call(alloc)?)),
    }
}

fn print_line<S: Answers>(
    rt: &(impl Print + AllocGlobal),
    subject: &mut S,
    line: &str,
) -> io::Result<()> {
    match line_answered(rt.alloc(), subject, line)? {
        Some(answer) => freeing(println!(rt; "{line} -> {answer}"), answer),
        None => println!(rt; "{line}"),
    }
}

/// Makes the call of each line of standard input, and prints the line with its result. A line that is a string is a heading.
pub fn answer_lines<S: Answers>(
    rt: &(impl Input + Print + AllocGlobal),
    subject: &mut S,
) -> io::Result<()> {
    for line in rt.lines(rt.alloc()) {
        let line = line?;
        freeing(print_line(rt, subject, line.as_str()), line)?;
    }
    Ok(())
}
