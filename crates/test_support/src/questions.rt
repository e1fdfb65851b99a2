//! Questions about documents with expected results, as lines of a file, and one kind of question: what a call leaves after its
//! allocation failed.

use crate::call::freeing;
use crate::case::Case;
use serde_json::Value;
use std::alloc::{AllocError, Global};
use std::io;

/// Something that answers questions.
pub trait Questions {
    /// The answer to a question about a document.
    fn answer(&self, alloc: Global, question: &str, document: &str) -> Result<String, AllocError>;
}

/// Prints how many cases a file has and how many differ. Returns the latter.
pub fn print_count(
    rt: &impl Print,
    name: &str,
    count: usize,
    differing: usize,
) -> io::Result<usize> {
    println!(rt; "{name}: {count} cases, {differing} differ")?;
    Ok(differing)
}

// Whether a result differs from that of the case; it is then printed.
fn is_other(rt: &impl Print, case: &Case<'_>, answer: &str) -> io::Result<bool> {
    if case.is_right(answer) {
        return Ok(false);
    }
    println!(rt; "{}: not {}, but {answer}", case.name, case.answer)?;
    Ok(true)
}

// Answers the question of a case. Returns whether the result differs.
fn differs<Q: Questions>(
    rt: &(impl Print + AllocGlobal),
    subject: &Q,
    case: &Case<'_>,
) -> io::Result<bool> {
    let answer = subject.answer(rt.alloc(), case.question, case.document)?;
    freeing(is_other(rt, case, &answer), answer)
}

// The same for a line. A line that is not a case differs.
fn line_differs<Q: Questions>(
    rt: &(impl Print + AllocGlobal),
    subject: &Q,
    line: &str,
) -> io::Result<bool> {
    match Value::from_str(rt.alloc(), line) {
        Ok(value) => freeing(differs(rt, subject, &Case::read(&value)), value),
        Err(_) => {
            println!(rt; "no case: {line}")?;
            Ok(true)
        }
    }
}

/// Answers the questions of the lines of a file with this name. Prints and returns how many results differ.
pub fn ask_lines<Q: Questions>(
    rt: &(impl Print + AllocGlobal),
    subject: &Q,
    name: &str,
    text: &str,
) -> io::Result<usize> {
    let mut count = 0usize;
    let mut differing = 0usize;
    for line in text.lines() {
        count = count.saturating_add(1);
        if line_differs(rt, subject, line)? {
            differing = differing.saturating_add(1);
        }
    }
    print_count(rt, name, count, differing)
}

/// The outcome of a call.
#[derive(Clone, Copy, Debug, PartialEq, Eq)]
pub enum Left {
    /// No allocation failed.
    Done,
    /// An allocation failed and nothing had changed; repeated, the call succeeded with the same result.
    AsBefore,
    /// Anything else.
    Changed,
}

/// The outcome of a call, from whether it failed and whether the state afterwards is right.
pub fn came_of(refused: bool, right: bool) -> Left {
    match (refused, right) {
        (false, true) => Left::Done,
        (true, true) => Left::AsBefore,
        (_, false) => Left::Changed,
    }
}
