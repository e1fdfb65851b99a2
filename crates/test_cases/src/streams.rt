// Checks with readers and writers that fail at one of their calls, at each in turn.
use crate::check::{Checked, check};
use crate::rows::Row;
use shader_check::Fault;
use std::alloc::Global;
use test_support::call::freeing;
use test_support::fakes::{Bad, Page, Script, plain};

/// More than the calls that a reader gets.
const MOST_READS: u64 = 2000;

/// More than the calls that a writer gets.
const MOST_WRITES: u64 = 100;

// The outcome of a check.
#[derive(Clone, Copy, PartialEq, Eq, Debug)]
enum Outcome {
    /// The expected error, with its marks.
    Fault,
    /// The expected result without a failure.
    Met,
    /// Anything else.
    Other,
}

fn judged(fault: bool, met: bool) -> Outcome {
    if fault {
        Outcome::Fault
    } else if met {
        Outcome::Met
    } else {
        Outcome::Other
    }
}

// The outcome for a reader. The mark is set at an error and if a call was interrupted; nothing is written after an error.
fn read_once(alloc: Global, row: Row<'_>, script: Script<'_>) -> Outcome {
    let halting = script.halting;
    let mut written: Vec<u8> = Vec::new(alloc);
    let checked = check(alloc, script, &mut written);
    let is_fault = checked.answer == Err(Fault::Read) && checked.read_failed && written.is_empty();
    let is_met = checked.read_failed == halting && row.is_met(checked.answer, &written);
    let outcome = judged(
        is_fault && !checked.write_failed,
        is_met && !checked.write_failed,
    );
    freeing(outcome, written)
}

/// At how many calls a reader may fail before a check succeeds, each with its error; `None` for any other outcome.
pub fn reader_fails(alloc: Global, row: Row<'_>, step: usize, halting: bool) -> Option<u64> {
    for bad_call in 1..MOST_READS {
        let script = Script {
            rest: row.input.as_bytes(),
            step,
            calls: 0,
            bad_call,
            halting,
        };
        match read_once(alloc, row, script) {
            Outcome::Fault => {}
            Outcome::Met => return Some(bad_call.saturating_sub(1)),
            Outcome::Other => return None,
        }
    }
    None
}

/// How often a reader that returns a byte per call is called, if the outcome is the expected one.
pub fn reader_calls(alloc: Global, row: Row<'_>) -> Option<u64> {
    let mut written: Vec<u8> = Vec::new(alloc);
    let mut script = plain(row.input, 1);
    let checked = check(alloc, &mut script, &mut written);
    let failed = checked.read_failed || checked.write_failed;
    let is_met = freeing(row.is_met(checked.answer, &written), written);
    if is_met && !failed {
        Some(script.calls)
    } else {
        None
    }
}

// Whether the output is a proper prefix of the expected text, and the writer was not called after the call that failed.
fn is_prefix(row: Row<'_>, page: &Page) -> bool {
    let after_bad = if page.bad == Bad::TakesOneThenFails {
        1
    } else {
        0
    };
    row.expected.as_bytes().starts_with(&page.held)
        && page.held.len() < row.expected.len()
        && page.calls.checked_sub(page.bad_call) == Some(after_bad)
}

// The outcome for a writer, with the marks of the reader and the writer.
fn judged_page(row: Row<'_>, page: &Page, checked: Checked) -> Outcome {
    let is_fault = checked.answer == Err(Fault::Write)
        && checked.write_failed
        && is_prefix(row, page);
    let is_met = !checked.write_failed && row.is_met(checked.answer, &page.held);
    judged(
        is_fault && !checked.read_failed,
        is_met && !checked.read_failed,
    )
}

fn write_once(alloc: Global, row: Row<'_>, step: usize, bad_call: u64, bad: Bad) -> Outcome {
    let mut page = Page {
        held: Vec::new(alloc),
        step,
        calls: 0,
        bad_call,
        bad,
    };
    let checked = check(alloc, plain(row.input, 4), &mut page);
    freeing(judged_page(row, &page, checked), page)
}

/// At how many calls a writer may fail before a check succeeds, each with its error; `None` for any other outcome.
pub fn writer_fails(alloc: Global, row: Row<'_>, step: usize, bad: Bad) -> Option<u64> {
    for bad_call in 1..MOST_WRITES {
        match write_once(alloc, row, step, bad_call, bad) {
            Outcome::Fault => {}
            Outcome::Met => return Some(bad_call.saturating_sub(1)),
            Outcome::Other => return None,
        }
    }
    None
}
