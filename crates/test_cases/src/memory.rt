// Checks of documents with little memory, and a little more each time.
use crate::check::{Checked, check};
use crate::rows::Row;
use shader_check::Fault;
use std::alloc::{AllocError, Global};
use test_support::call::{freeing, told};
use test_support::fakes::plain;
use test_support::hog::{Steps, Trial, is_refused_more_than};

/// The free memory at each step.
const STEPS: Steps = Steps {
    most: 600,
    more: 128,
    spare: 0,
};

// A check of a document, its output, and its outcome.
#[derive(Drop)]
struct Checking<'a> {
    row: Row<'a>,
    written: Vec<u8>,
    checked: Checked,
}

impl Trial for Checking<'_> {
    fn begin(&mut self, _alloc: Global) -> Result<(), AllocError> {
        self.written.clear();
        Ok(())
    }

    fn is_refused(&mut self, alloc: Global) -> bool {
        self.checked = check(alloc, plain(self.row.input, 1), &mut self.written);
        self.checked.answer == Err(Fault::Memory)
    }

    // Without free memory, nothing is written. No mark is set.
    fn is_right(&mut self, refused: bool) -> bool {
        let checked = self.checked;
        let is_right = if refused {
            self.written.is_empty()
        } else {
            self.row.is_met(checked.answer, &self.written)
        };
        is_right && !checked.read_failed && !checked.write_failed
    }
}

// Whether a check fails more often than this. It is freed here, where its type is a parameter.
fn of<T: Trial + Drop>(alloc: Global, least: usize, trial: T) -> Result<String, AllocError> {
    let mut trial = trial;
    freeing(
        told(alloc, is_refused_more_than(alloc, least, STEPS, &mut trial)),
        trial,
    )
}

/// Whether the check of a document fails for memory more often than this before its expected output.
pub fn of_row(alloc: Global, row: Row<'_>, least: usize) -> Result<String, AllocError> {
    let checking = Checking {
        row,
        written: Vec::with_capacity(alloc, 64)?,
        checked: Checked {
            answer: Err(Fault::Memory),
            read_failed: false,
            write_failed: false,
        },
    };
    of(alloc, least, checking)
}
