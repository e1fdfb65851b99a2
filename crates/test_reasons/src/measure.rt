// How often the reported path leads to a known fault: over lines with the path of the fault, a tab, and the document that is
// invalid for it.

use check_explanation::{DocumentError, Explanation, Requested, explain};
use check_faults::document::{at, number, parts};
use serde_json::Value;
use std::alloc::{AllocError, Global};
use std::fmt::{self, Display};

/// The number of invalid documents, and of those whose path leads to the fault, or to a part that references the item with the
/// fault.
#[derive(Clone, Copy)]
pub struct Measured {
    refused: usize,
    leading: usize,
    naming: usize,
}

// The number at an index of a path.
fn slip_at(slip: &str, place: usize) -> Option<u32> {
    match slip.split(' ').nth(place) {
        Some(word) => word.parse::<u32>().ok(),
        None => None,
    }
}

// Whether the two paths start with the same steps, this many.
fn same(path: &[u32], slip: &str, count: usize) -> bool {
    for place in 0..count {
        let step = path.get(place).copied();
        if step.is_none() || step != slip_at(slip, place) {
            return false;
        }
    }
    true
}

// Whether the fault is in the part that the path leads to, or around it.
fn leads(path: &[u32], slip: &str) -> bool {
    let count = slip.split(' ').count().min(path.len());
    count > 0 && same(path, slip, count)
}

// Whether a number is in a value, at most this deep.
fn has_number(value: &Value, wanted: usize, depth: u32) -> bool {
    if number(value) == Some(wanted) {
        return true;
    }
    if depth == 0 {
        return false;
    }
    for part in parts(value) {
        if has_number(part, wanted, depth - 1) {
            return true;
        }
    }
    false
}

// Whether a part references the item with the fault, by its list and its index at these indices of the path.
fn names_item(part: &Value, slip: &str, place: usize) -> bool {
    match slip_at(slip, place.saturating_add(1)) {
        Some(index) => has_number(part, index as usize, 3),
        None => false,
    }
}

// The part of a document that a path leads to.
fn part_at<'a>(document: &'a Value, path: &[u32]) -> Option<&'a Value> {
    let mut found = document;
    for step in path {
        found = at(found, *step as usize)?;
    }
    Some(found)
}

// Whether the part that the path leads to references the item with the fault.
fn names(document: &Value, path: &[u32], slip: &str) -> bool {
    let Some(part) = part_at(document, path) else {
        return false;
    };
    if matches!(slip_at(slip, 0), Some(5 | 8..=12)) && names_item(part, slip, 0) {
        return true;
    }
    let inside = match path.first() {
        Some(12) => 2,
        Some(13) => 3,
        _ => return false,
    };
    same(path, slip, inside)
        && matches!(slip_at(slip, inside), Some(1 | 3 | 4))
        && names_item(part, slip, inside)
}

// The path to the invalid item.
fn path_of(explanation: &Explanation) -> &[u32] {
    match explanation {
        Explanation::Refused(_, item) => &item.path,
        Explanation::NoDocument(DocumentError::Malformed { place, .. }, _) => place.steps(),
        Explanation::NoDocument(
            DocumentError::Memory | DocumentError::TooLong | DocumentError::NotJson { .. },
            _,
        )
        | Explanation::Accepted { .. } => &[],
    }
}

impl Measured {
    /// Empty counts.
    pub fn new() -> Measured {
        Measured {
            refused: 0,
            leading: 0,
            naming: 0,
        }
    }

    // Counts the explanation of a document, if it is invalid.
    fn note(
        &mut self,
        alloc: Global,
        slip: &str,
        text: &str,
        explanation: &Explanation,
    ) -> Result<(), AllocError> {
        if let Explanation::Accepted { .. } = explanation {
            return Ok(());
        }
        self.refused = self.refused.saturating_add(1);
        let path = path_of(explanation);
        if leads(path, slip) {
            self.leading = self.leading.saturating_add(1);
            return Ok(());
        }
        match Value::from_str(alloc, text) {
            Ok(document) => {
                let is_named = names(&document, path, slip);
                drop(document);
                self.naming = self.naming.saturating_add(usize::from(is_named));
                Ok(())
            }
            Err(error) if error.is_memory() => Err(AllocError),
            Err(_) => Ok(()),
        }
    }

    // Explains the document of a line.
    fn read(&mut self, alloc: Global, line: &str) -> Result<(), AllocError> {
        let Some((slip, text)) = line.split_once('\t') else {
            return Ok(());
        };
        match explain(alloc, Requested::Nothing, text.as_bytes()) {
            Ok(explanation) => {
                let noted = self.note(alloc, slip, text, &explanation);
                drop(explanation);
                noted
            }
            Err(memory) => Err(memory),
        }
    }

    /// Explains the document of each line. The error is out of memory.
    pub fn read_all(&mut self, alloc: Global, text: &str) -> Result<(), AllocError> {
        for line in text.lines() {
            self.read(alloc, line)?;
        }
        Ok(())
    }
}

impl Display for Measured {
    fn fmt<W: fmt::Write>(&self, f: &mut fmt::Formatter<W>) -> fmt::Result {
        let (refused, leading, naming) = (self.refused, self.leading, self.naming);
        let good = leading.saturating_add(naming);
        let share = good.saturating_mul(1000) / refused.max(1);
        write!(
            f,
            "{refused} refused by one slip: {leading} paths lead to it, {naming} to what names it; {share} in 1000"
        )
    }
}
