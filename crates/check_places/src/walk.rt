// Search for a statement of a body, in validation order.

use crate::body_place::step;
use check_faults::document::{at, number_at, parts, word};
use check_faults::forms::{Names, answers_by, does_name, statement_parts};
use serde_json::Value;
use std::alloc::AllocError;

/// The property of the statement that is searched for.
#[derive(Clone, Copy)]
pub enum Search {
    /// It emits exactly this range.
    Range(usize, usize),
    /// It references this item of a kind.
    Refers(Names, usize),
    /// It emits this expression, or has it as its result.
    Brings(usize),
}

// The maximum depth of a search: two levels for each block, and JSON nests at most 127 deep.
const DEEPEST: u32 = 256;

fn cases(statement: &Value) -> &[Value] {
    match at(statement, 2) {
        Some(cases) if word(statement) == "Switch" => parts(cases),
        _ => &[],
    }
}

// Whether an `Emit`'s range includes this expression.
fn emits(statement: &Value, wanted: usize) -> bool {
    let first = number_at(statement, 1).unwrap_or(0);
    let end = number_at(statement, 2).unwrap_or(0);
    word(statement) == "Emit" && first <= wanted && wanted < end
}

impl Search {
    // Whether this is the statement searched for.
    fn is_met(self, statement: &Value) -> bool {
        match self {
            Search::Range(first, end) => {
                word(statement) == "Emit"
                    && number_at(statement, 1) == Some(first)
                    && number_at(statement, 2) == Some(end)
            }
            Search::Refers(named, index) => {
                does_name(statement, statement_parts(statement), named, index)
            }
            Search::Brings(index) => emits(statement, index) || answers_by(statement, index),
        }
    }
}

// The nested blocks of a statement other than a switch, by index.
fn blocks(statement: &Value) -> &'static [usize] {
    match word(statement) {
        "Block" => &[1],
        "If" => &[2, 3],
        "Loop" => &[1, 2],
        _ => &[],
    }
}

// Searches the cases of a switch.
#[cycle(finding)]
fn find_in_cases(
    search: Search,
    statement: &Value,
    trail: &mut Vec<u32>,
    depth: u32,
) -> Result<bool, AllocError> {
    if depth == 0 {
        return Ok(false);
    }
    for (index, case) in cases(statement).iter().enumerate() {
        if let Some(body) = at(case, 1) {
            if find(search, body, trail, depth - 1)? {
                trail.extend_from_slice(&[1, step(index), 2])?;
                return Ok(true);
            }
        }
    }
    Ok(false)
}

// Searches the nested blocks of a statement other than a switch.
#[cycle(finding)]
fn find_in_blocks(
    search: Search,
    statement: &Value,
    trail: &mut Vec<u32>,
    depth: u32,
) -> Result<bool, AllocError> {
    if depth == 0 {
        return Ok(false);
    }
    for part in blocks(statement) {
        if let Some(body) = at(statement, *part) {
            if find(search, body, trail, depth - 1)? {
                trail.push(step(*part))?;
                return Ok(true);
            }
        }
    }
    Ok(false)
}

// Searches the statements of a body. Appends the position found to the trail, its last step first.
#[cycle(finding)]
fn find(
    search: Search,
    body: &Value,
    trail: &mut Vec<u32>,
    depth: u32,
) -> Result<bool, AllocError> {
    if depth == 0 {
        return Ok(false);
    }
    for (index, statement) in parts(body).iter().enumerate() {
        let is_found = search.is_met(statement)
            || find_in_blocks(search, statement, trail, depth - 1)?
            || find_in_cases(search, statement, trail, depth - 1)?;
        if is_found {
            trail.push(step(index))?;
            return Ok(true);
        }
    }
    Ok(false)
}

/// Searches the body of a function for a statement, and appends the path of the first one found. The error is out of
/// memory; part of the path may be appended.
pub fn find_statement(
    search: Search,
    body: &Value,
    path: &mut Vec<u32>,
) -> Result<bool, AllocError> {
    let start = path.len();
    let is_found = find(search, body, path, DEEPEST)?;
    if let Some(trail) = path.as_mut_slice().get_mut(start..) {
        trail.reverse();
    }
    Ok(is_found)
}
