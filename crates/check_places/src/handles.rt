// Search for the first item with a given invalid handle.

use crate::body_place::step;
use crate::walk::{Search, find_statement};
use check_faults::document::{along, at, number_at, parts, word};
use check_faults::forms::{Names, Part, does_name, expression_parts};
use serde_json::Value;
use std::alloc::AllocError;

/// The target of an invalid handle, and the item with the handle, if known.
#[derive(Clone, Copy)]
pub struct Target {
    /// The kind of the target.
    pub named: Names,
    /// Its index.
    pub index: usize,
    /// The index of the item with the handle, if known.
    pub subject: Option<usize>,
    /// Whether the target exists, and the handle is a forward dependency.
    pub is_later: bool,
}

const T: Names = Names::Type;

const E: Names = Names::Expression;

static CONSTANT: [Part; 2] = [(1, T), (2, E)];

static OVERRIDE: [Part; 2] = [(2, T), (3, E)];

static GLOBAL: [Part; 2] = [(3, T), (4, E)];

static ARGUMENT: [Part; 1] = [(1, T)];

static OUTPUT: [Part; 1] = [(0, T)];

static LOCAL: [Part; 2] = [(1, T), (2, E)];

static MESH: [Part; 5] = [(2, E), (4, E), (5, T), (6, T), (7, Names::Global)];

static PAYLOAD: [Part; 1] = [(5, Names::Global)];

static FILTER: [Part; 1] = [(2, Names::Filter)];

static BASE: [Part; 2] = [(1, T), (2, Names::Override)];

static SPECIAL: [Part; 3] = [(0, T), (1, T), (2, T)];

static FUNCTION: [Part; 1] = [(6, Names::Filter)];

impl Target {
    // Whether the item at this index may have the invalid handle.
    fn may_be(&self, index: usize) -> bool {
        match self.subject {
            Some(subject) => subject == index,
            None => true,
        }
    }

    fn is_named(&self, item: &Value, form: &[Part]) -> bool {
        does_name(item, form, self.named, self.index)
    }

    // The index of the first item of a list that references the target in these parts.
    fn found_in(&self, list: Option<&Value>, form: &[Part]) -> Option<usize> {
        for (index, item) in parts(list?).iter().enumerate() {
            if self.may_be(index) && self.is_named(item, form) {
                return Some(index);
            }
        }
        None
    }

    // The same for expressions.
    fn expression_in(&self, list: Option<&Value>) -> Option<usize> {
        for (index, item) in parts(list?).iter().enumerate() {
            let form = expression_parts(item);
            let may_be = self.named != E || self.may_be(index);
            if may_be && self.is_named(item, form) {
                return Some(index);
            }
        }
        None
    }

    fn is_in_inner(&self, inner: &Value) -> bool {
        match word(inner) {
            "Pointer" | "Array" | "BindingArray" => self.is_named(inner, &BASE),
            "Struct" => match at(inner, 1) {
                Some(members) => {
                    let any = Target {
                        named: self.named,
                        index: self.index,
                        subject: None,
                        is_later: self.is_later,
                    };
                    any.found_in(Some(members), &ARGUMENT).is_some()
                }
                None => false,
            },
            _ => false,
        }
    }

    // The same for types.
    fn type_in(&self, document: &Value) -> Option<usize> {
        for (index, item) in parts(at(document, 5)?).iter().enumerate() {
            if let Some(inner) = at(item, 1) {
                if self.may_be(index) && self.is_in_inner(inner) {
                    return Some(index);
                }
            }
        }
        None
    }

    // The list of module-level items for a kind, and its index.
    fn item_in(&self, document: &Value) -> Option<(u32, usize)> {
        if let Some(index) = self.type_in(document) {
            return Some((5, index));
        }
        if self.named == E && !self.may_lack(at(document, 10)) {
            return None;
        }
        if let Some(index) = self.found_in(at(document, 8), &CONSTANT) {
            return Some((8, index));
        }
        if let Some(index) = self.found_in(at(document, 9), &OVERRIDE) {
            return Some((9, index));
        }
        if let Some(index) = self.found_in(at(document, 11), &GLOBAL) {
            return Some((11, index));
        }
        let index = self.expression_in(at(document, 10))?;
        Some((10, index))
    }

    // Whether the target is out of bounds of a list of this length: a handle within bounds is not the invalid one.
    fn may_lack(&self, list: Option<&Value>) -> bool {
        match list {
            Some(list) => self.subject.is_some() || self.index >= parts(list).len(),
            None => false,
        }
    }

    // Whether a function may reference the target.
    fn may_be_in(&self, function: &Value) -> bool {
        match self.named {
            Names::Expression => self.may_lack(at(function, 4)),
            Names::Local => self.may_lack(at(function, 3)),
            Names::Type
            | Names::Constant
            | Names::Override
            | Names::Global
            | Names::Function
            | Names::Filter => true,
        }
    }

    // The list of a function's items for a kind, and its index.
    fn item_of(&self, function: &Value) -> Option<(u32, usize)> {
        if let Some(index) = self.found_in(at(function, 1), &ARGUMENT) {
            return Some((1, index));
        }
        if let Some(index) = self.found_in(at(function, 3), &LOCAL) {
            return Some((3, index));
        }
        let index = self.expression_in(at(function, 4))?;
        Some((4, index))
    }

    // The part of a function that references the target directly.
    fn part_of(&self, function: &Value) -> Option<u32> {
        if let Some(output) = at(function, 2) {
            if self.is_named(output, &OUTPUT) {
                return Some(2);
            }
        }
        if self.is_named(function, &FUNCTION) {
            Some(6)
        } else {
            None
        }
    }
}

// Searches a function, and appends the path of the handle.
fn find_in_function(
    target: &Target,
    function: &Value,
    path: &mut Vec<u32>,
) -> Result<bool, AllocError> {
    if !target.may_be_in(function) {
        return Ok(false);
    }
    if let Some((list, index)) = target.item_of(function) {
        path.extend_from_slice(&[list, step(index)])?;
        return Ok(true);
    }
    if let Some(part) = target.part_of(function) {
        path.push(part)?;
        return Ok(true);
    }
    find_in_body(target, function, path)
}

fn find_in_body(
    target: &Target,
    function: &Value,
    path: &mut Vec<u32>,
) -> Result<bool, AllocError> {
    let search = Search::Refers(target.named, target.index);
    match at(function, 5) {
        Some(body) if target.subject.is_none() || target.named != E => {
            path.push(5)?;
            if find_statement(search, body, path)? {
                return Ok(true);
            }
            path.pop();
            Ok(false)
        }
        Some(_) | None => Ok(false),
    }
}

// Searches all functions, or only the known one if both the item and the target are in functions.
fn find_in_functions(
    target: &Target,
    document: &Value,
    path: &mut Vec<u32>,
) -> Result<bool, AllocError> {
    let Some(functions) = at(document, 12) else {
        return Ok(false);
    };
    let is_one = target.named == Names::Function;
    for (index, function) in parts(functions).iter().enumerate() {
        if is_one && !target.may_be(index) {
            continue;
        }
        path.extend_from_slice(&[12, step(index)])?;
        if find_in_function(target, function, path)? {
            return Ok(true);
        }
        path.clear();
    }
    Ok(false)
}

fn find_in_entry(target: &Target, entry: &Value, path: &mut Vec<u32>) -> Result<bool, AllocError> {
    if target.is_named(entry, &PAYLOAD) {
        path.push(5)?;
        return Ok(true);
    }
    if let Some(mesh) = at(entry, 4) {
        if target.is_named(mesh, &MESH) {
            path.push(4)?;
            return Ok(true);
        }
    }
    match at(entry, 6) {
        Some(function) => {
            path.push(6)?;
            find_in_function(target, function, path)
        }
        None => Ok(false),
    }
}

fn find_in_entries(
    target: &Target,
    document: &Value,
    path: &mut Vec<u32>,
) -> Result<bool, AllocError> {
    let Some(entries) = at(document, 13) else {
        return Ok(false);
    };
    for (index, entry) in parts(entries).iter().enumerate() {
        path.extend_from_slice(&[13, step(index)])?;
        if find_in_entry(target, entry, path)? {
            return Ok(true);
        }
        path.clear();
    }
    Ok(false)
}

// Searches the special types and the diagnostic filters.
fn find_beside(target: &Target, document: &Value, path: &mut Vec<u32>) -> Result<bool, AllocError> {
    if let Some(index) = target.found_in(along(document, &[7, 0]), &FILTER) {
        path.extend_from_slice(&[7, 0, step(index)])?;
        return Ok(true);
    }
    if let Some(special) = at(document, 6) {
        if target.is_named(special, &SPECIAL) {
            path.push(6)?;
            return Ok(true);
        }
    }
    if let Some(index) = target.found_in(along(document, &[6, 3]), &ARGUMENT) {
        path.extend_from_slice(&[6, 3, step(index)])?;
        return Ok(true);
    }
    Ok(false)
}

// Whether the module's diagnostic filter leaf is the target.
fn is_filter_of_module(document: &Value, index: usize) -> bool {
    match at(document, 7) {
        Some(diagnostics) => number_at(diagnostics, 1) == Some(index),
        None => false,
    }
}

// Appends the path of the first item that references the target to an empty path. The error is out of memory.
fn find_item(target: &Target, document: &Value, path: &mut Vec<u32>) -> Result<bool, AllocError> {
    let is_filter = target.named == Names::Filter && target.subject.is_none();
    if is_filter && is_filter_of_module(document, target.index) {
        path.extend_from_slice(&[7, 1])?;
        return Ok(true);
    }
    if let Some((list, index)) = target.item_in(document) {
        path.extend_from_slice(&[list, step(index)])?;
        return Ok(true);
    }
    if find_in_functions(target, document, path)? || find_in_entries(target, document, path)? {
        return Ok(true);
    }
    find_beside(target, document, path)
}

// Searches the bodies of functions, or of entry points, for a range.
fn find_range_in(
    search: Search,
    document: &Value,
    list: usize,
    way: &[usize],
    path: &mut Vec<u32>,
) -> Result<bool, AllocError> {
    let Some(items) = at(document, list) else {
        return Ok(false);
    };
    for (index, item) in parts(items).iter().enumerate() {
        path.extend_from_slice(&[step(list), step(index)])?;
        for part in way {
            path.push(step(*part))?;
        }
        if let Some(body) = along(item, way) {
            if find_statement(search, body, path)? {
                return Ok(true);
            }
        }
        path.clear();
    }
    Ok(false)
}

/// Appends the path of the first `Emit` of this range to an empty path. The error is out of memory.
pub fn find_range(
    first: usize,
    end: usize,
    document: &Value,
    path: &mut Vec<u32>,
) -> Result<bool, AllocError> {
    let search = Search::Range(first, end);
    Ok(
        find_range_in(search, document, 12, &[5], path)?
            || find_range_in(search, document, 13, &[6, 5], path)?,
    )
}

/// Appends the path of the invalid handle to an empty path; or that of the item that is reported to have it.
pub fn find_target(
    document: &Value,
    target: &Target,
    path: &mut Vec<u32>,
) -> Result<(), AllocError> {
    let is_found = find_item(target, document, path)?;
    match target.subject {
        Some(subject) if !is_found => {
            let list = if target.named == Names::Type { 5 } else { 10 };
            path.extend_from_slice(&[list, step(subject)])
        }
        Some(_) | None => Ok(()),
    }
}
