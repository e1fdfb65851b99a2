// The location in a document of the item that an error concerns.

ghost use Rattle.std.specs.Prelude.{◌≡◌, IfOk, IfSome, take};
ghost use Rattle.serde_json.specs.View.{view};
ghost use Rattle.check_places.specs.Leading.{Leads, lead_length as length_leading};
ghost use Rattle.check_places.specs.Placed.{site_path};

use crate::body_place::{BodyPlace, place_path, steps_of};
use crate::handles::{Target, find_range, find_target};
use crate::walk::{Search, find_statement};
use check_faults::document::{along, at};
use serde_json::Value;
use std::alloc::{AllocError, Global};

/// The location of an error.
#[derive(Clone, Copy)]
pub enum Site<'a> {
    /// In a body.
    Body(BodyPlace<'a>),
    /// At the part of the document at this path, from the outermost inward.
    Part(&'a [usize]),
    /// At the statement of a body that evaluates an expression.
    Brought(Brought<'a>),
    /// At the invalid handle.
    Handle(Target),
    /// At the `Emit` of a range of expressions, from the first index up to, but without, the second.
    Range(usize, usize),
}

/// An expression that a statement of a body brings into scope.
#[derive(Clone, Copy)]
pub struct Brought<'a> {
    /// The path of the array of the body's statements, from the outermost inward.
    pub body: &'a [usize],
    /// The expression.
    pub expression: usize,
    /// The part of the document to use if there is no such statement.
    pub part: &'a [usize],
}

/// The type of an expression.
#[derive(Drop)]
pub struct OperandType {
    /// As text.
    pub text: String,
    /// Its index among the types, or that of its pointer base, if it has one.
    pub index: Option<usize>,
}

/// The details of an invalid document: the failing step, the item, the location of the error and the requirement.
#[derive(Clone, Copy)]
pub struct Refusal<'a> {
    /// The whole document.
    pub document: &'a Value,
    /// The name of the step, as in the verdict.
    pub step: &'a str,
    /// The index of the item.
    pub index: usize,
    /// The types of the expressions of the function or of the global expressions, as far as they are known.
    pub types: &'a [OperandType],
    /// The location of the error.
    pub site: Site<'a>,
    /// The requirement; empty for errors of handles.
    pub required: &'a str,
}

// The length of the longest prefix of a path that leads to a part of the document.
fn lead_length(document: &Value, path: &[u32]) -> usize
    ensures { result ≡ length_leading path.now (view document.now) }
{
    let mut found = document;
    let mut count: usize = 0;
    for step in path {
        match at(found, *step as usize) {
            Some(part) => found = part,
            None => return count,
        }
        count = count.saturating_add(1);
    }
    count
}

// The path to an invalid handle. The error is out of memory.
fn target_path(alloc: Global, document: &Value, target: &Target) -> Result<Vec<u32>, AllocError> {
    let mut path = Vec::new(alloc);
    find_target(document, target, &mut path)?;
    Ok(path)
}

// The path to the `Emit` of a range. The error is out of memory.
fn range_path(
    alloc: Global,
    document: &Value,
    first: usize,
    end: usize,
) -> Result<Vec<u32>, AllocError> {
    let mut path = Vec::new(alloc);
    let _ = find_range(first, end, document, &mut path)?;
    Ok(path)
}

// The path to the first statement of a body that evaluates an expression, or to the given part if there is none. The error is
// out of memory.
fn brought_path(
    alloc: Global,
    document: &Value,
    brought: &Brought<'_>,
) -> Result<Vec<u32>, AllocError> {
    let mut path = steps_of(alloc, brought.body)?;
    if let Some(body) = along(document, brought.body) {
        if find_statement(Search::Brings(brought.expression), body, &mut path)? {
            return Ok(path);
        }
    }
    steps_of(alloc, brought.part)
}

// The path to an error's location, which may be longer than the document's nesting. The error is out of memory.
fn path_of_site(alloc: Global, document: &Value, site: &Site<'_>) -> Result<Vec<u32>, AllocError>
    ensures { IfSome (site_path site.now) (λ whole. IfOk result (λ path. path.items ≡ whole)) }
{
    match site {
        Site::Body(place) => place_path(alloc, *place),
        Site::Part(indexes) => steps_of(alloc, indexes),
        Site::Brought(brought) => brought_path(alloc, document, brought),
        Site::Handle(target) => target_path(alloc, document, target),
        Site::Range(first, end) => range_path(alloc, document, *first, *end),
    }
}

/// The path of indices to the error's location, from the outermost inward: always to a part of the document. For an error
/// in a body, or at a part, it is the location's path, as far as the document has it. The error is out of memory.
#[tactic(auto, using(crate::proofs::Leading::leads))]
pub fn path_of(alloc: Global, refusal: &Refusal<'_>) -> Result<Vec<u32>, AllocError>
    ensures leads { IfOk result (λ path. Leads path.items (view refusal.now.document.now)) }
    ensures placed { IfSome (site_path refusal.now.site) (λ whole. IfOk result (λ path. path.items ≡ take (length_leading whole (view refusal.now.document.now)) whole)) }
{
    let mut path = path_of_site(alloc, refusal.document, &refusal.site)?;
    let count = lead_length(refusal.document, &path);
    path.truncate(count);
    Ok(path)
}
