// Errors with spans, and refusals.
use ir_arena::handle::BadHandle;
use ir_arena::span::Span;
use ir_types::refusal::Refusal;
use ir_types::with_span::{SpanContext, WithSpan};
use serde_json::Value;
use std::alloc::{AllocError, AllocFailed, Global};
use std::mem;
use test_support::call::{freeing, list, no_call, number, span, text, told};
use test_support::hog::{Steps, Trial, is_refused_all, is_refused_more_than};

/// An error converted from another.
#[derive(PartialEq, Debug, Drop)]
pub enum Trouble {
    Handle(BadHandle),
    Text(String),
}

impl From<BadHandle> for Trouble {
    fn from(error: BadHandle) -> Self {
        Trouble::Handle(error)
    }
}

// Adds a span with a label, in one of two ways.
fn with<E: Drop>(
    alloc: Global,
    fault: WithSpan<E>,
    context: &Value,
) -> Result<WithSpan<E>, AllocError> {
    let span = span(context, 1);
    let description = text(context, 3);
    if text(context, 0) == "with_span" {
        return kept(fault.with_span(span, description));
    }
    let description = String::from_str(alloc, description)?;
    kept(fault.with_context((span, description)))
}

fn kept<T: Drop>(answer: Result<T, AllocFailed<T>>) -> Result<T, AllocError> {
    match answer {
        Ok(value) => Ok(value),
        Err(_) => Err(AllocError),
    }
}

// An error with the spans of a list.
fn built<E: Drop>(alloc: Global, inner: E, contexts: &[Value]) -> Result<WithSpan<E>, AllocError> {
    let mut fault = WithSpan::new(alloc, inner);
    for context in contexts {
        fault = with(alloc, fault, context)?;
    }
    Ok(fault)
}

// The error of a handle named by a line, with its spans.
fn bad(alloc: Global, call: &Value) -> Result<WithSpan<BadHandle>, AllocError> {
    let index = number(call, 2) as usize;
    let kind = "handle";
    built(alloc, BadHandle { kind, index }, list(call, 3))
}

// The spans of an error, with their labels.
fn spans<E>(alloc: Global, fault: &WithSpan<E>) -> Result<(usize, Vec<(Span, &str)>), AllocError> {
    let mut spans = Vec::new(alloc);
    for context in fault.spans() {
        spans.push(shown(context))?;
    }
    Ok((fault.spans().len(), spans))
}

fn shown(context: &SpanContext) -> (Span, &str) {
    (context.0, context.1.as_str())
}

// An error over a string.
fn of_text(alloc: Global, call: &Value) -> Result<WithSpan<Trouble>, AllocError> {
    let text = String::from_str(alloc, text(call, 4))?;
    built(alloc, Trouble::Text(text), list(call, 5))
}

// An error over a number, converted from one over a string.
fn joined(alloc: Global, call: &Value) -> Result<WithSpan<u32>, AllocError> {
    let made = built(alloc, number(call, 2), list(call, 3))?;
    match of_text(alloc, call) {
        Ok(old) => kept(old.and_then(|_| made)),
        Err(error) => {
            drop(made);
            Err(error)
        }
    }
}

fn see_spans(alloc: Global, call: &Value) -> Result<String, AllocError> {
    let fault = bad(alloc, call)?;
    freeing(told(alloc, (fault.as_inner(), spans(alloc, &fault))), fault)
}

fn see_other(alloc: Global, call: &Value) -> Result<String, AllocError> {
    let other: WithSpan<Trouble> = bad(alloc, call)?.into_other();
    freeing(told(alloc, (spans(alloc, &other), other.as_inner())), other)
}

fn see_joined(alloc: Global, call: &Value) -> Result<String, AllocError> {
    let fault = joined(alloc, call)?;
    freeing(told(alloc, (fault.as_inner(), spans(alloc, &fault))), fault)
}

// Whether a copy equals its source, and the copy.
fn copied(alloc: Global, fault: &WithSpan<BadHandle>) -> Result<String, AllocError> {
    let copy = fault.clone(alloc)?;
    freeing(
        told(
            alloc,
            (copy == *fault, copy.as_inner(), spans(alloc, &copy)),
        ),
        copy,
    )
}

fn see_clone(alloc: Global, call: &Value) -> Result<String, AllocError> {
    let fault = bad(alloc, call)?;
    freeing(copied(alloc, &fault), fault)
}

/// The result of a call on an error with spans.
pub fn of_fault(alloc: Global, call: &Value) -> Result<String, AllocError> {
    match text(call, 1) {
        "spans" => see_spans(alloc, call),
        "into_inner" => told(alloc, bad(alloc, call)?.into_inner()),
        "into_other" => see_other(alloc, call),
        "and_then" => see_joined(alloc, call),
        "clone" => see_clone(alloc, call),
        _ => in_little(alloc, text(call, 1)),
    }
}

fn fault_at(alloc: Global, index: u32) -> Refusal<BadHandle> {
    let index = index as usize;
    let kind = "handle";
    Refusal::from(WithSpan::new(alloc, BadHandle { kind, index }))
}

fn of_memory() -> Refusal<BadHandle> {
    Refusal::from(AllocError)
}

fn of_dropped() -> Refusal<Trouble> {
    Refusal::from(AllocFailed { value: 7u8 })
}

// Whether the refusals of two handles are equal.
fn are_equal(alloc: Global, call: &Value) -> bool {
    let left = fault_at(alloc, number(call, 2));
    let right = fault_at(alloc, number(call, 3));
    let answer = left == right;
    drop(left);
    drop(right);
    answer
}

// Whether a refusal is out of memory.
fn is_memory(alloc: Global, call: &Value) -> bool {
    let left = fault_at(alloc, number(call, 2));
    freeing(left == Refusal::Memory(AllocError), left)
}

/// The result of a call on a refusal.
pub fn of_refusal(alloc: Global, call: &Value) -> Result<String, AllocError> {
    match text(call, 1) {
        "memory" => told(alloc, of_memory()),
        "dropped" => told(alloc, of_dropped()),
        "equal" => told(alloc, are_equal(alloc, call)),
        "is_memory" => told(alloc, is_memory(alloc, call)),
        _ => no_call(alloc),
    }
}

// How a span is added to an error.
#[derive(Clone, Copy)]
enum Way {
    Text,
    Context,
    Other,
}

// An error to which a span is added with little memory.
#[derive(Drop)]
struct Adding {
    way: Way,
    fault: WithSpan<BadHandle>,
    text: String,
    old: WithSpan<u32>,
}

// The error after a span was added, or unchanged. Returns whether the allocation failed.
fn left(
    answer: Result<WithSpan<BadHandle>, AllocFailed<WithSpan<BadHandle>>>,
    place: &mut WithSpan<BadHandle>,
) -> bool {
    match answer {
        Ok(fault) => {
            *place = fault;
            false
        }
        Err(refused) => {
            *place = refused.value;
            true
        }
    }
}

const fn bad_handle() -> BadHandle {
    BadHandle {
        kind: "type",
        index: 4,
    }
}

fn old(alloc: Global) -> Result<WithSpan<u32>, AllocError> {
    kept(WithSpan::new(alloc, 4u32).with_span(Span::new(1, 2), "old"))
}

impl Trial for Adding {
    fn begin(&mut self, alloc: Global) -> Result<(), AllocError> {
        self.fault = WithSpan::new(alloc, bad_handle());
        self.text = String::from_str(alloc, "old")?;
        self.old = old(alloc)?;
        Ok(())
    }

    fn is_refused(&mut self, alloc: Global) -> bool {
        let fault = mem::replace(&mut self.fault, WithSpan::new(alloc, bad_handle()));
        let answer = match self.way {
            Way::Text => fault.with_span(Span::new(1, 2), "a text that is longer than a short one"),
            Way::Context => {
                let text = mem::replace(&mut self.text, String::new(alloc));
                fault.with_context((Span::new(3, 4), text))
            }
            Way::Other => {
                let old = mem::replace(&mut self.old, WithSpan::new(alloc, 0));
                old.and_then(|_| fault)
            }
        };
        left(answer, &mut self.fault)
    }

    fn is_right(&mut self, refused: bool) -> bool {
        let due = if refused { 0 } else { 1 };
        self.fault.spans().len() == due && *self.fault.as_inner() == bad_handle()
    }
}

fn new_adding(alloc: Global, way: Way) -> Adding {
    Adding {
        way,
        fault: WithSpan::new(alloc, bad_handle()),
        text: String::new(alloc),
        old: WithSpan::new(alloc, 0),
    }
}

// Whether adding a span fails more than once.
fn more_than_once<T: Trial + Drop>(alloc: Global, trial: T) -> Result<String, AllocError> {
    let steps = Steps {
        most: 300,
        more: 32,
        spare: 0,
    };
    let mut trial = trial;
    freeing(
        told(alloc, is_refused_more_than(alloc, 1, steps, &mut trial)),
        trial,
    )
}

// Whether adding a span fails without free memory.
fn without_memory<T: Trial + Drop>(alloc: Global, trial: T) -> Result<String, AllocError> {
    let mut trial = trial;
    freeing(told(alloc, is_refused_all(alloc, &mut trial)), trial)
}

// The same for a named call.
fn in_little(alloc: Global, name: &str) -> Result<String, AllocError> {
    match name {
        "with_span in little memory" => more_than_once(alloc, new_adding(alloc, Way::Text)),
        "with_context without memory" => without_memory(alloc, new_adding(alloc, Way::Context)),
        "and_then without memory" => without_memory(alloc, new_adding(alloc, Way::Other)),
        _ => no_call(alloc),
    }
}
