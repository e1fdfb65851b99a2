// Runs the check with failing readers and writers, with endless input, with little memory and on documents for the results of
// programs, and the rules of functions over the small layer.
//
// A line is a list: the call, a document with its expected line, and the inputs of the call.
use crate::rows::{Answer, Row};
use crate::{layer_judged, limits, memory, streams};
use serde_json::Value;
use shader_check::{Fault, Verdict, outcome};
use std::alloc::{AllocError, Global};
use test_support::call::{no_call, number, text, told};
use test_support::fakes::Bad;

// The result of a check that a line names.
fn answer_of(word: &str) -> Answer {
    match word {
        "accepted" => Ok(Verdict::Accepted),
        "refused" => Ok(Verdict::Refused),
        "memory" => Err(Fault::Memory),
        "read" => Err(Fault::Read),
        _ => Err(Fault::Write),
    }
}

fn bad(word: &str) -> Bad {
    match word {
        "fails" => Bad::Fails,
        "interrupted" => Bad::Interrupted,
        "takes_nothing" => Bad::TakesNothing,
        _ => Bad::TakesOneThenFails,
    }
}

/// The result of a call of a check.
pub fn answer(alloc: Global, call: &Value) -> Result<String, AllocError> {
    let step = number(call, 3) as usize;
    let word = text(call, 4);
    match text(call, 0) {
        "reader" => told(
            alloc,
            streams::reader_fails(alloc, Row::of(call), step, word == "halting"),
        ),
        "reader_calls" => told(alloc, streams::reader_calls(alloc, Row::of(call))),
        "writer" => told(
            alloc,
            streams::writer_fails(alloc, Row::of(call), step, bad(word)),
        ),
        "past_the_limit" => limits::past_the_limit(alloc, number(call, 1) as usize),
        "named_types" => limits::named_types(alloc, number(call, 1), number(call, 2)),
        "interrupted_for_ever" => limits::interrupted_for_ever(alloc),
        "little_memory" => memory::of_row(alloc, Row::of(call), step),
        "layer" => layer_judged::of_document(alloc, text(call, 1)),
        "outcome" => told(alloc, outcome(&answer_of(text(call, 1)))),
        _ => no_call(alloc),
    }
}
