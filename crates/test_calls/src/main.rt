//! Calls each public function of the plain types and the sets of flags, makes the calls on arenas, sets of handles, errors,
//! types and IR items that standard input lists, prints the results, and then looks up the overload sets of all math functions
//! named by data/overloads.json.
//!
//! A line is a list: the subject (`"numbers"`, `"tagged"` or `"texts"` and then the container, or a span, a number, an error or
//! a refusal), the call, and its inputs; or a call on items, and its inputs in the form of a document; or a call on types, and
//! its inputs: a type is in the form of a document, with its name, or the number of its handle. The result stands beside the
//! line. A line that is a string is a heading.
//!
//! With the word `json` it only reads standard input as JSON, and with `sets` it only builds an overload set for each byte of
//! it, both for measurements; without a word it does both last, with the rest of the input.
#![tactic(auto)]

mod arenas;
mod compared;
mod conclusions;
mod given;
mod handles;
mod item;
mod json_alone;
mod overload_alone;
mod overloads;
mod parts;
mod scalars;
mod sets;
mod subject;
mod type_calls;
mod unique_arenas;

use anyhow::Result;
use item::{Number, Tag};
use serde_json::Value;
use std::alloc::{AllocError, Global};
use std::{env, io};
use subject::Subject;
use test_support::call::{freeing, text};
use test_support::lines::{Answers, answer_lines};
use test_support::without_memory;
use type_calls::TypeCalls;
use typing_forms::rule_laws::{
    canonical_once, compare_reflexive, compare_symmetric, compare_transitive,
};

/// The calls on items.
const ITEMS: &str =
    "type types literal expression special_types block statements returns emitter search origin composition composition_in_little context lists document in_little constant override global filter body function entry module";

/// The subjects of calls.
#[derive(Drop)]
struct Subjects {
    numbers: Subject<u32, Number>,
    tagged: Subject<u32, Tag>,
    texts: Subject<String, Tag>,
    types: TypeCalls,
}

impl Subjects {
    fn new(alloc: Global) -> Self {
        Subjects {
            numbers: Subject::new(alloc),
            tagged: Subject::new(alloc),
            texts: Subject::new(alloc),
            types: TypeCalls::new(alloc),
        }
    }
}

impl Answers for Subjects {
    fn answer(&mut self, alloc: Global, call: &Value) -> Result<String, AllocError> {
        match text(call, 0) {
            "numbers" => self.numbers.answer(alloc, call),
            "tagged" => self.tagged.answer(alloc, call),
            "texts" => self.texts.answer(alloc, call),
            "span" => test_items::of_span(alloc, call),
            "number" => test_items::of_number(alloc, call),
            "range_copy" => handles::of_copy(alloc, call),
            "fault" => test_kinds::of_fault(alloc, call),
            "refusal" => test_kinds::of_refusal(alloc, call),
            "rules_left" => overload_alone::rules_after(alloc, text(call, 1)),
            "without_memory" => without_memory(alloc, text(call, 1)),
            word if is_of_items(word) => test_items::answer(alloc, call),
            _ => self.types.answer(alloc, call),
        }
    }
}

// Whether a call is one on items.
fn is_of_items(word: &str) -> bool {
    ITEMS.split(' ').any(|item| item == word)
}

// Frees the subjects where their type is a parameter.
fn answer_all<S: Answers + Drop>(rt: &HostRuntime, subjects: S) -> io::Result<()> {
    let mut subjects = subjects;
    freeing(answer_lines(rt, &mut subjects), subjects)
}

// Makes all calls, those of laws of types for callers too, and both measurements on the rest of the input.
fn make_calls(rt: &HostRuntime) -> io::Result<()> {
    compare_reflexive();
    compare_symmetric();
    compare_transitive();
    canonical_once();
    test_kinds::print_all(rt)?;
    test_items::print_hashes(rt)?;
    answer_all(rt, Subjects::new(rt.alloc()))?;
    overload_alone::run(rt)?;
    json_alone::run(rt)
}

// What a word names, or all without one.
fn run(rt: &HostRuntime, word: &str) -> Result<()> {
    match word {
        "json" => Ok(json_alone::run(rt)?),
        "sets" => Ok(overload_alone::run(rt)?),
        _ => {
            make_calls(rt)?;
            overloads::run(rt)
        }
    }
}

fn main(rt: HostRuntime) -> Result<()> {
    let word = env::args(&rt)?.nth(1);
    run(&rt, word.as_deref().unwrap_or(""))
}
