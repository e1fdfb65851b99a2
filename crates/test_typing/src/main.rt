// Answers the questions of the files of data/ about the parts of modules: layouts, kinds of expressions, their types, tests of
// handles, the `TypeInfo`s of types and their errors, the analysis of functions, and what a call leaves after its allocation
// failed. Prints which results differ from the expected ones.
//
// A line of a data file is a list of strings: the case's name, the question, a document, and the answer, or two that are both
// right. `make_data.py`, `make_types.py`, `make_tests.py`, `make_infos.py`, `make_summaries.py`, `make_chains.py` and
// `make_turns.py` write these files. The answers come from two independent implementations, those of chains of calls from the
// model in `make_chains.py`. It also makes each call on layouts, kinds and slots of immediate data once.
#![tactic(auto)]

mod asked;
mod calls;
mod conditions;
mod constness;
mod infos;
mod layouts;
mod left;
mod summaries;
mod types;

use anyhow::{Context, Result, ensure};
use std::alloc::{AllocError, Global};
use std::fs;
use test_support::call::freeing;
use test_support::questions::{Questions, ask_lines};

/// The files of cases.
const FILES: [&str; 8] = [
    "layouts.jsonl",
    "constness.jsonl",
    "types.jsonl",
    "tests.jsonl",
    "infos.jsonl",
    "summaries.jsonl",
    "chains.jsonl",
    "left.jsonl",
];

// Answers the questions.
#[derive(Clone, Copy)]
struct Typing;

impl Questions for Typing {
    fn answer(&self, alloc: Global, question: &str, document: &str) -> Result<String, AllocError> {
        asked::answer(alloc, question, document)
    }
}

// Answers the questions of a file. Returns how many results differ.
fn ask_file(rt: &HostRuntime, name: &str) -> Result<usize> {
    let text = fs::read_to_string(rt, name).context(format_args!("reading {name}"))?;
    Ok(freeing(ask_lines(rt, &Typing, name, &text), text)?)
}

fn main(rt: HostRuntime) -> Result<()> {
    calls::every_call(&rt)?;
    let mut differing = 0usize;
    for name in FILES {
        differing = differing.saturating_add(ask_file(&rt, name)?);
    }
    ensure!(differing == 0, "{differing} cases differ");
    Ok(())
}
