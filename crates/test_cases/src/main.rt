//! Runs the check on the documents of data/, answers the questions about modules there, validates a module built by calls, and
//! prints which results differ from the expected ones; then makes the calls of checks that standard input lists, and prints the
//! results.
//!
//! A line of standard input is a list: the call, and its inputs, with the result beside it. A line that is a string is a
//! heading. The program runs where the data files are: by hand it is `cd data && ../out/test_cases < ../stdin`.
#![tactic(auto)]

mod built;
mod case;
mod check;
mod checks;
mod documents;
mod layer_judged;
mod layer_made;
mod left;
mod limits;
mod memory;
mod modules;
mod questions;
mod refusals;
mod rows;
mod streams;
mod turns;
mod whole;

use anyhow::{Result, bail};
use serde_json::Value;
use std::alloc::{AllocError, Global};
use test_support::lines::{Answers, answer_lines};

/// The calls keep nothing from one line to the next.
#[derive(Drop)]
struct Calls;

impl Answers for Calls {
    fn answer(&mut self, alloc: Global, call: &Value) -> Result<String, AllocError> {
        checks::answer(alloc, call)
    }
}

fn main(rt: HostRuntime) -> Result<()> {
    documents::run(&rt)?;
    questions::run(&rt)?;
    if let Some(wrong) = built::judge_built(rt.alloc())? {
        bail!("{wrong}");
    }
    let mut calls = Calls;
    answer_lines(&rt, &mut calls)?;
    Ok(())
}
