// Makes each call of overload sets once, looks up the sets of all math functions named by data/overloads.json, and prints which
// results differ from the expected ones. These come from two independent implementations.
use anyhow::{Context, Result, ensure};
use serde_json::Value;
use std::{fs, io};
use test_kinds::{every_call, is_met};
use test_support::call::items;

// Makes each call once, and prints whether a result is unexpected.
fn call_all(rt: &HostRuntime) -> io::Result<()> {
    match every_call(rt.alloc())? {
        Some(wrong) => println!(rt; "{wrong}: something else is answered"),
        None => println!(rt; "each call answers what is expected"),
    }
}

// Looks up these cases. Returns how many differ.
fn ask_all(rt: &HostRuntime, cases: &[Value]) -> io::Result<usize> {
    let mut differing = 0usize;
    for (place, case) in cases.iter().enumerate() {
        if !is_met(rt.alloc(), case)? {
            differing = differing.saturating_add(1);
            println!(rt; "case {place} differs")?;
        }
    }
    println!(rt; "{} cases, {differing} differ", cases.len())?;
    Ok(differing)
}

fn read_cases(rt: &HostRuntime) -> Result<Value> {
    let text = fs::read_to_string(rt, "overloads.json").context("reading overloads.json")?;
    Value::from_str(rt.alloc(), text.as_str()).context("reading overloads.json")
}

// Looks up the cases of a file.
fn ask_file(rt: &HostRuntime, cases: &Value) -> Result<()> {
    let differing = ask_all(rt, items(cases))?;
    ensure!(differing == 0, "{differing} cases differ");
    Ok(())
}

/// Makes all calls of overload sets.
pub fn run(rt: &HostRuntime) -> Result<()> {
    call_all(rt)?;
    ask_file(rt, &read_cases(rt)?)
}
