// Runs the check on each case of the data files, and prints which results differ from the expected ones.
//
// data/files.json names the data files. Each is a list of objects: the `name` of a case, its `input` (or `input_b64`, in
// Base64), optionally the number of `spaces` after the input, and the expected `output`; or, for a case with a `form`, whether
// its input is a document.
use crate::case::judge;
use anyhow::{Context, Result, ensure};
use serde_json::Value;
use std::{fs, io};
use test_support::call::{freeing, items};
use test_support::questions::print_count;

fn read_list(rt: &HostRuntime, name: &str) -> Result<Value> {
    let text = fs::read_to_string(rt, name).context(format_args!("reading {name}"))?;
    let value = Value::from_str(rt.alloc(), text.as_str());
    freeing(value, text).context(format_args!("reading {name}"))
}

// The name of a case.
fn name_of(item: &Value) -> &str {
    match item.get("name") {
        Some(name) => name.as_str().unwrap_or(""),
        None => "",
    }
}

// Prints how a case differs.
fn print_difference(
    rt: &HostRuntime,
    name: &str,
    item: &Value,
    difference: &str,
) -> io::Result<bool> {
    println!(rt; "{name}: {}: {difference}", name_of(item))?;
    Ok(true)
}

// Runs a case. Returns whether it differs; the difference is printed.
fn differs(rt: &HostRuntime, name: &str, item: &Value) -> io::Result<bool> {
    match judge(rt.alloc(), item)? {
        Some(difference) => { freeing(print_difference(rt, name, item, &difference), difference) }
        None => Ok(false),
    }
}

// Runs the cases of one data file. Returns how many differ.
fn run_cases(rt: &HostRuntime, name: &str, cases: &[Value]) -> io::Result<usize> {
    let mut differing = 0usize;
    for item in cases {
        if differs(rt, name, item)? {
            differing = differing.saturating_add(1);
        }
    }
    print_count(rt, name, cases.len(), differing)
}

fn run_file(rt: &HostRuntime, name: &str) -> Result<usize> {
    let cases = read_list(rt, name)?;
    Ok(freeing(run_cases(rt, name, items(&cases)), cases)?)
}

fn run_files(rt: &HostRuntime, names: &[Value]) -> Result<usize> {
    let mut differing = 0usize;
    for name in names {
        differing = differing.saturating_add(run_file(rt, name.as_str().unwrap_or(""))?);
    }
    Ok(differing)
}

/// Runs all cases.
pub fn run(rt: &HostRuntime) -> Result<()> {
    let names = read_list(rt, "files.json")?;
    let differing = freeing(run_files(rt, items(&names)), names)?;
    ensure!(differing == 0, "{differing} cases differ");
    Ok(())
}
