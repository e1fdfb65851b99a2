// Builds the overload set of `min` over two vectors once for each byte of a string, and prints how many rules they leave in
// all: the cost of overload sets in a check of as many calls.
use check_ports::Source;
use ir_kinds::{MathFunction, Scalar, VectorSize};
use ir_types::TypeInner;
use std::alloc::{AllocError, Global};
use std::io;
use test_support::call::{freeing, told};
use typing_overloads::{AnyOverloadSet, MathFunctionExt, OverloadSet};

/// The maximum number of calls.
const MOST_CALLS: usize = 16777216;

// How many rules of a set two vectors of floats leave.
fn supplied(alloc: Global, set: &mut AnyOverloadSet) -> Result<usize, AllocError> {
    let vector = TypeInner::Vector {
        size: VectorSize::Tri,
        scalar: Scalar::F32,
    };
    *set = set.arg(alloc, 0, &vector)?;
    *set = set.arg(alloc, 1, &vector)?;
    Ok(set.overload_list(alloc)?.len())
}

// How many rules of `min` two vectors of floats leave.
fn rules_left(alloc: Global) -> Result<usize, AllocError> {
    let mut set = MathFunction::Min.overloads(alloc)?;
    freeing(supplied(alloc, &mut set), set)
}

// The same for each of the bytes.
fn rules_of_all(alloc: Global, bytes: &[u8]) -> Result<usize, AllocError> {
    let mut left = 0usize;
    for _ in bytes {
        left = left.saturating_add(rules_left(alloc)?);
    }
    Ok(left)
}

/// How many rules are left in all for the bytes of a string.
pub fn rules_after(alloc: Global, text: &str) -> Result<String, AllocError> {
    told(alloc, rules_of_all(alloc, text.as_bytes()))
}

// Prints how many rules are left in all for these bytes.
fn say_left(rt: &HostRuntime, bytes: &[u8]) -> io::Result<()> {
    match rules_of_all(rt.alloc(), bytes) {
        Ok(left) => println!(rt; "{left} rules left"),
        Err(_) => println!(rt; "no memory"),
    }
}

/// Prints how many rules are left in all for the bytes of standard input.
pub fn run(rt: &HostRuntime) -> io::Result<()> {
    let mut source = Source::new(rt.reader());
    match source.take_all(rt.alloc(), MOST_CALLS) {
        Ok(bytes) => freeing(say_left(rt, &bytes), bytes),
        Err(_) => println!(rt; "not read"),
    }
}
