// Whether the handles of functions are in order.
use ir_items::{Function, Module};
use std::alloc::{AllocError, Global};
use test_support::call::completed;
use typing_handles::{
    arities_match, callees_precede, filter_parents_precede, handles_in_range, operands_precede,
};

/// The tests, in the order in which they are printed.
#[derive(Clone, Copy, PartialEq)]
pub enum Test {
    Handles,
    Operands,
    Callees,
    Filters,
    Arities,
}

const TESTS: [Test; 5] = [
    Test::Handles,
    Test::Operands,
    Test::Callees,
    Test::Filters,
    Test::Arities,
];

// Whether a function after this many others passes.
fn passes(test: Test, function: &Function, module: &Module, before: usize) -> bool {
    match test {
        Test::Handles => handles_in_range(function, module),
        Test::Operands => operands_precede(function, module),
        Test::Callees => callees_precede(function, module, before),
        Test::Filters => filter_parents_precede(function, module),
        Test::Arities => arities_match(function, module),
    }
}

// Prints each test of a function as a letter, or as a dot if it was not run.
fn tell(
    told: &mut String,
    function: &Function,
    module: &Module,
    before: usize,
    unasked: Option<Test>,
) -> Result<(), AllocError> {
    for test in TESTS {
        let letter = if Some(test) == unasked {
            "."
        } else if passes(test, function, module, before) {
            "t"
        } else {
            "f"
        };
        told.push_str(letter)?;
    }
    told.push_str(";")
}

// Prints the tests of each function and each entry point.
fn tell_all(told: &mut String, module: &Module, unasked: Option<Test>) -> Result<(), AllocError> {
    for (handle, function) in module.functions.iter() {
        tell(told, function, module, handle.index(), unasked)?;
    }
    let count = module.functions.len();
    for entry in module.entry_points.as_slice() {
        tell(told, &entry.function, module, count, unasked)?;
    }
    Ok(())
}

/// The tests of each function and each entry point, except one that is not run.
pub fn tests_told(
    alloc: Global,
    module: &Module,
    unasked: Option<Test>,
) -> Result<String, AllocError> {
    let mut told = String::new(alloc);
    completed(tell_all(&mut told, module, unasked), told)
}
