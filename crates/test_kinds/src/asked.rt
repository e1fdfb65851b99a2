// Looks up the overload sets of all math functions for each case, and tells whether the results are the expected ones.
//
// A case is `["rules", function, [rule..]]`, the rules of a function in order, or `["arg", function, [[index, type]..], left,
// preferred, concrete]`: after these arguments the number of rules left, the preferred one, and the preferred one among those
// without abstract arguments. A list of the function's rules, one by one, must give the same results as the set.
use crate::types::{number, rule, value_type};
use document_words::find_word;
use ir_kinds::MathFunction;
use ir_types::TypeInner;
use serde_json::Value;
use std::alloc::{AllocError, Global};
use test_support::call::{freeing, list, text};
use typing_overloads::{AnyOverloadSet, List, MathFunctionExt, OverloadSet, Rule, ValueType};

/// One more than the maximum number of arguments of a rule.
const PLACES: usize = 5;

/// The preferred rule, if one is left.
pub fn preferred(set: &AnyOverloadSet) -> Option<Rule> {
    if set.is_empty() {
        None
    } else {
        Some(set.most_preferred())
    }
}

// The minimum and maximum number of arguments, if a rule is left.
fn argument_counts(set: &AnyOverloadSet) -> Option<(usize, usize)> {
    if set.is_empty() {
        None
    } else {
        Some((set.min_arguments(), set.max_arguments()))
    }
}

// The rules of a set as a list.
fn listed(alloc: Global, set: &AnyOverloadSet) -> Result<AnyOverloadSet, AllocError> {
    let list = List::from_rules(alloc, set.overload_list(alloc)?)?;
    Ok(AnyOverloadSet::List(list))
}

// The overload set of a function, and its rules as a list.
#[derive(Drop)]
struct Both {
    set: AnyOverloadSet,
    list: AnyOverloadSet,
}

impl Both {
    fn of(alloc: Global, function: MathFunction) -> Result<Both, AllocError> {
        let set = function.overloads(alloc)?;
        match listed(alloc, &set) {
            Ok(list) => Ok(Both { set, list }),
            Err(error) => {
                drop(set);
                Err(error)
            }
        }
    }

    // Adds an argument to both.
    fn arg(&mut self, alloc: Global, place: usize, given: &TypeInner) -> Result<bool, AllocError> {
        self.set = self.set.arg(alloc, place, given)?;
        self.list = self.list.arg(alloc, place, given)?;
        Ok(true)
    }

    fn concrete_only(self) -> Both {
        Both {
            set: self.set.concrete_only(),
            list: self.list.concrete_only(),
        }
    }

    // Whether both give the same result for each call.
    fn agree(&self, alloc: Global) -> Result<bool, AllocError> {
        Ok(
            ask_all_alike(alloc, &self.set, &self.list)?
                && preferred(&self.set) == preferred(&self.list)
                && argument_counts(&self.set) == argument_counts(&self.list)
                && have_alike(alloc, &self.set, &self.list)?,
        )
    }
}

// Whether two sets require the same types at each argument.
fn ask_all_alike(
    alloc: Global,
    left: &AnyOverloadSet,
    right: &AnyOverloadSet,
) -> Result<bool, AllocError> {
    for place in 0..PLACES {
        if !ask_alike(alloc, left, right, place)? {
            return Ok(false);
        }
    }
    Ok(true)
}

// Whether a set requires these types at an argument.
fn requires_types(
    alloc: Global,
    set: &AnyOverloadSet,
    place: usize,
    types: &[ValueType],
) -> Result<bool, AllocError> {
    let found = set.allowed_args(alloc, place)?;
    Ok(freeing(found.as_slice() == types, found))
}

// Whether two sets require the same types at an argument.
fn ask_alike(
    alloc: Global,
    left: &AnyOverloadSet,
    right: &AnyOverloadSet,
    place: usize,
) -> Result<bool, AllocError> {
    let types = left.allowed_args(alloc, place)?;
    freeing(requires_types(alloc, right, place, &types), types)
}

// Whether a set has these rules.
fn has_these(alloc: Global, set: &AnyOverloadSet, rules: &[Rule]) -> Result<bool, AllocError> {
    let found = set.overload_list(alloc)?;
    Ok(freeing(found.as_slice() == rules, found))
}

// Whether two sets have the same rules.
fn have_alike(
    alloc: Global,
    left: &AnyOverloadSet,
    right: &AnyOverloadSet,
) -> Result<bool, AllocError> {
    let rules = left.overload_list(alloc)?;
    freeing(has_these(alloc, right, &rules), rules)
}

// Whether a rule, or none, is the one at an index of the case.
fn is_rule(found: Option<Rule>, case: &Value, place: usize) -> bool {
    match case.get(place) {
        Some(Value::Null) => found.is_none(),
        Some(value) => found.is_some() && found == rule(value),
        None => false,
    }
}

// Whether these are the rules of a list, one by one.
fn are_rules(rules: &[Rule], known: &[Value]) -> bool {
    for (place, value) in known.iter().enumerate() {
        if rule(value) != rules.get(place).copied() {
            return false;
        }
    }
    rules.len() == known.len()
}

fn rules_are(alloc: Global, set: &AnyOverloadSet, known: &[Value]) -> Result<bool, AllocError> {
    let rules = set.overload_list(alloc)?;
    Ok(freeing(are_rules(&rules, known), rules))
}

// Whether these are the rules of a set, and the list gives the same result for each call.
fn agrees_on_rules(alloc: Global, both: &Both, known: &[Value]) -> Result<bool, AllocError> {
    Ok(rules_are(alloc, &both.set, known)? && both.agree(alloc)?)
}

// Whether the rules of a function are those of the case.
fn has_rules(alloc: Global, function: MathFunction, case: &Value) -> Result<bool, AllocError> {
    let both = Both::of(alloc, function)?;
    freeing(agrees_on_rules(alloc, &both, list(case, 2)), both)
}

// The index and the type of an argument.
fn argument_of(argument: &Value) -> Option<(usize, ValueType)> {
    let place = number(argument, 0)? as usize;
    Some((place, value_type(argument.get(1)?)?))
}

// Adds an argument, if it is one.
fn supply(alloc: Global, both: &mut Both, argument: &Value) -> Result<bool, AllocError> {
    match argument_of(argument) {
        Some((place, given)) => both.arg(alloc, place, &given.to_inner()),
        None => Ok(false),
    }
}

// Adds these arguments, as far as they are arguments.
fn supply_all(alloc: Global, both: &mut Both, arguments: &[Value]) -> Result<bool, AllocError> {
    for argument in arguments {
        if !supply(alloc, both, argument)? {
            return Ok(false);
        }
    }
    Ok(true)
}

// Whether this many rules are left, with the preferred one of the case.
fn left_is(alloc: Global, set: &AnyOverloadSet, case: &Value) -> Result<bool, AllocError> {
    let left = set.overload_list(alloc)?.len() as u64;
    Ok(number(case, 3) == Some(left) && is_rule(preferred(set), case, 4))
}

// Whether what is left matches the case.
fn leaves(alloc: Global, both: &Both, case: &Value) -> Result<bool, AllocError> {
    Ok(left_is(alloc, &both.set, case)? && both.agree(alloc)?)
}

// Whether what is left without abstract arguments matches the case.
fn leaves_concrete(alloc: Global, both: &Both, case: &Value) -> Result<bool, AllocError> {
    Ok(is_rule(preferred(&both.set), case, 5) && both.agree(alloc)?)
}

// Whether what is left of both after the arguments matches the case.
fn leaves_both(alloc: Global, both: &mut Both, case: &Value) -> Result<bool, AllocError> {
    Ok(supply_all(alloc, both, list(case, 2))? && leaves(alloc, both, case)?)
}

// Whether what is left of both without abstract arguments matches the case.
fn leaves_without_abstract(alloc: Global, both: Both, case: &Value) -> Result<bool, AllocError> {
    let concrete = both.concrete_only();
    freeing(leaves_concrete(alloc, &concrete, case), concrete)
}

// Whether what is left of a function's rules after the arguments matches the case.
fn leaves_after(alloc: Global, function: MathFunction, case: &Value) -> Result<bool, AllocError> {
    let mut both = Both::of(alloc, function)?;
    match leaves_both(alloc, &mut both, case) {
        Ok(true) => leaves_without_abstract(alloc, both, case),
        answer => {
            drop(both);
            answer
        }
    }
}

// The function named by the second word of a case.
fn function_of(case: &Value) -> Option<MathFunction> {
    find_word(text(case, 1))
}

/// Whether a case is well-formed and the results match it.
pub fn is_met(alloc: Global, case: &Value) -> Result<bool, AllocError> {
    match (function_of(case), text(case, 0)) {
        (Some(function), "rules") => has_rules(alloc, function, case),
        (Some(function), "arg") => leaves_after(alloc, function, case),
        _ => Ok(false),
    }
}
