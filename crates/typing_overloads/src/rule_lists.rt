//! Operations on lists of rules.

ghost use Rattle.std.specs.Prelude.{◌≡◌, IfOk, filter, max, min};
ghost use Rattle.std.specs.List.{fold};
ghost use Rattle.ir_types.specs.judged.Plain.{inner_view};
ghost use Rattle.typing_rules.specs.judged.Laws.{arity};
ghost use Rattle.typing_rules.specs.judged.Ranks.{accepts_inner, is_concrete};
ghost use Rattle.typing_overloads.specs.Sets.{arguments_at};

use crate::product::add_type;
use ir_types::TypeInner;
use std::alloc::{AllocError, Global};
use typing_rules::{Rule, ValueType};

/// The rules that accept an argument of the type `given` at an index, counted from 0. The error is out of memory.
pub(crate) fn accepting(
    alloc: Global,
    rules: &[Rule],
    place: usize,
    given: &TypeInner,
) -> Result<Vec<Rule>, AllocError>
    ensures { IfOk result (λ left. left.items ≡ filter (accepts_inner place (inner_view given.now)) rules.now) }
{
    let mut left = Vec::new(alloc);
    for rule in rules {
        if rule.accepts(place, given) {
            left.push(*rule)?;
        }
    }
    Ok(left)
}

/// The rules without abstract arguments.
pub(crate) fn concrete(rules: Vec<Rule>) -> Vec<Rule>
    ensures { result.items ≡ filter is_concrete rules.items }
{
    let mut left = rules;
    left.retain(|rule| rule.is_concrete());
    left
}

/// The minimum of a number and the rules' argument counts.
pub(crate) fn min_arity(rules: &[Rule], found: usize) -> usize
    ensures { result ≡ fold (λ n r. min n (arity r)) found rules.now }
{
    let mut least = found;
    for rule in rules {
        least = least.min(rule.arguments.len());
    }
    least
}

/// The maximum of a number and the rules' argument counts.
pub(crate) fn max_arity(rules: &[Rule], found: usize) -> usize
    ensures { result ≡ fold (λ n r. max n (arity r)) found rules.now }
{
    let mut greatest = found;
    for rule in rules {
        greatest = greatest.max(rule.arguments.len());
    }
    greatest
}

/// The types that the rules require at an index, counted from 0. The error is out of memory.
pub(crate) fn required_for(
    alloc: Global,
    rules: &[Rule],
    place: usize,
) -> Result<Vec<ValueType>, AllocError>
    ensures { IfOk result (λ types. types.items ≡ arguments_at place rules.now) }
{
    let mut types = Vec::new(alloc);
    for rule in rules {
        add_type(&mut types, rule.arguments.get(place))?;
    }
    Ok(types)
}
