//! Products: one rule for each pair of a shape and a scalar.

ghost use Rattle.std.specs.Prelude.{◌≡◌, ◌++◌, OnOk, filter, max, min, slice_get};
ghost use Rattle.std.specs.List.{fold};
ghost use Rattle.ir_types.specs.judged.Plain.{inner_view};
ghost use Rattle.typing_rules.specs.judged.Laws.{arity};
ghost use Rattle.typing_rules.specs.judged.Ranks.{accepts_inner, is_concrete};
ghost use Rattle.typing_rules.specs.found.Members.{scalars_in};
ghost use Rattle.typing_overloads.specs.Products.{row, rules_of};
ghost use Rattle.typing_overloads.specs.Sets.{one_or_none, arguments_at};

use crate::required::{concrete_scalars, required_at, required_by};
use ir_types::TypeInner;
use std::alloc::AllocError;
use typing_rules::{ConstructorSet, ConstructorSize, Pattern, Rule, ScalarSet, ValueType};

/// The rules of a pattern for each of the shapes with each of the scalars: ordered by shape, then by scalar.
#[derive(Clone, Copy, Debug)]
pub(crate) struct Product {
    /// The pattern of each rule.
    pub pattern: Pattern,
    /// The scalars.
    pub scalars: ScalarSet,
    /// The shapes.
    pub sizes: ConstructorSet,
}

impl Product {
    /// No rule.
    pub const NONE: Product = Product {
        pattern: Pattern::Same,
        scalars: ScalarSet(0),
        sizes: ConstructorSet(0),
    };

    /// The first rule, if there is one.
    #[tactic(auto, using(crate::proofs::Kept::no_scalars))]
    pub fn first(self) -> Option<Rule>
        ensures { result ≡ slice_get (rules_of self) 0 }
    {
        match self.sizes.sizes().next() {
            Some(size) => match self.scalars.scalars().next() {
                Some(scalar) => Some(self.pattern.rule(size, scalar)),
                None => None,
            },
            None => None,
        }
    }

    /// The rules that accept an argument of the type `given` at an index, counted from 0.
    pub fn accepting(self, place: usize, given: &TypeInner) -> Product
        ensures { rules_of result ≡ filter (accepts_inner place (inner_view given.now)) (rules_of self) }
    {
        match ValueType::of(given) {
            Some(given) => match required_at(self.pattern, place) {
                Some(asked) => Product {
                    pattern: self.pattern,
                    scalars: ScalarSet(self.scalars.0 & asked.scalar.taking(given.scalar).0),
                    sizes: ConstructorSet(self.sizes.0 & asked.size.taking(given.size).0),
                },
                None => Product::NONE,
            },
            None => Product::NONE,
        }
    }

    /// The rules without abstract arguments.
    pub const fn concrete_only(self) -> Product
        ensures { rules_of result ≡ filter is_concrete (rules_of self) }
    {
        Product {
            pattern: self.pattern,
            scalars: ScalarSet(self.scalars.0 & concrete_scalars(self.pattern).0),
            sizes: self.sizes,
        }
    }

    /// The minimum of a number and the rules' argument counts.
    pub fn min_arity(self, found: usize) -> usize
        ensures { result ≡ fold (λ n r. min n (arity r)) found (rules_of self) }
    {
        match self.first() {
            Some(_) => found.min(required_by(self.pattern).len()),
            None => found,
        }
    }

    /// The maximum of a number and the rules' argument counts.
    pub fn max_arity(self, found: usize) -> usize
        ensures { result ≡ fold (λ n r. max n (arity r)) found (rules_of self) }
    {
        match self.first() {
            Some(_) => found.max(required_by(self.pattern).len()),
            None => found,
        }
    }

    /// Appends the rules to a list. The error is out of memory.
    pub fn add_to(self, rules: &mut Vec<Rule>) -> Result<(), AllocError>
        ensures { OnOk result (rules.new.items ≡ rules.old.items ++ rules_of self) }
    {
        for size in self.sizes.sizes() {
            add_row(rules, self.pattern, size, self.scalars)?;
        }
        Ok(())
    }

    /// Appends the types that the rules require at an index, counted from 0, to a list. The error is out of memory.
    pub fn add_types_to(self, types: &mut Vec<ValueType>, place: usize) -> Result<(), AllocError>
        ensures { OnOk result (types.new.items ≡ types.old.items ++ arguments_at place (rules_of self)) }
    {
        for size in self.sizes.sizes() {
            add_types(types, place, self.pattern, size, self.scalars)?;
        }
        Ok(())
    }
}

// Appends the rules of one shape.
fn add_row(
    rules: &mut Vec<Rule>,
    pattern: Pattern,
    size: ConstructorSize,
    scalars: ScalarSet,
) -> Result<(), AllocError>
    ensures { OnOk result (rules.new.items ≡ rules.old.items ++ row pattern (scalars_in scalars.0) size) }
{
    for scalar in scalars.scalars() {
        rules.push(pattern.rule(size, scalar))?;
    }
    Ok(())
}

/// Appends a type, if there is one. The error is out of memory.
pub(crate) fn add_type(
    types: &mut Vec<ValueType>,
    wanted: Option<ValueType>,
) -> Result<(), AllocError>
    ensures { OnOk result (types.new.items ≡ types.old.items ++ one_or_none wanted) }
{
    if let Some(wanted) = wanted {
        types.push(wanted)?;
    }
    Ok(())
}

// Appends the types that the rules of one shape require at an index.
fn add_types(
    types: &mut Vec<ValueType>,
    place: usize,
    pattern: Pattern,
    size: ConstructorSize,
    scalars: ScalarSet,
) -> Result<(), AllocError>
    ensures { OnOk result (types.new.items
        ≡ types.old.items ++ arguments_at place (row pattern (scalars_in scalars.0) size)) }
{
    for scalar in scalars.scalars() {
        add_type(types, pattern.rule(size, scalar).arguments.get(place))?;
    }
    Ok(())
}
