//! The overload sets of the math functions.

ghost use Rattle.std.specs.Prelude.{◌≡◌, ◌++◌, List, IfOk};
ghost use Rattle.typing_rules.specs.declared.rules.Rule.{Rule};
ghost use Rattle.typing_overloads.specs.Either.{any_rules};
ghost use Rattle.typing_overloads.specs.Products.{rules_of};

use crate::any::AnyOverloadSet;
use crate::list::List;
use crate::math_table::row_of;
use crate::product::Product;
use crate::regular::Regular;
use ir_kinds::MathFunction;
use std::alloc::{AllocError, Global};
use typing_rules::{ConstructorSet, Pattern, ScalarSet};

// The rules of `Mix` that blend vectors by a scalar.
const BLENDS: Product = Product {
    pattern: Pattern::WithScalar,
    scalars: ScalarSet::FLOAT,
    sizes: ConstructorSet::VECN,
};

// The rules of one product, followed by those of another, as a list.
fn both(alloc: Global, first: Product, second: Product) -> Result<AnyOverloadSet, AllocError>
    ensures { IfOk result (λ set. any_rules set ≡ rules_of first ++ rules_of second) }
{
    let mut rules = Vec::new(alloc);
    first.add_to(&mut rules)?;
    second.add_to(&mut rules)?;
    Ok(AnyOverloadSet::List(List::from_rules(alloc, rules)?))
}

// The rules of one product, as a list if naga uses one.
fn one(alloc: Global, rules: Product) -> Result<AnyOverloadSet, AllocError>
    ensures { IfOk result (λ set. any_rules set ≡ rules_of rules) }
{
    match rules.pattern {
        Pattern::WithScalar
        | Pattern::WithExponent
        | Pattern::WithRange
        | Pattern::TwoWithRange
        | Pattern::ToOuter
        | Pattern::ToTransposed => both(alloc, rules, Product::NONE),
        Pattern::Same
        | Pattern::SameTwo
        | Pattern::SameThree
        | Pattern::ToScalar
        | Pattern::TwoToScalar
        | Pattern::ToFraction
        | Pattern::ToExponent
        | Pattern::ToWord
        | Pattern::FromWord
        | Pattern::FromTwoWords => Ok(AnyOverloadSet::Regular(Regular::new(rules))),
    }
}

/// Math functions that use overload sets (a method of naga's `MathFunction`).
pub trait MathFunctionExt: Sized {
    // The rules of the function, in order.
    ghost table: { Self → List Rule };

    /// The overload set with all rules of the function (naga's `MathFunction::overloads`). The error is out of memory.
    fn overloads(self, alloc: Global) -> Result<AnyOverloadSet, AllocError>
        ensures { IfOk result (λ set. any_rules set ≡ table self) };
}

impl MathFunctionExt for MathFunction {
    ghost use Rattle.typing_rules.specs.judged.MathTable as tables;

    ghost table = { tables.math_overloads };

    fn overloads(self, alloc: Global) -> Result<AnyOverloadSet, AllocError> {
        match self {
            MathFunction::Mix => both(alloc, row_of(self), BLENDS),
            _ => one(alloc, row_of(self)),
        }
    }
}
