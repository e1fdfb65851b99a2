//! Overload sets of functions whose rules have one pattern for all shapes and scalars.

ghost use Rattle.std.specs.Prelude.{◌≡◌, slice_get};
ghost use Rattle.typing_overloads.specs.Products.{rules_of};

use crate::overload_set::OverloadSet;
use crate::product::Product;
use ir_types::TypeInner;
use std::alloc::{AllocError, Global};
use std::marker::Model;
use typing_rules::{Rule, ValueType};

/// An overload set whose rules have one pattern, for each of some shapes with each of some scalars (naga's
/// `Regular`). In a contract it is the list of the remaining rules.
#[derive(Debug, Drop)]
pub struct Regular {
    product: Product,
}

impl Model for Regular {
    ghost use Rattle.std.specs.Prelude.{List};
    ghost use Rattle.typing_rules.specs.declared.rules.Rule.{Rule};
    ghost use Rattle.typing_overloads.specs.Products.{rules_of};

    ghost Value = { List Rule };

    ghost view = { λ r. rules_of r.product };
}

impl Regular {
    /// The set with the rules of a product.
    pub(crate) const fn new(product: Product) -> Regular
        ensures { result ≡ rules_of product }
    {
        Regular { product }
    }

    // The first remaining rule, if there is one.
    fn preferred(&self) -> Option<Rule>
        ensures { result ≡ slice_get self.now 0 }
    {
        self.product.first()
    }
}

impl Clone for Regular {
    ghost use Rattle.std.specs.Prelude.{◌≡◌};

    ghost is_clone = { λ set copy. copy ≡ set };

    fn clone(&self) -> Result<Regular, AllocError> {
        Ok(Regular {
            product: self.product,
        })
    }
}

impl OverloadSet for Regular {
    ghost rules = { λ r. r };

    fn is_empty(&self) -> bool {
        self.preferred().is_none()
    }

    fn min_arguments(&self) -> usize {
        self.product
            .min_arity(self.most_preferred().arguments.len())
    }

    fn max_arguments(&self) -> usize {
        self.product
            .max_arity(self.most_preferred().arguments.len())
    }

    fn arg(&self, _alloc: Global, i: usize, ty: &TypeInner) -> Result<Self, AllocError> {
        Ok(Regular {
            product: self.product.accepting(i, ty),
        })
    }

    fn concrete_only(self) -> Self {
        Regular {
            product: self.product.concrete_only(),
        }
    }

    fn most_preferred(&self) -> Rule {
        match self.preferred() {
            Some(rule) => rule,
            None => unreachable!(),
        }
    }

    fn overload_list(&self, alloc: Global) -> Result<Vec<Rule>, AllocError> {
        let mut rules = Vec::new(alloc);
        self.product.add_to(&mut rules)?;
        Ok(rules)
    }

    fn allowed_args(&self, alloc: Global, i: usize) -> Result<Vec<ValueType>, AllocError> {
        let mut types = Vec::new(alloc);
        self.product.add_types_to(&mut types, i)?;
        Ok(types)
    }

    ghost clones = { λ set copy same. same };
}
