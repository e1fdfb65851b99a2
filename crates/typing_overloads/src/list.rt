//! Overload sets as lists of rules.

ghost use Rattle.std.specs.Prelude.{◌≡◌, IfOk};

use crate::overload_set::OverloadSet;
use crate::rule_lists::{accepting, concrete, max_arity, min_arity, required_for};
use ir_types::TypeInner;
use std::alloc::{AllocError, Global};
use std::marker::Model;
use typing_rules::{Rule, ValueType};

/// An overload set as a list of arbitrary rules (naga's `List`). In a contract it is the list of the remaining
/// rules.
#[derive(Debug, Drop)]
pub struct List {
    rules: Vec<Rule>,
}

impl Model for List {
    ghost use Rattle.std.specs.Prelude.{List};
    ghost use Rattle.typing_rules.specs.declared.rules.Rule.{Rule};

    ghost Value = { List Rule };

    ghost view = { λ l. l.rules.items };
}

impl List {
    /// The set of these rules, the preferred one first (naga's `List::from_rules`), in memory of `alloc` without spare
    /// capacity. The error is out of memory.
    pub fn from_rules(alloc: Global, rules: Vec<Rule>) -> Result<List, AllocError>
        ensures { IfOk result (λ list. list ≡ rules.items) }
    {
        Ok(List {
            rules: Vec::from_slice(alloc, rules.as_slice())?,
        })
    }
}

impl Clone for List {
    ghost use Rattle.std.specs.Prelude.{◌≡◌};

    ghost is_clone = { λ set copy. copy ≡ set };

    fn clone(&self) -> Result<List, AllocError> {
        Ok(List {
            rules: Vec::from_slice(*self.rules.allocator(), self.rules.as_slice())?,
        })
    }
}

impl OverloadSet for List {
    ghost rules = { λ l. l };

    fn is_empty(&self) -> bool {
        self.rules.is_empty()
    }

    fn min_arguments(&self) -> usize {
        min_arity(self.rules.as_slice(), self.most_preferred().arguments.len())
    }

    fn max_arguments(&self) -> usize {
        max_arity(self.rules.as_slice(), self.most_preferred().arguments.len())
    }

    fn arg(&self, alloc: Global, i: usize, ty: &TypeInner) -> Result<Self, AllocError> {
        Ok(List {
            rules: accepting(alloc, self.rules.as_slice(), i, ty)?,
        })
    }

    fn concrete_only(self) -> Self {
        List {
            rules: concrete(self.rules),
        }
    }

    fn most_preferred(&self) -> Rule {
        match self.rules.first() {
            Some(rule) => *rule,
            None => unreachable!(),
        }
    }

    fn overload_list(&self, alloc: Global) -> Result<Vec<Rule>, AllocError> {
        Vec::from_slice(alloc, self.rules.as_slice())
    }

    fn allowed_args(&self, alloc: Global, i: usize) -> Result<Vec<ValueType>, AllocError> {
        required_for(alloc, self.rules.as_slice(), i)
    }

    ghost clones = { λ set copy same. same };
}
