//! Overload sets of either representation.

ghost use Rattle.std.specs.Prelude.{◌≡◌, List};
ghost use Rattle.typing_overloads.specs.Either.{any_rules};

use crate::list::List;
use crate::overload_set::OverloadSet;
use crate::regular::Regular;
use ir_types::TypeInner;
use std::alloc::{AllocError, Global};
use typing_rules::{Rule, ValueType};

/// An overload set of one of the two representations (naga's `AnyOverloadSet`). In a contract it is the list of remaining rules.
#[derive(Debug, Drop)]
pub enum AnyOverloadSet {
    /// A list of rules.
    List(List),
    /// Rules of one regular form.
    Regular(Regular),
}

impl From<List> for AnyOverloadSet {
    ghost use Rattle.std.specs.Prelude.{◌≡◌};
    ghost use Rattle.typing_overloads.specs.Either.{any_rules};

    ghost from_gives = { λ list set. any_rules set ≡ list };

    fn from(list: List) -> Self {
        AnyOverloadSet::List(list)
    }
}

impl From<Regular> for AnyOverloadSet {
    ghost use Rattle.std.specs.Prelude.{◌≡◌};
    ghost use Rattle.typing_overloads.specs.Either.{any_rules};

    ghost from_gives = { λ regular set. any_rules set ≡ regular };

    fn from(regular: Regular) -> Self {
        AnyOverloadSet::Regular(regular)
    }
}

impl Clone for AnyOverloadSet {
    ghost use Rattle.std.specs.Prelude.{◌≡◌};
    ghost use Rattle.typing_overloads.specs.Either.{any_rules};

    ghost is_clone = { λ set copy. any_rules copy ≡ any_rules set };

    fn clone(&self) -> Result<AnyOverloadSet, AllocError> {
        match self {
            AnyOverloadSet::List(list) => Ok(AnyOverloadSet::List(list.clone()?)),
            AnyOverloadSet::Regular(regular) => Ok(AnyOverloadSet::Regular(regular.clone()?)),
        }
    }
}

impl OverloadSet for AnyOverloadSet {
    ghost use Rattle.typing_overloads.specs.Either.{any_rules};

    ghost rules = { any_rules };

    fn is_empty(&self) -> bool {
        match self {
            AnyOverloadSet::List(list) => list.is_empty(),
            AnyOverloadSet::Regular(regular) => regular.is_empty(),
        }
    }

    fn min_arguments(&self) -> usize {
        match self {
            AnyOverloadSet::List(list) => list.min_arguments(),
            AnyOverloadSet::Regular(regular) => regular.min_arguments(),
        }
    }

    fn max_arguments(&self) -> usize {
        match self {
            AnyOverloadSet::List(list) => list.max_arguments(),
            AnyOverloadSet::Regular(regular) => regular.max_arguments(),
        }
    }

    fn arg(&self, alloc: Global, i: usize, ty: &TypeInner) -> Result<Self, AllocError> {
        match self {
            AnyOverloadSet::List(list) => Ok(AnyOverloadSet::List(list.arg(alloc, i, ty)?)),
            AnyOverloadSet::Regular(regular) => {
                Ok(AnyOverloadSet::Regular(regular.arg(alloc, i, ty)?))
            }
        }
    }

    fn concrete_only(self) -> Self {
        match self {
            AnyOverloadSet::List(list) => AnyOverloadSet::List(list.concrete_only()),
            AnyOverloadSet::Regular(regular) => AnyOverloadSet::Regular(regular.concrete_only()),
        }
    }

    fn most_preferred(&self) -> Rule {
        match self {
            AnyOverloadSet::List(list) => list.most_preferred(),
            AnyOverloadSet::Regular(regular) => regular.most_preferred(),
        }
    }

    fn overload_list(&self, alloc: Global) -> Result<Vec<Rule>, AllocError> {
        match self {
            AnyOverloadSet::List(list) => list.overload_list(alloc),
            AnyOverloadSet::Regular(regular) => regular.overload_list(alloc),
        }
    }

    fn allowed_args(&self, alloc: Global, i: usize) -> Result<Vec<ValueType>, AllocError> {
        match self {
            AnyOverloadSet::List(list) => list.allowed_args(alloc, i),
            AnyOverloadSet::Regular(regular) => regular.allowed_args(alloc, i),
        }
    }

    ghost clones = { λ set copy same. same };
}
