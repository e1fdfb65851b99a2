//! The trait of overload sets.

ghost use Rattle.std.specs.Prelude.{◌≡◌, ◌<◌, ◌==◌, List, IfOk, Some, filter, length, slice_get};
ghost use Rattle.ir_types.specs.judged.Plain.{inner_view};
ghost use Rattle.typing_rules.specs.declared.rules.Rule.{Rule};
ghost use Rattle.typing_rules.specs.judged.Ranks.{accepts_inner, is_concrete};
ghost use Rattle.typing_overloads.specs.Sets.{fewest_arguments, most_arguments, arguments_at};

use ir_types::TypeInner;
use std::alloc::{AllocError, Global};
use typing_rules::{Rule, ValueType};

/// The rules of a function that remain for the supplied arguments (naga's `OverloadSet`). In a contract a set
/// is the list of these rules, the preferred one first.
pub trait OverloadSet: Clone {
    // The remaining rules, in order.
    ghost rules: { Self → List Rule };

    /// Whether no rule remains.
    fn is_empty(&self) -> bool
        ensures { result ≡ (length (rules self.now) == 0) };

    /// The least number of arguments of a rule. Requires that there is one.
    fn min_arguments(&self) -> usize
        requires { 0 < length (rules self.now) }
        ensures { result ≡ fewest_arguments (rules self.now) };

    /// The greatest number of arguments of a rule. Requires that there is one.
    fn max_arguments(&self) -> usize
        requires { 0 < length (rules self.now) }
        ensures { result ≡ most_arguments (rules self.now) };

    /// The rules that accept an argument of the type `ty` at the index `i`, counted from 0. The error is out of memory.
    fn arg(&self, alloc: Global, i: usize, ty: &TypeInner) -> Result<Self, AllocError>
        ensures { IfOk result (λ set. rules set ≡ filter (accepts_inner i (inner_view ty.now)) (rules self.now)) };

    /// The rules without abstract arguments.
    fn concrete_only(self) -> Self
        ensures { rules result ≡ filter is_concrete (rules self) };

    /// The preferred rule. Requires that there is one.
    fn most_preferred(&self) -> Rule
        requires { 0 < length (rules self.now) }
        ensures { slice_get (rules self.now) 0 ≡ Some result };

    /// The rules, the preferred one first. The error is out of memory.
    fn overload_list(&self, alloc: Global) -> Result<Vec<Rule>, AllocError>
        ensures { IfOk result (λ list. list.items ≡ rules self.now) };

    /// The types that the rules require at the index `i`, counted from 0: one for each rule that has an argument there,
    /// in their order. The error is out of memory.
    fn allowed_args(&self, alloc: Global, i: usize) -> Result<Vec<ValueType>, AllocError>
        ensures { IfOk result (λ types. types.items ≡ arguments_at i (rules self.now)) };

    // A clone has the same rules.
    ghost clones: { (set copy : Self) → Self.is_clone set copy → rules copy ≡ rules set };
}
