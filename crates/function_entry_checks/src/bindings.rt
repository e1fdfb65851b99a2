//! The bindings of the global variables that an entry point uses.

ghost use Rattle.std.specs.Prelude.{◌≡◌, ◌⊎◌, ◌↔◌, IfOk, IsTrue, MatchResult, OnOk, length};
ghost use Rattle.function_entry_checks.specs.Bindings.{IsSeen};
ghost use Rattle.function_entry_checks.specs.Faults.{IsBindingFault, IsRefusedFor};
ghost use Rattle.ir_items.specs.found.View.{module_view};
ghost use Rattle.ir_kinds.specs.declared.bindings.ResourceBinding.{ResourceBinding};
ghost use Rattle.spec_expressions.specs.judged.Summaries.{HasUseBit};
ghost use Rattle.spec_interface.specs.found.UsedVariables.{BindingsApart};

use crate::error::EntryPointError;
use ir_arena::handle::Handle;
use ir_items::Module;
use ir_kinds::ResourceBinding;
use ir_types::refusal::Refusal;
use ir_types::with_span::WithSpan;
use spec_expressions::GlobalUse;
use spec_interface::binding_at;
use std::alloc::{AllocError, Global};
use std::collections::BTreeSet;
use typing_infos::first_used;

// Notes a binding, and returns whether it is new.
fn note_binding(
    seen: &mut BTreeSet<(u32, u32)>,
    binding: ResourceBinding,
) -> Result<bool, AllocError>
    ensures fresh { IfOk result (λ fresh. IsTrue fresh ↔ (IsSeen seen.old binding → ⊥)) }
    ensures noted { OnOk result ((b : ResourceBinding) → IsSeen seen.new b ↔ (IsSeen seen.old b ⊎ (b ≡ binding))) }
{
    match seen.insert((binding.group, binding.binding)) {
        Ok(fresh) => Ok(fresh),
        Err(_) => Err(AllocError),
    }
}

/// Whether no two global variables used by an entry point have the same binding.
pub(crate) fn check_bindings(
    alloc: Global,
    module: &Module,
    uses: &[GlobalUse],
) -> Result<(), Refusal<EntryPointError>>
    requires { length uses.now ≡ length (module_view «module».now).globals }
    ensures { MatchResult result
        (λ _. BindingsApart (module_view «module».now) (HasUseBit uses.now))
        (IsRefusedFor (IsBindingFault (module_view «module».now) (HasUseBit uses.now))) }
{
    let mut seen = BTreeSet::new(alloc);
    let count = module.global_variables.len();
    let mut from = 0;
    while let Some(index) = first_used(uses, from, count) {
        let global = Handle::at(index);
        match binding_at(module, global) {
            None => {}
            Some(binding) => match note_binding(&mut seen, binding) {
                Ok(true) => {}
                Ok(false) => {
                    let error = EntryPointError::BindingCollision(global);
                    return Err(Refusal::Fault(WithSpan::new(alloc, error)));
                }
                Err(error) => return Err(Refusal::Memory(error)),
            },
        }
        from = index + 1;
    }
    Ok(())
}
