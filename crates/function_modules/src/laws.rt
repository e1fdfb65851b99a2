//! The layer made for a module, and what is required of a valid module.

ghost use Rattle.std.specs.Prelude.{◌≡◌, length};
ghost use Rattle.ir_items.specs.found.View.{module_view};
ghost use Rattle.function_modules.specs.EntryCalls.{EntriesAreReady};
ghost use Rattle.function_modules.specs.MadeFor.{MadeForAccepted};
ghost use Rattle.judgement_laws.specs.judged.Sound.{BoundsDepth};

use ir_items::Module;

/// If [`function_errors::module_steps::ModuleValidator::validate`] or [`function_errors::module_steps::ModuleValidator::validate_resolved_overrides`] accepts a
/// module, the layer that [`crate::RealLower::new`] makes of its `ModuleInfo` was made for that module, as the
/// calls of [`crate::Validator`] require.
pub fn made_for_accepted()
    ensures { MadeForAccepted }
{}

/// In a module with valid handles, each entry point is as [`crate::Validator::validate_entry_point`] requires, if the `infos` are
/// those of [`crate::Validator::validate_functions`].
pub fn entries_are_ready()
    ensures { EntriesAreReady }
{}

/// A bound on the call depth of a run, where the entry point's own body has depth 0: the number of the module's functions.
///
/// It holds for every module that all steps accept with the flags for layouts, bodies and expressions.
pub fn entry_depth_bound(module: &Module) -> usize
    ensures value { result ≡ length (module_view «module».now).functions }
    ensures bound { BoundsDepth (module_view «module».now) result }
{
    module.functions.len()
}
