//! The validator of functions, over any layer.

ghost use Rattle.std.specs.Prelude.{◌≡◌, ◌<◌, ◌↔◌, ℕ, IfErr, IfOk, IfSome, MatchResult, None, OnErr, OnOk, false, length, map};
ghost use Rattle.function_entry_checks.specs.Faults.{IsRefusedFor as IsRefusalFor};
ghost use Rattle.function_whole.specs.EntryFaults.{IsEntryPointFaultAt, IsRefusedAs, IsRefusedAt as IsEntryRefusedAt};
ghost use Rattle.function_whole.specs.Globals.{IsRefusedFor as IsVariableRefused, IsVariableOf};
ghost use Rattle.function_whole.specs.Validated.{IsEntryValidated};
ghost use Rattle.function_whole.specs.Faults.{IsFunctionFault, IsFunctionFaultAt};
ghost use Rattle.function_whole.specs.FunctionInterface.{IsRefusedAt, IsRefusedFor, question};
ghost use Rattle.function_modules.specs.Judged.{AreJudgedWith, FunctionKeeps, IsRefusal};
ghost use Rattle.function_modules.specs.Settings.{KeepsSettings};
ghost use Rattle.module_globals.specs.Faults.{IsWrongBy};
ghost use Rattle.ir_flags.specs.Sets.{Has};
ghost use Rattle.ir_items.specs.found.GlobalView.{global_view};
ghost use Rattle.ir_items.specs.found.View.{entry_view, function_view, module_view};
ghost use Rattle.ir_items.specs.declared.entries.MeshStageInfo.{MeshStageInfo};
ghost use Rattle.ir_items.specs.found.Filters.{ParentsPrecede};
ghost use Rattle.spec_expressions.specs.judged.CallChains.{HasUse};
ghost use Rattle.spec_expressions.specs.judged.Summaries.{CalleesKnown, IsJoined, IsSummary};
ghost use Rattle.spec_interface.specs.judged.Globals.{VariableBy};
ghost use Rattle.spec_statements.specs.judged.ExpressionStages.{all_stages};
ghost use Rattle.spec_expressions.specs.judged.FunctionHandles.{HandlesInRange, OperandsPrecede};
ghost use Rattle.spec_expressions.specs.judged.ModuleHandles.{HandlesOK};
ghost use Rattle.spec_statements.specs.judged.Functions.{FunctionOK, AllowsStage};
ghost use Rattle.spec_statements.specs.judged.Payloads.{IsPayloadAfter};

use crate::functions::judge_all;
use bitflags::Flags;
use function_entry_checks::EntryPointError;
use function_errors::InvalidFunction;
use function_statement_checks::descriptors_of;
use function_whole::function_interface::Lower;
use function_whole::{validate_entry_point, validate_function, validate_global_var};
use ir_arena::handle::Handle;
use ir_flags::{Capabilities, Settings, ShaderStages, SubgroupOperationSet, ValidationFlags};
use ir_items::{EntryPoint, Function, GlobalVariable, Module};
use ir_places::Trail;
use ir_types::key;
use ir_types::refusal::Refusal;
use module_globals::GlobalVariableError;
use std::alloc::Global;
use typing_errors::FunctionError;

/// Validates the functions of a module, in order (naga's `Validator`, as far as it concerns functions). It keeps the payload
/// type of the rays so far, and no other state.
#[derive(Drop)]
pub struct Validator<L> {
    pub(crate) alloc: Global,
    /// The layer.
    pub lower: L,
    /// The settings.
    pub settings: Settings,
    /// The payload type of the functions so far, if any.
    pub held: Option<Handle<key::IrType>>,
}

impl<L: Lower> Validator<L> {
    /// A validator with these flags and capabilities, without subgroup operations. It allocates nothing.
    pub fn new(alloc: Global, lower: L, flags: ValidationFlags, capabilities: Capabilities) -> Self
        ensures { result ≡ record {
          alloc = alloc;
          lower = lower;
          settings = record { flags = flags; capabilities = capabilities; subgroup_stages = record { 0 = 0 }; subgroup_operations = record { 0 = 0 } };
          held = None;
        } }
    {
        Validator {
            alloc,
            lower,
            settings: Settings {
                flags,
                capabilities,
                subgroup_stages: ShaderStages(0),
                subgroup_operations: SubgroupOperationSet(0),
            },
            held: None,
        }
    }

    /// A validator with these settings.
    pub fn with_settings(alloc: Global, lower: L, settings: Settings) -> Self
        ensures lower { result.lower ≡ lower }
        ensures settings { result.settings ≡ settings }
        ensures held { result.held ≡ None }
    {
        Validator {
            alloc,
            lower,
            settings,
            held: None,
        }
    }

    /// Sets the stages with subgroup operations.
    pub fn subgroup_stages(&mut self, stages: ShaderStages)
        ensures { self.new ≡ record self.old { settings = record self.old.settings { subgroup_stages = stages } } }
    {
        self.settings.subgroup_stages = stages;
    }

    /// Sets the supported subgroup operations.
    pub fn subgroup_operations(&mut self, operations: SubgroupOperationSet)
        ensures { self.new ≡ record self.old { settings = record self.old.settings { subgroup_operations = operations } } }
    {
        self.settings.subgroup_operations = operations;
    }

    /// Clears the payload type of earlier functions.
    pub fn reset(&mut self)
        ensures { self.new ≡ record self.old { held = None } }
    {
        self.held = None;
    }

    /// Whether a function of the module is valid, and the information on it (naga's `Validator::validate_function`). `mod_info`
    /// has the results of this call for earlier functions, in order, in which stages and uses may have been noted since;
    /// `entry_point` is whether the function is an entry point's. The payload type is kept if the function is valid; an error
    /// leaves the validator unchanged.
    ///
    /// Requires that the layer was made for the module, and that the handles of the function are in order.
    ///
    /// # Errors
    ///
    /// Those of [`validate_function`].
    pub fn validate_function(
        &mut self,
        fun: &Function,
        module: &Module,
        mod_info: &[L::Info],
        entry_point: bool,
    ) -> Result<L::Info, Refusal<FunctionError>>
        requires made { L.is_for self.old.lower (module_view «module».now) }
        requires handles { HandlesInRange (module_view «module».now) (function_view fun.now) }
        requires precede { OperandsPrecede (function_view fun.now).expressions }
        requires parents { ParentsPrecede (module_view «module».now).filters }
        ensures accepted { let q = question (module_view «module».now) (function_view fun.now) (map (L.summary self.old.lower) mod_info.now) (map (L.noted self.old.lower) mod_info.now) in
            OnOk result (FunctionOK (L.reading self.old.lower q) self.old.settings entry_point self.old.held q.m q.f) }
        ensures refused { let q = question (module_view «module».now) (function_view fun.now) (map (L.summary self.old.lower) mod_info.now) (map (L.noted self.old.lower) mod_info.now) in
            IfErr result (IsRefusedFor (λ _. FunctionOK (L.reading self.old.lower q) self.old.settings entry_point self.old.held q.m q.f → ⊥)) }
        ensures fault { let q = question (module_view «module».now) (function_view fun.now) (map (L.summary self.old.lower) mod_info.now) (map (L.noted self.old.lower) mod_info.now) in
            IfErr result (IsRefusedFor (IsFunctionFault (L.reading self.old.lower q) (L.faults self.old.lower q) self.old.settings entry_point self.old.held q.m q.f)) }
        ensures noted { let q = question (module_view «module».now) (function_view fun.now) (map (L.summary self.old.lower) mod_info.now) (map (L.noted self.old.lower) mod_info.now) in
            IfOk result (λ info. (stage : ℕ) → Has (L.noted self.old.lower info).0 stage ↔ (Has all_stages.0 stage × AllowsStage (L.reading self.old.lower q) self.old.settings q.stages q.f stage)) }
        ensures joined { IfOk result (λ info. IsJoined (length (module_view «module».now).globals) (function_view fun.now) (map (L.summary self.old.lower) mod_info.now) (L.summary self.old.lower info)) }
        ensures chains { CalleesKnown (module_view «module».now) (function_view fun.now) (map (L.summary self.old.lower) mod_info.now)
            → IfOk result (λ info. IsSummary (module_view «module».now) (function_view fun.now) (L.summary self.old.lower info)) }
        ensures held { OnOk result (IsPayloadAfter self.old.settings.flags (module_view «module».now) (function_view fun.now) self.old.held self.new.held) }
        ensures own { IfOk result (L.own self.old.lower (module_view «module».now) (function_view fun.now)) }
        ensures unblended { IfOk result (λ info. L.blending self.old.lower info ≡ false) }
        ensures unchanged { OnErr result (self.new ≡ self.old) }
        ensures settings { KeepsSettings self.old self.new }
    {
        let mut trail = Trail::new(self.alloc);
        match self.validate_function_placed(&mut trail, fun, module, mod_info, entry_point) {
            Ok(info) => Ok(info),
            Err(refusal) => Err(refusal),
        }
    }

    /// The same, with a trail to the call or the statement with the error, if it is in one of these and the trail is not lost.
    ///
    /// # Errors
    ///
    /// Those of [`validate_function`].
    pub fn validate_function_placed(
        &mut self,
        trail: &mut Trail,
        fun: &Function,
        module: &Module,
        mod_info: &[L::Info],
        entry_point: bool,
    ) -> Result<L::Info, Refusal<FunctionError>>
        requires made { L.is_for self.old.lower (module_view «module».now) }
        requires handles { HandlesInRange (module_view «module».now) (function_view fun.now) }
        requires precede { OperandsPrecede (function_view fun.now).expressions }
        requires parents { ParentsPrecede (module_view «module».now).filters }
        ensures accepted { let q = question (module_view «module».now) (function_view fun.now) (map (L.summary self.old.lower) mod_info.now) (map (L.noted self.old.lower) mod_info.now) in
            OnOk result (FunctionOK (L.reading self.old.lower q) self.old.settings entry_point self.old.held q.m q.f) }
        ensures refused { let q = question (module_view «module».now) (function_view fun.now) (map (L.summary self.old.lower) mod_info.now) (map (L.noted self.old.lower) mod_info.now) in
            IfErr result (IsRefusedFor (λ _. FunctionOK (L.reading self.old.lower q) self.old.settings entry_point self.old.held q.m q.f → ⊥)) }
        ensures fault { let q = question (module_view «module».now) (function_view fun.now) (map (L.summary self.old.lower) mod_info.now) (map (L.noted self.old.lower) mod_info.now) in
            IfErr result (IsRefusedFor (IsFunctionFault (L.reading self.old.lower q) (L.faults self.old.lower q) self.old.settings entry_point self.old.held q.m q.f)) }
        ensures placed { let q = question (module_view «module».now) (function_view fun.now) (map (L.summary self.old.lower) mod_info.now) (map (L.noted self.old.lower) mod_info.now) in
            IfErr result (IsRefusedAt trail.new (IsFunctionFaultAt (L.reading self.old.lower q) (L.faults self.old.lower q) self.old.settings entry_point self.old.held q.m q.f)) }
        ensures noted { let q = question (module_view «module».now) (function_view fun.now) (map (L.summary self.old.lower) mod_info.now) (map (L.noted self.old.lower) mod_info.now) in
            IfOk result (λ info. (stage : ℕ) → Has (L.noted self.old.lower info).0 stage ↔ (Has all_stages.0 stage × AllowsStage (L.reading self.old.lower q) self.old.settings q.stages q.f stage)) }
        ensures joined { IfOk result (λ info. IsJoined (length (module_view «module».now).globals) (function_view fun.now) (map (L.summary self.old.lower) mod_info.now) (L.summary self.old.lower info)) }
        ensures chains { CalleesKnown (module_view «module».now) (function_view fun.now) (map (L.summary self.old.lower) mod_info.now)
            → IfOk result (λ info. IsSummary (module_view «module».now) (function_view fun.now) (L.summary self.old.lower info)) }
        ensures held { OnOk result (IsPayloadAfter self.old.settings.flags (module_view «module».now) (function_view fun.now) self.old.held self.new.held) }
        ensures own { IfOk result (L.own self.old.lower (module_view «module».now) (function_view fun.now)) }
        ensures unblended { IfOk result (λ info. L.blending self.old.lower info ≡ false) }
        ensures unchanged { OnErr result (self.new ≡ self.old) }
        ensures settings { KeepsSettings self.old self.new }
    {
        match validate_function(
            &self.lower,
            self.alloc,
            trail,
            self.settings,
            entry_point,
            self.held,
            module,
            fun,
            mod_info,
        ) {
            Ok(validated) => {
                self.held = validated.held;
                Ok(validated.info)
            }
            Err(refusal) => Err(refusal),
        }
    }

    /// Whether an entry point of the module is valid, and the information on it (naga's `Validator::validate_entry_point`),
    /// except that no earlier one has its stage and its name. `mod_info` has the results of [`Validator::validate_function`]
    /// for the functions of the module, in order, in which stages and uses may have been noted since. The payload type is kept
    /// if the entry point is valid; an error leaves the validator unchanged.
    ///
    /// Requires that the layer was made for the module, and that its handles are in order.
    ///
    /// # Errors
    ///
    /// Those of [`validate_entry_point`].
    pub fn validate_entry_point(
        &mut self,
        ep: &EntryPoint,
        module: &Module,
        mod_info: &[L::Info],
    ) -> Result<L::Info, Refusal<EntryPointError>>
        requires made { L.is_for self.old.lower (module_view «module».now) }
        requires handles { HandlesInRange (module_view «module».now) (entry_view ep.now).function }
        requires precede { OperandsPrecede (entry_view ep.now).function.expressions }
        requires parents { ParentsPrecede (module_view «module».now).filters }
        requires payload { IfSome ep.now.task_payload (λ g. g < length (module_view «module».now).globals) }
        requires output { IfSome ep.now.mesh_info (λ (i : MeshStageInfo). i.output_variable < length (module_view «module».now).globals) }
        requires known { CalleesKnown (module_view «module».now) (entry_view ep.now).function (map (L.summary self.old.lower) mod_info.now) }
        ensures judged { let m = module_view «module».now in
            let e = entry_view ep.now in
            let q = question m e.function (map (L.summary self.old.lower) mod_info.now) (map (L.noted self.old.lower) mod_info.now) in
            MatchResult result
            (λ info. IsEntryValidated (L.reading self.old.lower q) q.stages self.old.settings self.old.held m e (L.summary self.old.lower info) (L.noted self.old.lower info) (L.blending self.old.lower info) self.new.held)
            (IsRefusalFor (IsRefusedAs (L.reading self.old.lower q) (L.faults self.old.lower q) q.stages (HasUse m e.function) self.old.settings self.old.held m e)) }
        ensures own { IfOk result (L.own self.old.lower (module_view «module».now) (entry_view ep.now).function) }
        ensures unchanged { OnErr result (self.new ≡ self.old) }
        ensures settings { KeepsSettings self.old self.new }
    {
        let mut trail = Trail::new(self.alloc);
        match self.validate_entry_point_placed(&mut trail, ep, module, mod_info) {
            Ok(info) => Ok(info),
            Err(refusal) => Err(refusal),
        }
    }

    /// The same, with a trail to the call or the statement with the error in its function, if it is in one of these and the
    /// trail is not lost.
    ///
    /// # Errors
    ///
    /// Those of [`validate_entry_point`].
    pub fn validate_entry_point_placed(
        &mut self,
        trail: &mut Trail,
        ep: &EntryPoint,
        module: &Module,
        mod_info: &[L::Info],
    ) -> Result<L::Info, Refusal<EntryPointError>>
        requires made { L.is_for self.old.lower (module_view «module».now) }
        requires handles { HandlesInRange (module_view «module».now) (entry_view ep.now).function }
        requires precede { OperandsPrecede (entry_view ep.now).function.expressions }
        requires parents { ParentsPrecede (module_view «module».now).filters }
        requires payload { IfSome ep.now.task_payload (λ g. g < length (module_view «module».now).globals) }
        requires output { IfSome ep.now.mesh_info (λ (i : MeshStageInfo). i.output_variable < length (module_view «module».now).globals) }
        requires known { CalleesKnown (module_view «module».now) (entry_view ep.now).function (map (L.summary self.old.lower) mod_info.now) }
        ensures judged { let m = module_view «module».now in
            let e = entry_view ep.now in
            let q = question m e.function (map (L.summary self.old.lower) mod_info.now) (map (L.noted self.old.lower) mod_info.now) in
            MatchResult result
            (λ info. IsEntryValidated (L.reading self.old.lower q) q.stages self.old.settings self.old.held m e (L.summary self.old.lower info) (L.noted self.old.lower info) (L.blending self.old.lower info) self.new.held)
            (IsRefusalFor (IsRefusedAs (L.reading self.old.lower q) (L.faults self.old.lower q) q.stages (HasUse m e.function) self.old.settings self.old.held m e)) }
        ensures placed { let m = module_view «module».now in
            let e = entry_view ep.now in
            let q = question m e.function (map (L.summary self.old.lower) mod_info.now) (map (L.noted self.old.lower) mod_info.now) in
            IfErr result (IsEntryRefusedAt trail.new (IsEntryPointFaultAt (L.reading self.old.lower q) (L.faults self.old.lower q) q.stages (HasUse m e.function) self.old.settings self.old.held m e)) }
        ensures own { IfOk result (L.own self.old.lower (module_view «module».now) (entry_view ep.now).function) }
        ensures unchanged { OnErr result (self.new ≡ self.old) }
        ensures settings { KeepsSettings self.old self.new }
    {
        match validate_entry_point(
            &self.lower,
            self.alloc,
            trail,
            self.settings,
            self.held,
            module,
            ep,
            mod_info,
        ) {
            Ok(kept) => {
                self.held = kept.held;
                Ok(kept.info)
            }
            Err(refusal) => Err(refusal),
        }
    }

    /// Whether a global variable of the module is valid, with the types of global expressions of the layer (naga's
    /// `Validator::validate_global_var`). If the variable has an initializer, it takes time and memory for each global
    /// expression; [`Validator::validate`] visits them only once.
    ///
    /// Requires that the layer was made for the module, that the handles of the module are in order, and that the variable is
    /// one of the module's.
    ///
    /// # Errors
    ///
    /// [`Refusal::Fault`] exactly if the variable is invalid, with an error whose condition holds and no span; if several hold,
    /// it is one of them. [`Refusal::Memory`] if out of memory. The validator is unchanged in any case.
    pub fn validate_global_var(
        &self,
        var: &GlobalVariable,
        module: &Module,
    ) -> Result<(), Refusal<GlobalVariableError>>
        requires made { L.is_for self.now.lower (module_view «module».now) }
        requires handles { HandlesOK (module_view «module».now) }
        requires part { IsVariableOf (module_view «module».now) (global_view var.now) }
        ensures { let m = module_view «module».now in
            let v = global_view var.now in
            MatchResult result
            (λ _. VariableBy (L.has_global_form self.now.lower m) self.now.settings.flags self.now.settings.capabilities m v)
            (IsVariableRefused (IsWrongBy (L.has_global_form self.now.lower m) self.now.settings.flags self.now.settings.capabilities m v)) }
    {
        validate_global_var(
            &self.lower,
            self.alloc,
            self.settings.flags,
            self.settings.capabilities,
            module,
            var,
        )
    }

    /// Validates all functions of a module in order, and returns the information on each (the part of naga's
    /// `Validator::validate` that concerns functions). Earlier results are cleared first, so that the result is that of a fresh
    /// validator; afterwards the payload type of these functions is kept, and after an error none.
    ///
    /// Requires that the layer was made for the module, and that its handles are in order.
    ///
    /// # Errors
    ///
    /// The first invalid function, with an error of its own and no span, from [`validate_function`]; or out of memory.
    pub fn validate_functions(
        &mut self,
        module: &Module,
    ) -> Result<Vec<L::Info>, Refusal<InvalidFunction>>
        requires made { L.is_for self.old.lower (module_view «module».now) }
        requires handles { HandlesOK (module_view «module».now) }
        ensures judged { let s = self.old.settings in
            MatchResult result
            (λ infos. AreJudgedWith (L.reading self.old.lower) s (module_view «module».now) (FunctionKeeps (L.own self.old.lower (module_view «module».now)) (L.blending self.old.lower)) (length (module_view «module».now).functions) infos.items (map (L.summary self.old.lower) infos.items) (map (L.noted self.old.lower) infos.items) self.new.held)
            (IsRefusal (L.reading self.old.lower) (L.faults self.old.lower) s (module_view «module».now)) }
        ensures none_held { OnErr result (self.new.held ≡ None) }
        ensures settings { KeepsSettings self.old self.new }
    {
        self.reset();
        let declared = module.special_types.ray_desc;
        let descriptors = descriptors_of(self.alloc, &module.types, declared)?;
        match judge_all(self, module, &descriptors) {
            Ok(judged) => {
                self.held = judged.held;
                Ok(judged.infos)
            }
            Err(refusal) => Err(refusal),
        }
    }
}
