//! The validator of a module up to its overrides.

ghost use Rattle.std.specs.Prelude.{◌≡◌, [], MatchResult, IfOk, IfErr, OnOk, false, true};
ghost use Rattle.ir_items.specs.found.View.{module_view};
ghost use Rattle.module_steps.specs.Faults.{IsRefusal};
ghost use Rattle.module_steps.specs.Reported.{IsInfoOf};
ghost use Rattle.typing_layout.specs.judged.Widths.{ScalarOK};
ghost use Rattle.spec_expressions.specs.judged.LiteralScalars.{LiteralOK};
ghost use Rattle.judgement.specs.judged.ModuleSteps.{ModuleOK};
ghost use Rattle.typing_layout.specs.found.Faults.{IsWidthFault};
ghost use Rattle.module_type_checks.specs.Widths.{IsLiteralFault};

use crate::{ModuleError, check_handles, check_values, expression_types, lay_out, type_infos};
use ir_flags::{Capabilities, Settings, ShaderStages, SubgroupOperationSet, ValidationFlags};
use ir_items::Module;
use ir_kinds::{Literal, Scalar};
use ir_types::refusal::Refusal;
use module_type_checks::{check_width, validate_literal};
use std::alloc::Global;
use std::mem;
use typing_infos::ModuleInfo;
use typing_layout::{Layouter, LiteralError, WidthError};

/// The validator of modules up to their overrides (naga's `Validator`, as far as it concerns items outside
/// functions). It keeps allocated memory from one module to the next, and no other state.
#[derive(Drop)]
pub struct ModuleValidator {
    alloc: Global,
    pub(crate) settings: Settings,
    layouter: Layouter,
}

impl ModuleValidator {
    /// A validator with these flags and capabilities. It allocates nothing.
    pub fn new(alloc: Global, flags: ValidationFlags, capabilities: Capabilities) -> Self
        ensures { result.settings ≡ record { flags = flags; capabilities = capabilities; subgroup_stages = record { 0 = 0 }; subgroup_operations = record { 0 = 0 } } }
    {
        let settings = Settings {
            flags,
            capabilities,
            subgroup_stages: ShaderStages(0),
            subgroup_operations: SubgroupOperationSet(0),
        };
        ModuleValidator::with_settings(alloc, settings)
    }

    /// A validator with these settings. Subgroup settings are ignored. It allocates nothing.
    pub fn with_settings(alloc: Global, settings: Settings) -> Self
        ensures { result.settings ≡ settings }
    {
        ModuleValidator {
            alloc,
            settings,
            layouter: Layouter::new(alloc),
        }
    }

    /// Clears the results of the previous module. Each validation calls it first.
    pub fn reset(&mut self)
        ensures forgotten { self.new.layouter ≡ [] }
        ensures settings { self.new.settings ≡ self.old.settings }
    {
        self.layouter.clear();
    }

    // Validates a module, with overrides resolved or not.
    fn judge(&mut self, module: &Module, resolved: bool) -> Result<ModuleInfo, Refusal<ModuleError>>
        ensures accepted { OnOk result (ModuleOK self.old.settings resolved (module_view «module».now)) }
        ensures told { IfOk result (IsInfoOf self.old.settings resolved (module_view «module».now)) }
        ensures refused { IfErr result (IsRefusal self.old.settings resolved (module_view «module».now)) }
        ensures settings { self.new.settings ≡ self.old.settings }
    {
        self.reset();
        let alloc = self.alloc;
        let settings = self.settings;
        check_handles(alloc, settings, resolved, module)?;
        lay_out(alloc, settings, resolved, module, &mut self.layouter)?;
        let infos = type_infos(alloc, settings, resolved, module, &self.layouter)?;
        let types = expression_types(alloc, settings, resolved, module)?;
        check_values(alloc, settings, resolved, module, &infos, &types)?;
        let layouter = mem::replace(&mut self.layouter, Layouter::new(alloc));
        Ok(ModuleInfo::of_parts(alloc, infos, layouter, types))
    }

    /// Validates a module up to its overrides, and returns its `TypeInfo`s and the types of its global expressions (naga's
    /// `Validator::validate`, without global variables, functions and entry points). The result is that of a fresh validator,
    /// whatever was validated before.
    ///
    /// # Errors
    ///
    /// The first failing step, at the first failing item, with an error of that item and no span: invalid handles,
    /// a type without a layout, an invalid type, a global expression whose type can't be inferred, an invalid global expression,
    /// constant or override. The last three are not checked without [`ValidationFlags::CONSTANTS`]. Or out of
    /// memory.
    pub fn validate(&mut self, module: &Module) -> Result<ModuleInfo, Refusal<ModuleError>>
        ensures accepted { OnOk result (ModuleOK self.old.settings false (module_view «module».now)) }
        ensures told { IfOk result (IsInfoOf self.old.settings false (module_view «module».now)) }
        ensures refused { IfErr result (IsRefusal self.old.settings false (module_view «module».now)) }
        ensures settings { self.new.settings ≡ self.old.settings }
    {
        self.judge(module, false)
    }

    /// Validates a module whose overrides must be resolved (naga's `Validator::validate_resolved_overrides`).
    ///
    /// # Errors
    ///
    /// As [`ModuleValidator::validate`]; also if a size depends on an override, an override has no initializer, or a global
    /// expression still depends on one.
    pub fn validate_resolved_overrides(
        &mut self,
        module: &Module,
    ) -> Result<ModuleInfo, Refusal<ModuleError>>
        ensures accepted { OnOk result (ModuleOK self.old.settings true (module_view «module».now)) }
        ensures told { IfOk result (IsInfoOf self.old.settings true (module_view «module».now)) }
        ensures refused { IfErr result (IsRefusal self.old.settings true (module_view «module».now)) }
        ensures settings { self.new.settings ≡ self.old.settings }
    {
        self.judge(module, true)
    }

    /// Whether a scalar type of this kind and width is valid.
    ///
    /// # Errors
    ///
    /// The width is invalid, a capability is missing, or the kind is abstract. An error is returned only if its condition holds.
    pub fn check_width(&self, scalar: Scalar) -> Result<(), WidthError>
        ensures { MatchResult result (λ _. ScalarOK self.now.settings.capabilities scalar) (IsWidthFault self.now.settings.capabilities scalar) }
    {
        check_width(self.settings.capabilities, scalar)
    }

    /// Whether a literal is valid.
    ///
    /// # Errors
    ///
    /// Its scalar type is invalid.
    pub fn validate_literal(&self, literal: Literal) -> Result<(), LiteralError>
        ensures { MatchResult result (λ _. LiteralOK self.now.settings.capabilities literal) (IsLiteralFault self.now.settings.capabilities literal) }
    {
        validate_literal(self.settings.capabilities, literal)
    }
}
