//! A whole module.

ghost use Rattle.std.specs.Prelude.{◌≡◌, IfErr, IfOk, MatchResult, None, OnOk, false, true};
ghost use Rattle.function_errors.specs.Spans.{IsRefusedAt};
ghost use Rattle.function_modules.specs.Validated.{IsFaultAfter, IsKeptWith, IsRefusedWith, IsReportedBy, IsValidated, IsValidationFault};
ghost use Rattle.function_errors.specs.declared.error.ValidationError.TheVariants as error;
ghost use Rattle.ir_items.specs.found.View.{module_view};
ghost use Rattle.module_context.specs.AcceptedTypes.{AreAccepted};
ghost use Rattle.function_errors.specs.ModuleSteps.{IsModuleFault, IsVariableFault, IsInfoOf};
ghost use Rattle.ir_items.specs.found.Filters.{ParentsPrecede};
ghost use Rattle.function_modules.specs.Made.{IsMadeOf};
ghost use Rattle.function_modules.specs.Severities.{AreKnown};
ghost use Rattle.spec_expressions.specs.judged.Context.{outside};
ghost use Rattle.spec_interface.specs.judged.Globals.{GlobalsOK};
ghost use Rattle.spec_expressions.specs.judged.ModuleHandles.{HandlesOK};
ghost use Rattle.judgement.specs.judged.ModuleSteps.{ModuleOK};
ghost use Rattle.typing_infos.specs.Types.{AreTypes};

use crate::entries::judge_entries;
use crate::functions::judge_all;
use crate::real::RealLower;
use crate::validator::Validator;
use function_errors::module_steps::{
    InvalidGlobalVariable, ModuleError, ModuleValidator, validate_globals,
};
use function_errors::{InvalidEntryPoint, InvalidFunction, ValidationError, with_spans};
use function_statement_checks::descriptors_of;
use ir_items::Module;
use ir_types::refusal::Refusal;
use ir_types::with_span::WithSpan;
use std::alloc::{AllocError, Global};
use typing_infos::ModuleInfo;

// ---- errors of steps

fn module_refusal(alloc: Global, refusal: Refusal<ModuleError>) -> Refusal<ValidationError>
    ensures { IsReportedBy error.Module refusal result }
{
    match refusal {
        Refusal::Memory(error) => Refusal::Memory(error),
        Refusal::Fault(fault) => {
            let error = ValidationError::Module(fault.into_inner());
            Refusal::Fault(WithSpan::new(alloc, error))
        }
    }
}

fn global_refusal(
    alloc: Global,
    refusal: Refusal<InvalidGlobalVariable>,
) -> Refusal<ValidationError>
    ensures { IsReportedBy error.GlobalVariable refusal result }
{
    match refusal {
        Refusal::Memory(error) => Refusal::Memory(error),
        Refusal::Fault(fault) => {
            let error = ValidationError::GlobalVariable(fault.into_inner());
            Refusal::Fault(WithSpan::new(alloc, error))
        }
    }
}

fn function_refusal(alloc: Global, refusal: Refusal<InvalidFunction>) -> Refusal<ValidationError>
    ensures { IsReportedBy error.Function refusal result }
{
    match refusal {
        Refusal::Memory(error) => Refusal::Memory(error),
        Refusal::Fault(fault) => {
            let error = ValidationError::Function(fault.into_inner());
            Refusal::Fault(WithSpan::new(alloc, error))
        }
    }
}

fn entry_refusal(alloc: Global, refusal: Refusal<InvalidEntryPoint>) -> Refusal<ValidationError>
    ensures { IsReportedBy error.EntryPoint refusal result }
{
    match refusal {
        Refusal::Memory(error) => Refusal::Memory(error),
        Refusal::Fault(fault) => {
            let error = ValidationError::EntryPoint(fault.into_inner());
            Refusal::Fault(WithSpan::new(alloc, error))
        }
    }
}

// ---- steps

// The steps up to overrides, with overrides resolved or not.
fn judge_items(
    validator: &Validator<RealLower>,
    module: &Module,
    resolved: bool,
) -> Result<ModuleInfo, Refusal<ModuleError>>
    ensures accepted { OnOk result (ModuleOK validator.now.settings resolved (module_view «module».now)) }
    ensures told { IfOk result (IsInfoOf validator.now.settings resolved (module_view «module».now)) }
    ensures refused { IfErr result (IsRefusedWith (IsModuleFault validator.now.settings resolved (module_view «module».now))) }
{
    let mut items = ModuleValidator::with_settings(validator.alloc, validator.settings);
    if resolved {
        items.validate_resolved_overrides(module)
    } else {
        items.validate(module)
    }
}

// The step of global variables, given the information on the module.
fn judge_variables(
    validator: &Validator<RealLower>,
    module: &Module,
    resolved: bool,
    info: &ModuleInfo,
) -> Result<(), Refusal<InvalidGlobalVariable>>
    requires handles { HandlesOK (module_view «module».now) }
    requires told { AreAccepted validator.now.settings.capabilities resolved (module_view «module».now).types info.now.types.items }
    requires typed { AreTypes (outside (module_view «module».now)) (module_view «module».now).global_expressions info.now.const_expression_types.items }
    ensures accepted { OnOk result (GlobalsOK validator.now.settings.flags validator.now.settings.capabilities (module_view «module».now)) }
    ensures refused { IfErr result (IsRefusedWith (IsVariableFault validator.now.settings.flags validator.now.settings.capabilities (module_view «module».now))) }
{
    validate_globals(
        validator.alloc,
        validator.settings,
        resolved,
        module,
        info.types(),
        info.const_expression_types(),
    )
}

// A validator with the settings of another one, over the information on a module and the severities at the nodes of its
// diagnostic filters. The error is out of memory.
fn over(
    validator: &Validator<RealLower>,
    info: ModuleInfo,
    module: &Module,
) -> Result<Validator<RealLower>, AllocError>
    requires { ParentsPrecede (module_view «module».now).filters }
    ensures settings { IfOk result (λ own. own.settings ≡ validator.now.settings) }
    ensures info { IfOk result (λ own. own.lower.info ≡ info) }
    ensures severities { IfOk result (λ own. AreKnown (module_view «module».now) own.lower.severities) }
{
    let lower = RealLower::with_severities(validator.alloc, info, module)?;
    Ok(Validator {
        alloc: validator.alloc,
        lower,
        settings: validator.settings,
        held: None,
    })
}

// The steps of functions and of entry points, over the information on their module.
fn judge_after(
    own: Validator<RealLower>,
    module: &Module,
) -> Result<ModuleInfo, Refusal<ValidationError>>
    requires made { IsMadeOf (module_view «module».now) own.lower.info }
    requires known { AreKnown (module_view «module».now) own.lower.severities }
    ensures { MatchResult result
        (IsKeptWith own.settings (module_view «module».now) own.lower.info)
        (IsRefusedWith (IsFaultAfter own.settings (module_view «module».now))) }
{
    let alloc = own.alloc;
    let declared = module.special_types.ray_desc;
    let descriptors = match descriptors_of(alloc, &module.types, declared) {
        Ok(descriptors) => descriptors,
        Err(error) => return Err(Refusal::Memory(error)),
    };
    let marks = descriptors.as_slice();
    let functions = match judge_all(&own, module, marks) {
        Ok(functions) => functions,
        Err(refusal) => return Err(function_refusal(alloc, refusal)),
    };
    match judge_entries(&own, module, &functions.infos, functions.held, marks) {
        Ok(entries) => {
            let info = own.lower.into_info().with_functions(functions.infos);
            Ok(info.with_entry_points(entries.infos))
        }
        Err(refusal) => Err(entry_refusal(alloc, refusal)),
    }
}

// All steps.
fn judge(
    validator: &Validator<RealLower>,
    module: &Module,
    resolved: bool,
) -> Result<ModuleInfo, Refusal<ValidationError>>
    ensures { MatchResult result
        (IsValidated validator.now.settings resolved (module_view «module».now))
        (IsRefusedWith (IsValidationFault validator.now.settings resolved (module_view «module».now))) }
{
    let alloc = validator.alloc;
    let info = match judge_items(validator, module, resolved) {
        Ok(info) => info,
        Err(refusal) => return Err(module_refusal(alloc, refusal)),
    };
    match judge_variables(validator, module, resolved, &info) {
        Ok(()) => {}
        Err(refusal) => return Err(global_refusal(alloc, refusal)),
    }
    let own = match over(validator, info, module) {
        Ok(own) => own,
        Err(error) => return Err(Refusal::Memory(error)),
    };
    match judge_after(own, module) {
        Ok(info) => Ok(info),
        Err(refusal) => Err(refusal),
    }
}

impl Validator<RealLower> {
    /// Whether a module is valid, and the information on it (naga's `Validator::validate`): the `TypeInfo`s and layouts of its
    /// types, the types of its global expressions, and for each function and the function of each entry point its uses and
    /// sampling pairs over all call chains from it.
    ///
    /// The result depends only on the module, the flags, the capabilities and the subgroup operations with their stages:
    /// earlier results are cleared first, after an error and without memory too, and the validator's own layer is not used.
    ///
    /// # Errors
    ///
    /// [`Refusal::Fault`] exactly if some step fails: the first that does, at the first item that fails it, with an error of
    /// its own. Its spans are the known ones of the items that it names: the expression or the variable of the function first,
    /// and then the function, or the invalid item. [`Refusal::Memory`] if out of memory.
    pub fn validate(&mut self, module: &Module) -> Result<ModuleInfo, Refusal<ValidationError>>
        ensures judged { MatchResult result
            (IsValidated self.old.settings false (module_view «module».now))
            (IsRefusedAt (IsValidationFault self.old.settings false (module_view «module».now)) «module».now) }
        ensures forgotten { self.new ≡ record self.old { held = None } }
    {
        self.reset();
        let judged = judge(self, module, false);
        with_spans(module, judged)
    }

    /// The same for a module whose overrides must be resolved (naga's `Validator::validate_resolved_overrides`): an override
    /// without a value is invalid, and so is an array size that is an override.
    ///
    /// # Errors
    ///
    /// Those of [`Validator::validate`].
    pub fn validate_resolved_overrides(
        &mut self,
        module: &Module,
    ) -> Result<ModuleInfo, Refusal<ValidationError>>
        ensures judged { MatchResult result
            (IsValidated self.old.settings true (module_view «module».now))
            (IsRefusedAt (IsValidationFault self.old.settings true (module_view «module».now)) «module».now) }
        ensures forgotten { self.new ≡ record self.old { held = None } }
    {
        self.reset();
        let judged = judge(self, module, true);
        with_spans(module, judged)
    }
}
