//! The layer below the function checks.

ghost use Rattle.std.specs.Prelude.{◌≡◌, IfOk, None, length};
ghost use Rattle.ir_items.specs.found.View.{module_view};
ghost use Rattle.ir_items.specs.found.Filters.{ParentsPrecede};
ghost use Rattle.function_modules.specs.Severities.{AreKnown, severities_in};

use function_statement_checks::BlockContext;
use function_whole::function_interface::{Lower, NotedStages};
use ir_arena::handle::Handle;
use ir_flags::{ShaderStages, ValidationFlags};
use ir_items::{Function, Module};
use ir_kinds::Severity;
use ir_types::key;
use ir_types::refusal::Refusal;
use module_context::CheckContext;
use module_expressions::{expression_stages, validate_expression};
use spec_expressions::{GlobalUse, SamplingPair};
use std::alloc::{AllocError, Global};
use typing_analysis::process_by;
use typing_errors::{ExpressionError, FunctionError};
use typing_forms::TypeResolution;
use typing_infos::{FunctionInfo, ModuleInfo};
use typing_layout::TypeInfo;
use typing_uniformity::severities_of;

/// The information on a module, with the type inference of its expressions, the analysis of its functions and the checks of
/// their expressions. It may have the severity of derivative uniformity at each node of the module's diagnostic filters; if
/// not, the filters are searched for each function.
#[derive(Drop)]
pub struct RealLower {
    info: ModuleInfo,
    severities: Option<Vec<Option<Severity>>>,
}

impl RealLower {
    /// The layer for the module with this information.
    pub fn new(info: ModuleInfo) -> RealLower
        ensures info { result.info ≡ info }
        ensures severities { result.severities ≡ None }
    {
        RealLower {
            info,
            severities: None,
        }
    }

    /// The same, with the severities at the nodes of the module's diagnostic filters, found once for all functions. Requires
    /// that each node comes after its parent. The error is out of memory.
    pub fn with_severities(
        alloc: Global,
        info: ModuleInfo,
        module: &Module,
    ) -> Result<RealLower, AllocError>
        requires { ParentsPrecede (module_view «module».now).filters }
        ensures info { IfOk result (λ lower. lower.info ≡ info) }
        ensures severities { IfOk result (λ lower. AreKnown (module_view «module».now) lower.severities) }
        ensures many { IfOk result (λ lower. length (severities_in lower.severities) ≡ length «module».now.diagnostic_filters) }
    {
        let severities = severities_of(alloc, module)?;
        Ok(RealLower {
            info,
            severities: Some(severities),
        })
    }

    fn severities(&self) -> &[Option<Severity>]
        ensures { result.now ≡ severities_in self.now.severities }
    {
        match &self.severities {
            Some(severities) => severities,
            None => &[],
        }
    }

    /// The information on the module.
    pub fn info(&self) -> &ModuleInfo
        ensures { result.now ≡ self.now.info }
    {
        &self.info
    }

    /// The information on the module, by value.
    pub fn into_info(self) -> ModuleInfo
        ensures { result ≡ self.info }
    {
        self.info
    }
}

impl Lower for RealLower {
    type Info = FunctionInfo;

    ghost use Rattle.typing_infos.specs.Infos.{summary_of};
    ghost use Rattle.typing_analysis.specs.Infos.{IsOwnInfo};
    ghost use Rattle.function_modules.specs.Made.{IsMadeOf, types_of};
    ghost use Rattle.function_modules.specs.Severities.{AreKnown};
    ghost use Rattle.function_modules.specs.Readings.{reading_of, faults_of};
    ghost use Rattle.function_modules.specs.Laws.{one_form_by, one_global_form_by, one_run_by, expression_refuted_by, initializer_typed_by};
    ghost use Rattle.spec_expressions.specs.judged.Typing.{HasGlobalType};

    ghost is_for = { λ l m. IsMadeOf m l.info × AreKnown m l.severities };

    ghost reading = { λ _ q. reading_of q };

    ghost faults = { λ _ q. faults_of q };

    ghost told = { λ l. l.info.types.items };

    ghost has_global_form = { λ _ m. HasGlobalType m };

    ghost global_types = { λ l. l.info.const_expression_types.items };

    ghost types = { λ _ info. types_of info };

    ghost summary = { λ _ info. summary_of info };

    ghost noted = { λ _ info. info.available_stages };

    ghost blending = { λ _ info. info.dual_source_blending };

    ghost own = { λ _ m f info. IsOwnInfo m f info };

    fn type_infos(&self) -> &[TypeInfo] {
        self.info.types()
    }

    fn type_info(&self, ty: Handle<key::IrType>) -> &TypeInfo {
        &self.info[ty]
    }

    fn global_resolution(&self, expression: Handle<key::Expression>) -> &TypeResolution {
        &self.info[expression]
    }

    fn analyse(
        &self,
        alloc: Global,
        module: &Module,
        function: &Function,
        callees: &[FunctionInfo],
        flags: ValidationFlags,
    ) -> Result<FunctionInfo, Refusal<FunctionError>> {
        process_by(alloc, self.severities(), module, function, callees, flags)
    }

    fn resolution<'a>(
        &self,
        info: &'a FunctionInfo,
        expression: Handle<key::Expression>,
    ) -> &'a TypeResolution {
        &info[expression].ty
    }

    fn check_expression(
        &self,
        context: &BlockContext<'_>,
        expression: Handle<key::Expression>,
        callees: &[FunctionInfo],
    ) -> Result<ShaderStages, ExpressionError> {
        let own = CheckContext {
            capabilities: context.capabilities,
            types: &context.module.types,
            infos: self.info.types(),
            expressions: &context.function.expressions,
            forms: context.forms,
            kinds: context.kinds,
            callees: &[],
        };
        match validate_expression(&own, expression) {
            Ok(_) => Ok(expression_stages(
                &NotedStages(callees),
                &context.function.expressions[expression],
            )),
            Err(error) => Err(error),
        }
    }

    fn stages(&self, info: &FunctionInfo) -> ShaderStages {
        info.available_stages
    }

    fn uses(&self, info: &FunctionInfo, global: Handle<key::GlobalVariable>) -> GlobalUse {
        info[global]
    }

    fn pairs<'a>(&self, info: &'a FunctionInfo) -> &'a [SamplingPair] {
        info.pairs()
    }

    fn note(
        &self,
        info: &mut FunctionInfo,
        stages: ShaderStages,
        uses: &[(Handle<key::GlobalVariable>, GlobalUse)],
        dual_source_blending: bool,
    ) {
        info.note(stages, uses, dual_source_blending);
    }

    ghost told_of_all = { λ l m made. made.0.told };

    ghost global_typed = { λ l m made. made.0.typed.each };

    ghost initializers_typed = { λ l m made g v e at is. initializer_typed_by m l.info.const_expression_types.items made.0.handles made.0.typed.len g v e at is };

    ghost one_global_form = { λ _ m e s t a b. one_global_form_by m e s t a b };

    ghost one_form = { λ _ q e s t a b. one_form_by q e s t a b };

    ghost one_run = { λ _ q e s t a b. one_run_by q e s t a b };

    ghost fault_refutes = { λ _ q flags e fault clear. clear e fault };

    ghost expression_refuted = { λ _ q capabilities forms e x fault ok. expression_refuted_by q capabilities forms e x fault ok };
}
