//! The layer below the function checks.

ghost use Rattle.std.specs.Prelude.{◌≡◌};

use crate::ends::may_kill;
use crate::operations::fits;
use crate::stages::stages_by;
use crate::types::{resolutions_of, types_of};
use crate::uses::mark_all;
use bitflags::Flags;
use function_interface::Lower;
use function_statement_checks::BlockContext;
use ir_arena::handle::Handle;
use ir_flags::{ShaderStages, ValidationFlags};
use ir_items::{Function, Module};
use ir_types::key;
use ir_types::refusal::Refusal;
use spec_expressions::{GlobalUse, SamplingPair};
use std::alloc::Global;
use typing_errors::{ExpressionError, FunctionError};
use typing_forms::TypeResolution;
use typing_layout::TypeInfo;

/// The information on a function: the types of its expressions, whether it may execute `Kill`, and what is noted in it. It has
/// only noted uses: the function itself has none.
#[derive(Drop)]
pub struct TinyInfo {
    types: Vec<TypeResolution>,
    pub(crate) may_kill: bool,
    pub(crate) stages: ShaderStages,
    dual_source_blending: bool,
    uses: Vec<GlobalUse>,
}

/// A layer for modules without global variables that infers the types `u32`, `bool` and `f32`: of literals, zero values,
/// arguments, operations and results of calls. Any other expression is an error of its analysis.
#[derive(Drop)]
pub struct TinyLower {
    infos: Vec<TypeInfo>,
    globals: Vec<TypeResolution>,
}

impl TinyLower {
    /// The layer for the module with these `TypeInfo`s, whose global expressions have these types.
    pub fn new(infos: Vec<TypeInfo>, globals: Vec<TypeResolution>) -> TinyLower
        ensures infos { result.infos ≡ infos }
        ensures globals { result.globals ≡ globals }
    {
        TinyLower { infos, globals }
    }
}

impl Lower for TinyLower {
    type Info = TinyInfo;

    ghost use Rattle.function_tiny_lower.specs.Ends.{noted_of, summary_of};
    ghost use Rattle.function_tiny_lower.specs.Laws.{fault_refutes_by, given_by, no_initializer, one_form_by, one_global_form_by, one_run_by, unfit_refutes_by};
    ghost use Rattle.function_tiny_lower.specs.Readings.{IsGiven, IsMadeOf, faults_of, reading_of};

    ghost is_for = { λ l m. IsMadeOf m l.infos.items };

    ghost reading = { λ _ q. reading_of q };

    ghost faults = { λ _ q. faults_of q };

    ghost told = { λ l. l.infos.items };

    ghost has_global_form = { λ l m e form. IsGiven m l.globals.items e form };

    ghost global_types = { λ l. l.globals.items };

    ghost types = { λ _ info. info.types.items };

    ghost summary = { λ _ info. summary_of info };

    ghost noted = { λ _ info. noted_of info };

    ghost blending = { λ _ info. info.dual_source_blending };

    ghost own = { λ _ _ _ _. Unit {0} };

    fn type_infos(&self) -> &[TypeInfo] {
        &self.infos
    }

    fn type_info(&self, ty: Handle<key::IrType>) -> &TypeInfo {
        &self.infos[ty.index()]
    }

    fn global_resolution(&self, expression: Handle<key::Expression>) -> &TypeResolution {
        &self.globals[expression.index()]
    }

    fn analyse(
        &self,
        alloc: Global,
        module: &Module,
        function: &Function,
        callees: &[TinyInfo],
        _flags: ValidationFlags,
    ) -> Result<TinyInfo, Refusal<FunctionError>> {
        let found = match types_of(alloc, module, function) {
            Ok(found) => found,
            Err(refusal) => return Err(refusal),
        };
        let types = match resolutions_of(alloc, found.as_slice()) {
            Ok(types) => types,
            Err(error) => return Err(Refusal::Memory(error)),
        };
        Ok(TinyInfo {
            types,
            may_kill: may_kill(function, callees),
            stages: ShaderStages::all(),
            dual_source_blending: false,
            uses: Vec::new(alloc),
        })
    }

    fn resolution<'a>(
        &self,
        info: &'a TinyInfo,
        expression: Handle<key::Expression>,
    ) -> &'a TypeResolution {
        &info.types[expression.index()]
    }

    fn check_expression(
        &self,
        context: &BlockContext<'_>,
        expression: Handle<key::Expression>,
        callees: &[TinyInfo],
    ) -> Result<ShaderStages, ExpressionError> {
        let checked = &context.function.expressions[expression];
        if fits(context.forms, checked) {
            Ok(stages_by(checked, callees))
        } else {
            Err(ExpressionError::Other)
        }
    }

    fn stages(&self, info: &TinyInfo) -> ShaderStages {
        info.stages
    }

    fn uses(&self, info: &TinyInfo, global: Handle<key::GlobalVariable>) -> GlobalUse {
        info.uses[global.index()]
    }

    fn pairs<'a>(&self, _info: &'a TinyInfo) -> &'a [SamplingPair] {
        &[]
    }

    fn note(
        &self,
        info: &mut TinyInfo,
        stages: ShaderStages,
        uses: &[(Handle<key::GlobalVariable>, GlobalUse)],
        dual_source_blending: bool,
    ) {
        info.stages = info.stages.intersection(stages);
        info.dual_source_blending = info.dual_source_blending || dual_source_blending;
        mark_all(&mut info.uses, uses);
    }

    ghost told_of_all = { λ l m made. made.told };

    ghost global_typed = { λ l m _ e r at. given_by m l.globals.items e r at };

    ghost initializers_typed = { λ l m made g v e at is. no_initializer m made.no_globals g v at };

    ghost one_global_form = { λ l m e s t a b. one_global_form_by m l.globals.items e s t a b };

    ghost one_form = { λ _ q e s t a b. one_form_by q e s t a b };

    ghost one_run = { λ _ q e s t a b. one_run_by q e s t a b };

    ghost fault_refutes = { λ _ q flags e fault typed. fault_refutes_by q.m q.f e fault typed };

    ghost expression_refuted = { λ _ q capabilities forms e x fault ok. unfit_refutes_by q.f forms e x fault ok };
}
