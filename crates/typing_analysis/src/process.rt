//! Analyzes a function: its `FunctionInfo`, or the error.

ghost use Rattle.std.specs.Prelude.{◌≡◌, List, IfOk, IfErr, OnOk, map};
ghost use Rattle.typing_errors.specs.declared.error.FunctionError.TheVariants.{Expression};
ghost use Rattle.ir_items.specs.judged.Plain.{PlainFunction, PlainModule};
ghost use Rattle.ir_items.specs.found.View.{function_view, module_view};
ghost use Rattle.ir_flags.specs.declared.settings.ValidationFlags.{ValidationFlags};
ghost use Rattle.ir_items.specs.found.Filters.{ParentsPrecede};
ghost use Rattle.typing_uniformity.specs.Facts.{AreUniformities};
ghost use Rattle.typing_uniformity.specs.Nearest.{AreNearest};
ghost use Rattle.typing_infos.specs.Infos.{summary_of};
ghost use Rattle.spec_expressions.specs.judged.Faults.{FunctionFault};
ghost use Rattle.spec_expressions.specs.judged.Summaries.{Summary, IsSummary, CalleesKnown, AgreeOnCallees};
ghost use Rattle.spec_expressions.specs.judged.Uniformity.{Required};
ghost use Rattle.spec_expressions.specs.judged.FunctionHandles.{HandlesInRange, OperandsPrecede};
ghost use Rattle.typing_analysis.specs.Faults.{IsSummaryFault};
ghost use Rattle.typing_analysis.specs.Processed.{IsAnalysisFault, IsAnalysisRefusal, IsProcessed};

use crate::{SummaryError, summarize};
use ir_arena::handle::Handle;
use ir_flags::ValidationFlags;
use ir_items::{Function, Module};
use ir_kinds::Severity;
use ir_types::key;
use ir_types::refusal::Refusal;
use ir_types::with_span::WithSpan;
use spec_expressions::Uniformity;
use std::alloc::Global;
use typing_errors::{ExpressionError, FunctionError};
use typing_infos::FunctionInfo;
use typing_uniformity::uniformity_fault_by;

// The error for an expression.
fn refused_at(
    alloc: Global,
    handle: Handle<key::Expression>,
    source: ExpressionError,
) -> Refusal<FunctionError>
    ensures { (flags : ValidationFlags) (m : PlainModule) (f : PlainFunction) (summaries : List Summary)
        → IsAnalysisFault flags m f summaries (Expression handle source) → IsAnalysisRefusal flags m f summaries result }
{
    let error = FunctionError::Expression { handle, source };
    Refusal::Fault(WithSpan::new(alloc, error))
}

// The error for a function that has no summary.
fn refused(alloc: Global, error: SummaryError) -> Refusal<FunctionError>
    ensures { (flags : ValidationFlags) (m : PlainModule) (f : PlainFunction) (summaries : List Summary)
        → IsSummaryFault m f summaries error → IsAnalysisRefusal flags m f summaries result }
{
    match error {
        SummaryError::Memory(error) => Refusal::Memory(error),
        SummaryError::Untyped { expression, error } => {
            refused_at(alloc, expression, ExpressionError::Typing(error))
        }
        SummaryError::WrongForm(expression) => {
            refused_at(alloc, expression, ExpressionError::ExpectedGlobalOrArgument)
        }
    }
}

// Returns a uniformity fault as an error.
fn check_uniformity(
    alloc: Global,
    flags: ValidationFlags,
    known: &[Option<Severity>],
    module: &Module,
    function: &Function,
    uniformities: &[Uniformity],
) -> Result<(), Refusal<FunctionError>>
    requires uniformities { AreUniformities (module_view «module».now) (function_view function.now) uniformities.now }
    requires parents { ParentsPrecede (module_view «module».now).filters }
    requires known { AreNearest (module_view «module».now).filters known.now }
    ensures clear { OnOk result ((x : Required) → FunctionFault flags (module_view «module».now) (function_view function.now) x → ⊥) }
    ensures fault { IfErr result (λ r. (summaries : List Summary) → IsAnalysisRefusal flags (module_view «module».now) (function_view function.now) summaries r) }
{
    match uniformity_fault_by(alloc, flags, known, module, function, uniformities) {
        Ok(None) => Ok(()),
        Ok(Some(fault)) => Err(Refusal::Fault(WithSpan::new(alloc, fault.into_error()))),
        Err(error) => Err(Refusal::Memory(error)),
    }
}

/// The `FunctionInfo` of a function of the module, or of an entry point's function, whose body is analyzed the same way (naga's
/// `ModuleInfo::process_function`). `infos` holds the results for the functions before it, in order; their stages and
/// uses may have been noted since. Only those of functions that a call statement names are read.
///
/// Requires what [`typing_handles::handles_in_range`], [`typing_handles::operands_precede`] and
/// [`typing_handles::filter_parents_precede`] test.
///
/// # Errors
///
/// [`Refusal::Fault`] exactly where the analysis finds a fault: [`FunctionError::Expression`] with
/// [`ExpressionError::Typing`] at an expression that has no type while its operands have, or with
/// [`ExpressionError::ExpectedGlobalOrArgument`] at a sample whose image or sampler is neither a global variable, nor an
/// access directly on one, nor an argument, or at such an expression that is passed for an image or a sampler of a pair of the
/// called function; [`FunctionError::NonUniformControlFlow`] where an operation that requires uniform control flow is in
/// non-uniform control flow. [`Refusal::Memory`] if out of memory.
pub fn process_function(
    alloc: Global,
    module: &Module,
    function: &Function,
    infos: &[FunctionInfo],
    flags: ValidationFlags,
) -> Result<FunctionInfo, Refusal<FunctionError>>
    requires handles { HandlesInRange (module_view «module».now) (function_view function.now) }
    requires precede { OperandsPrecede (function_view function.now).expressions }
    requires parents { ParentsPrecede (module_view «module».now).filters }
    ensures exact { IsProcessed flags (module_view «module».now) (function_view function.now) (map summary_of infos.now) result }
    ensures callees_alone { (others : List Summary) → AgreeOnCallees (function_view function.now) (map summary_of infos.now) others
        → IsProcessed flags (module_view «module».now) (function_view function.now) others result }
    ensures chains { CalleesKnown (module_view «module».now) (function_view function.now) (map summary_of infos.now)
        → IfOk result (λ info. IsSummary (module_view «module».now) (function_view function.now) (summary_of info)) }
{
    process_by(alloc, &[], module, function, infos, flags)
}

/// As the function above, with the severities of the module's diagnostic filters given as `known`
/// ([`typing_uniformity::severities_of`]), so that the filters are not walked again.
pub fn process_by(
    alloc: Global,
    known: &[Option<Severity>],
    module: &Module,
    function: &Function,
    infos: &[FunctionInfo],
    flags: ValidationFlags,
) -> Result<FunctionInfo, Refusal<FunctionError>>
    requires handles { HandlesInRange (module_view «module».now) (function_view function.now) }
    requires precede { OperandsPrecede (function_view function.now).expressions }
    requires parents { ParentsPrecede (module_view «module».now).filters }
    requires known { AreNearest (module_view «module».now).filters known.now }
    ensures exact { IsProcessed flags (module_view «module».now) (function_view function.now) (map summary_of infos.now) result }
    ensures callees_alone { (others : List Summary) → AgreeOnCallees (function_view function.now) (map summary_of infos.now) others
        → IsProcessed flags (module_view «module».now) (function_view function.now) others result }
    ensures chains { CalleesKnown (module_view «module».now) (function_view function.now) (map summary_of infos.now)
        → IfOk result (λ info. IsSummary (module_view «module».now) (function_view function.now) (summary_of info)) }
{
    let found = match summarize(alloc, function, module, infos) {
        Ok(found) => found,
        Err(error) => return Err(refused(alloc, error)),
    };
    match check_uniformity(alloc, flags, known, module, function, &found.uniformities) {
        Ok(()) => {}
        Err(refusal) => return Err(refusal),
    }
    match found.into_info(alloc) {
        Ok(info) => Ok(info),
        Err(error) => Err(Refusal::Memory(error)),
    }
}
