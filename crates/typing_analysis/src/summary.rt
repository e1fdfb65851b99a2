//! The summary of a function before uniformity is checked.

ghost use Rattle.std.specs.Prelude.{◌≡◌, ℕ, List, IfOk, IfErr, length, map};
ghost use Rattle.ir_items.specs.judged.Plain.{PlainFunction, PlainModule};
ghost use Rattle.ir_items.specs.found.View.{function_view, module_view};
ghost use Rattle.spec_expressions.specs.judged.Values.{AreStarts, UsesPrecede};
ghost use Rattle.spec_expressions.specs.judged.Summaries.{Summary};
ghost use Rattle.spec_expressions.specs.judged.Context.{inside};
ghost use Rattle.typing_infos.specs.Infos.{summary_of};
ghost use Rattle.typing_summaries.specs.Tallied.{IsTally};
ghost use Rattle.typing_summaries.specs.Tallies.{tallied};
ghost use Rattle.typing_analysis.specs.Faults.{IsSummaryFault};
ghost use Rattle.typing_analysis.specs.Infos.{IsFunctionInfo};
ghost use Rattle.typing_analysis.specs.Summarized.{IsSummarized};
ghost use Rattle.typing_infos.specs.Types.{ItemsNamed, AreTypes, IsFirstUntyped};

use crate::infos::expression_infos;
use ir_arena::handle::Handle;
use ir_items::{Function, Module};
use ir_types::key;
use spec_expressions::Uniformity;
use std::alloc::{AllocError, Global};
use typing_errors::ResolveError;
use typing_forms::TypeResolution;
use typing_infos::{FunctionInfo, FunctionParts, TypingRefusal, types_of};
use typing_resolve::ResolveContext;
use typing_summaries::{Context, Counts, Sampled, Tally};
use typing_uniformity::facts_of;

/// Summary errors.
#[derive(Drop)]
pub enum SummaryError {
    /// Out of memory.
    Memory(AllocError),
    /// An expression has no type, and each before it has one.
    Untyped {
        /// The expression.
        expression: Handle<key::Expression>,
        /// The error.
        error: ResolveError,
    },
    /// The image or sampler of a sample is neither a global variable, nor an access directly on one, nor an
    /// argument; or such an expression is passed to a function that samples it.
    WrongForm(Handle<key::Expression>),
}

impl From<AllocError> for SummaryError {
    ghost use Rattle.std.specs.Prelude.{◌≡◌};
    ghost use Rattle.typing_analysis.specs.declared.summary.SummaryError.TheVariants.{Memory};

    ghost from_gives = { λ error refusal. refusal ≡ Memory error };

    fn from(error: AllocError) -> Self {
        SummaryError::Memory(error)
    }
}

/// The summary of a function before uniformity is checked.
#[derive(Drop)]
pub struct Summarized {
    /// The types of its expressions.
    pub types: Vec<TypeResolution>,
    /// Their uniformities.
    pub uniformities: Vec<Uniformity>,
    /// The global variable at the root of each expression's access chain.
    pub globals: Vec<Option<Handle<key::GlobalVariable>>>,
    /// The tally: operand counts, global uses and sampled pairs.
    pub tally: Tally,
}

// The tally of a function, given the global variable at the root of each access chain. The error is out of memory.
fn tally_of(
    alloc: Global,
    function: &Function,
    module: &Module,
    globals: &[Option<Handle<key::GlobalVariable>>],
    callees: &[FunctionInfo],
) -> Result<Tally, AllocError>
    requires { AreStarts (function_view function.now).expressions globals.now }
    ensures { IfOk result (λ t. IsTally (length «module».now.global_variables) (function_view function.now) (map summary_of callees.now) (tallied t)) }
{
    let context = Context {
        expressions: &function.expressions,
        globals,
        callees,
    };
    match Tally::of_function(
        alloc,
        &context,
        module.global_variables.len(),
        &function.body,
    ) {
        Ok(tally) => Ok(tally),
        Err(error) => Err(error),
    }
}

// Converts a typing error into a summary error.
fn as_summary(refusal: TypingRefusal) -> SummaryError
    ensures { (m : PlainModule) (f : PlainFunction) (summaries : List Summary) → IsFirstUntyped (inside m f) f.expressions refusal → IsSummaryFault m f summaries result }
{
    match refusal {
        TypingRefusal::Memory(error) => SummaryError::Memory(error),
        TypingRefusal::Fault { expression, error } => SummaryError::Untyped { expression, error },
    }
}

// The types of a function's expressions.
fn types_in(
    alloc: Global,
    function: &Function,
    module: &Module,
) -> Result<Vec<TypeResolution>, TypingRefusal>
    requires precede { UsesPrecede (function_view function.now).expressions }
    requires named { ItemsNamed (inside (module_view «module».now) (function_view function.now)) (function_view function.now).expressions }
    ensures ok { IfOk result (λ v. AreTypes (inside (module_view «module».now) (function_view function.now)) (function_view function.now).expressions v.items) }
    ensures fault { IfErr result (IsFirstUntyped (inside (module_view «module».now) (function_view function.now)) (function_view function.now).expressions) }
{
    let resolve = ResolveContext::with_locals(
        module,
        &function.local_variables,
        &function.arguments,
    );
    types_of(alloc, &resolve, &function.expressions)
}

/// The summary of a function of the module, or of an entry point's function, before uniformity is checked.
/// `callees` holds the infos of the functions that it may call, by their handles; only those that a call statement
/// names are read.
pub fn summarize(
    alloc: Global,
    function: &Function,
    module: &Module,
    callees: &[FunctionInfo],
) -> Result<Summarized, SummaryError>
    requires precede { UsesPrecede (function_view function.now).expressions }
    requires named { ItemsNamed (inside (module_view «module».now) (function_view function.now)) (function_view function.now).expressions }
    ensures ok { IfOk result (IsSummarized (module_view «module».now) (function_view function.now) (map summary_of callees.now)) }
    ensures fault { IfErr result (IsSummaryFault (module_view «module».now) (function_view function.now) (map summary_of callees.now)) }
{
    let types = match types_in(alloc, function, module) {
        Ok(types) => types,
        Err(refusal) => return Err(as_summary(refusal)),
    };
    let facts = facts_of(alloc, module, function)?;
    let tally = tally_of(alloc, function, module, &facts.globals, callees)?;
    match tally.sampled.wrong {
        Some(expression) => Err(SummaryError::WrongForm(expression)),
        None => Ok(Summarized {
            types,
            uniformities: facts.uniformities,
            globals: facts.globals,
            tally,
        }),
    }
}

impl Summarized {
    /// The `FunctionInfo` of the function. The error is out of memory.
    pub fn into_info(self, alloc: Global) -> Result<FunctionInfo, AllocError>
        ensures { (m : PlainModule) (f : PlainFunction) (summaries : List Summary) → IsSummarized m f summaries self → IfOk result (IsFunctionInfo m f summaries) }
    {
        let Summarized {
            types,
            uniformities,
            globals,
            tally,
        } = self;
        let Tally {
            counts,
            sampled,
            may_kill,
        } = tally;
        let Counts { counts, uses } = counts;
        let Sampled { pairs, wrong: _ } = sampled;
        let sampling = pairs.into_pairs()?;
        let sampling_set = sampling.keys(alloc)?;
        let expressions = expression_infos(alloc, types, &uniformities, &counts, &globals)?;
        Ok(FunctionInfo::of_parts(FunctionParts {
            may_kill,
            uses,
            expressions,
            sampling,
            sampling_set,
        }))
    }
}
