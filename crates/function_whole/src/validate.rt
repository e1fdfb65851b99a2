//! Whether a function is valid.

ghost use Rattle.std.specs.Prelude.{◌≡◌, ◌↔◌, ◌||◌, ℕ, IfErr, IfOk, MatchResult, OnOk, bit_and, false, length, map};
ghost use Rattle.function_whole.specs.Faults.{IsFaultAfter, IsFunctionFault, IsFunctionFaultAt};
ghost use Rattle.function_whole.specs.Judged.{ArePartsMet};
ghost use Rattle.function_interface.specs.Analysis.{IsRefusedAt, IsRefusedFor};
ghost use Rattle.function_interface.specs.Question.{question};
ghost use Rattle.ir_flags.specs.Sets.{Has};
ghost use Rattle.ir_items.specs.judged.Plain.{PlainFunction, PlainModule};
ghost use Rattle.ir_items.specs.found.View.{function_view, module_view};
ghost use Rattle.ir_items.specs.found.Filters.{ParentsPrecede};
ghost use Rattle.spec_expressions.specs.judged.Summaries.{CalleesKnown, HasUseBit, IsJoined, IsSummary};
ghost use Rattle.spec_statements.specs.judged.ExpressionStages.{all_stages};
ghost use Rattle.spec_expressions.specs.judged.FunctionHandles.{HandlesInRange, OperandsPrecede};
ghost use Rattle.spec_expressions.specs.judged.CallArities.{AritiesMatch};
ghost use Rattle.spec_statements.specs.judged.Functions.{FunctionOK, AllowsStage, block_context};
ghost use Rattle.spec_statements.specs.judged.Payloads.{IsPayloadAfter};
ghost use Rattle.function_statement_checks.specs.Descriptors.{AreDescriptors};
ghost use Rattle.typing_errors.specs.Answers.{form_given};

use crate::forms::forms_of;
use crate::parts::{Met, check_parts};
use function_interface::{Lower, analyse_function};
use function_statement_checks::{BlockContext, roots_of};
use function_statements::next_answers;
use ir_arena::handle::Handle;
use ir_flags::Settings;
use ir_items::{Function, Module};
use ir_places::Trail;
use ir_types::key;
use ir_types::refusal::Refusal;
use std::alloc::Global;
use typing_errors::FunctionError;
use typing_layout::ExpressionKindTracker;

/// The result for a valid function.
#[derive(Drop)]
pub struct Validated<I> {
    /// The layer's information on it, with the stages that may run it noted.
    pub info: I,
    /// The payload type of all functions so far, if any.
    pub held: Option<Handle<key::IrType>>,
}

// The parts after the analysis, for a function with this information.
fn judge<L: Lower>(
    lower: &L,
    alloc: Global,
    trail: &mut Trail,
    settings: Settings,
    entry_point: bool,
    held: Option<Handle<key::IrType>>,
    module: &Module,
    function: &Function,
    callees: &[L::Info],
    info: &L::Info,
    descriptors: &[bool],
) -> Result<Met, Refusal<FunctionError>>
    requires made { L.is_for lower.now (module_view «module».now) }
    requires precede { OperandsPrecede (function_view function.now).expressions }
    requires arities { AritiesMatch (module_view «module».now) (function_view function.now) }
    requires many { length (function_view function.now).expressions ≡ length (L.types lower.now info.now) }
    requires marked { AreDescriptors (module_view «module».now).types (module_view «module».now).special.ray_desc descriptors.now }
    ensures { let q = question (module_view «module».now) (function_view function.now) (map (L.summary lower.now) callees.now) (map (L.noted lower.now) callees.now) in
        let c = block_context settings q.m q.f (map (form_given q.m.types) (L.types lower.now info.now)) in
        MatchResult result
        (λ met. ArePartsMet (L.reading lower.now q) settings entry_point held c q.stages met.stages met.held)
        (IsRefusedAt trail.new (IsFaultAfter (L.reading lower.now q) (L.faults lower.now q) settings entry_point held c)) }
{
    let count = function.expressions.len();
    let forms = match forms_of(lower, alloc, &module.types, info, count) {
        Ok(forms) => forms,
        Err(error) => return Err(Refusal::Memory(error)),
    };
    let kinds = match ExpressionKindTracker::from_arena(alloc, &function.expressions) {
        Ok(kinds) => kinds,
        Err(error) => return Err(Refusal::Memory(error)),
    };
    let answers = match next_answers(alloc, function) {
        Ok(answers) => answers,
        Err(error) => return Err(Refusal::Memory(error)),
    };
    let roots = match roots_of(alloc, &function.expressions) {
        Ok(roots) => roots,
        Err(error) => return Err(Refusal::Memory(error)),
    };
    let context = BlockContext {
        capabilities: settings.capabilities,
        operations: settings.subgroup_operations,
        module,
        function,
        forms: &forms,
        kinds: &kinds,
        answers: &answers,
        descriptors,
        roots: &roots,
    };
    match check_parts(
        lower,
        alloc,
        trail,
        settings,
        entry_point,
        held,
        &context,
        callees,
    ) {
        Ok(met) => Ok(met),
        Err(refusal) => Err(refusal),
    }
}

// The information, with the stages noted.
fn noted<L: Lower>(lower: &L, info: L::Info, met: Met) -> Validated<L::Info>
    ensures stages { (L.noted lower.now result.info).0 ≡ bit_and (L.noted lower.now info).0 met.stages.0 }
    ensures uses { (g k : ℕ) → HasUseBit (L.summary lower.now result.info).uses g k ↔ HasUseBit (L.summary lower.now info).uses g k }
    ensures pairs { (L.summary lower.now result.info).pairs ≡ (L.summary lower.now info).pairs }
    ensures may_kill { (L.summary lower.now result.info).may_kill ≡ (L.summary lower.now info).may_kill }
    ensures types { L.types lower.now result.info ≡ L.types lower.now info }
    ensures globals { length (L.summary lower.now result.info).uses ≡ length (L.summary lower.now info).uses }
    ensures blending { L.blending lower.now result.info ≡ (L.blending lower.now info || false) }
    ensures own { (m : PlainModule) (f : PlainFunction) → L.own lower.now m f info → L.own lower.now m f result.info }
    ensures held { result.held ≡ met.held }
{
    let mut info = info;
    lower.note(&mut info, met.stages, &[], false);
    Validated {
        info,
        held: met.held,
    }
}

/// Whether a function is valid, and the information on it (naga's `validate_function`). `callees` has the results of this call
/// for earlier functions, in order, in which stages and uses may have been noted since. `entry_point` is whether the function
/// is an entry point's, and `held` is the payload type of the functions and the entry points before it, if any.
///
/// Requires that the layer was made for the module, and that the handles of the function are in order, as in a module that
/// `validate_module_handles` accepts.
///
/// # Errors
///
/// [`Refusal::Fault`] exactly if the function is invalid, with an error of the first invalid part: the arity of calls
/// ([`FunctionError::InvalidCall`] with `ArgumentCount`), the analysis, the local variables, the arguments and the result, then
/// under [`ValidationFlags::EXPRESSIONS`] the first invalid expression, under [`ValidationFlags::BLOCKS`] the body, and under
/// both a result expression without a statement. An error of a call or of the body is at the place of the trail, unless that is
/// lost; for other errors the trail is not written. [`Refusal::Memory`] if out of memory.
pub fn validate_function<L: Lower>(
    lower: &L,
    alloc: Global,
    trail: &mut Trail,
    settings: Settings,
    entry_point: bool,
    held: Option<Handle<key::IrType>>,
    module: &Module,
    function: &Function,
    callees: &[L::Info],
) -> Result<Validated<L::Info>, Refusal<FunctionError>>
    requires made { L.is_for lower.now (module_view «module».now) }
    requires handles { HandlesInRange (module_view «module».now) (function_view function.now) }
    requires precede { OperandsPrecede (function_view function.now).expressions }
    requires parents { ParentsPrecede (module_view «module».now).filters }
    ensures accepted { let q = question (module_view «module».now) (function_view function.now) (map (L.summary lower.now) callees.now) (map (L.noted lower.now) callees.now) in
        OnOk result (FunctionOK (L.reading lower.now q) settings entry_point held q.m q.f) }
    ensures refused { let q = question (module_view «module».now) (function_view function.now) (map (L.summary lower.now) callees.now) (map (L.noted lower.now) callees.now) in
        IfErr result (IsRefusedFor (λ _. FunctionOK (L.reading lower.now q) settings entry_point held q.m q.f → ⊥)) }
    ensures fault { let q = question (module_view «module».now) (function_view function.now) (map (L.summary lower.now) callees.now) (map (L.noted lower.now) callees.now) in
        IfErr result (IsRefusedFor (IsFunctionFault (L.reading lower.now q) (L.faults lower.now q) settings entry_point held q.m q.f)) }
    ensures placed { let q = question (module_view «module».now) (function_view function.now) (map (L.summary lower.now) callees.now) (map (L.noted lower.now) callees.now) in
        IfErr result (IsRefusedAt trail.new (IsFunctionFaultAt (L.reading lower.now q) (L.faults lower.now q) settings entry_point held q.m q.f)) }
    ensures stages { let q = question (module_view «module».now) (function_view function.now) (map (L.summary lower.now) callees.now) (map (L.noted lower.now) callees.now) in
        IfOk result (λ v. (stage : ℕ) → Has (L.noted lower.now v.info).0 stage ↔ (Has all_stages.0 stage × AllowsStage (L.reading lower.now q) settings q.stages q.f stage)) }
    ensures joined { IfOk result (λ v. IsJoined (length (module_view «module».now).globals) (function_view function.now) (map (L.summary lower.now) callees.now) (L.summary lower.now v.info)) }
    ensures chains { CalleesKnown (module_view «module».now) (function_view function.now) (map (L.summary lower.now) callees.now)
        → IfOk result (λ v. IsSummary (module_view «module».now) (function_view function.now) (L.summary lower.now v.info)) }
    ensures globals { IfOk result (λ v. length (L.summary lower.now v.info).uses ≡ length (module_view «module».now).globals) }
    ensures unblended { IfOk result (λ v. L.blending lower.now v.info ≡ false) }
    ensures held { IfOk result (λ v. IsPayloadAfter settings.flags (module_view «module».now) (function_view function.now) held v.held) }
    ensures own { IfOk result (λ v. L.own lower.now (module_view «module».now) (function_view function.now) v.info) }
{
    validate_function_with(
        lower,
        alloc,
        trail,
        settings,
        entry_point,
        held,
        module,
        function,
        callees,
        &[],
    )
}

/// The same, where `descriptors` marks the types equivalent to the module's ray descriptor type, found once for all its
/// functions (`descriptors_of` of `function_statement_checks`).
///
/// # Errors
///
/// Those of [`validate_function`].
pub fn validate_function_with<L: Lower>(
    lower: &L,
    alloc: Global,
    trail: &mut Trail,
    settings: Settings,
    entry_point: bool,
    held: Option<Handle<key::IrType>>,
    module: &Module,
    function: &Function,
    callees: &[L::Info],
    descriptors: &[bool],
) -> Result<Validated<L::Info>, Refusal<FunctionError>>
    requires made { L.is_for lower.now (module_view «module».now) }
    requires handles { HandlesInRange (module_view «module».now) (function_view function.now) }
    requires precede { OperandsPrecede (function_view function.now).expressions }
    requires parents { ParentsPrecede (module_view «module».now).filters }
    requires marked { AreDescriptors (module_view «module».now).types (module_view «module».now).special.ray_desc descriptors.now }
    ensures accepted { let q = question (module_view «module».now) (function_view function.now) (map (L.summary lower.now) callees.now) (map (L.noted lower.now) callees.now) in
        OnOk result (FunctionOK (L.reading lower.now q) settings entry_point held q.m q.f) }
    ensures refused { let q = question (module_view «module».now) (function_view function.now) (map (L.summary lower.now) callees.now) (map (L.noted lower.now) callees.now) in
        IfErr result (IsRefusedFor (λ _. FunctionOK (L.reading lower.now q) settings entry_point held q.m q.f → ⊥)) }
    ensures fault { let q = question (module_view «module».now) (function_view function.now) (map (L.summary lower.now) callees.now) (map (L.noted lower.now) callees.now) in
        IfErr result (IsRefusedFor (IsFunctionFault (L.reading lower.now q) (L.faults lower.now q) settings entry_point held q.m q.f)) }
    ensures placed { let q = question (module_view «module».now) (function_view function.now) (map (L.summary lower.now) callees.now) (map (L.noted lower.now) callees.now) in
        IfErr result (IsRefusedAt trail.new (IsFunctionFaultAt (L.reading lower.now q) (L.faults lower.now q) settings entry_point held q.m q.f)) }
    ensures stages { let q = question (module_view «module».now) (function_view function.now) (map (L.summary lower.now) callees.now) (map (L.noted lower.now) callees.now) in
        IfOk result (λ v. (stage : ℕ) → Has (L.noted lower.now v.info).0 stage ↔ (Has all_stages.0 stage × AllowsStage (L.reading lower.now q) settings q.stages q.f stage)) }
    ensures joined { IfOk result (λ v. IsJoined (length (module_view «module».now).globals) (function_view function.now) (map (L.summary lower.now) callees.now) (L.summary lower.now v.info)) }
    ensures chains { CalleesKnown (module_view «module».now) (function_view function.now) (map (L.summary lower.now) callees.now)
        → IfOk result (λ v. IsSummary (module_view «module».now) (function_view function.now) (L.summary lower.now v.info)) }
    ensures globals { IfOk result (λ v. length (L.summary lower.now v.info).uses ≡ length (module_view «module».now).globals) }
    ensures unblended { IfOk result (λ v. L.blending lower.now v.info ≡ false) }
    ensures held { IfOk result (λ v. IsPayloadAfter settings.flags (module_view «module».now) (function_view function.now) held v.held) }
    ensures own { IfOk result (λ v. L.own lower.now (module_view «module».now) (function_view function.now) v.info) }
{
    let info = match analyse_function(
        lower,
        alloc,
        trail,
        module,
        function,
        callees,
        settings.flags,
    ) {
        Ok(info) => info,
        Err(refusal) => return Err(refusal),
    };
    match judge(
        lower,
        alloc,
        trail,
        settings,
        entry_point,
        held,
        module,
        function,
        callees,
        &info,
        descriptors,
    ) {
        Ok(met) => Ok(noted(lower, info, met)),
        Err(refusal) => Err(refusal),
    }
}
