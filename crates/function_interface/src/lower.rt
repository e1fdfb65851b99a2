//! A layer that infers the types of expressions, analyses functions and has the `TypeInfo`s of types.

ghost use Rattle.std.specs.Prelude.{◌≡◌, ◌<◌, ◌↔◌, ◌⊎◌, ◌||◌, ℕ, All, Bool, IfErr, IfOk, List, MatchResult, Some, bit_and, length, map, slice_get};
ghost use Rattle.typing_infos.specs.Infos.{NotesUse};
ghost use Rattle.typing_errors.specs.declared.expressions.ExpressionError.{ExpressionError};
ghost use Rattle.typing_errors.specs.declared.error.FunctionError.{FunctionError};
ghost use Rattle.function_interface.specs.Analysis.{Faults, IsKept, IsRefusedFor};
ghost use Rattle.function_interface.specs.Question.{Question, question};
ghost use Rattle.function_interface.specs.Reported.{AreReported};
ghost use Rattle.ir_flags.specs.declared.settings.Capabilities.{Capabilities};
ghost use Rattle.ir_flags.specs.declared.settings.ValidationFlags.{ValidationFlags};
ghost use Rattle.ir_flags.specs.declared.stages.ShaderStages.{ShaderStages};
ghost use Rattle.ir_items.specs.judged.GlobalPlain.{PlainGlobal};
ghost use Rattle.ir_items.specs.judged.Plain.{PlainFunction, PlainModule};
ghost use Rattle.ir_items.specs.found.View.{function_view, module_view};
ghost use Rattle.ir_items.specs.found.Filters.{ParentsPrecede};
ghost use Rattle.spec_expressions.specs.judged.Summaries.{AgreeOnCallees, HasUseBit, Summary};
ghost use Rattle.spec_expressions.specs.judged.FunctionHandles.{HandlesInRange, OperandsPrecede};
ghost use Rattle.spec_statements.specs.judged.Functions.{Reading};
ghost use Rattle.function_statement_checks.specs.View.{context_view, IsKnown};
ghost use Rattle.typing_layout.specs.declared.info.TypeInfo.{TypeInfo};
ghost use Rattle.typing_forms.specs.declared.form.Form.{Form};
ghost use Rattle.typing_forms.specs.declared.resolution.TypeResolution.{TypeResolution};
ghost use Rattle.typing_errors.specs.Answers.{form_given};

use function_statement_checks::BlockContext;
use ir_arena::handle::Handle;
use ir_flags::{ShaderStages, ValidationFlags};
use ir_items::{Function, Module};
use ir_types::key;
use ir_types::refusal::Refusal;
use spec_expressions::{GlobalUse, SamplingPair};
use std::alloc::Global;
use typing_errors::{ExpressionError, FunctionError};
use typing_forms::TypeResolution;
use typing_layout::TypeInfo;

/// Infers the types of the expressions of a module's functions, analyses its functions, and has the `TypeInfo`s of its types.
/// The function checks are generic over it: they are the same for every such layer, relative to its results.
pub trait Lower {
    /// The information on a function.
    type Info: Drop;

    /// The layer was made for the module.
    ghost is_for: { Self → PlainModule → Type 0 };

    /// Its results for a function.
    ghost reading: { Self → Question → Reading };

    /// Its errors for a function.
    ghost faults: { Self → Question → Faults };

    /// Its `TypeInfo`s of the module's types.
    ghost told: { Self → List TypeInfo };

    /// The possible forms of the types of the module's global expressions.
    ghost has_global_form: { Self → PlainModule → (expression : ℕ) → Form → Type 0 };

    /// The types of the module's global expressions.
    ghost global_types: { Self → List TypeResolution };

    /// The types of a function's expressions in its information.
    ghost types: { Self → Self.Info → List TypeResolution };

    /// The uses and pairs in it.
    ghost summary: { Self → Self.Info → Summary };

    /// The stages noted in it.
    ghost noted: { Self → Self.Info → ShaderStages };

    /// Whether dual source blending is noted in it.
    ghost blending: { Self → Self.Info → Bool };

    /// The information on a function by itself, independent of its callees, besides the types of its expressions.
    ghost own: { Self → PlainModule → PlainFunction → Self.Info → Type 0 };

    /// The `TypeInfo`s of the module's types, in order.
    fn type_infos(&self) -> &[TypeInfo]
        ensures { result.now ≡ told self.now };

    /// The `TypeInfo` of a type. Requires that the type exists.
    fn type_info(&self, ty: Handle<key::IrType>) -> &TypeInfo
        requires { ty < length (told self.now) }
        ensures { slice_get (told self.now) ty ≡ Some result.now };

    /// The type of a global expression. Requires that the expression exists.
    fn global_resolution(&self, expression: Handle<key::Expression>) -> &TypeResolution
        requires { expression < length (global_types self.now) }
        ensures { slice_get (global_types self.now) expression ≡ Some result.now };

    /// The information on a function, or on an entry point's. `callees` has that of earlier functions, in which stages and uses
    /// may have been noted since. Requires that the function's handles are in order.
    ///
    /// # Errors
    ///
    /// An error of the analysis, returned only if its condition holds; or out of memory.
    fn analyse(
        &self,
        alloc: Global,
        module: &Module,
        function: &Function,
        callees: &[Self::Info],
        flags: ValidationFlags,
    ) -> Result<Self::Info, Refusal<FunctionError>>
        requires made { is_for self.now (module_view «module».now) }
        requires handles { HandlesInRange (module_view «module».now) (function_view function.now) }
        requires precede { OperandsPrecede (function_view function.now).expressions }
        requires parents { ParentsPrecede (module_view «module».now).filters }
        ensures kept { (others : List Summary) → AgreeOnCallees (function_view function.now) (map (summary self.now) callees.now) others
            → (let q = question (module_view «module».now) (function_view function.now) others (map (noted self.now) callees.now) in
            IfOk result (λ info. IsKept (reading self.now q) flags q (types self.now info) (summary self.now info) (noted self.now info) (blending self.now info))) }
        ensures fault { (others : List Summary) → AgreeOnCallees (function_view function.now) (map (summary self.now) callees.now) others
            → IfErr result (IsRefusedFor ((faults self.now (question (module_view «module».now) (function_view function.now) others (map (noted self.now) callees.now))).IsAnalysisFault flags)) }
        ensures own { IfOk result (own self.now (module_view «module».now) (function_view function.now)) };

    /// The type of an expression. Requires that the expression exists.
    fn resolution<'a>(
        &self,
        info: &'a Self::Info,
        expression: Handle<key::Expression>,
    ) -> &'a TypeResolution
        requires { expression < length (types self.now info.now) }
        ensures { slice_get (types self.now info.now) expression ≡ Some result.now };

    /// Whether an expression is valid, and which stages may run it. `callees` has the information on earlier functions.
    /// Requires that the expression exists.
    ///
    /// # Errors
    ///
    /// An error of the expression, returned only if its condition holds.
    fn check_expression(
        &self,
        context: &BlockContext<'_>,
        expression: Handle<key::Expression>,
        callees: &[Self::Info],
    ) -> Result<ShaderStages, ExpressionError>
        requires made { is_for self.now (context_view context.now).m }
        requires known { IsKnown context.now }
        requires within { expression < length (context_view context.now).f.expressions }
        ensures { let q = question (context_view context.now).m (context_view context.now).f (map (summary self.now) callees.now) (map (noted self.now) callees.now) in
            MatchResult result
            (λ stages. (reading self.now q).IsAccepted context.now.capabilities context.now.forms.now expression × (reading self.now q).IsRunBy expression stages)
            ((faults self.now q).IsFaultAt context.now.capabilities context.now.forms.now expression) };

    /// The noted stages.
    fn stages(&self, info: &Self::Info) -> ShaderStages
        ensures { result ≡ noted self.now info.now };

    /// The use of a global variable. Requires that the variable exists.
    fn uses(&self, info: &Self::Info, global: Handle<key::GlobalVariable>) -> GlobalUse
        requires { global < length (summary self.now info.now).uses }
        ensures { slice_get (summary self.now info.now).uses global ≡ Some result };

    /// The sampling pairs.
    fn pairs<'a>(&self, info: &'a Self::Info) -> &'a [SamplingPair]
        ensures { result.now ≡ (summary self.now info.now).pairs };

    /// Notes stages, of which the common ones remain, further uses, and dual source blending. Requires that the variables
    /// exist. It allocates nothing.
    fn note(
        &self,
        info: &mut Self::Info,
        stages: ShaderStages,
        uses: &[(Handle<key::GlobalVariable>, GlobalUse)],
        dual_source_blending: bool,
    )
        requires { All (λ u. u.0 < length (summary self.now info.old).uses) uses.now }
        ensures stages { (noted self.now info.new).0 ≡ bit_and (noted self.now info.old).0 stages.0 }
        ensures uses { (g k : ℕ) → HasUseBit (summary self.now info.new).uses g k ↔ (HasUseBit (summary self.now info.old).uses g k ⊎ NotesUse uses.now g k) }
        ensures globals { length (summary self.now info.new).uses ≡ length (summary self.now info.old).uses }
        ensures pairs { (summary self.now info.new).pairs ≡ (summary self.now info.old).pairs }
        ensures may_kill { (summary self.now info.new).may_kill ≡ (summary self.now info.old).may_kill }
        ensures blending { blending self.now info.new ≡ (blending self.now info.old || dual_source_blending) }
        ensures types { types self.now info.new ≡ types self.now info.old }
        ensures own { (m : PlainModule) (f : PlainFunction) → own self.now m f info.old → own self.now m f info.new };

    /// Its `TypeInfo`s are right for all types of its module.
    ghost told_of_all: { (l : Self) (m : PlainModule) → is_for l m → AreReported m.types (told l) };

    /// The types of global expressions are right.
    ghost global_typed: { (l : Self) (m : PlainModule) → is_for l m → (e : ℕ) (r : TypeResolution) → slice_get (global_types l) e ≡ Some r → has_global_form l m e (form_given m.types r) };

    /// An initializer of a global variable of its module has a type.
    ghost initializers_typed: { (l : Self) (m : PlainModule) → is_for l m → (g : ℕ) (v : PlainGlobal) (e : ℕ) → slice_get m.globals g ≡ Some v → v.init ≡ Some e → e < length (global_types l) };

    /// The type of a global expression has one form.
    ghost one_global_form: { (l : Self) (m : PlainModule) (e : ℕ) (s t : Form) → has_global_form l m e s → has_global_form l m e t → s ≡ t };

    /// The type of an expression has one form.
    ghost one_form: { (l : Self) (q : Question) (e : ℕ) (s t : Form) → (reading l q).HasForm e s → (reading l q).HasForm e t → s ≡ t };

    /// The stages that may run an expression do not depend on the call.
    ghost one_run: { (l : Self) (q : Question) (e : ℕ) (s t : ShaderStages) → (reading l q).IsRunBy e s → (reading l q).IsRunBy e t → s ≡ t };

    /// A function with an error of the analysis is not valid for it.
    ghost fault_refutes: { (l : Self) (q : Question) (flags : ValidationFlags) (e : FunctionError) → (faults l q).IsAnalysisFault flags e → (reading l q).IsAnalysed flags → ⊥ };

    /// Nor is an expression with an error.
    ghost expression_refuted: { (l : Self) (q : Question) (capabilities : Capabilities) (forms : List Form) (e : ℕ) (x : ExpressionError) → (faults l q).IsFaultAt capabilities forms e x → (reading l q).IsAccepted capabilities forms e → ⊥ };
}
