//! The resolve context, and the method that computes an expression's type.

ghost use Rattle.std.specs.Prelude.{◌≡◌, ◌↔◌, IsTrue, ℕ, List, map, slice_get, Some};
ghost use Rattle.ir_types.specs.judged.Plain.{PlainType};
ghost use Rattle.std.specs.Borrow.{Bor};
ghost use Rattle.ir_types.specs.judged.ExpressionPlain.{PlainExpression, expression_view};
ghost use Rattle.ir_items.specs.found.GlobalView.{values_of};
ghost use Rattle.ir_items.specs.found.View.{argument_view, local_view, module_view};
ghost use Rattle.typing_rules.specs.judged.Laws.{IsAmong};
ghost use Rattle.spec_expressions.specs.judged.Context.{NamesItem, context_with};
ghost use Rattle.spec_expressions.specs.judged.Typing.{typing_operands, rule_at, form_read, HasTypeAmong};
ghost use Rattle.typing_forms.specs.declared.form.Form.{Form};
ghost use Rattle.typing_forms.specs.declared.resolution.TypeResolution.{TypeResolution};
ghost use Rattle.typing_errors.specs.Answers.{form_given, told, IsAnswer};
ghost use Rattle.typing_errors.specs.Operands.{given_form};
ghost use Rattle.typing_resolve.specs.View.{context_view};

use crate::typing::answered;
use ir_arena::arena::Arena;
use ir_arena::handle::Handle;
use ir_items::{
    Constant, Function, FunctionArgument, GlobalVariable, LocalVariable, Module, Override,
    SpecialTypes,
};
use ir_sets::unique_arena::UniqueArena;
use ir_types::{Expression, IrType, key};
use std::alloc::Global;
use typing_errors::{Given, ResolveRefusal, operands_of};
use typing_forms::TypeResolution;

/// What the type of an expression may depend on, besides those of its operands (naga's `ResolveContext`).
#[derive(Clone, Copy)]
pub struct ResolveContext<'a> {
    /// The module's constants.
    pub constants: &'a Arena<Constant, key::Constant>,
    /// The module's overrides.
    pub overrides: &'a Arena<Override, key::Override>,
    /// The module's types.
    pub types: &'a UniqueArena<IrType, key::IrType>,
    /// The module's special types.
    pub special_types: &'a SpecialTypes,
    /// The module's global variables.
    pub global_vars: &'a Arena<GlobalVariable, key::GlobalVariable>,
    /// The function's local variables.
    pub local_vars: &'a Arena<LocalVariable, key::LocalVariable>,
    /// The module's functions.
    pub functions: &'a Arena<Function, key::Function>,
    /// The function's arguments.
    pub arguments: &'a [FunctionArgument],
}

// The type of an operand, if the operand exists.
fn read<'r, F: Fn(Handle<key::Expression>) -> &'r TypeResolution>(
    operand: Option<Handle<key::Expression>>,
    past: &F,
) -> Option<&'r TypeResolution>
    requires { (o : ℕ) → operand ≡ Some o → F.pre past.now o }
    ensures { (types : List PlainType) (forms : ℕ → Form)
        → ((o : ℕ) (r : Bor TypeResolution) → operand ≡ Some o → F.post past.now o r → form_given types r.now ≡ forms o)
        → given_form types result ≡ form_read forms operand }
{
    match operand {
        Some(operand) => Some(past(operand)),
        None => None,
    }
}

impl<'a> ResolveContext<'a> {
    /// The context of the expressions of a function with these variables and arguments (naga's
    /// `ResolveContext::with_locals`). For global expressions both are empty.
    pub const fn with_locals(
        module: &'a Module,
        local_vars: &'a Arena<LocalVariable, key::LocalVariable>,
        arguments: &'a [FunctionArgument],
    ) -> Self
        ensures { context_view result
            ≡ context_with (module_view «module».now) (map local_view (values_of local_vars.now)) (map argument_view arguments.now) }
    {
        ResolveContext {
            constants: &module.constants,
            overrides: &module.overrides,
            types: &module.types,
            special_types: &module.special_types,
            global_vars: &module.global_variables,
            local_vars,
            functions: &module.functions,
            arguments,
        }
    }

    /// Whether the constant, override, variable or function that the expression refers to exists, if it refers to one, as
    /// [`ResolveContext::resolve`] requires.
    pub fn names_item(&self, expression: &Expression) -> bool
        ensures { IsTrue result ↔ NamesItem (context_view self.now) (expression_view expression.now) }
    {
        match *expression {
            Expression::Constant(constant) => constant.index() < self.constants.len(),
            Expression::Override(id) => id.index() < self.overrides.len(),
            Expression::GlobalVariable(global) => global.index() < self.global_vars.len(),
            Expression::LocalVariable(local) => local.index() < self.local_vars.len(),
            Expression::CallResult(function) => function.index() < self.functions.len(),
            Expression::Literal(_)
            | Expression::ZeroValue(_)
            | Expression::Compose { .. }
            | Expression::Access { .. }
            | Expression::AccessIndex { .. }
            | Expression::Splat { .. }
            | Expression::Swizzle { .. }
            | Expression::FunctionArgument(_)
            | Expression::Load { .. }
            | Expression::ImageSample { .. }
            | Expression::ImageLoad { .. }
            | Expression::ImageQuery { .. }
            | Expression::Unary { .. }
            | Expression::Binary { .. }
            | Expression::Select { .. }
            | Expression::Derivative { .. }
            | Expression::Relational { .. }
            | Expression::Math { .. }
            | Expression::As { .. }
            | Expression::AtomicResult { .. }
            | Expression::WorkGroupUniformLoadResult { .. }
            | Expression::ArrayLength(_)
            | Expression::RayQueryVertexPositions { .. }
            | Expression::RayQueryProceedResult
            | Expression::RayQueryGetIntersection { .. }
            | Expression::SubgroupBallotResult
            | Expression::SubgroupOperationResult { .. }
            | Expression::CooperativeLoad { .. }
            | Expression::CooperativeMultiplyAdd { .. } => true,
        }
    }

    /// The type of `expression`, where `past` returns the types of the operands that it depends on (naga's
    /// `ResolveContext::resolve`). A type of the module is returned by its handle wherever the expression declares one.
    ///
    /// Requires that the constant, override, variable or function that the expression refers to exists, and that `past` may be
    /// called for the operands on whose types the expression's type depends.
    ///
    /// # Errors
    ///
    /// [`ResolveRefusal::Fault`] exactly if the expression has no type, and [`ResolveRefusal::Memory`] if
    /// out of memory.
    pub fn resolve<'r, F: Fn(Handle<key::Expression>) -> &'r TypeResolution>(
        &self,
        alloc: Global,
        expression: &Expression,
        past: F,
    ) -> Result<TypeResolution, ResolveRefusal>
        requires names { NamesItem (context_view self.now) (expression_view expression.now) }
        requires callable { (o : ℕ) → IsAmong o (typing_operands (expression_view expression.now)) → F.pre past o }
        ensures by_operands { (forms : ℕ → Form)
            → ((o : ℕ) (r : Bor TypeResolution) → IsAmong o (typing_operands (expression_view expression.now)) → F.post past o r
            → form_given (context_view self.now).types r.now ≡ forms o)
            → told (context_view self.now).types (Some (rule_at (context_view self.now) (expression_view expression.now) forms)) result
            ≡ Some (rule_at (context_view self.now) (expression_view expression.now) forms) }
        ensures decides { (expressions : List PlainExpression) (place : ℕ) (forms : ℕ → Form)
            → slice_get expressions place ≡ Some (expression_view expression.now)
            → ((o : ℕ) → IsAmong o (typing_operands (expression_view expression.now)) → HasTypeAmong (context_view self.now) expressions o (forms o))
            → ((o : ℕ) (r : Bor TypeResolution) → IsAmong o (typing_operands (expression_view expression.now)) → F.post past o r
            → form_given (context_view self.now).types r.now ≡ forms o)
            → IsAnswer (context_view self.now) expressions place result }
    {
        let operands = operands_of(expression);
        let given = Given {
            first: read(operands.first, &past),
            second: read(operands.second, &past),
            third: read(operands.third, &past),
            fourth: read(operands.fourth, &past),
        };
        answered(alloc, self, expression, &given)
    }
}
