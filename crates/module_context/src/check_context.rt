//! The context in which an expression is checked.

ghost use Rattle.std.specs.Prelude.{◌≡◌, ◌↔◌, IsTrue, option_and_then, option_map, slice_get};
ghost use Rattle.ir_types.specs.judged.ExpressionPlain.{expression_view};
ghost use Rattle.ir_types.specs.judged.Plain.{inner_view};
ghost use Rattle.module_context.specs.OperandView.{scene_in, expressions_in, types_in, IsKnown};
ghost use Rattle.spec_statements.specs.judged.Access.{literal_of};
ghost use Rattle.spec_statements.specs.judged.Scene.{form_among};
ghost use Rattle.spec_statements.specs.judged.Shapes.{pointed_in};
ghost use Rattle.typing_layout.specs.judged.Flags.{HasFlag, Data, Sized, Constructible};
ghost use Rattle.typing_layout.specs.judged.View.{type_tree};
ghost use Rattle.typing_layout.specs.judged.Constness.{IsOfKind};
ghost use Rattle.typing_layout.specs.declared.constness.ExpressionKind.TheVariants.{Const};

use crate::shapes::pointee_of;
use bitflags::Flags;
use ir_arena::arena::Arena;
use ir_arena::handle::Handle;
use ir_flags::{Capabilities, ShaderStages};
use ir_kinds::Literal;
use ir_sets::unique_arena::UniqueArena;
use ir_types::{Expression, IrType, TypeInner, key};
use typing_forms::{Form, inner_of};
use typing_layout::{ExpressionKindTracker, TypeFlags, TypeInfo};

/// The context in which an expression is checked.
#[derive(Clone, Copy)]
pub struct CheckContext<'a> {
    /// The enabled capabilities.
    pub capabilities: Capabilities,
    /// The module's types.
    pub types: &'a UniqueArena<IrType, key::IrType>,
    /// The `TypeInfo`s of the types.
    pub infos: &'a [TypeInfo],
    /// The expression arena: that of a function or of the module.
    pub expressions: &'a Arena<Expression, key::Expression>,
    /// The form of the type of each expression.
    pub forms: &'a [Form],
    /// The expression kind of each expression.
    pub kinds: &'a ExpressionKindTracker,
    /// The stages that may run the module's functions, if known.
    pub callees: &'a [ShaderStages],
}

// The literal that an expression is.
fn literal_of(expression: &Expression) -> Option<Literal>
    ensures { result ≡ literal_of (expression_view expression.now) }
{
    match *expression {
        Expression::Literal(value) => Some(value),
        Expression::Constant(_)
        | Expression::Override(_)
        | Expression::ZeroValue(_)
        | Expression::Compose { .. }
        | Expression::Access { .. }
        | Expression::AccessIndex { .. }
        | Expression::Splat { .. }
        | Expression::Swizzle { .. }
        | Expression::FunctionArgument(_)
        | Expression::GlobalVariable(_)
        | Expression::LocalVariable(_)
        | Expression::Load { .. }
        | Expression::ImageSample { .. }
        | Expression::ImageLoad { .. }
        | Expression::ImageQuery { .. }
        | Expression::Unary { .. }
        | Expression::Binary { .. }
        | Expression::Select { .. }
        | Expression::Derivative { .. }
        | Expression::Relational { .. }
        | Expression::Math { .. }
        | Expression::As { .. }
        | Expression::CallResult(_)
        | Expression::AtomicResult { .. }
        | Expression::WorkGroupUniformLoadResult { .. }
        | Expression::ArrayLength(_)
        | Expression::RayQueryVertexPositions { .. }
        | Expression::RayQueryProceedResult
        | Expression::RayQueryGetIntersection { .. }
        | Expression::SubgroupBallotResult
        | Expression::SubgroupOperationResult { .. }
        | Expression::CooperativeLoad { .. }
        | Expression::CooperativeMultiplyAdd { .. } => None,
    }
}

impl<'a> CheckContext<'a> {
    /// The form of the type of an expression, or [`Form::Nothing`] if it has none.
    pub fn form_at(&self, handle: Handle<key::Expression>) -> Form
        ensures { result ≡ form_among (scene_in self.now).forms handle }
    {
        match self.forms.get(handle.index()) {
            Some(form) => *form,
            None => Form::Nothing,
        }
    }

    /// The literal at a handle, if the expression there is one.
    #[tactic(auto, using(ir_items::proofs::Lookups::found, ir_items::proofs::Lookups::missing))]
    pub fn literal_at(&self, handle: Handle<key::Expression>) -> Option<Literal>
        ensures { result ≡ option_and_then literal_of (slice_get (expressions_in self.now) handle) }
    {
        match self.expressions.try_get(handle) {
            Ok(expression) => literal_of(expression),
            Err(_) => None,
        }
    }

    /// The base type of a pointer, if it is neither a scalar nor a vector.
    pub fn pointed_in(&self, of: Form) -> Option<&TypeInner>
        ensures { option_map (λ found. inner_view found.now) result ≡ pointed_in (types_in self.now) of }
    {
        match pointee_of(of) {
            Some(base) => inner_of(self.types, base),
            None => None,
        }
    }

    // Whether a type has a type flag.
    fn has(&self, ty: Handle<key::IrType>, flag: TypeFlags) -> bool
        requires { IsKnown self.now }
        ensures data { flag.0 ≡ 1 → IsTrue result ↔ HasFlag Data (type_tree (types_in self.now) ty) }
        ensures sized { flag.0 ≡ 2 → IsTrue result ↔ HasFlag Sized (type_tree (types_in self.now) ty) }
        ensures constructible { flag.0 ≡ 128 → IsTrue result ↔ HasFlag Constructible (type_tree (types_in self.now) ty) }
    {
        match self.infos.get(ty.index()) {
            Some(info) => info.flags.contains(flag),
            None => false,
        }
    }

    /// Whether a type has the `DATA` flag.
    pub fn is_data(&self, ty: Handle<key::IrType>) -> bool
        requires { IsKnown self.now }
        ensures { IsTrue result ↔ HasFlag Data (type_tree (types_in self.now) ty) }
    {
        self.has(ty, TypeFlags::DATA)
    }

    /// Whether a type has the `SIZED` flag.
    pub fn is_sized(&self, ty: Handle<key::IrType>) -> bool
        requires { IsKnown self.now }
        ensures { IsTrue result ↔ HasFlag Sized (type_tree (types_in self.now) ty) }
    {
        self.has(ty, TypeFlags::SIZED)
    }

    /// Whether a type is constructible.
    pub fn is_constructible(&self, ty: Handle<key::IrType>) -> bool
        requires { IsKnown self.now }
        ensures { IsTrue result ↔ HasFlag Constructible (type_tree (types_in self.now) ty) }
    {
        self.has(ty, TypeFlags::CONSTRUCTIBLE)
    }

    /// Whether an expression is a const-expression.
    pub fn is_const(&self, handle: Handle<key::Expression>) -> bool
        requires { IsKnown self.now }
        ensures { IsTrue result ↔ IsOfKind (expressions_in self.now) handle Const }
    {
        handle.index() < self.expressions.len() && self.kinds.is_const(handle)
    }
}
