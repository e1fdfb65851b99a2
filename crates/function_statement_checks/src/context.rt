//! The context in which a statement is checked.

ghost use Rattle.std.specs.Prelude.{◌≡◌, ◌↔◌, IsTrue, map, option_map, slice_get};
ghost use Rattle.ir_blocks.specs.found.View.{block_view};
ghost use Rattle.ir_items.specs.found.GlobalView.{global_view, values_of};
ghost use Rattle.ir_items.specs.found.View.{function_view};
ghost use Rattle.ir_types.specs.judged.ExpressionPlain.{expression_view};
ghost use Rattle.ir_types.specs.judged.Plain.{inner_view, type_view};
ghost use Rattle.spec_statements.specs.judged.BlockContext.{BlockContext as PlainContext, form_at};
ghost use Rattle.spec_statements.specs.judged.Stores.{BeginsAt};
ghost use Rattle.ir_items.specs.judged.Bases.{BasesPrecede, expressions_of};
ghost use Rattle.function_statement_checks.specs.Roots.{AreRoots};
ghost use Rattle.function_statement_checks.specs.Descriptors.{IsDescriptorAt};
ghost use Rattle.function_statement_checks.specs.Emits.{IsAnswerOf};
ghost use Rattle.typing_forms.specs.judged.Forms.{form_of_type};
ghost use Rattle.typing_forms.specs.judged.Resolutions.{inner_at};
ghost use Rattle.typing_layout.specs.judged.Constness.{IsOfKind};
ghost use Rattle.typing_layout.specs.declared.constness.ExpressionKind.TheVariants.{Const};

use crate::descriptors::is_descriptor;
use crate::emits::answer_of;
use crate::roots::walked_back;
use ir_arena::handle::Handle;
use ir_arena::range::Range;
use ir_flags::{Capabilities, SubgroupOperationSet};
use ir_items::{Block, Function, FunctionResult, GlobalVariable, Module};
use ir_sets::unique_arena::UniqueArena;
use ir_types::{Expression, IrType, TypeInner, key};
use typing_forms::{Form, form_of_type, inner_of};
use typing_layout::ExpressionKindTracker;

/// The context in which a statement is checked: a module, one of its functions, and the facts about its expressions. The rules
/// are generic over it.
pub trait StatementContext {
    /// Its view.
    ghost seen: { Self → PlainContext };

    /// The precomputed facts are right: the kinds of all expressions, and which are results; for all types, whether they are
    /// equivalent to the module's ray descriptor.
    ghost known: { Self → Type 0 };

    /// The enabled capabilities.
    fn capabilities(&self) -> Capabilities
        ensures { result ≡ (seen self.now).capabilities };

    /// The enabled subgroup operations.
    fn operations(&self) -> SubgroupOperationSet
        ensures { result ≡ (seen self.now).operations };

    /// The form of the type of an expression, [`Form::Nothing`] if it has none.
    fn form_at(&self, handle: Handle<key::Expression>) -> Form
        ensures { result ≡ form_at (seen self.now) handle };

    /// The form of a type of the module, [`Form::Nothing`] if there is none.
    fn form_of(&self, ty: Handle<key::IrType>) -> Form
        ensures { result ≡ form_of_type (seen self.now).m.types ty };

    /// The inner type of a type of the module, if it exists.
    fn inner_of(&self, ty: Handle<key::IrType>) -> Option<&TypeInner>
        ensures { option_map (λ found. inner_view found.now) result ≡ inner_at (seen self.now).m.types ty };

    /// The types of the module.
    fn types(&self) -> &UniqueArena<IrType, key::IrType>
        ensures { map type_view (values_of result.now) ≡ (seen self.now).m.types };

    /// A global variable of the module, if it exists.
    fn global_at(&self, handle: Handle<key::GlobalVariable>) -> Option<&GlobalVariable>
        ensures { option_map (λ found. global_view found.now) result ≡ slice_get (seen self.now).m.globals handle };

    /// A function of the module, if it exists.
    fn function_at(&self, handle: Handle<key::Function>) -> Option<&Function>
        ensures { option_map (λ found. function_view found.now) result ≡ slice_get (seen self.now).m.functions handle };

    /// The module's ray descriptor type, if it has one.
    fn ray_descriptor(&self) -> Option<Handle<key::IrType>>
        ensures { result ≡ (seen self.now).m.special.ray_desc };

    /// Whether a type of the module is equivalent to its ray descriptor type, if it has one.
    fn is_descriptor(&self, ty: Handle<key::IrType>) -> bool
        requires { known self.now }
        ensures { IsTrue result ↔ IsDescriptorAt (seen self.now).m.types (seen self.now).m.special.ray_desc ty };

    /// An expression of the function, if it exists.
    fn expression_at(&self, handle: Handle<key::Expression>) -> Option<&Expression>
        ensures { option_map (λ found. expression_view found.now) result ≡ slice_get (seen self.now).f.expressions handle };

    /// The origin of a chain of accesses. Requires that the base of each access precedes it.
    fn beginning_of(&self, pointer: Handle<key::Expression>) -> Handle<key::Expression>
        requires { BasesPrecede (seen self.now).f.expressions }
        ensures { BeginsAt (seen self.now).f.expressions pointer result };

    /// Whether an expression is constant.
    fn is_const(&self, handle: Handle<key::Expression>) -> bool
        requires { known self.now }
        ensures { IsTrue result ↔ IsOfKind (seen self.now).f.expressions handle Const };

    /// The first expression of a range that is the result of a statement, if any. It takes the same time for any range.
    fn answer_of(&self, range: Range<key::Expression>) -> Option<Handle<key::Expression>>
        requires { known self.now }
        ensures { IsAnswerOf (seen self.now).f.expressions range result };

    /// The type of a local variable of the function, if it exists.
    fn local_type(&self, handle: Handle<key::LocalVariable>) -> Option<Handle<key::IrType>>
        ensures { result ≡ option_map (λ v. v.ty) (slice_get (seen self.now).f.locals handle) };

    /// The result of the function, if it has one.
    fn result(&self) -> Option<FunctionResult>
        ensures { result ≡ (seen self.now).f.result };

    /// The body of the function.
    fn body(&self) -> &Block
        ensures { block_view result.now ≡ (seen self.now).f.body };
}

/// The context in which a statement is checked (naga's `BlockContext`).
#[derive(Clone, Copy)]
pub struct BlockContext<'a> {
    /// The enabled capabilities.
    pub capabilities: Capabilities,
    /// The enabled subgroup operations.
    pub operations: SubgroupOperationSet,
    /// The module.
    pub module: &'a Module,
    /// The function with the body.
    pub function: &'a Function,
    /// The form of the type of each of its expressions.
    pub forms: &'a [Form],
    /// The expression kind of each of them.
    pub kinds: &'a ExpressionKindTracker,
    /// For each of them the first from it on that is the result of a statement.
    pub answers: &'a [u32],
    /// For each type of the module, whether it is equivalent to its ray descriptor type; types past the end are compared with
    /// it.
    pub descriptors: &'a [bool],
    /// For each of its expressions the origin of its chain of accesses; for expressions past the end it is searched.
    pub roots: &'a [Handle<key::Expression>],
    ghost begin: { AreRoots (expressions_of function.now.expressions) roots.now },
}

impl<'a> StatementContext for BlockContext<'a> {
    ghost use Rattle.function_statement_checks.specs.View.{context_view, IsKnown};

    ghost seen = { λ c. context_view c };

    ghost known = { λ c. IsKnown c };

    fn capabilities(&self) -> Capabilities {
        self.capabilities
    }

    fn operations(&self) -> SubgroupOperationSet {
        self.operations
    }

    fn form_at(&self, handle: Handle<key::Expression>) -> Form {
        match self.forms.get(handle.index()) {
            Some(form) => *form,
            None => Form::Nothing,
        }
    }

    fn form_of(&self, ty: Handle<key::IrType>) -> Form {
        form_of_type(&self.module.types, ty)
    }

    fn inner_of(&self, ty: Handle<key::IrType>) -> Option<&TypeInner> {
        inner_of(&self.module.types, ty)
    }

    fn types(&self) -> &UniqueArena<IrType, key::IrType> {
        &self.module.types
    }

    #[tactic(auto, using(module_context::proofs::Lookups::found, module_context::proofs::Lookups::missing))]
    fn global_at(&self, handle: Handle<key::GlobalVariable>) -> Option<&GlobalVariable> {
        match self.module.global_variables.try_get(handle) {
            Ok(global) => Some(global),
            Err(_) => None,
        }
    }

    #[tactic(auto, using(module_context::proofs::Lookups::found, module_context::proofs::Lookups::missing))]
    fn function_at(&self, handle: Handle<key::Function>) -> Option<&Function> {
        match self.module.functions.try_get(handle) {
            Ok(function) => Some(function),
            Err(_) => None,
        }
    }

    fn ray_descriptor(&self) -> Option<Handle<key::IrType>> {
        self.module.special_types.ray_desc
    }

    fn is_descriptor(&self, ty: Handle<key::IrType>) -> bool {
        match self.descriptors.get(ty.index()) {
            Some(marked) => *marked,
            None => is_descriptor(&self.module.types, self.module.special_types.ray_desc, ty),
        }
    }

    #[tactic(auto, using(module_context::proofs::Lookups::found, module_context::proofs::Lookups::missing))]
    fn expression_at(&self, handle: Handle<key::Expression>) -> Option<&Expression> {
        match self.function.expressions.try_get(handle) {
            Ok(expression) => Some(expression),
            Err(_) => None,
        }
    }

    fn beginning_of(&self, pointer: Handle<key::Expression>) -> Handle<key::Expression> {
        match self.roots.get(pointer.index()) {
            Some(root) => *root,
            None => walked_back(&self.function.expressions, pointer),
        }
    }

    fn is_const(&self, handle: Handle<key::Expression>) -> bool {
        handle.index() < self.function.expressions.len() && self.kinds.is_const(handle)
    }

    fn answer_of(&self, range: Range<key::Expression>) -> Option<Handle<key::Expression>> {
        answer_of(self.answers, range)
    }

    #[tactic(auto, using(module_context::proofs::Lookups::found, module_context::proofs::Lookups::missing))]
    fn local_type(&self, handle: Handle<key::LocalVariable>) -> Option<Handle<key::IrType>> {
        match self.function.local_variables.try_get(handle) {
            Ok(variable) => Some(variable.ty),
            Err(_) => None,
        }
    }

    fn result(&self) -> Option<FunctionResult> {
        self.function.result
    }

    fn body(&self) -> &Block {
        &self.function.body
    }
}
