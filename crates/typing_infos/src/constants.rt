//! The types of a module's global expressions.

ghost use Rattle.std.specs.Prelude.{◌≡◌, ◌<◌, ◌≤◌, [], IfOk, IfErr, length};
ghost use Rattle.ir_items.specs.found.View.{module_view};
ghost use Rattle.spec_expressions.specs.judged.Values.{UsesPrecede};
ghost use Rattle.spec_expressions.specs.judged.Context.{outside};
ghost use Rattle.typing_infos.specs.Types.{ItemsNamed, TypedSoFar, AreTypes, IsFirstUntyped};
ghost use Rattle.typing_errors.specs.Answers.{IsAnswer};
ghost use Rattle.typing_resolve.specs.View.{context_view};

use crate::refusal::TypingRefusal;
use crate::types::{missing_type, type_pointed, types_of};
use ir_arena::arena::Arena;
use ir_arena::handle::Handle;
use ir_items::{LocalVariable, Module};
use ir_types::key;
use std::alloc::Global;
use typing_errors::ResolveRefusal;
use typing_forms::TypeResolution;
use typing_resolve::ResolveContext;

// The resolve context of global expressions: no variables, as an empty arena, and no arguments.
fn outside<'a>(
    module: &'a Module,
    locals: &'a Arena<LocalVariable, key::LocalVariable>,
) -> ResolveContext<'a>
    requires { locals.now ≡ [] }
    ensures { context_view result ≡ outside (module_view «module».now) }
{
    ResolveContext::with_locals(module, locals, &[])
}

/// The type of a global expression of the module, given the types `types` of the earlier expressions (naga's
/// `ModuleInfo::process_const_expression`).
///
/// Requires that the expression exists, that operands precede, and that each item which a global expression
/// refers to exists.
///
/// # Errors
///
/// [`ResolveRefusal::Fault`] exactly if the expression has no type, and [`ResolveRefusal::Memory`] if out of memory.
pub fn process_const_expression(
    alloc: Global,
    module: &Module,
    handle: Handle<key::Expression>,
    types: &[TypeResolution],
) -> Result<TypeResolution, ResolveRefusal>
    requires within { handle < length (module_view «module».now).global_expressions }
    requires precede { UsesPrecede (module_view «module».now).global_expressions }
    requires named { ItemsNamed (outside (module_view «module».now)) (module_view «module».now).global_expressions }
    requires known { handle ≤ length types.now }
    requires typed { TypedSoFar (outside (module_view «module».now)) (module_view «module».now).global_expressions types.now }
    ensures { IsAnswer (outside (module_view «module».now)) (module_view «module».now).global_expressions handle result }
{
    let locals = Arena::new(alloc);
    let context = outside(module, &locals);
    let expression = &module.global_expressions[handle];
    type_pointed(alloc, &context, types, &missing_type(), expression)
}

/// The types of all global expressions of the module, in order.
///
/// Requires that operands precede, and that each item which a global expression refers to exists.
///
/// # Errors
///
/// [`TypingRefusal::Fault`] exactly if a global expression has no type: the first that has none, and why.
/// [`TypingRefusal::Memory`] if out of memory.
pub fn const_expression_types(
    alloc: Global,
    module: &Module,
) -> Result<Vec<TypeResolution>, TypingRefusal>
    requires precede { UsesPrecede (module_view «module».now).global_expressions }
    requires named { ItemsNamed (outside (module_view «module».now)) (module_view «module».now).global_expressions }
    ensures ok { IfOk result (λ v. AreTypes (outside (module_view «module».now)) (module_view «module».now).global_expressions v.items) }
    ensures fault { IfErr result (IsFirstUntyped (outside (module_view «module».now)) (module_view «module».now).global_expressions) }
{
    let locals = Arena::new(alloc);
    let context = outside(module, &locals);
    types_of(alloc, &context, &module.global_expressions)
}
