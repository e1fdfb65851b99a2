//! The check of a global variable of a module whose types and global expressions are already checked.

ghost use Rattle.std.specs.Prelude.{MatchResult};
ghost use Rattle.module_globals.specs.Faults.{IsGlobalFault};
ghost use Rattle.module_globals.specs.Initializers.{IsInitializer, IsTypedBy};
ghost use Rattle.module_globals.specs.There.{IsPlaced, IsThere};
ghost use Rattle.ir_items.specs.found.GlobalView.{global_view};
ghost use Rattle.module_constants.specs.Known.{IsKnown, module_in};
ghost use Rattle.spec_expressions.specs.judged.Typing.{HasGlobalType};
ghost use Rattle.spec_interface.specs.judged.Globals.{GlobalOK};

use crate::context::{Initializer, VariableContext};
use crate::error::GlobalVariableError;
use crate::globals::validate_variable;
use ir_arena::handle::Handle;
use ir_flags::ValidationFlags;
use ir_items::GlobalVariable;
use ir_types::key;
use module_constants::GlobalContext;

// The kind and form of a variable's initializer, if it has one.
fn initializer_of(context: &GlobalContext<'_>, variable: &GlobalVariable) -> Option<Initializer>
    requires known { IsKnown context.now }
    requires placed { IsPlaced (module_in context.now) (global_view variable.now) }
    ensures there { IsInitializer (module_in context.now) variable.now.init result }
    ensures typed { IsTypedBy (HasGlobalType (module_in context.now)) variable.now.init result }
{
    match variable.init {
        Some(init) => Some(Initializer {
            is_known: context.kinds.is_const_or_override(init),
            form: context.forms[init.index()],
        }),
        None => None,
    }
}

/// Whether a global variable is valid, given the module's `TypeInfo`s and inferred types (naga's `validate_global_var`).
///
/// Requires that the variable, its type and its initializer exist, and that types reference only earlier types, as in a module
/// with valid handles.
///
/// # Errors
///
/// An error of the variable, returned only if its condition holds. If several hold, it is one of them.
pub fn validate_global_var(
    flags: ValidationFlags,
    context: &GlobalContext<'_>,
    global: Handle<key::GlobalVariable>,
) -> Result<(), GlobalVariableError>
    requires known { IsKnown context.now }
    requires there { IsThere (module_in context.now) global }
    ensures { MatchResult result
        (λ _. GlobalOK flags context.now.capabilities (module_in context.now) global)
        (IsGlobalFault flags context.now.capabilities (module_in context.now) global) }
{
    let variable = &context.module.global_variables[global];
    let initializer = initializer_of(context, variable);
    let own = VariableContext {
        capabilities: context.capabilities,
        module: context.module,
        infos: context.infos,
    };
    validate_variable(flags, &own, variable, initializer)
}
