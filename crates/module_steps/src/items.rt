//! The checks of single items, given the results of the others.
//!
//! The capabilities of the context are ignored: the validator's own apply.

ghost use Rattle.std.specs.Prelude.{◌<◌, ◌≤◌, length, MatchResult};
ghost use Rattle.module_context.specs.OperandView.{IsKnown as IsKnownOfExpressions};
ghost use Rattle.module_expressions.specs.Faults.{IsExpressionFault};
ghost use Rattle.module_constants.specs.Known.{IsKnown as IsKnownOfValues, module_in};
ghost use Rattle.module_constants.specs.Refusals.{IsExpressionRefused};
ghost use Rattle.module_context.specs.AcceptedTypes.{IsAccepted};
ghost use Rattle.module_steps.specs.Validated.{IsRefusedFor};
ghost use Rattle.module_steps.specs.Seen.{scene_by};
ghost use Rattle.spec_statements.specs.judged.Expressions.{ExpressionOK};
ghost use Rattle.spec_statements.specs.judged.ExpressionStages.{IsRunBy};
ghost use Rattle.spec_expressions.specs.judged.GlobalExpressions.{GlobalExpressionOK};
ghost use Rattle.module_type_checks.specs.Known.{IsKnown as IsKnownOfTypes, types_in};

use crate::validate_type;
use crate::validator::ModuleValidator;
use ir_arena::handle::Handle;
use ir_flags::ShaderStages;
use ir_types::key;
use module_constants::{GlobalContext, validate_const_expression};
use module_context::CheckContext;
use module_expressions::validate_expression;
use module_type_checks::TypeContext;
use typing_errors::{ConstExpressionError, ExpressionError};
use typing_layout::{TypeError, TypeInfo};

impl ModuleValidator {
    /// The `TypeInfo` of the type at a handle if it is valid, given those of earlier types (naga's
    /// `Validator::validate_type`).
    ///
    /// Requires that types reference only earlier types, that the context's layouts and `TypeInfo`s are correct, and that it has a
    /// `TypeInfo` for each type before this one.
    ///
    /// # Errors
    ///
    /// An error of the type, returned only if its condition holds. If several hold, it is one of them.
    pub fn validate_type(
        &self,
        context: &TypeContext<'_>,
        handle: Handle<key::IrType>,
    ) -> Result<TypeInfo, TypeError>
        requires known { IsKnownOfTypes context.now }
        requires before { handle ≤ length context.now.infos.now }
        requires laid { handle < length context.now.layouter.now }
        requires within { handle < length context.now.types.now }
        ensures { MatchResult result
            (IsAccepted self.now.settings.capabilities context.now.overrides_resolved (types_in context.now) handle)
            (IsRefusedFor self.now.settings.capabilities context.now.overrides_resolved (types_in context.now) handle) }
    {
        let own = TypeContext {
            capabilities: self.settings.capabilities,
            overrides_resolved: context.overrides_resolved,
            types: context.types,
            layouter: context.layouter,
            infos: context.infos,
        };
        validate_type(&own, handle)
    }

    /// Whether the global expression at a handle is valid (naga's `Validator::validate_const_expression`).
    ///
    /// Requires that the items referenced by the module's constants, overrides and `Compose` exist, and that the context
    /// has all `TypeInfo`s and the kinds and forms of all global expressions.
    ///
    /// # Errors
    ///
    /// It is a runtime expression, it was not evaluated, it is an invalid literal, or a `Compose` whose components do not
    /// fit. An error is returned only if its condition holds.
    pub fn validate_const_expression(
        &self,
        context: &GlobalContext<'_>,
        handle: Handle<key::Expression>,
    ) -> Result<(), ConstExpressionError>
        requires known { IsKnownOfValues context.now }
        requires within { handle < length context.now.«module».now.global_expressions }
        ensures { MatchResult result
            (λ _. GlobalExpressionOK self.now.settings.capabilities context.now.overrides_resolved (module_in context.now) handle)
            (IsExpressionRefused self.now.settings.capabilities context.now.overrides_resolved (module_in context.now) handle) }
    {
        let own = GlobalContext {
            capabilities: self.settings.capabilities,
            overrides_resolved: context.overrides_resolved,
            module: context.module,
            kinds: context.kinds,
            forms: context.forms,
            infos: context.infos,
        };
        validate_const_expression(&own, handle)
    }

    /// Whether the expression at a handle is valid, and which stages may run it (naga's `Validator::validate_expression`).
    ///
    /// Requires that the context has all `TypeInfo`s and all expression kinds.
    ///
    /// # Errors
    ///
    /// [`ExpressionError::Literal`] and [`ExpressionError::Compose`] for an invalid literal and for components that do not
    /// compose the type, [`ExpressionError::Other`] for the failed requirement of any other expression. An error is
    /// returned only if its condition holds.
    pub fn validate_expression(
        &self,
        context: &CheckContext<'_>,
        handle: Handle<key::Expression>,
    ) -> Result<ShaderStages, ExpressionError>
        requires known { IsKnownOfExpressions context.now }
        requires within { handle < length context.now.expressions.now }
        ensures { MatchResult result
            (λ stages. ExpressionOK (scene_by self.now.settings.capabilities context.now) handle × IsRunBy context.now.callees.now (scene_by self.now.settings.capabilities context.now).expressions handle stages)
            (IsExpressionFault (scene_by self.now.settings.capabilities context.now) handle) }
    {
        let own = CheckContext {
            capabilities: self.settings.capabilities,
            types: context.types,
            infos: context.infos,
            expressions: context.expressions,
            forms: context.forms,
            kinds: context.kinds,
            callees: context.callees,
        };
        validate_expression(&own, handle)
    }
}
