// The arenas of a module, in which types, constants and variables are built.

use ir_arena::arena::Arena;
use ir_arena::handle::Handle;
use ir_arena::span::Span;
use ir_items::{Constant, GlobalVariable, Override};
use ir_sets::unique_arena::UniqueArena;
use ir_types::{Expression, IrType, TypeInner, key};
use spirv_constants::{Constants, ExpressionHandle};
use spirv_declarations::{Budget, GlobalHandle, Variables, expression_size, type_size};
use spirv_types::{TypeHandle, Types};
use spirv_words::SpirvError;
use std::alloc::Global;

/// The types of a module.
#[derive(Drop)]
pub struct BuiltTypes {
    /// The types.
    pub arena: UniqueArena<IrType, key::IrType>,
    /// The remaining budget for types.
    pub budget: Budget,
}

impl Types for BuiltTypes {
    fn insert(&mut self, ty: IrType, span: Span) -> Result<TypeHandle, SpirvError> {
        if let Err(error) = self.budget.spend(type_size(&ty), span) {
            return Err(error);
        }
        match self.arena.insert(ty, span) {
            Ok(handle) => Ok(handle),
            Err(_) => Err(SpirvError::Memory),
        }
    }

    fn inner(&self, ty: TypeHandle) -> Option<&TypeInner> {
        match self.arena.get_handle(ty) {
            Ok(built) => Some(&built.inner),
            Err(_) => None,
        }
    }

    fn copy(&self, alloc: Global, ty: TypeHandle) -> Result<Option<IrType>, SpirvError> {
        let Ok(built) = self.arena.get_handle(ty) else {
            return Ok(None);
        };
        match built.clone(alloc) {
            Ok(copy) => Ok(Some(copy)),
            Err(_) => Err(SpirvError::Memory),
        }
    }
}

/// The constants of a module, with the expressions that they are made of.
#[derive(Drop)]
pub struct BuiltConstants {
    /// Constants.
    pub constants: Arena<Constant, key::Constant>,
    /// Overrides.
    pub overrides: Arena<Override, key::Override>,
    /// The expressions of the module.
    pub expressions: Arena<Expression, key::Expression>,
    /// The remaining budget for global expressions.
    pub budget: Budget,
}

impl Constants for BuiltConstants {
    fn constant(
        &mut self,
        name: Option<String>,
        ty: TypeHandle,
        init: ExpressionHandle,
        span: Span,
    ) -> Result<Handle<key::Constant>, SpirvError> {
        match self.constants.append(Constant { name, ty, init }, span) {
            Ok(handle) => Ok(handle),
            Err(_) => Err(SpirvError::Memory),
        }
    }

    fn overridable(
        &mut self,
        name: Option<String>,
        id: Option<u16>,
        ty: TypeHandle,
        init: ExpressionHandle,
        span: Span,
    ) -> Result<Handle<key::Override>, SpirvError> {
        let init = Some(init);
        match self.overrides.append(Override { name, id, ty, init }, span) {
            Ok(handle) => Ok(handle),
            Err(_) => Err(SpirvError::Memory),
        }
    }

    fn expression(
        &mut self,
        expression: Expression,
        span: Span,
    ) -> Result<ExpressionHandle, SpirvError> {
        if let Err(error) = self.budget.spend(expression_size(&expression), span) {
            return Err(error);
        }
        match self.expressions.append(expression, span) {
            Ok(handle) => Ok(handle),
            Err(_) => Err(SpirvError::Memory),
        }
    }
}

/// The global variables of a module.
#[derive(Drop)]
pub struct BuiltVariables {
    /// The variables.
    pub arena: Arena<GlobalVariable, key::GlobalVariable>,
}

impl Variables for BuiltVariables {
    fn add(&mut self, variable: GlobalVariable, span: Span) -> Result<GlobalHandle, SpirvError> {
        match self.arena.append(variable, span) {
            Ok(handle) => Ok(handle),
            Err(_) => Err(SpirvError::Memory),
        }
    }
}
