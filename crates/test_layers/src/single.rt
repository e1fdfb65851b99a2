//! The results of the calls for one type, one expression and one entry point of a module, each over those for its earlier parts.

use crate::judged::{freeing, is_accepted, is_number_type};
use function_validator::laws::{entries_are_ready, made_for_accepted};
use function_validator::{
    BlockContext, ExpressionError, Lower, RealLower, Validator, next_answers,
};
use module_validator::laws::{
    expressions_are_known, order_gives_conditions, order_gives_origins, types_are_known,
    values_are_known,
};
use module_validator::{
    CheckContext, GlobalContext, ModuleValidator, Settings, TypeContext, forms_given,
};
use shader_ir::{Handle, Module, Refusal, key};
use shader_typing::{ExpressionKindTracker, Layouter, ShaderStages};
use std::alloc::{AllocError, Global};

/// The results for the first items of a module.
#[derive(Clone, Copy)]
pub struct Firsts {
    /// Whether its first entry point is valid.
    pub entry: bool,
    /// Whether its first type is.
    pub ty: bool,
    /// Whether its first global expression is valid as one, and as an expression.
    pub value: (bool, bool),
    /// Whether the type of that is `u32`.
    pub number: bool,
    /// The number of expressions of its first function, if the analysis accepts it.
    pub analysed: Option<usize>,
    /// Whether a compute shader may run the first of them.
    pub computes: bool,
}

/// The results for the first items of the module. The error is out of memory.
pub fn firsts_of(alloc: Global, settings: Settings, module: &Module) -> Result<Firsts, AllocError> {
    let entry = accepts_entry(alloc, settings, module, 0)?;
    let ty = accepts_type(alloc, settings, module, Handle::at(0))?;
    let value = accepts_value(alloc, settings, module, Handle::at(0))?;
    let number = is_global_number(alloc, settings, module, Handle::at(0))?;
    let analysed = analysed(alloc, settings, module, Handle::at(0))?;
    let computes = computes(alloc, settings, module, Handle::at(0), Handle::at(0))?;
    Ok(Firsts {
        entry,
        ty,
        value,
        number,
        analysed,
        computes,
    })
}

// Whether a type of the module is valid, given the layouts and the `TypeInfo`s of all. The error is out of memory.
fn accepts_type(
    alloc: Global,
    settings: Settings,
    module: &Module,
    ty: Handle<key::IrType>,
) -> Result<bool, AllocError> {
    types_are_known();
    order_gives_conditions();
    let mut items = ModuleValidator::new(alloc, settings.flags, settings.capabilities);
    match items.validate(module) {
        Ok(info) => {
            let mut layouter = Layouter::new(alloc);
            match layouter.update(&module.types) {
                Ok(()) if ty.index() < module.types.len() => {
                    let context = TypeContext {
                        capabilities: settings.capabilities,
                        overrides_resolved: false,
                        types: &module.types,
                        layouter: &layouter,
                        infos: info.types(),
                    };
                    Ok(items.validate_type(&context, ty).is_ok())
                }
                Ok(()) => Ok(false),
                Err(Refusal::Fault(_)) => Ok(false),
                Err(Refusal::Memory(error)) => Err(error),
            }
        }
        Err(Refusal::Fault(_)) => Ok(false),
        Err(Refusal::Memory(error)) => Err(error),
    }
}

// Whether a global expression of the module is valid as one, and as an expression. The error is out of memory.
fn accepts_value(
    alloc: Global,
    settings: Settings,
    module: &Module,
    value: Handle<key::Expression>,
) -> Result<(bool, bool), AllocError> {
    values_are_known();
    expressions_are_known();
    order_gives_origins();
    let mut items = ModuleValidator::new(alloc, settings.flags, settings.capabilities);
    match items.validate(module) {
        Ok(info) => {
            let kinds = ExpressionKindTracker::from_arena(alloc, &module.global_expressions)?;
            let forms = forms_given(alloc, &module.types, info.const_expression_types())?;
            if value.index() >= module.global_expressions.len() {
                return Ok((false, false));
            }
            let constants = GlobalContext {
                capabilities: settings.capabilities,
                overrides_resolved: false,
                module,
                kinds: &kinds,
                forms: &forms,
                infos: info.types(),
            };
            let expressions = CheckContext {
                capabilities: settings.capabilities,
                types: &module.types,
                infos: info.types(),
                expressions: &module.global_expressions,
                forms: &forms,
                kinds: &kinds,
                callees: &[],
            };
            let is_constant = items.validate_const_expression(&constants, value).is_ok();
            Ok((
                is_constant,
                items.validate_expression(&expressions, value).is_ok(),
            ))
        }
        Err(Refusal::Fault(_)) => Ok((false, false)),
        Err(Refusal::Memory(error)) => Err(error),
    }
}

/// Whether the entry point of the module at an index is valid, after its functions. The error is out of memory.
pub fn accepts_entry(
    alloc: Global,
    settings: Settings,
    module: &Module,
    index: usize,
) -> Result<bool, AllocError> {
    made_for_accepted();
    order_gives_conditions();
    entries_are_ready();
    let mut items = ModuleValidator::new(alloc, settings.flags, settings.capabilities);
    match items.validate(module) {
        Ok(info) => {
            let lower = RealLower::new(info);
            let mut validator = Validator::new(alloc, lower, settings.flags, settings.capabilities);
            match validator.validate_functions(module) {
                Ok(infos) => match module.entry_points.get(index) {
                    Some(entry) => {
                        let answer = validator.validate_entry_point(entry, module, &infos);
                        freeing(is_accepted(&answer), answer)
                    }
                    None => Ok(false),
                },
                Err(Refusal::Fault(_)) => Ok(false),
                Err(Refusal::Memory(error)) => Err(error),
            }
        }
        Err(Refusal::Fault(_)) => Ok(false),
        Err(Refusal::Memory(error)) => Err(error),
    }
}

// Whether an expression of a function is valid, and may be run in a compute shader.
fn is_computed(answer: &Result<ShaderStages, ExpressionError>) -> bool {
    match answer {
        Ok(stages) => stages.0 & ShaderStages::COMPUTE.0 != 0,
        Err(_) => false,
    }
}

// The number of expressions of a function of the module, as one that calls no other, from its analysis over the layer made of
// the `ModuleInfo` of the module; if the module is valid up to its overrides, and so is the analysis. The error is out of memory.
fn analysed(
    alloc: Global,
    settings: Settings,
    module: &Module,
    function: Handle<key::Function>,
) -> Result<Option<usize>, AllocError> {
    made_for_accepted();
    order_gives_conditions();
    let mut items = ModuleValidator::new(alloc, settings.flags, settings.capabilities);
    match items.validate(module) {
        Ok(info) => {
            let lower = RealLower::new(info);
            match module.functions.try_get(function) {
                Ok(found) => match lower.analyse(alloc, module, found, &[], settings.flags) {
                    Ok(info) => Ok(Some(info.expression_count())),
                    Err(Refusal::Fault(_)) => Ok(None),
                    Err(Refusal::Memory(error)) => Err(error),
                },
                Err(_) => Ok(None),
            }
        }
        Err(Refusal::Fault(_)) => Ok(None),
        Err(Refusal::Memory(error)) => Err(error),
    }
}

// Whether a compute shader may run an expression of a function of the module, over the layer made of its `ModuleInfo`. The
// error is out of memory.
fn computes(
    alloc: Global,
    settings: Settings,
    module: &Module,
    function: Handle<key::Function>,
    expression: Handle<key::Expression>,
) -> Result<bool, AllocError> {
    made_for_accepted();
    order_gives_origins();
    let mut items = ModuleValidator::new(alloc, settings.flags, settings.capabilities);
    match items.validate(module) {
        Ok(info) => {
            let lower = RealLower::new(info);
            match module.functions.try_get(function) {
                Ok(found) if expression.index() < found.expressions.len() => {
                    let kinds = ExpressionKindTracker::from_arena(alloc, &found.expressions)?;
                    let answers = next_answers(alloc, found)?;
                    let context = BlockContext {
                        capabilities: settings.capabilities,
                        operations: settings.subgroup_operations,
                        module,
                        function: found,
                        forms: &[],
                        kinds: &kinds,
                        answers: &answers,
                        descriptors: &[],
                        roots: &[],
                    };
                    Ok(is_computed(&lower.check_expression(&context, expression, &[])))
                }
                Ok(_) => Ok(false),
                Err(_) => Ok(false),
            }
        }
        Err(Refusal::Fault(_)) => Ok(false),
        Err(Refusal::Memory(error)) => Err(error),
    }
}

// Whether the type of a global expression of the module is `u32`, by the layer made of its `ModuleInfo`. The error is out of
// memory.
fn is_global_number(
    alloc: Global,
    settings: Settings,
    module: &Module,
    value: Handle<key::Expression>,
) -> Result<bool, AllocError> {
    let mut items = ModuleValidator::new(alloc, settings.flags, settings.capabilities);
    match items.validate(module) {
        Ok(info) => {
            let lower = RealLower::new(info);
            if value.index() >= module.global_expressions.len() {
                return Ok(false);
            }
            Ok(is_number_type(lower.global_resolution(value)))
        }
        Err(Refusal::Fault(_)) => Ok(false),
        Err(Refusal::Memory(error)) => Err(error),
    }
}
