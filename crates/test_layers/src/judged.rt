//! The results of each layer for a module.

use function_validator::laws::{
    Leaf, accepted_is_laid, buffer_leaves, entry_depth_bound, made_for_accepted,
};
use function_validator::{MeshInfo, RealLower, Validator};
use module_validator::laws::{order_gives_conditions, order_gives_expressions};
use module_validator::{
    ImmediateSlots, ModuleInfo, ModuleValidator, Settings, TypeFlags, check_literal_value,
    validate_compose, validate_module_handles,
};
use shader_ir::{Handle, Literal, Module, Refusal, Scalar, TypeInner, key};
use shader_typing::{
    TypeResolution, arities_match, callees_precede, filter_parents_precede, handles_in_range,
    operands_precede, process_const_expression,
};
use std::alloc::{AllocError, Global};

/// A result, after the value it was computed from is freed.
pub fn freeing<A, T: Drop>(answer: A, value: T) -> A {
    drop(value);
    answer
}

/// Whether the result is no error. The error is out of memory.
pub fn is_accepted<T, E>(answer: &Result<T, Refusal<E>>) -> Result<bool, AllocError> {
    match answer {
        Ok(_) => Ok(true),
        Err(Refusal::Fault(_)) => Ok(false),
        Err(Refusal::Memory(_)) => Err(AllocError),
    }
}

/// Whether the handles of the module and of each of its functions are in order.
pub fn is_in_order(module: &Module) -> bool {
    for (handle, function) in module.functions.iter() {
        let is_there = handles_in_range(function, module);
        let precede = operands_precede(function, module);
        let follows = callees_precede(function, module, handle.index());
        let matches = arities_match(function, module) && filter_parents_precede(function, module);
        if !(is_there && precede && follows && matches) {
            return false;
        }
    }
    validate_module_handles(module).is_ok()
}

/// Whether the module is valid up to its overrides. The error is out of memory.
pub fn accepts_items(
    alloc: Global,
    settings: Settings,
    module: &Module,
) -> Result<bool, AllocError> {
    let mut validator = ModuleValidator::new(alloc, settings.flags, settings.capabilities);
    let answer = validator.validate(module);
    freeing(freeing(is_accepted(&answer), answer), validator)
}

/// Whether it is, and the functions of the module are valid over the layer made of its `ModuleInfo`. The error is out of
/// memory.
pub fn accepts_functions(
    alloc: Global,
    settings: Settings,
    module: &Module,
) -> Result<bool, AllocError> {
    made_for_accepted();
    let mut items = ModuleValidator::new(alloc, settings.flags, settings.capabilities);
    match items.validate(module) {
        Ok(info) => {
            let lower = RealLower::new(info);
            let mut validator = Validator::new(alloc, lower, settings.flags, settings.capabilities);
            let answer = validator.validate_functions(module);
            freeing(freeing(is_accepted(&answer), answer), validator)
        }
        Err(Refusal::Fault(_)) => Ok(false),
        Err(Refusal::Memory(error)) => Err(error),
    }
}

/// Whether a function of the module is valid by itself, as one that calls no other, over the layer made of its `ModuleInfo`. The
/// error is out of memory.
pub fn accepts_function(
    alloc: Global,
    settings: Settings,
    module: &Module,
    function: Handle<key::Function>,
) -> Result<bool, AllocError> {
    made_for_accepted();
    order_gives_conditions();
    let mut items = ModuleValidator::new(alloc, settings.flags, settings.capabilities);
    match items.validate(module) {
        Ok(info) => {
            let lower = RealLower::new(info);
            let mut validator = Validator::new(alloc, lower, settings.flags, settings.capabilities);
            match module.functions.try_get(function) {
                Ok(found) => {
                    let answer = validator.validate_function(found, module, &[], false);
                    freeing(freeing(is_accepted(&answer), answer), validator)
                }
                Err(_) => freeing(Ok(false), validator),
            }
        }
        Err(Refusal::Fault(_)) => Ok(false),
        Err(Refusal::Memory(error)) => Err(error),
    }
}

/// Whether a variable of the module is valid, over the layer made of its `ModuleInfo`. The error is out of memory.
pub fn accepts_variable(
    alloc: Global,
    settings: Settings,
    module: &Module,
    global: Handle<key::GlobalVariable>,
) -> Result<bool, AllocError> {
    made_for_accepted();
    let mut items = ModuleValidator::new(alloc, settings.flags, settings.capabilities);
    match items.validate(module) {
        Ok(info) => {
            let lower = RealLower::new(info);
            let validator = Validator::new(alloc, lower, settings.flags, settings.capabilities);
            match module.global_variables.try_get(global) {
                Ok(variable) => {
                    let answer = validator.validate_global_var(variable, module);
                    freeing(freeing(is_accepted(&answer), answer), validator)
                }
                Err(_) => freeing(Ok(false), validator),
            }
        }
        Err(Refusal::Fault(_)) => Ok(false),
        Err(Refusal::Memory(error)) => Err(error),
    }
}

/// The leaves of a variable, if the module is valid up to its overrides. The error is out of memory.
pub fn leaves_of(
    alloc: Global,
    settings: Settings,
    module: &Module,
    global: Handle<key::GlobalVariable>,
) -> Result<Option<Vec<Leaf>>, AllocError> {
    accepted_is_laid();
    let mut items = ModuleValidator::new(alloc, settings.flags, settings.capabilities);
    match items.validate(module) {
        Ok(info) => {
            drop(info);
            match module.global_variables.check_contains_handle(global) {
                Ok(()) => match buffer_leaves(alloc, module, global) {
                    Ok(leaves) => Ok(Some(leaves)),
                    Err(error) => Err(error),
                },
                Err(_) => Ok(None),
            }
        }
        Err(Refusal::Fault(_)) => Ok(None),
        Err(Refusal::Memory(error)) => Err(error),
    }
}

/// Whether a type of an expression is `u32`.
pub fn is_number_type(resolution: &TypeResolution) -> bool {
    match resolution {
        TypeResolution::Value(TypeInner::Scalar(scalar)) => *scalar == Scalar::U32,
        _ => false,
    }
}

// Whether the type of an expression is `u32`.
fn is_number<E>(answer: &Result<TypeResolution, E>) -> bool {
    match answer {
        Ok(resolution) => is_number_type(resolution),
        Err(_) => false,
    }
}

/// Whether the type of the first global expression is `u32`.
pub fn begins_with_number(alloc: Global, module: &Module) -> bool {
    order_gives_expressions();
    match validate_module_handles(module) {
        Ok(()) => match module.global_expressions.iter().next() {
            Some((handle, _)) if handle.index() == 0 => {
                let answer = process_const_expression(alloc, module, handle, &[]);
                freeing(is_number(&answer), answer)
            }
            _ => false,
        },
        Err(_) => false,
    }
}

/// Whether a variable is a valid mesh output.
pub fn is_mesh_output(alloc: Global, module: &Module, global: Handle<key::GlobalVariable>) -> bool {
    match module.global_variables.check_contains_handle(global) {
        Ok(()) => {
            let (_, _, error) = module.analyze_mesh_shader_info(alloc, global);
            freeing(error.is_none(), error)
        }
        Err(_) => false,
    }
}

/// The information on a valid module.
#[derive(Clone, Copy)]
pub struct Kept {
    /// The number of its host-shareable types.
    pub shareable: usize,
    /// The number of expressions of its functions.
    pub expressions: usize,
    /// How many of its functions use each global variable in each way in which the first one does.
    pub dominating: usize,
    /// The number of expressions of the function of its first entry point, if there is one.
    pub of_entry: Option<usize>,
}

/// The information on a module, if it is valid. The error is out of memory.
pub fn kept_of(
    alloc: Global,
    settings: Settings,
    module: &Module,
) -> Result<Option<Kept>, AllocError> {
    let lower = RealLower::new(ModuleInfo::new(alloc));
    let mut validator = Validator::new(alloc, lower, settings.flags, settings.capabilities);
    let answer = validator.validate(module);
    let kept = match &answer {
        Ok(info) => {
            let mut kept = counted(info, module);
            if module.entry_points.len() > 0 {
                kept.of_entry = Some(info.get_entry_point(0).expression_count());
            }
            Ok(Some(kept))
        }
        Err(Refusal::Fault(_)) => Ok(None),
        Err(Refusal::Memory(_)) => Err(AllocError),
    };
    freeing(freeing(kept, answer), validator)
}

// Counts the information on a module.
fn counted(info: &ModuleInfo, module: &Module) -> Kept {
    let mut kept = Kept {
        shareable: 0,
        expressions: 0,
        dominating: 0,
        of_entry: None,
    };
    for (handle, _) in module.types.iter() {
        if handle.index() < info.types().len()
            && info.type_info(handle).flags.0 & TypeFlags::HOST_SHAREABLE.0 != 0
        {
            kept.shareable = kept.shareable.saturating_add(1);
        }
    }
    for function in info.functions() {
        kept.expressions = kept.expressions.saturating_add(function.expression_count());
        if let Some(first) = info.functions().first() {
            let dominates = function.dominates_global_use(first);
            kept.dominating = kept.dominating.saturating_add(usize::from(dominates));
        }
    }
    kept
}

/// Whether the module is valid. The error is out of memory.
pub fn accepts(alloc: Global, settings: Settings, module: &Module) -> Result<bool, AllocError> {
    let lower = RealLower::new(ModuleInfo::new(alloc));
    let mut validator = Validator::new(alloc, lower, settings.flags, settings.capabilities);
    let answer = validator.validate(module);
    freeing(freeing(is_accepted(&answer), answer), validator)
}

/// Whether a scalar of a width without its capability, a literal, and a `Compose` of nothing for each type of the module are
/// valid; and the bytes of immediate data of the module.
pub fn smaller_answers(
    alloc: Global,
    settings: Settings,
    module: &Module,
) -> (bool, bool, bool, u64) {
    let validator = ModuleValidator::new(alloc, settings.flags, settings.capabilities);
    let half = validator.check_width(Scalar::F16).is_ok();
    let one = Literal::U32(1);
    let literal = validator.validate_literal(one).is_ok() && check_literal_value(one).is_ok();
    let mut composed = false;
    for (ty, _) in module.types.iter() {
        composed = composed || validate_compose(ty, module.to_ctx(), &[]).is_ok();
    }
    let bytes = ImmediateSlots::size_for_module(module);
    freeing((half, literal, composed, bytes), validator)
}

/// The maximum call depth in a run of an entry point of the module.
pub fn depth_of(module: &Module) -> usize {
    entry_depth_bound(module)
}
