//! A compute shader that stores into a variable and calls a function, built by calls.

use shader_ir::{
    AddressSpace, EntryPoint, Expression, Function, GlobalVariable, Handle, IrType, Literal,
    MemoryDecorations, Module, ResourceBinding, Scalar, ShaderStage, Span, Statement, TypeInner,
    key,
};
use std::alloc::{AllocError, Global};

// A variable in an address space, at group 0 and binding 0.
fn variable(ty: Handle<key::IrType>, space: AddressSpace) -> GlobalVariable {
    GlobalVariable {
        name: None,
        space,
        binding: Some(ResourceBinding {
            group: 0,
            binding: 0,
        }),
        ty,
        init: None,
        memory_decorations: MemoryDecorations(0),
    }
}

// Appends a store of 1 in a variable to a function.
fn store_one(
    function: &mut Function,
    variable: Handle<key::GlobalVariable>,
) -> Result<(), AllocError> {
    let target = Expression::GlobalVariable(variable);
    let pointer = function.expressions.append(target, Span::UNDEFINED)?;
    let one = Expression::Literal(Literal::U32(1));
    let value = function.expressions.append(one, Span::UNDEFINED)?;
    let store = Statement::Store { pointer, value };
    function.body.push(store, Span::UNDEFINED)
}

// Appends a call of a function without arguments to a function.
fn call(
    alloc: Global,
    function: &mut Function,
    callee: Handle<key::Function>,
) -> Result<(), AllocError> {
    let call = Statement::Call {
        function: callee,
        arguments: Vec::new(alloc),
        result: None,
    };
    function.body.push(call, Span::UNDEFINED)
}

// The entry point of a compute shader that does nothing.
fn entry(alloc: Global) -> Result<EntryPoint, AllocError> {
    let name = String::from_str(alloc, "main")?;
    Ok(EntryPoint {
        name,
        stage: ShaderStage::Compute,
        early_depth_test: None,
        workgroup_size: [64, 1, 1],
        mesh_info: None,
        task_payload: None,
        function: Function::new(alloc),
    })
}

// Appends the type and the variable to a module.
fn declare(
    module: &mut Module,
    space: AddressSpace,
) -> Result<Handle<key::GlobalVariable>, AllocError> {
    let number = IrType {
        name: None,
        inner: TypeInner::Scalar(Scalar::U32),
    };
    let ty = module.types.insert(number, Span::UNDEFINED)?;
    module
        .global_variables
        .append(variable(ty, space), Span::UNDEFINED)
}

/// Appends the parts of the shader to a module: a global expression, a `u32` variable in this address space, a function with one
/// expression and no statement, and an entry point that stores into the variable and calls the function. Returns the variable.
pub fn build(
    alloc: Global,
    module: &mut Module,
    space: AddressSpace,
) -> Result<Handle<key::GlobalVariable>, AllocError> {
    let one = Expression::Literal(Literal::U32(1));
    module.global_expressions.append(one, Span::UNDEFINED)?;
    let target = declare(module, space)?;
    let mut function = Function::new(alloc);
    let two = Expression::Literal(Literal::U32(2));
    function.expressions.append(two, Span::UNDEFINED)?;
    let callee = module.functions.append(function, Span::UNDEFINED)?;
    module.entry_points.push(entry(alloc)?)?;
    if let Some(entry) = module.entry_points.last_mut() {
        store_one(&mut entry.function, target)?;
        call(alloc, &mut entry.function, callee)?;
    }
    Ok(target)
}
