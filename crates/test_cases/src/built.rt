// A module built by calls and validated, as by a front end that writes no documents.
use function_modules::RealLower;
use ir_arena::handle::Handle;
use ir_arena::span::Span;
use ir_flags::{
    Capabilities, MemoryDecorations, ShaderStages, StorageAccess, SubgroupOperationSet,
    ValidationFlags,
};
use ir_items::{
    EntryPoint, Expression, Function, GlobalVariable, IrType, Module, Statement, TypeInner, key,
};
use ir_kinds::{AddressSpace, Literal, ResourceBinding, Scalar, ShaderStage};
use ir_types::refusal::Refusal;
use shader_check::{Document, Settings, ValidationError, Validator, judge_document};
use std::alloc::{AllocError, Global};
use test_support::call::freeing;
use typing_infos::ModuleInfo;

// A storage buffer `count` of one u32, at group 0 and binding 0.
fn buffer(alloc: Global, ty: Handle<key::IrType>) -> Result<GlobalVariable, AllocError> {
    let name = String::from_str(alloc, "count")?;
    Ok(GlobalVariable {
        name: Some(name),
        space: AddressSpace::Storage {
            access: StorageAccess(StorageAccess::LOAD.0 | StorageAccess::STORE.0),
        },
        binding: Some(ResourceBinding {
            group: 0,
            binding: 0,
        }),
        ty,
        init: None,
        memory_decorations: MemoryDecorations(0),
    })
}

// Appends a store of 1 in a variable to a function. A span is the range of an item in the source: from its first byte to past
// its last.
fn store_one(
    function: &mut Function,
    variable: Handle<key::GlobalVariable>,
) -> Result<(), AllocError> {
    let target = Expression::GlobalVariable(variable);
    let pointer = function.expressions.append(target, Span::new(81, 86))?;
    let one = Expression::Literal(Literal::U32(1));
    let value = function.expressions.append(one, Span::new(89, 91))?;
    let store = Statement::Store { pointer, value };
    function.body.push(store, Span::new(81, 92))
}

// The entry point of a compute shader that does nothing.
fn entry(alloc: Global) -> Result<EntryPoint, AllocError> {
    let name = String::from_str(alloc, "main")?;
    Ok(EntryPoint {
        name,
        stage: ShaderStage::Compute,
        early_depth_test: None,
        workgroup_size: [64, 1, 1],
        mesh_info: None,
        task_payload: None,
        function: Function::new(alloc),
    })
}

// Appends the type and the variable to a module.
fn declare(alloc: Global, module: &mut Module) -> Result<Handle<key::GlobalVariable>, AllocError> {
    let number = IrType {
        name: None,
        inner: TypeInner::Scalar(Scalar::U32),
    };
    let ty = module.types.insert(number, Span::UNDEFINED)?;
    let count = buffer(alloc, ty)?;
    module.global_variables.append(count, Span::new(0, 42))
}

// Appends the parts of a compute shader to a module.
fn build(alloc: Global, module: &mut Module) -> Result<(), AllocError> {
    let count = declare(alloc, module)?;
    module.entry_points.push(entry(alloc)?)?;
    match module.entry_points.last_mut() {
        Some(entry) => store_one(&mut entry.function, count),
        None => Ok(()),
    }
}

// Whether a module is valid. An error has its message, and the spans of what it names.
fn is_accepted_by(
    answer: &Result<ModuleInfo, Refusal<ValidationError>>,
) -> Result<bool, AllocError> {
    match answer {
        Ok(_) => Ok(true),
        Err(Refusal::Fault(_)) => Ok(false),
        Err(Refusal::Memory(_)) => Err(AllocError),
    }
}

// Whether a validator accepts a module.
fn accepts(validator: &mut Validator<RealLower>, module: &Module) -> Result<bool, AllocError> {
    let answer = validator.validate(module);
    freeing(is_accepted_by(&answer), answer)
}

// The same for a validator made for it.
fn is_accepted(alloc: Global, module: &Module) -> Result<bool, AllocError> {
    let lower = RealLower::new(ModuleInfo::new(alloc));
    let flags = ValidationFlags::default();
    let mut validator = Validator::new(alloc, lower, flags, Capabilities(0));
    freeing(accepts(&mut validator, module), validator)
}

// The verdict and the report, as the program writes them for a document.
fn text_on(alloc: Global, document: &mut Document) -> Result<String, AllocError> {
    let judgement = judge_document(alloc, document)?;
    freeing(judgement.text(alloc), judgement)
}

// What is wrong with the result for a built module, if anything.
fn wrong_of(alloc: Global, document: &mut Document) -> Result<Option<&'static str>, AllocError> {
    if !is_accepted(alloc, &document.module)? {
        return Ok(Some("a built module is refused"));
    }
    let text = text_on(alloc, document)?;
    let known = "accepted\nbuffer 0 size 4 alignment 4\nentry 0\nglobal 0 write\n";
    Ok(if freeing(text.as_str() == known, text) {
        None
    } else {
        Some("a built module is accepted with another report")
    })
}

// Builds the module of a document, and validates it in both ways.
fn build_and_judge(
    alloc: Global,
    document: &mut Document,
) -> Result<Option<&'static str>, AllocError> {
    build(alloc, &mut document.module)?;
    wrong_of(alloc, document)
}

/// Builds a module and validates it in both ways. Returns what is wrong with it, if anything.
pub fn judge_built(alloc: Global) -> Result<Option<&'static str>, AllocError> {
    let settings = Settings {
        flags: ValidationFlags::default(),
        capabilities: Capabilities(0),
        subgroup_stages: ShaderStages(0),
        subgroup_operations: SubgroupOperationSet(0),
    };
    let module = Module::new(alloc);
    let mut document = Document {
        settings,
        returns: true,
        module,
    };
    freeing(build_and_judge(alloc, &mut document), document)
}
