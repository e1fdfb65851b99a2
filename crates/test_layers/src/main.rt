//! Builds a module by calls and validates it, by what the layers re-export and nothing else: whether its handles are in order,
//! the steps up to overrides, and all steps. Prints the results for the module with a variable in a storage buffer, and for the
//! same with one in an address space that its type excludes.
#![tactic(auto)]

mod built;
mod judged;
mod single;

use anyhow::Result;
use built::build;
use function_validator::laws::Leaf;
use judged::{
    Kept, accepts, accepts_function, accepts_functions, accepts_items, accepts_variable,
    begins_with_number, depth_of, freeing, is_in_order, is_mesh_output, kept_of, leaves_of,
    smaller_answers,
};
use module_validator::Settings;
use shader_ir::{
    AddressSpace, Capabilities, Handle, Module, ShaderStages, StorageAccess, SubgroupOperationSet,
    ValidationFlags,
};
use single::{Firsts, firsts_of};
use std::alloc::{AllocError, Global};

// The results of the layers for a module.
#[derive(Clone, Copy)]
struct Said {
    in_order: bool,
    items: bool,
    whole: bool,
    depth: usize,
    smaller: (bool, bool, bool, u64),
    functions: bool,
    first_function: bool,
    variable: bool,
    begins_with_number: bool,
    is_mesh_output: bool,
    leaf: Option<(u64, u64, u64)>,
    kept: Option<Kept>,
}

// The offset of the first of these leaves, its length, and its alignment, in bytes.
fn first_of(leaves: Option<Vec<Leaf>>) -> Option<(u64, u64, u64)> {
    let leaves = leaves?;
    let first = match leaves.first() {
        Some(leaf) => Some((leaf.first, leaf.len, leaf.alignment)),
        None => None,
    };
    freeing(first, leaves)
}

// The default flags, without capabilities and subgroup operations.
fn default_settings() -> Settings {
    Settings {
        flags: ValidationFlags::default(),
        capabilities: Capabilities(0),
        subgroup_stages: ShaderStages(0),
        subgroup_operations: SubgroupOperationSet(0),
    }
}

// The results of all of them for a module with a variable in an address space.
fn ask(alloc: Global, module: &mut Module, space: AddressSpace) -> Result<Said, AllocError> {
    let settings = default_settings();
    let variable = build(alloc, module, space)?;
    Ok(Said {
        in_order: is_in_order(module),
        items: accepts_items(alloc, settings, module)?,
        whole: accepts(alloc, settings, module)?,
        depth: depth_of(module),
        smaller: smaller_answers(alloc, settings, module),
        functions: accepts_functions(alloc, settings, module)?,
        first_function: accepts_function(alloc, settings, module, Handle::at(0))?,
        variable: accepts_variable(alloc, settings, module, variable)?,
        begins_with_number: begins_with_number(alloc, module),
        is_mesh_output: is_mesh_output(alloc, module, variable),
        leaf: first_of(leaves_of(alloc, settings, module, variable)?),
        kept: kept_of(alloc, settings, module)?,
    })
}

fn print(rt: &HostRuntime, space: AddressSpace) -> Result<()> {
    let alloc = rt.alloc();
    let mut module = Module::new(alloc);
    let said = ask(alloc, &mut module, space);
    let firsts = firsts_of(alloc, default_settings(), &module);
    drop(module);
    let said = said?;
    println!(rt;
        "in order {}, up to overrides {}, all steps {}, depth {}",
        said.in_order, said.items, said.whole, said.depth
    )?;
    let (half, literal, composed, immediate) = said.smaller;
    println!(rt; "f16 {half}, literal {literal}, composed {composed}, immediate data {immediate}")?;
    println!(rt;
        "functions {}, begins with a number {}, mesh output {}",
        said.functions, said.begins_with_number, said.is_mesh_output
    )?;
    println!(rt;
        "the first function {}, the variable {}",
        said.first_function, said.variable
    )?;
    if let Some((offset, length, alignment)) = said.leaf {
        println!(rt; "leaf at {offset}, length {length}, alignment {alignment}")?;
    }
    if let Some(kept) = said.kept {
        println!(rt;
            "shareable types {}, expressions of functions {}, functions with the uses of the first {}",
            kept.shareable, kept.expressions, kept.dominating
        )?;
        if let Some(count) = kept.of_entry {
            println!(rt; "expressions of the first entry point {count}")?;
        }
    }
    print_firsts(rt, firsts?)
}

// Prints the results for the first items of the module.
fn print_firsts(rt: &HostRuntime, firsts: Firsts) -> Result<()> {
    println!(rt;
        "the first entry point {}, the first type {}, computed {}",
        firsts.entry, firsts.ty, firsts.computes
    )?;
    let (is_constant, is_expression) = firsts.value;
    println!(rt;
        "the first value {is_constant} and {is_expression}, a number {}",
        firsts.number
    )?;
    if let Some(count) = firsts.analysed {
        println!(rt; "expressions of the first function {count}")?;
    }
    Ok(())
}

fn main(rt: HostRuntime) -> Result<()> {
    print(
        &rt,
        AddressSpace::Storage {
            access: StorageAccess(StorageAccess::LOAD.0 | StorageAccess::STORE.0),
        },
    )?;
    print(&rt, AddressSpace::Handle)
}
