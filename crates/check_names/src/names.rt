// Descriptions of the parts of a module.

use crate::types::ShortType;
use crate::words::beginning;
use ir_items::{EntryPoint, GlobalVariable, Module};
use ir_kinds::{AddressSpace, ResourceBinding, ShaderStage};
use std::alloc::{AllocError, Global};

/// The description of a global variable.
#[derive(Drop)]
pub(crate) struct GlobalName {
    /// Its name, if it has one.
    pub name: Option<String>,
    /// Its name, or if it has none, the name of its struct, as for a block without an instance name.
    pub shown: Option<String>,
    /// Its binding, if any.
    pub binding: Option<ResourceBinding>,
    /// Its address space.
    pub space: AddressSpace,
    /// Its type in short.
    pub ty: String,
}

/// The description of an entry point.
#[derive(Drop)]
pub(crate) struct EntryName {
    /// Its name.
    pub name: String,
    /// Its stage.
    pub stage: ShaderStage,
}

/// The descriptions of a module's global variables and entry points, by index.
#[derive(Drop)]
pub struct Names {
    pub(crate) globals: Vec<GlobalName>,
    pub(crate) entries: Vec<EntryName>,
}

fn copied(alloc: Global, name: Option<&str>) -> Result<Option<String>, AllocError> {
    match name {
        Some(name) => Ok(Some(String::from_str(alloc, name)?)),
        None => Ok(None),
    }
}

// A non-empty name.
fn given(name: &Option<String>) -> Option<&str> {
    match name {
        Some(name) if !name.is_empty() => Some(name.as_str()),
        Some(_) | None => None,
    }
}

// The name of a variable's struct type.
fn struct_name<'a>(module: &'a Module, global: &GlobalVariable) -> Option<&'a str> {
    match module.types.get_handle(global.ty) {
        Ok(ty) => given(&ty.name),
        Err(_) => None,
    }
}

fn global_name(
    alloc: Global,
    module: &Module,
    global: &GlobalVariable,
) -> Result<GlobalName, AllocError> {
    let short = ShortType {
        types: &module.types,
        ty: global.ty,
    };
    let ty = format!(in alloc; "{short}")?;
    let shown = match given(&global.name) {
        Some(name) => Some(beginning(name)),
        None => match struct_name(module, global) {
            Some(name) => Some(beginning(name)),
            None => None,
        },
    };
    let shown = copied(alloc, shown)?;
    Ok(GlobalName {
        name: copied(alloc, global.name.as_deref())?,
        shown,
        binding: global.binding,
        space: global.space,
        ty,
    })
}

fn entry_name(alloc: Global, entry: &EntryPoint) -> Result<EntryName, AllocError> {
    Ok(EntryName {
        name: String::from_str(alloc, entry.name.as_str())?,
        stage: entry.stage,
    })
}

impl Names {
    /// The descriptions of an empty module.
    pub fn none(alloc: Global) -> Names {
        Names {
            globals: Vec::new(alloc),
            entries: Vec::new(alloc),
        }
    }

    /// The descriptions of a module's parts. The error is out of memory.
    pub fn of_module(alloc: Global, module: &Module) -> Result<Names, AllocError> {
        let mut globals = Vec::new(alloc);
        for (_, global) in module.global_variables.iter() {
            globals.push(global_name(alloc, module, global)?)?;
        }
        let mut entries = Vec::new(alloc);
        for entry in &module.entry_points {
            entries.push(entry_name(alloc, entry)?)?;
        }
        Ok(Names { globals, entries })
    }
}
