// The meaning of a function's ids, and its pointers.

use crate::builder::{Pointer, Slot};
use ir_kinds::PredeclaredType;
use spirv_expressions::Value;
use spirv_types::TypeHandle;
use spirv_words::{Failure, SpirvError};
use std::alloc::Global;

/// A struct that an expression gives.
#[derive(Clone, Copy)]
pub struct Special {
    /// Which it is.
    pub of: PredeclaredType,
    /// Its type.
    pub ty: TypeHandle,
}

/// The meaning of a function's ids, and its pointers.
#[derive(Drop)]
pub struct Names {
    slots: Vec<Slot>,
    pointers: Vec<Pointer>,
    // by id of a constant or a variable: the last function that used it, and its expression there
    named: Vec<Option<(u32, Value)>>,
    // the same for the samplers of combined images and samplers
    samplers: Vec<Option<(u32, Value)>>,
    // the result structs of expressions, of all functions
    special: Vec<Special>,
    // the current function, counted from 1
    function: u32,
}

impl Names {
    /// An empty table for ids below the bound.
    pub fn new(alloc: Global, bound: usize, failed: &mut Failure) -> Names {
        Names {
            slots: failed.table(alloc, Slot::Nothing, bound),
            pointers: Vec::new(alloc),
            named: failed.table(alloc, None, bound),
            samplers: failed.table(alloc, None, bound),
            special: Vec::new(alloc),
            function: 0,
        }
    }

    /// Begins another function.
    pub fn begin(&mut self) {
        self.function = self.function.saturating_add(1);
        self.pointers.clear();
    }

    /// The meaning of an id.
    pub fn slot(&self, id: u32) -> Slot {
        match self.slots.get(id as usize) {
            Some(slot) => *slot,
            None => Slot::Nothing,
        }
    }

    /// Sets the meaning of an id.
    pub fn set(&mut self, id: u32, slot: Slot) {
        if let Some(place) = self.slots.get_mut(id as usize) {
            *place = slot;
        }
    }

    /// The expression already made for an id in this function.
    pub fn named(&self, id: u32) -> Option<Value> {
        in_function(&self.named, id, self.function)
    }

    /// Whether an id has an expression in some function.
    pub fn is_named(&self, id: u32) -> bool {
        match self.named.get(id as usize) {
            Some(named) => named.is_some(),
            None => false,
        }
    }

    /// Sets the expression of an id in this function.
    pub fn set_named(&mut self, id: u32, value: Value) {
        if let Some(place) = self.named.get_mut(id as usize) {
            *place = Some((self.function, value));
        }
    }

    /// The same for the sampler of a combined image and sampler.
    pub fn sampler(&self, id: u32) -> Option<Value> {
        in_function(&self.samplers, id, self.function)
    }

    /// Sets the expression of the sampler of a combined image and sampler in this function.
    pub fn set_sampler(&mut self, id: u32, value: Value) {
        if let Some(place) = self.samplers.get_mut(id as usize) {
            *place = Some((self.function, value));
        }
    }

    /// The pointer at an index.
    pub fn pointer(&self, place: u32) -> Option<Pointer> {
        match self.pointers.get(place as usize) {
            Some(pointer) => Some(*pointer),
            None => None,
        }
    }

    /// Sets the expression and scope of the pointer at an index.
    pub fn renew(&mut self, place: u32, value: Value, scope: Option<u32>) {
        if let Some(pointer) = self.pointers.get_mut(place as usize) {
            pointer.value = value;
            pointer.scope = scope;
        }
    }

    /// A pointer more, to a variable for which this type was built, if one was; returns its place. The type stands among the parameters,
    /// since the check has to know of its parts where a pointer is put into a list.
    pub fn add(
        &mut self,
        pointer: Pointer,
        rebuilt: Option<TypeHandle>,
    ) -> Result<u32, SpirvError> {
        let place = u32::try_from(self.pointers.len()).unwrap_or(u32::MAX);
        let mut pointer = pointer;
        pointer.rebuilt = rebuilt;
        self.pointers.push(pointer)?;
        Ok(place)
    }

    /// The struct that an expression gives, if it was built before.
    pub fn special(&self, of: PredeclaredType) -> Option<TypeHandle> {
        for each in &self.special {
            if each.of == of {
                return Some(each.ty);
            }
        }
        None
    }

    /// The struct that an expression gives is this type.
    pub fn set_special(&mut self, of: PredeclaredType, ty: TypeHandle) -> Result<(), SpirvError> {
        self.special.push(Special { of, ty })?;
        Ok(())
    }

    /// The result structs of expressions.
    pub fn finish(self) -> Vec<Special> {
        let Names {
            slots,
            pointers,
            named,
            samplers,
            special,
            function: _,
        } = self;
        drop(slots);
        drop(pointers);
        drop(named);
        drop(samplers);
        special
    }
}

// The expression of an id, if it is of this function.
fn in_function(table: &[Option<(u32, Value)>], id: u32, function: u32) -> Option<Value> {
    match table.get(id as usize).copied()? {
        Some((of, value)) if of == function => Some(value),
        _ => None,
    }
}
