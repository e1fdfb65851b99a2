// What is known of the constants of a module, independent of where they are built.

use ir_arena::handle::Handle;
use ir_types::{ArraySize, Expression, key};
use spirv_numbers::ops;
use spirv_types::{Shape, TypeTable};
use spirv_words::{Failure, Feature, Instruction, Malformed, SpirvError, Unsupported, number_at};
use std::alloc::Global;

/// The handle of an expression, of the module or of a function.
pub type ExpressionHandle = Handle<key::Expression>;

/// The representation of a constant.
#[derive(Clone, Copy)]
pub enum Made {
    /// None.
    Nothing,
    /// A constant of the module.
    Constant(Handle<key::Constant>),
    /// An override.
    Override(Handle<key::Override>),
    /// A composite with an override among its parts; a range of the table of parts.
    Parts {
        /// Index of the first part.
        first: u32,
        /// Number of parts.
        count: u32,
    },
}

/// What is known of a constant.
#[derive(Clone, Copy)]
pub struct Known {
    /// Its representation.
    pub made: Made,
    /// Its type.
    pub ty: u32,
    /// Its value, for an integer, a bool, or a float that is 0; for a specialization constant its default.
    pub value: Option<i64>,
    // its global expression
    pub(crate) expression: Option<ExpressionHandle>,
    // the first of its parts and their number, of a composite
    first: u32,
    count: u32,
    // whether it is all zeros
    null: bool,
}

// Nothing is known.
pub(crate) const NOTHING: Known = Known {
    made: Made::Nothing,
    ty: 0,
    value: None,
    expression: None,
    first: 0,
    count: 0,
    null: false,
};

impl Known {
    // A constant with this representation, type and value.
    pub(crate) fn of(made: Made, ty: u32, value: Option<i64>) -> Known {
        Known {
            made,
            ty,
            value,
            ..NOTHING
        }
    }

    // All zeros.
    pub(crate) fn null(made: Made, ty: u32) -> Known {
        Known {
            made,
            ty,
            value: Some(0),
            null: true,
            ..NOTHING
        }
    }

    // A composite with this many parts and this expression.
    pub(crate) fn of_parts(first: u32, count: usize, ty: u32, init: ExpressionHandle) -> Known {
        let count = u32::try_from(count).unwrap_or(u32::MAX);
        Known {
            made: Made::Parts { first, count },
            ty,
            expression: Some(init),
            first,
            count,
            ..NOTHING
        }
    }
}

// A part of a constant.
#[derive(Clone, Copy)]
pub(crate) enum Inside {
    // this constant
    Constant(u32),
    // a null of this type
    Null(u32),
}

/// The constants by id.
#[derive(Drop)]
pub struct KnownConstants {
    // first by id, then the parts of constants that have no id
    all: Vec<Known>,
    bound: usize,
    parts: Vec<u32>,
}

impl KnownConstants {
    // An empty table for ids below the bound.
    pub(crate) fn new(alloc: Global, bound: usize, failed: &mut Failure) -> KnownConstants {
        KnownConstants {
            all: failed.table(alloc, NOTHING, bound),
            bound,
            parts: Vec::new(alloc),
        }
    }

    // What is known of an id or of a part, possibly that it is no constant.
    pub(crate) fn at(&self, id: u32) -> Known {
        match self.all.get(id as usize) {
            Some(known) => *known,
            None => NOTHING,
        }
    }

    /// What is known of the constant with this id.
    pub fn of(&self, id: u32) -> Option<Known> {
        if (id as usize) < self.bound {
            self.of_part(id)
        } else {
            None
        }
    }

    /// The same for a part of a constant, which may have no id.
    pub fn of_part(&self, id: u32) -> Option<Known> {
        let known = self.at(id);
        match known.made {
            Made::Nothing => None,
            Made::Constant(_) | Made::Override(_) | Made::Parts { .. } => Some(known),
        }
    }

    /// The value of a constant that is an integer or a bool.
    pub fn value(&self, id: u32) -> Option<i64> {
        match self.of(id) {
            Some(known) => known.value,
            None => None,
        }
    }

    /// The part at an index of a composite constant; 0 where there is none.
    pub fn part(&self, first: u32, place: u32) -> u32 {
        number_at(&self.parts, first.saturating_add(place))
    }

    /// The length of an array, given by a constant.
    pub fn length(&self, id: u32, instruction: &Instruction) -> Result<ArraySize, SpirvError> {
        let Some(known) = self.of(id) else {
            return Err(instruction.malformed(Malformed::NoConstant));
        };
        match (known.made, u32::try_from(known.value.unwrap_or(0))) {
            (Made::Override(handle), _) => Ok(ArraySize::Pending(handle)),
            (_, Ok(count)) if count != 0 => Ok(ArraySize::Constant(count)),
            _ => Err(instruction.unsupported_by(Feature::ArrayLength)),
        }
    }

    // The id, which must be that of a constant.
    pub(crate) fn need(&self, id: u32, instruction: &Instruction) -> Result<u32, SpirvError> {
        match self.of(id) {
            Some(_) => Ok(id),
            None => Err(instruction.malformed(Malformed::NoConstant)),
        }
    }

    // The constant of the module that is the operand at this index.
    pub(crate) fn operand(
        &self,
        instruction: &Instruction,
        operands: &[u32],
        place: usize,
        failed: &mut Failure,
    ) -> u32 {
        let id = match operands.get(place) {
            Some(id) => self.need(*id, instruction),
            None => Err(instruction.malformed(Malformed::MissingOperand)),
        };
        failed.take(id, 0)
    }

    // Requires that all of these are constants.
    pub(crate) fn need_all(
        &self,
        ids: &[u32],
        instruction: &Instruction,
    ) -> Result<(), SpirvError> {
        for id in ids {
            if self.of(*id).is_none() {
                return Err(instruction.malformed(Malformed::NoConstant));
            }
        }
        Ok(())
    }

    // Whether it is a constant without an override in it.
    pub(crate) fn is_constant(&self, id: u32) -> bool {
        matches!(self.at(id).made, Made::Constant(_))
    }

    // Whether all of these are constants without an override in them.
    pub(crate) fn are_constants(&self, ids: &[u32]) -> bool {
        for id in ids {
            if !self.is_constant(*id) {
                return false;
            }
        }
        true
    }

    // The constant that is a part of another one.
    pub(crate) fn inside(
        &self,
        types: &TypeTable,
        id: u32,
        index: u32,
        instruction: &Instruction,
    ) -> Result<Inside, SpirvError> {
        let Some(known) = self.of_part(id) else {
            return Err(instruction.malformed(Malformed::NoConstant));
        };
        if index < known.count {
            return Ok(Inside::Constant(self.part(known.first, index)));
        }
        match types.part(known.ty, index) {
            Some(part) if index < count_parts(types, known.ty) => {
                if known.null {
                    return Ok(Inside::Null(part.ty));
                }
                let what = Unsupported::SpecOperation(ops::COMPOSITE_EXTRACT);
                Err(instruction.unsupported_as(what))
            }
            _ => Err(instruction.malformed(Malformed::Index)),
        }
    }

    // Records what is known of an id.
    pub(crate) fn set(&mut self, id: u32, known: Known) {
        if let Some(place) = self.all.get_mut(id as usize) {
            *place = known;
        }
    }

    // Makes an id an alias of another constant.
    pub(crate) fn set_same(&mut self, id: u32, other: u32) {
        if let Some(known) = self.of_part(other) {
            self.set(id, known);
        }
    }

    // Adds a constant without an id, and returns its index, after the ids.
    pub(crate) fn add(&mut self, known: Known, failed: &mut Failure) -> u32 {
        let place = u32::try_from(self.all.len()).unwrap_or(u32::MAX);
        failed.push(&mut self.all, NOTHING);
        self.set(place, known);
        place
    }

    // Adds the parts of a composite, and returns the index of the first.
    pub(crate) fn add_parts(&mut self, parts: &[u32], failed: &mut Failure) -> u32 {
        let first = u32::try_from(self.parts.len()).unwrap_or(u32::MAX);
        if self.parts.extend_from_slice(parts).is_err() {
            failed.fail(SpirvError::Memory);
        }
        first
    }
}

/// The expression that names a constant or an override.
pub fn named(made: &Made) -> Option<Expression> {
    match made {
        Made::Constant(handle) => Some(Expression::Constant(*handle)),
        Made::Override(handle) => Some(Expression::Override(*handle)),
        Made::Nothing | Made::Parts { .. } => None,
    }
}

// The number of parts of a value of a type.
pub(crate) fn count_parts(types: &TypeTable, ty: u32) -> u32 {
    match types.shape(ty) {
        Shape::Vector { size, .. } => u32::from(size),
        Shape::Matrix { columns, .. } => u32::from(columns),
        Shape::Struct { count, .. } => count,
        Shape::Array {
            size: ArraySize::Constant(count),
            ..
        } => count,
        _ => 0,
    }
}
