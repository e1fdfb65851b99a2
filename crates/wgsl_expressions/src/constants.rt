// Constant operands, and the results of constant evaluation.

use crate::lowering::Lowering;
use crate::values::{Operand, Value};
use wgsl_constants::{Evaluated, Known, Lanes};
use wgsl_convert::{ColumnStep, by_columns, known_element, known_for};
use wgsl_text::Extent;
use wgsl_types::{Builder, Shape};

impl<B: Builder> Lowering<B> {
    /// The constant of an operand, if it is constant.
    pub fn known_of(&self, operand: &Operand) -> Option<Known> {
        match operand.value {
            Value::Literal(literal) => Some(Known::Scalar(literal)),
            Value::Known(place, shape) => Some(Known::Whole(place, shape)),
            _ => None,
        }
    }

    /// A constant as an operand.
    pub fn value_of(&mut self, known: Known) -> Value {
        let failed = self.store.failed;
        self.join(&failed);
        match known {
            Known::Scalar(literal) => Value::Literal(literal),
            Known::Whole(place, shape) => Value::Known(place, shape),
        }
    }

    /// The components of a constant scalar or vector.
    pub fn lanes_of(&self, operand: &Operand) -> Option<Lanes> {
        self.store.lanes(self.known_of(operand)?)
    }

    /// Leaves an operation on constants to run time; in a global expression it is unsupported.
    pub fn stays(&mut self, extent: Extent) -> Option<Value> {
        if self.builder.is_global() {
            self.unsupported("such an operation on constants", extent);
            return Some(Value::Nothing);
        }
        None
    }

    /// The result of an operation on constants, if it is evaluated.
    pub fn settled(&mut self, evaluated: Evaluated, extent: Extent) -> Option<Value> {
        match evaluated {
            Evaluated::Made(lanes) => {
                let known = self.store.of_lanes(&lanes);
                Some(self.value_of(known))
            }
            Evaluated::Wrong(text) => {
                self.wrong(text, extent);
                Some(Value::Nothing)
            }
            Evaluated::Open => self.stays(extent),
        }
    }

    /// The result of an operation on the columns of a constant matrix.
    pub fn of_columns(&mut self, step: &ColumnStep, known: Known, extent: Extent) -> Option<Value> {
        match by_columns(&mut self.store, step, known) {
            Ok(made) => Some(self.value_of(made)),
            Err(evaluated) => self.settled(evaluated, extent),
        }
    }

    /// The index of a constant converted to the expected type, if there is a conversion.
    pub fn known_for(&mut self, operand: &Operand, wanted: Shape) -> Option<u32> {
        let known = self.known_of(operand)?;
        let extent = operand.extent;
        known_for(
            self.alloc,
            &mut self.store,
            &mut self.table,
            &mut self.builder,
            known,
            wanted,
            extent,
        )
    }

    /// An element of a constant.
    pub fn element_of(
        &mut self,
        place: u32,
        element: Shape,
        index: Option<u32>,
        extent: Extent,
    ) -> Value {
        let Some(index) = index else {
            self.wrong("Cannot access with index of type", extent);
            return Value::Nothing;
        };
        match known_element(&mut self.store, &self.table, place, element, index) {
            Some(known) => self.value_of(known),
            None => {
                self.wrong("Cannot access at the index", extent);
                Value::Nothing
            }
        }
    }
}
