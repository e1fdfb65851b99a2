// Constant scalars and vectors, by component.

use ir_kinds::{Literal, Scalar, VectorSize};
use wgsl_types::Shape;
use wgsl_values::{Folded, cast, converted};

/// A constant scalar, or the components of a constant vector.
#[derive(Clone, Copy)]
pub struct Lanes {
    /// The size, if it is a vector.
    pub size: Option<VectorSize>,
    lanes: [Literal; 4],
}

/// The result of evaluating an operation on constants.
#[derive(Clone, Copy)]
pub enum Evaluated {
    /// The operation has this value.
    Made(Lanes),
    /// A constant expression error, with this message.
    Wrong(&'static str),
    /// The operation is not evaluated: it is computed at run time.
    Open,
}

impl Lanes {
    /// A scalar.
    pub fn of_scalar(literal: Literal) -> Lanes {
        Lanes::of(None, literal)
    }

    /// A scalar splatted to a vector of this size, or the scalar itself.
    pub fn of(size: Option<VectorSize>, literal: Literal) -> Lanes {
        Lanes {
            size,
            lanes: [literal, literal, literal, literal],
        }
    }

    /// The number of components.
    pub fn count(&self) -> u32 {
        match self.size {
            Some(size) => u32::from(size),
            None => 1,
        }
    }

    /// A component; for a scalar, the scalar itself.
    pub fn lane(&self, place: u32) -> Literal {
        let at = if self.size.is_none() { 0 } else { place };
        self.lanes
            .get(at as usize)
            .copied()
            .unwrap_or(Literal::Bool(false))
    }

    /// Sets a component.
    pub fn set(&mut self, place: u32, literal: Literal) {
        if let Some(lane) = self.lanes.get_mut(place as usize) {
            *lane = literal;
        }
    }

    /// The type of the first component.
    pub fn scalar(&self) -> Scalar {
        self.lane(0).scalar()
    }

    /// Its type.
    pub fn shape(&self) -> Shape {
        match self.size {
            Some(size) => Shape::Vector(size, self.scalar()),
            None => Shape::Scalar(self.scalar()),
        }
    }

    /// Automatic conversion of the components to another scalar type.
    pub fn converted(&self, to: Scalar) -> Option<Lanes> {
        let mut made = *self;
        for place in 0..self.count() {
            made.set(place, converted(self.lane(place), to)?);
        }
        Some(made)
    }

    /// Explicit conversion of the components to another scalar type.
    pub fn cast(&self, to: Scalar) -> Option<Lanes> {
        let mut made = *self;
        for place in 0..self.count() {
            made.set(place, cast(self.lane(place), to)?);
        }
        Some(made)
    }
}

// The components of a result, while they are computed.
#[derive(Clone, Copy)]
pub(crate) struct Making {
    made: Lanes,
    wrong: Option<&'static str>,
    is_open: bool,
}

impl Making {
    // No components yet of a vector of this size, or of a scalar.
    pub(crate) fn of(size: Option<VectorSize>) -> Making {
        Making {
            made: Lanes::of(size, Literal::Bool(false)),
            wrong: None,
            is_open: false,
        }
    }

    // Adds the next component.
    pub(crate) fn take(&mut self, place: u32, folded: Folded) {
        match folded {
            Folded::Made(literal) => self.made.set(place, literal),
            Folded::Wrong(text) => {
                if self.wrong.is_none() {
                    self.wrong = Some(text);
                }
            }
            Folded::Open => self.is_open = true,
        }
    }

    // The result with all its components.
    pub(crate) fn end(&self) -> Evaluated {
        match self.wrong {
            Some(text) => Evaluated::Wrong(text),
            None if self.is_open => Evaluated::Open,
            None => Evaluated::Made(self.made),
        }
    }
}
