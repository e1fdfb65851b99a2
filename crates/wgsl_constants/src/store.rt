// Storage of constants by index: composites refer to their components by index, so that nothing is copied.

use crate::lanes::Lanes;
use ir_kinds::{Literal, Scalar};
use std::alloc::Global;
use wgsl_text::{Extent, Failure, WgslError};
use wgsl_tree::Part;
use wgsl_types::Shape;
use wgsl_values::{concrete_scalar, zero_of};

/// A constant in the store.
#[derive(Clone, Copy)]
pub enum Node {
    /// A scalar.
    Literal(Literal),
    /// A composite of this type, with the range of its components in their list.
    Composite(Shape, Part),
    /// The zero value of a type.
    Zero(Shape),
    /// A constant of the module: its index, and the index of its value.
    Named(u32, u32),
}

/// The value of a constant expression.
#[derive(Clone, Copy)]
pub enum Known {
    /// A scalar.
    Scalar(Literal),
    /// A composite: its index in the store, and its type.
    Whole(u32, Shape),
}

/// The constants of a module.
pub struct Store {
    nodes: Vec<Node>,
    // the scalar that the abstract scalars of each are concretized to without an expected type
    concrete: Vec<Scalar>,
    parts: Vec<u32>,
    left: usize,
    /// The reason why a constant was not added.
    pub failed: Failure,
}

// Defined explicitly, so that its vectors are freed in a function of this crate wherever it is dropped.
impl Drop for Store {
    fn drop(self) {
        let Store {
            nodes: _nodes,
            concrete: _concrete,
            parts: _parts,
            left: _,
            failed: _,
        } = self;
    }
}

// The budget of any text, and that for each token.
const AT_LEAST: usize = 65_536;

const A_TOKEN: usize = 16;

impl Store {
    /// An empty store, for a text of this many tokens.
    pub fn new(alloc: Global, tokens: usize) -> Store {
        Store {
            nodes: Vec::new(alloc),
            concrete: Vec::new(alloc),
            parts: Vec::new(alloc),
            left: tokens.saturating_mul(A_TOKEN).saturating_add(AT_LEAST),
            failed: Failure::NONE,
        }
    }

    // Adds a constant. It is an error if the budget is exceeded.
    fn add(&mut self, node: Node, concrete: Scalar) -> u32 {
        let place = u32::try_from(self.nodes.len()).unwrap_or(u32::MAX);
        match self.left.checked_sub(1) {
            Some(left) => self.left = left,
            None => {
                let text = "more constants than so many tokens may make";
                self.failed.fail(WgslError::unsupported(text, Extent::NONE));
                return 0;
            }
        }
        self.failed.push(&mut self.nodes, node);
        self.failed.push(&mut self.concrete, concrete);
        place
    }

    /// The value at an index; a named constant is replaced with its value.
    pub fn node(&self, place: u32) -> Node {
        match self.named(place) {
            Node::Named(_, value) => self.named(value),
            node => node,
        }
    }

    /// The constant at an index.
    pub fn named(&self, place: u32) -> Node {
        self.nodes
            .get(place as usize)
            .copied()
            .unwrap_or(Node::Literal(Literal::Bool(false)))
    }

    /// The scalar that a constant's abstract scalars are concretized to without an expected type.
    pub fn concrete(&self, place: u32) -> Scalar {
        self.concrete
            .get(place as usize)
            .copied()
            .unwrap_or(Scalar::I32)
    }

    /// The index of a component, from the list of components.
    pub fn part(&self, place: u32) -> u32 {
        self.parts.get(place as usize).copied().unwrap_or(0)
    }

    /// The value at an index: a scalar, or a composite with its type.
    pub fn known(&self, place: u32) -> Known {
        match self.node(place) {
            Node::Literal(literal) => Known::Scalar(literal),
            Node::Composite(shape, _) => Known::Whole(place, shape),
            Node::Zero(shape) => Known::Whole(place, shape),
            Node::Named(..) => Known::Scalar(Literal::Bool(false)),
        }
    }

    /// Adds a scalar.
    pub fn literal(&mut self, literal: Literal) -> u32 {
        self.add(Node::Literal(literal), concrete_scalar(literal))
    }

    /// The index of a constant's value in the store.
    pub fn place(&mut self, known: Known) -> u32 {
        match known {
            Known::Scalar(literal) => self.literal(literal),
            Known::Whole(place, _) => place,
        }
    }

    /// Adds the zero value of a type.
    pub fn zero(&mut self, shape: Shape) -> Known {
        match shape {
            Shape::Scalar(scalar) => match zero_of(scalar) {
                Some(literal) => Known::Scalar(literal),
                None => Known::Whole(self.add(Node::Zero(shape), Scalar::I32), shape),
            },
            _ => Known::Whole(self.add(Node::Zero(shape), Scalar::I32), shape),
        }
    }

    /// Adds a constant of the module: its index, and its value.
    pub fn name(&mut self, number: u32, place: u32) -> u32 {
        let concrete = self.concrete(place);
        let value = match self.named(place) {
            Node::Named(_, value) => value,
            _ => place,
        };
        self.add(Node::Named(number, value), concrete)
    }

    /// Adds a composite of this type, with the components at these indices.
    pub fn composite(&mut self, shape: Shape, places: &[u32]) -> Known {
        let start = u32::try_from(self.parts.len()).unwrap_or(u32::MAX);
        let mut concrete = Scalar::I32;
        for place in places {
            if concrete == Scalar::I32 {
                concrete = self.concrete(*place);
            }
            match self.left.checked_sub(1) {
                Some(left) => self.left = left,
                None => break,
            }
            self.failed.push(&mut self.parts, *place);
        }
        let end = u32::try_from(self.parts.len()).unwrap_or(u32::MAX);
        Known::Whole(
            self.add(Node::Composite(shape, Part { start, end }), concrete),
            shape,
        )
    }

    /// Adds a scalar or a vector.
    pub fn of_lanes(&mut self, lanes: &Lanes) -> Known {
        if lanes.size.is_none() {
            return Known::Scalar(lanes.lane(0));
        }
        let mut places: [u32; 4] = [0, 0, 0, 0];
        for place in 0..lanes.count() {
            let at = self.literal(lanes.lane(place));
            if let Some(slot) = places.get_mut(place as usize) {
                *slot = at;
            }
        }
        let used = places.get(..lanes.count() as usize).unwrap_or(&[]);
        self.composite(lanes.shape(), used)
    }

    /// The components of a scalar or a vector; `None` for other types, or if a component has another scalar type.
    pub fn lanes(&self, known: Known) -> Option<Lanes> {
        let (place, shape) = match known {
            Known::Scalar(literal) => return Some(Lanes::of_scalar(literal)),
            Known::Whole(place, shape) => (place, shape),
        };
        let Shape::Vector(size, scalar) = shape else {
            return None;
        };
        let part = match self.node(place) {
            Node::Composite(_, part) => part,
            Node::Zero(_) => return Some(Lanes::of(Some(size), zero_of(scalar)?)),
            _ => return None,
        };
        if part.count() != u32::from(size) {
            return None;
        }
        let mut made = Lanes::of(Some(size), Literal::Bool(false));
        for place in 0..u32::from(size) {
            match self.node(self.part(part.start.saturating_add(place))) {
                Node::Literal(literal) if literal.scalar() == scalar => made.set(place, literal),
                _ => return None,
            }
        }
        Some(made)
    }

    /// A component of a constant, with this type, if there is one.
    pub fn element(&mut self, place: u32, index: u32, element: Shape) -> Option<Known> {
        match self.node(place) {
            Node::Composite(_, part) if index < part.count() => {
                let at = self.part(part.start.saturating_add(index));
                Some(self.known(at))
            }
            Node::Zero(_) => Some(self.zero(element)),
            _ => None,
        }
    }
}
