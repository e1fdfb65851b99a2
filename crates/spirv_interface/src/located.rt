// The input and output variables of an entry point, and the locations that they share by components.

use crate::varyings::{Located, common_kind, located_type};
use ir_kinds::{
    Binding, Interpolation, Sampling, Scalar, ScalarKind, SwizzleComponent, VectorSize,
};
use spirv_declarations::{GlobalHandle, KnownVariables, Variable, Varying, scalar_kind};
use spirv_numbers::numbers;
use spirv_types::Types;
use spirv_words::{Failure, Listing, SpirvError, Unsupported};
use std::alloc::Global;

/// An input or output variable of an entry point.
#[derive(Clone, Copy)]
pub struct Port {
    /// The variable.
    pub variable: Variable,
    /// What it passes between stages.
    pub varying: Varying,
    /// The scalar kind in which it is passed.
    pub kind: Option<ScalarKind>,
    // its shape, if it is a number, a vector, or an array of those
    located: Option<Located>,
    // the first word of its instruction
    word: u32,
}

/// The variables of this storage class among those of an entry point, in order.
pub fn ports_of<T: Types>(
    alloc: Global,
    listing: &Listing,
    variables: &KnownVariables,
    built: &T,
    interface: &[u32],
    class: u32,
    failed: &mut Failure,
) -> Vec<Port> {
    let mut ports = Vec::new(alloc);
    for id in interface {
        if let Some(port) = port_of(listing, variables, built, *id, class) {
            failed.push(&mut ports, port);
        }
    }
    ports
}

// The input or output variable with this id, if it has this storage class.
fn port_of<T: Types>(
    listing: &Listing,
    variables: &KnownVariables,
    built: &T,
    id: u32,
    class: u32,
) -> Option<Port> {
    let variable = variables.of(id)?;
    let varying = variable.varying?;
    let ty = if class == numbers::CLASS_INPUT {
        varying.ty
    } else {
        variable.built
    };
    if variable.class != class {
        return None;
    }
    Some(Port {
        variable,
        varying,
        kind: scalar_kind(built.inner(ty)),
        located: located_type(built, varying.ty),
        word: listing.defined(id).start,
    })
}

/// A location, with the source of a blend.
#[derive(Clone, Copy, PartialEq, Eq)]
pub struct Place {
    /// The location.
    pub location: u32,
    /// The blend source plus 1, or 0 where there is none.
    pub blend: u32,
}

/// The part of a location that a variable or an element of an array occupies.
#[derive(Clone, Copy)]
pub struct Piece {
    /// The location.
    pub place: Place,
    /// Its first component.
    pub component: u32,
    /// Number of components, of a vector.
    pub size: Option<VectorSize>,
    /// The scalar of a component.
    pub scalar: Scalar,
    /// Its interpolation.
    pub interpolation: Option<Interpolation>,
    /// Where it is.
    pub sampling: Option<Sampling>,
    /// The id of the variable.
    pub id: u32,
    // the first word of its instruction
    word: u32,
    /// The variable.
    pub variable: GlobalHandle,
    /// The index of the element.
    pub element: Option<u32>,
}

impl Piece {
    /// Number of components.
    pub fn count(&self) -> u32 {
        self.size.map_or(1, u32::from)
    }

    /// The binding of the whole location.
    pub fn binding(&self) -> Binding {
        Binding::Location {
            location: self.place.location,
            interpolation: self.interpolation,
            sampling: self.sampling,
            blend_src: self.place.blend.checked_sub(1),
            per_primitive: false,
        }
    }

    /// Its components within the whole location.
    pub fn pattern(&self) -> [SwizzleComponent; 4] {
        let first = self.component;
        [
            SwizzleComponent::from_index(first),
            SwizzleComponent::from_index(first.saturating_add(1)),
            SwizzleComponent::from_index(first.saturating_add(2)),
            SwizzleComponent::from_index(first.saturating_add(3)),
        ]
    }
}

impl Port {
    /// Its first part of a location, if it has a location and is made of such parts.
    pub fn piece(&self) -> Option<Piece> {
        let located = self.located?;
        let Some(
            Binding::Location {
                location,
                interpolation,
                sampling,
                blend_src,
                per_primitive: false,
            },
        ) = self.varying.binding
        else {
            return None;
        };
        let blend = match blend_src {
            Some(blend) => blend.saturating_add(1),
            None => 0,
        };
        let component = self.varying.component.unwrap_or(0);
        // a 64-bit number takes two components
        if located.scalar.width == 8 || blend > MAX_BLEND || component > MAX_COMPONENT {
            return None;
        }
        Some(Piece {
            place: Place { location, blend },
            component,
            size: located.size,
            scalar: located.scalar,
            interpolation,
            sampling,
            id: self.variable.id,
            word: self.word,
            variable: self.variable.handle,
            element: None,
        })
    }

    // Adds its part of a location, or one for each element; at most this many in all.
    fn add_pieces(&self, most: usize, pieces: &mut Vec<Piece>, failed: &mut Failure) {
        let Some(first) = self.piece() else {
            if self.varying.component.is_some() {
                failed.fail(refusal(self.word));
            }
            return;
        };
        let count = match self.located {
            Some(located) => located.count,
            None => None,
        };
        for element in 0..count.unwrap_or(1) {
            if failed.first.is_some() {
                break;
            }
            let mut piece = first;
            if count.is_some() {
                piece.element = Some(element);
            }
            piece.place.location = first.place.location.saturating_add(element);
            if pieces.len() < most {
                failed.push(pieces, piece);
            } else {
                failed.fail(refusal(self.word));
            }
        }
    }
}

// The error for parts of a location that are not translated, at the word of the variable's instruction.
fn refusal(word: u32) -> SpirvError {
    let what = Unsupported::Decoration(numbers::DECORATION_COMPONENT);
    SpirvError::unsupported(what, word)
}

/// The parts of locations of these variables, at most this many, in order; none where no location is shared.
pub fn pieces_of(alloc: Global, ports: &[Port], most: usize, failed: &mut Failure) -> Vec<Piece> {
    let mut pieces = Vec::new(alloc);
    let mut shares = false;
    for port in ports {
        shares |= port.varying.component.is_some();
    }
    if !shares {
        return pieces;
    }
    for port in ports {
        if failed.first.is_none() {
            port.add_pieces(most, &mut pieces, failed);
        }
    }
    in_order(alloc, &pieces, failed)
}

// The last blend source plus 1.
const MAX_BLEND: u32 = 3;

// The last component of a location.
const MAX_COMPONENT: u32 = 3;

/// The most parts of locations of an entry point with shared locations.
pub const MAX_PIECES: u64 = 65536;

// The sort key of a part: location, blend source, component, and then its index.
fn key_of(piece: &Piece, number: u64) -> u64 {
    let place = u64::from(piece.place.location)
        .saturating_mul(4)
        .saturating_add(u64::from(piece.place.blend.min(MAX_BLEND)));
    place
        .saturating_mul(4)
        .saturating_add(u64::from(piece.component.min(3)))
        .saturating_mul(MAX_PIECES)
        .saturating_add(number % MAX_PIECES)
}

// The parts in the order of their locations and components.
fn in_order(alloc: Global, pieces: &[Piece], failed: &mut Failure) -> Vec<Piece> {
    let mut keys = failed.list(alloc, pieces.len());
    let mut number = 0u64;
    for piece in pieces {
        failed.push(&mut keys, key_of(piece, number));
        number = number.saturating_add(1);
    }
    keys.sort_unstable();
    let mut sorted = failed.list(alloc, pieces.len());
    for key in &keys {
        if let Some(piece) = pieces.get((*key % MAX_PIECES) as usize) {
            failed.push(&mut sorted, *piece);
        }
    }
    sorted
}

/// A whole location, as it is passed.
#[derive(Clone, Copy)]
pub struct Whole {
    /// The index of its first part.
    pub start: usize,
    /// The index after its last part.
    pub end: usize,
    /// Its first part.
    pub first: Piece,
    /// The scalar of a component.
    pub scalar: Scalar,
    /// Number of components.
    pub count: u32,
    // the components that parts have
    taken: [bool; 4],
}

/// The locations of these parts, in order.
pub fn wholes_of(alloc: Global, pieces: &[Piece], failed: &mut Failure) -> Vec<Whole> {
    let mut wholes = Vec::new(alloc);
    let mut at = 0usize;
    for _ in 0..pieces.len() {
        let Some(first) = pieces.get(at) else {
            break;
        };
        let (whole, is_whole) = Whole::at(pieces, at, first);
        if !is_whole {
            failed.fail(refusal(first.word));
        }
        at = whole.end;
        failed.push(&mut wholes, whole);
    }
    wholes
}

impl Whole {
    // The location of the part at this index, and whether its parts have equal types and disjoint components.
    fn at(pieces: &[Piece], start: usize, first: &Piece) -> (Whole, bool) {
        let mut whole = Whole {
            start,
            end: start,
            first: *first,
            scalar: first.scalar,
            count: 1,
            taken: [false, false, false, false],
        };
        let mut is_whole = true;
        for piece in pieces.get(start..).unwrap_or(&[]) {
            if piece.place != first.place {
                break;
            }
            is_whole &= whole.add(piece);
            whole.end = whole.end.saturating_add(1);
        }
        (whole, is_whole)
    }

    /// The error where it is not translated.
    pub fn refusal(&self) -> SpirvError {
        refusal(self.first.word)
    }

    /// Its parts, from all of them in order.
    pub fn parts<'a>(&self, pieces: &'a [Piece]) -> &'a [Piece] {
        pieces.get(self.start..self.end).unwrap_or(&[])
    }

    // One part more; returns whether it may be.
    fn add(&mut self, piece: &Piece) -> bool {
        let end = piece.component.saturating_add(piece.count());
        for component in piece.component..end {
            match self.taken.get_mut(component as usize) {
                Some(taken) if !*taken => *taken = true,
                _ => return false,
            }
        }
        self.count = self.count.max(end);
        let is_flat = piece.interpolation == Some(Interpolation::Flat);
        match common_kind(self.scalar.kind, piece.scalar.kind, is_flat) {
            Some(kind) => self.scalar.kind = kind,
            None => return false,
        }
        self.scalar.width == piece.scalar.width
            && self.first.interpolation == piece.interpolation
            && self.first.sampling == piece.sampling
    }
}
