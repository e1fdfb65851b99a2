// The types of a module: where they are built, and what each id of one is.

use crate::shapes::{MemberShape, Shape, Stored, TypeHandle};
use ir_arena::handle::Handle;
use ir_arena::span::Span;
use ir_kinds::{Scalar, VectorSize};
use ir_types::{IrType, TypeInner};
use spirv_tables::Layout;
use spirv_words::{Failure, Instruction, Malformed, SpirvError};
use std::alloc::Global;

/// Where the types of a module are built.
pub trait Types {
    /// The type that is this one.
    fn insert(&mut self, ty: IrType, span: Span) -> Result<TypeHandle, SpirvError>;

    /// What a type is made of.
    fn inner(&self, ty: TypeHandle) -> Option<&TypeInner>;

    /// A copy of a type.
    fn copy(&self, alloc: Global, ty: TypeHandle) -> Result<Option<IrType>, SpirvError>;
}

/// The type of a vector, or of a scalar where there is no size.
pub fn vector_type<T: Types>(
    built: &mut T,
    size: Option<VectorSize>,
    scalar: Scalar,
) -> Result<TypeHandle, SpirvError> {
    let inner = match size {
        None => TypeInner::Scalar(scalar),
        Some(size) => TypeInner::Vector { size, scalar },
    };
    built.insert(IrType { name: None, inner }, Span::UNDEFINED)
}

/// The type without a name that is made of this.
pub fn insert<T: Types>(
    built: &mut T,
    inner: TypeInner,
    span: Span,
    failed: &mut Failure,
) -> TypeHandle {
    let handle = built.insert(IrType { name: None, inner }, span);
    failed.take(handle, Handle::at(0))
}

/// A name with a number after it.
pub fn numbered(alloc: Global, name: &str, number: u32) -> Result<String, SpirvError> {
    match format!(in alloc; "{name}_{number}") {
        Ok(name) => Ok(name),
        Err(_) => Err(SpirvError::Memory),
    }
}

// What is known of a type.
#[derive(Clone, Copy)]
struct Entry {
    shape: Shape,
    handle: Option<TypeHandle>,
    layout: Layout,
}

// Nothing is known.
const NOTHING: Entry = Entry {
    shape: Shape::Nothing,
    handle: None,
    layout: Layout::NONE,
};

/// What each id of a type is, wherever the types are built.
#[derive(Drop)]
pub struct TypeTable {
    entries: Vec<Entry>,
    members: Vec<MemberShape>,
    // whether the columns or rows of a matrix are members of a struct
    splits: bool,
}

impl TypeTable {
    /// An empty table for ids below the bound.
    pub fn new(alloc: Global, bound: usize, failed: &mut Failure) -> TypeTable {
        TypeTable {
            entries: failed.table(alloc, NOTHING, bound),
            members: Vec::new(alloc),
            splits: false,
        }
    }

    fn entry(&self, id: u32) -> Entry {
        match self.entries.get(id as usize) {
            Some(entry) => *entry,
            None => NOTHING,
        }
    }

    /// The shape of a type.
    pub fn shape(&self, id: u32) -> Shape {
        self.entry(id).shape
    }

    /// The type that is built for it, if any.
    pub fn handle(&self, id: u32) -> Option<TypeHandle> {
        self.entry(id).handle
    }

    /// The type that is built for it, which an instruction has to have.
    pub fn need(&self, id: u32, instruction: &Instruction) -> Result<TypeHandle, SpirvError> {
        let entry = self.entry(id);
        match (entry.handle, entry.shape) {
            (Some(handle), _) => Ok(handle),
            (None, Shape::Nothing) => Err(instruction.malformed(Malformed::NoType)),
            (None, _) => Err(instruction.unsupported()),
        }
    }

    /// How a value of the type lies in memory.
    pub fn layout(&self, id: u32) -> Layout {
        self.entry(id).layout
    }

    /// A member of a struct.
    pub fn member(&self, id: u32, place: u32) -> Option<MemberShape> {
        match self.shape(id) {
            Shape::Struct { first, count, .. } if place < count => {
                match self.members.get(first.saturating_add(place) as usize) {
                    Some(member) => Some(*member),
                    None => None,
                }
            }
            _ => None,
        }
    }

    /// The type of the part of a value at this index, and how the matrices in it are stored.
    pub fn part(&self, id: u32, index: u32) -> Option<MemberShape> {
        let ty = match self.shape(id) {
            Shape::Struct { .. } => return self.member(id, index),
            Shape::Vector { component, .. } => component,
            Shape::Matrix { column, .. } => column,
            Shape::Array { element, .. } => element,
            _ => return None,
        };
        Some(MemberShape {
            ty,
            stored: Stored::PLAIN,
            index,
            split: false,
        })
    }

    /// An id is of this type.
    pub fn set(&mut self, id: u32, shape: Shape, handle: Option<TypeHandle>, layout: Layout) {
        if let Some(entry) = self.entries.get_mut(id as usize) {
            *entry = Entry {
                shape,
                handle,
                layout,
            };
        }
    }

    // The place of the next member.
    pub(crate) fn next_member(&self) -> u32 {
        u32::try_from(self.members.len()).unwrap_or(u32::MAX)
    }

    // A member more.
    pub(crate) fn add_member(&mut self, member: MemberShape, failed: &mut Failure) {
        self.splits |= member.split;
        failed.push(&mut self.members, member);
    }

    /// Whether the columns or rows of a matrix are members of a struct, so that its members have other places.
    pub fn splits(&self) -> bool {
        self.splits
    }
}
