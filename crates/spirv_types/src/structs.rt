// The declarations of structs.

use crate::declare::Reading;
use crate::shapes::{MatrixShape, MemberMemory, MemberShape, Shape, Stored, TypeHandle, span_of};
use crate::table::{TypeTable, Types, insert, numbered, vector_type};
use ir_arena::handle::Handle;
use ir_arena::span::Span;
use ir_kinds::{Binding, Scalar, VectorSize};
use ir_types::{ArraySize, IrType, StructMember, TypeInner};
use spirv_numbers::numbers;
use spirv_tables::{Decorated, Demands, Layout, round_up, vector_layout};
use spirv_words::{Failure, Feature, Instruction, SpirvError, Unsupported};
use std::alloc::Global;

// How far the members of a struct reach.
#[derive(Clone, Copy)]
struct Extent {
    end: u64,
    alignment: u64,
    locations: u64,
    // where the last one begins, and the stride of the matrices in it
    last: u64,
    stride: u32,
}

impl Extent {
    const NONE: Extent = Extent {
        end: 0,
        alignment: 1,
        locations: 0,
        last: 0,
        stride: 0,
    };

    // How a struct lies in memory whose members reach so far.
    fn layout(&self) -> Layout {
        Layout {
            size: round_up(self.end, self.alignment),
            alignment: self.alignment,
            locations: self.locations,
        }
    }

    // Where a member begins.
    fn offset_of(
        &self,
        instruction: &Instruction,
        said: &Decorated,
        layout: &Layout,
    ) -> Result<u32, SpirvError> {
        let Some(offset) = said.offset else {
            let natural = layout.round(self.end);
            return match u32::try_from(natural) {
                Ok(offset) => Ok(offset),
                Err(_) => Err(instruction.unsupported_by(Feature::LargeStruct)),
            };
        };
        let is_inside = self.last < u64::from(offset) && u64::from(offset) < self.end;
        if is_inside && self.stride != 0 {
            // the IR has the bytes after the last column as the matrix's own
            return Err(instruction.unsupported_as(Unsupported::MatrixStride(self.stride)));
        }
        Ok(offset)
    }

    // A member more.
    fn add(&mut self, offset: u32, layout: &Layout, stride: u32) {
        self.last = u64::from(offset);
        self.stride = stride;
        self.end = self.last.saturating_add(layout.size);
        self.alignment = self.alignment.max(layout.alignment);
        self.locations = self.locations.saturating_add(layout.locations);
    }
}

// What a member of a struct is built as.
#[derive(Clone, Copy)]
struct Field {
    ty: TypeHandle,
    layout: Layout,
    // how many members, and whether each is a column or a row of a matrix
    count: u32,
    is_line: bool,
}

impl Field {
    // One member.
    fn whole(ty: TypeHandle, layout: Layout) -> Field {
        Field {
            ty,
            layout,
            count: 1,
            is_line: false,
        }
    }
}

// The members of a struct that are built, and what was wrong with it first.
#[derive(Drop)]
struct Fields {
    members: Vec<StructMember>,
    extent: Extent,
    memory: MemberMemory,
    failed: Failure,
}

impl Fields {
    // How many there are.
    fn count(&self) -> u32 {
        u32::try_from(self.members.len()).unwrap_or(u32::MAX)
    }

    // The member at this place of a struct; of a matrix that is split each column or row as a member.
    fn add(
        &mut self,
        reading: &Reading,
        instruction: &Instruction,
        said: &Decorated,
        binding: Option<Binding>,
        place: u32,
        field: &Field,
        stride: u32,
    ) {
        let offset = self.extent.offset_of(instruction, said, &field.layout);
        let mut offset = self.failed.take(offset, 0);
        for line in 0..field.count {
            let of_line = if field.is_line { Some(line) } else { None };
            let name = member_name(reading, instruction.id, place, of_line);
            let member = StructMember {
                name: self.failed.take(name, None),
                ty: field.ty,
                binding,
                offset,
            };
            self.failed.push(&mut self.members, member);
            let inside = if field.is_line { 0 } else { stride };
            self.extent.add(offset, &field.layout, inside);
            offset = offset.saturating_add(stride);
        }
    }
}

impl TypeTable {
    /// A struct. Members begin where it is said, else after the one before.
    pub fn declare_struct<T: Types>(
        &mut self,
        built: &mut T,
        reading: &Reading,
        instruction: &Instruction,
        demands: &mut Demands,
    ) -> Result<(), SpirvError> {
        let first = self.next_member();
        let fields = self.declare_members(built, reading, instruction, demands);
        let count = fields.count();
        let Fields {
            members,
            extent,
            memory,
            mut failed,
        } = fields;
        let layout = extent.layout();
        let span = u32::try_from(layout.size).unwrap_or(u32::MAX);
        if u64::from(span) != layout.size {
            failed.fail(instruction.unsupported_by(Feature::LargeStruct));
        }
        let name = reading.listing.name(reading.alloc, instruction.id, None);
        let name = failed.take(name, None);
        let inner = TypeInner::Struct { members, span };
        let handle = built.insert(IrType { name, inner }, span_of(instruction));
        let handle = failed.take(handle, Handle::at(0));
        let shape = Shape::Struct {
            first,
            count,
            memory,
        };
        self.set(instruction.id, shape, Some(handle), layout);
        failed.answer(())
    }

    // The members of a struct.
    fn declare_members<T: Types>(
        &mut self,
        built: &mut T,
        reading: &Reading,
        instruction: &Instruction,
        demands: &mut Demands,
    ) -> Fields {
        let mut fields = Fields {
            members: Vec::new(reading.alloc),
            extent: Extent::NONE,
            memory: MemberMemory::ALL,
            failed: Failure::NONE,
        };
        let mut place = 0u32;
        for ty in reading.listing.operands(instruction) {
            self.declare_member(
                built,
                reading,
                instruction,
                *ty,
                place,
                &mut fields,
                demands,
            );
            place = place.saturating_add(1);
        }
        fields
    }

    // The member of this type at this place of a struct.
    fn declare_member<T: Types>(
        &mut self,
        built: &mut T,
        reading: &Reading,
        instruction: &Instruction,
        ty: u32,
        place: u32,
        fields: &mut Fields,
        demands: &mut Demands,
    ) {
        let said = Decorated::of(&reading.listing, instruction.id, Some(place));
        let after = place.saturating_add(1);
        let next = Decorated::of(&reading.listing, instruction.id, Some(after)).offset;
        let index = fields.count();
        fields.memory = fields.memory.and(&said);
        let failed = &mut fields.failed;
        let member = self.shape_member(instruction, &said, next, ty, index, failed);
        self.add_member(member, failed);
        let field = self.field(built, reading.alloc, instruction, &member, failed);
        let binding = if member.split {
            None
        } else {
            member_binding(reading, instruction.id, &said, demands)
        };
        let stride = member.stored.stride;
        fields.add(reading, instruction, &said, binding, place, &field, stride);
    }

    // What a member of a struct is, which is the one at this index of those that are built; where the next one begins is said.
    fn shape_member(
        &self,
        instruction: &Instruction,
        said: &Decorated,
        next: Option<u32>,
        ty: u32,
        index: u32,
        failed: &mut Failure,
    ) -> MemberShape {
        let shape = self.shape(ty);
        if shape.is_handle() {
            failed.fail(instruction.unsupported_by(Feature::HandleMember));
        }
        if said.component.is_some() {
            let what = Unsupported::Decoration(numbers::DECORATION_COMPONENT);
            failed.fail(instruction.unsupported_as(what));
        }
        let mut member = MemberShape {
            ty,
            stored: Stored::PLAIN,
            index,
            split: false,
        };
        if let Some(matrix) = self.matrix_in(ty) {
            let stride = stride_between(instruction, said, &matrix);
            member.stored = Stored {
                row_major: said.row_major,
                stride: failed.take(stride, 0),
            };
            let is_matrix = matches!(shape, Shape::Matrix { .. });
            member.split = is_matrix && is_split(&matrix, member.stored, said.offset, next);
        }
        member
    }

    // What a member is built as.
    fn field<T: Types>(
        &self,
        built: &mut T,
        alloc: Global,
        instruction: &Instruction,
        member: &MemberShape,
        failed: &mut Failure,
    ) -> Field {
        let (ty, stored) = (member.ty, member.stored);
        let matrix = match self.matrix_in(ty) {
            Some(matrix) if !stored.is_plain() => matrix,
            _ => {
                let handle = failed.take(self.need(ty, instruction), Handle::at(0));
                return Field::whole(handle, self.layout(ty));
            }
        };
        if member.split {
            let (lines, _) = matrix.lines(stored.row_major);
            let line = stored_line(built, &matrix, stored);
            return Field {
                ty: failed.take(line, Handle::at(0)),
                layout: matrix.line_layout(stored),
                count: u32::from(lines),
                is_line: true,
            };
        }
        let one = failed.take(stored_matrix(built, &matrix, stored), Handle::at(0));
        let all = self.in_arrays(built, alloc, ty, one, failed);
        Field::whole(all, self.stored_layout(ty, &matrix, stored))
    }

    // How a type lies in memory whose matrices are stored so.
    fn stored_layout(&self, ty: u32, matrix: &MatrixShape, stored: Stored) -> Layout {
        let of_matrix = matrix.stored_layout(stored);
        match self.shape(ty) {
            Shape::Array { .. } => {
                let whole = self.layout(ty);
                Layout {
                    size: whole.size,
                    alignment: of_matrix.alignment,
                    locations: whole.locations,
                }
            }
            _ => of_matrix,
        }
    }

    // The matrix that a type is, or that the elements of an array are.
    fn matrix_in(&self, id: u32) -> Option<MatrixShape> {
        let mut at = id;
        for _ in 0..MAX_DEPTH {
            match self.shape(at) {
                Shape::Array { element, .. } => at = element,
                shape => return MatrixShape::of(&shape),
            }
        }
        None
    }

    // The type in which what lies in the arrays of a type is stored so.
    fn in_arrays<T: Types>(
        &self,
        built: &mut T,
        alloc: Global,
        ty: u32,
        stored: TypeHandle,
        failed: &mut Failure,
    ) -> TypeHandle {
        let mut arrays = Vec::new(alloc);
        let mut at = ty;
        for _ in 0..MAX_DEPTH {
            let Shape::Array { element, .. } = self.shape(at) else {
                break;
            };
            failed.push(&mut arrays, at);
            at = element;
        }
        let mut handle = stored;
        for array in arrays.iter().rev() {
            let inner = array_of(built, self.handle(*array), handle);
            handle = insert(built, inner, Span::UNDEFINED, failed);
        }
        handle
    }
}

// What an array is made of like this one that is built, of these elements.
fn array_of<T: Types>(built: &T, array: Option<TypeHandle>, base: TypeHandle) -> TypeInner {
    let (size, stride) = match built.inner(array.unwrap_or(base)) {
        Some(TypeInner::Array { size, stride, .. }) => (*size, *stride),
        _ => (ArraySize::Dynamic, 0),
    };
    TypeInner::Array { base, size, stride }
}

/// The type that a matrix is stored as: an array of its columns or rows where there is a stride, and one that is stored row by
/// row as its transposed one.
pub fn stored_matrix<T: Types>(
    built: &mut T,
    matrix: &MatrixShape,
    stored: Stored,
) -> Result<TypeHandle, SpirvError> {
    let (lines, length) = matrix.lines(stored.row_major);
    let inner = if stored.stride == 0 {
        TypeInner::Matrix {
            columns: lines,
            rows: length,
            scalar: matrix.scalar,
        }
    } else {
        TypeInner::Array {
            base: stored_line(built, matrix, stored)?,
            size: ArraySize::Constant(u32::from(lines)),
            stride: stored.stride,
        }
    };
    built.insert(IrType { name: None, inner }, Span::UNDEFINED)
}

// The type of a column or a row of a matrix that is stored as an array of those.
fn stored_line<T: Types>(
    built: &mut T,
    matrix: &MatrixShape,
    stored: Stored,
) -> Result<TypeHandle, SpirvError> {
    let (_, length) = matrix.lines(stored.row_major);
    if stored.is_packed(matrix) {
        packed_line(built, length, matrix.scalar)
    } else {
        vector_type(built, Some(length), matrix.scalar)
    }
}

/// The type of a column or a row that is an array of scalars.
pub fn packed_line<T: Types>(
    built: &mut T,
    length: VectorSize,
    scalar: Scalar,
) -> Result<TypeHandle, SpirvError> {
    let inner = TypeInner::Array {
        base: vector_type(built, None, scalar)?,
        size: ArraySize::Constant(u32::from(length)),
        stride: u32::from(scalar.width),
    };
    built.insert(IrType { name: None, inner }, Span::UNDEFINED)
}

// How deep arrays may nest where a matrix is looked for (universal limit of the standard).
const MAX_DEPTH: usize = 255;

// Whether the next member begins after the last column or row of a matrix, and before that would end with its stride.
fn is_split(matrix: &MatrixShape, stored: Stored, offset: Option<u32>, next: Option<u32>) -> bool {
    let (Some(offset), Some(next)) = (offset, next) else {
        return false;
    };
    let (lines, length) = matrix.lines(stored.row_major);
    let stride = u64::from(stored.stride);
    let before = stride.saturating_mul(u64::from(u8::from(lines)).saturating_sub(1));
    let last = vector_layout(length, matrix.scalar).size;
    let begins = u64::from(offset).saturating_add(before);
    let ends = begins.saturating_add(last);
    let next = u64::from(next);
    stride != 0 && ends <= next && next < begins.saturating_add(stride)
}

// The stride of the matrices in a member, where that is not the one that the IR has; 0 where it is.
fn stride_between(
    instruction: &Instruction,
    said: &Decorated,
    matrix: &MatrixShape,
) -> Result<u32, SpirvError> {
    let Some(stride) = said.matrix_stride else {
        return Ok(0);
    };
    let (_, length) = matrix.lines(said.row_major);
    let natural = vector_layout(length, matrix.scalar);
    let width = u64::from(matrix.scalar.width);
    match u64::from(stride).checked_rem(width) {
        _ if u64::from(stride) == natural.alignment => Ok(0),
        Some(0) if u64::from(stride) >= natural.size => Ok(stride),
        _ => Err(instruction.unsupported_as(Unsupported::MatrixStride(stride))),
    }
}

// The name of a member, or of a column or a row of it that is a member by itself.
fn member_name(
    reading: &Reading,
    id: u32,
    place: u32,
    line: Option<u32>,
) -> Result<Option<String>, SpirvError> {
    match (reading.listing.name(reading.alloc, id, Some(place)), line) {
        (Ok(Some(name)), Some(line)) => match numbered(reading.alloc, &name, line) {
            Ok(name) => Ok(Some(name)),
            Err(error) => Err(error),
        },
        (name, _) => name,
    }
}

// What binds a member: one with a built-in of an output that nothing touches is not bound.
fn member_binding(
    reading: &Reading,
    id: u32,
    said: &Decorated,
    demands: &mut Demands,
) -> Option<Binding> {
    if let Some(number) = said.built_in {
        if reading.scan.is_output(id) && !reading.uses.touches(number) {
            return None;
        }
    }
    said.bound(demands)
}
