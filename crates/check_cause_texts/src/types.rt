//! The texts of types.

use bitflags::Flags;
use bitflags::parser::{WriteHex, to_writer};
use document_words::Word;
use ir_arena::handle::Handle;
use ir_kinds::{AddressSpace, ImageClass, ImageDimension, Scalar, VectorSize};
use ir_sets::unique_arena::UniqueArena;
use ir_types::{IrType, key};
use std::fmt::{self, Display};
use typing_forms::{Form, form_of_type};

// The maximum depth to which pointers and arrays are displayed.
const DEEPEST: u32 = 8;

/// The JSON word for a value, or nothing if it has none.
pub fn word_of<W: Word + PartialEq>(value: W) -> &'static str {
    for row in W::table() {
        if row.1 == value {
            return row.0;
        }
    }
    ""
}

/// The word for an address space.
pub fn space_word(space: AddressSpace) -> &'static str {
    match space {
        AddressSpace::Storage { .. } => "Storage",
        AddressSpace::Function
        | AddressSpace::Private
        | AddressSpace::WorkGroup
        | AddressSpace::Uniform
        | AddressSpace::Handle
        | AddressSpace::Immediate
        | AddressSpace::TaskPayload
        | AddressSpace::RayPayload
        | AddressSpace::IncomingRayPayload => word_of(space),
    }
}

/// The words of a bitset.
#[derive(Clone, Copy)]
pub struct SetText<B>(
    /// The bitset.
    pub B,
);

impl<B: Flags> Display for SetText<B>
where
    <B as Flags>::Bits: WriteHex,
{
    fn fmt<W: fmt::Write>(&self, f: &mut fmt::Formatter<W>) -> fmt::Result {
        if self.0.is_empty() {
            return write!(f, "0x0");
        }
        to_writer(&self.0, f)
    }
}

/// Displays a scalar type.
#[derive(Clone, Copy)]
pub struct ScalarText(
    /// The scalar.
    pub Scalar,
);

impl Display for ScalarText {
    fn fmt<W: fmt::Write>(&self, f: &mut fmt::Formatter<W>) -> fmt::Result {
        let word = word_of(self.0);
        if word.is_empty() {
            return write!(f, "{} of {} bytes", word_of(self.0.kind), self.0.width);
        }
        write!(f, "{word}")
    }
}

// A scalar or a vector.
fn write_row<W: fmt::Write>(
    f: &mut fmt::Formatter<W>,
    size: Option<VectorSize>,
    scalar: Scalar,
) -> fmt::Result {
    match size {
        Some(size) => write!(f, "vec{}<{}>", u32::from(size), ScalarText(scalar)),
        None => write!(f, "{}", ScalarText(scalar)),
    }
}

// An image.
fn write_image<W: fmt::Write>(
    f: &mut fmt::Formatter<W>,
    dim: ImageDimension,
    arrayed: bool,
    class: ImageClass,
) -> fmt::Result {
    let layers = if arrayed { "arrayed " } else { "" };
    let many = if class.is_multisampled() {
        "multisampled "
    } else {
        ""
    };
    let word = word_of(dim);
    match class {
        ImageClass::Sampled { kind, .. } => {
            write!(f, "the {layers}{many}{word} image of {}", word_of(kind))
        }
        ImageClass::Depth { .. } => write!(f, "the {layers}{many}{word} depth image"),
        ImageClass::External => write!(f, "an external image"),
        ImageClass::Storage { format, .. } => {
            write!(f, "the {layers}{word} storage image of {}", word_of(format))
        }
    }
}

// A type that contains neither scalars nor other types.
fn write_opaque<W: fmt::Write>(f: &mut fmt::Formatter<W>, form: &Form) -> fmt::Result {
    match *form {
        Form::Struct(_) => write!(f, "a struct"),
        Form::Image {
            dim,
            arrayed,
            class,
        } => write_image(f, dim, arrayed, class),
        Form::Sampler { comparison: true } => write!(f, "a comparison sampler"),
        Form::Sampler { comparison: false } => write!(f, "a sampler"),
        Form::AccelerationStructure { .. } => write!(f, "an acceleration structure"),
        Form::RayQuery { .. } => write!(f, "a ray query"),
        _ => write!(f, "of no type"),
    }
}

#[cycle(types)]
fn write_type<W: fmt::Write>(
    f: &mut fmt::Formatter<W>,
    types: &UniqueArena<IrType, key::IrType>,
    form: &Form,
    depth: u32,
) -> fmt::Result {
    if depth == 0 {
        return write!(f, "..");
    }
    match *form {
        Form::Scalar(scalar) => write_row(f, None, scalar),
        Form::Vector { size, scalar } => write_row(f, Some(size), scalar),
        Form::Matrix {
            columns,
            rows,
            scalar,
        } => {
            let (columns, rows) = (u32::from(columns), u32::from(rows));
            write!(f, "mat{columns}x{rows}<{}>", ScalarText(scalar))
        }
        Form::CooperativeMatrix { scalar, role, .. } => {
            let (scalar, role) = (ScalarText(scalar), word_of(role));
            write!(f, "a cooperative matrix {role} of {scalar}")
        }
        Form::Atomic(scalar) => write!(f, "atomic<{}>", ScalarText(scalar)),
        Form::Pointer { base, space } => {
            write!(f, "a pointer in {} to ", space_word(space))?;
            write_base(f, types, base, depth - 1)
        }
        Form::ValuePointer {
            size,
            scalar,
            space,
        } => {
            write!(f, "a pointer in {} to ", space_word(space))?;
            write_row(f, size, scalar)
        }
        Form::Array { base, .. } => {
            write!(f, "an array of ")?;
            write_base(f, types, base, depth - 1)
        }
        Form::BindingArray { base, .. } => {
            write!(f, "a binding array of ")?;
            write_base(f, types, base, depth - 1)
        }
        _ => write_opaque(f, form),
    }
}

#[cycle(types)]
fn write_base<W: fmt::Write>(
    f: &mut fmt::Formatter<W>,
    types: &UniqueArena<IrType, key::IrType>,
    base: Handle<key::IrType>,
    depth: u32,
) -> fmt::Result {
    if depth == 0 {
        return write!(f, "types[{}]", base.index());
    }
    write_type(f, types, &form_of_type(types, base), depth - 1)
}

/// Displays a type.
#[derive(Clone, Copy)]
pub struct TypeText<'a> {
    /// The types of the module.
    pub types: &'a UniqueArena<IrType, key::IrType>,
    /// The type.
    pub form: &'a Form,
}

impl Display for TypeText<'_> {
    fn fmt<W: fmt::Write>(&self, f: &mut fmt::Formatter<W>) -> fmt::Result {
        write_type(f, self.types, self.form, DEEPEST)
    }
}
