// Short names of types.

use crate::words::beginning;
use ir_arena::handle::Handle;
use ir_items::{IrType, TypeInner, key};
use ir_kinds::{ImageClass, ImageDimension, Scalar, ScalarKind, VectorSize};
use ir_sets::unique_arena::UniqueArena;
use ir_types::ArraySize;
use std::fmt::{self, Display};

// The maximum depth to which nested arrays are displayed.
const MOST_ARRAYS: usize = 4;

/// A type of a module in short: as in WGSL, a struct by its name, and an array with its element type.
#[derive(Clone, Copy)]
pub(crate) struct ShortType<'a> {
    /// The types of the module.
    pub types: &'a UniqueArena<IrType, key::IrType>,
    /// The type.
    pub ty: Handle<key::IrType>,
}

// The word for a scalar kind, before the number of bits.
fn kind_word(kind: ScalarKind) -> &'static str {
    match kind {
        ScalarKind::Sint => "i",
        ScalarKind::Uint => "u",
        ScalarKind::Float => "f",
        ScalarKind::Bool => "bool",
        ScalarKind::AbstractInt => "aint",
        ScalarKind::AbstractFloat => "afloat",
    }
}

fn write_scalar<W: fmt::Write>(f: &mut fmt::Formatter<W>, scalar: Scalar) -> fmt::Result {
    let word = kind_word(scalar.kind);
    match scalar.kind {
        ScalarKind::Sint | ScalarKind::Uint | ScalarKind::Float => {
            write!(f, "{word}{}", u32::from(scalar.width).saturating_mul(8))
        }
        ScalarKind::Bool | ScalarKind::AbstractInt | ScalarKind::AbstractFloat => {
            write!(f, "{word}")
        }
    }
}

fn number_of(size: VectorSize) -> u32 {
    match size {
        VectorSize::Bi => 2,
        VectorSize::Tri => 3,
        VectorSize::Quad => 4,
    }
}

fn dimension_word(dim: ImageDimension) -> &'static str {
    match dim {
        ImageDimension::D1 => "1d",
        ImageDimension::D2 => "2d",
        ImageDimension::D3 => "3d",
        ImageDimension::Cube => "cube",
    }
}

// An image type: the word before its dimension, and its texel type after it.
fn write_image<W: fmt::Write>(
    f: &mut fmt::Formatter<W>,
    dim: ImageDimension,
    arrayed: bool,
    class: ImageClass,
) -> fmt::Result {
    let dim = dimension_word(dim);
    let layers = if arrayed { "_array" } else { "" };
    match class {
        ImageClass::Sampled { kind, multi } => {
            let samples = if multi { "multisampled_" } else { "" };
            write!(f, "texture_{samples}{dim}{layers}<")?;
            write_scalar(f, Scalar { kind, width: 4 })?;
            write!(f, ">")
        }
        ImageClass::Depth { multi } => {
            let samples = if multi { "multisampled_" } else { "" };
            write!(f, "texture_depth_{samples}{dim}{layers}")
        }
        ImageClass::External => write!(f, "texture_external"),
        ImageClass::Storage { format, .. } => {
            write!(f, "texture_storage_{dim}{layers}<{format:?}>")
        }
    }
}

fn write_struct<W: fmt::Write>(f: &mut fmt::Formatter<W>, ty: &IrType) -> fmt::Result {
    match &ty.name {
        Some(name) if !name.is_empty() => write!(f, "struct {:?}", beginning(name)),
        Some(_) | None => write!(f, "struct"),
    }
}

// A type that is not an array.
fn write_plain<W: fmt::Write>(f: &mut fmt::Formatter<W>, ty: &IrType) -> fmt::Result {
    match ty.inner {
        TypeInner::Scalar(scalar) => write_scalar(f, scalar),
        TypeInner::Vector { size, scalar } => {
            write!(f, "vec{}<", number_of(size))?;
            write_scalar(f, scalar)?;
            write!(f, ">")
        }
        TypeInner::Matrix {
            columns,
            rows,
            scalar,
        } => {
            write!(f, "mat{}x{}<", number_of(columns), number_of(rows))?;
            write_scalar(f, scalar)?;
            write!(f, ">")
        }
        TypeInner::Atomic(scalar) => {
            write!(f, "atomic<")?;
            write_scalar(f, scalar)?;
            write!(f, ">")
        }
        TypeInner::Struct { .. } => write_struct(f, ty),
        TypeInner::Image {
            dim,
            arrayed,
            class,
        } => write_image(f, dim, arrayed, class),
        TypeInner::Sampler { comparison: true } => write!(f, "sampler_comparison"),
        TypeInner::Sampler { comparison: false } => write!(f, "sampler"),
        TypeInner::AccelerationStructure { .. } => write!(f, "acceleration_structure"),
        TypeInner::RayQuery { .. } => write!(f, "ray_query"),
        TypeInner::CooperativeMatrix { .. } => write!(f, "coop_mat"),
        TypeInner::Pointer { .. } | TypeInner::ValuePointer { .. } => write!(f, "ptr"),
        TypeInner::Array { .. } => write!(f, "array"),
        TypeInner::BindingArray { .. } => write!(f, "binding_array"),
    }
}

// The end of an array type with this size.
fn write_size<W: fmt::Write>(f: &mut fmt::Formatter<W>, size: ArraySize) -> fmt::Result {
    match size {
        ArraySize::Constant(count) => write!(f, ", {count}>"),
        ArraySize::Pending(_) => write!(f, ", override>"),
        ArraySize::Dynamic => write!(f, ">"),
    }
}

// The element type of an array type, with its size.
fn element_of(
    types: &UniqueArena<IrType, key::IrType>,
    ty: Handle<key::IrType>,
) -> Option<(Handle<key::IrType>, ArraySize)> {
    let Ok(ty) = types.get_handle(ty) else {
        return None;
    };
    match ty.inner {
        TypeInner::Array { base, size, .. } | TypeInner::BindingArray { base, size } => {
            Some((base, size))
        }
        _ => None,
    }
}

// The beginning of an array type, for binding arrays and others.
fn write_array<W: fmt::Write>(
    f: &mut fmt::Formatter<W>,
    types: &UniqueArena<IrType, key::IrType>,
    ty: Handle<key::IrType>,
) -> fmt::Result {
    match types.get_handle(ty) {
        Ok(ty) if matches!(ty.inner, TypeInner::BindingArray { .. }) => {
            write!(f, "binding_array<")
        }
        Ok(_) | Err(_) => write!(f, "array<"),
    }
}

// A type, with the sizes of the arrays around it, the innermost last.
fn write_type<W: fmt::Write>(
    f: &mut fmt::Formatter<W>,
    types: &UniqueArena<IrType, key::IrType>,
    ty: Handle<key::IrType>,
) -> fmt::Result {
    let mut sizes = [None; MOST_ARRAYS];
    let mut at = ty;
    for size in &mut sizes {
        let Some((base, count)) = element_of(types, at) else {
            break;
        };
        write_array(f, types, at)?;
        *size = Some(count);
        at = base;
    }
    match types.get_handle(at) {
        Ok(ty) => write_plain(f, ty)?,
        Err(_) => write!(f, "unknown")?,
    }
    for size in sizes.iter().rev() {
        if let Some(size) = size {
            write_size(f, *size)?;
        }
    }
    Ok(())
}

impl Display for ShortType<'_> {
    fn fmt<W: fmt::Write>(&self, f: &mut fmt::Formatter<W>) -> fmt::Result {
        write_type(f, self.types, self.ty)
    }
}
