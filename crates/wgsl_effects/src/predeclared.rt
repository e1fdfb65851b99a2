// The result structs of `modf`, `frexp` and `atomicCompareExchangeWeak`.

use ir_kinds::{PredeclaredType, Scalar, ScalarKind, VectorSize};
use std::alloc::{AllocError, Global};
use wgsl_expressions::Lowering;
use wgsl_text::{Extent, Failure};
use wgsl_tree::Part;
use wgsl_types::{Builder, Layout, Shape};

// A struct of two members; neither is larger than the offset of the second.
struct Pair {
    names: [&'static str; 2],
    shapes: [Shape; 2],
    // the offset of the second member, in bytes
    offset: u32,
}

// A scalar, or a vector.
fn sized(size: Option<VectorSize>, scalar: Scalar) -> Shape {
    match size {
        Some(size) => Shape::Vector(size, scalar),
        None => Shape::Scalar(scalar),
    }
}

// The members `fract` and `whole` or `exp`, whose scalars have the same width.
fn split(size: Option<VectorSize>, name: &'static str, scalars: [Scalar; 2]) -> Pair {
    let [fraction, rest] = scalars;
    let count = match size {
        Some(size) => u32::from(size),
        None => 1,
    };
    Pair {
        names: ["fract", name],
        shapes: [sized(size, fraction), sized(size, rest)],
        offset: count.saturating_mul(u32::from(fraction.width)),
    }
}

// The members of a result struct.
fn pair_of(of: PredeclaredType) -> Pair {
    match of {
        PredeclaredType::AtomicCompareExchangeWeakResult(scalar) => Pair {
            names: ["old_value", "exchanged"],
            shapes: [Shape::Scalar(scalar), Shape::Scalar(Scalar::BOOL)],
            offset: u32::from(scalar.width),
        },
        PredeclaredType::ModfResult { size, scalar } => { split(size, "whole", [scalar, scalar]) }
        // the exponent has as many bits as the fraction
        PredeclaredType::FrexpResult { size, scalar } => {
            let exponent = Scalar {
                kind: ScalarKind::Sint,
                width: scalar.width,
            };
            split(size, "exp", [scalar, exponent])
        }
    }
}

// The name of a result struct.
fn name_of(alloc: Global, of: PredeclaredType) -> Result<String, AllocError> {
    let (function, size, scalar) = match of {
        PredeclaredType::ModfResult { size, scalar } => ("modf", size, scalar),
        PredeclaredType::FrexpResult { size, scalar } => ("frexp", size, scalar),
        PredeclaredType::AtomicCompareExchangeWeakResult(scalar) => {
            let kind = match scalar.kind {
                ScalarKind::Sint => "Sint",
                ScalarKind::Uint => "Uint",
                _ => "Float",
            };
            let width = scalar.width;
            return format!(in alloc; "__atomic_compare_exchange_result<{kind},{width}>");
        }
    };
    let bits = u32::from(scalar.width) * 8;
    match size {
        Some(size) => {
            let count = u32::from(size);
            format!(in alloc; "__{function}_result_vec{count}_f{bits}")
        }
        None => format!(in alloc; "__{function}_result_f{bits}"),
    }
}

/// The result struct of a built-in function, which is created once.
pub fn result_struct<B: Builder>(
    lowering: &mut Lowering<B>,
    of: PredeclaredType,
    extent: Extent,
) -> Shape {
    if let Some(shape) = lowering.table.result_struct(of) {
        return shape;
    }
    let Pair {
        names: [first, second],
        shapes: [of_first, of_second],
        offset,
    } = pair_of(of);
    let start = u32::try_from(lowering.table.members.len()).unwrap_or(u32::MAX);
    let mut built = Vec::new(lowering.alloc);
    lowering.add_member(&mut built, first, of_first, 0, extent);
    lowering.add_member(&mut built, second, of_second, offset, extent);
    let end = start.saturating_add(2);
    let layout = Layout {
        size: u64::from(offset).saturating_mul(2),
        alignment: 1,
    };
    let named = name_of(lowering.alloc, of);
    let name = lowering.made_name(named);
    let members = Part { start, end };
    let shape = lowering.table.structure(
        &mut lowering.builder,
        name,
        built,
        members,
        layout,
        extent,
    );
    let ty = lowering.type_handle(shape, extent);
    lowering.builder.predeclare(of, ty);
    let mut failed = Failure::NONE;
    failed.push(&mut lowering.table.predeclared, (of, shape));
    lowering.join(&failed);
    shape
}
