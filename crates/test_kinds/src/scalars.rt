// Scalars, vector sizes, components.
use ir_kinds::{
    ABSTRACT_WIDTH, BOOL_WIDTH, CooperativeSize, Scalar, ScalarKind, SwizzleComponent, VectorSize,
    laws,
};
use std::io;

fn print_kind(rt: &impl Print, kind: ScalarKind) -> io::Result<()> {
    let scalar = Scalar { kind, width: 8 };
    println!(rt;
        "{kind:?}: numeric {} abstract {}",
        kind.is_numeric(),
        scalar.is_abstract()
    )
}

fn print_kinds(rt: &impl Print) -> io::Result<()> {
    for kind in [
        ScalarKind::Sint,
        ScalarKind::Uint,
        ScalarKind::Float,
        ScalarKind::Bool,
        ScalarKind::AbstractInt,
        ScalarKind::AbstractFloat,
    ] {
        print_kind(rt, kind)?;
    }
    println!(rt; "float 4 is f32: {}", Scalar::float(4) == Scalar::F32)
}

fn print_size(rt: &impl Print, size: VectorSize) -> io::Result<()> {
    let byte: u8 = u8::from(size);
    let count: u32 = u32::from(size);
    println!(rt; "{size:?}: {byte} {count}")
}

fn print_sizes(rt: &impl Print) -> io::Result<()> {
    println!(rt; "widths: {BOOL_WIDTH} {ABSTRACT_WIDTH}")?;
    for size in [VectorSize::Bi, VectorSize::Tri, VectorSize::Quad] {
        print_size(rt, size)?;
    }
    println!(rt; "most: {}", VectorSize::MAX)
}

fn print_components(rt: &impl Print) -> io::Result<()> {
    let eight = CooperativeSize::Eight as u32;
    let sixteen = CooperativeSize::Sixteen as u32;
    println!(rt; "cooperative: {eight} {sixteen}")?;
    for component in &SwizzleComponent::XYZW {
        println!(rt; "{component:?}: {}", component.index())?;
    }
    for place in [0, 1, 2, 3, 4, 4294967295] {
        println!(rt; "{place}: {:?}", SwizzleComponent::from_index(place))?;
    }
    Ok(())
}

/// Prints scalar kinds, vector sizes and components.
pub fn run(rt: &impl Print) -> io::Result<()> {
    laws::scalar_constants();
    laws::vector_constants(VectorSize::Bi);
    print_kinds(rt)?;
    print_sizes(rt)?;
    print_components(rt)
}
