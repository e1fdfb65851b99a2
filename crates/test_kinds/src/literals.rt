// Literals: 0, 1 and -1 of each scalar, and the scalars of literals.
use ir_kinds::{Literal, Scalar, ScalarKind};
use std::io;

const SCALARS: [Scalar; 15] = [
    Scalar::BOOL,
    Scalar::I16,
    Scalar::U16,
    Scalar::I32,
    Scalar::U32,
    Scalar::I64,
    Scalar::U64,
    Scalar::F16,
    Scalar::F32,
    Scalar::F64,
    Scalar::ABSTRACT_INT,
    Scalar::ABSTRACT_FLOAT,
    Scalar {
        kind: ScalarKind::Sint,
        width: 1,
    },
    Scalar {
        kind: ScalarKind::Bool,
        width: 4,
    },
    Scalar {
        kind: ScalarKind::AbstractInt,
        width: 4,
    },
];

const LITERALS: [Literal; 12] = [
    Literal::F64(4607182418800017408),
    Literal::F32(1065353216),
    Literal::F16(15360),
    Literal::U16(7),
    Literal::I16(-7),
    Literal::U32(7),
    Literal::I32(-7),
    Literal::U64(7),
    Literal::I64(-7),
    Literal::Bool(true),
    Literal::AbstractInt(-7),
    Literal::AbstractFloat(0),
];

fn print_units(rt: &impl Print, scalar: Scalar) -> io::Result<()> {
    let zero = Literal::zero(scalar);
    let one = Literal::one(scalar);
    let minus_one = Literal::minus_one(scalar);
    println!(rt;
        "{:?} {}: {zero:?} {one:?} {minus_one:?}",
        scalar.kind, scalar.width
    )
}

fn print_scalar(rt: &impl Print, literal: Literal) -> io::Result<()> {
    let scalar = literal.scalar();
    let same = scalar.kind == literal.scalar_kind() && scalar.width == literal.width();
    println!(rt;
        "{literal:?}: {:?} {} {same}",
        literal.scalar_kind(),
        literal.width()
    )
}

/// Prints zero, one and minus one of each scalar, and the scalar of each literal kind.
pub fn run(rt: &impl Print) -> io::Result<()> {
    for scalar in &SCALARS {
        print_units(rt, *scalar)?;
    }
    for literal in &LITERALS {
        print_scalar(rt, *literal)?;
    }
    Ok(())
}
