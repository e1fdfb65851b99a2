// Constant evaluation of built-in functions.

use ir_kinds::{MathFunction, RelationalFunction, Scalar};
use wgsl_constants::{Lanes, every, functions, geometric, select};
use wgsl_expressions::{Lowering, Operand, Value};
use wgsl_text::{Extent, WgslError};
use wgsl_types::Builder;

// Whether a math function also accepts integers.
pub(crate) fn takes_integers(function: MathFunction) -> bool {
    matches!(
        function,
        MathFunction::Abs
            | MathFunction::Min
            | MathFunction::Max
            | MathFunction::Clamp
            | MathFunction::Sign
            | MathFunction::Dot
            | MathFunction::CountTrailingZeros
            | MathFunction::CountLeadingZeros
            | MathFunction::CountOneBits
            | MathFunction::ReverseBits
            | MathFunction::FirstTrailingBit
            | MathFunction::FirstLeadingBit
    )
}

// Whether there are arguments and all are constant.
fn are_known<B: Builder>(lowering: &Lowering<B>, arguments: &[Operand]) -> bool {
    for argument in arguments {
        if lowering.known_of(argument).is_none() {
            return false;
        }
    }
    !arguments.is_empty()
}

// The common scalar of the arguments, if all are constant scalars or vectors.
fn common<B: Builder>(lowering: &Lowering<B>, arguments: &[Operand]) -> Option<Scalar> {
    let mut found = None;
    for argument in arguments {
        let scalar = lowering.lanes_of(argument)?.scalar();
        if !scalar.is_abstract() {
            return Some(scalar);
        }
        if found.is_none() || scalar == Scalar::ABSTRACT_FLOAT {
            found = Some(scalar);
        }
    }
    found
}

// The components of an argument, converted to this type.
fn lanes<B: Builder>(
    lowering: &Lowering<B>,
    arguments: &[Operand],
    place: usize,
    to: Scalar,
) -> Option<Lanes> {
    lowering.lanes_of(arguments.get(place)?)?.converted(to)
}

// Whether a function operates on the bits of concrete integers.
fn is_of_bits(function: MathFunction) -> bool {
    matches!(
        function,
        MathFunction::CountTrailingZeros
            | MathFunction::CountLeadingZeros
            | MathFunction::CountOneBits
            | MathFunction::ReverseBits
            | MathFunction::FirstTrailingBit
            | MathFunction::FirstLeadingBit
    )
}

// Whether a function takes words of four bytes.
fn is_of_words(function: MathFunction) -> bool {
    matches!(
        function,
        MathFunction::Dot4I8Packed | MathFunction::Dot4U8Packed
    )
}

// Whether a function is never evaluated on constants.
fn is_never_known(function: MathFunction) -> bool {
    matches!(
        function,
        MathFunction::Mix
            | MathFunction::SmoothStep
            | MathFunction::Modf
            | MathFunction::Frexp
            | MathFunction::Ldexp
            | MathFunction::Determinant
            | MathFunction::Transpose
            | MathFunction::Reflect
            | MathFunction::Refract
            | MathFunction::FaceForward
            | MathFunction::ExtractBits
            | MathFunction::InsertBits
            | MathFunction::QuantizeToF16
    )
}

// Whether the result for abstract arguments is abstract if it is not evaluated.
fn stays_abstract<B: Builder>(
    lowering: &Lowering<B>,
    function: MathFunction,
    arguments: &[Operand],
) -> bool {
    for argument in arguments {
        match lowering.scalar_of(argument) {
            Some(scalar) if scalar.is_abstract() => {}
            _ => return false,
        }
    }
    matches!(
        function,
        MathFunction::Mix
            | MathFunction::SmoothStep
            | MathFunction::Determinant
            | MathFunction::Transpose
    )
}

// Lowers a function that is never evaluated on constants: to a run-time call, or it is an error.
fn never_known<B: Builder>(
    lowering: &mut Lowering<B>,
    function: MathFunction,
    arguments: &[Operand],
    extent: Extent,
) -> Option<Operand> {
    if lowering.builder.is_global() {
        let text = "Not implemented as constant expression: ";
        lowering.fail(WgslError::of_name(text, extent, " built-in function"));
        return Some(Operand::NOTHING);
    }
    if stays_abstract(lowering, function, arguments) {
        lowering.wrong("failed to convert expression to a concrete type", extent);
        return Some(Operand::NOTHING);
    }
    None
}

// An evaluated result with its span.
fn standing(value: Option<Value>, extent: Extent) -> Option<Operand> {
    match value {
        Some(value) => Some(Operand { value, extent }),
        None => None,
    }
}

/// Evaluates a math function on constants, if it can.
pub(crate) fn known_math<B: Builder>(
    lowering: &mut Lowering<B>,
    function: MathFunction,
    arguments: &[Operand],
    extent: Extent,
) -> Option<Operand> {
    if !are_known(lowering, arguments) {
        return None;
    }
    if is_never_known(function) {
        return never_known(lowering, function, arguments, extent);
    }
    let scalar = match common(lowering, arguments) {
        Some(scalar) if scalar.is_abstract() && function == MathFunction::Distance => Scalar::F32,
        Some(scalar) if scalar.is_abstract() && is_of_words(function) => Scalar::U32,
        Some(scalar) if scalar == Scalar::ABSTRACT_INT && !takes_integers(function) =>
            Scalar::ABSTRACT_FLOAT,
        Some(scalar) if scalar == Scalar::ABSTRACT_INT && is_of_bits(function) => Scalar::I32,
        Some(scalar) => scalar,
        None => return standing(lowering.stays(extent), extent),
    };
    let Some(first) = lanes(lowering, arguments, 0, scalar) else {
        return standing(lowering.stays(extent), extent);
    };
    let second = lanes(lowering, arguments, 1, scalar);
    let third = lanes(lowering, arguments, 2, scalar);
    let given = 1_usize
        .saturating_add(usize::from(second.is_some()))
        .saturating_add(usize::from(third.is_some()));
    if given != arguments.len() {
        return standing(lowering.stays(extent), extent);
    }
    let made = match function {
        MathFunction::Dot
        | MathFunction::Cross
        | MathFunction::Length
        | MathFunction::Distance
        | MathFunction::Normalize => geometric(function, &first, second),
        _ => functions(function, &first, second, third),
    };
    standing(lowering.settled(made, extent), extent)
}

/// Evaluates `select` on constants, if it can.
pub(crate) fn known_select<B: Builder>(
    lowering: &mut Lowering<B>,
    arguments: &[Operand],
    extent: Extent,
) -> Option<Operand> {
    if !are_known(lowering, arguments) {
        return None;
    }
    let choices = arguments.get(..2).unwrap_or(&[]);
    let made = match (common(lowering, choices), arguments.get(2)) {
        (Some(scalar), Some(condition)) => match lowering.lanes_of(condition) {
            Some(condition) => {
                let reject = lanes(lowering, choices, 0, scalar);
                let accept = lanes(lowering, choices, 1, scalar);
                match (reject, accept) {
                    (Some(reject), Some(accept)) => Some(select(&reject, &accept, &condition)),
                    _ => None,
                }
            }
            None => None,
        },
        _ => None,
    };
    match made {
        Some(made) => standing(lowering.settled(made, extent), extent),
        None => standing(lowering.stays(extent), extent),
    }
}

/// Evaluates `all` or `any` on a constant, if it can.
pub(crate) fn known_relational<B: Builder>(
    lowering: &mut Lowering<B>,
    function: RelationalFunction,
    arguments: &[Operand],
    extent: Extent,
) -> Option<Operand> {
    let first = arguments.first()?;
    if arguments.len() != 1 || lowering.known_of(first).is_none() {
        return None;
    }
    match lowering.lanes_of(first) {
        Some(lanes) => standing(lowering.settled(every(function, &lanes), extent), extent),
        None => standing(lowering.stays(extent), extent),
    }
}
