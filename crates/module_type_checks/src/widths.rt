//! The validity of scalar types.

ghost use Rattle.std.specs.Prelude.{◌≡◌, IsOk, MatchResult};
ghost use Rattle.ir_flags.specs.Sets.{Has};
ghost use Rattle.ir_kinds.specs.judged.Values.{literal_scalar};
ghost use Rattle.typing_layout.specs.judged.Rules.{CooperativeOK};
ghost use Rattle.typing_layout.specs.judged.Widths.{ScalarOK, AtomicOK, IsWidthAllowed, IsAtomicInteger};
ghost use Rattle.module_type_checks.specs.Widths.{IsWideFault, IsLiteralFault, IsAtomicIntegerFault};
ghost use Rattle.typing_layout.specs.found.Faults.{IsWidthFault, IsScalarFault, IsMatrixFault, IsCooperativeFault, IsAtomicFault};

use bitflags::Flags;
use ir_flags::Capabilities;
use ir_kinds::{Literal, Scalar, ScalarKind};
use typing_layout::{LiteralError, TypeError, WidthError};

// Returns an error if a capability is missing.
fn needs_for_width(capabilities: Capabilities, needed: Capabilities) -> Result<(), WidthError>
    ensures { MatchResult result (λ _. Has capabilities.0 needed.0) (λ e. (e ≡ WidthError.MissingCapability needed) × ¬ Has capabilities.0 needed.0) }
{
    if capabilities.contains(needed) {
        Ok(())
    } else {
        Err(WidthError::MissingCapability(needed))
    }
}

// Returns an error unless the width is four bytes, or two or eight with the capability for it.
fn check_wide(
    capabilities: Capabilities,
    scalar: Scalar,
    two: Capabilities,
    eight: Capabilities,
) -> Result<(), WidthError>
    ensures { MatchResult result (λ _. IsWidthAllowed capabilities two eight scalar.width) (IsWideFault capabilities two eight scalar) }
{
    match scalar.width {
        4 => Ok(()),
        2 => needs_for_width(capabilities, two),
        8 => needs_for_width(capabilities, eight),
        _ => Err(WidthError::Invalid(scalar.kind, scalar.width)),
    }
}

/// Whether a scalar type is valid for types and literals (naga's `check_width`).
///
/// # Errors
///
/// The scalar type is abstract, the width is invalid for its kind, or a required capability is missing.
pub fn check_width(capabilities: Capabilities, scalar: Scalar) -> Result<(), WidthError>
    ensures { MatchResult result (λ _. ScalarOK capabilities scalar) (IsWidthFault capabilities scalar) }
{
    match scalar.kind {
        ScalarKind::Bool => {
            if scalar.width == 1 {
                Ok(())
            } else {
                Err(WidthError::Invalid(scalar.kind, scalar.width))
            }
        }
        ScalarKind::Sint | ScalarKind::Uint => check_wide(
            capabilities,
            scalar,
            Capabilities::SHADER_INT16,
            Capabilities::SHADER_INT64,
        ),
        ScalarKind::Float => check_wide(
            capabilities,
            scalar,
            Capabilities::SHADER_FLOAT16,
            Capabilities::FLOAT64,
        ),
        ScalarKind::AbstractInt | ScalarKind::AbstractFloat => Err(WidthError::Abstract),
    }
}

/// Whether a literal's value is valid (naga's `check_literal_value`): always, because floats are represented by
/// their bits, of which all are allowed.
pub const fn check_literal_value(_literal: Literal) -> Result<(), LiteralError>
    ensures { IsOk result }
{
    Ok(())
}

/// Whether a literal is valid (naga's `validate_literal`).
///
/// # Errors
///
/// The error of [`check_width`] for its scalar type.
pub fn validate_literal(capabilities: Capabilities, literal: Literal) -> Result<(), LiteralError>
    ensures { MatchResult result (λ _. ScalarOK capabilities (literal_scalar literal)) (IsLiteralFault capabilities literal) }
{
    match check_width(capabilities, literal.scalar()) {
        Ok(()) => check_literal_value(literal),
        Err(error) => Err(LiteralError::Width(error)),
    }
}

/// Whether a scalar type is valid for a scalar, a vector or a pointer to one. The error is that of [`check_width`].
pub fn check_scalar(capabilities: Capabilities, scalar: Scalar) -> Result<(), TypeError>
    ensures { MatchResult result (λ _. ScalarOK capabilities scalar) (IsScalarFault capabilities scalar) }
{
    match check_width(capabilities, scalar) {
        Ok(()) => Ok(()),
        Err(error) => Err(TypeError::WidthError(error)),
    }
}

/// Whether a scalar type is valid for a matrix.
pub fn check_matrix(capabilities: Capabilities, scalar: Scalar) -> Result<(), TypeError>
    ensures { MatchResult result (λ _. (scalar.kind ≡ ScalarKind.Float) × ScalarOK capabilities scalar) (IsMatrixFault capabilities scalar) }
{
    if scalar.kind != ScalarKind::Float {
        return Err(TypeError::MatrixElementNotFloat);
    }
    match check_width(capabilities, scalar) {
        Ok(()) => Ok(()),
        Err(error) => Err(TypeError::WidthError(error)),
    }
}

/// Whether a scalar type is valid for a cooperative matrix.
pub fn check_cooperative(capabilities: Capabilities, scalar: Scalar) -> Result<(), TypeError>
    ensures { MatchResult result (λ _. CooperativeOK capabilities scalar) (IsCooperativeFault capabilities scalar) }
{
    if !capabilities.contains(Capabilities::COOPERATIVE_MATRIX) {
        return Err(TypeError::MissingCapability(Capabilities::COOPERATIVE_MATRIX));
    }
    if scalar != Scalar::F32 && scalar != Scalar::F16 {
        return Err(TypeError::Other);
    }
    Ok(())
}

// Whether an integer atomic may have this width.
fn check_atomic_integer(capabilities: Capabilities, scalar: Scalar) -> Result<(), TypeError>
    ensures { MatchResult result (λ _. IsAtomicInteger capabilities scalar.width) (IsAtomicIntegerFault capabilities scalar) }
{
    match scalar.width {
        4 => Ok(()),
        8 => {
            if capabilities.contains(Capabilities::SHADER_INT64_ATOMIC_MIN_MAX)
                || capabilities.contains(Capabilities::SHADER_INT64_ATOMIC_ALL_OPS)
            {
                Ok(())
            } else {
                Err(TypeError::MissingCapability(Capabilities::SHADER_INT64_ATOMIC_ALL_OPS))
            }
        }
        _ => Err(TypeError::InvalidAtomicWidth(scalar.kind, scalar.width)),
    }
}

/// Whether a scalar type is valid for an atomic.
///
/// # Errors
///
/// No atomic has this scalar kind and width, or a required capability is missing.
pub fn check_atomic(capabilities: Capabilities, scalar: Scalar) -> Result<(), TypeError>
    ensures { MatchResult result (λ _. AtomicOK capabilities scalar) (IsAtomicFault capabilities scalar) }
{
    match scalar.kind {
        ScalarKind::Sint | ScalarKind::Uint => check_atomic_integer(capabilities, scalar),
        ScalarKind::Float => {
            if scalar.width != 4 {
                Err(TypeError::InvalidAtomicWidth(scalar.kind, scalar.width))
            } else if capabilities.contains(Capabilities::SHADER_FLOAT32_ATOMIC) {
                Ok(())
            } else {
                Err(TypeError::MissingCapability(Capabilities::SHADER_FLOAT32_ATOMIC))
            }
        }
        ScalarKind::Bool | ScalarKind::AbstractInt | ScalarKind::AbstractFloat => Err(
            TypeError::InvalidAtomicWidth(scalar.kind, scalar.width),
        ),
    }
}
