//! The broken rules of conversions.

ghost use Rattle.std.specs.Prelude.{◌↔◌, IsTrue, MatchOption};
ghost use Rattle.check_causes.specs.Conversions.{BrokenAs, BrokenConversion};
ghost use Rattle.spec_statements.specs.judged.Conversions.{AsOK, IsConverted};
ghost use Rattle.typing_layout.specs.judged.Widths.{ScalarOK};

use ir_flags::Capabilities;
use ir_kinds::{Bytes, Scalar, ScalarKind};
use module_context::shaped_of;
use module_type_checks::check_width;
use typing_forms::Form;

/// A broken rule of a conversion.
#[derive(Clone, Copy)]
pub enum AsCause {
    /// The operand has this type, which is not a scalar, vector or matrix.
    NoScalars(Form),
    /// The target scalar type is invalid, or its capability is missing.
    NoScalar(Scalar),
    /// A bitcast to `bool`.
    ToBool,
    /// A bitcast from `bool`.
    FromBool,
}

// Whether a scalar type is valid.
fn is_there(capabilities: Capabilities, scalar: Scalar) -> bool
    ensures { IsTrue result ↔ ScalarOK capabilities scalar }
{
    check_width(capabilities, scalar).is_ok()
}

// The first broken rule of a scalar conversion.
fn broken_conversion(
    capabilities: Capabilities,
    kind: ScalarKind,
    convert: Option<Bytes>,
    scalar: Scalar,
) -> Option<AsCause>
    ensures { MatchOption result (IsConverted capabilities kind convert scalar) (BrokenConversion capabilities kind convert scalar) }
{
    match convert {
        Some(width) => {
            if is_there(capabilities, Scalar { kind, width }) {
                None
            } else {
                Some(AsCause::NoScalar(Scalar { kind, width }))
            }
        }
        None => {
            if kind == ScalarKind::Bool {
                Some(AsCause::ToBool)
            } else if scalar.kind == ScalarKind::Bool {
                Some(AsCause::FromBool)
            } else {
                None
            }
        }
    }
}

/// The first broken rule of a conversion, if any: the value is a scalar, vector or matrix; the target scalar type is valid;
/// in a bitcast neither type is `bool`.
pub fn broken_as(
    capabilities: Capabilities,
    kind: ScalarKind,
    convert: Option<Bytes>,
    of: &Form,
) -> Option<AsCause>
    ensures { MatchOption result (AsOK capabilities kind convert of.now) (BrokenAs capabilities kind convert of.now) }
{
    match shaped_of(*of) {
        Some(shaped) => broken_conversion(capabilities, kind, convert, shaped.scalar),
        None => Some(AsCause::NoScalars(*of)),
    }
}
