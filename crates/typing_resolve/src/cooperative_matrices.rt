//! Cooperative matrices.

ghost use Rattle.std.specs.Prelude.{◌≡◌};
ghost use Rattle.spec_expressions.specs.judged.CooperativeMatrices.{pointed_scalar, cooperative_load_type};
ghost use Rattle.typing_forms.specs.judged.Resolutions.{types_view};
ghost use Rattle.typing_errors.specs.Answers.{form_answer};

use ir_arena::handle::Handle;
use ir_kinds::{CooperativeRole, CooperativeSize, Scalar};
use ir_sets::unique_arena::UniqueArena;
use ir_types::{IrType, TypeInner, key};
use spec_expressions::TypingFault;
use typing_forms::{Form, TypeInnerExt, TypeResolution, inner_of};

// The scalar of a pointer's base type.
fn pointed_scalar(types: &UniqueArena<IrType, key::IrType>, of: Form) -> Option<Scalar>
    ensures { result ≡ pointed_scalar (types_view types.now) of }
{
    match of {
        Form::Pointer { base, .. } => match inner_of(types, base) {
            Some(pointee) => pointee.scalar(),
            None => None,
        },
        Form::ValuePointer { scalar, .. } => Some(scalar),
        _ => None,
    }
}

// A cooperative matrix of the scalar that a pointer points to.
pub(crate) fn cooperative_load_type(
    types: &UniqueArena<IrType, key::IrType>,
    columns: CooperativeSize,
    rows: CooperativeSize,
    role: CooperativeRole,
    pointer: Handle<key::Expression>,
    of: Form,
) -> Result<TypeResolution, TypingFault>
    ensures { form_answer (types_view types.now) result ≡ cooperative_load_type (types_view types.now) columns rows role pointer of }
{
    match pointed_scalar(types, of) {
        Some(scalar) => Ok(TypeResolution::Value(TypeInner::CooperativeMatrix {
            columns,
            rows,
            scalar,
            role,
        })),
        None => Err(TypingFault::InvalidPointer(pointer)),
    }
}
