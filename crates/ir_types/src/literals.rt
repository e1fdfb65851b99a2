// The scalar and the inner type of a literal.
ghost use Rattle.std.specs.Prelude.{◌≡◌};
ghost use Rattle.ir_kinds.specs.declared.scalars.Scalar.{Scalar};
ghost use Rattle.ir_types.specs.judged.Plain.{plain, inner_view};
ghost use Rattle.ir_types.specs.declared.types.TypeInner.TheVariants as inner;

use crate::types::TypeInner;
use ir_kinds::Literal;

/// The methods of naga's `Literal` that need types.
pub trait LiteralExt: Sized {
    /// The scalar type.
    ghost scalar_of: { Self → Scalar };

    /// The inner type: its scalar (naga's `Literal::ty_inner`).
    fn ty_inner(self) -> TypeInner
        ensures { inner_view result ≡ plain (inner.Scalar (scalar_of self)) };
}

impl LiteralExt for Literal {
    ghost use Rattle.ir_kinds.specs.judged.Values.{literal_scalar};

    ghost scalar_of = { literal_scalar };

    fn ty_inner(self) -> TypeInner {
        TypeInner::Scalar(self.scalar())
    }
}
