// Types implement `Copied`, so that an arena of them can be cloned.
use crate::types::IrType;
use ir_arena::copied::Copied;
use std::alloc::{AllocError, Global};

impl Copied for IrType {
    ghost use Rattle.ir_types.specs.judged.Plain.{PlainType, type_view};

    ghost View = { PlainType };

    ghost view = { type_view };

    fn copied(&self, alloc: Global) -> Result<IrType, AllocError> {
        self.clone(alloc)
    }
}
