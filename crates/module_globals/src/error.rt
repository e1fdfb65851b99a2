//! The errors of global variables.

use ir_arena::handle::Handle;
use ir_flags::Capabilities;
use ir_kinds::AddressSpace;
use ir_types::key;
use thiserror::Error;
use typing_layout::{Disalignment, ImmediateError, TypeFlags};

/// The error of an invalid global variable (naga's `GlobalVariableError`).
#[derive(Clone, Copy, PartialEq, Debug, Error)]
pub enum GlobalVariableError {
    /// The address space is not allowed for global variables.
    #[error("this use of a global variable is incompatible with address space {0:?}")]
    InvalidUsage(AddressSpace),
    /// The type is not allowed in the address space.
    #[error("the type is incompatible with address space {0:?}")]
    InvalidType(AddressSpace),
    /// A binding array of this element type is not allowed.
    #[error("type {0:?} is incompatible with binding arrays")]
    InvalidBindingArray(Handle<key::IrType>),
    /// The type lacks type flags that the address space requires.
    #[error("type flags {seen:?} do not meet the required {required:?}")]
    MissingTypeFlags {
        /// The required flags.
        required: TypeFlags,
        /// The flags of the type.
        seen: TypeFlags,
    },
    /// A required capability is missing.
    #[error("capability {0:?} is not supported")]
    UnsupportedCapability(Capabilities),
    /// The binding is missing, or present in an address space without bindings.
    #[error("the binding is missing or not applicable")]
    InvalidBinding,
    /// The layout of the type, or of this type inside it, is invalid in the address space.
    #[error("the layout rules of address space {0:?} are not met by type {1:?}: {2}")]
    Alignment(AddressSpace, Handle<key::IrType>, Disalignment),
    /// The initializer must be a const-expression or an override-expression.
    #[error("the initializer must be a const-expression or an override-expression")]
    InitializerExprType,
    /// The initializer has a type other than the variable's.
    #[error("the initializer has another type than the variable")]
    InitializerType,
    /// The address space does not allow an initializer.
    #[error("variables in address space {0:?} cannot have an initializer")]
    InitializerNotAllowed(AddressSpace),
    /// Storage buffers cannot be write-only.
    #[error("storage buffers cannot be write-only")]
    StorageAddressSpaceWriteOnlyNotSupported,
    /// The type is not allowed for immediate data.
    #[error("{0}")]
    InvalidImmediateType(ImmediateError),
    /// A task payload cannot have size zero.
    #[error("a task payload cannot have size zero")]
    ZeroSizedTaskPayload,
    /// Memory decorations are only allowed in the `Storage` address space.
    #[error("memory decorations are only for variables in the address space Storage")]
    InvalidMemoryDecorationsAddressSpace,
    /// Coherent memory is not supported.
    #[error("coherent memory is not supported")]
    CoherentNotSupported,
    /// Volatile memory is not supported.
    #[error("volatile memory is not supported")]
    VolatileNotSupported,
}
