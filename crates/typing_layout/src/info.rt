//! The info of a valid type.

use crate::type_error::{Disalignment, ImmediateError};
use crate::{Alignment, TypeFlags};
use typing_forms::ir_arena::handle::Handle;
use typing_forms::ir_types::key;

/// The alignment of a type within a buffer; or why the host can't share it, and the inner type at fault (naga's
/// `LayoutCompatibility`).
pub type LayoutCompatibility = Result<Alignment, (Handle<key::IrType>, Disalignment)>;

/// The info of a valid type (naga's `TypeInfo`).
#[derive(Clone, Copy, Debug)]
pub struct TypeInfo {
    /// The type flags.
    pub flags: TypeFlags,
    /// Its layout in uniform buffers, or why it can't be there.
    pub uniform_layout: LayoutCompatibility,
    /// Its layout in storage buffers, or why it can't be there.
    pub storage_layout: LayoutCompatibility,
    /// Whether immediate data may have the type, or why not.
    pub immediates_compatibility: Result<(), ImmediateError>,
}
