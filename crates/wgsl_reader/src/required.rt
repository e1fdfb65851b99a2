// The capabilities that types require.

use ir_flags::Capabilities;
use ir_kinds::{ImageClass, ImageDimension};
use ir_types::TypeInner;

// The capabilities of binding arrays, which one extension enables together.
const BINDING_ARRAYS: Capabilities = Capabilities(64 | 128 | 256 | 512 | 1024);

// The capabilities that an image or a binding array requires.
pub(crate) fn required_by(inner: &TypeInner) -> Capabilities {
    match *inner {
        TypeInner::Image {
            dim: ImageDimension::Cube,
            arrayed: true,
            ..
        } => Capabilities::CUBE_ARRAY_TEXTURES,
        TypeInner::Image {
            class: ImageClass::External,
            ..
        } => Capabilities::TEXTURE_EXTERNAL,
        TypeInner::BindingArray { .. } => BINDING_ARRAYS,
        _ => Capabilities(0),
    }
}
