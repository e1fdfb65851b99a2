//! The checks of image types, acceleration structures and ray queries.

ghost use Rattle.std.specs.Prelude.{MatchResult};
ghost use Rattle.typing_layout.specs.judged.Images.{ImageOK, VertexReturnOK, AccelerationStructureOK, RayQueryTypeOK};
ghost use Rattle.module_type_checks.specs.Images.{IsVerticesFault};
ghost use Rattle.typing_layout.specs.found.Faults.{IsImageFault, IsStructureFault, IsQueryFault};

use bitflags::Flags;
use ir_flags::Capabilities;
use ir_kinds::{ImageClass, ImageDimension};
use typing_layout::TypeError;

// Whether an external image is allowed.
fn check_external(
    capabilities: Capabilities,
    dim: ImageDimension,
    arrayed: bool,
) -> Result<(), TypeError>
    ensures { MatchResult result (λ _. ImageOK capabilities dim arrayed ImageClass.External) (IsImageFault capabilities dim arrayed ImageClass.External) }
{
    if dim != ImageDimension::D2 || arrayed {
        return Err(TypeError::UnsupportedImageType {
            dim,
            arrayed,
            class: ImageClass::External,
        });
    }
    if !capabilities.contains(Capabilities::TEXTURE_EXTERNAL) {
        return Err(TypeError::MissingCapability(Capabilities::TEXTURE_EXTERNAL));
    }
    Ok(())
}

/// Whether an image type is valid.
pub(crate) fn check_image(
    capabilities: Capabilities,
    dim: ImageDimension,
    arrayed: bool,
    class: ImageClass,
) -> Result<(), TypeError>
    ensures { MatchResult result (λ _. ImageOK capabilities dim arrayed class) (IsImageFault capabilities dim arrayed class) }
{
    if class == ImageClass::External {
        return check_external(capabilities, dim, arrayed);
    }
    match dim {
        ImageDimension::Cube => {
            if arrayed && !capabilities.contains(Capabilities::CUBE_ARRAY_TEXTURES) {
                return Err(TypeError::MissingCapability(Capabilities::CUBE_ARRAY_TEXTURES));
            }
            Ok(())
        }
        ImageDimension::D3 => {
            if arrayed || class.is_depth() {
                return Err(TypeError::UnsupportedImageType {
                    dim,
                    arrayed,
                    class,
                });
            }
            Ok(())
        }
        ImageDimension::D1 | ImageDimension::D2 => Ok(()),
    }
}

// Whether vertex return is allowed, if a type requires it.
fn check_vertices(capabilities: Capabilities, vertex_return: bool) -> Result<(), TypeError>
    ensures { MatchResult result (λ _. VertexReturnOK capabilities vertex_return) (IsVerticesFault capabilities vertex_return) }
{
    if vertex_return && !capabilities.contains(Capabilities::RAY_HIT_VERTEX_POSITION) {
        return Err(TypeError::MissingCapability(Capabilities::RAY_HIT_VERTEX_POSITION));
    }
    Ok(())
}

/// Whether an acceleration structure is allowed.
pub(crate) fn check_structure(
    capabilities: Capabilities,
    vertex_return: bool,
) -> Result<(), TypeError>
    ensures { MatchResult result (λ _. AccelerationStructureOK capabilities vertex_return) (IsStructureFault capabilities vertex_return) }
{
    if !capabilities.contains(Capabilities::RAY_QUERY)
        && !capabilities.contains(Capabilities::RAY_TRACING_PIPELINE)
    {
        return Err(TypeError::MissingCapability(Capabilities::RAY_QUERY));
    }
    check_vertices(capabilities, vertex_return)
}

/// Whether a ray query is allowed.
pub(crate) fn check_query(capabilities: Capabilities, vertex_return: bool) -> Result<(), TypeError>
    ensures { MatchResult result (λ _. RayQueryTypeOK capabilities vertex_return) (IsQueryFault capabilities vertex_return) }
{
    if !capabilities.contains(Capabilities::RAY_QUERY) {
        return Err(TypeError::MissingCapability(Capabilities::RAY_QUERY));
    }
    check_vertices(capabilities, vertex_return)
}
