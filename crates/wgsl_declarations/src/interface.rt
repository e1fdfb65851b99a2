// Bindings of arguments, results and members.

use crate::attributes::{check, find, number, whole_extent, word_of};
use crate::builder::ModuleBuilder;
use ir_flags::Capabilities;
use ir_kinds::{Binding, BuiltIn, Interpolation, Sampling, ScalarKind};
use wgsl_expressions::Lowering;
use wgsl_text::{Extent, WgslError};
use wgsl_tree::{Attribute, Part};
use wgsl_types::Shape;
use wgsl_words::{AttributeWord, built_in_of, interpolation_of, sampling_of};

// The binding of a built-in value.
fn built_in<B: ModuleBuilder>(
    lowering: &mut Lowering<B>,
    attribute: &Attribute,
    part: Part,
) -> Option<Binding> {
    let (name, extent) = word_of(lowering, attribute, 0)?;
    let found = built_in_of(lowering.tree.tokens.word(name));
    let invariant = find(lowering, part, AttributeWord::Invariant).is_some();
    match found {
        Some(BuiltIn::Position { .. }) => Some(Binding::BuiltIn(BuiltIn::Position { invariant })),
        Some(built_in) => {
            require_built_in(lowering, built_in, extent);
            Some(Binding::BuiltIn(built_in))
        }
        None => {
            lowering.fail(WgslError::of_name("unknown builtin: ", extent, ""));
            None
        }
    }
}

// The extension that a built-in value requires: its capability, and the error if it is not enabled.
fn extension_of(built_in: BuiltIn) -> Option<(Capabilities, &'static str)> {
    match built_in {
        BuiltIn::PrimitiveIndex => Some((
            Capabilities::PRIMITIVE_INDEX,
            "the `primitive_index` enable extension is not enabled",
        )),
        BuiltIn::ClipDistances => Some((
            Capabilities::CLIP_DISTANCES,
            "the `clip_distances` enable extension is not enabled",
        )),
        BuiltIn::DrawIndex => Some((
            Capabilities::DRAW_INDEX,
            "the `draw_index` enable extension is not enabled",
        )),
        BuiltIn::CullPrimitive
        | BuiltIn::PointIndex
        | BuiltIn::LineIndices
        | BuiltIn::TriangleIndices
        | BuiltIn::VertexCount
        | BuiltIn::Vertices
        | BuiltIn::PrimitiveCount
        | BuiltIn::Primitives => Some((
            Capabilities::MESH_SHADER,
            "the `wgpu_mesh_shader` enable extension is not enabled",
        )),
        _ => None,
    }
}

// Checks that the extension for a built-in value is enabled, and records the capability that it requires.
fn require_built_in<B: ModuleBuilder>(
    lowering: &mut Lowering<B>,
    built_in: BuiltIn,
    extent: Extent,
) {
    if matches!(built_in, BuiltIn::SampleIndex) {
        lowering.builder.require(Capabilities::MULTISAMPLED_SHADING);
    }
    if let Some((capability, text)) = extension_of(built_in) {
        if lowering.tree.enabled.0 & capability.0 == 0 {
            lowering.wrong(text, extent);
        }
    }
}

// The interpolation and sampling of an `@interpolate` attribute.
fn interpolation<B: ModuleBuilder>(
    lowering: &mut Lowering<B>,
    attribute: &Attribute,
) -> (Option<Interpolation>, Option<Sampling>) {
    let mut found = (None, None);
    if let Some((name, extent)) = word_of(lowering, attribute, 0) {
        found.0 = interpolation_of(lowering.tree.tokens.word(name));
        if found.0.is_none() {
            lowering.fail(WgslError::of_name("unknown interpolation: ", extent, ""));
        }
    }
    if let Some((name, extent)) = word_of(lowering, attribute, 1) {
        found.1 = sampling_of(lowering.tree.tokens.word(name));
        if found.1.is_none() {
            lowering.fail(WgslError::of_name("unknown sampling: ", extent, ""));
        }
    }
    found
}

// The binding of a location: the default interpolation of floats is `Perspective`.
fn located<B: ModuleBuilder>(
    lowering: &mut Lowering<B>,
    attribute: &Attribute,
    part: Part,
    shape: Shape,
) -> Binding {
    let location = number(lowering, attribute);
    let said = find(lowering, part, AttributeWord::Interpolate);
    let (mut interpolation, mut sampling) = match said {
        Some(said) => interpolation(lowering, &said),
        None => (None, None),
    };
    let is_float = match shape.scalar() {
        Some(scalar) => scalar.kind == ScalarKind::Float,
        None => false,
    };
    if is_float && interpolation.is_none() {
        interpolation = Some(Interpolation::Perspective);
    }
    let is_between = matches!(
        interpolation,
        Some(Interpolation::Perspective | Interpolation::Linear)
    );
    if is_between && sampling.is_none() {
        sampling = Some(Sampling::Center);
    }
    if sampling == Some(Sampling::Sample) {
        lowering.builder.require(Capabilities::MULTISAMPLED_SHADING);
    }
    let blend = find(lowering, part, AttributeWord::BlendSrc);
    let blend_src = match blend {
        Some(attribute) => Some(number(lowering, &attribute)),
        None => None,
    };
    Binding::Location {
        location,
        interpolation,
        sampling,
        blend_src,
        per_primitive: find(lowering, part, AttributeWord::PerPrimitive).is_some(),
    }
}

// The binding from the attributes of a value of this type, if they specify one.
pub(crate) fn bound<B: ModuleBuilder>(
    lowering: &mut Lowering<B>,
    part: Part,
    shape: Shape,
) -> Option<Binding> {
    check(lowering, part, true);
    let builtin = find(lowering, part, AttributeWord::Builtin);
    let location = find(lowering, part, AttributeWord::Location);
    let interpolated = find(lowering, part, AttributeWord::Interpolate);
    let invariant = find(lowering, part, AttributeWord::Invariant);
    let is_wrong = match (builtin, location) {
        (Some(_), Some(_)) => true,
        (Some(_), None) => interpolated.is_some(),
        (None, Some(_)) => invariant.is_some(),
        (None, None) => interpolated.is_some() || invariant.is_some(),
    };
    if is_wrong {
        let extent = match lowering.tree.attributes.get(part.start as usize).copied() {
            Some(attribute) => whole_extent(lowering, &attribute),
            None => Extent::NONE,
        };
        lowering.wrong("input/output binding is not consistent", extent);
        return None;
    }
    if let Some(attribute) = builtin {
        return built_in(lowering, &attribute, part);
    }
    let attribute = location?;
    Some(located(lowering, &attribute, part, shape))
}
