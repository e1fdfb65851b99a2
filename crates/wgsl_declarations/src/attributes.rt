// Attributes of declarations.

use crate::builder::ModuleBuilder;
use ir_flags::Capabilities;
use ir_kinds::{EarlyDepthTest, Literal, ResourceBinding, Scalar, ShaderStage};
use wgsl_expressions::{Declared, Lowering, Operand, Value};
use wgsl_statements::wgsl_functions::lower_steps;
use wgsl_text::{Extent, WgslError};
use wgsl_tree::{Attribute, Part, StepKind};
use wgsl_types::Shape;
use wgsl_words::{AttributeWord, depth_test_of};

// The attribute with this name in this list.
pub(crate) fn find<B: ModuleBuilder>(
    lowering: &Lowering<B>,
    part: Part,
    word: AttributeWord,
) -> Option<Attribute> {
    for place in part.start..part.end {
        match lowering.tree.attributes.get(place as usize) {
            Some(attribute) if attribute.word == word => return Some(*attribute),
            _ => {}
        }
    }
    None
}

// The value of an operand, if it is a constant that is a non-negative integer.
pub(crate) fn number_of(value: &Value) -> Option<u32> {
    let Value::Literal(literal) = value else {
        return None;
    };
    match *literal {
        Literal::I32(number) => u32::try_from(number).ok(),
        Literal::U32(number) => Some(number),
        Literal::AbstractInt(number) => u32::try_from(number).ok(),
        _ => None,
    }
}

// The arguments of an attribute.
pub(crate) fn arguments<B: ModuleBuilder>(
    lowering: &mut Lowering<B>,
    attribute: &Attribute,
) -> Vec<Operand> {
    lower_steps(lowering, attribute.steps);
    lowering.take(attribute.count)
}

// The integer that is the only argument of an attribute.
pub(crate) fn number<B: ModuleBuilder>(lowering: &mut Lowering<B>, attribute: &Attribute) -> u32 {
    let given = arguments(lowering, attribute);
    let found = match given.first() {
        Some(first) if given.len() == 1 => number_of(&first.value),
        _ => None,
    };
    let is_negative = match given.first() {
        Some(first) => matches!(
            first.value,
            Value::Literal(Literal::AbstractInt(number)) if number < 0
        ),
        None => false,
    };
    match found {
        Some(number) => number,
        None => {
            let extent = match given.first() {
                Some(first) if given.len() == 1 => first.extent,
                _ => arguments_extent(lowering, attribute),
            };
            if is_negative {
                lowering.wrong("must be non-negative (>= 0)", extent);
            }
            lowering.wrong(
                "must be a const-expression that resolves to a concrete integer scalar (`u32` or `i32`)",
                extent,
            );
            0
        }
    }
}

// The word that is the attribute's argument at this index.
pub(crate) fn word_of<B: ModuleBuilder>(
    lowering: &Lowering<B>,
    attribute: &Attribute,
    place: u32,
) -> Option<(u32, Extent)> {
    let at = attribute.steps.start.saturating_add(place);
    if at >= attribute.steps.end {
        return None;
    }
    let step = lowering.step_at(at)?;
    match step.kind {
        StepKind::Name(name) => Some((name, lowering.extent(step.token))),
        _ => None,
    }
}

// The resource binding of a variable.
pub(crate) fn binding<B: ModuleBuilder>(
    lowering: &mut Lowering<B>,
    part: Part,
) -> Option<ResourceBinding> {
    let group = find(lowering, part, AttributeWord::Group);
    let binding = find(lowering, part, AttributeWord::Binding);
    match (group, binding) {
        (Some(group), Some(binding)) => Some(ResourceBinding {
            group: number(lowering, &group),
            binding: number(lowering, &binding),
        }),
        // the parser has refused one without the other
        _ => None,
    }
}

// The span of an attribute's arguments, without the parentheses.
pub(crate) fn arguments_extent<B: ModuleBuilder>(
    lowering: &Lowering<B>,
    attribute: &Attribute,
) -> Extent {
    let first = lowering.step_at(attribute.steps.start);
    let last = lowering.step_at(attribute.steps.end.saturating_sub(1));
    match (first, last) {
        (Some(first), Some(last)) if attribute.steps.count() > 0 => {
            lowering
                .extent(first.token)
                .until(lowering.extent(last.token))
        }
        _ => lowering.extent(attribute.token),
    }
}

// The span of an attribute, with its `@`.
pub(crate) fn whole_extent<B: ModuleBuilder>(
    lowering: &Lowering<B>,
    attribute: &Attribute,
) -> Extent {
    let start = lowering.extent(attribute.token.saturating_sub(1));
    let last = lowering.step_at(attribute.steps.end.saturating_sub(1));
    match last {
        Some(last) if attribute.steps.count() > 0 => {
            start.until(lowering.extent(last.token.saturating_add(1)))
        }
        _ => start.until(lowering.extent(attribute.token)),
    }
}

// The shader stage of an attribute, if it is for one.
fn stage_of(word: AttributeWord) -> Option<ShaderStage> {
    match word {
        AttributeWord::Compute => Some(ShaderStage::Compute),
        AttributeWord::Vertex => Some(ShaderStage::Vertex),
        AttributeWord::Fragment => Some(ShaderStage::Fragment),
        AttributeWord::Task => Some(ShaderStage::Task),
        AttributeWord::Mesh => Some(ShaderStage::Mesh),
        AttributeWord::RayGeneration => Some(ShaderStage::RayGeneration),
        AttributeWord::AnyHit => Some(ShaderStage::AnyHit),
        AttributeWord::ClosestHit => Some(ShaderStage::ClosestHit),
        AttributeWord::Miss => Some(ShaderStage::Miss),
        _ => None,
    }
}

// Whether it applies to members, parameters and results.
fn is_of_members(word: AttributeWord) -> bool {
    matches!(
        word,
        AttributeWord::Align
            | AttributeWord::Size
            | AttributeWord::Builtin
            | AttributeWord::Location
            | AttributeWord::Interpolate
            | AttributeWord::Invariant
            | AttributeWord::BlendSrc
            | AttributeWord::PerPrimitive
    )
}

// The extension that an attribute requires: its capability, and the error if it is not enabled.
fn extension_of(word: AttributeWord) -> Option<(Capabilities, &'static str)> {
    match word {
        AttributeWord::BlendSrc => Some((
            Capabilities::DUAL_SOURCE_BLENDING,
            "the `dual_source_blending` enable extension is not enabled",
        )),
        AttributeWord::PerPrimitive
        | AttributeWord::Task
        | AttributeWord::Mesh
        | AttributeWord::Payload => Some((
            Capabilities::MESH_SHADER,
            "the `wgpu_mesh_shader` enable extension is not enabled",
        )),
        AttributeWord::RayGeneration
        | AttributeWord::AnyHit
        | AttributeWord::ClosestHit
        | AttributeWord::Miss
        | AttributeWord::IncomingPayload => Some((
            Capabilities::RAY_TRACING_PIPELINE,
            "the `wgpu_ray_tracing_pipeline` enable extension is not enabled",
        )),
        _ => None,
    }
}

// Checks that each attribute applies to its declaration, and that its extension is enabled.
pub(crate) fn check<B: ModuleBuilder>(lowering: &mut Lowering<B>, part: Part, members: bool) {
    for place in part.start..part.end {
        let Some(attribute) = lowering.tree.attributes.get(place as usize).copied() else {
            break;
        };
        let word = attribute.word;
        let extent = lowering.extent(attribute.token);
        if is_of_members(word) != members {
            lowering.fail(WgslError::of_name("unknown attribute: ", extent, ""));
        }
        if let Some((capability, text)) = extension_of(word) {
            if lowering.tree.enabled.0 & capability.0 == 0 {
                lowering.wrong(text, extent);
            }
        }
        if word == AttributeWord::EarlyDepthTest {
            let _ = depth_test(lowering, &attribute);
        }
    }
}

// The argument of `@early_depth_test`.
fn depth_test<B: ModuleBuilder>(
    lowering: &mut Lowering<B>,
    attribute: &Attribute,
) -> Option<EarlyDepthTest> {
    let Some((name, extent)) = word_of(lowering, attribute, 0) else {
        let extent = arguments_extent(lowering, attribute);
        lowering.wrong("expected identifier", extent);
        return None;
    };
    let found = depth_test_of(lowering.tree.tokens.word(name));
    if found.is_none() {
        lowering.fail(WgslError::of_name("unknown conservative depth: ", extent, ""));
    }
    found
}

// The early depth test of an entry point, if it has one.
pub(crate) fn early_depth_test<B: ModuleBuilder>(
    lowering: &mut Lowering<B>,
    part: Part,
) -> Option<EarlyDepthTest> {
    let attribute = find(lowering, part, AttributeWord::EarlyDepthTest)?;
    depth_test(lowering, &attribute)
}

// The shader stage of a function with the span of its attribute, if it is an entry point.
pub(crate) fn stage<B: ModuleBuilder>(
    lowering: &mut Lowering<B>,
    part: Part,
) -> Option<(ShaderStage, Extent)> {
    let mut found = None;
    for place in part.start..part.end {
        let Some(attribute) = lowering.tree.attributes.get(place as usize).copied() else {
            break;
        };
        if let Some(stage) = stage_of(attribute.word) {
            let extent = lowering.extent(attribute.token);
            if found.is_some() {
                lowering.fail(WgslError::of_name("repeated attribute: ", extent, ""));
            }
            found = Some((stage, extent));
        }
    }
    found
}

// The index of the variable that an attribute names, if there is one.
pub(crate) fn named_variable<B: ModuleBuilder>(
    lowering: &mut Lowering<B>,
    part: Part,
    word: AttributeWord,
) -> Option<u32> {
    let attribute = find(lowering, part, word)?;
    let Some((name, extent)) = word_of(lowering, &attribute, 0) else {
        let extent = arguments_extent(lowering, &attribute);
        lowering.wrong("expected identifier", extent);
        return None;
    };
    match lowering.item(name) {
        Some(Declared::Variable(number, _, _)) => Some(number),
        Some(_) => {
            lowering.wrong("expected global variable", extent);
            None
        }
        None => {
            lowering.undefined(name, extent);
            None
        }
    }
}

// The size of workgroups in one dimension. By an override it is 1: the IR does not keep the expression, which is validated as a global
// expression.
fn dimension<B: ModuleBuilder>(lowering: &mut Lowering<B>, operand: &Operand) -> u32 {
    if let Some(number) = number_of(&operand.value) {
        return number;
    }
    let is_negative = match operand.value {
        Value::Literal(Literal::AbstractInt(number)) => number < 0,
        Value::Literal(Literal::I32(number)) => number < 0,
        _ => false,
    };
    if is_negative {
        lowering.wrong("must be non-negative (>= 0)", operand.extent);
        return 1;
    }
    let is_known = lowering.known_of(operand).is_some();
    let (_, shape) = lowering.value(*operand);
    if is_known || (shape != Shape::Scalar(Scalar::I32) && shape != Shape::Scalar(Scalar::U32)) {
        lowering.wrong(
            "must be a const-expression that resolves to a concrete integer scalar (`u32` or `i32`)",
            operand.extent,
        );
    }
    1
}

// The workgroup size.
pub(crate) fn workgroup_size<B: ModuleBuilder>(
    lowering: &mut Lowering<B>,
    part: Part,
    stage: Extent,
) -> [u32; 3] {
    let Some(attribute) = find(lowering, part, AttributeWord::WorkgroupSize) else {
        lowering.wrong(
            "workgroup size is missing on compute shader entry point",
            stage,
        );
        return [1, 1, 1];
    };
    let given = arguments(lowering, &attribute);
    let mut size = [1, 1, 1];
    if let Some(fourth) = given.get(3) {
        lowering.wrong("too many arguments of `workgroup_size`", fourth.extent);
    }
    for (place, operand) in given.iter().enumerate() {
        let number = dimension(lowering, operand);
        if let Some(dimension) = size.get_mut(place) {
            *dimension = number;
        }
    }
    size
}
