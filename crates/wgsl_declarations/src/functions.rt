// Functions and entry points.

use crate::attributes::{binding, early_depth_test, find, named_variable, stage, workgroup_size};
use crate::builder::{EntryHead, ModuleBuilder};
use crate::filters::filters;
use crate::interface::bound;
use crate::structs::shape_of;
use ir_items::{FunctionArgument, FunctionResult};
use ir_kinds::ShaderStage;
use ir_types::Expression;
use wgsl_expressions::{Declared, FunctionEntry, Lowering, Value};
use wgsl_statements::lower_body;
use wgsl_text::{Extent, Failure, WgslError};
use wgsl_tree::{Item, Member, Part};
use wgsl_types::Shape;
use wgsl_words::AttributeWord;

// The members of a function declaration that are parameters.
fn argument_part(item: &Item, has_result: bool) -> Part {
    let end = if has_result {
        item.members.end.saturating_sub(1)
    } else {
        item.members.end
    };
    Part {
        start: item.members.start,
        end: end.max(item.members.start),
    }
}

// Lowers a parameter.
fn argument<B: ModuleBuilder>(
    lowering: &mut Lowering<B>,
    member: &Member,
    number: u32,
) -> (FunctionArgument, Shape) {
    let extent = lowering.extent(member.token);
    lowering.builder.set_global(true);
    let shape = shape_of(lowering, member.steps);
    lowering.builder.set_global(false);
    let made = FunctionArgument {
        name: lowering.name_at(member.token),
        ty: lowering.type_handle(shape, extent),
        binding: bound(lowering, member.attributes, shape),
    };
    let value = lowering.place(Expression::FunctionArgument(number), extent);
    let mut failed = Failure::NONE;
    if !lowering
        .scopes
        .set(member.name, Value::Computed(value, shape), &mut failed)
    {
        failed.fail(WgslError::of_name("redefinition of ", extent, ""));
    }
    failed.push(&mut lowering.arguments, shape);
    lowering.join(&failed);
    (made, shape)
}

// Lowers all parameters.
fn take_arguments<B: ModuleBuilder>(
    lowering: &mut Lowering<B>,
    part: Part,
) -> Vec<FunctionArgument> {
    let mut arguments = Vec::new(lowering.alloc);
    let mut failed = Failure::NONE;
    for place in part.start..part.end {
        if lowering.has_failed() {
            break;
        }
        if let Some(member) = lowering.tree.members.get(place as usize).copied() {
            let number = place.saturating_sub(part.start);
            let (made, _) = argument(lowering, &member, number);
            failed.push(&mut arguments, made);
        }
    }
    lowering.join(&failed);
    arguments
}

// The result of a function.
fn result_of<B: ModuleBuilder>(
    lowering: &mut Lowering<B>,
    item: &Item,
    has_result: bool,
) -> (Option<FunctionResult>, Shape) {
    if !has_result {
        return (None, Shape::None);
    }
    let last = item.members.end.saturating_sub(1);
    let Some(member) = lowering.tree.members.get(last as usize).copied() else {
        return (None, Shape::None);
    };
    let extent = lowering.extent(member.token);
    let shape = shape_of(lowering, member.steps);
    let ty = lowering.type_handle(shape, extent);
    let binding = bound(lowering, member.attributes, shape);
    (Some(FunctionResult { ty, binding }), shape)
}

// The number of parameter types in the table.
fn argument_count<B: ModuleBuilder>(lowering: &Lowering<B>) -> u32 {
    u32::try_from(lowering.arguments.len()).unwrap_or(u32::MAX)
}

// The properties of an entry point.
fn entry_head<B: ModuleBuilder>(
    lowering: &mut Lowering<B>,
    part: Part,
    stage: ShaderStage,
    size: [u32; 3],
) -> EntryHead {
    // the IR does not keep the payload of an incoming ray
    let _ = named_variable(lowering, part, AttributeWord::IncomingPayload);
    EntryHead {
        stage,
        size,
        depth_test: early_depth_test(lowering, part),
        mesh: named_variable(lowering, part, AttributeWord::Mesh),
        payload: named_variable(lowering, part, AttributeWord::Payload),
    }
}

// The workgroup size of an entry point; zeros for a function of no stage, or of one without workgroups.
fn size_in<B: ModuleBuilder>(
    lowering: &mut Lowering<B>,
    part: Part,
    stage: Option<(ShaderStage, Extent)>,
) -> [u32; 3] {
    let has_size = find(lowering, part, AttributeWord::WorkgroupSize).is_some();
    match stage {
        Some((stage, extent)) if has_size || stage.compute_like() => {
            workgroup_size(lowering, part, extent)
        }
        _ => [0, 0, 0],
    }
}

// Lowers a function.
pub(crate) fn function<B: ModuleBuilder>(
    lowering: &mut Lowering<B>,
    item: &Item,
    has_result: bool,
) -> Declared {
    let name = lowering.extent(item.token);
    let stage = stage(lowering, item.attributes);
    let _ = binding(lowering, item.attributes);
    filters(lowering, item.attributes, false);
    let size = size_in(lowering, item.attributes, stage);
    let (gives, shape) = result_of(lowering, item, has_result);
    let start = argument_count(lowering);
    lowering.builder.set_global(false);
    lowering.builder.open();
    let mut failed = Failure::NONE;
    lowering.scopes.enter(&mut failed);
    let arguments = take_arguments(lowering, argument_part(item, has_result));
    let end = argument_count(lowering);
    lower_body(lowering, item.steps, shape);
    lowering.scopes.leave();
    lowering.join(&failed);
    let title = lowering.name_at(item.token);
    let number = match stage {
        Some((stage, _)) => {
            let head = entry_head(lowering, item.attributes, stage, size);
            lowering.builder.end_entry(head, title, arguments, gives);
            None
        }
        None => Some(lowering.builder.end_function(title, arguments, gives, name)),
    };
    lowering.builder.set_global(true);
    Declared::Function(FunctionEntry {
        number,
        gives: shape,
        arguments: Part { start, end },
        must_use: find(lowering, item.attributes, AttributeWord::MustUse).is_some(),
    })
}
