// Structs.

use crate::attributes::{arguments_extent, find, number};
use crate::builder::ModuleBuilder;
use crate::interface::bound;
use ir_types::{ArraySize, StructMember};
use wgsl_expressions::{Declared, Lowering};
use wgsl_statements::wgsl_functions::lower_steps;
use wgsl_text::Failure;
use wgsl_tree::{Item, Member, Part};
use wgsl_types::{Layout, RowKind, Shape, TypeMember};
use wgsl_words::AttributeWord;

// The maximum number of members of a struct.
const MAX_MEMBERS: u32 = 1023;

// The type that these steps denote.
pub(crate) fn shape_of<B: ModuleBuilder>(lowering: &mut Lowering<B>, steps: Part) -> Shape {
    lower_steps(lowering, steps);
    let operand = lowering.pop();
    lowering.type_of(&operand)
}

// Whether it is a runtime-sized array.
fn is_unbounded<B: ModuleBuilder>(lowering: &Lowering<B>, shape: Shape) -> bool {
    match lowering.table.row(shape) {
        Some(row) => matches!(row.kind, RowKind::Array(_, ArraySize::Dynamic)),
        None => false,
    }
}

// The layout of a member, with its `@align` and `@size`.
fn layout_of<B: ModuleBuilder>(
    lowering: &mut Lowering<B>,
    member: &Member,
    shape: Shape,
) -> Layout {
    let mut layout = lowering.table.layout(shape);
    if let Some(attribute) = find(lowering, member.attributes, AttributeWord::Align) {
        let alignment = u64::from(number(lowering, &attribute));
        let extent = arguments_extent(lowering, &attribute);
        if alignment < layout.alignment {
            lowering.wrong(
                "struct member alignment must be at least that of its type",
                extent,
            );
        }
        if alignment == 0 || alignment & alignment.saturating_sub(1) != 0 {
            lowering.wrong("struct member alignment must be a power of 2", extent);
        }
        layout.alignment = alignment.max(1);
    }
    if let Some(attribute) = find(lowering, member.attributes, AttributeWord::Size) {
        let size = u64::from(number(lowering, &attribute));
        let extent = arguments_extent(lowering, &attribute);
        if is_unbounded(lowering, shape) {
            lowering.wrong(
                "@size attribute requires a type with creation-fixed footprint",
                extent,
            );
        }
        if size < layout.size {
            lowering.wrong(
                "struct member size must be at least that of its type",
                extent,
            );
        }
        layout.size = size;
    }
    layout
}

// A struct under construction.
#[derive(Drop)]
struct Built {
    members: Vec<StructMember>,
    // the members for the table
    shapes: Vec<TypeMember>,
    layout: Layout,
}

impl Built {
    // Adds a member.
    fn add<B: ModuleBuilder>(&mut self, lowering: &mut Lowering<B>, member: &Member) {
        let extent = lowering.extent(member.token);
        let shape = shape_of(lowering, member.steps);
        let layout = layout_of(lowering, member, shape);
        let offset = layout.round(self.layout.size);
        let built = StructMember {
            name: lowering.name_at(member.token),
            ty: lowering.type_handle(shape, extent),
            binding: bound(lowering, member.attributes, shape),
            offset: u32::try_from(offset).unwrap_or(u32::MAX),
        };
        let mut failed = Failure::NONE;
        failed.push(&mut self.members, built);
        let name = member.name;
        failed.push(&mut self.shapes, TypeMember { name, shape });
        lowering.join(&failed);
        self.layout = Layout {
            size: offset.saturating_add(layout.size),
            alignment: self.layout.alignment.max(layout.alignment),
        };
    }
}

// Lowers a struct.
pub(crate) fn structure<B: ModuleBuilder>(lowering: &mut Lowering<B>, item: &Item) -> Declared {
    let extent = lowering.extent(item.token);
    if item.members.count() > MAX_MEMBERS {
        lowering.unsupported("a struct of more than 1023 members", extent);
        return Declared::Nothing;
    }
    if item.members.count() == 0 {
        lowering.wrong("structs must have at least one member", extent);
        return Declared::Nothing;
    }
    let mut built = Built {
        members: Vec::new(lowering.alloc),
        shapes: Vec::new(lowering.alloc),
        layout: Layout::NONE,
    };
    for place in item.members.start..item.members.end {
        if lowering.has_failed() {
            break;
        }
        if let Some(member) = lowering.tree.members.get(place as usize).copied() {
            built.add(lowering, &member);
        }
    }
    let Built {
        members,
        shapes,
        layout,
    } = built;
    let part = keep(lowering, &shapes);
    let whole = Layout {
        size: layout.stride(),
        alignment: layout.alignment,
    };
    let name = lowering.name_at(item.token);
    let shape = lowering
        .table
        .structure(&mut lowering.builder, name, members, part, whole, extent);
    Declared::Type(shape)
}

// Adds the members to the table.
fn keep<B: ModuleBuilder>(lowering: &mut Lowering<B>, shapes: &[TypeMember]) -> Part {
    let start = u32::try_from(lowering.table.members.len()).unwrap_or(u32::MAX);
    let mut failed = Failure::NONE;
    for member in shapes {
        failed.push(&mut lowering.table.members, *member);
    }
    lowering.join(&failed);
    Part {
        start,
        end: u32::try_from(lowering.table.members.len()).unwrap_or(u32::MAX),
    }
}
