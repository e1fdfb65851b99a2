// Mesh outputs: a struct in workgroup memory, with an array of vertices and one of primitives. An output variable becomes a member of each
// vertex or primitive, and a block several of them.

use ir_arena::handle::Handle;
use ir_arena::span::Span;
use ir_flags::{Capabilities, MemoryDecorations};
use ir_items::{GlobalVariable, MeshStageInfo};
use ir_kinds::{
    AddressSpace, Binding, BuiltIn, MeshOutputTopology, Scalar, ScalarKind, VectorSize,
};
use ir_types::{ArraySize, StructMember, TypeInner};
use spirv_declarations::{Budget, Declared, MeshPart, Variables, between, locations_of, words_of};
use spirv_numbers::{numbers, ops};
use spirv_tables::{
    Decorated, Demands, Layout, MeshMember, is_unsigned, round_up, scalar_layout, vector_layout,
    with_default,
};
use spirv_types::{Reading, Shape, TypeHandle, Types, insert, span_of, vector_type};
use spirv_words::{Failure, Feature, Instruction, Listing, SpirvError, Unsupported, text_length};
use std::alloc::Global;

// The members of a struct that is composed, and how it lies in memory so far.
#[derive(Drop)]
struct Members {
    all: Vec<StructMember>,
    layout: Layout,
    // the members and words of names that may still be made
    budget: Budget,
}

// The output of all vertices or primitives.
#[derive(Clone, Copy)]
struct GivenArray {
    // the element type
    element: TypeHandle,
    ty: TypeHandle,
    layout: Layout,
}

impl Members {
    // None yet, in a module of this many words.
    fn new(alloc: Global, words: usize) -> Members {
        Members {
            all: Vec::new(alloc),
            layout: Layout::NONE,
            budget: Budget::of_rest(words),
        }
    }

    // A member more, after those that are there; returns its index.
    fn add(
        &mut self,
        name: Option<String>,
        ty: TypeHandle,
        binding: Binding,
        layout: &Layout,
        span: Span,
        failed: &mut Failure,
    ) -> u32 {
        let index = self.all.len();
        let spent = words_of(&name).saturating_add(1);
        failed.take(self.budget.spend(spent, span), ());
        let begin = layout.round(self.layout.size);
        let offset = u32::try_from(begin).unwrap_or(u32::MAX);
        let member = StructMember {
            name,
            ty,
            binding: Some(binding),
            offset,
        };
        failed.push(&mut self.all, member);
        self.layout.size = begin.saturating_add(layout.size);
        self.layout.alignment = self.layout.alignment.max(layout.alignment);
        u32::try_from(index).unwrap_or(u32::MAX)
    }

    // Whether one of them has the vertex indices of a primitive.
    fn has_index(&self) -> bool {
        for member in &self.all {
            if let Some(
                Binding::BuiltIn(
                    BuiltIn::PointIndex | BuiltIn::LineIndices | BuiltIn::TriangleIndices,
                ),
            ) = member.binding
            {
                return true;
            }
        }
        false
    }

    // Adds the member for the vertex indices, which the IR requires even where nothing is stored into it.
    fn add_index<T: Types>(
        &mut self,
        built: &mut T,
        topology: MeshOutputTopology,
        span: Span,
        failed: &mut Failure,
    ) {
        let size = match topology {
            MeshOutputTopology::Points => None,
            MeshOutputTopology::Lines => Some(VectorSize::Bi),
            MeshOutputTopology::Triangles => Some(VectorSize::Tri),
        };
        let ty = failed.take(vector_type(built, size, Scalar::U32), Handle::at(0));
        let layout = match size {
            Some(size) => vector_layout(size, Scalar::U32),
            None => scalar_layout(Scalar::U32),
        };
        let binding = Binding::BuiltIn(topology.to_builtin());
        self.add(None, ty, binding, &layout, span, failed);
    }

    // The struct of the members, and its layout.
    fn finish<T: Types>(
        self,
        built: &mut T,
        entry: &Instruction,
        failed: &mut Failure,
    ) -> (TypeHandle, Layout) {
        let Members {
            all: members,
            mut layout,
            budget: _,
        } = self;
        layout.size = round_up(layout.size, layout.alignment);
        let span = u32::try_from(layout.size).unwrap_or(u32::MAX);
        if u64::from(span) != layout.size {
            failed.fail(entry.unsupported_by(Feature::LargeStruct));
        }
        let inner = TypeInner::Struct { members, span };
        (insert(built, inner, span_of(entry), failed), layout)
    }

    // An array of this many structs of them.
    fn finish_array<T: Types>(
        self,
        built: &mut T,
        entry: &Instruction,
        count: u32,
        failed: &mut Failure,
    ) -> GivenArray {
        let (element, mut layout) = self.finish(built, entry, failed);
        let inner = TypeInner::Array {
            base: element,
            size: ArraySize::Constant(count),
            stride: u32::try_from(layout.size).unwrap_or(u32::MAX),
        };
        layout.size = layout.size.saturating_mul(u64::from(count));
        GivenArray {
            element,
            ty: insert(built, inner, span_of(entry), failed),
            layout,
        }
    }
}

// A text as a name.
fn named(alloc: Global, text: &str, failed: &mut Failure) -> Option<String> {
    match String::from_str(alloc, text) {
        Ok(name) => Some(name),
        Err(_) => {
            failed.fail(SpirvError::Memory);
            None
        }
    }
}

// The topology of primitives, and the most vertices and primitives of an output.
fn most_of(
    listing: &Listing,
    entry: &Instruction,
    failed: &mut Failure,
) -> (MeshOutputTopology, u32, u32) {
    let (mut topology, mut vertices, mut primitives) = (None, 0, 0);
    for place in listing.modes(listing.operand(entry, 1).unwrap_or(0)) {
        let mode = listing.at(*place);
        let count = listing.operand(&mode, 2).unwrap_or(0);
        match listing.operand(&mode, 1).unwrap_or(u32::MAX) {
            numbers::MODE_OUTPUT_VERTICES => vertices = count,
            numbers::MODE_OUTPUT_PRIMITIVES_EXT => primitives = count,
            numbers::MODE_OUTPUT_POINTS => topology = Some(MeshOutputTopology::Points),
            numbers::MODE_OUTPUT_LINES_EXT => topology = Some(MeshOutputTopology::Lines),
            numbers::MODE_OUTPUT_TRIANGLES_EXT => topology = Some(MeshOutputTopology::Triangles),
            _ => {}
        }
    }
    if topology.is_none() || vertices == 0 || primitives == 0 {
        failed.fail(entry.unsupported_by(Feature::MeshCounts));
    }
    let topology = topology.unwrap_or(MeshOutputTopology::Triangles);
    (topology, vertices, primitives)
}

// The only mesh stage, if there is one.
fn mesh_entry(listing: &Listing, failed: &mut Failure) -> Option<Instruction> {
    let mut found = None;
    for place in &listing.parts.entry_points {
        let entry = listing.at(*place);
        if listing.operand(&entry, 0) == Some(numbers::MODEL_MESH_EXT) {
            if found.is_some() {
                failed.fail(entry.unsupported_by(Feature::MeshStages));
            }
            found = Some(entry);
        }
    }
    found
}

// Whether a decoration is `PerPrimitiveEXT`.
fn is_of_primitive(said: &Decorated) -> bool {
    said.per_primitive
        || matches!(
            said.built_in,
            Some(
                numbers::BUILT_IN_PRIMITIVE_ID
                    | numbers::BUILT_IN_PRIMITIVE_POINT_INDICES_EXT
                    | numbers::BUILT_IN_PRIMITIVE_LINE_INDICES_EXT
                    | numbers::BUILT_IN_PRIMITIVE_TRIANGLE_INDICES_EXT
                    | numbers::BUILT_IN_CULL_PRIMITIVE_EXT
            )
        )
}

// An output variable of a mesh stage, or a member of a block that is one.
#[derive(Clone, Copy)]
struct Output {
    instruction: Instruction,
    // its decorations
    said: Decorated,
    // its type for each vertex or primitive
    ty: u32,
    shape: Shape,
}

impl Output {
    // The output of a variable.
    fn of(
        reading: &Reading,
        declared: &Declared,
        instruction: &Instruction,
        failed: &mut Failure,
    ) -> Output {
        let id = instruction.id;
        if reading.scan.is_of_other(id) {
            failed.fail(instruction.unsupported_by(Feature::MeshShared));
        }
        let said = Decorated::of(&reading.listing, id, None);
        if said.component.is_some() {
            let what = Unsupported::Decoration(numbers::DECORATION_COMPONENT);
            failed.fail(instruction.unsupported_as(what));
        }
        let begins = reading.listing.operand(instruction, 1).is_some();
        let ty = match declared.types.shape(pointee_of(declared, instruction)) {
            Shape::Array { element, .. } if !begins => element,
            _ => {
                failed.fail(instruction.unsupported_by(Feature::MeshArray));
                0
            }
        };
        Output {
            instruction: *instruction,
            said,
            ty,
            shape: declared.types.shape(ty),
        }
    }

    // The member of a block at this index, with these decorations.
    fn member(&self, declared: &Declared, said: Decorated, place: u32) -> Output {
        let ty = match declared.types.member(self.ty, place) {
            Some(member) => member.ty,
            None => 0,
        };
        Output {
            instruction: self.instruction,
            said,
            ty,
            shape: declared.types.shape(ty),
        }
    }

    // Its binding.
    fn binding(&self, demands: &mut Demands, failed: &mut Failure) -> Option<Binding> {
        let binding = with_default(self.said.bound(demands), self.shape.kind());
        if binding.is_none() {
            failed.fail(match self.said.built_in {
                Some(number) => self
                    .instruction
                    .unsupported_as(Unsupported::BuiltIn(number)),
                None => self.instruction.unsupported_by(Feature::UnboundVarying),
            });
        }
        binding
    }

    // Whether it is signed in SPIR-V but not in the IR.
    fn is_signed_alone(&self, binding: &Binding) -> bool {
        self.shape.kind() == Some(ScalarKind::Sint)
            && matches!(binding, Binding::BuiltIn(built_in) if is_unsigned(*built_in))
    }
}

// The type of what a variable holds.
fn pointee_of(declared: &Declared, variable: &Instruction) -> u32 {
    match declared.types.shape(variable.ty) {
        Shape::Pointer { to, .. } => to,
        _ => 0,
    }
}

// The outputs of a mesh stage per vertex and per primitive.
#[derive(Drop)]
struct Given {
    vertex: Members,
    primitive: Members,
}

/// Builds the variable that holds all outputs of the module's mesh stage, if there is one.
pub fn declare_mesh<T: Types, V: Variables>(
    reading: &Reading,
    declared: &mut Declared,
    built: &mut T,
    variables: &mut V,
    failed: &mut Failure,
) -> Option<MeshStageInfo> {
    let listing = &reading.listing;
    let entry = mesh_entry(listing, failed)?;
    let mut given = Given {
        vertex: Members::new(reading.alloc, listing.words.len()),
        primitive: Members::new(reading.alloc, listing.words.len()),
    };
    let rest = listing.operands_from(&entry, 2);
    for id in rest.get(text_length(rest)..).unwrap_or(&[]) {
        let variable = listing.defined(*id);
        let is_output = variable.opcode == ops::VARIABLE
            && listing.operand(&variable, 0) == Some(numbers::CLASS_OUTPUT);
        if failed.first.is_none() && is_output && declared.variables.of(*id).is_none() {
            given.take(reading, declared, built, &variable, failed);
        }
    }
    Some(given.finish(reading, declared, built, variables, &entry, failed))
}

impl Given {
    // The output of a variable.
    fn take<T: Types>(
        &mut self,
        reading: &Reading,
        declared: &mut Declared,
        built: &mut T,
        instruction: &Instruction,
        failed: &mut Failure,
    ) {
        let mut output = Output::of(reading, declared, instruction, failed);
        let block = match output.shape {
            Shape::Struct { count, .. } => Some(count),
            _ => None,
        };
        if block.is_some() {
            let first = between(reading, &output.said, output.ty, 0);
            output.said.per_primitive |= is_of_primitive(&first);
        }
        output.said.per_primitive |= is_of_primitive(&output.said);
        let part = MeshPart {
            of_primitive: output.said.per_primitive,
            first: declared.variables.next_member(),
        };
        let members = if part.of_primitive {
            &mut self.primitive
        } else {
            &mut self.vertex
        };
        match block {
            Some(count) => members.take_block(reading, declared, built, &output, count, failed),
            None => {
                let name = reading.listing.name(reading.alloc, instruction.id, None);
                members.take(declared, built, &output, failed.take(name, None), failed);
            }
        }
        let ty = pointee_of(declared, instruction);
        let whole = failed.take(declared.types.need(ty, instruction), Handle::at(0));
        declared
            .variables
            .add_output(instruction.id, ty, whole, part, failed);
    }

    // The variable that holds all outputs.
    fn finish<T: Types, V: Variables>(
        self,
        reading: &Reading,
        declared: &mut Declared,
        built: &mut T,
        variables: &mut V,
        entry: &Instruction,
        failed: &mut Failure,
    ) -> MeshStageInfo {
        let alloc = reading.alloc;
        let (topology, max_vertices, max_primitives) = most_of(&reading.listing, entry, failed);
        ask_for(&mut declared.demands, topology);
        let Given {
            vertex,
            mut primitive,
        } = self;
        if !primitive.has_index() {
            primitive.add_index(built, topology, span_of(entry), failed);
        }
        let vertices = vertex.finish_array(built, entry, max_vertices, failed);
        let primitives = primitive.finish_array(built, entry, max_primitives, failed);
        let ty = outputs_type(alloc, built, entry, &vertices, &primitives, failed);
        let added = variables.add(outputs_of(alloc, ty, failed), span_of(entry));
        let output_variable = failed.take(added, Handle::at(0));
        declared
            .variables
            .place_outputs(output_variable, ty, failed);
        MeshStageInfo {
            topology,
            max_vertices,
            max_vertices_override: None,
            max_primitives,
            max_primitives_override: None,
            vertex_output_type: vertices.element,
            primitive_output_type: primitives.element,
            output_variable,
        }
    }
}

// Notes that the module has a mesh stage with this topology.
fn ask_for(demands: &mut Demands, topology: MeshOutputTopology) {
    demands.ask(Capabilities::MESH_SHADER);
    if topology == MeshOutputTopology::Points {
        demands.ask(Capabilities::MESH_SHADER_POINT_TOPOLOGY);
    }
}

// The type of all outputs.
fn outputs_type<T: Types>(
    alloc: Global,
    built: &mut T,
    entry: &Instruction,
    vertices: &GivenArray,
    primitives: &GivenArray,
    failed: &mut Failure,
) -> TypeHandle {
    let word = failed.take(vector_type(built, None, Scalar::U32), Handle::at(0));
    let of_word = scalar_layout(Scalar::U32);
    let rows = [
        ("vertices", vertices.ty, BuiltIn::Vertices, vertices.layout),
        (
            "primitives",
            primitives.ty,
            BuiltIn::Primitives,
            primitives.layout,
        ),
        ("vertex_count", word, BuiltIn::VertexCount, of_word),
        ("primitive_count", word, BuiltIn::PrimitiveCount, of_word),
    ];
    let mut all = Members::new(alloc, 0);
    for (text, ty, built_in, layout) in &rows {
        let name = named(alloc, text, failed);
        let binding = Binding::BuiltIn(*built_in);
        all.add(name, *ty, binding, layout, span_of(entry), failed);
    }
    let (ty, _) = all.finish(built, entry, failed);
    ty
}

// The variable that holds all outputs.
fn outputs_of(alloc: Global, ty: TypeHandle, failed: &mut Failure) -> GlobalVariable {
    GlobalVariable {
        name: named(alloc, "mesh_outputs", failed),
        space: AddressSpace::WorkGroup,
        binding: None,
        ty,
        init: None,
        memory_decorations: MemoryDecorations(0),
    }
}

impl Members {
    // The outputs of the members of a block.
    fn take_block<T: Types>(
        &mut self,
        reading: &Reading,
        declared: &mut Declared,
        built: &mut T,
        block: &Output,
        count: u32,
        failed: &mut Failure,
    ) {
        let mut location = block.said.location;
        for place in 0..count {
            if failed.first.is_some() {
                break;
            }
            let spent = self.budget.spend(1, span_of(&block.instruction));
            failed.take(spent, ());
            let mut said = between(reading, &block.said, block.ty, place);
            match said.built_in {
                Some(number) if !reading.uses.touches(number) => {
                    declared.variables.add_member(MeshMember::NONE, failed);
                    continue;
                }
                Some(_) => {}
                None => {
                    said.location = said.location.or(location);
                    let count = locations_of(&declared.types, block.ty, place);
                    location = said.location.and_then(|here| here.checked_add(count));
                }
            }
            let member = block.member(declared, said, place);
            let name = reading.listing.name(reading.alloc, block.ty, Some(place));
            self.take(declared, built, &member, failed.take(name, None), failed);
        }
    }

    // The output of a variable that is no block, or of a member of a block.
    fn take<T: Types>(
        &mut self,
        declared: &mut Declared,
        built: &mut T,
        output: &Output,
        name: Option<String>,
        failed: &mut Failure,
    ) {
        let Some(binding) = output.binding(&mut declared.demands, failed) else {
            drop(name);
            return;
        };
        let unsigned = output.is_signed_alone(&binding);
        let ty = if unsigned {
            vector_type(built, output.shape.size(), Scalar::U32)
        } else {
            declared.types.need(output.ty, &output.instruction)
        };
        let ty = failed.take(ty, Handle::at(0));
        let layout = declared.types.layout(output.ty);
        let span = span_of(&output.instruction);
        let index = Some(self.add(name, ty, binding, &layout, span, failed));
        declared
            .variables
            .add_member(MeshMember { index, unsigned }, failed);
    }
}
