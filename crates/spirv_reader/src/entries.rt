// Entry points: functions that take inputs as arguments, return outputs, and call SPIR-V's function.

use crate::body::Body;
use ir_arena::handle::{Handle, NonMaxU32};
use ir_arena::span::Span;
use ir_items::{
    EntryPoint, Expression, Function, FunctionArgument, FunctionResult, IrType, MeshStageInfo,
    Statement, StructMember, TypeInner, key,
};
use ir_kinds::{Binding, BuiltIn, ScalarKind, ShaderStage};
use spirv_bodies::{Subgroups, Writing, clone_in, copy_name, fail_in, made_in, type_in};
use spirv_declarations::{Budget, Declared, GlobalHandle, KnownVariables, scalar_kind};
use spirv_expressions::{Emits, Value, Words, keep};
use spirv_flow::{FRAGMENT_PLACE, MESH_TASKS, Order, SUBGROUP_NUMBERS};
use spirv_interface::{
    MAX_PIECES, Modes, Piece, Port, Whole, decorated_size, members_of, modes_of, pieces_of,
    ports_of, stage_of,
};
use spirv_numbers::numbers;
use spirv_tables::with_default;
use spirv_types::{Reading, TypeHandle, Types, span_of};
use spirv_words::{
    Failure, Feature, Instruction, Listing, Malformed, SpirvError, Unsupported, read_text,
};
use std::alloc::Global;

// An entry point under construction.
#[derive(Clone, Copy)]
pub(crate) struct Entry {
    pub alloc: Global,
    pub instruction: Instruction,
    pub stage: ShaderStage,
    pub span: Span,
    decorated: Option<[u32; 3]>,
    mesh: Option<MeshStageInfo>,
}

// Where an output is stored.
#[derive(Clone, Copy)]
enum From {
    // what this points to
    Pointer(Value),
    // a location that variables share
    Location(Whole),
}

// An output.
#[derive(Clone, Copy)]
struct Given {
    from: From,
    ty: TypeHandle,
    binding: Option<Binding>,
}

// The bytes of a struct that is only given (as naga's front end has it).
const SPAN: u32 = 65535;

// The most parts of locations for each variable, where locations are shared.
const PIECES_A_VARIABLE: usize = 16;

/// All entry points in order, up to the first error.
pub fn lower_entries<T: Types>(
    reading: &Reading,
    order: &Order,
    declared: &mut Declared,
    mesh: &Option<MeshStageInfo>,
    built: &mut T,
    failed: &mut Failure,
) -> Vec<EntryPoint> {
    let listing = &reading.listing;
    let mut entries = Vec::new(reading.alloc);
    let decorated = decorated_size(listing, declared, failed);
    let mut budget = Budget::of_rest(listing.words.len());
    for place in &listing.parts.entry_points {
        if failed.first.is_some() {
            break;
        }
        let instruction = listing.at(*place);
        let entry = Entry {
            alloc: reading.alloc,
            instruction,
            stage: stage_of(listing, &instruction, failed),
            span: span_of(&instruction),
            decorated,
            mesh: *mesh,
        };
        let made = entry.lower(listing, order, declared, built, &mut budget, failed);
        failed.push(&mut entries, made);
    }
    if entries.is_empty() {
        failed.fail(SpirvError::untranslated(Feature::NoEntryPoint, 0));
    }
    entries
}

impl Entry {
    // The whole entry point.
    fn lower<T: Types>(
        &self,
        listing: &Listing,
        order: &Order,
        declared: &mut Declared,
        built: &mut T,
        budget: &mut Budget,
        failed: &mut Failure,
    ) -> EntryPoint {
        let id = failed.take(listing.need(&self.instruction, 1), 0);
        let words = listing.operands_from(&self.instruction, 2);
        let modes = modes_of(listing, declared, id, failed);
        let read = read_text(self.alloc, words, self.instruction.start);
        let (name, taken) = failed.take(read, (String::new(self.alloc), 0));
        let interface = words.get(taken..).unwrap_or(&[]);
        let function = self.wrap(
            listing,
            self.callee(order, id, failed),
            interface,
            &declared.variables,
            built,
            name.as_str(),
            budget,
            failed,
        );
        EntryPoint {
            name,
            stage: self.stage,
            early_depth_test: modes.early,
            workgroup_size: self.size(&modes),
            mesh_info: match self.stage {
                ShaderStage::Mesh => self.mesh,
                _ => None,
            },
            task_payload: payload_of(&declared.variables, interface),
            function,
        }
    }

    // How many invocations a workgroup has: a constant that is decorated counts before the mode.
    fn size(&self, modes: &Modes) -> [u32; 3] {
        match self.decorated {
            Some(size) if self.stage.compute_like() => size,
            _ => modes.size,
        }
    }

    // The function with this id, among those that are built.
    fn callee(&self, order: &Order, id: u32, failed: &mut Failure) -> Handle<key::Function> {
        match order.place_of(id).and_then(NonMaxU32::new) {
            Some(place) => Handle::new(place),
            None => {
                failed.fail(self.instruction.malformed(Malformed::NoFunction));
                Handle::at(0)
            }
        }
    }

    // The wrapper function: stores its arguments, calls SPIR-V's function, and returns the outputs.
    fn wrap<T: Types>(
        &self,
        listing: &Listing,
        callee: Handle<key::Function>,
        interface: &[u32],
        variables: &KnownVariables,
        built: &mut T,
        name: &str,
        budget: &mut Budget,
        failed: &mut Failure,
    ) -> Function {
        let mut body = Body::new(self.alloc, *budget);
        fail_in(&mut body, failed);
        let name = made_in(&mut body, format!(in self.alloc; "{name}_wrap"));
        body.open();
        let arguments = self.take_inputs(listing, interface, variables, built, &mut body);
        let call = Statement::Call {
            function: callee,
            arguments: Vec::new(self.alloc),
            result: None,
        };
        body.statement(call, self.span);
        let result = self.give_outputs(listing, interface, variables, built, &mut body);
        *budget = body.budget();
        if let Some(error) = body.failure() {
            failed.fail(error);
        }
        body.into_function(name, arguments, result)
    }

    // The variables of this storage class, and the parts of locations that they are where they share some.
    fn ports<T: Types, W: Writing>(
        &self,
        listing: &Listing,
        variables: &KnownVariables,
        built: &T,
        body: &mut W,
        interface: &[u32],
        class: u32,
    ) -> (Vec<Port>, Vec<Piece>) {
        let mut failed = Failure {
            first: body.failure(),
        };
        let most = interface.len().saturating_mul(PIECES_A_VARIABLE);
        let ports = ports_of(
            self.alloc,
            listing,
            variables,
            built,
            interface,
            class,
            &mut failed,
        );
        let pieces = pieces_of(
            self.alloc,
            &ports,
            most.min(MAX_PIECES as usize),
            &mut failed,
        );
        fail_in(body, &failed);
        (ports, pieces)
    }

    // Takes the inputs as arguments, and stores each into its variable.
    fn take_inputs<T: Types, W: Writing>(
        &self,
        listing: &Listing,
        interface: &[u32],
        variables: &KnownVariables,
        built: &mut T,
        body: &mut W,
    ) -> Vec<FunctionArgument> {
        let mut arguments = Vec::new(self.alloc);
        let (ports, pieces) = self.ports(
            listing,
            variables,
            built,
            body,
            interface,
            numbers::CLASS_INPUT,
        );
        for port in &ports {
            if body.failure().is_some() {
                break;
            }
            let is_part = !pieces.is_empty() && port.piece().is_some();
            if port.varying.mask.is_none() && !is_part {
                let number = u32::try_from(arguments.len()).unwrap_or(u32::MAX);
                let argument = FunctionArgument {
                    name: copy_name(body, self.alloc, listing, port.variable.id, self.span),
                    ty: port.varying.ty,
                    binding: self.bound(ShaderStage::Fragment, port.varying.binding, port.kind),
                };
                keep(body, &mut arguments, argument);
                self.store_input(body, port, number);
            }
        }
        self.take_shared(listing, built, body, &pieces, &mut arguments);
        self.take_subgroup(variables, built, body, &ports, &mut arguments);
        arguments
    }

    // Stores what is computed from the invocation's index in its subgroup and the subgroup's size.
    fn take_subgroup<T: Types, W: Writing>(
        &self,
        variables: &KnownVariables,
        built: &mut T,
        body: &mut W,
        ports: &[Port],
        arguments: &mut Vec<FunctionArgument>,
    ) {
        let subgroups = Subgroups {
            words: Words {
                alloc: self.alloc,
                span: self.span,
            },
        };
        for port in ports {
            if body.failure().is_some() {
                break;
            }
            if let Some(mask) = port.varying.mask {
                subgroups.store_mask(built, body, arguments, &port.variable, mask);
            }
        }
        let place = variables.of(FRAGMENT_PLACE);
        if let (Some(variable), ShaderStage::Fragment) = (place, self.stage) {
            subgroups.store_place(built, body, arguments, &variable);
        }
        let Some(variable) = variables.of(SUBGROUP_NUMBERS) else {
            return;
        };
        if self.stage == ShaderStage::Vertex {
            let what = Unsupported::BuiltIn(numbers::BUILT_IN_SUBGROUP_LOCAL_INVOCATION_ID);
            body.fail(self.instruction.unsupported_as(what));
        }
        subgroups.store_numbers(built, body, arguments, &variable);
    }

    // A binding of scalars of this kind; with its interpolation in this stage.
    pub(crate) fn bound(
        &self,
        stage: ShaderStage,
        binding: Option<Binding>,
        kind: Option<ScalarKind>,
    ) -> Option<Binding> {
        if self.stage == stage {
            with_default(binding, kind)
        } else {
            binding
        }
    }

    // Stores an argument; one that is signed in SPIR-V but not in the IR is converted.
    fn store_input<W: Writing>(&self, body: &mut W, port: &Port, number: u32) {
        let mut value = body.place(Expression::FunctionArgument(number), self.span);
        if port.varying.ty != port.variable.built {
            let signed = Expression::As {
                expr: value,
                kind: ScalarKind::Sint,
                convert: Some(4),
            };
            value = body.compute(signed, self.span);
        }
        let pointer = body.place(Expression::GlobalVariable(port.variable.handle), self.span);
        body.statement(Statement::Store { pointer, value }, self.span);
    }

    // Returns the outputs.
    fn give_outputs<T: Types, W: Writing>(
        &self,
        listing: &Listing,
        interface: &[u32],
        variables: &KnownVariables,
        built: &mut T,
        body: &mut W,
    ) -> Option<FunctionResult> {
        let (ports, pieces) = self.ports(
            listing,
            variables,
            built,
            body,
            interface,
            numbers::CLASS_OUTPUT,
        );
        let mut given = Vec::new(self.alloc);
        let mut members = Vec::new(self.alloc);
        if let (ShaderStage::Task, Some(tasks)) = (self.stage, variables.of(MESH_TASKS)) {
            let pointer = body.place(Expression::GlobalVariable(tasks.handle), self.span);
            let count = Given {
                from: From::Pointer(pointer),
                ty: tasks.built,
                binding: Some(Binding::BuiltIn(BuiltIn::MeshTaskSize)),
            };
            keep(body, &mut given, count);
        }
        for port in &ports {
            if body.failure().is_some() {
                break;
            }
            if pieces.is_empty() || port.piece().is_none() {
                self.find_output(built, body, port, &mut given, &mut members);
            }
        }
        self.find_shared(built, body, &pieces, &mut given, &mut members);
        self.give(built, body, &pieces, &given, members)
    }

    // An output, as members of the result struct.
    fn find_output<T: Types, W: Writing>(
        &self,
        built: &T,
        body: &mut W,
        port: &Port,
        given: &mut Vec<Given>,
        members: &mut Vec<StructMember>,
    ) {
        let ty = port.variable.built;
        let pointer = body.place(Expression::GlobalVariable(port.variable.handle), self.span);
        if port.varying.binding.is_none() {
            self.find_members(built, body, pointer, members_of(built, ty), given, members);
            return;
        }
        let binding = self.bound(ShaderStage::Vertex, port.varying.binding, port.kind);
        let from = From::Pointer(pointer);
        keep(body, given, Given { from, ty, binding });
        keep(body, members, member(None, ty, binding, 0));
    }

    // The locations that outputs share.
    fn find_shared<T: Types, W: Writing>(
        &self,
        built: &mut T,
        body: &mut W,
        pieces: &[Piece],
        given: &mut Vec<Given>,
        members: &mut Vec<StructMember>,
    ) {
        for whole in &self.wholes(body, pieces) {
            let ty = self.whole_type(built, body, whole);
            let binding = self.whole_binding(whole, ShaderStage::Vertex);
            let from = From::Location(*whole);
            keep(body, given, Given { from, ty, binding });
            keep(body, members, member(None, ty, binding, 0));
        }
    }

    // The outputs of a struct's bound members.
    fn find_members<T: Types, W: Writing>(
        &self,
        built: &T,
        body: &mut W,
        base: Value,
        parts: &[StructMember],
        given: &mut Vec<Given>,
        members: &mut Vec<StructMember>,
    ) {
        let mut index = 0u32;
        for part in parts {
            body.spend(1, self.span);
            if body.failure().is_some() {
                break;
            }
            if part.binding.is_some() {
                let ty = part.ty;
                let pointer = body.compute(Expression::AccessIndex { base, index }, self.span);
                let kind = scalar_kind(built.inner(ty));
                let binding = self.bound(ShaderStage::Vertex, part.binding, kind);
                let from = From::Pointer(pointer);
                keep(body, given, Given { from, ty, binding });
                let name = clone_in(body, self.alloc, &part.name, self.span);
                keep(body, members, member(name, ty, binding, part.offset));
            }
            index = index.saturating_add(1);
        }
    }

    // Returns the outputs: one value as it is, several as a struct.
    fn give<T: Types, W: Writing>(
        &self,
        built: &mut T,
        body: &mut W,
        pieces: &[Piece],
        given: &[Given],
        members: Vec<StructMember>,
    ) -> Option<FunctionResult> {
        let first = given.first()?;
        let mut components = Vec::new(self.alloc);
        for each in given {
            let value = match each.from {
                From::Pointer(pointer) => body.compute(Expression::Load { pointer }, self.span),
                From::Location(whole) => self.give_whole(body, pieces, &whole, each.ty),
            };
            keep(body, &mut components, value);
        }
        let (result, value) = match components.as_slice() {
            [value] => (
                FunctionResult {
                    ty: first.ty,
                    binding: first.binding,
                },
                *value,
            ),
            _ => {
                let inner = TypeInner::Struct {
                    members,
                    span: SPAN,
                };
                let made = built.insert(IrType { name: None, inner }, self.span);
                let ty = type_in(body, made);
                let whole = body.compute(Expression::Compose { ty, components }, self.span);
                (FunctionResult { ty, binding: None }, whole)
            }
        };
        body.statement(Statement::Return { value: Some(value) }, self.span);
        Some(result)
    }
}

// The task payload among the variables of an interface.
fn payload_of(variables: &KnownVariables, interface: &[u32]) -> Option<GlobalHandle> {
    for id in interface {
        match variables.of(*id) {
            Some(variable) if variable.class == numbers::CLASS_TASK_PAYLOAD_WORKGROUP_EXT => {
                return Some(variable.handle);
            }
            _ => {}
        }
    }
    None
}

// A member of the result struct.
fn member(
    name: Option<String>,
    ty: TypeHandle,
    binding: Option<Binding>,
    offset: u32,
) -> StructMember {
    StructMember {
        name,
        ty,
        binding,
        offset,
    }
}
