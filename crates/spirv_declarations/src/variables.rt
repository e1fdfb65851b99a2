// Global variables.

use crate::declarations::Declarations;
use crate::upgrades::upgraded;
use crate::varyings::{initial, varying_of};
use ir_arena::handle::Handle;
use ir_arena::span::Span;
use ir_flags::{Capabilities, MemoryDecorations, StorageAccess};
use ir_items::GlobalVariable;
use ir_kinds::{AddressSpace, Binding, ResourceBinding, Scalar, VectorSize};
use ir_types::{ArraySize, TypeInner, key};
use spirv_constants::{Constants, ExpressionHandle};
use spirv_flow::{MESH_OUTPUTS, Use};
use spirv_numbers::{numbers, ops};
use spirv_tables::{Decorated, Demands, MeshMember, SubgroupMask};
use spirv_types::{
    ImageShape, ImageUse, Reading, Resources, Shape, TypeHandle, TypeTable, Types, image_class,
    insert, space_of, span_of, vector_type,
};
use spirv_words::{Failure, Feature, Instruction, Listing, Malformed, SpirvError, number_at};
use std::alloc::Global;
use std::collections::BTreeMap;

/// The handle of a global variable.
pub type GlobalHandle = Handle<key::GlobalVariable>;

/// What a variable passes between stages.
#[derive(Clone, Copy)]
pub struct Varying {
    /// Its binding, unless it is a struct of bound members.
    pub binding: Option<Binding>,
    /// The first component of its location, if given.
    pub component: Option<u32>,
    /// Which mask of a subgroup's invocations it is.
    pub mask: Option<SubgroupMask>,
    /// Its type as an argument or a result of an entry point.
    pub ty: TypeHandle,
}

/// A global variable.
#[derive(Clone, Copy)]
pub struct Variable {
    /// Its id.
    pub id: u32,
    /// The global variable built for it.
    pub handle: GlobalHandle,
    /// The type of its value.
    pub ty: u32,
    /// The type built for it.
    pub built: TypeHandle,
    /// Its storage class.
    pub class: u32,
    /// The sampler variable that belongs to a combined image and sampler.
    pub sampler: Option<GlobalHandle>,
    /// Its image, if it is one.
    pub image: Option<ImageUse>,
    /// What it passes between stages.
    pub varying: Option<Varying>,
    /// The mesh output that it is.
    pub mesh: Option<MeshPart>,
}

/// The mesh output that a variable is.
#[derive(Clone, Copy)]
pub struct MeshPart {
    /// Whether it is per primitive, and not per vertex.
    pub of_primitive: bool,
    /// The index of its first member among those of all mesh outputs.
    pub first: u32,
}

/// Builds the global variables of a module.
pub trait Variables {
    /// A variable.
    fn add(&mut self, variable: GlobalVariable, span: Span) -> Result<GlobalHandle, SpirvError>;
}

/// The global variables by id.
#[derive(Drop)]
pub struct KnownVariables {
    // in order
    all: Vec<Variable>,
    // by id: its index in that order plus 1, or 0
    places: Vec<u32>,
    // those without an id in the module
    hidden: Vec<Variable>,
    // the members of vertices and primitives that mesh outputs are
    members: Vec<MeshMember>,
}

impl KnownVariables {
    /// The variable with this id.
    pub fn of(&self, id: u32) -> Option<Variable> {
        if let Some(place) = number_at(&self.places, id).checked_sub(1) {
            return self.all.get(place as usize).copied();
        }
        for hidden in &self.hidden {
            if hidden.id == id {
                return Some(*hidden);
            }
        }
        None
    }

    // An empty table for ids below the bound.
    pub(crate) fn new(alloc: Global, bound: usize, failed: &mut Failure) -> KnownVariables {
        KnownVariables {
            all: Vec::new(alloc),
            places: failed.table(alloc, 0u32, bound),
            hidden: Vec::new(alloc),
            members: Vec::new(alloc),
        }
    }

    // The variable built from a draft, with its sampler.
    fn add(
        &mut self,
        draft: &Draft,
        built: &Built,
        handle: GlobalHandle,
        sampler: Option<GlobalHandle>,
        failed: &mut Failure,
    ) {
        let id = draft.instruction.id;
        let variable = Variable {
            id,
            handle,
            ty: draft.ty,
            built: built.ty,
            class: draft.class,
            sampler,
            image: built.image,
            varying: built.varying,
            mesh: None,
        };
        failed.push(&mut self.all, variable);
        self.set_last(id);
    }

    // Gives an id to the last variable.
    fn set_last(&mut self, id: u32) {
        let place = u32::try_from(self.all.len()).unwrap_or(u32::MAX);
        if let Some(at) = self.places.get_mut(id as usize) {
            *at = place;
        }
    }

    // Adds a variable without an id in the module.
    fn hide(&mut self, id: u32, handle: GlobalHandle, built: TypeHandle, failed: &mut Failure) {
        let variable = Variable {
            id,
            handle,
            ty: 0,
            built,
            class: numbers::CLASS_PRIVATE,
            sampler: None,
            image: None,
            varying: None,
            mesh: None,
        };
        failed.push(&mut self.hidden, variable);
    }

    /// The number of members of vertices and primitives that are variables.
    pub fn next_member(&self) -> u32 {
        u32::try_from(self.members.len()).unwrap_or(u32::MAX)
    }

    /// The member of a vertex or a primitive at this index.
    pub fn mesh_member(&self, place: u32) -> Option<MeshMember> {
        self.members.get(place as usize).copied()
    }

    /// A member more.
    pub fn add_member(&mut self, member: MeshMember, failed: &mut Failure) {
        failed.push(&mut self.members, member);
    }

    /// Adds a variable of this type for a mesh output.
    pub fn add_output(
        &mut self,
        id: u32,
        ty: u32,
        built: TypeHandle,
        part: MeshPart,
        failed: &mut Failure,
    ) {
        let variable = Variable {
            id,
            handle: Handle::at(0),
            ty,
            built,
            class: numbers::CLASS_OUTPUT,
            sampler: None,
            image: None,
            varying: None,
            mesh: Some(part),
        };
        failed.push(&mut self.all, variable);
        self.set_last(id);
    }

    /// Sets the variable that holds all mesh outputs, and its type.
    pub fn place_outputs(&mut self, handle: GlobalHandle, built: TypeHandle, failed: &mut Failure) {
        for variable in &mut self.all {
            if variable.mesh.is_some() {
                variable.handle = handle;
            }
        }
        self.hide(MESH_OUTPUTS, handle, built, failed);
    }
}

// The bindings in use.
#[derive(Drop)]
pub(crate) struct Bindings {
    // by group: the binding after the last one in use
    free: BTreeMap<u32, u32>,
}

impl Bindings {
    // The bindings that the variables of a module use.
    pub(crate) fn of(alloc: Global, listing: &Listing, failed: &mut Failure) -> Bindings {
        let mut all = Bindings {
            free: BTreeMap::new(alloc),
        };
        for place in &listing.parts.declarations {
            let instruction = listing.at(*place);
            if instruction.opcode == ops::VARIABLE {
                let said = Decorated::of(listing, instruction.id, None);
                if said.binding.is_some() {
                    all.take(said.set.unwrap_or(0), said.binding, failed);
                }
            }
        }
        all
    }

    // Takes a binding of a group: this one, or the next free one.
    fn take(&mut self, group: u32, wanted: Option<u32>, failed: &mut Failure) -> u32 {
        let free = self.free.get(&group).copied().unwrap_or(0);
        let binding = wanted.unwrap_or(free);
        let after = free.max(binding.saturating_add(1));
        if self.free.insert(group, after).is_err() {
            failed.fail(SpirvError::Memory);
        }
        binding
    }

    // The sampler variable of a combined image and sampler, at a free binding.
    fn sampler_beside(
        &mut self,
        reading: &Reading,
        id: u32,
        image: &Built,
        ty: TypeHandle,
        failed: &mut Failure,
    ) -> GlobalVariable {
        let group = match image.binding {
            Some(resource) => resource.group,
            None => 0,
        };
        let binding = self.take(group, None, failed);
        let name = sampler_name(reading.alloc, &reading.listing, id);
        let name = failed.take(name, String::new(reading.alloc));
        let mut sampler = Built::of(ty, AddressSpace::Handle);
        sampler.binding = Some(ResourceBinding { group, binding });
        sampler.global(Some(name), None)
    }
}

// A variable under construction.
#[derive(Clone, Copy)]
pub(crate) struct Draft {
    pub instruction: Instruction,
    pub class: u32,
    pub ty: u32,
    pub shape: Shape,
    pub said: Decorated,
    pub used: Use,
}

// The variable, without name and initial value.
#[derive(Clone, Copy)]
pub(crate) struct Built {
    pub ty: TypeHandle,
    pub space: AddressSpace,
    pub decorations: MemoryDecorations,
    pub binding: Option<ResourceBinding>,
    // its image, and the type of its sampler
    pub image: Option<ImageUse>,
    pub sampler: Option<TypeHandle>,
    pub varying: Option<Varying>,
}

impl Built {
    // A variable of this type in this space.
    pub(crate) fn of(ty: TypeHandle, space: AddressSpace) -> Built {
        Built {
            ty,
            space,
            decorations: MemoryDecorations(0),
            binding: None,
            image: None,
            sampler: None,
            varying: None,
        }
    }

    // The finished variable, with this name and initial value.
    fn global(&self, name: Option<String>, init: Option<ExpressionHandle>) -> GlobalVariable {
        GlobalVariable {
            name,
            space: self.space,
            binding: self.binding,
            ty: self.ty,
            init,
            memory_decorations: self.decorations,
        }
    }
}

impl Draft {
    // The declaration of a variable.
    fn of(
        reading: &Reading,
        types: &TypeTable,
        instruction: &Instruction,
        failed: &mut Failure,
    ) -> Draft {
        let class = failed.take(reading.listing.need(instruction, 0), 0);
        let ty = match types.shape(instruction.ty) {
            Shape::Pointer { to, .. } => to,
            _ => {
                failed.fail(instruction.malformed(Malformed::NoPointer));
                0
            }
        };
        Draft {
            instruction: *instruction,
            class,
            ty,
            shape: types.shape(ty),
            said: Decorated::of(&reading.listing, instruction.id, None),
            used: reading.uses.of(instruction.id),
        }
    }

    fn resource(&self) -> Option<ResourceBinding> {
        Some(ResourceBinding {
            group: self.said.set?,
            binding: self.said.binding?,
        })
    }

    // Its elements, of an array; of nested arrays of resources, of all of them together.
    fn elements(&self, types: &TypeTable) -> Option<Resources> {
        match (types.resources(self.ty), self.shape) {
            (Some(all), _) => Some(all),
            (None, Shape::Array { element, size, .. }) => Some(Resources { element, size }),
            (None, _) => None,
        }
    }

    // The image with the class in which it is used.
    fn image_use(&self, shape: ImageShape) -> ImageUse {
        let mut access = StorageAccess(0);
        if shape.format.is_some() {
            access = self.said.access();
            if self.used.atomic {
                access = StorageAccess(access.0 | StorageAccess::ATOMIC.0);
            }
        }
        let class = image_class(&shape, self.used, access);
        ImageUse { shape, class }
    }
}

impl<T: Types, C: Constants, V: Variables> Declarations<T, C, V> {
    // A variable of this many words by which entry points and functions pass values, without an id in the module.
    pub(crate) fn add_hidden(&mut self, id: u32, size: VectorSize, failed: &mut Failure) {
        let words = vector_type(&mut self.built, Some(size), Scalar::U32);
        let ty = failed.take(words, Handle::at(0));
        let hidden = Built::of(ty, AddressSpace::Private).global(None, None);
        let added = self.built_variables.add(hidden, Span::UNDEFINED);
        let handle = failed.take(added, Handle::at(0));
        self.variables.hide(id, handle, ty, failed);
    }

    // Builds a declared variable.
    pub(crate) fn declare_variable(
        &mut self,
        reading: &Reading,
        instruction: &Instruction,
    ) -> Result<(), SpirvError> {
        let mut failed = Failure::NONE;
        let types = &self.types;
        let built = &mut self.built;
        let demands = &mut self.demands;
        let draft = Draft::of(reading, types, instruction, &mut failed);
        let of_mesh = reading.scan.is_of_mesh(instruction.id);
        // a local of the function that names it, or a mesh output
        if matches!(draft.shape, Shape::RayQuery)
            || of_mesh && draft.class == numbers::CLASS_OUTPUT
        {
            return failed.answer(());
        }
        let variable = match draft.class {
            numbers::CLASS_UNIFORM_CONSTANT => {
                handle_of(types, built, demands, &draft, &mut failed)
            }
            numbers::CLASS_INPUT | numbers::CLASS_OUTPUT => {
                varying_of(reading, types, built, demands, &draft, &mut failed)
            }
            _ => plain_of(reading, types, built, demands, &draft, &mut failed),
        };
        let init = initial(
            reading,
            types,
            built,
            &mut self.constants,
            &draft,
            &variable,
            &mut failed,
        );
        self.add_variable(reading, &draft, &variable, init, &mut failed);
        failed.answer(())
    }

    // Builds the variable of a draft, with its sampler.
    fn add_variable(
        &mut self,
        reading: &Reading,
        draft: &Draft,
        variable: &Built,
        init: Option<ExpressionHandle>,
        failed: &mut Failure,
    ) {
        let id = draft.instruction.id;
        let span = span_of(&draft.instruction);
        let name = failed.take(reading.listing.name(reading.alloc, id, None), None);
        let added = self.built_variables.add(variable.global(name, init), span);
        let handle = failed.take(added, Handle::at(0));
        let sampler = match variable.sampler {
            Some(ty) => {
                let bindings = &mut self.bindings;
                let sampler = bindings.sampler_beside(reading, id, variable, ty, failed);
                let added = self.built_variables.add(sampler, span);
                Some(failed.take(added, Handle::at(0)))
            }
            None => None,
        };
        self.variables.add(draft, variable, handle, sampler, failed);
    }
}

// An image, a sampler, or both, or an acceleration structure.
fn handle_of<T: Types>(
    types: &TypeTable,
    built: &mut T,
    demands: &mut Demands,
    draft: &Draft,
    failed: &mut Failure,
) -> Built {
    let resource = resource_of(types, demands, draft, failed);
    let comparison = draft.used.compared && !draft.used.sampled;
    let span = span_of(&draft.instruction);
    let inner = match resource.image {
        Some(ImageUse { shape, class }) => TypeInner::Image {
            dim: shape.dim,
            arrayed: shape.arrayed,
            class,
        },
        None if resource.structure => TypeInner::AccelerationStructure {
            vertex_return: demands.fetches_positions(),
        },
        None => TypeInner::Sampler { comparison },
    };
    let ty = resource_type(built, inner, resource.size, span, failed);
    let mut variable = Built::of(ty, AddressSpace::Handle);
    variable.binding = draft.resource();
    variable.image = resource.image;
    if resource.combined {
        let sampler = TypeInner::Sampler { comparison };
        variable.sampler = Some(resource_type(built, sampler, resource.size, span, failed));
    }
    variable
}

// The type of a resource, or of an array of this many.
fn resource_type<T: Types>(
    built: &mut T,
    inner: TypeInner,
    size: Option<ArraySize>,
    span: Span,
    failed: &mut Failure,
) -> TypeHandle {
    let base = insert(built, inner, span, failed);
    match size {
        Some(size) => insert(built, TypeInner::BindingArray { base, size }, span, failed),
        None => base,
    }
}

// A buffer, immediate data, or a variable of an invocation or a workgroup.
fn plain_of<T: Types>(
    reading: &Reading,
    types: &TypeTable,
    built: &mut T,
    demands: &mut Demands,
    draft: &Draft,
    failed: &mut Failure,
) -> Built {
    let instruction = &draft.instruction;
    let (mut variable, size) = memory_of(reading, types, demands, draft, failed);
    if let Some(size) = size {
        let base = variable.ty;
        let inner = TypeInner::BindingArray { base, size };
        variable.ty = insert(built, inner, span_of(instruction), failed);
    }
    let whole = variable.ty;
    match reading.uses.atomics.of(instruction.id) {
        // members of structs have other indexes than in the paths
        Some(_) if types.splits() => {
            failed.fail(instruction.unsupported_by(Feature::AtomicOfNoNumber));
        }
        Some(place) => {
            variable.ty = upgraded(built, reading, instruction, whole, place, MAX_STEPS, failed);
        }
        None => {}
    }
    variable
}

// The same with its atomic parts, and the length of an array of buffers, because an array of blocks is an array of bindings.
fn memory_of(
    reading: &Reading,
    types: &TypeTable,
    demands: &mut Demands,
    draft: &Draft,
    failed: &mut Failure,
) -> (Built, Option<ArraySize>) {
    let instruction = &draft.instruction;
    let space = space_of(reading, draft.class, draft.ty);
    if space.is_none() {
        failed.fail(instruction.unsupported());
    }
    let whole = failed.take(types.need(draft.ty, instruction), Handle::at(0));
    let mut variable = Built::of(whole, space.unwrap_or(AddressSpace::Private));
    let (element, size) = match draft.elements(types) {
        Some(all) => (all.element, Some(all.size)),
        None => (draft.ty, None),
    };
    let capability = match variable.space {
        AddressSpace::Storage { .. } => {
            store(types, demands, draft, element, &mut variable);
            Capabilities::STORAGE_BUFFER_BINDING_ARRAY
        }
        AddressSpace::Uniform => Capabilities::BUFFER_BINDING_ARRAY,
        AddressSpace::Immediate => {
            demands.ask(Capabilities::IMMEDIATES);
            return (variable, None);
        }
        _ => return (variable, None),
    };
    variable.binding = draft.resource();
    if size.is_some() {
        if !matches!(types.shape(element), Shape::Struct { .. }) {
            failed.fail(instruction.unsupported_by(Feature::BufferArrays));
        }
        demands.ask(capability);
        variable.ty = failed.take(types.need(element, instruction), whole);
    }
    (variable, size)
}

// A variable that is an image, a sampler or both, an acceleration structure, or an array of those.
#[derive(Clone, Copy)]
struct Resource {
    image: Option<ImageUse>,
    // whether it is a combined image and sampler
    combined: bool,
    // whether it is an acceleration structure
    structure: bool,
    // the length of an array
    size: Option<ArraySize>,
}

// Describes such a variable.
fn resource_of(
    types: &TypeTable,
    demands: &mut Demands,
    draft: &Draft,
    failed: &mut Failure,
) -> Resource {
    let (leaf, size) = match draft.elements(types) {
        Some(all) => (types.shape(all.element), Some(all.size)),
        None => (draft.shape, None),
    };
    let (combined, shape) = match leaf {
        Shape::SampledImage(id) => (true, types.shape(id)),
        _ => (false, leaf),
    };
    if !leaf.is_handle() {
        failed.fail(draft.instruction.unsupported_by(Feature::LooseUniform));
    }
    let alone = matches!(leaf, Shape::Image(_));
    if draft.used.compared && draft.used.sampled && !alone {
        failed.fail(draft.instruction.unsupported_by(Feature::MixedComparison));
    }
    let image = match shape {
        Shape::Image(shape) => Some(draft.image_use(shape)),
        _ => None,
    };
    let structure = matches!(shape, Shape::AccelerationStructure);
    if size.is_some() {
        demands.ask(match image {
            Some(used) if used.shape.format.is_some() =>
                Capabilities::STORAGE_TEXTURE_BINDING_ARRAY,
            _ if structure => Capabilities::ACCELERATION_STRUCTURE_BINDING_ARRAY,
            _ => Capabilities::TEXTURE_AND_SAMPLER_BINDING_ARRAY,
        });
    }
    Resource {
        image,
        combined,
        structure,
        size,
    }
}

// The greatest depth of a part of a variable (universal limit of the standard).
const MAX_STEPS: u32 = 255;

/// The name of the sampler beside an image.
pub fn sampler_name(alloc: Global, listing: &Listing, id: u32) -> Result<String, SpirvError> {
    let mut name = match listing.name(alloc, id, None) {
        Ok(Some(name)) => name,
        Ok(None) => String::new(alloc),
        Err(error) => return Err(error),
    };
    match name.push_str("_sampler") {
        Ok(()) => Ok(name),
        Err(_) => Err(SpirvError::Memory),
    }
}

// A storage buffer of this block, or of an array of those: its accesses, and the decorations of its memory.
fn store(
    types: &TypeTable,
    demands: &mut Demands,
    draft: &Draft,
    block: u32,
    variable: &mut Built,
) {
    let mut said = draft.said;
    match types.shape(block) {
        Shape::Struct { count, memory, .. } => {
            said.coherent |= memory.coherent && count > 0;
            said.volatile |= memory.volatile && count > 0;
            said.non_writable |= memory.non_writable;
            said.non_readable |= memory.non_readable;
        }
        _ => {
            said.non_writable = true;
            said.non_readable = true;
        }
    }
    variable.space = AddressSpace::Storage {
        access: said.access(),
    };
    let mut decorations = 0;
    if said.coherent {
        demands.ask(Capabilities::MEMORY_DECORATION_COHERENT);
        decorations |= MemoryDecorations::COHERENT.0;
    }
    if said.volatile {
        demands.ask(Capabilities::MEMORY_DECORATION_VOLATILE);
        decorations |= MemoryDecorations::VOLATILE.0;
    }
    variable.decorations = MemoryDecorations(decorations);
}
