//! Mesh outputs, by their variable.

ghost use Rattle.std.specs.Prelude.{◌≡◌, ◌∷◌, ◌<◌, ◌↔◌, [], ℕ, IsTrue, List, MatchOption, MatchResult, OnOk, Option, None, Some, length, map};
ghost use Rattle.function_entry_checks.specs.Faults.{IsRefusedFor};
ghost use Rattle.function_entries.specs.Interfaces.{AreMeshesKnown};
ghost use Rattle.function_entries.specs.MeshFaults.{AreSame, IsImpliedFault, IsSaidFault};
ghost use Rattle.function_entries.specs.MeshFields.{HasFields};
ghost use Rattle.ir_items.specs.judged.Plain.{PlainModule};
ghost use Rattle.ir_items.specs.found.View.{module_view};
ghost use Rattle.ir_types.specs.judged.ExpressionPlain.{expression_view};
ghost use Rattle.ir_types.specs.judged.Plain.{inner_view, member_view};
ghost use Rattle.typing_forms.specs.judged.Resolutions.{inner_at};
ghost use Rattle.spec_interface.specs.judged.Members.{topologies_at};
ghost use Rattle.spec_interface.specs.judged.Meshes.{FieldsOK, HoldsMost, ImpliesMeshInfo, IsSaid, GivenByOverride, array_of, most, override_of};
ghost use Rattle.spec_interface.specs.found.Meshes.{IsCount, override_at, variable_members};
ghost use Rattle.ir_items.specs.declared.entries.MeshStageInfo.{MeshStageInfo};

use crate::known::KnownMeshes;
use function_entry_checks::EntryPointError;
use ir_arena::handle::Handle;
use ir_items::{MeshStageInfo, Module};
use ir_kinds::{MeshOutputTopology, Scalar};
use ir_types::refusal::Refusal;
use ir_types::with_span::WithSpan;
use ir_types::{ArraySize, Expression, StructMember, TypeInner, key};
use spec_interface::{MeshParts, inner_at, members_at, parts_of, topology_at};
use std::alloc::Global;
use typing_forms::laws::form_equality;
use typing_forms::{Form, form_of_type};

/// The elements of an array.
#[derive(Clone, Copy)]
pub(crate) struct Held {
    /// The type of its elements.
    element: Handle<key::IrType>,
    /// The maximum number of elements; 0 if an override determines it.
    most: u32,
    /// That override.
    by: Option<Handle<key::Override>>,
}

/// The types of vertices and primitives.
#[derive(Clone, Copy)]
pub(crate) struct Fields {
    vertices: Held,
    primitives: Held,
}

/// The attributes that an output implies.
#[derive(Clone, Copy)]
pub(crate) struct Implied {
    /// The implied info, without overrides.
    pub(crate) info: MeshStageInfo,
    /// The override of the maximum number of vertices.
    pub(crate) vertices_by: Option<Handle<key::Override>>,
    /// The override of the maximum number of primitives.
    pub(crate) primitives_by: Option<Handle<key::Override>>,
}

// The members of a variable's struct.
fn variable_members(
    module: &Module,
    variable: Handle<key::GlobalVariable>,
) -> Option<&[StructMember]>
    requires { variable < length (module_view «module».now).globals }
    ensures { MatchOption result
        (variable_members (module_view «module».now) variable ≡ None)
        (λ members. variable_members (module_view «module».now) variable ≡ Some (map member_view members.now)) }
{
    members_at(module, module.global_variables[variable].ty)
}

// Whether a type is that of a count: `u32`.
fn is_count(module: &Module, ty: Handle<key::IrType>) -> bool
    ensures { IsTrue result ↔ IsCount (module_view «module».now).types ty }
{
    form_equality(form_of_type(&module.types, ty), Form::Scalar(Scalar::U32))
}

// The type of an array's elements, and their number.
fn array_of(inner: &TypeInner) -> Option<(Handle<key::IrType>, ArraySize)>
    ensures { result ≡ array_of (Some (inner_view inner.now)) }
{
    match inner {
        TypeInner::Array { base, size, .. } => Some((*base, *size)),
        _ => None,
    }
}

// The same for the type at a handle.
fn array_at(module: &Module, ty: Handle<key::IrType>) -> Option<(Handle<key::IrType>, ArraySize)>
    ensures { result ≡ array_of (inner_at (module_view «module».now).types ty) }
{
    match inner_at(module, ty) {
        Some(inner) => array_of(inner),
        None => None,
    }
}

// The maximum number of elements, and the override that determines it; `None` for a runtime-sized array.
fn most(size: ArraySize) -> Option<(u32, Option<Handle<key::Override>>)>
    ensures { result ≡ most size }
{
    match size {
        ArraySize::Constant(count) => Some((count, None)),
        ArraySize::Pending(by) => Some((0, Some(by))),
        ArraySize::Dynamic => None,
    }
}

// The elements of an array type; `None` for other types and runtime-sized arrays.
fn held_by(module: &Module, ty: Handle<key::IrType>) -> Option<Held>
    ensures { let types = (module_view «module».now).types in
        MatchOption result
        ((element n : ℕ) (by : Option ℕ) → HoldsMost types ty element n by → ⊥)
        (λ held. HoldsMost types ty held.element held.most held.by) }
{
    let array = match array_at(module, ty) {
        Some(array) => array,
        None => return None,
    };
    match most(array.1) {
        Some(count) => Some(Held {
            element: array.0,
            most: count.0,
            by: count.1,
        }),
        None => None,
    }
}

// The members, if each is valid.
fn fields_of(module: &Module, parts: MeshParts) -> Option<Fields>
    ensures { let types = (module_view «module».now).types in
        MatchOption result
        ((i : MeshStageInfo) (vertices_by primitives_by : Option ℕ) → FieldsOK types parts i vertices_by primitives_by → ⊥)
        (λ f. IsCount types parts.vertex_count × IsCount types parts.primitive_count
        × HoldsMost types parts.vertices f.vertices.element f.vertices.most f.vertices.by
        × HoldsMost types parts.primitives f.primitives.element f.primitives.most f.primitives.by) }
{
    if !is_count(module, parts.vertex_count) {
        return None;
    }
    if !is_count(module, parts.primitive_count) {
        return None;
    }
    let vertices = match held_by(module, parts.vertices) {
        Some(held) => held,
        None => return None,
    };
    let primitives = match held_by(module, parts.primitives) {
        Some(held) => held,
        None => return None,
    };
    Some(Fields {
        vertices,
        primitives,
    })
}

// The type of the primitives.
fn primitive_of(fields: &Fields) -> Handle<key::IrType>
    ensures { result ≡ fields.now.primitives.element }
{
    fields.primitives.element
}

// The attributes implied by a variable with these vertices and primitives, of this topology.
fn implied_by(
    variable: Handle<key::GlobalVariable>,
    fields: &Fields,
    topology: MeshOutputTopology,
) -> Implied
    ensures { (m : PlainModule) → HasFields m variable fields.now → topologies_at m.types fields.now.primitives.element ≡ topology ∷ [] → ImpliesMeshInfo m variable result.info result.vertices_by result.primitives_by }
{
    let vertices = fields.vertices;
    let primitives = fields.primitives;
    Implied {
        info: MeshStageInfo {
            topology,
            max_vertices: vertices.most,
            max_vertices_override: None,
            max_primitives: primitives.most,
            max_primitives_override: None,
            vertex_output_type: vertices.element,
            primitive_output_type: primitives.element,
            output_variable: variable,
        },
        vertices_by: vertices.by,
        primitives_by: primitives.by,
    }
}

/// The attributes implied by an output variable.
pub(crate) fn implied_mesh(
    module: &Module,
    variable: Handle<key::GlobalVariable>,
) -> Result<Implied, EntryPointError>
    requires { variable < length (module_view «module».now).globals }
    ensures { MatchResult result
        (λ i. ImpliesMeshInfo (module_view «module».now) variable i.info i.vertices_by i.primitives_by)
        (IsImpliedFault (module_view «module».now) variable) }
{
    let members = match variable_members(module, variable) {
        Some(members) => members,
        None => return Err(EntryPointError::BadMeshOutputVariableType),
    };
    let parts = match parts_of(members) {
        Some(parts) => parts,
        None => return Err(EntryPointError::BadMeshOutputVariableType),
    };
    let fields = match fields_of(module, parts) {
        Some(fields) => fields,
        None => return Err(EntryPointError::BadMeshOutputVariableField),
    };
    match topology_at(module, primitive_of(&fields)) {
        Some(topology) => Ok(implied_by(variable, &fields, topology)),
        None => Err(EntryPointError::InvalidMeshPrimitiveOutputType),
    }
}

// The topology and members of a variable's vertices and primitives, where `known` has the facts found for earlier types.
fn fields_with(
    alloc: Global,
    module: &Module,
    known: &mut KnownMeshes,
    variable: Handle<key::GlobalVariable>,
) -> Result<Fields, Refusal<EntryPointError>>
    requires within { variable < length (module_view «module».now).globals }
    requires known { AreMeshesKnown (module_view «module».now).types known.old }
    ensures known { OnOk result (AreMeshesKnown (module_view «module».now).types known.new) }
    ensures fine { MatchResult result
        (HasFields (module_view «module».now) variable)
        (IsRefusedFor (IsImpliedFault (module_view «module».now) variable)) }
{
    let ty = module.global_variables[variable].ty;
    let parts = match known.find_parts(module, ty) {
        Ok(Some(parts)) => parts,
        Ok(None) => {
            let error = EntryPointError::BadMeshOutputVariableType;
            return Err(Refusal::Fault(WithSpan::new(alloc, error)));
        }
        Err(error) => return Err(Refusal::Memory(error)),
    };
    match fields_of(module, parts) {
        Some(fields) => Ok(fields),
        None => {
            let error = EntryPointError::BadMeshOutputVariableField;
            Err(Refusal::Fault(WithSpan::new(alloc, error)))
        }
    }
}

// The attributes implied by an output variable, where `known` has the facts found for earlier types.
fn implied_with(
    alloc: Global,
    module: &Module,
    known: &mut KnownMeshes,
    variable: Handle<key::GlobalVariable>,
) -> Result<Implied, Refusal<EntryPointError>>
    requires within { variable < length (module_view «module».now).globals }
    requires known { AreMeshesKnown (module_view «module».now).types known.old }
    ensures known { OnOk result (AreMeshesKnown (module_view «module».now).types known.new) }
    ensures fine { MatchResult result
        (λ i. ImpliesMeshInfo (module_view «module».now) variable i.info i.vertices_by i.primitives_by)
        (IsRefusedFor (IsImpliedFault (module_view «module».now) variable)) }
{
    let fields = match fields_with(alloc, module, known, variable) {
        Ok(fields) => fields,
        Err(refusal) => return Err(refusal),
    };
    match known.find_topology(module, primitive_of(&fields)) {
        Ok(Some(topology)) => Ok(implied_by(variable, &fields, topology)),
        Ok(None) => {
            let error = EntryPointError::InvalidMeshPrimitiveOutputType;
            Err(Refusal::Fault(WithSpan::new(alloc, error)))
        }
        Err(error) => Err(Refusal::Memory(error)),
    }
}

// The override that a global expression is, if it is one.
fn override_at(
    module: &Module,
    expression: Handle<key::Expression>,
) -> Option<Handle<key::Override>>
    ensures { result ≡ override_at (module_view «module».now) expression }
{
    match module.global_expressions.try_get(expression) {
        Ok(found) => override_of(found),
        Err(_) => None,
    }
}

// The same for the expression itself.
fn override_of(expression: &Expression) -> Option<Handle<key::Override>>
    ensures { result ≡ override_of (expression_view expression.now) }
{
    match expression {
        Expression::Override(by) => Some(*by),
        _ => None,
    }
}

// Whether the global expression of a count is the implied override, if there is one.
fn is_said_by(
    module: &Module,
    given: Option<Handle<key::Expression>>,
    by: Option<Handle<key::Override>>,
) -> bool
    ensures { IsTrue result ↔ GivenByOverride (module_view «module».now) given by }
{
    let Some(expression) = given else {
        return true;
    };
    match override_at(module, expression) {
        None => true,
        Some(said) => match by {
            Some(implied) => implied == said,
            None => false,
        },
    }
}

// Whether two infos are equal, without overrides and the variable.
fn is_same(implied: &MeshStageInfo, said: &MeshStageInfo) -> bool
    ensures { IsTrue result ↔ AreSame implied.now said.now }
{
    implied.topology == said.topology
        && implied.max_vertices == said.max_vertices
        && implied.max_primitives == said.max_primitives
        && implied.vertex_output_type == said.vertex_output_type
        && implied.primitive_output_type == said.primitive_output_type
}

// Whether the declared info is this implied one.
fn check_implied(
    module: &Module,
    mesh: &MeshStageInfo,
    implied: &Implied,
) -> Result<(), EntryPointError>
    requires { ImpliesMeshInfo (module_view «module».now) mesh.now.output_variable implied.now.info implied.now.vertices_by implied.now.primitives_by }
    ensures { MatchResult result
        (λ _. IsSaid (module_view «module».now) mesh.now)
        (IsSaidFault (module_view «module».now) mesh.now) }
{
    if !is_said_by(module, mesh.max_vertices_override, implied.vertices_by) {
        return Err(EntryPointError::BadMeshOutputVariableType);
    }
    if !is_said_by(module, mesh.max_primitives_override, implied.primitives_by) {
        return Err(EntryPointError::BadMeshOutputVariableType);
    }
    if !is_same(&implied.info, mesh) {
        return Err(EntryPointError::BadMeshOutputVariableType);
    }
    Ok(())
}

/// Whether the attributes of a mesh shader are those that its output implies, where `known` has the facts found for earlier
/// types.
pub(crate) fn check_said(
    alloc: Global,
    module: &Module,
    known: &mut KnownMeshes,
    mesh: &MeshStageInfo,
) -> Result<(), Refusal<EntryPointError>>
    requires within { mesh.now.output_variable < length (module_view «module».now).globals }
    requires known { AreMeshesKnown (module_view «module».now).types known.old }
    ensures known { OnOk result (AreMeshesKnown (module_view «module».now).types known.new) }
    ensures fine { MatchResult result
        (λ _. IsSaid (module_view «module».now) mesh.now)
        (IsRefusedFor (IsSaidFault (module_view «module».now) mesh.now)) }
{
    let implied = match implied_with(alloc, module, known, mesh.output_variable) {
        Ok(implied) => implied,
        Err(refusal) => return Err(refusal),
    };
    match check_implied(module, mesh, &implied) {
        Ok(()) => Ok(()),
        Err(error) => Err(Refusal::Fault(WithSpan::new(alloc, error))),
    }
}
