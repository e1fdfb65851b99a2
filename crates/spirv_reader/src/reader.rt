// From the bytes of a SPIR-V module to a module of the IR.
ghost use Rattle.std.specs.Prelude.{IfOk};
ghost use Rattle.spirv_reader.specs.Checks.{MakesSixChecks};

use crate::body::Body;
use crate::building::{BuiltConstants, BuiltTypes, BuiltVariables};
use crate::entries::lower_entries;
use document_reader::Document;
use ir_arena::arena::Arena;
use ir_flags::{Capabilities, Settings, ShaderStages, SubgroupOperationSet, ValidationFlags};
use ir_items::{EntryPoint, MeshStageInfo, Module, SpecialTypes};
use ir_sets::keyed::KeyedState;
use ir_sets::unique_arena::UniqueArena;
use spirv_bodies::{Lowered, Special, lower_functions};
use spirv_declarations::{Budget, ReadModule, declare};
use spirv_flow::{Flow, flow_of};
use spirv_interface::declare_mesh;
use spirv_rules::check_rules;
use spirv_tables::Demands;
use spirv_types::Reading;
use spirv_words::{Failure, SpirvError, list};
use std::alloc::Global;

/// The module that the bytes of SPIR-V say, with the settings that it is to be judged by: all checks, the capabilities that
/// it names or uses, and returns put in. Its spans are in words. An error is out of memory, that the bytes are no SPIR-V,
/// or what of it is not translated.
pub fn read_spirv(alloc: Global, bytes: &[u8]) -> Result<Document, SpirvError>
    ensures { IfOk result (λ d. MakesSixChecks d.settings.flags) }
{
    let listing = list(alloc, bytes)?;
    check_rules(alloc, &listing)?;
    let (uses, flow) = flow_of(alloc, &listing)?;
    let reading = Reading::of(alloc, listing, uses)?;
    read_module(reading, flow, KeyedState::of_bytes(bytes))
}

// The same for a module with a listing.
fn read_module(reading: Reading, flow: Flow, key: KeyedState) -> Result<Document, SpirvError>
    ensures { IfOk result (λ d. MakesSixChecks d.settings.flags) }
{
    let alloc = reading.alloc;
    let words = reading.listing.words.len();
    let budget = Budget::of_rest(words);
    let mut failed = Failure::NONE;
    let (mut declared, mut types, constants, mut variables) = declare(
        &reading,
        BuiltTypes {
            arena: UniqueArena::with_hasher(alloc, key),
            budget,
        },
        BuiltConstants {
            constants: Arena::new(alloc),
            overrides: Arena::new(alloc),
            expressions: Arena::new(alloc),
            budget,
        },
        BuiltVariables {
            arena: Arena::new(alloc),
        },
        &mut failed,
    );
    let mesh = declare_mesh(
        &reading,
        &mut declared,
        &mut types,
        &mut variables,
        &mut failed,
    );
    let body = Body::new(alloc, Budget::of_functions(words));
    let module = ReadModule {
        reading,
        flow,
        declared,
    };
    let read = read_functions(module, types, body, mesh, &mut failed);
    failed.answer(document_of(alloc, read, constants, variables))
}

// The parts of a module, except constants and variables.
#[derive(Drop)]
struct Read {
    demands: Demands,
    types: BuiltTypes,
    body: Body,
    special: SpecialTypes,
    entries: Vec<EntryPoint>,
}

// The result structs of the functions' expressions.
fn special_of(alloc: Global, all: &[Special], failed: &mut Failure) -> SpecialTypes {
    let mut special = SpecialTypes::new(alloc);
    for each in all {
        if special.predeclared_types.insert(each.of, each.ty).is_err() {
            failed.fail(SpirvError::Memory);
        }
    }
    special
}

// Reads the declarations of a module, its functions with their result structs, and its entry points.
fn read_functions(
    module: ReadModule,
    types: BuiltTypes,
    body: Body,
    mesh: Option<MeshStageInfo>,
    failed: &mut Failure,
) -> Read {
    let Lowered {
        mut known,
        mut built,
        body,
        special,
        rays,
    } = lower_functions(module, types, body, failed);
    let mut special = special_of(known.reading.alloc, &special, failed);
    special.ray_desc = rays.descriptor;
    special.ray_intersection = rays.intersection;
    special.ray_vertex_return = rays.vertices;
    let entries = lower_entries(
        &known.reading,
        &known.flow.order,
        &mut known.declared,
        &mesh,
        &mut built,
        failed,
    );
    Read {
        demands: known.declared.demands,
        types: built,
        body,
        special,
        entries,
    }
}

// The settings of a module with these demands.
fn settings_of(demands: &Demands) -> Settings
    ensures { MakesSixChecks result.flags }
{
    let mut all = ShaderStages::VERTEX.0 | ShaderStages::FRAGMENT.0 | ShaderStages::COMPUTE.0;
    if demands.capabilities.0 & Capabilities::MESH_SHADER.0 != 0 {
        all |= ShaderStages::TASK.0 | ShaderStages::MESH.0;
    }
    if demands.capabilities.0 & Capabilities::RAY_TRACING_PIPELINE.0 != 0 {
        all |= ShaderStages::RAY_GENERATION.0 | ShaderStages::ANY_HIT.0;
        all |= ShaderStages::CLOSEST_HIT.0 | ShaderStages::MISS.0;
    }
    let has_any = demands.operations != SubgroupOperationSet(0);
    let stages = if has_any { all } else { 0 };
    Settings {
        flags: ValidationFlags::default(),
        capabilities: demands.capabilities,
        subgroup_stages: ShaderStages(stages),
        subgroup_operations: demands.operations,
    }
}

// The document of a module with these parts.
fn document_of(
    alloc: Global,
    read: Read,
    constants: BuiltConstants,
    variables: BuiltVariables,
) -> Document
    ensures { MakesSixChecks result.settings.flags }
{
    let module = Module {
        types: read.types.arena,
        special_types: read.special,
        constants: constants.constants,
        overrides: constants.overrides,
        global_variables: variables.arena,
        global_expressions: constants.expressions,
        functions: read.body.into_functions(),
        entry_points: read.entries,
        diagnostic_filters: Arena::new(alloc),
        diagnostic_filter_leaf: None,
    };
    Document {
        settings: settings_of(&read.demands),
        returns: true,
        module,
    }
}
