//! Handles of entry points.

ghost use Rattle.std.specs.Prelude.{◌≡◌, [], ◌∷◌};
ghost use Rattle.std.specs.Option.{MatchOption, option_or};
ghost use Rattle.ir_items.specs.found.View.{entry_view, module_view};
ghost use Rattle.module_handles.specs.Found.{first_missing, entry_missing};
ghost use Rattle.module_handles.specs.InOrder.{IsFaultIn, EntriesOK};
ghost use Rattle.spec_expressions.specs.judged.Operands.{given};
ghost use Rattle.spec_expressions.specs.judged.ItemNames.{mesh_types, mesh_expressions, entry_variables};
ghost use Rattle.spec_expressions.specs.found.Meshes.{mesh_variables};
ghost use Rattle.spec_expressions.specs.declared.item.ItemKind.TheVariants as kind;

use crate::lists::{ItemCheck, fault_of_items, first_missing};
use crate::place_of;
use ir_items::{EntryPoint, MeshStageInfo, Module};
use spec_expressions::ItemKind;
use typing_references::{Bounds, HandleFault, forward_operand, missing_in_function};

fn mesh_types_missing(mesh: &Option<MeshStageInfo>, there: usize) -> Option<HandleFault>
    ensures { result ≡ first_missing kind.Type there (mesh_types mesh.now) }
{
    match mesh {
        Some(mesh) => {
            let types = [
                Some(mesh.vertex_output_type.index()),
                Some(mesh.primitive_output_type.index()),
            ];
            first_missing(ItemKind::Type, there, &types)
        }
        None => None,
    }
}

fn mesh_expressions_missing(mesh: &Option<MeshStageInfo>, there: usize) -> Option<HandleFault>
    ensures { result ≡ first_missing kind.Expression there (mesh_expressions mesh.now) }
{
    match mesh {
        Some(mesh) => {
            let expressions = [
                place_of(mesh.max_vertices_override),
                place_of(mesh.max_primitives_override),
            ];
            first_missing(ItemKind::Expression, there, &expressions)
        }
        None => None,
    }
}

// The output variable of a mesh shader.
fn mesh_variable(mesh: &Option<MeshStageInfo>) -> Option<usize>
    ensures { given (result ∷ []) ≡ mesh_variables mesh.now }
{
    match mesh {
        Some(mesh) => Some(mesh.output_variable.index()),
        None => None,
    }
}

#[tactic(auto, using(crate::proofs::Missing::payload_first))]
fn variables_missing(entry: &EntryPoint, there: usize) -> Option<HandleFault>
    ensures { result ≡ first_missing kind.GlobalVariable there (entry_variables (entry_view entry.now)) }
{
    let variables = [
        place_of(entry.task_payload),
        mesh_variable(&entry.mesh_info),
    ];
    first_missing(ItemKind::GlobalVariable, there, &variables)
}

// A handle out of bounds, the entry point's function aside.
fn entry_missing(entry: &EntryPoint, bounds: &Bounds) -> Option<HandleFault>
    ensures { result ≡ entry_missing bounds.now (entry_view entry.now) }
{
    if let Some(fault) = mesh_types_missing(&entry.mesh_info, bounds.types) {
        return Some(fault);
    }
    if let Some(fault) = mesh_expressions_missing(&entry.mesh_info, bounds.expressions) {
        return Some(fault);
    }
    variables_missing(entry, bounds.global_variables)
}

// The entry points of a module.
#[derive(Drop)]
struct Entries<'a> {
    module: &'a Module,
}

impl ItemCheck<EntryPoint> for Entries<'_> {
    ghost use Rattle.ir_items.specs.found.View.{entry_view, module_view};
    ghost use Rattle.module_handles.specs.InOrder.{EntryOK, IsEntryFault};

    ghost passes = { λ t k x. EntryOK (module_view t.«module».now) (entry_view x) };

    ghost fails = { λ t k x h. IsEntryFault (module_view t.«module».now) (entry_view x) h };

    fn check(&self, _index: usize, entry: &EntryPoint) -> Option<HandleFault> {
        if let Some(fault) = entry_missing(entry, &Bounds::outside_functions(self.module)) {
            return Some(fault);
        }
        if let Some(fault) = missing_in_function(&entry.function, self.module) {
            return Some(fault);
        }
        forward_operand(&entry.function.expressions)
    }
}

/// The error of a handle of an entry point or its function, if it is out of bounds or a required forward dependency.
pub(crate) fn fault_of_entries(module: &Module) -> Option<HandleFault>
    ensures { MatchOption result (EntriesOK (module_view «module».now)) (IsFaultIn (module_view «module».now)) }
{
    let entries = Entries { module };
    fault_of_items(&entries, &module.entry_points)
}
