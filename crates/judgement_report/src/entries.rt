//! The rows of entry points.

ghost use Rattle.std.specs.Prelude.{◌≡◌, ◌++◌, OnOk, codes, length};
ghost use Rattle.ir_items.specs.found.View.{entry_view, module_view};
ghost use Rattle.judgement_report.specs.Reported.{IsReported, Tells, AreLinesOf, AreEntryLines};
ghost use Rattle.judgement_report.specs.Lines.{uses_of};
ghost use Rattle.judgement.specs.judged.Lines.{each_from, has, is_at, is_own, is_used, global_line, own_line, variable_lines};
ghost use Rattle.spec_interface.specs.judged.Uses.{mesh_output};

use crate::pairs::tell_samples;
use crate::rows::RowSink;
use bitflags::Flags;
use ir_arena::handle::Handle;
use ir_items::{EntryPoint, Module};
use ir_types::key;
use judgement_rows::{ReportRow, Uses};
use spec_expressions::GlobalUse;
use std::alloc::{AllocError, Global};
use typing_infos::{FunctionInfo, ModuleInfo};

// The output variable of a mesh shader.
fn mesh_output(entry: &EntryPoint) -> Option<Handle<key::GlobalVariable>>
    ensures { result ≡ mesh_output (entry_view entry.now) }
{
    match entry.mesh_info {
        Some(mesh) => Some(mesh.output_variable),
        None => None,
    }
}

// Whether a handle is that of this global variable.
fn is_at(own: Option<Handle<key::GlobalVariable>>, number: usize) -> bool
    ensures { result ≡ is_at own number }
{
    match own {
        Some(variable) => variable.index() == number,
        None => false,
    }
}

// Whether a global variable is the entry point's payload or mesh output.
fn is_own(entry: &EntryPoint, number: usize) -> bool
    ensures { result ≡ is_own (entry_view entry.now) number }
{
    is_at(entry.task_payload, number) || is_at(mesh_output(entry), number)
}

// Whether a global variable is used.
fn is_used(kinds: GlobalUse) -> bool
    ensures { result ≡ is_used kinds }
{
    !kinds.is_empty()
}

// Whether the uses contain this flag.
fn has(kinds: GlobalUse, kind: GlobalUse) -> bool
    ensures { result ≡ has kinds kind }
{
    kinds.contains(kind)
}

// The uses by name.
fn uses_of(kinds: GlobalUse) -> Uses
    ensures { result ≡ uses_of kinds }
{
    Uses {
        read: has(kinds, GlobalUse::READ),
        write: has(kinds, GlobalUse::WRITE),
        query: has(kinds, GlobalUse::QUERY),
        atomic: has(kinds, GlobalUse::ATOMIC),
    }
}

// The row of a global variable that is used and is neither payload nor mesh output.
fn tell_use<S: RowSink>(
    out: &mut S,
    entry: &EntryPoint,
    number: usize,
    kinds: GlobalUse,
) -> Result<(), AllocError>
    ensures { OnOk result (S.told out.new ≡ S.told out.old ++ global_line (entry_view entry.now) number kinds) }
{
    if !is_own(entry, number) && is_used(kinds) {
        out.row(ReportRow::Global {
            global: number,
            uses: uses_of(kinds),
        })
    } else {
        Ok(())
    }
}

// The rows of the global variables that are used and are neither payload nor mesh output.
fn tell_uses<S: RowSink>(
    out: &mut S,
    entry: &EntryPoint,
    uses: &[GlobalUse],
) -> Result<(), AllocError>
    ensures { OnOk result (S.told out.new ≡ S.told out.old ++ each_from (global_line (entry_view entry.now)) 0 uses.now) }
{
    for number in 0..uses.len() {
        tell_use(out, entry, number, uses[number])?;
    }
    Ok(())
}

// The row of the payload, if there is one.
fn tell_payload<S: RowSink>(
    out: &mut S,
    own: Option<Handle<key::GlobalVariable>>,
) -> Result<(), AllocError>
    ensures { OnOk result (S.told out.new ≡ S.told out.old ++ own_line (codes "payload") own) }
{
    match own {
        Some(variable) => out.row(ReportRow::Payload(variable.index())),
        None => Ok(()),
    }
}

// The row of the mesh output, if there is one.
fn tell_mesh<S: RowSink>(
    out: &mut S,
    own: Option<Handle<key::GlobalVariable>>,
) -> Result<(), AllocError>
    ensures { OnOk result (S.told out.new ≡ S.told out.old ++ own_line (codes "mesh") own) }
{
    match own {
        Some(variable) => out.row(ReportRow::Mesh(variable.index())),
        None => Ok(()),
    }
}

// The rows of an entry point up to those of its global variables, by its index and their uses.
fn tell_variables<S: RowSink>(
    out: &mut S,
    number: usize,
    entry: &EntryPoint,
    uses: &[GlobalUse],
) -> Result<(), AllocError>
    ensures { OnOk result (S.told out.new ≡ S.told out.old ++ variable_lines number (entry_view entry.now) uses.now) }
{
    out.row(ReportRow::Entry(number))?;
    tell_payload(out, entry.task_payload)?;
    tell_mesh(out, mesh_output(entry))?;
    tell_uses(out, entry, uses)
}

// The rows of an entry point, by its index and its `FunctionInfo`.
fn tell_entry<S: RowSink>(
    alloc: Global,
    out: &mut S,
    number: usize,
    entry: &EntryPoint,
    info: &FunctionInfo,
) -> Result<(), AllocError>
    ensures { OnOk result (Tells (AreLinesOf number (entry_view entry.now) info.now) (S.told out.old) (S.told out.new)) }
{
    tell_variables(out, number, entry, info.uses())?;
    tell_samples(alloc, out, info.pairs())
}

/// The rows of all entry points, in order.
pub(crate) fn tell_entries<S: RowSink>(
    alloc: Global,
    out: &mut S,
    module: &Module,
    info: &ModuleInfo,
) -> Result<(), AllocError>
    requires { IsReported (module_view «module».now) info.now }
    ensures { OnOk result (Tells (AreEntryLines (module_view «module».now) (length (module_view «module».now).entries)) (S.told out.old) (S.told out.new)) }
{
    for number in 0..module.entry_points.len() {
        let entry = &module.entry_points[number];
        tell_entry(alloc, out, number, entry, info.get_entry_point(number))?;
    }
    Ok(())
}
