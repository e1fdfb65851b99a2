//! The global variables and entry points of a module as JSON.

ghost use Rattle.std.specs.Prelude.{◌≡◌, OnOk};
ghost use Rattle.check_json.specs.Written.{AddsItems, AddsMembers, IsValue};

use crate::names::{EntryName, GlobalName, Names};
use crate::roles::{Bound, Role, Roles};
use crate::words::{space_word, stage_word};
use check_json::{
    close_array, close_object, key, null, open_array, open_object, put_number, put_optional,
    put_text, put_uses, text,
};
use json::Writer;
use judgement_rows::{ReportRow, Uses};
use std::alloc::{AllocError, Global};

const NO_USE: Uses = Uses {
    read: false,
    write: false,
    query: false,
    atomic: false,
};

// ---- the uses of a global variable by any entry point

fn either(one: Uses, other: Uses) -> Uses {
    Uses {
        read: one.read || other.read,
        write: one.write || other.write,
        query: one.query || other.query,
        atomic: one.atomic || other.atomic,
    }
}

/// The uses of each global variable by all entry points of a report.
pub(crate) fn uses_in(
    alloc: Global,
    names: &Names,
    rows: &[ReportRow],
) -> Result<Vec<Uses>, AllocError> {
    let mut all = vec![in alloc; NO_USE; names.globals.len()]?;
    for row in rows {
        if let ReportRow::Global { global, uses } = row {
            if let Some(known) = all.get_mut(*global) {
                *known = either(*known, *uses);
            }
        }
    }
    Ok(all)
}

// ---- names

fn write_name(w: &mut Writer, name: &Option<String>) -> Result<(), AllocError>
    ensures { OnOk result (IsValue w.old w.new) }
{
    match name {
        Some(name) => text(w, name),
        None => null(w),
    }
}

#[tactic(auto, using(check_json::proofs::Values::one_member))]
fn put_name(w: &mut Writer, name: &Option<String>) -> Result<(), AllocError>
    ensures { OnOk result (AddsMembers w.old w.new) }
{
    key(w, "name")?;
    write_name(w, name)?;
    Ok(())
}

// ---- where a variable is bound, and its role

// The location or the built-in value of an input or an output.
fn bound_of(role: Role) -> Bound {
    match role {
        Role::Input(bound) | Role::Output(bound) => bound,
        Role::SamplerOf(_) | Role::Same => Bound::Members,
    }
}

// The address space of a variable, or what it is in SPIR-V.
fn space_of(role: Role, global: &GlobalName) -> &'static str {
    match role {
        Role::Input(_) => "input",
        Role::Output(_) => "output",
        Role::SamplerOf(_) | Role::Same => space_word(global.space),
    }
}

#[tactic(auto, using(check_json::proofs::Values::no_member))]
fn put_built_in(w: &mut Writer, role: Role) -> Result<(), AllocError>
    ensures { OnOk result (AddsMembers w.old w.new) }
{
    match bound_of(role) {
        Bound::BuiltIn(name) => put_text(w, "built_in", name),
        Bound::Location(_) | Bound::Members => Ok(()),
    }
}

#[tactic(auto, using(check_json::proofs::Values::no_member))]
fn put_location(w: &mut Writer, role: Role) -> Result<(), AllocError>
    ensures { OnOk result (AddsMembers w.old w.new) }
{
    match bound_of(role) {
        Bound::Location(location) => put_number(w, "location", u64::from(location)),
        Bound::BuiltIn(_) | Bound::Members => Ok(()),
    }
}

#[tactic(auto, using(check_json::proofs::Values::no_member))]
fn put_sampler_of(w: &mut Writer, role: Role) -> Result<(), AllocError>
    ensures { OnOk result (AddsMembers w.old w.new) }
{
    match role {
        Role::SamplerOf(image) => put_number(w, "sampler_of", u64::from(image)),
        Role::Input(_) | Role::Output(_) | Role::Same => Ok(()),
    }
}

// The binding, the built-in value, the group and the index.
#[tactic(auto, using(check_json::proofs::Values::members_4))]
fn put_binding(
    w: &mut Writer,
    place: usize,
    global: &GlobalName,
    role: Role,
) -> Result<(), AllocError>
    ensures { OnOk result (AddsMembers w.old w.new) }
{
    let (group, binding) = match &global.binding {
        Some(at) => (Some(u64::from(at.group)), Some(u64::from(at.binding))),
        None => (None, None),
    };
    put_optional(w, "binding", binding)?;
    put_built_in(w, role)?;
    put_optional(w, "group", group)?;
    put_number(w, "index", place as u64)?;
    Ok(())
}

// The location, the name, the image of a sampler, and the space.
#[tactic(auto, using(check_json::proofs::Values::members_4))]
fn put_place(w: &mut Writer, global: &GlobalName, role: Role) -> Result<(), AllocError>
    ensures { OnOk result (AddsMembers w.old w.new) }
{
    put_location(w, role)?;
    put_name(w, &global.name)?;
    put_sampler_of(w, role)?;
    put_text(w, "space", space_of(role, global))?;
    Ok(())
}

#[tactic(auto, using(check_json::proofs::Values::object_4))]
fn write_global(
    w: &mut Writer,
    place: usize,
    global: &GlobalName,
    role: Role,
    uses: Uses,
) -> Result<(), AllocError>
    ensures { OnOk result (IsValue w.old w.new) }
{
    open_object(w)?;
    put_binding(w, place, global, role)?;
    put_place(w, global, role)?;
    put_text(w, "type", &global.ty)?;
    put_uses(w, "ways", uses)?;
    close_object(w)?;
    Ok(())
}

#[tactic(auto, using(check_json::proofs::Values::no_item, check_json::proofs::Values::next_item))]
fn add_globals(
    w: &mut Writer,
    globals: &[GlobalName],
    roles: &Roles,
    uses: &[Uses],
) -> Result<(), AllocError>
    ensures { OnOk result (AddsItems w.old w.new) }
{
    for place in 0..globals.len() {
        let used = uses.get(place).copied().unwrap_or(NO_USE);
        write_global(w, place, &globals[place], roles.at(place), used)?;
    }
    Ok(())
}

/// Writes the global variables: for each its index, its name, where it is bound, its address space, its type in short, and its uses.
#[tactic(auto, using(check_json::proofs::Values::array_value))]
pub(crate) fn write_globals(
    w: &mut Writer,
    names: &Names,
    roles: &Roles,
    uses: &[Uses],
) -> Result<(), AllocError>
    ensures { OnOk result (IsValue w.old w.new) }
{
    open_array(w)?;
    add_globals(w, &names.globals, roles, uses)?;
    close_array(w)?;
    Ok(())
}

// ---- entry points

#[tactic(auto, using(check_json::proofs::Values::object_3))]
fn write_entry(w: &mut Writer, place: usize, entry: &EntryName) -> Result<(), AllocError>
    ensures { OnOk result (IsValue w.old w.new) }
{
    open_object(w)?;
    put_number(w, "index", place as u64)?;
    put_text(w, "name", &entry.name)?;
    put_text(w, "stage", stage_word(entry.stage))?;
    close_object(w)?;
    Ok(())
}

#[tactic(auto, using(check_json::proofs::Values::no_item, check_json::proofs::Values::next_item))]
fn add_entries(w: &mut Writer, entries: &[EntryName]) -> Result<(), AllocError>
    ensures { OnOk result (AddsItems w.old w.new) }
{
    for place in 0..entries.len() {
        write_entry(w, place, &entries[place])?;
    }
    Ok(())
}

/// Writes the entry points: for each its index, its name and its stage.
#[tactic(auto, using(check_json::proofs::Values::array_value))]
pub(crate) fn write_entry_names(w: &mut Writer, names: &Names) -> Result<(), AllocError>
    ensures { OnOk result (IsValue w.old w.new) }
{
    open_array(w)?;
    add_entries(w, &names.entries)?;
    close_array(w)?;
    Ok(())
}
