//! The rows of a report and of a listing as JSON.

ghost use Rattle.std.specs.Prelude.{◌≡◌, OnOk};
ghost use Rattle.check_json.specs.Written.{AddsItems, AddsMembers, IsValue};

use crate::tokens::{
    close_array, close_object, key, open_array, open_object, put_number, put_optional, put_text,
    text,
};
use json::Writer;
use judgement_rows::{BufferRow, LeafRow, ListingRow, Repeat, ReportRow, Uses};
use std::alloc::AllocError;

// ---- uses

#[tactic(auto, using(crate::proofs::Values::one_item))]
fn add_text(w: &mut Writer, word: &str) -> Result<(), AllocError>
    ensures { OnOk result (AddsItems w.old w.new) }
{
    text(w, word)?;
    Ok(())
}

// A word, if a condition holds.
#[tactic(auto, using(crate::proofs::Values::no_item))]
fn add_word(w: &mut Writer, holds: bool, word: &str) -> Result<(), AllocError>
    ensures { OnOk result (AddsItems w.old w.new) }
{
    if holds { add_text(w, word) } else { Ok(()) }
}

#[tactic(auto, using(crate::proofs::Values::items_4))]
fn add_uses(w: &mut Writer, uses: Uses) -> Result<(), AllocError>
    ensures { OnOk result (AddsItems w.old w.new) }
{
    add_word(w, uses.read, "read")?;
    add_word(w, uses.write, "write")?;
    add_word(w, uses.query, "query")?;
    add_word(w, uses.atomic, "atomic")?;
    Ok(())
}

/// Writes the words of the uses of a global variable, as a list.
#[tactic(auto, using(crate::proofs::Values::array_value))]
pub fn write_uses(w: &mut Writer, uses: Uses) -> Result<(), AllocError>
    ensures { OnOk result (IsValue w.old w.new) }
{
    open_array(w)?;
    add_uses(w, uses)?;
    close_array(w)?;
    Ok(())
}

/// Writes them at a key.
#[tactic(auto, using(crate::proofs::Values::one_member))]
pub fn put_uses(w: &mut Writer, name: &str, uses: Uses) -> Result<(), AllocError>
    ensures { OnOk result (AddsMembers w.old w.new) }
{
    key(w, name)?;
    write_uses(w, uses)?;
    Ok(())
}

// ---- entry points

#[tactic(auto, using(crate::proofs::Values::object_2))]
fn write_global(w: &mut Writer, global: usize, uses: Uses) -> Result<(), AllocError>
    ensures { OnOk result (IsValue w.old w.new) }
{
    open_object(w)?;
    put_number(w, "global", global as u64)?;
    put_uses(w, "uses", uses)?;
    close_object(w)?;
    Ok(())
}

#[tactic(auto, using(crate::proofs::Values::object_2))]
fn write_sample(w: &mut Writer, image: usize, sampler: usize) -> Result<(), AllocError>
    ensures { OnOk result (IsValue w.old w.new) }
{
    open_object(w)?;
    put_number(w, "image", image as u64)?;
    put_number(w, "sampler", sampler as u64)?;
    close_object(w)?;
    Ok(())
}

// A row that is a use.
#[tactic(auto, using(crate::proofs::Values::no_item, crate::proofs::Values::one_item))]
fn add_global(w: &mut Writer, row: ReportRow) -> Result<(), AllocError>
    ensures { OnOk result (AddsItems w.old w.new) }
{
    if let ReportRow::Global { global, uses } = row {
        write_global(w, global, uses)?;
    }
    Ok(())
}

// A row that is a pair.
#[tactic(auto, using(crate::proofs::Values::no_item, crate::proofs::Values::one_item))]
fn add_sample(w: &mut Writer, row: ReportRow) -> Result<(), AllocError>
    ensures { OnOk result (AddsItems w.old w.new) }
{
    if let ReportRow::Sample { image, sampler } = row {
        write_sample(w, image, sampler)?;
    }
    Ok(())
}

#[tactic(auto, using(crate::proofs::Values::no_item, crate::proofs::Values::more_items))]
fn add_globals(w: &mut Writer, rows: &[ReportRow]) -> Result<(), AllocError>
    ensures { OnOk result (AddsItems w.old w.new) }
{
    for row in rows {
        add_global(w, *row)?;
    }
    Ok(())
}

#[tactic(auto, using(crate::proofs::Values::no_item, crate::proofs::Values::more_items))]
fn add_samples(w: &mut Writer, rows: &[ReportRow]) -> Result<(), AllocError>
    ensures { OnOk result (AddsItems w.old w.new) }
{
    for row in rows {
        add_sample(w, *row)?;
    }
    Ok(())
}

#[tactic(auto, using(crate::proofs::Values::array_value))]
fn write_globals(w: &mut Writer, rows: &[ReportRow]) -> Result<(), AllocError>
    ensures { OnOk result (IsValue w.old w.new) }
{
    open_array(w)?;
    add_globals(w, rows)?;
    close_array(w)?;
    Ok(())
}

#[tactic(auto, using(crate::proofs::Values::array_value))]
fn write_samples(w: &mut Writer, rows: &[ReportRow]) -> Result<(), AllocError>
    ensures { OnOk result (IsValue w.old w.new) }
{
    open_array(w)?;
    add_samples(w, rows)?;
    close_array(w)?;
    Ok(())
}

#[tactic(auto, using(crate::proofs::Values::one_member))]
fn put_globals(w: &mut Writer, rows: &[ReportRow]) -> Result<(), AllocError>
    ensures { OnOk result (AddsMembers w.old w.new) }
{
    key(w, "globals")?;
    write_globals(w, rows)?;
    Ok(())
}

#[tactic(auto, using(crate::proofs::Values::one_member))]
fn put_samples(w: &mut Writer, rows: &[ReportRow]) -> Result<(), AllocError>
    ensures { OnOk result (AddsMembers w.old w.new) }
{
    key(w, "samples")?;
    write_samples(w, rows)?;
    Ok(())
}

// The payload among the rows of an entry point.
fn payload_in(rows: &[ReportRow]) -> Option<u64> {
    for row in rows {
        if let ReportRow::Payload(global) = row {
            return Some(*global as u64);
        }
    }
    None
}

// The mesh output among the rows of an entry point.
fn mesh_in(rows: &[ReportRow]) -> Option<u64> {
    for row in rows {
        if let ReportRow::Mesh(global) = row {
            return Some(*global as u64);
        }
    }
    None
}

// An entry point, by its rows.
#[tactic(auto, using(crate::proofs::Values::object_4))]
fn write_entry(w: &mut Writer, rows: &[ReportRow]) -> Result<(), AllocError>
    ensures { OnOk result (IsValue w.old w.new) }
{
    let (mesh, payload) = (mesh_in(rows), payload_in(rows));
    open_object(w)?;
    put_globals(w, rows)?;
    put_optional(w, "mesh", mesh)?;
    put_optional(w, "payload", payload)?;
    put_samples(w, rows)?;
    close_object(w)?;
    Ok(())
}

// The rows before that of the next entry point.
fn before_next(rows: &[ReportRow]) -> &[ReportRow] {
    let mut count = 0usize;
    for row in rows {
        if let ReportRow::Entry(_) = row {
            break;
        }
        count = count.saturating_add(1);
    }
    rows.get(..count).unwrap_or(&[])
}

// The entry point that begins at an index, if one does.
#[tactic(auto, using(crate::proofs::Values::no_item, crate::proofs::Values::one_item))]
fn add_entry(w: &mut Writer, rows: &[ReportRow], place: usize) -> Result<(), AllocError>
    ensures { OnOk result (AddsItems w.old w.new) }
{
    if let Some(ReportRow::Entry(_)) = rows.get(place) {
        let rest = rows.get(place.saturating_add(1)..).unwrap_or(&[]);
        write_entry(w, before_next(rest))?;
    }
    Ok(())
}

#[tactic(auto, using(crate::proofs::Values::no_item, crate::proofs::Values::more_items))]
fn add_entries(w: &mut Writer, rows: &[ReportRow]) -> Result<(), AllocError>
    ensures { OnOk result (AddsItems w.old w.new) }
{
    for place in 0..rows.len() {
        add_entry(w, rows, place)?;
    }
    Ok(())
}

/// Writes the entry points of a report.
#[tactic(auto, using(crate::proofs::Values::array_value))]
pub fn write_entries(w: &mut Writer, rows: &[ReportRow]) -> Result<(), AllocError>
    ensures { OnOk result (IsValue w.old w.new) }
{
    open_array(w)?;
    add_entries(w, rows)?;
    close_array(w)?;
    Ok(())
}

// ---- buffers

#[tactic(auto, using(crate::proofs::Values::object_3))]
fn write_buffer(w: &mut Writer, buffer: BufferRow) -> Result<(), AllocError>
    ensures { OnOk result (IsValue w.old w.new) }
{
    open_object(w)?;
    put_number(w, "alignment", u64::from(buffer.alignment))?;
    put_number(w, "global", buffer.global as u64)?;
    put_number(w, "size", u64::from(buffer.size))?;
    close_object(w)?;
    Ok(())
}

// A row that is a buffer.
#[tactic(auto, using(crate::proofs::Values::no_item, crate::proofs::Values::one_item))]
fn add_buffer(w: &mut Writer, row: ReportRow) -> Result<(), AllocError>
    ensures { OnOk result (AddsItems w.old w.new) }
{
    if let ReportRow::Buffer(buffer) = row {
        write_buffer(w, buffer)?;
    }
    Ok(())
}

#[tactic(auto, using(crate::proofs::Values::no_item, crate::proofs::Values::more_items))]
fn add_buffers(w: &mut Writer, rows: &[ReportRow]) -> Result<(), AllocError>
    ensures { OnOk result (AddsItems w.old w.new) }
{
    for row in rows {
        add_buffer(w, *row)?;
    }
    Ok(())
}

// ---- leaves

#[tactic(auto, using(crate::proofs::Values::object_2))]
fn write_repeat(w: &mut Writer, repeat: Repeat) -> Result<(), AllocError>
    ensures { OnOk result (IsValue w.old w.new) }
{
    open_object(w)?;
    put_number(w, "count", u64::from(repeat.count))?;
    put_number(w, "stride", u64::from(repeat.stride))?;
    close_object(w)?;
    Ok(())
}

#[tactic(auto, using(crate::proofs::Values::no_item, crate::proofs::Values::next_item))]
fn add_repeats(w: &mut Writer, repeats: &[Repeat]) -> Result<(), AllocError>
    ensures { OnOk result (AddsItems w.old w.new) }
{
    for repeat in repeats {
        write_repeat(w, *repeat)?;
    }
    Ok(())
}

#[tactic(auto, using(crate::proofs::Values::array_value))]
fn write_repeats(w: &mut Writer, repeats: &[Repeat]) -> Result<(), AllocError>
    ensures { OnOk result (IsValue w.old w.new) }
{
    open_array(w)?;
    add_repeats(w, repeats)?;
    close_array(w)?;
    Ok(())
}

#[tactic(auto, using(crate::proofs::Values::one_member))]
fn put_repeats(w: &mut Writer, repeats: &[Repeat]) -> Result<(), AllocError>
    ensures { OnOk result (AddsMembers w.old w.new) }
{
    key(w, "repeats")?;
    write_repeats(w, repeats)?;
    Ok(())
}

#[tactic(auto, using(crate::proofs::Values::members_4))]
fn put_leaf(w: &mut Writer, leaf: &LeafRow) -> Result<(), AllocError>
    ensures { OnOk result (AddsMembers w.old w.new) }
{
    put_number(w, "alignment", leaf.alignment)?;
    put_number(w, "length", leaf.len)?;
    put_number(w, "offset", leaf.first)?;
    put_text(w, "path", &leaf.path)?;
    Ok(())
}

#[tactic(auto, using(crate::proofs::Values::object_2))]
fn write_leaf(w: &mut Writer, leaf: &LeafRow) -> Result<(), AllocError>
    ensures { OnOk result (IsValue w.old w.new) }
{
    open_object(w)?;
    put_leaf(w, leaf)?;
    put_repeats(w, &leaf.repeats)?;
    close_object(w)?;
    Ok(())
}

// The leaves before the next buffer.
#[tactic(auto, using(crate::proofs::Values::no_item, crate::proofs::Values::next_item))]
fn add_leaves(w: &mut Writer, rows: &[ListingRow]) -> Result<(), AllocError>
    ensures { OnOk result (AddsItems w.old w.new) }
{
    for row in rows {
        match row {
            ListingRow::Leaf(leaf) => write_leaf(w, leaf)?,
            ListingRow::Buffer(_) => break,
        }
    }
    Ok(())
}

#[tactic(auto, using(crate::proofs::Values::array_value))]
fn write_leaves(w: &mut Writer, rows: &[ListingRow]) -> Result<(), AllocError>
    ensures { OnOk result (IsValue w.old w.new) }
{
    open_array(w)?;
    add_leaves(w, rows)?;
    close_array(w)?;
    Ok(())
}

#[tactic(auto, using(crate::proofs::Values::one_member))]
fn put_leaves(w: &mut Writer, rows: &[ListingRow]) -> Result<(), AllocError>
    ensures { OnOk result (AddsMembers w.old w.new) }
{
    key(w, "leaves")?;
    write_leaves(w, rows)?;
    Ok(())
}

// A buffer, with its leaves first among these rows.
#[tactic(auto, using(crate::proofs::Values::object_4))]
fn write_listed(w: &mut Writer, buffer: BufferRow, rows: &[ListingRow]) -> Result<(), AllocError>
    ensures { OnOk result (IsValue w.old w.new) }
{
    open_object(w)?;
    put_number(w, "alignment", u64::from(buffer.alignment))?;
    put_number(w, "global", buffer.global as u64)?;
    put_leaves(w, rows)?;
    put_number(w, "size", u64::from(buffer.size))?;
    close_object(w)?;
    Ok(())
}

// The buffer at an index, if one is there, with its leaves.
#[tactic(auto, using(crate::proofs::Values::no_item, crate::proofs::Values::one_item))]
fn add_listed(w: &mut Writer, rows: &[ListingRow], place: usize) -> Result<(), AllocError>
    ensures { OnOk result (AddsItems w.old w.new) }
{
    if let Some(ListingRow::Buffer(buffer)) = rows.get(place) {
        let rest = rows.get(place.saturating_add(1)..).unwrap_or(&[]);
        write_listed(w, *buffer, rest)?;
    }
    Ok(())
}

#[tactic(auto, using(crate::proofs::Values::no_item, crate::proofs::Values::more_items))]
fn add_listing(w: &mut Writer, rows: &[ListingRow]) -> Result<(), AllocError>
    ensures { OnOk result (AddsItems w.old w.new) }
{
    for place in 0..rows.len() {
        add_listed(w, rows, place)?;
    }
    Ok(())
}

/// Writes the buffers of a report, or if there is a listing those of the listing with their leaves.
#[tactic(auto, using(crate::proofs::Values::array_value))]
pub fn write_buffers(
    w: &mut Writer,
    rows: &[ReportRow],
    listing: Option<&[ListingRow]>,
) -> Result<(), AllocError>
    ensures { OnOk result (IsValue w.old w.new) }
{
    open_array(w)?;
    add_all_buffers(w, rows, listing)?;
    close_array(w)?;
    Ok(())
}

fn add_all_buffers(
    w: &mut Writer,
    rows: &[ReportRow],
    listing: Option<&[ListingRow]>,
) -> Result<(), AllocError>
    ensures { OnOk result (AddsItems w.old w.new) }
{
    match listing {
        Some(listing) => add_listing(w, listing),
        None => add_buffers(w, rows),
    }
}
