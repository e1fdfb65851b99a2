//! The rows of the leaves of a value, in the order of their paths: one row for the same leaf of all elements of an array.

ghost use Rattle.std.specs.Prelude.{◌≡◌, ◌≤◌, ◌+◌, ◌++◌, ◌∷◌, [], map, IfOk, OnOk};
ghost use Rattle.ir_types.specs.judged.Plain.{inner_view, member_view};
ghost use Rattle.judgement_report.specs.Lines.{leaf_line, listing_line, listing_lines, repeat_words, row_lines};
ghost use Rattle.judgement_report.specs.Paths.{named, numbered, parts_at, parts_by, path_along};
ghost use Rattle.judgement_report.specs.Rows.{HasRoom};
ghost use Rattle.judgement_report.specs.Runs.{elements, listed, member_rows, row_of};
ghost use Rattle.judgement.specs.judged.Lines.{buffer_line};
ghost use Rattle.typing_forms.specs.judged.Order.{TypesGoBack};
ghost use Rattle.typing_forms.specs.judged.Resolutions.{types_view};
ghost use Rattle.typing_forms.specs.judged.Sizes.{type_size};
ghost use Rattle.typing_layout.specs.judged.View.{members_by, tree_by, type_tree};

use crate::leaves::{counted, vector_alignment};
use crate::listing_lines::MAX_LISTING;
use crate::paths::{copied, to_elements, to_member, with_repeat};
use ir_arena::handle::Handle;
use ir_sets::unique_arena::UniqueArena;
use ir_types::{IrType, StructMember, TypeInner, key};
use judgement_rows::{BufferRow, LeafRow, ListingRow, Repeat};
use std::alloc::{AllocError, Global};
use typing_forms::{TypeInnerExt, inner_of};

/// The maximum nesting depth of a buffer's types in a listing, which bounds the recursion.
pub const MAX_NESTING: usize = 255;

/// The rows of a listing, and a lower bound on the size of their lines in bytes.
#[derive(Drop)]
pub(crate) struct Listing {
    pub(crate) rows: Vec<ListingRow>,
    bytes: usize,
}

impl Listing {
    /// No rows.
    pub(crate) fn new(alloc: Global) -> Listing
        ensures { result.rows.items ≡ [] }
    {
        Listing {
            rows: Vec::new(alloc),
            bytes: 0,
        }
    }

    // Appends a row.
    fn keep(&mut self, row: ListingRow) -> Result<(), AllocError>
        ensures { OnOk result (self.new.rows.items ≡ self.old.rows.items ++ row ∷ []) }
    {
        self.rows.push(row)?;
        Ok(())
    }

    // The same, by the lines.
    fn push(&mut self, row: ListingRow) -> Result<(), AllocError>
        ensures { OnOk result (listing_lines self.new.rows.items ≡ listing_lines self.old.rows.items ++ listing_line row) }
    {
        self.keep(row)
    }

    /// Its rows.
    pub(crate) fn into_rows(self) -> Vec<ListingRow>
        ensures { result ≡ self.rows }
    {
        let Listing { rows, .. } = self;
        rows
    }
}

/// Appends the row of a buffer, by its index, its size and its alignment in bytes.
pub(crate) fn add_buffer(
    out: &mut Listing,
    global: usize,
    size: u32,
    alignment: u32,
) -> Result<(), AllocError>
    ensures { OnOk result (listing_lines out.new.rows.items ≡ listing_lines out.old.rows.items ++ buffer_line global size alignment) }
{
    out.push(ListingRow::Buffer(BufferRow {
        global,
        size,
        alignment,
    }))
}

// The bytes of a line beside those of its path, at least.
const MIN_LINE: usize = 12;

// A row of a leaf, with a copy of its path and of the arrays around it.
fn leaf_row(
    alloc: Global,
    path: &str,
    repeats: &[Repeat],
    first: u64,
    len: u64,
    alignment: u64,
) -> Result<ListingRow, AllocError>
    ensures { IfOk result (λ row. listing_line row ≡ leaf_line path.now (repeat_words repeats.now) first len alignment) }
{
    let repeats = copied(alloc, repeats)?;
    let path = String::from_str(alloc, path)?;
    Ok(ListingRow::Leaf(LeafRow {
        path,
        first,
        len,
        alignment,
        repeats,
    }))
}

// Appends the row of a value at this offset that is itself a leaf. The error is out of memory, or that the listing is too long.
fn add_leaf(
    alloc: Global,
    inner: &TypeInner,
    alignment: u64,
    path: &str,
    repeats: &[Repeat],
    start: u64,
    out: &mut Listing,
) -> Result<(), AllocError>
    ensures { OnOk result (listing_lines out.new.rows.items ≡ listing_lines out.old.rows.items ++ row_lines (λ p. path.now) (repeat_words repeats.now) start (row_of [] 0 (type_size (inner_view inner.now)) alignment ∷ [])) }
{
    if out.bytes > MAX_LISTING {
        return Err(AllocError);
    }
    let row = leaf_row(alloc, path, repeats, start, inner.size(), alignment)?;
    out.bytes = out
        .bytes
        .saturating_add(path.len())
        .saturating_add(MIN_LINE);
    out.push(row)
}

// Appends the rows of the leaves of `n` elements, the first of which is at this offset.
#[cycle(rows)]
fn add_elements(
    alloc: Global,
    types: &UniqueArena<IrType, key::IrType>,
    depth: usize,
    base: Handle<key::IrType>,
    count: u32,
    stride: u32,
    path: &str,
    repeats: &[Repeat],
    start: u64,
    out: &mut Listing,
) -> Result<(), AllocError>
    requires back { TypesGoBack (types_view types.now) }
    requires room { HasRoom start (depth + 1) }
    ensures { OnOk result (listing_lines out.new.rows.items ≡ listing_lines out.old.rows.items ++ row_lines (path_along (types_view types.now) path.now (numbered base)) (repeat_words repeats.now) start (elements count stride (listed (type_tree (types_view types.now) base)))) }
{
    if count == 0 {
        return Ok(());
    }
    let inside = to_elements(alloc, path, count)?;
    let apart = with_repeat(alloc, repeats, count, stride)?;
    add_along(alloc, types, depth, base, &inside, &apart, start, out)
}

// Appends the rows of the leaves of the members of a struct at this offset.
#[cycle(rows)]
fn add_members(
    alloc: Global,
    types: &UniqueArena<IrType, key::IrType>,
    depth: usize,
    members: &[StructMember],
    path: &str,
    repeats: &[Repeat],
    start: u64,
    out: &mut Listing,
) -> Result<(), AllocError>
    requires back { TypesGoBack (types_view types.now) }
    requires room { HasRoom start (depth + 1) }
    ensures { OnOk result (listing_lines out.new.rows.items ≡ listing_lines out.old.rows.items ++ row_lines (path_along (types_view types.now) path.now (named (map member_view members.now))) (repeat_words repeats.now) start (member_rows 0 (members_by (type_tree (types_view types.now)) (map member_view members.now)))) }
{
    for place in 0..members.len() {
        let member = &members[place];
        let offset = u64::from(member.offset);
        let inside = to_member(alloc, path, &member.name, place)?;
        add_along(
            alloc,
            types,
            depth,
            member.ty,
            &inside,
            repeats,
            start + offset,
            out,
        )?;
    }
    Ok(())
}

// Appends the rows of the leaves of a value at this offset, by its `TypeInner`.
#[cycle(rows)]
fn add_inner(
    alloc: Global,
    types: &UniqueArena<IrType, key::IrType>,
    depth: usize,
    inner: &TypeInner,
    path: &str,
    repeats: &[Repeat],
    start: u64,
    out: &mut Listing,
) -> Result<(), AllocError>
    requires back { TypesGoBack (types_view types.now) }
    requires room { HasRoom start (depth + 1) }
    ensures { OnOk result (listing_lines out.new.rows.items ≡ listing_lines out.old.rows.items ++ row_lines (path_along (types_view types.now) path.now (parts_by (inner_view inner.now))) (repeat_words repeats.now) start (listed (tree_by (type_tree (types_view types.now)) (inner_view inner.now)))) }
{
    match *inner {
        TypeInner::Scalar(scalar)
        | TypeInner::Atomic(scalar)
        | TypeInner::CooperativeMatrix { scalar, .. } => {
            add_leaf(
                alloc,
                inner,
                u64::from(scalar.width),
                path,
                repeats,
                start,
                out,
            )
        }
        TypeInner::Vector { size, scalar } => {
            let whole = vector_alignment(size, scalar.width);
            add_leaf(alloc, inner, whole, path, repeats, start, out)
        }
        TypeInner::Matrix { rows, scalar, .. } => {
            let column = vector_alignment(rows, scalar.width);
            add_leaf(alloc, inner, column, path, repeats, start, out)
        }
        TypeInner::Array { base, size, stride } => {
            add_elements(
                alloc,
                types,
                depth,
                base,
                counted(size),
                stride,
                path,
                repeats,
                start,
                out,
            )
        }
        TypeInner::Struct { ref members, .. } => {
            add_members(
                alloc,
                types,
                depth,
                members.as_slice(),
                path,
                repeats,
                start,
                out,
            )
        }
        TypeInner::Pointer { .. }
        | TypeInner::ValuePointer { .. }
        | TypeInner::Image { .. }
        | TypeInner::Sampler { .. }
        | TypeInner::AccelerationStructure { .. }
        | TypeInner::RayQuery { .. }
        | TypeInner::BindingArray { .. } => Ok(()),
    }
}

/// Appends the rows of the leaves of a value of the type at a handle, at this offset and with this path. The error is
/// out of memory, or that types nest deeper than the maximum, or that the listing is too long.
#[cycle(rows)]
pub(crate) fn add_along(
    alloc: Global,
    types: &UniqueArena<IrType, key::IrType>,
    depth: usize,
    handle: Handle<key::IrType>,
    path: &str,
    repeats: &[Repeat],
    start: u64,
    out: &mut Listing,
) -> Result<(), AllocError>
    requires back { TypesGoBack (types_view types.now) }
    requires room { HasRoom start depth }
    ensures { OnOk result (listing_lines out.new.rows.items ≡ listing_lines out.old.rows.items ++ row_lines (path_along (types_view types.now) path.now (parts_at (types_view types.now) handle)) (repeat_words repeats.now) start (listed (type_tree (types_view types.now) handle))) }
{
    if depth == 0 {
        return Err(AllocError);
    }
    match inner_of(types, handle) {
        Some(inner) => add_inner(alloc, types, depth - 1, inner, path, repeats, start, out),
        None => Ok(()),
    }
}
