//! The lines of a listing.

ghost use Rattle.std.specs.Prelude.{◌≡◌, ◌++◌, OnOk, codes, decimal, string_bytes};
ghost use Rattle.judgement_report.specs.Lines.{leaf_line, leaf_place, listing_line, listing_lines, path_word, repeat_words};

use crate::lines::write_buffer;
use judgement_rows::{LeafRow, ListingRow, Repeat};
use std::alloc::AllocError;

/// The maximum size of a listing in bytes: it ends at the line that exceeds it.
pub const MAX_LISTING: usize = 16777216;

// A path as text: a dot if it has no steps.
fn path_word(path: &str) -> &str
    ensures { result.now ≡ path_word path.now }
{
    if path.is_empty() { "." } else { path }
}

// Writes the path of a leaf.
fn write_place(
    text: &mut String,
    path: &str,
    first: u64,
    len: u64,
    alignment: u64,
) -> Result<(), AllocError>
    ensures { OnOk result (string_bytes text.new ≡ string_bytes text.old ++ leaf_place path.now first len alignment) }
{
    let word = path_word(path);
    write!(text, "leaf {word} {first} {len} {alignment}")
}

// Writes a stride.
fn write_repeat(text: &mut String, repeat: Repeat) -> Result<(), AllocError>
    ensures { OnOk result (string_bytes text.new ≡ string_bytes text.old ++ (codes " stride " ++ decimal repeat.stride)) }
{
    let stride = repeat.stride;
    write!(text, " stride {stride}")
}

// Writes the strides of the elements around a leaf.
fn write_repeats(text: &mut String, repeats: &[Repeat]) -> Result<(), AllocError>
    ensures { OnOk result (string_bytes text.new ≡ string_bytes text.old ++ repeat_words repeats.now) }
{
    for repeat in repeats {
        write_repeat(text, *repeat)?;
    }
    Ok(())
}

// Writes the line of a leaf.
fn write_leaf(text: &mut String, leaf: &LeafRow) -> Result<(), AllocError>
    ensures { OnOk result (string_bytes text.new ≡ string_bytes text.old
        ++ leaf_line (string_bytes leaf.now.path) (repeat_words leaf.now.repeats.items) leaf.now.first leaf.now.len leaf.now.alignment) }
{
    write_place(text, &leaf.path, leaf.first, leaf.len, leaf.alignment)?;
    write_repeats(text, &leaf.repeats)?;
    text.push_str("\n")
}

// Writes the line of a row.
fn write_listing_row(text: &mut String, row: &ListingRow) -> Result<(), AllocError>
    ensures { OnOk result (string_bytes text.new ≡ string_bytes text.old ++ listing_line row.now) }
{
    match row {
        ListingRow::Buffer(buffer) => write_buffer(text, *buffer),
        ListingRow::Leaf(leaf) => write_leaf(text, leaf),
    }
}

/// Writes the lines of a listing to the end of a text. The error is out of memory, or that they are longer than [`MAX_LISTING`].
pub fn write_listing(text: &mut String, rows: &[ListingRow]) -> Result<(), AllocError>
    ensures { OnOk result (string_bytes text.new ≡ string_bytes text.old ++ listing_lines rows.now) }
{
    let most = text.len().saturating_add(MAX_LISTING);
    for row in rows {
        if text.len() > most {
            return Err(AllocError);
        }
        write_listing_row(text, row)?;
    }
    Ok(())
}
