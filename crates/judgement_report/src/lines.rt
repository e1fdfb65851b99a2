//! The line of a row of the report.

ghost use Rattle.std.specs.Prelude.{◌≡◌, ◌++◌, OnOk, string_bytes, codes, decimal};
ghost use Rattle.judgement.specs.judged.Lines.{buffer_line, word_if};
ghost use Rattle.judgement_report.specs.Lines.{row_line, row_words};

use judgement_rows::{BufferRow, ReportRow, Uses};
use std::alloc::AllocError;

// Appends a word if a condition holds.
fn write_word(text: &mut String, holds: bool, word: &str) -> Result<(), AllocError>
    ensures { OnOk result (string_bytes text.new ≡ string_bytes text.old ++ word_if holds word.now) }
{
    if holds {
        write!(text, " {word}")
    } else {
        Ok(())
    }
}

// Writes the words of the uses of a global variable.
fn write_words(text: &mut String, uses: Uses) -> Result<(), AllocError>
    ensures { OnOk result (string_bytes text.new ≡ string_bytes text.old ++ row_words uses) }
{
    write_word(text, uses.read, "read")?;
    write_word(text, uses.write, "write")?;
    write_word(text, uses.query, "query")?;
    write_word(text, uses.atomic, "atomic")
}

/// Writes the line of a buffer.
pub(crate) fn write_buffer(text: &mut String, buffer: BufferRow) -> Result<(), AllocError>
    ensures { OnOk result (string_bytes text.new ≡ string_bytes text.old ++ buffer_line buffer.global buffer.size buffer.alignment) }
{
    let BufferRow {
        global,
        size,
        alignment,
    } = buffer;
    write!(text, "buffer {global} size {size} alignment {alignment}\n")
}

// Writes the line of a global variable and its uses.
fn write_global(text: &mut String, global: usize, uses: Uses) -> Result<(), AllocError>
    ensures { OnOk result (string_bytes text.new ≡ string_bytes text.old ++ (codes "global " ++ decimal global ++ row_words uses ++ codes "\n")) }
{
    write!(text, "global {global}")?;
    write_words(text, uses)?;
    text.push_str("\n")
}

/// Writes the line of a row.
pub(crate) fn write_row(text: &mut String, row: ReportRow) -> Result<(), AllocError>
    ensures { OnOk result (string_bytes text.new ≡ string_bytes text.old ++ row_line row) }
{
    match row {
        ReportRow::Buffer(buffer) => write_buffer(text, buffer),
        ReportRow::Entry(number) => write!(text, "entry {number}\n"),
        ReportRow::Payload(global) => write!(text, "payload {global}\n"),
        ReportRow::Mesh(global) => write!(text, "mesh {global}\n"),
        ReportRow::Global { global, uses } => write_global(text, global, uses),
        ReportRow::Sample { image, sampler } => write!(text, "sample {image} {sampler}\n"),
    }
}
