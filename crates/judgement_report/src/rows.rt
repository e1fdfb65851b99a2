//! What takes the rows of the report.

ghost use Rattle.std.specs.Prelude.{◌≡◌, ◌++◌, ◌∷◌, [], ℕ, List, OnOk, flat_map, string_bytes};
ghost use Rattle.judgement_report.specs.Lines.{row_line};

use crate::lines::write_row;
use judgement_rows::ReportRow;
use std::alloc::AllocError;

/// What takes the rows of a report, one after the other. In a contract `told` is the lines of its rows so far.
pub(crate) trait RowSink {
    ghost told: { Self → List ℕ };

    /// Takes a row. The error is out of memory.
    fn row(&mut self, row: ReportRow) -> Result<(), AllocError>
        ensures { OnOk result (told self.new ≡ told self.old ++ row_line row) };
}

// The rows are written as lines.
impl RowSink for String {
    ghost told = { string_bytes };

    fn row(&mut self, row: ReportRow) -> Result<(), AllocError> {
        write_row(self, row)
    }
}

// The rows are kept.
impl RowSink for Vec<ReportRow> {
    ghost told = { λ rows. flat_map row_line rows.items };

    fn row(&mut self, row: ReportRow) -> Result<(), AllocError> {
        keep_line(self, row)
    }
}

// Appends a row.
fn keep(rows: &mut Vec<ReportRow>, row: ReportRow) -> Result<(), AllocError>
    ensures { OnOk result (rows.new.items ≡ rows.old.items ++ row ∷ []) }
{
    rows.push(row)?;
    Ok(())
}

// The same, by the lines.
fn keep_line(rows: &mut Vec<ReportRow>, row: ReportRow) -> Result<(), AllocError>
    ensures { OnOk result (flat_map row_line rows.new.items ≡ flat_map row_line rows.old.items ++ row_line row) }
{
    keep(rows, row)
}

/// Writes the lines of these rows of a report to the end of a text. The error is out of memory.
pub fn write_rows(text: &mut String, rows: &[ReportRow]) -> Result<(), AllocError>
    ensures { OnOk result (string_bytes text.new ≡ string_bytes text.old ++ flat_map row_line rows.now) }
{
    for row in rows {
        write_row(text, *row)?;
    }
    Ok(())
}
