// The rows to output for a valid document.
ghost use Rattle.std.specs.Prelude.{◌≡◌, ◌++◌, IfOk, OnOk, string_bytes};
ghost use Rattle.check_explanation.specs.Lines.{CanReport, ListsAsRequested, listed_of, reported_of};
ghost use Rattle.ir_items.specs.found.View.{module_view};

use ir_items::Module;
use judgement_report::{
    ListingRow, ReportRow, listing_rows, report_rows, write_listing, write_rows,
};
use std::alloc::{AllocError, Global};
use typing_infos::ModuleInfo;

/// What to output for a valid document, beyond the verdict.
#[derive(Clone, Copy, Debug, PartialEq, Eq)]
pub enum Requested {
    /// Nothing.
    Nothing,
    /// Its buffers, each with its leaves.
    Leaves,
    /// The report.
    Report,
    /// The report, and its buffers with their leaves.
    ReportWithLeaves,
}

/// The requested rows of a valid document.
#[derive(Drop)]
pub struct Lines {
    /// Those of its report.
    pub report: Vec<ReportRow>,
    /// Those of its buffers and their leaves.
    pub listing: Vec<ListingRow>,
}

impl Lines {
    /// Writes them as lines to the end of a text. The error is out of memory, or that those of leaves are too long.
    pub(crate) fn write(&self, text: &mut String) -> Result<(), AllocError>
        ensures { OnOk result (string_bytes text.new ≡ string_bytes text.old ++ (reported_of self.now ++ listed_of self.now)) }
    {
        write_rows(text, &self.report)?;
        write_listing(text, &self.listing)
    }

    /// Those of its buffers and their leaves, unless there are none.
    pub(crate) fn listed(&self) -> Option<&[ListingRow]> {
        if self.listing.is_empty() {
            None
        } else {
            Some(&self.listing)
        }
    }
}

// The rows of the buffers and their leaves alone.
fn leaves(alloc: Global, module: &Module, info: &ModuleInfo) -> Result<Lines, AllocError>
    requires can { CanReport (module_view «module».now) info.now }
    ensures { IfOk result (ListsAsRequested Requested.Leaves (module_view «module».now)) }
{
    let listing = listing_rows(alloc, module, info)?;
    Ok(Lines {
        report: Vec::new(alloc),
        listing,
    })
}

// The rows of the report alone.
fn report(alloc: Global, module: &Module, info: &ModuleInfo) -> Result<Lines, AllocError>
    requires can { CanReport (module_view «module».now) info.now }
    ensures { IfOk result (ListsAsRequested Requested.Report (module_view «module».now)) }
{
    let report = report_rows(alloc, module, info)?;
    Ok(Lines {
        report,
        listing: Vec::new(alloc),
    })
}

// Both.
fn report_with_leaves(
    alloc: Global,
    module: &Module,
    info: &ModuleInfo,
) -> Result<Lines, AllocError>
    requires can { CanReport (module_view «module».now) info.now }
    ensures { IfOk result (ListsAsRequested Requested.ReportWithLeaves (module_view «module».now)) }
{
    let listing = listing_rows(alloc, module, info)?;
    let report = report_rows(alloc, module, info)?;
    Ok(Lines { report, listing })
}

/// The requested rows of a module.
pub(crate) fn requested_lines(
    alloc: Global,
    requested: Requested,
    module: &Module,
    info: &ModuleInfo,
) -> Result<Lines, AllocError>
    requires can { CanReport (module_view «module».now) info.now }
    ensures { IfOk result (ListsAsRequested requested (module_view «module».now)) }
{
    match requested {
        Requested::Nothing => Ok(Lines {
            report: Vec::new(alloc),
            listing: Vec::new(alloc),
        }),
        Requested::Leaves => leaves(alloc, module, info),
        Requested::Report => report(alloc, module, info),
        Requested::ReportWithLeaves => report_with_leaves(alloc, module, info),
    }
}
