//! The whole report.

ghost use Rattle.std.specs.Prelude.{IfOk, OnOk, flat_map, string_bytes};
ghost use Rattle.ir_items.specs.found.View.{module_view};
ghost use Rattle.judgement_report.specs.Lines.{row_line};
ghost use Rattle.judgement_report.specs.Reported.{IsReported, Tells};
ghost use Rattle.judgement.specs.judged.Reports.{IsReport};

use crate::buffers::tell_buffers;
use crate::entries::tell_entries;
use crate::rows::RowSink;
use ir_items::Module;
use judgement_rows::ReportRow;
use std::alloc::{AllocError, Global};
use typing_infos::ModuleInfo;

// The rows of the report, in order.
fn tell_report<S: RowSink>(
    alloc: Global,
    out: &mut S,
    module: &Module,
    info: &ModuleInfo,
) -> Result<(), AllocError>
    requires { IsReported (module_view «module».now) info.now }
    ensures { OnOk result (Tells (IsReport (module_view «module».now)) (S.told out.old) (S.told out.new)) }
{
    tell_buffers(out, module, info)?;
    tell_entries(alloc, out, module, info)
}

/// The report of a valid module, given its `ModuleInfo`: the size and the alignment of each buffer, and for each
/// entry point its payload and mesh output, the uses of each other global variable by functions reachable from it, and which images
/// are sampled with which samplers. Each line ends with a line feed.
///
/// # Errors
///
/// Out of memory.
#[tactic(auto, using(crate::proofs::Written::alone))]
pub fn report(alloc: Global, module: &Module, info: &ModuleInfo) -> Result<String, AllocError>
    requires { IsReported (module_view «module».now) info.now }
    ensures { IfOk result (λ text. IsReport (module_view «module».now) (string_bytes text)) }
{
    let mut text = String::new(alloc);
    tell_report(alloc, &mut text, module, info)?;
    Ok(text)
}

/// The rows of the report of a valid module, given its `ModuleInfo`: their lines are the report.
///
/// # Errors
///
/// Out of memory.
#[tactic(auto, using(crate::proofs::Written::alone))]
pub fn report_rows(
    alloc: Global,
    module: &Module,
    info: &ModuleInfo,
) -> Result<Vec<ReportRow>, AllocError>
    requires { IsReported (module_view «module».now) info.now }
    ensures { IfOk result (λ rows. IsReport (module_view «module».now) (flat_map row_line rows.items)) }
{
    let mut rows = Vec::new(alloc);
    tell_report(alloc, &mut rows, module, info)?;
    Ok(rows)
}
