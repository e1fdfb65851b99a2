// The validation result of a document, with its report.
ghost use Rattle.std.specs.Prelude.{◌≡◌, ◌++◌, IfOk, string_bytes};
ghost use Rattle.ir_items.specs.found.View.{module_view};
ghost use Rattle.judgement.specs.judged.Reports.{IsReport};
ghost use Rattle.judgement.specs.judged.Text.{text_of};
ghost use Rattle.judgement_report.specs.Reported.{IsReported};

use document_reader::Document;
use judgement::Finding;
use judgement_report::report as report_of;
use std::alloc::{AllocError, Global};
use typing_infos::ModuleInfo;

/// The validation result of a document, and the report of its module: the lines after the first one, empty if it is invalid.
#[derive(Debug, Drop)]
pub struct Judgement {
    /// The finding.
    pub finding: Finding,
    /// The report.
    pub report: String,
}

impl Judgement {
    /// The text of the result: the line of the finding, and the report. The error is out of memory.
    pub fn text(&self, alloc: Global) -> Result<String, AllocError>
        ensures { IfOk result (λ text. string_bytes text ≡ text_of self.now.finding ++ string_bytes self.now.report) }
    {
        let mut text = self.finding.text(alloc)?;
        text.push_str(&self.report)?;
        Ok(text)
    }
}

/// The report of a document's module, given its `ModuleInfo`: the lines after the first one.
///
/// Requires that the `ModuleInfo` is that of a valid module, as [`crate::Validator::validate`] returns it,
/// by [`crate::laws::validated_is_reported`]. The error is out of memory.
pub fn report(alloc: Global, document: &Document, info: &ModuleInfo) -> Result<String, AllocError>
    requires { IsReported (module_view document.now.«module») info.now }
    ensures { IfOk result (λ text. IsReport (module_view document.now.«module») (string_bytes text)) }
{
    report_of(alloc, &document.module, info)
}
