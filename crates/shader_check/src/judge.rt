// Validation of bytes.
ghost use Rattle.std.specs.Prelude.{◌≡◌, ◌↔◌, [], IfOk, IsTrue, OnErr, OnOk, string_bytes};
ghost use Rattle.ir_items.specs.found.Copies.{spanned_module};
ghost use Rattle.ir_items.specs.found.View.{module_view};
ghost use Rattle.document_reader.specs.found.View.{document_view};
ghost use Rattle.judgement.specs.judged.Steps.{IsPrepared, IsScopeStrict};
ghost use Rattle.judgement.specs.declared.finding.Finding.TheVariants.{RefusedDocument};
ghost use Rattle.shader_check.specs.found.Examined.{finding_in, IsExamined, IsExaminedDocument, IsKeptIn, IsLeft, IsRefusedSo};
ghost use Rattle.shader_check.specs.judged.Theorem.{IsReportedIn};
ghost use Rattle.shader_check.specs.found.Judgements.{IsJudgementOf, IsJudgementOn};

use crate::examined::Examined;
use crate::reported::Judgement;
use bitflags::Flags;
use document_reader::{Document, DocumentError, take_document};
use function_modules::function_errors::ValidationError;
use function_modules::{RealLower, Validator};
use ir_flags::{Settings, ValidationFlags};
use ir_items::Module;
use ir_types::refusal::Refusal;
use judgement::Finding;
use judgement_report::report;
use std::alloc::{AllocError, Global};
use typing_infos::ModuleInfo;

// The validator with these settings.
fn validator_for(alloc: Global, settings: Settings) -> Validator<RealLower>
    ensures { result.settings ≡ settings }
{
    Validator::with_settings(alloc, RealLower::new(ModuleInfo::new(alloc)), settings)
}

// Whether strict scope is checked.
fn is_strict(flags: ValidationFlags) -> bool
    ensures { IsTrue result ↔ IsScopeStrict flags }
{
    flags.contains(ValidationFlags::BLOCKS) && flags.contains(ValidationFlags::STRICT_SCOPE)
}

// The result for a module with this error.
fn examined_as(refusal: Refusal<ValidationError>) -> Result<Examined, AllocError>
    ensures { IfOk result (IsRefusedSo refusal) }
{
    match refusal {
        Refusal::Memory(error) => Err(error),
        Refusal::Fault(fault) => Ok(Examined::Refused(fault.into_inner())),
    }
}

// The validation result of a module.
fn examine_module(
    alloc: Global,
    settings: Settings,
    module: &Module,
) -> Result<Examined, AllocError>
    ensures { IfOk result (IsExamined settings (module_view «module».now)) }
{
    let mut validator = validator_for(alloc, settings);
    match validator.validate(module) {
        Ok(info) => Ok(Examined::Accepted {
            strict: is_strict(settings.flags),
            info,
        }),
        Err(refusal) => examined_as(refusal),
    }
}

// Inserts missing returns if requested.
fn prepare(alloc: Global, returns: bool, module: &mut Module) -> Result<(), AllocError>
    ensures ok { OnOk result (IsPrepared returns (module_view «module».old) (module_view «module».new)) }
    ensures err { OnErr result (spanned_module «module».new ≡ spanned_module «module».old) }
{
    if returns {
        module.ensure_block_returns(alloc)
    } else {
        Ok(())
    }
}

/// The validation result of the document, with the error if its module is invalid, which it is only if its condition holds.
/// Missing returns are inserted into its module if requested, and the module keeps them. The error is out of memory; the module may
/// then have the returns or not.
pub fn examine_document(alloc: Global, document: &mut Document) -> Result<Examined, AllocError>
    ensures left { IsLeft document.old.returns document.old.«module» document.new.«module» }
    ensures settings { document.new ≡ record document.old { «module» = document.new.«module» } }
    ensures examined { IfOk result (IsExaminedDocument (document_view document.old) (module_view document.new.«module»)) }
{
    prepare(alloc, document.returns, &mut document.module)?;
    examine_module(alloc, document.settings, &document.module)
}

// The report of a valid module, and an empty text for an invalid one.
fn report_on(alloc: Global, module: &Module, examined: &Examined) -> Result<String, AllocError>
    requires kept { IsKeptIn (module_view «module».now) examined.now }
    ensures { IfOk result (λ report. IsReportedIn (module_view «module».now) (finding_in examined.now) (string_bytes report)) }
{
    match examined {
        Examined::Accepted { info, .. } => report(alloc, module, info),
        Examined::Refused(_) => Ok(String::new(alloc)),
    }
}

/// The validation result of the document, with its report. Missing returns are inserted into its module if requested, and the
/// module keeps them. The error is out of memory; the module may then have the returns or not.
pub fn judge_document(alloc: Global, document: &mut Document) -> Result<Judgement, AllocError>
    ensures left { IsLeft document.old.returns document.old.«module» document.new.«module» }
    ensures settings { document.new ≡ record document.old { «module» = document.new.«module» } }
    ensures judged { IfOk result (IsJudgementOf (document_view document.old)) }
{
    let examined = examine_document(alloc, document)?;
    let finding = examined.finding();
    let report = report_on(alloc, &document.module, &examined);
    drop(examined);
    match report {
        Ok(report) => Ok(Judgement { finding, report }),
        Err(error) => Err(error),
    }
}

// The result for bytes that are not a document.
fn no_document(alloc: Global) -> Judgement
    ensures finding { result.finding ≡ RefusedDocument }
    ensures report { string_bytes result.report ≡ [] }
{
    Judgement {
        finding: Finding::RefusedDocument,
        report: String::new(alloc),
    }
}

/// The validation result of the document in the bytes, by the first failing step and in it the least index, with its
/// report. Bytes that are not a document are invalid. The bytes are freed after they are read. The error is out
/// of memory.
pub fn judge(alloc: Global, bytes: Vec<u8>) -> Result<Judgement, AllocError>
    ensures { IfOk result (IsJudgementOn bytes.items) }
{
    match take_document(alloc, bytes) {
        Ok(mut document) => judge_document(alloc, &mut document),
        Err(DocumentError::Memory) => Err(AllocError),
        Err(DocumentError::TooLong) => Ok(no_document(alloc)),
        Err(DocumentError::NotJson { .. }) => Ok(no_document(alloc)),
        Err(DocumentError::Malformed { .. }) => Ok(no_document(alloc)),
    }
}
