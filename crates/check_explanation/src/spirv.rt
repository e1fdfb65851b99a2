// The result for a SPIR-V module.
ghost use Rattle.std.specs.Prelude.{◌≡◌, IfOk, string_bytes};
ghost use Rattle.spirv_reader.specs.Checks.{MakesSixChecks};
ghost use Rattle.check_explanation.specs.Answered.{IsOfSome, IsAnswered, IsSoundText, verdict_of};
ghost use Rattle.check_explanation.specs.declared.spirv.SpirvVerdict.TheVariants.{Accepted};

use document_reader::Document;
use document_writer::write_document;
use shader_check::{Finding, Judgement, judge_document};
use spirv_lines::error_text;
use spirv_reader::{SpirvError, read_spirv};
use std::alloc::{AllocError, Global};

/// The verdict on the module.
#[derive(Clone, Copy, Debug, PartialEq, Eq)]
pub enum SpirvVerdict {
    /// The module is valid.
    Accepted,
    /// The module is invalid.
    Refused,
    /// No module was read: the words are not SPIR-V, or not supported by the translation.
    Unread,
}

/// The verdict on the module, with its text: the line of the finding and the report, or why no module was read.
#[derive(Drop)]
pub struct SpirvAnswer {
    /// The verdict.
    pub verdict: SpirvVerdict,
    /// The text.
    pub text: String,
}

fn verdict_of(finding: Finding) -> SpirvVerdict
    ensures { result ≡ verdict_of finding }
{
    match finding {
        Finding::Accepted { .. } => SpirvVerdict::Accepted,
        Finding::RefusedDocument | Finding::RefusedHandles | Finding::Refused(..) =>
            SpirvVerdict::Refused,
    }
}

// The validation result of a document, with its report.
fn judge_read(alloc: Global, document: &mut Document) -> Result<Judgement, SpirvError>
    requires { MakesSixChecks document.old.settings.flags }
    ensures { IfOk result IsOfSome }
{
    match judge_document(alloc, document) {
        Ok(judgement) => Ok(judgement),
        Err(_) => Err(SpirvError::Memory),
    }
}

// The validation result of the document that the module is translated to, with its report.
fn judge_spirv(alloc: Global, bytes: &[u8]) -> Result<Judgement, SpirvError>
    ensures { IfOk result IsOfSome }
{
    match read_spirv(alloc, bytes) {
        Ok(mut document) => {
            let judgement = judge_read(alloc, &mut document);
            drop(document);
            judgement
        }
        Err(error) => Err(error),
    }
}

// The result of a validation.
fn answer_of(alloc: Global, judgement: &Judgement) -> Result<SpirvAnswer, AllocError>
    requires { IsOfSome judgement.now }
    ensures { IfOk result (λ a. IsAnswered a.verdict (string_bytes a.text)) }
{
    let text = judgement.text(alloc)?;
    Ok(SpirvAnswer {
        verdict: verdict_of(judgement.finding),
        text,
    })
}

/// The validation result of the module in this SPIR-V binary. If it is valid, the document that it is translated to has safe runs
/// and well laid out buffers, with the report in the text. The error is out of memory.
#[tactic(auto, using(crate::proofs::Soundness::sound_answer))]
pub fn check_spirv(alloc: Global, bytes: &[u8]) -> Result<SpirvAnswer, AllocError>
    ensures answered { IfOk result (λ a. IsAnswered a.verdict (string_bytes a.text)) }
    ensures sound { IfOk result (λ a. a.verdict ≡ Accepted → IsSoundText (string_bytes a.text)) }
{
    match judge_spirv(alloc, bytes) {
        Ok(judgement) => answer_of(alloc, &judgement),
        Err(SpirvError::Memory) => Err(AllocError),
        Err(error) => {
            let mut text = error_text(alloc, bytes, &error)?;
            text.push_str("\n")?;
            Ok(SpirvAnswer {
                verdict: SpirvVerdict::Unread,
                text,
            })
        }
    }
}

/// A document as JSON in one line without a line feed.
pub(crate) fn written(alloc: Global, document: &Document) -> Result<String, SpirvError> {
    match write_document(alloc, document) {
        Ok(text) => Ok(text),
        Err(_) => Err(SpirvError::Memory),
    }
}

/// The document that the module is translated to, as JSON in one line without a line feed.
pub fn document_text(alloc: Global, bytes: &[u8]) -> Result<String, SpirvError> {
    match read_spirv(alloc, bytes) {
        Ok(document) => {
            let text = written(alloc, &document);
            drop(document);
            text
        }
        Err(error) => Err(error),
    }
}
