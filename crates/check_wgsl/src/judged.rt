// The result for a WGSL text.
ghost use Rattle.std.specs.Prelude.{◌≡◌, IfOk, string_bytes};
ghost use Rattle.wgsl_reader.specs.Checks.{MakesSixChecks};
ghost use Rattle.check_wgsl.specs.Answered.{IsOfSome, IsAnswered, IsSoundText, verdict_of};
ghost use Rattle.check_wgsl.specs.declared.judged.WgslVerdict.TheVariants.{Accepted, Unread};

use check_explanation::{Finding, Judgement, judge_document};
use document_reader::Document;
use document_writer::write_document;
use std::alloc::{AllocError, Global};
use wgsl_reader::{Cause, WgslError, message_of, read_wgsl};

/// The verdict on the text.
#[derive(Clone, Copy, Debug, PartialEq, Eq)]
pub enum WgslVerdict {
    /// The module is valid.
    Accepted,
    /// The module is invalid.
    Refused,
    /// No module was read: the text is not WGSL, or not supported by the translation.
    Unread,
}

/// The verdict on the text, with its output: the line of the finding and the report, or why no module was read.
#[derive(Drop)]
pub struct WgslAnswer {
    /// The verdict.
    pub verdict: WgslVerdict,
    /// The text.
    pub text: String,
}

fn verdict_of(finding: Finding) -> WgslVerdict
    ensures { result ≡ verdict_of finding }
{
    match finding {
        Finding::Accepted { .. } => WgslVerdict::Accepted,
        Finding::RefusedDocument | Finding::RefusedHandles | Finding::Refused(..) =>
            WgslVerdict::Refused,
    }
}

// The validation result of a document, with its report.
fn judge_read(alloc: Global, document: &mut Document) -> Result<Judgement, WgslError>
    requires { MakesSixChecks document.old.settings.flags }
    ensures { IfOk result IsOfSome }
{
    match judge_document(alloc, document) {
        Ok(judgement) => Ok(judgement),
        Err(_) => Err(WgslError::MEMORY),
    }
}

// The validation result of the document that the text is translated to, with its report.
fn judge_wgsl(alloc: Global, bytes: &[u8]) -> Result<Judgement, WgslError>
    ensures { IfOk result IsOfSome }
{
    match read_wgsl(alloc, bytes) {
        Ok(mut document) => {
            let judgement = judge_read(alloc, &mut document);
            drop(document);
            judgement
        }
        Err(error) => Err(error),
    }
}

// The result of a validation.
fn answer_of(alloc: Global, judgement: &Judgement) -> Result<WgslAnswer, AllocError>
    requires { IsOfSome judgement.now }
    ensures { IfOk result (λ a. IsAnswered a.verdict (string_bytes a.text)) }
{
    let text = judgement.text(alloc)?;
    Ok(WgslAnswer {
        verdict: verdict_of(judgement.finding),
        text,
    })
}

/// The validation result of the module in this WGSL text. If it is valid, the document that it is translated to has safe runs and
/// well laid out buffers, with the report in the output. The error is out of memory.
#[tactic(auto, using(crate::proofs::Soundness::sound_answer))]
pub fn check_wgsl(alloc: Global, bytes: &[u8]) -> Result<WgslAnswer, AllocError>
    ensures answered { IfOk result (λ a. IsAnswered a.verdict (string_bytes a.text)) }
    ensures sound { IfOk result (λ a. a.verdict ≡ Accepted → IsSoundText (string_bytes a.text)) }
{
    match judge_wgsl(alloc, bytes) {
        Ok(judgement) => answer_of(alloc, &judgement),
        Err(error) => unread(alloc, bytes, &error),
    }
}

// The reason why no module was read.
fn unread(alloc: Global, bytes: &[u8], error: &WgslError) -> Result<WgslAnswer, AllocError>
    ensures { IfOk result (λ a. a.verdict ≡ Unread) }
{
    if error.cause == Cause::Memory {
        return Err(AllocError);
    }
    let mut text = message_of(alloc, bytes, error)?;
    text.push_str("\n")?;
    Ok(WgslAnswer {
        verdict: WgslVerdict::Unread,
        text,
    })
}

// A document as JSON in one line without a line feed.
fn written(alloc: Global, document: &Document) -> Result<String, WgslError> {
    match write_document(alloc, document) {
        Ok(text) => Ok(text),
        Err(_) => Err(WgslError::MEMORY),
    }
}

/// The document that the text is translated to, as JSON in one line without a line feed.
pub fn wgsl_document(alloc: Global, bytes: &[u8]) -> Result<String, WgslError> {
    match read_wgsl(alloc, bytes) {
        Ok(document) => {
            let text = written(alloc, &document);
            drop(document);
            text
        }
        Err(error) => Err(error),
    }
}
