//! The text for a document, in memory.

ghost use Rattle.std.specs.Prelude.{◌≡◌, ◌<◌, ◌≢◌, ◌≤◌, IfSome, string_bytes};
ghost use Rattle.shader_check.specs.found.Judgements.{Judged};
ghost use Rattle.check_explanation.specs.Answered.{IsAnswered, IsExplained, verdict_of};
ghost use Rattle.check_explanation.specs.Objects.{IsObjectText};
ghost use Rattle.check_explanation.specs.declared.lines.Requested.TheVariants.{Leaves as leaves, Report as report};
ghost use Rattle.shader_check_c.specs.Answers.{IsAnswerOn, IsListing, IsListingOfSpirv, IsObjectOfSpirv, front_of, status_in, status_of};
ghost use Rattle.shader_check_c.specs.Answers.{status_of_spirv};

use check_explanation::{
    Requested, SpirvAnswer, SpirvError, SpirvVerdict, Traced, check_spirv, document_text,
    error_text, explain, explain_spirv, unread_json,
};
use shader_check::{Finding, Sink, Source, Verdict, check_document};
use std::alloc::{AllocError, Global};

/// The result of the check for a document, with the text that it writes.
#[derive(Drop)]
pub(crate) struct Answer {
    pub(crate) verdict: Verdict,
    pub(crate) text: Vec<u8>,
}

/// The result of the check for these bytes; nothing if out of memory.
pub(crate) fn answer_on(alloc: Global, document: &[u8]) -> Option<Answer>
    ensures { IfSome result (λ answer. IsAnswerOn document.now answer.verdict answer.text.items) }
{
    let mut source = Source::new(document);
    let mut sink = Sink::new(Vec::new(alloc));
    match check_document(alloc, &mut source, &mut sink) {
        Ok(verdict) => Some(Answer {
            verdict,
            text: sink.into_inner(),
        }),
        Err(_) => None,
    }
}

/// The finding for a document, with its JSON object.
#[derive(Drop)]
pub(crate) struct Explained {
    pub(crate) finding: Finding,
    pub(crate) text: String,
}

/// The explanation of these bytes; nothing if out of memory.
pub(crate) fn explained_on(alloc: Global, document: &[u8]) -> Option<Explained>
    ensures judged { IfSome result (λ found. Judged document.now found.finding) }
    ensures object { IfSome result (λ found. IsObjectText found.finding (string_bytes found.text)) }
{
    match explain(alloc, Requested::Report, document) {
        Ok(explanation) => {
            let finding = explanation.finding();
            let object = explanation.json(alloc);
            drop(explanation);
            match object {
                Ok(text) => Some(Explained { finding, text }),
                Err(_) => None,
            }
        }
        Err(_) => None,
    }
}

/// The listing for these bytes, with the leaves of the buffers; nothing if out of memory.
pub(crate) fn listed_on(alloc: Global, document: &[u8]) -> Option<Explained>
    ensures { IfSome result (λ found. IsListing document.now found.finding (string_bytes found.text)) }
{
    match explain(alloc, Requested::Leaves, document) {
        Ok(explanation) => {
            let finding = explanation.finding();
            let listing = explanation.listing(alloc);
            drop(explanation);
            match listing {
                Ok(text) => Some(Explained { finding, text }),
                Err(_) => None,
            }
        }
        Err(_) => None,
    }
}

/// The result for this SPIR-V binary; nothing if out of memory.
pub(crate) fn spirv_answer_on(alloc: Global, spirv: &[u8]) -> Option<SpirvAnswer>
    ensures { IfSome result (λ answer. IsAnswered answer.verdict (string_bytes answer.text)) }
{
    match check_spirv(alloc, spirv) {
        Ok(answer) => Some(answer),
        Err(_) => None,
    }
}

fn verdict_of(finding: Finding) -> SpirvVerdict
    ensures { result ≡ verdict_of finding }
{
    match finding {
        Finding::Accepted { .. } => SpirvVerdict::Accepted,
        Finding::RefusedDocument | Finding::RefusedHandles | Finding::Refused(..) =>
            SpirvVerdict::Refused,
    }
}

// The text with its verdict, unless out of memory.
fn with_verdict(verdict: SpirvVerdict, text: Result<String, AllocError>) -> Option<SpirvAnswer>
    ensures { IfSome result (λ answer. (answer.verdict ≡ verdict) × (text ≡ Ok answer.text)) }
{
    match text {
        Ok(text) => Some(SpirvAnswer { verdict, text }),
        Err(_) => None,
    }
}

// Why no module was read from these bytes, in a line.
fn unread_line(alloc: Global, spirv: &[u8], error: SpirvError) -> Option<SpirvAnswer>
    ensures { IfSome result (λ answer. answer.verdict ≡ SpirvVerdict.Unread) }
{
    if let SpirvError::Memory = error {
        return None;
    }
    match error_text(alloc, spirv, &error) {
        Ok(text) => with_verdict(SpirvVerdict::Unread, format!(in alloc; "{text}\n")),
        Err(_) => None,
    }
}

// Why no module was read from these bytes, as an object.
fn unread_object(alloc: Global, spirv: &[u8], error: SpirvError) -> Option<SpirvAnswer>
    ensures { IfSome result (λ answer. answer.verdict ≡ SpirvVerdict.Unread) }
{
    with_verdict(SpirvVerdict::Unread, unread_json(alloc, spirv, &error))
}

// The JSON object of a module's explanation.
fn object_of(alloc: Global, traced: Traced) -> Option<SpirvAnswer>
    requires { IsExplained report traced.explanation }
    ensures { IfSome result (λ answer. IsObjectOfSpirv answer.verdict (string_bytes answer.text)) }
{
    let verdict = verdict_of(traced.explanation.finding());
    let object = traced.json(alloc, &[]);
    drop(traced);
    with_verdict(verdict, object)
}

// The listing of a module's explanation.
fn listing_of(alloc: Global, traced: Traced) -> Option<SpirvAnswer>
    requires { IsExplained leaves traced.explanation }
    ensures { IfSome result (λ answer. IsListingOfSpirv answer.verdict (string_bytes answer.text)) }
{
    let verdict = verdict_of(traced.explanation.finding());
    let listing = traced.explanation.listing(alloc);
    drop(traced);
    with_verdict(verdict, listing)
}

/// The explanation of this SPIR-V binary, as an object; nothing if out of memory.
pub(crate) fn spirv_object_on(alloc: Global, spirv: &[u8]) -> Option<SpirvAnswer>
    ensures { IfSome result (λ answer. IsObjectOfSpirv answer.verdict (string_bytes answer.text)) }
{
    match explain_spirv(alloc, Requested::Report, spirv) {
        Ok(traced) => object_of(alloc, traced),
        Err(error) => unread_object(alloc, spirv, error),
    }
}

/// The listing for this SPIR-V binary, with the leaves of the buffers; nothing if out of memory.
pub(crate) fn spirv_listing_on(alloc: Global, spirv: &[u8]) -> Option<SpirvAnswer>
    ensures { IfSome result (λ answer. IsListingOfSpirv answer.verdict (string_bytes answer.text)) }
{
    match explain_spirv(alloc, Requested::Leaves, spirv) {
        Ok(traced) => listing_of(alloc, traced),
        Err(error) => unread_line(alloc, spirv, error),
    }
}

/// The document that this SPIR-V binary is translated to, with the valid status though not validated, or why no module was
/// read; nothing if out of memory.
pub(crate) fn spirv_document_on(alloc: Global, spirv: &[u8]) -> Option<SpirvAnswer>
    ensures { IfSome result (λ answer. answer.verdict ≢ SpirvVerdict.Refused) }
{
    match document_text(alloc, spirv) {
        Ok(text) => with_verdict(SpirvVerdict::Accepted, Ok(text)),
        Err(error) => unread_line(alloc, spirv, error),
    }
}

/// Copies as many of the first bytes of a text into `room` as fit.
pub(crate) fn put_front(room: &mut [u8], text: &[u8])
    ensures { room.new ≡ front_of text.now room.old }
{
    let count = text.len().min(room.len());
    room[..count].copy_from_slice(&text[..count]);
}

/// 0 for valid, 1 for invalid.
pub(crate) fn status_of(verdict: Verdict) -> u32
    ensures is { result ≡ status_of verdict }
    ensures known { result < 2 }
{
    match verdict {
        Verdict::Accepted => 0,
        Verdict::Refused => 1,
    }
}

/// The status of a finding.
pub(crate) fn status_in(finding: Finding) -> u32
    ensures is { result ≡ status_in finding }
    ensures known { result < 2 }
{
    match finding {
        Finding::Accepted { .. } => 0,
        Finding::RefusedDocument | Finding::RefusedHandles | Finding::Refused(..) => 1,
    }
}

/// 0 for valid, 1 for invalid, 3 for a module that was not read.
pub(crate) fn status_of_spirv(verdict: SpirvVerdict) -> u32
    ensures is { result ≡ status_of_spirv verdict }
    ensures known { result ≤ 3 }
    ensures memory { result ≢ 2 }
{
    match verdict {
        SpirvVerdict::Accepted => 0,
        SpirvVerdict::Refused => 1,
        SpirvVerdict::Unread => 3,
    }
}
