//! The text for WGSL, in memory.

ghost use Rattle.std.specs.Prelude.{◌≡◌, ◌≢◌, ◌≤◌, IfSome, string_bytes};
ghost use Rattle.check_explanation.specs.Answered.{IsExplained};
ghost use Rattle.check_explanation.specs.declared.lines.Requested.TheVariants.{Leaves as leaves, Report as report};
ghost use Rattle.check_wgsl.specs.Answered.{IsAnswered, verdict_of};
ghost use Rattle.shader_check_c.specs.Wgsl.{IsListingOfWgsl, IsObjectOfWgsl, status_of_wgsl};

use check_explanation::Requested;
use check_wgsl::{
    Cause, Diagnosed, WgslAnswer, WgslError, WgslVerdict, check_wgsl, explain_wgsl, message_of,
    unread_object, wgsl_document,
};
use shader_check::Finding;
use std::alloc::{AllocError, Global};

/// The result for this WGSL text; nothing if out of memory.
pub(crate) fn wgsl_answer_on(alloc: Global, wgsl: &[u8]) -> Option<WgslAnswer>
    ensures { IfSome result (λ answer. IsAnswered answer.verdict (string_bytes answer.text)) }
{
    match check_wgsl(alloc, wgsl) {
        Ok(answer) => Some(answer),
        Err(_) => None,
    }
}

fn verdict_of(finding: Finding) -> WgslVerdict
    ensures { result ≡ verdict_of finding }
{
    match finding {
        Finding::Accepted { .. } => WgslVerdict::Accepted,
        Finding::RefusedDocument | Finding::RefusedHandles | Finding::Refused(..) =>
            WgslVerdict::Refused,
    }
}

// The text with its verdict, unless out of memory.
fn with_verdict(verdict: WgslVerdict, text: Result<String, AllocError>) -> Option<WgslAnswer>
    ensures { IfSome result (λ answer. (answer.verdict ≡ verdict) × (text ≡ Ok answer.text)) }
{
    match text {
        Ok(text) => Some(WgslAnswer { verdict, text }),
        Err(_) => None,
    }
}

// Why no module was read from this text, in a line.
fn unread_line(alloc: Global, wgsl: &[u8], error: &WgslError) -> Option<WgslAnswer>
    ensures { IfSome result (λ answer. answer.verdict ≡ WgslVerdict.Unread) }
{
    if error.cause == Cause::Memory {
        return None;
    }
    match message_of(alloc, wgsl, error) {
        Ok(text) => with_verdict(WgslVerdict::Unread, format!(in alloc; "{text}\n")),
        Err(_) => None,
    }
}

// Why no module was read from this text, as an object.
fn unread_in_object(alloc: Global, wgsl: &[u8], error: &WgslError) -> Option<WgslAnswer>
    ensures { IfSome result (λ answer. answer.verdict ≡ WgslVerdict.Unread) }
{
    with_verdict(WgslVerdict::Unread, unread_object(alloc, wgsl, error))
}

// The JSON object of a text's explanation.
fn object_of(alloc: Global, diagnosed: Diagnosed) -> Option<WgslAnswer>
    requires { IsExplained report diagnosed.explanation }
    ensures { IfSome result (λ answer. IsObjectOfWgsl answer.verdict (string_bytes answer.text)) }
{
    let verdict = verdict_of(diagnosed.explanation.finding());
    let object = diagnosed.json(alloc);
    drop(diagnosed);
    with_verdict(verdict, object)
}

// The listing of a text's explanation.
fn listing_of(alloc: Global, diagnosed: Diagnosed) -> Option<WgslAnswer>
    requires { IsExplained leaves diagnosed.explanation }
    ensures { IfSome result (λ answer. IsListingOfWgsl answer.verdict (string_bytes answer.text)) }
{
    let verdict = verdict_of(diagnosed.explanation.finding());
    let listing = diagnosed.explanation.listing(alloc);
    drop(diagnosed);
    with_verdict(verdict, listing)
}

/// The explanation of this WGSL text, as an object; nothing if out of memory.
pub(crate) fn wgsl_object_on(alloc: Global, wgsl: &[u8]) -> Option<WgslAnswer>
    ensures { IfSome result (λ answer. IsObjectOfWgsl answer.verdict (string_bytes answer.text)) }
{
    match explain_wgsl(alloc, Requested::Report, wgsl) {
        Ok(diagnosed) => object_of(alloc, diagnosed),
        Err(error) => unread_in_object(alloc, wgsl, &error),
    }
}

/// The listing for this WGSL text, with the leaves of the buffers; nothing if out of memory.
pub(crate) fn wgsl_listing_on(alloc: Global, wgsl: &[u8]) -> Option<WgslAnswer>
    ensures { IfSome result (λ answer. IsListingOfWgsl answer.verdict (string_bytes answer.text)) }
{
    match explain_wgsl(alloc, Requested::Leaves, wgsl) {
        Ok(diagnosed) => listing_of(alloc, diagnosed),
        Err(error) => unread_line(alloc, wgsl, &error),
    }
}

/// The document that this WGSL text is translated to, with the valid status though not validated, or why no module was read;
/// nothing if out of memory.
pub(crate) fn wgsl_document_on(alloc: Global, wgsl: &[u8]) -> Option<WgslAnswer>
    ensures { IfSome result (λ answer. answer.verdict ≢ WgslVerdict.Refused) }
{
    match wgsl_document(alloc, wgsl) {
        Ok(text) => with_verdict(WgslVerdict::Accepted, Ok(text)),
        Err(error) => unread_line(alloc, wgsl, &error),
    }
}

/// 0 for valid, 1 for invalid, 3 for a text of which no module was read.
pub(crate) fn status_of_wgsl(verdict: WgslVerdict) -> u32
    ensures is { result ≡ status_of_wgsl verdict }
    ensures known { result ≤ 3 }
    ensures memory { result ≢ 2 }
{
    match verdict {
        WgslVerdict::Accepted => 0,
        WgslVerdict::Refused => 1,
        WgslVerdict::Unread => 3,
    }
}
