//! Validation of a document, of SPIR-V or of WGSL for hosts that can call C. `include/shader_check.h` declares the host API:
//! the same functions without `_c`, defined by `include/shader_check_calls.c`, which also allow null pointers.
#![tactic(auto)]

mod answer;
mod wgsl;

ghost use Rattle.std.specs.Prelude.{◌≡◌, ◌≢◌, ◌<◌, ◌≤◌, ◌+◌, ◌*◌};
ghost use Rattle.shader_check_c.specs.Answers.{IsGiven, IsExplained, IsGivenListing, IsGivenOfSpirv, IsGivenWith, IsListingOfSpirv};
ghost use Rattle.shader_check_c.specs.Answers.{IsObjectOfSpirv, IsReadOrNot};
ghost use Rattle.check_wgsl.specs.Answered.{IsAnswered as IsAnsweredOfWgsl};
ghost use Rattle.shader_check_c.specs.Wgsl.{IsGivenOfWgsl, IsListingOfWgsl, IsObjectOfWgsl, IsReadOrNotOfWgsl};

use answer::{
    answer_on, explained_on, listed_on, put_front, spirv_answer_on, spirv_document_on,
    spirv_listing_on, spirv_object_on, status_in, status_of, status_of_spirv,
};
use std::alloc::Global;
use wgsl::{status_of_wgsl, wgsl_answer_on, wgsl_document_on, wgsl_listing_on, wgsl_object_on};

const MAJOR: u32 = 0;

const MINOR: u32 = 1;

const PATCH: u32 = 0;

/// Validates the document in `document`, and writes the text of the verdict and the report to the front of `text`: as many
/// of its bytes as fit. `needed` is then the length of the whole text in bytes, so that a host with too small a
/// buffer can call again with a larger one.
///
/// Returns 0 for a valid document, 1 for an invalid one, and 2 if out of memory; then `text` is unchanged, and
/// `needed` is 0.
#[unsafe(no_mangle)]
pub extern "C" fn shader_check_c_text(
    alloc: Global,
    document: &[u8],
    text: &mut [u8],
    needed: &mut usize,
) -> u32
    ensures known { result ≤ 2 }
    ensures given { result < 2 → IsGiven document.now result text.old text.new needed.new }
    ensures refused { result ≡ 2 → text.new ≡ text.old }
    ensures refused_none { result ≡ 2 → needed.new ≡ 0 }
{
    *needed = 0;
    match answer_on(alloc, document) {
        Some(answer) => {
            *needed = answer.text.len();
            put_front(text, &answer.text);
            status_of(answer.verdict)
        }
        None => 2,
    }
}

/// Validates the document in `document`, and writes one JSON object with all details, as in `docs/answer.schema.json`,
/// to the front of `text`: the verdict, for an invalid document the step, the item, the path, the error and the reason, for a valid
/// one the report. `needed`, the status and out of memory are as for [`shader_check_c_text`].
#[unsafe(no_mangle)]
pub extern "C" fn shader_check_c_json(
    alloc: Global,
    document: &[u8],
    text: &mut [u8],
    needed: &mut usize,
) -> u32
    ensures known { result ≤ 2 }
    ensures explained { result < 2 → IsExplained document.now result text.old text.new needed.new }
    ensures refused { result ≡ 2 → text.new ≡ text.old }
    ensures refused_none { result ≡ 2 → needed.new ≡ 0 }
{
    *needed = 0;
    match explained_on(alloc, document) {
        Some(found) => {
            *needed = found.text.len();
            put_front(text, found.text.as_bytes());
            status_in(found.finding)
        }
        None => 2,
    }
}

/// Validates the SPIR-V module in `spirv`, and writes the text of the verdict and the report to the front of `text`, or why
/// no module was read, as `./shader-check --spirv` does: as many of its bytes as fit. `needed` is then the length of
/// the whole text in bytes.
///
/// Returns 0 for a valid module, 1 for an invalid one, 2 if out of memory, then `text` is unchanged and `needed` is 0,
/// and 3 if the words are not SPIR-V or not supported by the translation.
#[unsafe(no_mangle)]
pub extern "C" fn shader_check_c_spirv_text(
    alloc: Global,
    spirv: &[u8],
    text: &mut [u8],
    needed: &mut usize,
) -> u32
    ensures known { result ≤ 3 }
    ensures given { result ≢ 2 → IsGivenOfSpirv result text.old text.new needed.new }
    ensures refused { result ≡ 2 → text.new ≡ text.old }
    ensures refused_none { result ≡ 2 → needed.new ≡ 0 }
{
    *needed = 0;
    match spirv_answer_on(alloc, spirv) {
        Some(answer) => {
            *needed = answer.text.len();
            put_front(text, answer.text.as_bytes());
            status_of_spirv(answer.verdict)
        }
        None => 2,
    }
}

/// Validates the document in `document`, and writes the line of the verdict to the front of `text` and, if the document is
/// valid, a line for each buffer and each scalar, vector and matrix in it, as `./shader-check --leaves` does. `needed`, the status
/// and out of memory are as for [`shader_check_c_text`].
#[unsafe(no_mangle)]
pub extern "C" fn shader_check_c_leaves(
    alloc: Global,
    document: &[u8],
    text: &mut [u8],
    needed: &mut usize,
) -> u32
    ensures known { result ≤ 2 }
    ensures listed { result < 2 → IsGivenListing document.now result text.old text.new needed.new }
    ensures refused { result ≡ 2 → text.new ≡ text.old }
    ensures refused_none { result ≡ 2 → needed.new ≡ 0 }
{
    *needed = 0;
    match listed_on(alloc, document) {
        Some(found) => {
            *needed = found.text.len();
            put_front(text, found.text.as_bytes());
            status_in(found.finding)
        }
        None => 2,
    }
}

/// Validates the SPIR-V module in `spirv`, and writes one JSON object with all details to the front of `text`, as
/// `./shader-check --spirv --json` does. `needed` and the status are as for [`shader_check_c_spirv_text`].
#[unsafe(no_mangle)]
pub extern "C" fn shader_check_c_spirv_json(
    alloc: Global,
    spirv: &[u8],
    text: &mut [u8],
    needed: &mut usize,
) -> u32
    ensures known { result ≤ 3 }
    ensures given { result ≢ 2 → IsGivenWith IsObjectOfSpirv result text.old text.new needed.new }
    ensures refused { result ≡ 2 → text.new ≡ text.old }
    ensures refused_none { result ≡ 2 → needed.new ≡ 0 }
{
    *needed = 0;
    match spirv_object_on(alloc, spirv) {
        Some(answer) => {
            *needed = answer.text.len();
            put_front(text, answer.text.as_bytes());
            status_of_spirv(answer.verdict)
        }
        None => 2,
    }
}

/// Validates the SPIR-V module in `spirv`, and writes the line of the verdict to the front of `text` and, if it is
/// valid, the lines of its buffers with their leaves, as `./shader-check --spirv --leaves` does. `needed` and the status are as for
/// [`shader_check_c_spirv_text`].
#[unsafe(no_mangle)]
pub extern "C" fn shader_check_c_spirv_leaves(
    alloc: Global,
    spirv: &[u8],
    text: &mut [u8],
    needed: &mut usize,
) -> u32
    ensures known { result ≤ 3 }
    ensures given { result ≢ 2 → IsGivenWith IsListingOfSpirv result text.old text.new needed.new }
    ensures refused { result ≡ 2 → text.new ≡ text.old }
    ensures refused_none { result ≡ 2 → needed.new ≡ 0 }
{
    *needed = 0;
    match spirv_listing_on(alloc, spirv) {
        Some(answer) => {
            *needed = answer.text.len();
            put_front(text, answer.text.as_bytes());
            status_of_spirv(answer.verdict)
        }
        None => 2,
    }
}

/// Translates the SPIR-V module in `spirv`, and writes its document to the front of `text`, as `./shader-check --document` does
/// without the line feed. It is not validated. Returns 0, or a failure as [`shader_check_c_spirv_text`]; `needed` is as there.
#[unsafe(no_mangle)]
pub extern "C" fn shader_check_c_spirv_document(
    alloc: Global,
    spirv: &[u8],
    text: &mut [u8],
    needed: &mut usize,
) -> u32
    ensures known { result ≤ 3 }
    ensures given { result ≢ 2 → IsGivenWith IsReadOrNot result text.old text.new needed.new }
    ensures refused { result ≡ 2 → text.new ≡ text.old }
    ensures refused_none { result ≡ 2 → needed.new ≡ 0 }
{
    *needed = 0;
    match spirv_document_on(alloc, spirv) {
        Some(answer) => {
            *needed = answer.text.len();
            put_front(text, answer.text.as_bytes());
            status_of_spirv(answer.verdict)
        }
        None => 2,
    }
}

/// Validates the WGSL text in `wgsl`, and writes the text of the verdict and the report to the front of `text`, or why no
/// module was read, with its line and column, as `./shader-check --wgsl` does. `needed` is the length of the whole text in bytes.
///
/// Returns 0 for a valid module, 1 for an invalid one, 2 if out of memory, then `text` is unchanged and `needed` is 0,
/// and 3 if the text is not WGSL or not supported by the translation.
#[unsafe(no_mangle)]
pub extern "C" fn shader_check_c_wgsl_text(
    alloc: Global,
    wgsl: &[u8],
    text: &mut [u8],
    needed: &mut usize,
) -> u32
    ensures known { result ≤ 3 }
    ensures given { result ≢ 2 → IsGivenOfWgsl IsAnsweredOfWgsl result text.old text.new needed.new }
    ensures refused { result ≡ 2 → text.new ≡ text.old }
    ensures refused_none { result ≡ 2 → needed.new ≡ 0 }
{
    *needed = 0;
    match wgsl_answer_on(alloc, wgsl) {
        Some(answer) => {
            *needed = answer.text.len();
            put_front(text, answer.text.as_bytes());
            status_of_wgsl(answer.verdict)
        }
        None => 2,
    }
}

/// Validates the WGSL text in `wgsl`, and writes one JSON object with all details to the front of `text`, as
/// `./shader-check --wgsl --json` does. `needed` and the status are as for [`shader_check_c_wgsl_text`].
#[unsafe(no_mangle)]
pub extern "C" fn shader_check_c_wgsl_json(
    alloc: Global,
    wgsl: &[u8],
    text: &mut [u8],
    needed: &mut usize,
) -> u32
    ensures known { result ≤ 3 }
    ensures given { result ≢ 2 → IsGivenOfWgsl IsObjectOfWgsl result text.old text.new needed.new }
    ensures refused { result ≡ 2 → text.new ≡ text.old }
    ensures refused_none { result ≡ 2 → needed.new ≡ 0 }
{
    *needed = 0;
    match wgsl_object_on(alloc, wgsl) {
        Some(answer) => {
            *needed = answer.text.len();
            put_front(text, answer.text.as_bytes());
            status_of_wgsl(answer.verdict)
        }
        None => 2,
    }
}

/// Validates the WGSL text in `wgsl`, and writes the line of the verdict to the front of `text` and, if it is valid, the lines of its
/// buffers with their leaves, as `./shader-check --wgsl --leaves` does. `needed` and the status are as for
/// [`shader_check_c_wgsl_text`].
#[unsafe(no_mangle)]
pub extern "C" fn shader_check_c_wgsl_leaves(
    alloc: Global,
    wgsl: &[u8],
    text: &mut [u8],
    needed: &mut usize,
) -> u32
    ensures known { result ≤ 3 }
    ensures given { result ≢ 2 → IsGivenOfWgsl IsListingOfWgsl result text.old text.new needed.new }
    ensures refused { result ≡ 2 → text.new ≡ text.old }
    ensures refused_none { result ≡ 2 → needed.new ≡ 0 }
{
    *needed = 0;
    match wgsl_listing_on(alloc, wgsl) {
        Some(answer) => {
            *needed = answer.text.len();
            put_front(text, answer.text.as_bytes());
            status_of_wgsl(answer.verdict)
        }
        None => 2,
    }
}

/// Translates the WGSL text in `wgsl`, and writes its document to the front of `text`, as `./shader-check --wgsl --document` does
/// without the line feed. It is not validated. Returns 0, or a failure as [`shader_check_c_wgsl_text`]; `needed` is as there.
#[unsafe(no_mangle)]
pub extern "C" fn shader_check_c_wgsl_document(
    alloc: Global,
    wgsl: &[u8],
    text: &mut [u8],
    needed: &mut usize,
) -> u32
    ensures known { result ≤ 3 }
    ensures given { result ≢ 2 → IsGivenOfWgsl IsReadOrNotOfWgsl result text.old text.new needed.new }
    ensures refused { result ≡ 2 → text.new ≡ text.old }
    ensures refused_none { result ≡ 2 → needed.new ≡ 0 }
{
    *needed = 0;
    match wgsl_document_on(alloc, wgsl) {
        Some(answer) => {
            *needed = answer.text.len();
            put_front(text, answer.text.as_bytes());
            status_of_wgsl(answer.verdict)
        }
        None => 2,
    }
}

/// The version of this library: major, minor and patch number, the last two in 8 bits each.
#[unsafe(no_mangle)]
pub extern "C" fn shader_check_c_version() -> u32
    ensures { result ≡ MAJOR * 65536 + MINOR * 256 + PATCH }
{
    MAJOR << 16 | MINOR << 8 | PATCH
}
