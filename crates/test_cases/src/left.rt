// What a validation leaves after its allocation failed: it is run, run again after a failure, and all is compared.
//
// If no allocation fails, it runs once. `bench/rows.py` makes each allocation fail in turn.
use document_reader::Document;
use shader_check::{Judgement, judge_document};
use std::alloc::{AllocError, Global};
use test_support::call::{freeing, told};
use test_support::questions::{Left, came_of};

// Whether a document is validated so.
fn is_judged_so(
    alloc: Global,
    document: &mut Document,
    known: &Judgement,
) -> Result<bool, AllocError> {
    let judgement = judge_document(alloc, document)?;
    let is_same = judgement.finding == known.finding && judgement.report == known.report;
    Ok(freeing(is_same, judgement))
}

// Whether a document is validated like its copy, and both are equal afterwards.
fn is_judged_as(
    alloc: Global,
    document: &mut Document,
    copy: &mut Document,
) -> Result<bool, AllocError> {
    let again = judge_document(alloc, document)?;
    let is_same = freeing(is_judged_so(alloc, copy, &again), again)?;
    Ok(is_same && copy.module == document.module)
}

// What `judge_document` leaves of a document, whose report is built last.
fn of_judgement(
    alloc: Global,
    document: &mut Document,
    copy: &mut Document,
) -> Result<Left, AllocError> {
    let judgement = judge_document(alloc, document);
    let refused = freeing(judgement.is_err(), judgement);
    let right = is_judged_as(alloc, document, copy)?;
    Ok(came_of(refused, right))
}

// What it leaves of a document, compared with this copy, in a word.
fn left_in_words(
    alloc: Global,
    document: &mut Document,
    copy: &mut Document,
) -> Result<String, AllocError> {
    let came = of_judgement(alloc, document, copy)?;
    told(alloc, came)
}

/// What `judge_document` leaves of a document after its allocation failed.
pub fn left_told(alloc: Global, document: &mut Document) -> Result<String, AllocError> {
    let mut copy = document.clone(alloc)?;
    freeing(left_in_words(alloc, document, &mut copy), copy)
}
