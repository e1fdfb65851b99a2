// The JSON object of an explanation.
ghost use Rattle.std.specs.Prelude.{◌≡◌, ◌≢◌, IfOk, codes, string_bytes};
ghost use Rattle.serde_json.specs.Data.{string};
ghost use Rattle.serde_json.specs.Find.{get};
ghost use Rattle.serde_json.specs.View.{view};
ghost use Rattle.check_explanation.specs.Objects.{IsObjectText, SaysVerdict, verdict_word};
ghost use Rattle.check_faults.specs.Objects.{Has};
ghost use Rattle.judgement.specs.declared.finding.Finding.TheVariants as findings;

use crate::lines::Lines;
use check_faults::{Refused, refused_value};
use check_names::{Accepted, Names, Roles, accepted_json};
use check_reasons::PathNames;
use check_refusals::{RefusedItem, place_value};
use serde_json::{Value, push, put};
use shader_check::Finding;
use std::alloc::{AllocError, Global};

/// The language that a module comes from, and what its invalid part comes from there.
#[derive(Clone, Copy)]
pub enum Source<'a> {
    /// A document.
    Document,
    /// SPIR-V, with the instruction.
    Spirv(&'a Value),
    /// WGSL, with the part of the text.
    Wgsl(&'a Value),
}

// The word for the verdict.
fn verdict_word(finding: Finding) -> &'static str
    ensures { result.now ≡ verdict_word finding }
{
    match finding {
        Finding::Accepted { .. } => "accepted",
        Finding::RefusedDocument | Finding::RefusedHandles | Finding::Refused(..) => "refused",
    }
}

/// The text of an object.
#[tactic(auto, using(crate::proofs::ObjectLaws::object_text))]
pub(crate) fn spelled(alloc: Global, finding: Finding, value: &Value) -> Result<String, AllocError>
    requires { SaysVerdict finding (view value.now) }
    ensures { IfOk result (λ s. IsObjectText finding (string_bytes s)) }
{
    value.to_string(alloc)
}

/// The text of the object of a valid module.
#[tactic(auto, using(crate::proofs::ObjectLaws::accepted_text))]
pub(crate) fn accepted_text(
    alloc: Global,
    strict: bool,
    lines: &Lines,
    names: &Names,
    roles: &Roles,
    without: &[&'static str],
) -> Result<String, AllocError>
    ensures { IfOk result (λ s. IsObjectText (findings.Accepted strict) (string_bytes s)) }
{
    accepted_json(
        alloc,
        &Accepted {
            strict,
            names,
            roles,
            rows: &lines.report,
            listing: lines.listed(),
            without,
        },
    )
}

// The object for an invalid item.
fn refused_object(alloc: Global, verdict: &str, item: &RefusedItem) -> Result<Value, AllocError>
    ensures { IfOk result (λ v. Has (view v) (codes "verdict") (string verdict.now)) }
{
    let steps: &[u32] = &item.path;
    let path = format!(in alloc; "{}", PathNames(steps))?;
    let name = match &item.name {
        Some(name) => Some(name.as_str()),
        None => None,
    };
    let refused = Refused {
        verdict,
        step: item.step,
        index: item.index,
        name,
        error: &item.error,
        path: &path,
        steps,
        text: &item.text,
    };
    let place = place_value(alloc, steps)?;
    refused_value(alloc, &refused, place, item.cause.clone()?)
}

// An object with a further member; another value is unchanged.
fn with_member(alloc: Global, value: Value, key: &str, member: Value) -> Result<Value, AllocError>
    requires { codes "verdict" ≢ key.now }
    ensures { IfOk result (λ v. get (codes "verdict") (view v) ≡ get (codes "verdict") (view value)) }
{
    match value {
        Value::Object(mut map) => {
            put(&mut map, alloc, key, member)?;
            Ok(Value::Object(map))
        }
        other => Ok(other),
    }
}

// An object with the source of the invalid part, if the module is not from a document.
#[tactic(auto, using(crate::proofs::ObjectLaws::not_spirv, crate::proofs::ObjectLaws::not_wgsl))]
fn with_source(alloc: Global, value: Value, source: Source<'_>) -> Result<Value, AllocError>
    ensures { IfOk result (λ v. get (codes "verdict") (view v) ≡ get (codes "verdict") (view value)) }
{
    match source {
        Source::Document => Ok(value),
        Source::Spirv(part) => {
            let part = part.clone()?;
            with_member(alloc, value, "spirv", part)
        }
        Source::Wgsl(part) => {
            let part = part.clone()?;
            with_member(alloc, value, "wgsl", part)
        }
    }
}

fn words_value(alloc: Global, words: &[&'static str]) -> Result<Value, AllocError> {
    let mut list = Vec::new(alloc);
    for word in words {
        push(&mut list, Value::try_from_str(alloc, word)?)?;
    }
    Ok(Value::Array(list))
}

// An object with the words of the skipped checks, if there are any.
#[tactic(auto, using(crate::proofs::ObjectLaws::not_without))]
fn with_words(alloc: Global, value: Value, words: &[&'static str]) -> Result<Value, AllocError>
    ensures { IfOk result (λ v. get (codes "verdict") (view v) ≡ get (codes "verdict") (view value)) }
{
    if words.is_empty() {
        return Ok(value);
    }
    let words = words_value(alloc, words)?;
    with_member(alloc, value, "without", words)
}

/// The text of the object of an invalid module.
pub(crate) fn refused_text(
    alloc: Global,
    finding: Finding,
    item: &RefusedItem,
    without: &[&'static str],
    source: Source<'_>,
) -> Result<String, AllocError>
    ensures { IfOk result (λ s. IsObjectText finding (string_bytes s)) }
{
    let plain = refused_object(alloc, verdict_word(finding), item)?;
    let placed = with_source(alloc, plain, source)?;
    let whole = with_words(alloc, placed, without)?;
    spelled(alloc, finding, &whole)
}
