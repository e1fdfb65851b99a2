// The explained validation result of a WGSL text.
ghost use Rattle.std.specs.Prelude.{◌≡◌, IfOk, string_bytes};
ghost use Rattle.document_reader.specs.found.View.{document_view};
ghost use Rattle.check_explanation.specs.Answered.{IsExplained, IsExplainedOf};
ghost use Rattle.check_explanation.specs.Explained.{finding_of};
ghost use Rattle.check_explanation.specs.Objects.{IsObjectText};

use crate::excerpt::Excerpt;
use crate::location::Location;
use check_explanation::{Explanation, Requested, Roles, Source, explain_document, refused_span};
use document_reader::Document;
use document_writer::write_document;
use ir_items::Module;
use std::alloc::{AllocError, Global};
use wgsl_reader::{WgslError, read_wgsl};

/// An explanation, with the part of the WGSL text that the invalid part of the module comes from.
#[derive(Drop)]
pub struct Diagnosed {
    /// The explanation of the document that the text is translated to.
    pub explanation: Explanation,
    /// The part of the text, if the module is invalid and the part is known.
    pub location: Option<Location>,
}

// The explanation with the part of the text.
fn located(bytes: &[u8], module: &Module, explanation: Explanation) -> Diagnosed
    ensures { result.explanation ≡ explanation }
{
    let location = match refused_span(module, &explanation).to_range() {
        Some(range) => Some(Location::new(bytes, range.start, range.end)),
        None => None,
    };
    Diagnosed {
        explanation,
        location,
    }
}

// The explanation of a document that was translated from these bytes and is written as this JSON.
fn explain_written(
    alloc: Global,
    requested: Requested,
    bytes: &[u8],
    text: &[u8],
    document: &mut Document,
) -> Result<Diagnosed, WgslError>
    ensures { IfOk result (λ d. IsExplainedOf requested (document_view document.old) d.explanation) }
{
    match explain_document(alloc, requested, text, document) {
        Ok(explanation) => Ok(located(bytes, &document.module, explanation)),
        Err(_) => Err(WgslError::MEMORY),
    }
}

// The explanation of a document that was translated from these bytes.
fn explain_read(
    alloc: Global,
    requested: Requested,
    bytes: &[u8],
    document: &mut Document,
) -> Result<Diagnosed, WgslError>
    ensures { IfOk result (λ d. IsExplainedOf requested (document_view document.old) d.explanation) }
{
    match write_document(alloc, document) {
        Ok(text) => explain_written(alloc, requested, bytes, text.as_bytes(), document),
        Err(_) => Err(WgslError::MEMORY),
    }
}

/// The explanation of the document that this WGSL text is translated to, with the requested lines, if it is valid. The error is why
/// no module was read.
pub fn explain_wgsl(
    alloc: Global,
    requested: Requested,
    bytes: &[u8],
) -> Result<Diagnosed, WgslError>
    ensures { IfOk result (λ d. IsExplained requested d.explanation) }
{
    match read_wgsl(alloc, bytes) {
        Ok(mut document) => {
            let diagnosed = explain_read(alloc, requested, bytes, &mut document);
            drop(document);
            diagnosed
        }
        Err(error) => Err(error),
    }
}

impl Diagnosed {
    /// The line of the explanation with the line and column, followed by the excerpt of the text; without them if they are not known.
    /// With `names` the error in `Debug` form stands in parentheses. The error is out of memory.
    pub fn text(&self, alloc: Global, bytes: &[u8], names: bool) -> Result<String, AllocError> {
        let explanation = &self.explanation;
        let mut text = format!(in alloc; "{explanation}")?;
        if names {
            if let Some(error) = explanation.error_name() {
                let error = format!(in alloc; " ({error})")?;
                text.push_str(&error)?;
            }
        }
        if let Some(location) = &self.location {
            let (line, column) = (location.line(), location.column());
            let excerpt = Excerpt::new(bytes, location);
            let place = format!(in alloc; " at {line}:{column}\n{excerpt}")?;
            text.push_str(&place)?;
        }
        Ok(text)
    }

    /// The JSON object of the explanation in one line without a line feed, with the location as `wgsl`. The error is out of memory.
    pub fn json(&self, alloc: Global) -> Result<String, AllocError>
        ensures { IfOk result (λ s. IsObjectText (finding_of self.now.explanation) (string_bytes s)) }
    {
        match &self.location {
            Some(location) => {
                let value = location.value(alloc)?;
                self.json_at(alloc, Source::Wgsl(&value))
            }
            None => self.json_at(alloc, Source::Document),
        }
    }

    // The same with this source.
    fn json_at(&self, alloc: Global, source: Source<'_>) -> Result<String, AllocError>
        ensures { IfOk result (λ s. IsObjectText (finding_of self.now.explanation) (string_bytes s)) }
    {
        self.explanation
            .json_with(alloc, &Roles::none(alloc), &[], source)
    }
}
