// The explained validation result of a SPIR-V module.
ghost use Rattle.std.specs.Prelude.{◌≡◌, IfOk, string_bytes};
ghost use Rattle.document_reader.specs.found.View.{document_view};
ghost use Rattle.check_explanation.specs.Answered.{IsExplained, IsExplainedOf};
ghost use Rattle.check_explanation.specs.Explained.{finding_of};
ghost use Rattle.check_explanation.specs.Objects.{IsObjectText};

use crate::explanation::{Explanation, explain_document};
use crate::lines::Requested;
use crate::object::Source;
use crate::origin::{Origin, origin_of};
use crate::spans::{FUNCTIONS, span_at};
use crate::spirv::written;
use check_names::{NamedRows, Names, Roles};
use document_reader::Document;
use ir_arena::span::Span;
use ir_items::Module;
use judgement_report::{BufferRow, ListingRow, ReportRow, write_listing};
use shader_check::ValidationError;
use spirv_reader::{SpirvError, read_spirv};
use std::alloc::{AllocError, Global};
use std::fmt::{self, Display};
use typing_errors::FunctionError;

/// An explanation, with the SPIR-V instruction that an invalid part comes from.
#[derive(Drop)]
pub struct Traced {
    /// The explanation of the document.
    pub explanation: Explanation,
    /// The instruction, if known; always none for a document not translated from SPIR-V.
    pub origin: Option<Origin>,
    /// The roles of the global variables of a valid module in SPIR-V.
    pub roles: Roles,
}

// The path of the expression that requires uniform control flow but does not have it: the error's path leads to the
// range that emits it.
fn diverging_path(error: &ValidationError) -> Option<[u32; 4]> {
    let ValidationError::Function(refused) = error else {
        return None;
    };
    let FunctionError::NonUniformControlFlow(_, expression, _) = &refused.error else {
        return None;
    };
    let function = u32::try_from(refused.function.index()).ok()?;
    let expression = u32::try_from(expression.index()).ok()?;
    Some([FUNCTIONS, function, 4, expression])
}

/// The span of the invalid part of a module, or of the item that it is in; undefined if the module is valid.
pub fn refused_span(module: &Module, explanation: &Explanation) -> Span {
    match explanation {
        Explanation::Refused(error, item) => match diverging_path(error) {
            Some(path) => span_at(module, &path),
            None => span_at(module, &item.path),
        },
        Explanation::NoDocument(..) | Explanation::Accepted { .. } => Span::UNDEFINED,
    }
}

// The instruction that the invalid part comes from.
fn trace(
    alloc: Global,
    bytes: &[u8],
    module: &Module,
    explanation: &Explanation,
) -> Result<Option<Origin>, SpirvError> {
    match explanation {
        Explanation::Refused(error, item) => match diverging_path(error) {
            Some(path) => origin_of(alloc, bytes, module, &path),
            None => origin_of(alloc, bytes, module, &item.path),
        },
        Explanation::NoDocument(..) | Explanation::Accepted { .. } => Ok(None),
    }
}

// The SPIR-V details of an explanation.
fn traces(
    alloc: Global,
    bytes: &[u8],
    module: &Module,
    explanation: &Explanation,
) -> Result<(Option<Origin>, Roles), SpirvError> {
    match explanation {
        Explanation::Accepted { .. } => Ok((None, Roles::of_bytes(alloc, module, bytes)?)),
        Explanation::NoDocument(..) | Explanation::Refused(..) => {
            let origin = trace(alloc, bytes, module, explanation)?;
            Ok((origin, Roles::none(alloc)))
        }
    }
}

// The explanation with the instruction that the invalid part comes from, and the roles of global variables.
fn with_origin(
    alloc: Global,
    bytes: &[u8],
    module: &Module,
    explanation: Explanation,
) -> Result<Traced, SpirvError>
    ensures { IfOk result (λ t. t.explanation ≡ explanation) }
{
    match traces(alloc, bytes, module, &explanation) {
        Ok((origin, roles)) => Ok(Traced {
            explanation,
            origin,
            roles,
        }),
        Err(error) => {
            drop(explanation);
            Err(error)
        }
    }
}

// The explanation of a document that was translated from these bytes and is written as this JSON.
fn explain_written(
    alloc: Global,
    requested: Requested,
    bytes: &[u8],
    text: &[u8],
    document: &mut Document,
) -> Result<Traced, SpirvError>
    ensures { IfOk result (λ t. IsExplainedOf requested (document_view document.old) t.explanation) }
{
    match explain_document(alloc, requested, text, document) {
        Ok(explanation) => with_origin(alloc, bytes, &document.module, explanation),
        Err(_) => Err(SpirvError::Memory),
    }
}

/// The explanation of a document that was translated from this SPIR-V binary, with the requested lines, if it is valid. Its
/// settings may differ from those it was translated with.
pub fn explain_made(
    alloc: Global,
    requested: Requested,
    bytes: &[u8],
    document: &mut Document,
) -> Result<Traced, SpirvError>
    ensures { IfOk result (λ t. IsExplainedOf requested (document_view document.old) t.explanation) }
{
    match written(alloc, document) {
        Ok(text) => explain_written(alloc, requested, bytes, text.as_bytes(), document),
        Err(error) => Err(error),
    }
}

/// The explanation of the document that this SPIR-V binary is translated to, with the requested lines, if it is valid.
pub fn explain_spirv(
    alloc: Global,
    requested: Requested,
    bytes: &[u8],
) -> Result<Traced, SpirvError>
    ensures { IfOk result (λ t. IsExplained requested t.explanation) }
{
    match read_spirv(alloc, bytes) {
        Ok(mut document) => {
            let traced = explain_made(alloc, requested, bytes, &mut document);
            drop(document);
            traced
        }
        Err(error) => Err(error),
    }
}

impl Display for Traced {
    fn fmt<W: fmt::Write>(&self, f: &mut fmt::Formatter<W>) -> fmt::Result {
        let explanation = &self.explanation;
        match &self.origin {
            Some(origin) => write!(f, "{explanation} ({origin})"),
            None => write!(f, "{explanation}"),
        }
    }
}

// Writes the line of a buffer with its name.
fn write_named_buffer(
    alloc: Global,
    text: &mut String,
    names: &Names,
    roles: &Roles,
    buffer: BufferRow,
) -> Result<(), AllocError> {
    let rows: &[ReportRow] = &[ReportRow::Buffer(buffer)];
    let named = NamedRows { names, roles, rows };
    let line = format!(in alloc; "{named}")?;
    text.push_str(&line)
}

// Writes the lines of buffers with names, and those of their leaves.
fn write_named_listing(
    alloc: Global,
    text: &mut String,
    names: &Names,
    roles: &Roles,
    rows: &[ListingRow],
) -> Result<(), AllocError> {
    for place in 0..rows.len() {
        match &rows[place] {
            ListingRow::Buffer(buffer) => {
                write_named_buffer(alloc, text, names, roles, *buffer)?;
            }
            ListingRow::Leaf(_) => {
                write_listing(text, &rows[place..place.saturating_add(1)])?;
            }
        }
    }
    Ok(())
}

impl Traced {
    /// The explanation of a document not translated from SPIR-V.
    pub fn of_document(alloc: Global, explanation: Explanation) -> Traced {
        Traced {
            explanation,
            origin: None,
            roles: Roles::none(alloc),
        }
    }

    /// One JSON object with all details and the words of the skipped checks, in one line without a line feed. The error is out of
    /// memory.
    pub fn json(&self, alloc: Global, without: &[&'static str]) -> Result<String, AllocError>
        ensures { IfOk result (λ s. IsObjectText (finding_of self.now.explanation) (string_bytes s)) }
    {
        match &self.origin {
            Some(origin) => {
                let value = origin.value(alloc)?;
                self.json_at(alloc, without, Source::Spirv(&value))
            }
            None => self.json_at(alloc, without, Source::Document),
        }
    }

    // The same with this source.
    fn json_at(
        &self,
        alloc: Global,
        without: &[&'static str],
        source: Source<'_>,
    ) -> Result<String, AllocError>
        ensures { IfOk result (λ s. IsObjectText (finding_of self.now.explanation) (string_bytes s)) }
    {
        self.explanation
            .json_with(alloc, &self.roles, without, source)
    }

    /// The line of the verdict, followed by the requested lines, with names for the indices of global variables and entry
    /// points. The error is out of memory.
    pub fn named(&self, alloc: Global) -> Result<String, AllocError> {
        let verdict = self.explanation.finding().text(alloc)?;
        match &self.explanation {
            Explanation::Accepted { lines, names, .. } => {
                let roles = &self.roles;
                let rows: &[ReportRow] = &lines.report;
                let named = NamedRows { names, roles, rows };
                let mut text = format!(in alloc; "{verdict}{named}")?;
                write_named_listing(alloc, &mut text, names, roles, &lines.listing)?;
                Ok(text)
            }
            Explanation::NoDocument(..) | Explanation::Refused(..) => Ok(verdict),
        }
    }
}
