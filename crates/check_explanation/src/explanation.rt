// The validation result of a document, with the location of the error.
ghost use Rattle.std.specs.Prelude.{◌≡◌, ◌≢◌, ◌++◌, IfOk, codes, string_bytes};
ghost use Rattle.serde_json.specs.Data.{string};
ghost use Rattle.serde_json.specs.View.{view};
ghost use Rattle.check_explanation.specs.Explained.{IsMisread, IsRefusedWith, finding_of};
ghost use Rattle.check_explanation.specs.Objects.{IsObjectText};
ghost use Rattle.check_faults.specs.Objects.{Has};
ghost use Rattle.judgement.specs.judged.Text.{text_of};
ghost use Rattle.check_explanation.specs.Lines.{CanReport};
ghost use Rattle.check_explanation.specs.Listed.{CanReportIn, ExplainsBytes, ExplainsDocument, ExplainsModule, IsAccepted, lines_of};
ghost use Rattle.document_reader.specs.found.View.{document_view};
ghost use Rattle.document_reader.specs.declared.error.DocumentError.TheVariants.{Memory as no_memory};
ghost use Rattle.ir_items.specs.found.View.{module_view};
ghost use Rattle.shader_check.specs.found.Examined.{IsLeft, finding_in};
ghost use Rattle.shader_check.specs.found.Judgements.{Judged, FindsIn};

use crate::lines::{Lines, Requested, requested_lines};
use crate::object::{Source, accepted_text, refused_text, spelled};
use check_faults::no_document_value;
use check_names::{Names, Roles};
use check_reasons::{PathNames, Slip, hint};
use check_refusals::{RefusedItem, refused_item, value_of};
use document_forms::Place;
use document_reader::{Document, DocumentError, MAX_LEN, read_document};
use ir_flags::Capabilities;
use ir_items::Module;
use serde_json::Value;
use shader_check::{Examined, Finding, ValidationError, examine_document, refused_by};
use std::alloc::{AllocError, Global};
use std::fmt::{self, Display};
use typing_infos::ModuleInfo;

/// The validation result of a document, with the location of the error.
#[derive(Drop)]
pub enum Explanation {
    /// The bytes are not a document. The error is not out of memory. With a hint at what they look like, or the value at the error.
    NoDocument(DocumentError, String),
    /// The module is valid.
    Accepted {
        /// Whether strict scope was checked.
        strict: bool,
        /// The requested lines.
        lines: Lines,
        /// Names of the module's parts, if lines were requested.
        names: Names,
    },
    /// The module is invalid: the first failing item, and why.
    Refused(ValidationError, RefusedItem),
}

// Names of a module's parts, if lines are requested.
fn names(alloc: Global, requested: Requested, module: &Module) -> Result<Names, AllocError> {
    match requested {
        Requested::Nothing => Ok(Names::none(alloc)),
        Requested::Leaves | Requested::Report | Requested::ReportWithLeaves => {
            Names::of_module(alloc, module)
        }
    }
}

// The explanation of a valid module.
fn accepted(
    alloc: Global,
    requested: Requested,
    strict: bool,
    module: &Module,
    info: &ModuleInfo,
) -> Result<Explanation, AllocError>
    requires can { CanReport (module_view «module».now) info.now }
    ensures { IfOk result (IsAccepted requested (module_view «module».now) strict) }
{
    let names = names(alloc, requested, module)?;
    let lines = requested_lines(alloc, requested, module, info)?;
    Ok(Explanation::Accepted {
        strict,
        lines,
        names,
    })
}

// The explanation of an invalid module, or out of memory.
fn refused(
    error: ValidationError,
    item: Result<RefusedItem, AllocError>,
) -> Result<Explanation, AllocError>
    ensures { IfOk result (IsRefusedWith error) }
{
    match item {
        Ok(item) => Ok(Explanation::Refused(error, item)),
        Err(memory) => Err(memory),
    }
}

// The explanation of a validation result.
fn explained(
    alloc: Global,
    requested: Requested,
    capabilities: Capabilities,
    bytes: &[u8],
    examined: Examined,
    module: &Module,
) -> Result<Explanation, AllocError>
    requires can { CanReportIn (module_view «module».now) examined }
    ensures finding { IfOk result (λ e. finding_of e ≡ finding_in examined) }
    ensures explains { IfOk result (ExplainsModule requested (module_view «module».now) examined) }
{
    match examined {
        Examined::Accepted { strict, info } => {
            let explanation = accepted(alloc, requested, strict, module, &info);
            drop(info);
            explanation
        }
        Examined::Refused(error) => {
            let finding = refused_by(&error);
            let item = refused_item(alloc, capabilities, bytes, module, finding, &error);
            refused(error, item)
        }
    }
}

// A hint about the value in an invalid document, given what is required there.
fn slip(alloc: Global, bytes: &[u8], place: &Place, wanted: &str) -> Result<String, AllocError> {
    let document = value_of(alloc, bytes)?;
    let slip = Slip {
        document: &document,
        path: place.steps(),
        wanted,
    };
    format!(in alloc; "{slip}")
}

// A hint at what bytes look like that are not JSON.
fn looks(alloc: Global, bytes: &[u8]) -> Result<String, AllocError> {
    let found = hint(bytes);
    if found.is_empty() {
        Ok(String::new(alloc))
    } else {
        format!(in alloc; ": {found}")
    }
}

/// The explanation of a document, with the requested lines of its module, if it is valid, or its error;
/// `text` is the document as JSON, of which a reason quotes parts. Missing returns are inserted into its module if requested,
/// and the module keeps them. The error is out of memory; the module may then have the returns or not.
pub fn explain_document(
    alloc: Global,
    requested: Requested,
    text: &[u8],
    document: &mut Document,
) -> Result<Explanation, AllocError>
    ensures finding { IfOk result (λ e. FindsIn (document_view document.old) (finding_of e)) }
    ensures explains { IfOk result (ExplainsDocument requested (document_view document.old)) }
    ensures left { IsLeft document.old.returns document.old.«module» document.new.«module» }
    ensures settings { document.new ≡ record document.old { «module» = document.new.«module» } }
{
    let capabilities = document.settings.capabilities;
    let examined = examine_document(alloc, document)?;
    explained(
        alloc,
        requested,
        capabilities,
        text,
        examined,
        &document.module,
    )
}

// The explanation of bytes that are not a document, or out of memory.
fn unread(error: DocumentError, hint: Result<String, AllocError>) -> Result<Explanation, AllocError>
    requires { error ≢ no_memory }
    ensures { IfOk result (IsMisread error) }
{
    match hint {
        Ok(hint) => Ok(Explanation::NoDocument(error, hint)),
        Err(memory) => Err(memory),
    }
}

// The same, with a hint at what they look like, or the value at the error. The error is out of memory.
fn misread(alloc: Global, bytes: &[u8], error: DocumentError) -> Result<Explanation, AllocError>
    ensures { IfOk result (IsMisread error) }
{
    match error {
        DocumentError::Memory => Err(AllocError),
        DocumentError::TooLong => unread(error, Ok(String::new(alloc))),
        DocumentError::NotJson { .. } => unread(error, looks(alloc, bytes)),
        DocumentError::Malformed { place, wanted } => {
            unread(error, slip(alloc, bytes, &place, wanted.text()))
        }
    }
}

/// The explanation of the document in the bytes, with the requested lines of its module, if it is valid. The
/// error is out of memory.
pub fn explain(alloc: Global, requested: Requested, bytes: &[u8]) -> Result<Explanation, AllocError>
    ensures finding { IfOk result (λ e. Judged bytes.now (finding_of e)) }
    ensures explains { IfOk result (ExplainsBytes requested bytes.now) }
{
    match read_document(alloc, bytes) {
        Ok(mut document) => {
            let explanation = explain_document(alloc, requested, bytes, &mut document);
            drop(document);
            explanation
        }
        Err(error) => misread(alloc, bytes, error),
    }
}

// The path of the error in the document, unless it is the whole document.
fn write_place<W: fmt::Write>(f: &mut fmt::Formatter<W>, place: &Place) -> fmt::Result {
    let steps = place.steps();
    if steps.is_empty() {
        return Ok(());
    }
    write!(f, "{}: ", PathNames(steps))
}

// Why the bytes are not a document.
fn write_error<W: fmt::Write>(f: &mut fmt::Formatter<W>, error: &DocumentError) -> fmt::Result {
    match error {
        DocumentError::Memory => write!(f, "out of memory"),
        DocumentError::TooLong => write!(f, "more than {} bytes", MAX_LEN),
        DocumentError::NotJson { line, column } => {
            write!(f, "no JSON at line {line}, column {column}")
        }
        DocumentError::Malformed { place, wanted } => {
            write_place(f, place)?;
            write!(f, "{} is wanted", wanted.text())
        }
    }
}

// The failing step, and the failing item with its name.
fn write_item<W: fmt::Write>(f: &mut fmt::Formatter<W>, item: &RefusedItem) -> fmt::Result {
    let step = item.step;
    match (item.index, &item.name) {
        (Some(index), Some(name)) => write!(f, "refused {step} {index} {name:?}: "),
        (Some(index), None) => write!(f, "refused {step} {index}: "),
        (None, _) => write!(f, "refused {step}: "),
    }
}

// The indices of the location where bytes are not a document.
fn steps_of(error: &DocumentError) -> &[u32] {
    match error {
        DocumentError::Malformed { place, .. } => place.steps(),
        DocumentError::Memory | DocumentError::TooLong | DocumentError::NotJson { .. } => &[],
    }
}

// The line and the byte column at which the JSON parser stopped, if the bytes are not JSON.
fn position_of(error: &DocumentError) -> (Option<usize>, Option<usize>) {
    match error {
        DocumentError::NotJson { line, column } => (Some(*line), Some(*column)),
        DocumentError::Memory | DocumentError::TooLong | DocumentError::Malformed { .. } => (
            None, None,
        ),
    }
}

// Why the bytes are not a document, with the value at the error.
#[derive(Clone, Copy)]
struct Misformed<'a>(&'a DocumentError, &'a str);

impl Display for Misformed<'_> {
    fn fmt<W: fmt::Write>(&self, f: &mut fmt::Formatter<W>) -> fmt::Result {
        write_error(f, self.0)?;
        write!(f, "{}", self.1)
    }
}

// The object for bytes that are not a document.
fn no_document(alloc: Global, error: &DocumentError, hint: &str) -> Result<Value, AllocError>
    ensures { IfOk result (λ v. Has (view v) (codes "verdict") (string (codes "refused"))) }
{
    let text = format!(in alloc; "{}", Misformed(error, hint))?;
    let steps = steps_of(error);
    let path = format!(in alloc; "{}", PathNames(steps))?;
    let (line, column) = position_of(error);
    no_document_value(alloc, &path, steps, &text, line, column)
}

impl Explanation {
    /// The finding.
    pub fn finding(&self) -> Finding
        ensures { result ≡ finding_of self.now }
    {
        match self {
            Explanation::NoDocument(..) => Finding::RefusedDocument,
            Explanation::Accepted { strict, .. } => Finding::Accepted { strict: *strict },
            Explanation::Refused(error, _) => refused_by(error),
        }
    }

    /// The line of the verdict, followed by the requested lines. The error is out of memory.
    pub fn listing(&self, alloc: Global) -> Result<String, AllocError>
        ensures { IfOk result (λ text. string_bytes text ≡ text_of (finding_of self.now) ++ lines_of self.now) }
    {
        let mut text = self.finding().text(alloc)?;
        if let Explanation::Accepted { lines, .. } = self {
            lines.write(&mut text)?;
        }
        Ok(text)
    }

    /// One JSON object with all details, in one line without a line feed. The error is out of memory.
    pub fn json(&self, alloc: Global) -> Result<String, AllocError>
        ensures { IfOk result (λ s. IsObjectText (finding_of self.now) (string_bytes s)) }
    {
        self.json_with(alloc, &Roles::none(alloc), &[], Source::Document)
    }

    /// The same of a module from another language: with what global variables are in SPIR-V, the words of the skipped checks, and the
    /// source of the invalid part. The error is out of memory.
    pub fn json_with(
        &self,
        alloc: Global,
        roles: &Roles,
        without: &[&'static str],
        source: Source<'_>,
    ) -> Result<String, AllocError>
        ensures { IfOk result (λ s. IsObjectText (finding_of self.now) (string_bytes s)) }
    {
        match self {
            Explanation::NoDocument(error, hint) => {
                let value = no_document(alloc, error, hint)?;
                spelled(alloc, Finding::RefusedDocument, &value)
            }
            Explanation::Accepted {
                strict,
                lines,
                names,
            } => accepted_text(alloc, *strict, lines, names, roles, without),
            Explanation::Refused(error, item) => {
                refused_text(alloc, refused_by(error), item, without, source)
            }
        }
    }

    /// The error in `Debug` form, with its fields, if a step fails.
    pub fn error_name(&self) -> Option<&str> {
        match self {
            Explanation::Refused(_, item) => Some(item.error.as_str()),
            Explanation::NoDocument(..) | Explanation::Accepted { .. } => None,
        }
    }
}

impl Display for Explanation {
    fn fmt<W: fmt::Write>(&self, f: &mut fmt::Formatter<W>) -> fmt::Result {
        match self {
            Explanation::NoDocument(error, hint) => {
                write!(f, "no document: {}", Misformed(error, hint))
            }
            Explanation::Accepted { strict: false, .. } => write!(f, "accepted"),
            Explanation::Accepted { strict: true, .. } => write!(f, "accepted strict"),
            Explanation::Refused(_, item) => {
                write_item(f, item)?;
                write!(f, "{}", item.text.as_str())
            }
        }
    }
}
