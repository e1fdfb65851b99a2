//! From bytes to a verdict: `check_document`; the document, the report of its module, and, re-exported, the
//! `Validator`.
#![tactic(auto)]

mod check;
mod examined;
mod judge;
pub mod laws;
mod reported;

pub use check::{Fault, MAX_TAKEN, Verdict, check_document, outcome};
pub use check_ports::{ReadCall, Sink, Source, WriteCall};
pub use document_reader::{
    Document, DocumentError, Place, Wanted, build_module, read_document, take_document,
};
pub use examined::{Examined, refused_by};
pub use function_modules::function_errors::{
    InvalidEntryPoint, InvalidFunction, Named, ValidationError,
};
pub use function_modules::module_steps::{InvalidGlobalVariable, ModuleError};
pub use function_modules::{RealLower, Validator};
pub use ir_flags::Settings;
pub use judge::{examine_document, judge_document};
pub use judgement::{Finding, Step};
pub use reported::{Judgement, report};
