//! The explained validation result of a document: in words, with the path of the invalid item and the requirement, as one JSON
//! object, or with the lines of its buffers. Also SPIR-V: its module is validated unchanged, and an error
//! is reported at the instruction that it comes from.
#![tactic(auto)]

mod explanation;
mod lines;
mod object;
mod origin;
mod spans;
mod spirv;
mod traced;
mod varyings;

pub use check_names::{Roles, unread_json};
pub use check_refusals::RefusedItem;
pub use explanation::{Explanation, explain, explain_document};
pub use lines::{Lines, Requested};
pub use object::Source;
pub use origin::Origin;
pub use shader_check::{DocumentError, Finding, Judgement, MAX_TAKEN, judge_document};
pub use spirv::{SpirvAnswer, SpirvVerdict, check_spirv, document_text};
pub use spirv_lines::error_text;
pub use spirv_reader::SpirvError;
pub use traced::{Traced, explain_made, explain_spirv, refused_span};
