//! A language server (LSP 3.17) for one kind of document: message framing, the state of the server, and its responses. The
//! diagnostics come from the caller.
#![tactic(auto)]

mod document;
mod fault;
mod frame;
mod message;
mod reply;
mod server;
mod slip;

pub use document::{Document, MAX_CHANGES, MAX_DOCUMENTS, MAX_TEXT, Text};
pub use fault::Fault;
pub use frame::{Frames, MAX_HEADER, MAX_MESSAGE, Received, framed};
pub use server::{Next, Server};
pub use slip::Slip;
