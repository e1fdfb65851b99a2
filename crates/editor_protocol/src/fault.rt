// The errors of messages.

use std::fmt::{self, Display};

/// The error response to a message: the errors of JSON-RPC 2.0 and of LSP 3.17.
#[derive(Clone, Copy, Debug, PartialEq, Eq)]
pub enum Fault {
    /// The bytes do not begin with a message header.
    NoHeader,
    /// The text is not JSON, or nests too deep.
    NoJson,
    /// The message is not JSON-RPC 2.0, or not allowed in this state.
    NoRequest(&'static str),
    /// The method does not exist.
    NoMethod,
    /// The parameters are invalid for the method.
    NoParameters,
    /// The server is not initialized.
    NotInitialized,
}

impl Fault {
    /// Its JSON-RPC error code.
    pub fn code(self) -> i64 {
        match self {
            Fault::NoHeader | Fault::NoJson => -32700,
            Fault::NoRequest(_) => -32600,
            Fault::NoMethod => -32601,
            Fault::NoParameters => -32602,
            Fault::NotInitialized => -32002,
        }
    }
}

impl Display for Fault {
    fn fmt<W: fmt::Write>(&self, f: &mut fmt::Formatter<W>) -> fmt::Result {
        match self {
            Fault::NoHeader => write!(f, "no header with a Content-Length begins the message"),
            Fault::NoJson => write!(f, "the message is no JSON"),
            Fault::NoRequest(why) => write!(f, "{why}"),
            Fault::NoMethod => write!(f, "there is no such method here"),
            Fault::NoParameters => write!(f, "the parameters are not those of the method"),
            Fault::NotInitialized => write!(f, "the server was not initialized"),
        }
    }
}
