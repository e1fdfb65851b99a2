// A question about a document: a string, with the expected verdict and output.
use serde_json::Value;
use shader_check::{Fault, Verdict};
use test_support::call::text;

/// The results of a check.
pub type Answer = Result<Verdict, Fault>;

/// A document of the input, and the expected line.
#[derive(Clone, Copy)]
pub struct Row<'a> {
    pub input: &'a str,
    pub expected: &'a str,
}

impl<'a> Row<'a> {
    /// The row after a call's name.
    pub fn of(call: &'a Value) -> Row<'a> {
        Row {
            input: text(call, 1),
            expected: text(call, 2),
        }
    }

    /// Whether the result and the output are the expected ones.
    pub fn is_met(self, answer: Answer, written: &[u8]) -> bool {
        let expected = if self.expected.starts_with("accepted") {
            Verdict::Accepted
        } else {
            Verdict::Refused
        };
        answer == Ok(expected) && written == self.expected.as_bytes()
    }
}
