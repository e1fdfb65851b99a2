// Message framing: a header with the content length, and the content.
ghost use Rattle.std.specs.Prelude.{◌≡◌, ◌≤◌, ◌+◌, IfOk, IfSome, codes, length, string_bytes};
ghost use Rattle.editor_protocol.specs.Frames.{HasLength, IsDue, IsNoMessage, announced, frame_of};

use std::alloc::{AllocError, Global};
use std::mem;
use std::str::from_utf8;

/// The maximum length of a message, in bytes.
pub const MAX_MESSAGE: usize = 64 << 20;

/// The maximum length of a header, in bytes.
pub const MAX_HEADER: usize = 4096;

/// The result of reading bytes.
#[derive(Drop)]
pub enum Received {
    /// No complete message yet.
    Part,
    /// A message.
    Message(Vec<u8>),
    /// A message of more than [`MAX_MESSAGE`] bytes, which are skipped.
    TooLong,
    /// A header without a length, or longer than [`MAX_HEADER`]. The start of the next message is not known.
    NoHeader,
}

// The state of the reader.
#[derive(Clone, Copy, Debug, PartialEq, Eq)]
enum Stage {
    Header,
    // The content of a message, with its total length.
    Body(usize),
    // The remaining bytes of a message that is too long.
    Skipped(usize),
}

/// A reader of messages from the input bytes.
#[derive(Drop)]
pub struct Frames {
    stage: Stage,
    // The bytes of the header or of the message so far.
    kept: Vec<u8>,
}

// The content length in a line of a header.
fn length_in_line(line: &str) -> Option<usize> {
    let (name, value) = line.split_once(':')?;
    if !name.trim().eq_ignore_ascii_case("content-length") {
        return None;
    }
    value.trim().parse::<usize>().ok()
}

// The content length in a header.
fn length_in(header: &[u8]) -> Option<usize> {
    let text = from_utf8(header).ok()?;
    for line in text.lines() {
        if let Some(length) = length_in_line(line) {
            return Some(length);
        }
    }
    None
}

impl Frames {
    /// A reader without input.
    pub fn new(alloc: Global) -> Frames {
        Frames {
            stage: Stage::Header,
            kept: Vec::new(alloc),
        }
    }

    // Reads bytes of a header, up to its end. Returns how many.
    fn take_header(&mut self, bytes: &[u8]) -> Result<usize, AllocError>
        ensures { IfOk result (λ count. count ≤ length bytes.now) }
    {
        for (at, byte) in bytes.iter().enumerate() {
            self.kept.push(*byte)?;
            if self.kept.ends_with(b"\r\n\r\n") || self.kept.len() > MAX_HEADER {
                return Ok(at + 1);
            }
        }
        Ok(bytes.len())
    }

    // The result of a complete header.
    fn end_header(&mut self, alloc: Global) -> Received
        ensures { IsNoMessage result }
    {
        if !self.kept.ends_with(b"\r\n\r\n") {
            return if self.kept.len() > MAX_HEADER {
                Received::NoHeader
            } else {
                Received::Part
            };
        }
        let Some(length) = length_in(&self.kept) else {
            return Received::NoHeader;
        };
        self.kept = Vec::new(alloc);
        self.stage = if length > MAX_MESSAGE {
            Stage::Skipped(length)
        } else {
            Stage::Body(length)
        };
        Received::Part
    }

    // Reads bytes of a message with this total length. Returns how many.
    fn take_body(&mut self, whole: usize, bytes: &[u8]) -> Result<usize, AllocError>
        ensures { IfOk result (λ count. count ≤ length bytes.now) }
    {
        let count = whole.saturating_sub(self.kept.len()).min(bytes.len());
        self.kept.extend_from_slice(&bytes[..count])?;
        Ok(count)
    }

    // The message, if it is complete.
    fn end_body(&mut self, alloc: Global, whole: usize) -> Received
        ensures { HasLength whole result }
    {
        if self.kept.len() != whole {
            return Received::Part;
        }
        self.stage = Stage::Header;
        Received::Message(mem::replace(&mut self.kept, Vec::new(alloc)))
    }

    // Skips bytes of a message with this many remaining.
    fn skip(&mut self, left: usize, bytes: &[u8]) -> (usize, Received)
        ensures count { result.0 ≤ length bytes.now }
        ensures message { IsNoMessage result.1 }
    {
        let count = left.min(bytes.len());
        if count == left {
            self.stage = Stage::Header;
            (count, Received::TooLong)
        } else {
            self.stage = Stage::Skipped(left - count);
            (count, Received::Part)
        }
    }

    /// Reads bytes, at most up to the end of a header or of a message. Returns how many, and the result. An empty message
    /// is returned by the call after that of its header, which may have no bytes. The error is out of memory.
    pub fn take(&mut self, alloc: Global, bytes: &[u8]) -> Result<(usize, Received), AllocError>
        ensures count { IfOk result (λ r. r.0 ≤ length bytes.now) }
        ensures message { IfOk result (λ r. IsDue (announced self.old) r.1) }
    {
        match self.stage {
            Stage::Header => {
                let count = self.take_header(bytes)?;
                Ok((count, self.end_header(alloc)))
            }
            Stage::Body(whole) => {
                let count = self.take_body(whole, bytes)?;
                Ok((count, self.end_body(alloc, whole)))
            }
            Stage::Skipped(left) => Ok(self.skip(left, bytes)),
        }
    }
}

/// A message with its header. The error is out of memory.
pub fn framed(alloc: Global, message: &str) -> Result<String, AllocError>
    ensures { IfOk result (λ text. string_bytes text ≡ frame_of message.now) }
{
    let length = message.len();
    let mut text = format!(in alloc; "Content-Length: {length}")?;
    text.push_str("\r\n\r\n")?;
    text.push_str(message)?;
    Ok(text)
}
