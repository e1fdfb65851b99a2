// A language server on standard input and output, which validates documents and WGSL texts as they are edited.

use check_explanation::{DocumentError, Explanation, Requested, explain};
use check_ports::Source;
use check_wgsl::{Cause, Diagnosed, WgslError, explain_wgsl, message_of, unread_location};
use editor_protocol::{Frames, Next, Received, Server, Slip, Text, framed};
use editor_text::{Encoding, Part, Position, byte_of, character_at, part_at};
use std::alloc::{AllocError, Global};
use std::env::Env;
use std::io::ErrorKind;
use std::process::ExitCode;

// The command-line argument.
const WORD: &[u8] = b"--lsp";

// The maximum number of bytes to read in a call.
const CHUNK: usize = 4096;

// The error that stops the server.
#[derive(Clone, Copy)]
enum Stop {
    Memory,
    Read,
    Write,
}

impl From<AllocError> for Stop {
    fn from(_memory: AllocError) -> Stop {
        Stop::Memory
    }
}

// A diagnostic of a text: its range and its message.
#[derive(Drop)]
struct Found {
    part: Part,
    text: String,
}

/// Whether a server is requested: its word is the first argument.
pub(crate) fn is_wanted(rt: &HostRuntime) -> bool {
    let mut buffer = [0; 8];
    match rt.arg(1, &mut buffer) {
        Ok(length) => buffer.get(..length).unwrap_or(&[]) == WORD,
        Err(_) => false,
    }
}

// The range of the error in a text that is not a document.
fn part_of(text: &[u8], error: &DocumentError) -> Part {
    match error {
        DocumentError::Memory | DocumentError::TooLong => Part { start: 0, end: 0 },
        DocumentError::NotJson { line, column } => {
            let position = Position {
                line: line.saturating_sub(1),
                column: column.saturating_sub(1),
            };
            character_at(text, byte_of(Encoding::Utf8, text, position))
        }
        DocumentError::Malformed { place, .. } => part_at(text, place.steps()),
    }
}

// The range of the error in a text, by its explanation; nothing if it is valid.
fn part_in(text: &[u8], explanation: &Explanation) -> Option<Part> {
    match explanation {
        Explanation::Accepted { .. } => None,
        Explanation::NoDocument(error, _) => Some(part_of(text, error)),
        Explanation::Refused(_, item) => Some(part_at(text, &item.path)),
    }
}

fn found_in(
    alloc: Global,
    text: &[u8],
    explanation: &Explanation,
) -> Result<Option<Found>, AllocError> {
    match part_in(text, explanation) {
        Some(part) => {
            let text = format!(in alloc; "{explanation}")?;
            Ok(Some(Found { part, text }))
        }
        None => Ok(None),
    }
}

// The diagnostic of a document.
fn judged(alloc: Global, text: &[u8]) -> Result<Option<Found>, AllocError> {
    match explain(alloc, Requested::Nothing, text) {
        Ok(explanation) => {
            let found = found_in(alloc, text, &explanation);
            drop(explanation);
            found
        }
        Err(memory) => Err(memory),
    }
}

// The diagnostic of an invalid module, at the part of the text that it comes from.
fn found_at(alloc: Global, diagnosed: &Diagnosed) -> Result<Option<Found>, AllocError> {
    let explanation = &diagnosed.explanation;
    if let Explanation::Accepted { .. } = explanation {
        return Ok(None);
    }
    let part = match &diagnosed.location {
        Some(location) => location.part,
        None => Part { start: 0, end: 0 },
    };
    let text = format!(in alloc; "{explanation}")?;
    Ok(Some(Found { part, text }))
}

// The diagnostic of a text of which no module was read.
fn unread(alloc: Global, text: &[u8], error: &WgslError) -> Result<Option<Found>, AllocError> {
    if error.cause == Cause::Memory {
        return Err(AllocError);
    }
    let part = unread_location(text, error).part;
    let text = message_of(alloc, text, error)?;
    Ok(Some(Found { part, text }))
}

// The diagnostic of a WGSL text.
fn judged_wgsl(alloc: Global, text: &[u8]) -> Result<Option<Found>, AllocError> {
    match explain_wgsl(alloc, Requested::Nothing, text) {
        Ok(diagnosed) => {
            let found = found_at(alloc, &diagnosed);
            drop(diagnosed);
            found
        }
        Err(error) => unread(alloc, text, &error),
    }
}

// The diagnostic of a text by its kind.
fn judged_text(alloc: Global, is_wgsl: bool, text: &[u8]) -> Result<Option<Found>, AllocError> {
    if is_wgsl {
        judged_wgsl(alloc, text)
    } else {
        judged(alloc, text)
    }
}

// The diagnostic of a text that is too long.
fn too_long(alloc: Global) -> Result<Option<Found>, AllocError> {
    let text = String::from_str(alloc, "the text is too long to be judged")?;
    let part = Part { start: 0, end: 0 };
    Ok(Some(Found { part, text }))
}

// Writes a message with its header.
fn send(rt: &HostRuntime, message: &str) -> Result<(), Stop> {
    let frame = framed(rt.alloc(), message)?;
    match print!(rt; "{frame}") {
        Ok(()) => Ok(()),
        Err(_) => Err(Stop::Write),
    }
}

// Writes the diagnostics of the document at an index.
fn publish(
    rt: &HostRuntime,
    server: &Server,
    place: usize,
    found: Option<&Found>,
) -> Result<(), Stop> {
    let slip = match found {
        Some(found) => Some(Slip {
            part: found.part,
            text: found.text.as_str(),
        }),
        None => None,
    };
    match server.published(rt.alloc(), place, slip)? {
        Some(text) => send(rt, &text),
        None => Ok(()),
    }
}

// Validates the document at an index, and writes its diagnostics.
fn judge(rt: &HostRuntime, server: &Server, place: usize) -> Result<(), Stop> {
    let Some(document) = server.document(place) else {
        return Ok(());
    };
    let is_wgsl = document.uri.ends_with(".wgsl");
    let found = match &document.text {
        Text::Known(text) => judged_text(rt.alloc(), is_wgsl, text)?,
        Text::TooLong => too_long(rt.alloc())?,
    };
    publish(rt, server, place, found.as_ref())
}

// Performs an action. Returns the exit status, if the server ends.
fn act(rt: &HostRuntime, server: &Server, next: Next) -> Result<Option<u8>, Stop> {
    match next {
        Next::Nothing => Ok(None),
        Next::Response(text) | Next::Notice(text) => {
            send(rt, &text)?;
            Ok(None)
        }
        Next::Judge(place) => {
            judge(rt, server, place)?;
            Ok(None)
        }
        Next::End(status) => Ok(Some(status)),
    }
}

// Handles the result of reading. Returns the exit status, if the server ends: after bytes without a header the next message can't
// be located.
fn take(rt: &HostRuntime, server: &mut Server, received: Received) -> Result<Option<u8>, Stop> {
    match received {
        Received::Part => Ok(None),
        Received::Message(message) => {
            let next = server.take(rt.alloc(), &message)?;
            act(rt, server, next)
        }
        Received::TooLong => {
            let next = server.refuse_long(rt.alloc())?;
            act(rt, server, next)
        }
        Received::NoHeader => {
            let next = server.refuse_header(rt.alloc())?;
            act(rt, server, next)?;
            Ok(Some(1))
        }
    }
}

// Handles input bytes. Returns the exit status, if the server ends.
fn take_all(
    rt: &HostRuntime,
    frames: &mut Frames,
    server: &mut Server,
    bytes: &[u8],
) -> Result<Option<u8>, Stop> {
    let mut rest = bytes;
    for _ in 0..u64::MAX {
        let (count, received) = frames.take(rt.alloc(), rest)?;
        if count == 0 && matches!(&received, Received::Part) {
            break;
        }
        rest = &rest[count..];
        if let Some(status) = take(rt, server, received)? {
            return Ok(Some(status));
        }
    }
    Ok(None)
}

// Serves until the end of the input, or until the client requests an exit.
fn serve_all(rt: &HostRuntime) -> Result<u8, Stop> {
    let mut source = Source::new(rt.reader());
    let mut frames = Frames::new(rt.alloc());
    let mut server = Server::new(rt.alloc());
    let mut chunk = [0u8; CHUNK];
    for _ in 0..u64::MAX {
        let count = match source.read(&mut chunk) {
            Ok(0) => break,
            Ok(count) => count,
            Err(error) if error.kind() == ErrorKind::Interrupted => continue,
            Err(_) => return Err(Stop::Read),
        };
        if let Some(status) = take_all(rt, &mut frames, &mut server, &chunk[..count])? {
            return Ok(status);
        }
    }
    Ok(server.status())
}

/// Runs the language server. Exits with 0 after a shutdown request, 1 without one, and 2 on an I/O error or out of memory.
pub(crate) fn serve(rt: &HostRuntime) -> ExitCode {
    let fault = match serve_all(rt) {
        Ok(status) => return ExitCode::from(status),
        Err(Stop::Memory) => "memory",
        Err(Stop::Read) => "read",
        Err(Stop::Write) => "write",
    };
    let _ = eprintln!(rt; "fault: {fault}");
    ExitCode::from(2)
}
