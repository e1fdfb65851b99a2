// Validation from a reader to a writer: reads a document and writes the text of the result.
ghost use Rattle.std.specs.Prelude.{◌≡◌, false, true, List, IfErr, IfOk, OnErr, OnOk, Err};
ghost use Rattle.std.specs.Io.KnownBytes.{Appends};
ghost use Rattle.check_ports.specs.Calls.{Call};
ghost use Rattle.check_ports.specs.Sink.{AppendsFront, WritesAll, WritingFails, has_failed as sink_failed, writer_of};
ghost use Rattle.check_ports.specs.Source.{has_failed as source_failed, reader_of, AreReads, ReadingFails};
ghost use Rattle.check_ports.specs.declared.source.TheConstants.{MAX_CALLS};
ghost use Rattle.shader_check.specs.declared.check.TheConstants.{MAX_TAKEN};
ghost use Rattle.shader_check.specs.judged.Theorem.{verdict_of, Answers, AnswersInCalls, BreaksOff, BreaksOffInCalls, ReadsSome};
ghost use Rattle.shader_check.specs.judged.Theorem.{status_of, message_of};

use crate::judge::judge;
use check_ports::{MAX_CALLS, ReadCall, Sink, Source, TakeError, WriteCall, WriteFailed};
use document_reader::MAX_LEN;
use judgement::Finding;
use std::alloc::{AllocError, Global};
use thiserror::Error;

/// The maximum size of a document, plus one byte.
pub const MAX_TAKEN: usize = MAX_LEN + 1;

/// The verdict on a document.
#[derive(Clone, Copy, Debug, PartialEq, Eq)]
pub enum Verdict {
    /// The document is valid.
    Accepted,
    /// The document is invalid.
    Refused,
}

/// The error if there is no verdict, or it was not written.
#[derive(Clone, Copy, Debug, PartialEq, Eq, Error)]
pub enum Fault {
    /// Out of memory. Nothing was written.
    #[error("out of memory")]
    Memory,
    /// The reader failed, or was interrupted too often. Nothing was written.
    #[error("the reader failed, or was interrupted too often")]
    Read,
    /// The writer failed, was interrupted or accepted zero bytes. It may have accepted a prefix of the text.
    #[error("the writer failed, was interrupted or took nothing")]
    Write,
}

impl From<AllocError> for Fault {
    ghost use Rattle.shader_check.specs.declared.check.Fault.TheVariants.{Memory};

    ghost from_gives = { λ _ e. e ≡ Memory };

    fn from(_e: AllocError) -> Fault {
        Fault::Memory
    }
}

impl From<TakeError> for Fault {
    ghost use Rattle.shader_check.specs.judged.Theorem.{fault_of};

    ghost from_gives = { λ e f. f ≡ fault_of e };

    fn from(e: TakeError) -> Fault {
        match e {
            TakeError::Memory => Fault::Memory,
            TakeError::Read => Fault::Read,
        }
    }
}

impl From<WriteFailed> for Fault {
    ghost use Rattle.shader_check.specs.declared.check.Fault.TheVariants.{Write};

    ghost from_gives = { λ _ e. e ≡ Write };

    fn from(_e: WriteFailed) -> Fault {
        Fault::Write
    }
}

fn verdict_of(finding: Finding) -> Verdict
    ensures { result ≡ verdict_of finding }
{
    match finding {
        Finding::Accepted { .. } => Verdict::Accepted,
        Finding::RefusedDocument => Verdict::Refused,
        Finding::RefusedHandles => Verdict::Refused,
        Finding::Refused(_, _) => Verdict::Refused,
    }
}

// Writes a whole text. The error is that the writer failed, was interrupted or accepted zero bytes.
fn write_text<W: WriteCall>(sink: &mut Sink<W>, text: &[u8]) -> Result<(), Fault>
    ensures ok { OnOk result (Appends (W.contents (writer_of sink.old)) (W.contents (writer_of sink.new)) text.now) }
    ensures front { OnErr result (AppendsFront (W.contents (writer_of sink.old)) (W.contents (writer_of sink.new)) text.now) }
    ensures mark { OnErr result (sink_failed sink.new ≡ true) }
    ensures fault { IfErr result (λ f. f ≡ Fault.Write) }
    ensures ok_calls { OnOk result (WritesAll W.writes (writer_of sink.old) (writer_of sink.new) text.now) }
    ensures err_calls { OnErr result (WritingFails W.writes (writer_of sink.old) (writer_of sink.new) text.now) }
{
    sink.write_all(text)?;
    Ok(())
}

/// Reads a document to its end, or 16777217 bytes of it, validates it and writes the text of the result.
///
/// Every [`std::io::Read`] is a [`ReadCall`], and every [`std::io::Write`] a [`WriteCall`].
///
/// Requires that no call of the reader or of the writer has failed before. [`Fault::Memory`] is returned only out of memory, which
/// no clause says; `memory_calls` says what was read. [`Fault::Read`] is returned if a reader call failed or 33554434 calls
/// did not reach the end, and [`Fault::Write`] if a call of the writer failed, was interrupted or accepted zero bytes.
pub fn check_document<R: ReadCall, W: WriteCall>(
    alloc: Global,
    source: &mut Source<R>,
    sink: &mut Sink<W>,
) -> Result<Verdict, Fault>
    requires source_unmarked { source_failed source.old ≡ false }
    requires sink_unmarked { sink_failed sink.old ≡ false }

    // The text of the result is written whole, and nothing else is.
    ensures ok { IfOk result (Answers (R.remaining (reader_of source.old))
        (R.remaining (reader_of source.new)) (W.contents (writer_of sink.old))
        (W.contents (writer_of sink.new))) }

    // An error is returned only for its own reason, and before the first write nothing was written.
    ensures memory { result ≡ Err Fault.Memory → sink.new ≡ sink.old }
    ensures read { result ≡ Err Fault.Read → source_failed source.new ≡ true }
    ensures read_unwritten { result ≡ Err Fault.Read → sink.new ≡ sink.old }
    ensures write { result ≡ Err Fault.Write → sink_failed sink.new ≡ true }
    ensures write_prefix { result ≡ Err Fault.Write → BreaksOff (R.remaining (reader_of source.old))
        (R.remaining (reader_of source.new)) (W.contents (writer_of sink.old))
        (W.contents (writer_of sink.new)) }

    // The same for the calls that were made, for any reader and writer.
    ensures ok_calls { IfOk result (AnswersInCalls R.reads (reader_of source.old)
        (reader_of source.new) W.writes (writer_of sink.old) (writer_of sink.new)) }
    ensures memory_calls { result ≡ Err Fault.Memory → ReadsSome R.reads (reader_of source.old)
        (reader_of source.new) }
    ensures read_calls { result ≡ Err Fault.Read → ReadingFails R.reads (reader_of source.old)
        (reader_of source.new) MAX_TAKEN MAX_CALLS }
    ensures write_calls { result ≡ Err Fault.Write → BreaksOffInCalls R.reads (reader_of source.old)
        (reader_of source.new) W.writes (writer_of sink.old) (writer_of sink.new) }
    ensures reading { (calls : List Call) × AreReads R.reads (reader_of source.old)
        (reader_of source.new) MAX_TAKEN MAX_CALLS calls }
{
    let bytes = source.take_all(alloc, MAX_TAKEN)?;
    let judgement = judge(alloc, bytes)?;
    let text = judgement.text(alloc)?;
    write_text(sink, text.as_bytes())?;
    Ok(verdict_of(judgement.finding))
}

/// The exit status of a result, 0 for valid, 1 for invalid and 2 for a `Fault`, and the message on standard
/// error: empty, or the `Fault` in one line.
pub fn outcome(answer: &Result<Verdict, Fault>) -> (u8, &'static str)
    ensures status { result.0 ≡ status_of answer.now }
    ensures message { result.1.now ≡ message_of answer.now }
{
    match answer {
        Ok(Verdict::Accepted) => (0, ""),
        Ok(Verdict::Refused) => (1, ""),
        Err(Fault::Memory) => (2, "fault: memory\n"),
        Err(Fault::Read) => (2, "fault: read\n"),
        Err(Fault::Write) => (2, "fault: write\n"),
    }
}
