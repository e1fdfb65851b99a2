// A writer with a flag for failed calls.
ghost use Rattle.std.specs.Prelude.{◌≡◌, ◌<◌, ◌≤◌, false, true, length, take, Ok, IfOk, OnOk, OnErr};
ghost use Rattle.std.specs.Io.{WritesAtMost};
ghost use Rattle.std.specs.Io.KnownBytes.{Appends, Keeps, WriteAppends};

use crate::call::WriteCall;
use std::io;

/// A call of the writer failed, was interrupted, or accepted zero bytes, so that not everything was written.
#[derive(Clone, Copy, Debug, PartialEq, Eq)]
pub struct WriteFailed;

/// A writer with a flag: it is set by each call of the writer that fails, including an interrupted one, and by one that
/// accepts zero bytes, and never cleared.
#[derive(Drop)]
pub struct Sink<W> {
    writer: W,
    failed: bool,
}

impl<W> Sink<W> {
    ghost use Rattle.check_ports.specs.Sink.{has_failed, writer_of};

    /// A sink that writes to `writer`, with the flag not set.
    pub fn new(writer: W) -> Sink<W>
        ensures unmarked { has_failed result ≡ false }
        ensures inside { writer_of result ≡ writer }
    {
        Sink {
            writer,
            failed: false,
        }
    }

    /// Whether a call of the writer has ever failed, was interrupted, or accepted zero bytes.
    pub fn failed(&self) -> bool
        ensures { result ≡ has_failed self.now }
    {
        self.failed
    }

    /// The inner writer.
    pub fn into_inner(self) -> W
        ensures { result ≡ writer_of self }
    {
        self.writer
    }
}

impl<W: WriteCall> Sink<W> {
    ghost use Rattle.check_ports.specs.Calls.{Call};
    ghost use Rattle.check_ports.specs.Sink.{has_failed, writer_of, AppendsFront, TakesNothing, WritesAll, WritingFails};

    /// One call of the writer, unchanged.
    // Never inlined, like `Source::read`: LLVM is known to remove a test for 0 in the same function as the call,
    // here the one in `write`. A writer that accepts zero bytes would then be called forever.
    #[inline(never)]
    fn call(&mut self, bytes: &[u8]) -> io::Result<usize>
        ensures bound { WritesAtMost result bytes.now }
        ensures bytes { WriteAppends (W.contents (writer_of self.old))
            (W.contents (writer_of self.new)) result bytes.now }
        ensures kept { has_failed self.new ≡ has_failed self.old }
        ensures call { W.writes (writer_of self.old) (writer_of self.new)
            (record { answer = result; buffer = bytes.now }) }
    {
        self.writer.write_once(bytes)
    }

    /// One call of the writer: how many bytes it accepted from the start of `bytes`, at least one. Otherwise the
    /// flag is set.
    fn write(&mut self, bytes: &[u8]) -> Result<usize, WriteFailed>
        ensures count { IfOk result (λ n. (0 < n) × (n ≤ length bytes.now)) }
        ensures ok { IfOk result (λ n. Appends (W.contents (writer_of self.old))
            (W.contents (writer_of self.new)) (take n bytes.now)) }
        ensures kept { OnOk result (has_failed self.new ≡ has_failed self.old) }
        ensures err { OnErr result (Keeps (W.contents (writer_of self.old))
            (W.contents (writer_of self.new))) }
        ensures mark { OnErr result (has_failed self.new ≡ true) }

        // Exactly one call was made.
        ensures ok_call { IfOk result (λ n. W.writes (writer_of self.old) (writer_of self.new)
            (record { answer = Ok n; buffer = bytes.now })) }
        ensures err_call { OnErr result ((c : Call) × (c.buffer ≡ bytes.now) × TakesNothing c
            × W.writes (writer_of self.old) (writer_of self.new) c) }
    {
        match self.call(bytes) {
            Ok(count) if count > 0 => Ok(count),
            _ => {
                self.failed = true;
                Err(WriteFailed)
            }
        }
    }

    /// Writes all of `bytes`, in as many calls of the writer as it needs.
    ///
    /// # Errors
    ///
    /// [`WriteFailed`] at the first call that fails, is interrupted or accepts zero bytes. It is not repeated, so that
    /// only a prefix of `bytes` was written, possibly empty, and the flag is set.
    pub fn write_all(&mut self, bytes: &[u8]) -> Result<(), WriteFailed>
        ensures ok { OnOk result (Appends (W.contents (writer_of self.old))
            (W.contents (writer_of self.new)) bytes.now) }
        ensures kept { OnOk result (has_failed self.new ≡ has_failed self.old) }
        ensures err { OnErr result (AppendsFront (W.contents (writer_of self.old))
            (W.contents (writer_of self.new)) bytes.now) }
        ensures mark { OnErr result (has_failed self.new ≡ true) }

        // The calls that were made, for any writer.
        ensures ok_calls { OnOk result (WritesAll W.writes (writer_of self.old) (writer_of self.new)
            bytes.now) }
        ensures err_calls { OnErr result (WritingFails W.writes (writer_of self.old)
            (writer_of self.new) bytes.now) }
    {
        let mut written = 0;
        while written < bytes.len() {
            written += self.write(&bytes[written..])?;
        }
        Ok(())
    }
}
