// Contracts of single calls of a reader or a writer.
ghost use Rattle.std.specs.Io.{ReadsAtMost, WritesAtMost};
ghost use Rattle.std.specs.Io.KnownBytes.{ReadConsumes, WriteAppends};
ghost use Rattle.check_ports.specs.Calls.{Call};

use std::io::{self, Read, Write};

/// A reader with a contract for each call. Every [`Read`] is one.
///
/// `reads` relates the reader before and after a call, and the call with its result
/// and the buffer's bytes after it. Code that is generic over the reader knows nothing of `reads`, so
/// it can only prove that the calls it made were made.
pub trait ReadCall: Read {
    ghost reads: { Self → Self → Call → Type 0 };

    /// One call of [`Read::read`], with its result unchanged.
    fn read_once(&mut self, buf: &mut [u8]) -> io::Result<usize>
        ensures bound { ReadsAtMost result buf.new }
        ensures bytes { ReadConsumes (Self.remaining self.old) (Self.remaining self.new) result buf.new }
        ensures call { reads self.old self.new (record { answer = result; buffer = buf.new }) };
}

impl<R: Read> ReadCall for R {
    ghost reads = { λ old new c. ReadsAtMost c.answer c.buffer
        × ReadConsumes (R.remaining old) (R.remaining new) c.answer c.buffer };

    fn read_once(&mut self, buf: &mut [u8]) -> io::Result<usize> {
        self.read(buf)
    }
}

/// A writer with a contract for each call. Every [`Write`] is one.
///
/// `writes` relates the writer before and after a call, and the call with its result
/// and the bytes that it was offered.
pub trait WriteCall: Write {
    ghost writes: { Self → Self → Call → Type 0 };

    /// One call of [`Write::write`], with its result unchanged.
    fn write_once(&mut self, bytes: &[u8]) -> io::Result<usize>
        ensures bound { WritesAtMost result bytes.now }
        ensures bytes { WriteAppends (Self.contents self.old) (Self.contents self.new) result bytes.now }
        ensures call { writes self.old self.new (record { answer = result; buffer = bytes.now }) };
}

impl<W: Write> WriteCall for W {
    ghost writes = { λ old new c. WritesAtMost c.answer c.buffer
        × WriteAppends (W.contents old) (W.contents new) c.answer c.buffer };

    fn write_once(&mut self, bytes: &[u8]) -> io::Result<usize> {
        self.write(bytes)
    }
}
