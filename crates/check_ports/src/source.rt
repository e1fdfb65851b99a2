// A reader with a flag for failed calls.
ghost use Rattle.std.specs.Prelude.{◌≡◌, ◌↔◌, ◌||◌, ◌<◌, ℕ, false, true, is_err, IfOk, IsTrue};
ghost use Rattle.std.specs.Io.{ReadsAtMost};
ghost use Rattle.std.specs.Io.KnownBytes.{ReadConsumes};
ghost use Rattle.std.specs.IoError.{error_kind};

use crate::call::ReadCall;
use std::alloc::{AllocError, Global};
use std::io::{self, ErrorKind};
use thiserror::Error;

/// The maximum number of reader calls of [`Source::take_all`].
///
/// Enough for 16777217 bytes (16 MiB and one byte) read one at a time, each after one interrupted call.
pub const MAX_CALLS: u32 = 33554434;

/// The maximum number of bytes that one call of the reader requests.
const CHUNK: usize = 4096;

/// The error of reading from a [`Source`].
#[derive(Clone, Copy, Debug, PartialEq, Eq, Error)]
pub enum TakeError {
    /// Out of memory for bytes that the reader returned. They are lost.
    #[error("out of memory")]
    Memory,
    /// A call of the reader failed and was not merely interrupted, or [`MAX_CALLS`] calls did not reach the end.
    #[error("the reader failed, or was interrupted too often")]
    Read,
}

impl From<AllocError> for TakeError {
    ghost use Rattle.check_ports.specs.declared.source.TakeError.TheVariants.{Memory};

    ghost from_gives = { λ _ e. e ≡ Memory };

    fn from(_e: AllocError) -> TakeError {
        TakeError::Memory
    }
}

fn is_interrupted(e: &io::Error) -> bool
    ensures { IsTrue result ↔ (error_kind e.now ≡ ErrorKind.Interrupted) }
{
    e.kind() == ErrorKind::Interrupted
}

/// A reader with a flag: it is set by each call of the reader that fails, including an interrupted one, and never cleared.
#[derive(Drop)]
pub struct Source<R> {
    reader: R,
    failed: bool,
}

impl<R> Source<R> {
    ghost use Rattle.check_ports.specs.Source.{has_failed, reader_of};

    /// A source of the bytes that `reader` returns from now on, with the flag not set.
    pub fn new(reader: R) -> Source<R>
        ensures unmarked { has_failed result ≡ false }
        ensures inside { reader_of result ≡ reader }
    {
        Source {
            reader,
            failed: false,
        }
    }

    /// Whether a call of the reader has ever failed, or was interrupted.
    pub fn failed(&self) -> bool
        ensures { result ≡ has_failed self.now }
    {
        self.failed
    }
}

impl<R: ReadCall> Source<R> {
    ghost use Rattle.check_ports.specs.Source.{has_failed, reader_of, TakesAll, TakesFront, ReadsAll, ReadingFails, ReadingStops};

    /// One call of the reader: how many bytes it put at the start of `buf`, or its own error, which sets the flag.
    ///
    /// Zero bytes are returned at the end of the input, or if `buf` is empty.
    // Never inlined: LLVM is known to remove a test of the count for 0, as in `take_all`, if it is in the same
    // function as the call. The end of the input would then be missed, and the reader called MAX_CALLS times.
    #[inline(never)]
    pub fn read(&mut self, buf: &mut [u8]) -> io::Result<usize>
        ensures bound { ReadsAtMost result buf.new }
        ensures bytes { ReadConsumes (R.remaining (reader_of self.old))
            (R.remaining (reader_of self.new)) result buf.new }
        ensures mark { has_failed self.new ≡ (has_failed self.old || is_err result) }

        // Exactly one call was made, and this is its result.
        ensures call { R.reads (reader_of self.old) (reader_of self.new)
            (record { answer = result; buffer = buf.new }) }
    {
        let result = self.reader.read_once(buf);
        if result.is_err() {
            self.failed = true;
        }
        result
    }

    /// Reads the bytes up to the end of the input, or the first `most` of them if there are more.
    ///
    /// An interrupted call is repeated, so the flag may be set after an `Ok` too. Since `most` is less than
    /// [`MAX_CALLS`] and each other call returns a byte or the end, that limit is reached only if calls were
    /// interrupted.
    ///
    /// # Errors
    ///
    /// [`TakeError::Read`] if a call failed and was not merely interrupted, or if [`MAX_CALLS`] calls were made, and
    /// [`TakeError::Memory`] if out of memory for the bytes. The bytes that the reader returned are then lost.
    pub fn take_all(&mut self, alloc: Global, most: usize) -> Result<Vec<u8>, TakeError>
        requires { most < MAX_CALLS }
        ensures ok { IfOk result (λ given. TakesAll (R.remaining (reader_of self.old))
            (R.remaining (reader_of self.new)) most given.items) }

        // Bytes that are not returned may still be consumed from the reader. Memory is allocated only for bytes that it returned.
        ensures memory { result ≡ Err TakeError.Memory → TakesFront (R.remaining (reader_of self.old))
            (R.remaining (reader_of self.new)) 1 most }
        ensures read { result ≡ Err TakeError.Read → TakesFront (R.remaining (reader_of self.old))
            (R.remaining (reader_of self.new)) 0 most }

        // The calls that were made, for any reader.
        ensures ok_calls { IfOk result (λ given. ReadsAll R.reads (reader_of self.old)
            (reader_of self.new) most MAX_CALLS given.items) }
        ensures memory_calls { result ≡ Err TakeError.Memory → ReadingStops R.reads (reader_of self.old)
            (reader_of self.new) most MAX_CALLS }
        ensures read_calls { result ≡ Err TakeError.Read → ReadingFails R.reads (reader_of self.old)
            (reader_of self.new) most MAX_CALLS }

        ensures mark { result ≡ Err TakeError.Read → has_failed self.new ≡ true }
        ensures kept { has_failed self.old ≡ true → has_failed self.new ≡ true }
    {
        let mut taken = Vec::new(alloc);
        let mut chunk = [0u8; CHUNK];
        for call in 0..MAX_CALLS {
            let room = (most - taken.len()).min(CHUNK);
            if room == 0 {
                return Ok(taken);
            }
            match self.read(&mut chunk[..room]) {
                Ok(0) => return Ok(taken),
                Ok(count) => taken.extend_from_slice(&chunk[..count])?,
                Err(e) => {
                    if !is_interrupted(&e) {
                        return Err(TakeError::Read);
                    }
                }
            }
        }
        Err(TakeError::Read)
    }
}
