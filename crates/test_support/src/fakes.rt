//! Readers and writers that fail at one call, and readers that return more than the limit.
ghost use Rattle.std.specs.Prelude.{◌≡◌, Some};

use std::io::{self, Error, ErrorKind, Read, Write};

/// A reader that returns `step` bytes per call, fails at call `bad_call`, and is interrupted at each odd call if `halting` is
/// set. Calls are counted from 1.
#[derive(Drop)]
pub struct Script<'a> {
    pub rest: &'a [u8],
    pub step: usize,
    pub calls: u64,
    pub bad_call: u64,
    pub halting: bool,
}

impl Read for Script<'_> {
    ghost remaining = { λ s. Some s.rest.now };

    fn read(&mut self, buf: &mut [u8]) -> io::Result<usize> {
        self.calls = self.calls.wrapping_add(1);
        if self.calls == self.bad_call {
            return Err(Error::new(ErrorKind::Other, "bad call"));
        }
        if self.halting && self.calls % 2 == 1 {
            return Err(Error::new(ErrorKind::Interrupted, "interrupted"));
        }
        let most = buf.len().min(self.step.max(1));
        self.rest.read(&mut buf[..most])
    }
}

/// A reader over a string that returns `step` bytes per call and never fails.
pub fn plain(input: &str, step: usize) -> Script<'_> {
    Script {
        rest: input.as_bytes(),
        step,
        calls: 0,
        bad_call: 0,
        halting: false,
    }
}

/// A reader that returns a string followed by spaces.
#[derive(Drop)]
pub struct Padded<'a> {
    pub text: &'a [u8],
    pub spaces: u64,
}

impl Read for Padded<'_> {
    fn read(&mut self, buf: &mut [u8]) -> io::Result<usize> {
        if !self.text.is_empty() {
            return self.text.read(buf);
        }
        let given = (buf.len() as u64).min(self.spaces) as usize;
        buf[..given].fill(b' ');
        self.spaces -= given as u64;
        Ok(given)
    }
}

/// A reader that returns spaces forever.
#[derive(Drop)]
pub struct Spaces {
    pub step: usize,
    pub given: u64,
    pub calls: u64,
}

impl Read for Spaces {
    fn read(&mut self, buf: &mut [u8]) -> io::Result<usize> {
        self.calls = self.calls.wrapping_add(1);
        let count = buf.len().min(self.step);
        buf[..count].fill(b' ');
        self.given = self.given.wrapping_add(count as u64);
        Ok(count)
    }
}

/// A reader that is interrupted forever.
#[derive(Drop)]
pub struct Interrupted {
    pub calls: u64,
}

impl Read for Interrupted {
    fn read(&mut self, _buf: &mut [u8]) -> io::Result<usize> {
        self.calls = self.calls.wrapping_add(1);
        Err(Error::new(ErrorKind::Interrupted, "interrupted"))
    }
}

/// What a writer does at its failing call.
#[derive(Clone, Copy, Debug, PartialEq, Eq)]
pub enum Bad {
    Fails,
    Interrupted,
    TakesNothing,
    /// It writes one byte, and fails at the next call.
    TakesOneThenFails,
}

/// A writer that writes `step` bytes per call until its failing call. Calls are counted from 1.
#[derive(Drop)]
pub struct Page {
    pub held: Vec<u8>,
    pub step: usize,
    pub calls: u64,
    pub bad_call: u64,
    pub bad: Bad,
}

impl Write for Page {
    ghost contents = { λ p. Some p.held.items };

    fn write(&mut self, buf: &[u8]) -> io::Result<usize> {
        self.calls = self.calls.wrapping_add(1);
        let mut most = buf.len().min(self.step);
        if self.bad_call != 0 && self.calls >= self.bad_call {
            match self.bad {
                Bad::Fails => return Err(Error::new(ErrorKind::Other, "bad call")),
                Bad::Interrupted => return Err(Error::new(ErrorKind::Interrupted, "bad call")),
                Bad::TakesNothing => return Ok(0),
                Bad::TakesOneThenFails => {
                    if self.calls > self.bad_call {
                        return Err(Error::new(ErrorKind::Other, "bad call"));
                    }
                    most = most.min(1);
                }
            }
        }
        self.held.extend_from_slice(&buf[..most])?;
        Ok(most)
    }

    fn flush(&mut self) -> io::Result<()> {
        Ok(())
    }
}
