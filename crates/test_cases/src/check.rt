// One check with a reader and a writer.
use crate::rows::Answer;
use shader_check::{Sink, Source, check_document};
use std::alloc::Global;
use std::io::{Read, Write};

/// The outcome of a check: its result, and whether its reader and its writer failed.
#[derive(Clone, Copy)]
pub struct Checked {
    pub answer: Answer,
    pub read_failed: bool,
    pub write_failed: bool,
}

/// The outcome of a check with these. They are freed here, where their types are parameters.
pub fn check<R: Read + Drop, W: Write + Drop>(alloc: Global, reader: R, writer: W) -> Checked {
    let mut source = Source::new(reader);
    let mut sink = Sink::new(writer);
    let answer = check_document(alloc, &mut source, &mut sink);
    Checked {
        answer,
        read_failed: source.failed(),
        write_failed: sink.failed(),
    }
}
