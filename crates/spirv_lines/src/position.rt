// Positions of instructions.

use crate::said::said_of;
use spirv_words::{Listing, SpirvError, list, read_text};
use std::alloc::{AllocError, Global};
use std::fmt::{self, Display};

/// A line of a source.
#[derive(Drop)]
pub struct Line {
    /// The name of its file; empty where none is said.
    pub file: String,
    /// Its number, counted from 1.
    pub number: u32,
}

/// The position of an instruction.
#[derive(Drop)]
pub enum Position {
    /// The line of its source.
    Source(Line),
    /// Its first byte in the module, counted from 0, where no line is said: as `spirv-dis --offsets` has it.
    Module(u32),
}

/// Where the instruction of a module is that begins at this word. The error is out of memory.
pub fn position_of(alloc: Global, listing: &Listing, word: u32) -> Result<Position, SpirvError> {
    let offset = Position::Module(word.saturating_mul(4));
    let Some(said) = said_of(listing, word) else {
        return Ok(offset);
    };
    let text = listing.defined(said.file);
    match read_text(alloc, listing.operands(&text), text.start) {
        Ok((file, _)) => Ok(Position::Source(Line {
            file,
            number: said.line,
        })),
        Err(SpirvError::Memory) => Err(SpirvError::Memory),
        Err(_) => Ok(offset),
    }
}

/// The same of the module that these bytes are; where they are none, its place is the offset. The error is out of memory.
pub fn position_in(alloc: Global, bytes: &[u8], word: u32) -> Result<Position, SpirvError> {
    match list(alloc, bytes) {
        Ok(listing) => {
            let position = position_of(alloc, &listing, word);
            drop(listing);
            position
        }
        Err(SpirvError::Memory) => Err(SpirvError::Memory),
        Err(_) => Ok(Position::Module(word.saturating_mul(4))),
    }
}

/// Why no module was read, with the place in the source or in the module. The error is out of memory.
pub fn error_text(alloc: Global, bytes: &[u8], error: &SpirvError) -> Result<String, AllocError> {
    let word = match error {
        SpirvError::Memory => return Err(AllocError),
        SpirvError::Malformed { word, .. } | SpirvError::Unsupported { word, .. } => *word,
    };
    match position_in(alloc, bytes, word) {
        Ok(position) => format!(in alloc; "{error}, {position}"),
        Err(_) => Err(AllocError),
    }
}

// The digits of numbers to the base of sixteen.
const DIGITS: [char; 16] = [
    '0', '1', '2', '3', '4', '5', '6', '7', '8', '9', 'a', 'b', 'c', 'd', 'e', 'f',
];

// Writes an offset as `spirv-dis --offsets` does.
fn write_offset<W: fmt::Write>(f: &mut fmt::Formatter<W>, offset: u32) -> fmt::Result {
    write!(f, "0x")?;
    for place in 0..8u32 {
        let digit = offset.wrapping_shr(28u32.saturating_sub(place.saturating_mul(4))) % 16;
        let digit = DIGITS.get(digit as usize).copied().unwrap_or('0');
        write!(f, "{digit}")?;
    }
    Ok(())
}

// Whether a name has no control characters, so that it stands in one line.
fn is_plain(name: &str) -> bool {
    for byte in name.as_bytes() {
        if *byte < 32 || *byte == 127 {
            return false;
        }
    }
    true
}

// Writes a line of a file, whose name is in quotes where it is not plain.
fn write_line<W: fmt::Write>(f: &mut fmt::Formatter<W>, file: &str, number: u32) -> fmt::Result {
    if file.is_empty() {
        write!(f, "line {number}")
    } else if is_plain(file) {
        write!(f, "{file}:{number}")
    } else {
        write!(f, "{file:?}:{number}")
    }
}

impl Display for Position {
    fn fmt<W: fmt::Write>(&self, f: &mut fmt::Formatter<W>) -> fmt::Result {
        match self {
            Position::Source(Line { file, number }) => write_line(f, file, *number),
            Position::Module(offset) => write_offset(f, *offset),
        }
    }
}
