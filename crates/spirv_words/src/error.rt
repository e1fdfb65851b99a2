// Why no module was read.
ghost use Rattle.std.specs.Prelude.{◌≡◌, IfOk, MatchResult, None, Some};
ghost use Rattle.spirv_words.specs.declared.error.SpirvError.TheVariants.{Memory};

use crate::unsupported::{Feature, Unsupported};
use spirv_numbers::{Groups, WordsError};
use std::alloc::{AllocError, AllocFailed, Global};
use std::fmt;
use thiserror::Error;

/// What is wrong with words that are no SPIR-V.
#[derive(Clone, Copy)]
pub enum Malformed {
    /// The length is no multiple of 4, or less than that of a header.
    Length,
    /// There are more bytes than are read.
    TooLong,
    /// The first word is not that of SPIR-V, in either order of bytes.
    Magic,
    /// An instruction has no words, or more than are left.
    InstructionLength,
    /// An instruction ends before the operands that it has to have.
    MissingOperand,
    /// An id that is zero, or not below the header's bound.
    IdBound,
    /// An id that two instructions define.
    DefinedTwice,
    /// An id that no instruction defines, or none before this one.
    Undefined,
    /// An id that is not of a type where one is wanted.
    NoType,
    /// An id that is not of a constant where one is wanted.
    NoConstant,
    /// An id that is not of a value where one is wanted.
    NoValue,
    /// An id that is not of a pointer where one is wanted.
    NoPointer,
    /// An id that is not of a block of this function where one is wanted.
    NoBlock,
    /// An id that is not of a function where one is wanted.
    NoFunction,
    /// A type that can't stand here.
    WrongType,
    /// An index that is not within its type.
    Index,
    /// A text without an end.
    Text,
    /// A member that a struct does not have.
    Member,
    /// An instruction outside of a function that belongs inside, or the other way round.
    Misplaced,
    /// A function without an end, or without a block.
    Unfinished,
    /// A block without an end.
    OpenBlock,
    /// A version that the standard does not have.
    Version,
    /// A buffer of what is not said to be a block.
    NotLaidOut,
    /// A member of a buffer of which it is not said where it begins.
    NoOffset,
    /// An array in a buffer of which it is not said how far it is from element to element.
    NoArrayStride,
    /// A matrix in a buffer of which it is not said how far it is from column to column, or from row to row.
    NoMatrixStride,
    /// A matrix in a buffer of which it is not said whether it is stored column by column.
    NoMajorness,
    /// An operand of a type that its instruction does not take.
    OperandType,
    /// A result of a type that its instruction does not give.
    ResultType,
}

// What is wrong in words, in the order of the variants.
static TEXTS: [&str; 29] = [
    "no whole words, or no header",
    "too many bytes",
    "no magic number",
    "the length of an instruction",
    "a missing operand",
    "an id that is not below the bound",
    "an id that is defined twice",
    "an id that is not defined before",
    "an id that is not a type",
    "an id that is not a constant",
    "an id that is not a value",
    "an id that is not a pointer",
    "an id that is not a block",
    "an id that is not a function",
    "a type that is not wanted here",
    "an index out of its type",
    "a text without an end",
    "a member that its struct does not have",
    "an instruction out of its place",
    "a function without an end",
    "a block without an end",
    "a version other than 1.0 to 1.6",
    "a buffer without Block or BufferBlock",
    "a member of a buffer without Offset",
    "an array in a buffer without ArrayStride",
    "a matrix in a buffer without MatrixStride",
    "a matrix in a buffer without RowMajor or ColMajor",
    "an operand of a type that its instruction does not take",
    "a result of a type that its instruction does not give",
];

impl Malformed {
    /// The same in words.
    pub fn text(self) -> &'static str {
        TEXTS.get(self as usize).copied().unwrap_or("")
    }
}

/// Why no module was read.
#[derive(Clone, Copy, Error)]
pub enum SpirvError {
    /// Out of memory.
    #[error("out of memory")]
    Memory,
    /// The words are no SPIR-V.
    #[error("malformed: {} at word {word}", .what.text())]
    Malformed {
        /// What is wrong.
        what: Malformed,
        /// The word where it was found, counted from 0.
        word: u32,
    },
    /// The module says what can't be said in the IR, or what is not translated.
    #[error("unsupported: {what} at word {word}")]
    Unsupported {
        /// Its representation.
        what: Unsupported,
        /// The first word of its instruction, counted from 0.
        word: u32,
    },
}

impl SpirvError {
    /// The words are no SPIR-V.
    pub fn malformed(what: Malformed, word: u32) -> SpirvError {
        SpirvError::Malformed { what, word }
    }

    /// The module says what is not translated.
    pub fn unsupported(what: Unsupported, word: u32) -> SpirvError {
        SpirvError::Unsupported { what, word }
    }

    /// The same of what no number says.
    pub fn untranslated(feature: Feature, word: u32) -> SpirvError {
        SpirvError::unsupported(Unsupported::Feature(feature), word)
    }
}

impl fmt::Debug for SpirvError {
    fn fmt<W: fmt::Write>(&self, f: &mut fmt::Formatter<W>) -> fmt::Result {
        fmt::Display::fmt(self, f)
    }
}

impl From<WordsError> for SpirvError {
    fn from(error: WordsError) -> SpirvError {
        match error {
            WordsError::Memory => SpirvError::Memory,
            WordsError::TooLong => SpirvError::malformed(Malformed::TooLong, 0),
            WordsError::Length => SpirvError::malformed(Malformed::Length, 0),
            WordsError::Magic => SpirvError::malformed(Malformed::Magic, 0),
        }
    }
}

impl From<AllocError> for SpirvError {
    ghost from_gives = { λ _ e. e ≡ Memory };

    fn from(_e: AllocError) -> SpirvError {
        SpirvError::Memory
    }
}

impl<T: Drop> From<AllocFailed<T>> for SpirvError {
    ghost from_gives = { λ _ e. e ≡ Memory };

    fn from(_e: AllocFailed<T>) -> SpirvError {
        SpirvError::Memory
    }
}

/// What was wrong first, if anything was. What is made after that is of no use.
#[derive(Clone, Copy)]
pub struct Failure {
    /// What was wrong.
    pub first: Option<SpirvError>,
}

impl Failure {
    /// Nothing was wrong so far.
    pub const NONE: Failure = Failure { first: None };

    /// Records this error, unless there was one before.
    pub fn fail(&mut self, error: SpirvError) {
        if self.first.is_none() {
            self.first = Some(error);
        }
    }

    /// What was made; this in its place where it was refused.
    pub fn take<T: Drop>(&mut self, made: Result<T, SpirvError>, otherwise: T) -> T {
        match made {
            Ok(made) => made,
            Err(error) => {
                self.fail(error);
                otherwise
            }
        }
    }

    /// A list with room for so many.
    pub fn list<T: Drop>(&mut self, alloc: Global, count: usize) -> Vec<T> {
        match Vec::with_capacity(alloc, count) {
            Ok(list) => list,
            Err(_) => {
                self.fail(SpirvError::Memory);
                Vec::new(alloc)
            }
        }
    }

    /// Pushes an item, or records that there is no memory.
    pub fn push<T: Drop>(&mut self, list: &mut Vec<T>, item: T) {
        if list.push(item).is_err() {
            self.fail(SpirvError::Memory);
        }
    }

    /// A table in which each of so many places has this; an empty one where there is no memory for it.
    pub fn table<T: Clone + Drop>(&mut self, alloc: Global, item: T, count: usize) -> Vec<T> {
        match vec![in alloc; item; count] {
            Ok(table) => table,
            Err(_) => {
                self.fail(SpirvError::Memory);
                Vec::new(alloc)
            }
        }
    }

    /// The items of these pairs of place and item, by place; none where there is no memory for it.
    pub fn groups(&mut self, alloc: Global, places: usize, pairs: &[(u32, u32)]) -> Groups {
        match Groups::of_pairs(alloc, places, pairs) {
            Ok(groups) => groups,
            Err(_) => {
                self.fail(SpirvError::Memory);
                Groups::none(alloc)
            }
        }
    }

    /// What was made, if nothing was wrong.
    pub fn answer<T: Drop>(&self, made: T) -> Result<T, SpirvError>
        ensures kept { IfOk result (λ kept. kept ≡ made) }
        ensures told { MatchResult result (λ _. self.now.first ≡ None) (λ e. self.now.first ≡ Some e) }
    {
        match self.first {
            None => Ok(made),
            Some(error) => {
                drop(made);
                Err(error)
            }
        }
    }
}
