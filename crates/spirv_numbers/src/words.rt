// From bytes to words.
ghost use Rattle.std.specs.Prelude.{◌≡◌, ◌≢◌, ◌+◌, ◌*◌, ◌≤◌, ℕ, List, length, IfOk, IfErr};
ghost use Rattle.spirv_numbers.specs.Words.{Reads, magic, word_at};
ghost use Rattle.spirv_numbers.specs.declared.words.ByteOrder.TheVariants.{Little, Big};
ghost use Rattle.spirv_numbers.specs.declared.words.WordsError.TheVariants.{Memory};

use std::alloc::{AllocError, AllocFailed, Global};

/// How many bytes a module may have.
pub const MAX_LEN: usize = 16777216;

// The first word of a module (section 2.3).
const MAGIC: u32 = 0x0723_0203;

// How many words a header has.
const HEADER: usize = 5;

/// The order of a word's bytes.
#[derive(Clone, Copy, PartialEq, Eq)]
pub enum ByteOrder {
    /// Little-endian.
    Little,
    /// Big-endian.
    Big,
}

/// Why no words were read.
#[derive(Clone, Copy)]
pub enum WordsError {
    /// Out of memory.
    Memory,
    /// There are more bytes than are read.
    TooLong,
    /// The length is no multiple of 4, or less than that of a header.
    Length,
    /// The first word is not that of SPIR-V, in either order of bytes.
    Magic,
}

impl From<AllocError> for WordsError {
    ghost from_gives = { λ _ e. e ≡ Memory };

    fn from(_e: AllocError) -> WordsError {
        WordsError::Memory
    }
}

impl<T: Drop> From<AllocFailed<T>> for WordsError {
    ghost from_gives = { λ _ e. e ≡ Memory };

    fn from(_e: AllocFailed<T>) -> WordsError {
        WordsError::Memory
    }
}

// The word at this place, counted in words.
#[tactic(auto, unfolding(crate::specs::Words::word_at))]
fn word_at(order: ByteOrder, bytes: &[u8], place: usize) -> u32
    requires { 4 * place + 4 ≤ length bytes.now }
    ensures { result ≡ word_at order bytes.now place }
{
    let at = 4 * place;
    let four = [bytes[at], bytes[at + 1], bytes[at + 2], bytes[at + 3]];
    match order {
        ByteOrder::Little => u32::from_le_bytes(four),
        ByteOrder::Big => u32::from_be_bytes(four),
    }
}

// The order in which the first word is that of SPIR-V.
fn order_of(bytes: &[u8]) -> Result<ByteOrder, WordsError>
    requires { 4 ≤ length bytes.now }
    ensures found { IfOk result (λ order. word_at order bytes.now 0 ≡ magic) }
    ensures little { IfErr result (λ e. word_at Little bytes.now 0 ≢ magic) }
    ensures big { IfErr result (λ e. word_at Big bytes.now 0 ≢ magic) }
{
    if word_at(ByteOrder::Little, bytes, 0) == MAGIC {
        Ok(ByteOrder::Little)
    } else if word_at(ByteOrder::Big, bytes, 0) == MAGIC {
        Ok(ByteOrder::Big)
    } else {
        Err(WordsError::Magic)
    }
}

/// The words that the bytes spell, in the order of bytes in which the first of them is that of SPIR-V. An error that is not
/// of memory says that they spell none.
#[tactic(auto, using(crate::proofs::Spelled::words_none, crate::proofs::Spelled::words_more, crate::proofs::Spelled::reads_long, crate::proofs::Spelled::reads_part, crate::proofs::Spelled::reads_short, crate::proofs::Spelled::reads_other))]
pub fn read_words(alloc: Global, bytes: &[u8]) -> Result<Vec<u32>, WordsError>
    ensures words { IfOk result (λ words. Reads bytes.now words.items) }
    ensures header { IfOk result (λ words. 5 ≤ length words.items) }
    ensures refused { IfErr result (λ e. e ≢ Memory → (words : List ℕ) → ¬ Reads bytes.now words) }
{
    if bytes.len() > MAX_LEN {
        return Err(WordsError::TooLong);
    }
    let count = bytes.len() / 4;
    if count < HEADER || bytes.len() % 4 != 0 {
        return Err(WordsError::Length);
    }
    let order = order_of(bytes)?;
    let mut words = Vec::with_capacity(alloc, count)?;
    for place in 0..count {
        words.push(word_at(order, bytes, place))?;
    }
    Ok(words)
}
