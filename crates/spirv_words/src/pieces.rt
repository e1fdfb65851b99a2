// From words to instructions.
ghost use Rattle.std.specs.Prelude.{◌≡◌, ◌≢◌, ◌≤◌, List, length, IfOk, IfErr};
ghost use Rattle.spirv_words.specs.Pieces.{AreCut};
ghost use Rattle.spirv_words.specs.declared.error.SpirvError.TheVariants.{Memory};
ghost use Rattle.spirv_words.specs.declared.pieces.Piece.{Piece};

use crate::error::{Malformed, SpirvError};
use std::alloc::Global;

/// How many words stand in front of the first instruction (section 2.3).
pub const HEADER: usize = 5;

/// The words of one instruction.
#[derive(Clone, Copy)]
pub struct Piece {
    /// The opcode.
    pub opcode: u16,
    /// The place of its first word, counted from 0.
    pub start: usize,
    /// How many words it has, the first included.
    pub len: usize,
}

/// The instructions of the words after the header: each is as long as its first word says, they stand one after the
/// other, and cover all words. An error that is not of memory says that no instructions do.
#[tactic(auto, using(crate::proofs::Covered::covers_more, crate::proofs::Covered::covers_stop, crate::proofs::Covered::no_piece))]
pub fn cut(alloc: Global, words: &[u32]) -> Result<Vec<Piece>, SpirvError>
    requires { 5 ≤ length words.now }
    ensures covers { IfOk result (λ pieces. AreCut words.now pieces.items) }
    ensures refused { IfErr result (λ e. e ≢ Memory → (pieces : List Piece) → ¬ AreCut words.now pieces) }
{
    let mut pieces = Vec::new(alloc);
    let mut start = HEADER;
    while start < words.len() {
        let len = (words[start] / 65536) as usize;
        if len == 0 || words.len() - start < len {
            let word = u32::try_from(start).unwrap_or(u32::MAX);
            return Err(SpirvError::malformed(Malformed::InstructionLength, word));
        }
        let opcode = (words[start] % 65536) as u16;
        pieces.push(Piece { opcode, start, len })?;
        start += len;
    }
    Ok(pieces)
}
