//! Lines of small reports, computed by hand and by the prover.
//!
//! The functions do nothing: their contracts are the examples.

ghost use Rattle.std.specs.Prelude.{◌≡◌, false, true, codes};
ghost use Rattle.spec_expressions.specs.declared.global_use.TheConstants.GlobalUse.{READ, WRITE, QUERY, ATOMIC};
ghost use Rattle.ir_flags.specs.declared.memory.TheConstants.StorageAccess.{LOAD};
ghost use Rattle.ir_kinds.specs.declared.spaces.AddressSpace.TheVariants.{Uniform, Storage, Handle, WorkGroup};
ghost use Rattle.spec_expressions.specs.judged.Summaries.{no_use};
ghost use Rattle.judgement.specs.judged.Lines.{is_buffer, is_used, use_words};

/// Which address spaces are those of buffers.
pub fn buffers()
    ensures uniform { is_buffer Uniform ≡ true }
    ensures storage { is_buffer (Storage LOAD) ≡ true }
    ensures by_a_handle { is_buffer Handle ≡ false }
    ensures of_a_workgroup { is_buffer WorkGroup ≡ false }
{}

/// The words of `GlobalUse` flags, in order.
pub fn uses()
    ensures read { use_words READ ≡ codes " read" }
    ensures write { use_words WRITE ≡ codes " write" }
    ensures query { use_words QUERY ≡ codes " query" }
    ensures atomic { use_words ATOMIC ≡ codes " atomic" }
    ensures read_and_write { use_words (record { 0 = 3 }) ≡ codes " read write" }
    ensures all { use_words (record { 0 = 15 }) ≡ codes " read write query atomic" }
    ensures none { is_used no_use ≡ false }
    ensures some { is_used QUERY ≡ true }
{}
