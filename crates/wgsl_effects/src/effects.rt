// Dispatch of the built-in functions of this crate.

use crate::rays::ray;
use crate::{atomics, cooperative, subgroups};
use wgsl_builtins::EffectWord;
use wgsl_expressions::{Lowering, Operand};
use wgsl_text::Extent;
use wgsl_types::Builder;

/// Lowers a call of a built-in function for atomics, workgroup memory, subgroups, ray queries or cooperative matrices. The
/// arguments were loaded; the call is a statement, or its result is used.
pub fn lower_effect<B: Builder>(
    lowering: &mut Lowering<B>,
    word: EffectWord,
    arguments: &[Operand],
    is_statement: bool,
    extent: Extent,
) -> Operand {
    match word {
        EffectWord::AtomicLoad => atomics::load(lowering, arguments, extent),
        EffectWord::AtomicStore => atomics::store(lowering, arguments, extent),
        EffectWord::Atomic(word) => {
            atomics::change(lowering, word, arguments, is_statement, extent)
        }
        EffectWord::CompareExchange => atomics::compare_exchange(lowering, arguments, extent),
        EffectWord::UniformLoad => atomics::uniform_load(lowering, arguments, extent),
        EffectWord::Collective(op, scan) => {
            subgroups::collective(lowering, op, scan, arguments, extent)
        }
        EffectWord::Ballot => subgroups::ballot(lowering, arguments, extent),
        EffectWord::BroadcastFirst => subgroups::broadcast_first(lowering, arguments, extent),
        EffectWord::Gather(word) => subgroups::gather(lowering, word, arguments, extent),
        EffectWord::QuadSwap(direction) => {
            subgroups::quad_swap(lowering, direction, arguments, extent)
        }
        EffectWord::Ray(function) => ray(lowering, function, arguments, extent),
        EffectWord::CooperativeStore(row_major) => {
            cooperative::store(lowering, row_major, arguments, extent)
        }
        EffectWord::CooperativeMultiplyAdd => {
            cooperative::multiply_add(lowering, arguments, extent)
        }
    }
}
