//! Assembles a `FunctionInfo`.

ghost use Rattle.std.specs.Prelude.{◌≡◌, IfOk, slice_index_or};
ghost use Rattle.spec_expressions.specs.judged.Values.{known_at};
ghost use Rattle.typing_analysis.specs.Kept.{unknown, infos_from};

use ir_arena::handle::Handle;
use ir_types::key;
use spec_expressions::{ExpressionInfo, Uniformity, UniformityRequirements};
use std::alloc::{AllocError, Global};
use typing_forms::TypeResolution;

fn uniformity_at(uniformities: &[Uniformity], index: usize) -> Uniformity
    ensures { result ≡ slice_index_or uniformities.now index unknown }
{
    match uniformities.get(index) {
        Some(uniformity) => *uniformity,
        None => Uniformity {
            non_uniform_result: None,
            requirements: UniformityRequirements(0),
        },
    }
}

fn count_at(counts: &[usize], index: usize) -> usize
    ensures { result ≡ slice_index_or counts.now index 0 }
{
    match counts.get(index) {
        Some(count) => *count,
        None => 0,
    }
}

fn global_at(
    globals: &[Option<Handle<key::GlobalVariable>>],
    index: usize,
) -> Option<Handle<key::GlobalVariable>>
    ensures { result ≡ known_at globals.now index }
{
    match globals.get(index) {
        Some(global) => *global,
        None => None,
    }
}

// The info of each expression. The error is out of memory.
pub(crate) fn expression_infos(
    alloc: Global,
    types: Vec<TypeResolution>,
    uniformities: &[Uniformity],
    counts: &[usize],
    globals: &[Option<Handle<key::GlobalVariable>>],
) -> Result<Vec<ExpressionInfo>, AllocError>
    ensures { IfOk result (λ infos. infos.items ≡ infos_from uniformities.now counts.now globals.now 0 types.items) }
{
    let mut infos = Vec::with_capacity(alloc, types.len())?;
    for ty in types {
        let index = infos.len();
        let info = ExpressionInfo {
            uniformity: uniformity_at(uniformities, index),
            ref_count: count_at(counts, index),
            assignable_global: global_at(globals, index),
            ty,
        };
        infos.push(info)?;
    }
    Ok(infos)
}
