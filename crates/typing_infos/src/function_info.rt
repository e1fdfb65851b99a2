//! The info of a function.

ghost use Rattle.std.specs.Prelude.{◌≡◌, ◌<◌, ◌⊎◌, ◌↔◌, ◌||◌, ℕ, Some, All, IsTrue, false, length, slice_get, bit_and};
ghost use Rattle.bitflags.specs.Sets.{known_bits};
ghost use Rattle.ir_flags.specs.Words.{shader_stage_bits};
ghost use Rattle.typing_infos.specs.Infos.{summary_of, NotesUse, Dominates};
ghost use Rattle.spec_expressions.specs.judged.Summaries.{HasUseBit};

use crate::sampled::{SampledKeys, SampledPairs};
use crate::uses::{dominates, mark_all};
use bitflags::Flags;
use ir_arena::handle::Handle;
use ir_flags::ShaderStages;
use ir_types::key;
use spec_expressions::{ExpressionInfo, GlobalUse, SamplingPair};
use std::ops::Index;

/// The info of a function: how it uses each global variable of the module, what it samples, and the info of its
/// expressions (naga's `FunctionInfo`). Indexed by a global variable's handle it is the use, indexed by an
/// expression's handle the `ExpressionInfo`.
#[derive(Drop)]
pub struct FunctionInfo {
    /// The stages that may run it: all, until [`FunctionInfo::note`] restricts them.
    pub available_stages: ShaderStages,
    /// Whether it may discard, itself or in a callee.
    pub may_kill: bool,
    /// The pairs of two global variables among [`FunctionInfo::pairs`], sorted by image and then by sampler, each once.
    pub sampling_set: SampledKeys,
    /// Whether its result has two blend sources: `false`, until [`FunctionInfo::note`] sets it.
    pub dual_source_blending: bool,
    uses: Vec<GlobalUse>,
    expressions: Vec<ExpressionInfo>,
    sampling: SampledPairs,
}

/// The parts of a [`FunctionInfo`] that an analysis computes.
#[derive(Drop)]
pub struct FunctionParts {
    /// Whether it may discard.
    pub may_kill: bool,
    /// The use of each global variable.
    pub uses: Vec<GlobalUse>,
    /// The info of each expression.
    pub expressions: Vec<ExpressionInfo>,
    /// The sampled pairs.
    pub sampling: SampledPairs,
    /// The pairs of two global variables.
    pub sampling_set: SampledKeys,
}

impl FunctionInfo {
    /// The info with these parts, available in all stages.
    pub fn of_parts(parts: FunctionParts) -> FunctionInfo
        ensures stages { result.available_stages.0 ≡ known_bits shader_stage_bits }
        ensures blending { result.dual_source_blending ≡ false }
        ensures may_kill { result.may_kill ≡ parts.may_kill }
        ensures sampling_set { result.sampling_set ≡ parts.sampling_set }
        ensures uses { result.uses ≡ parts.uses }
        ensures expressions { result.expressions ≡ parts.expressions }
        ensures sampling { result.sampling ≡ parts.sampling }
    {
        FunctionInfo {
            available_stages: ShaderStages::all(),
            may_kill: parts.may_kill,
            sampling_set: parts.sampling_set,
            dual_source_blending: false,
            uses: parts.uses,
            expressions: parts.expressions,
            sampling: parts.sampling,
        }
    }

    /// The number of global variables of the module (naga's `FunctionInfo::global_variable_count`).
    pub fn global_variable_count(&self) -> usize
        ensures { result ≡ length self.now.uses.items }
    {
        self.uses.len()
    }

    /// The number of expressions of the function (naga's `FunctionInfo::expression_count`).
    pub fn expression_count(&self) -> usize
        ensures { result ≡ length self.now.expressions.items }
    {
        self.expressions.len()
    }

    /// The use of each global variable, in order.
    pub fn uses(&self) -> &[GlobalUse]
        ensures { result.now ≡ (summary_of self.now).uses }
    {
        &self.uses
    }

    /// The info of each expression, in order.
    pub fn expressions(&self) -> &[ExpressionInfo]
        ensures { result.now ≡ self.now.expressions.items }
    {
        &self.expressions
    }

    /// The pairs of images and samplers that it samples, itself or in a callee, each pair once.
    pub fn pairs(&self) -> &[SamplingPair]
        ensures { result.now ≡ (summary_of self.now).pairs }
    {
        self.sampling.as_slice()
    }

    /// The sampled pairs, in their shared form.
    pub fn sampled(&self) -> &SampledPairs
        ensures { result.now ≡ self.now.sampling }
    {
        &self.sampling
    }

    /// Adds to the info: the stages in which its operations are available, further uses of global variables,
    /// and, if `dual_source_blending` is set, that its result has two blend sources. The stages are intersected with
    /// the given ones. Requires that the module has the global variables. It allocates nothing.
    pub fn note(
        &mut self,
        stages: ShaderStages,
        uses: &[(Handle<key::GlobalVariable>, GlobalUse)],
        dual_source_blending: bool,
    )
        requires { All (λ u. u.0 < length self.old.uses.items) uses.now }
        ensures stages { self.new.available_stages.0 ≡ bit_and self.old.available_stages.0 stages.0 }
        ensures uses { (g k : ℕ) → HasUseBit self.new.uses.items g k ↔ (HasUseBit self.old.uses.items g k ⊎ NotesUse uses.now g k) }
        ensures globals { length self.new.uses.items ≡ length self.old.uses.items }
        ensures blending { self.new.dual_source_blending ≡ (self.old.dual_source_blending || dual_source_blending) }
        ensures may_kill { self.new.may_kill ≡ self.old.may_kill }
        ensures sampling_set { self.new.sampling_set ≡ self.old.sampling_set }
        ensures expressions { self.new.expressions ≡ self.old.expressions }
        ensures sampling { self.new.sampling ≡ self.old.sampling }
    {
        self.available_stages = self.available_stages.intersection(stages);
        self.dual_source_blending = self.dual_source_blending || dual_source_blending;
        mark_all(&mut self.uses, uses);
    }

    /// Whether each global variable's use includes the other function's use (naga's `FunctionInfo::dominates_global_use`).
    pub fn dominates_global_use(&self, other: &FunctionInfo) -> bool
        ensures { IsTrue result ↔ Dominates self.now.uses.items other.now.uses.items }
    {
        dominates(&self.uses, &other.uses)
    }
}

impl Index<Handle<key::GlobalVariable>> for FunctionInfo {
    type Output = GlobalUse;

    ghost can_index = { λ info g. g < length info.uses.items };

    ghost index_gives = { λ info g x. Some x ≡ slice_get info.uses.items g };

    /// The use of a global variable of the module.
    fn index(&self, handle: Handle<key::GlobalVariable>) -> &GlobalUse {
        &self.uses[handle.index()]
    }
}

impl Index<Handle<key::Expression>> for FunctionInfo {
    type Output = ExpressionInfo;

    ghost can_index = { λ info e. e < length info.expressions.items };

    ghost index_gives = { λ info e x. Some x ≡ slice_get info.expressions.items e };

    /// The info of an expression of the function.
    fn index(&self, handle: Handle<key::Expression>) -> &ExpressionInfo {
        &self.expressions[handle.index()]
    }
}
