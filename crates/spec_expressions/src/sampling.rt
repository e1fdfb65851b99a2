//! Sampled pairs of images and samplers.

use ir_arena::handle::Handle;
use typing_layout::ir_types::key;

/// What an image or sampler operand denotes in a function: a global variable of the module, or an argument, for which each
/// call passes one (naga's `GlobalOrArgument`).
#[derive(Clone, Copy, PartialEq, Eq, Hash, Debug)]
pub enum GlobalOrArgument {
    /// A global variable, or an element of one that is a binding array.
    Global(Handle<key::GlobalVariable>),
    /// The function's argument at this index.
    Argument(u32),
}

/// An image and the sampler it is sampled with, in this order, in a function (naga's `Sampling` of its
/// analyzer).
pub type SamplingPair = (GlobalOrArgument, GlobalOrArgument);

/// Two global variables, an image and the sampler it is sampled with (naga's `SamplingKey`).
#[derive(Clone, Copy, PartialEq, Eq, Hash, Debug)]
pub struct SamplingKey {
    /// The image.
    pub image: Handle<key::GlobalVariable>,
    /// The sampler.
    pub sampler: Handle<key::GlobalVariable>,
}
