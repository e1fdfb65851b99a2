//! Tables of WGSL's predeclared names: types, built-in functions, address spaces, access modes and storage formats.
#![tactic(auto)]

mod effects;
mod functions;
mod rays;
mod spaces;
mod textures;
mod types;

pub use effects::{AtomicWord, EffectWord, GatherWord, effect_of};
pub use functions::{FunctionWord, function_of};
pub use rays::{RayFunction, RayWord, ray_constant_of, ray_function_of};
pub use spaces::{access_of, space_of};
pub use textures::{QueryWord, SampleWord, TexelWord, TextureKind, TextureWord, format_of};
pub use types::{TypeWord, role_of, type_of};
