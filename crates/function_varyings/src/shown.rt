//! Facts about varyings.

ghost use Rattle.std.specs.Prelude.{◌≡◌, ◌↔◌, ◌≤◌, IsTrue, Some, length};
ghost use Rattle.spec_interface.specs.judged.Varyings.{HasBlendSources, HasBuiltIn, built_in_of, canonical, location_of};
ghost use Rattle.spec_interface.specs.declared.varyings.Bound.TheVariants.{BlendSources};
ghost use Rattle.function_varying_checks.specs.Faults.{ShowsBefore};

use ir_kinds::BuiltIn;
use spec_interface::{Bound, Varying, are_same};

/// The location of a varying, if any; blend sources have location 0.
pub(crate) const fn location_of(bound: &Bound) -> Option<u32>
    ensures { result ≡ location_of bound.now }
{
    match *bound {
        Bound::Location { ty: _, at } => Some(at.location),
        Bound::BlendSources => Some(0),
        Bound::BuiltIn { .. } | Bound::Nothing | Bound::NoMember { .. } => None,
    }
}

// Whether it is the built-in, without its fields.
fn shows(bound: &Bound, built_in: BuiltIn) -> bool
    ensures { IsTrue result ↔ (built_in_of bound.now ≡ Some (canonical built_in)) }
{
    match *bound {
        Bound::BuiltIn {
            ty: _,
            built_in: other,
        } => are_same(other, built_in),
        Bound::Location { .. } | Bound::BlendSources | Bound::Nothing | Bound::NoMember { .. } => {
            false
        }
    }
}

/// Whether the built-in is among the varyings before an index, without its fields.
pub(crate) fn shows_before(varyings: &[Varying], place: usize, built_in: BuiltIn) -> bool
    requires { place ≤ length varyings.now }
    ensures { IsTrue result ↔ ShowsBefore built_in_of varyings.now place (canonical built_in) }
{
    for earlier in 0..place {
        if shows(&varyings[earlier].bound, built_in) {
            return true;
        }
    }
    false
}

/// Whether a built-in is among varyings, without its fields.
pub fn has_built_in(varyings: &[Varying], built_in: BuiltIn) -> bool
    ensures { IsTrue result ↔ HasBuiltIn varyings.now built_in }
{
    shows_before(varyings, varyings.len(), built_in)
}

// Whether it has a blend source.
const fn are_sources(bound: &Bound) -> bool
    ensures { IsTrue result ↔ (bound.now ≡ BlendSources) }
{
    match *bound {
        Bound::BlendSources => true,
        Bound::BuiltIn { .. } | Bound::Location { .. } | Bound::Nothing | Bound::NoMember { .. } =>
            false,
    }
}

/// Whether two blend sources are among varyings.
pub fn has_blend_sources(varyings: &[Varying]) -> bool
    ensures { IsTrue result ↔ HasBlendSources varyings.now }
{
    for place in 0..varyings.len() {
        if are_sources(&varyings[place].bound) {
            return true;
        }
    }
    false
}
