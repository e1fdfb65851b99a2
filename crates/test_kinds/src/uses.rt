// What a user of the sets can prove of them: a set is the number of its bits.
ghost use Rattle.std.specs.Prelude.{◌≡◌, ◌↔◌, IsTrue, IsSome, IfSome, ℕ, max};
ghost use Rattle.std.specs.Int.RustNames.{bit_and, bit_or};
ghost use Rattle.std.specs.Int.{bit_at};
ghost use Rattle.ir_flags.specs.Sets.{Has, IsWithin};

use bitflags::Flags;
use ir_flags::{Capabilities, ShaderStages, ValidationFlags};

pub fn is_within(inner: ShaderStages, outer: ShaderStages) -> bool
    ensures { IsTrue result ↔ IsWithin inner.0 outer.0 }
{
    outer.contains(inner)
}

pub fn either(a: ShaderStages, b: ShaderStages) -> ShaderStages
    ensures bits { (k : ℕ) → bit_at result.0 k ≡ max (bit_at a.0 k) (bit_at b.0 k) }
    ensures left { IsWithin a.0 result.0 }
    ensures right { IsWithin b.0 result.0 }
{
    a.union(b)
}

pub fn both(a: ShaderStages, b: ShaderStages) -> ShaderStages
    ensures { result.0 ≡ bit_and a.0 b.0 }
{
    a.intersection(b)
}

pub fn only_left(a: ShaderStages, b: ShaderStages) -> ShaderStages
    ensures { bit_and result.0 b.0 ≡ 0 }
{
    a.difference(b)
}

pub fn nothing() -> ShaderStages
    ensures { result.0 ≡ 0 }
{
    ShaderStages::empty()
}

pub fn is_empty(stages: ShaderStages) -> bool
    ensures { IsTrue result ↔ (stages.0 ≡ 0) }
{
    stages.is_empty()
}

pub fn is_fragment(stages: ShaderStages) -> bool
    ensures { IsTrue result ↔ (stages.0 ≡ 2) }
{
    stages == ShaderStages::FRAGMENT
}

pub fn every_check() -> ValidationFlags
    ensures { result.0 ≡ 127 }
{
    ValidationFlags::all()
}

pub fn add_blocks(checks: &mut ValidationFlags)
    ensures { checks.new.0 ≡ bit_or checks.old.0 ValidationFlags.BLOCKS.0 }
{
    checks.insert(ValidationFlags::BLOCKS);
}

pub fn drop_blocks(checks: &mut ValidationFlags)
    ensures { bit_and checks.new.0 ValidationFlags.BLOCKS.0 ≡ 0 }
{
    checks.remove(ValidationFlags::BLOCKS);
}

pub fn from_known(bits: u8) -> Option<ValidationFlags>
    ensures known { IsSome result ↔ IsWithin bits 127 }
    ensures value { IfSome result (λ f. f.0 ≡ bits) }
{
    ValidationFlags::from_bits(bits)
}

pub fn can_mesh(capabilities: Capabilities) -> bool
    ensures { IsTrue result
        ↔ (Has capabilities.0 Capabilities.MESH_SHADER.0 × Has capabilities.0 Capabilities.MULTIVIEW.0) }
{
    if !capabilities.contains(Capabilities::MESH_SHADER) {
        return false;
    }
    capabilities.contains(Capabilities::MULTIVIEW)
}
