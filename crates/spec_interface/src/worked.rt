//! Rules of small entry points, worked out by hand and computed by the prover.
//!
//! The functions have no effect: their contracts are the examples.

ghost use Rattle.std.specs.Prelude.{◌≡◌, [], ◌∷◌, true, false};
ghost use Rattle.ir_flags.specs.declared.memory.TheConstants.StorageAccess.{LOAD, STORE};
ghost use Rattle.ir_flags.specs.declared.settings.TheConstants.Capabilities.{MESH_SHADER, RAY_TRACING_PIPELINE};
ghost use Rattle.ir_kinds.specs.declared.bindings.BuiltIn.TheVariants.{LineIndices, PointIndex, PrimitiveIndex, VertexCount};
ghost use Rattle.ir_kinds.specs.declared.spaces.AddressSpace.TheVariants.{Function, IncomingRayPayload, Private, RayPayload, Storage, TaskPayload, Uniform};
ghost use Rattle.ir_kinds.specs.declared.stages.MeshOutputTopology.TheVariants.{Lines, Points};
ghost use Rattle.ir_kinds.specs.declared.stages.ShaderStage.TheVariants.{AnyHit, Compute, Fragment, Mesh, RayGeneration, Task, Vertex};
ghost use Rattle.spec_interface.specs.judged.Members.{types_bound};
ghost use Rattle.spec_interface.specs.found.Members.{member, member_topologies};
ghost use Rattle.spec_interface.specs.declared.parts.MeshPart.TheVariants as part;
ghost use Rattle.spec_interface.specs.judged.Stages.{SizeOK, stage_row};
ghost use Rattle.spec_interface.specs.judged.Uses.{allowed_uses, is_reached};

/// Requirements of stages.
pub fn needed()
    ensures vertex { (stage_row Vertex).needs ≡ None }
    ensures mesh { (stage_row Mesh).needs ≡ Some MESH_SHADER }
    ensures rays { (stage_row AnyHit).needs ≡ Some RAY_TRACING_PIPELINE }
{}

/// Workgroup sizes in one dimension: up to 16384, and 0 for stages without workgroups.
pub fn sizes()
    ensures one { SizeOK true 1 }
    ensures most { SizeOK true 16384 }
    ensures too_many { ¬ SizeOK true 16385 }
    ensures none { ¬ SizeOK true 0 }
    ensures unsaid { SizeOK false 0 }
    ensures said { ¬ SizeOK false 1 }
{}

/// Allowed uses of variables, as the bits of the sets.
pub fn uses()
    ensures of_a_function { (allowed_uses Compute Function None).0 ≡ 0 }
    ensures own { (allowed_uses Fragment Private None).0 ≡ 7 }
    ensures uniform { (allowed_uses Fragment Uniform None).0 ≡ 5 }
    ensures storage_read { (allowed_uses Compute (Storage LOAD) None).0 ≡ 5 }
    ensures storage_written { (allowed_uses Compute (Storage STORE) None).0 ≡ 6 }
    ensures storage_whole { (allowed_uses Compute (Storage (record { 0 = 7 })) None).0 ≡ 15 }
    ensures handed { (allowed_uses Task TaskPayload None).0 ≡ 7 }
    ensures given { (allowed_uses Mesh TaskPayload None).0 ≡ 5 }
{}

/// Stages with ray payloads.
pub fn payloads()
    ensures generated { is_reached RayGeneration RayPayload ≡ true }
    ensures not_yet { is_reached RayGeneration IncomingRayPayload ≡ false }
    ensures hit { is_reached AnyHit IncomingRayPayload ≡ true }
    ensures not_further { is_reached AnyHit RayPayload ≡ false }
    ensures nowhere_else { is_reached Compute RayPayload ≡ false }
{}

/// The built-in values of struct members, whose types are 5 and 6.
pub fn members()
    ensures lines { member_topologies (member 5 LineIndices ∷ member 6 PrimitiveIndex ∷ []) ≡ Lines ∷ [] }
    ensures two { member_topologies (member 5 LineIndices ∷ member 6 PointIndex ∷ []) ≡ Lines ∷ Points ∷ [] }
    ensures no_lines { member_topologies (member 5 PrimitiveIndex ∷ []) ≡ [] }
    ensures counts { types_bound part.VertexCount (member 5 PrimitiveIndex ∷ member 6 VertexCount ∷ []) ≡ 6 ∷ [] }
{}
