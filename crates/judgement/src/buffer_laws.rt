//! The contents of a buffer: the leaves of its type, which are the scalars, vectors, matrices and atomics inside a value, each
//! with its path and byte range. Leaves are aligned, disjoint and in bounds.
//!
//! The functions do nothing: their contracts are the laws.

ghost use Rattle.judgement.specs.judged.BufferLaws.{BuffersAreSound, TypesAreSound};

/// If a type has a valid storage or uniform layout, and no array in it has a stride less than its element size, its leaves
/// are aligned, and no two overlap, whatever the length of a runtime-sized array. Where that has one element, they are within
/// the size of the type.
pub fn types_are_sound()
    ensures { TypesAreSound }
{}

/// This holds for each storage and uniform buffer of a valid module, if layouts are checked: the size is
/// the one in the buffer's line of the report; for a binding array it is that of one element.
pub fn buffers_are_sound()
    ensures { BuffersAreSound }
{}
