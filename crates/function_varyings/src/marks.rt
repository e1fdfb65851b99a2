//! Marks, of which no two varyings of an entry point may have the same: built-ins, and locations where these must be distinct.
//! The marks of each type are found once, as numbers in words of 64 bits, so that types are compared word by word.
//!
//! A mark is numbered when it first occurs, so the numbers of a module are small, whatever its locations are.

ghost use Rattle.std.specs.Prelude.{◌≡◌, ◌∷◌, ◌⊎◌, ◌<◌, ◌≤◌, ◌+◌, ◌/◌, ℕ, List, Contains, IfOk, IsTrue, None, OnOk, Some, false, length, min, slice_get, true};
ghost use Rattle.ir_flags.specs.Sets.{Has};
ghost use Rattle.ir_flags.specs.declared.settings.ValidationFlags.{ValidationFlags};
ghost use Rattle.ir_flags.specs.declared.settings.TheConstants.ValidationFlags.{BINDINGS};
ghost use Rattle.ir_sets.specs.Bits.{has_bit};
ghost use Rattle.ir_types.specs.judged.Plain.{PlainType};
ghost use Rattle.spec_interface.specs.judged.Varyings.{mesh_varyings};
ghost use Rattle.typing_forms.specs.judged.Resolutions.{types_view};
ghost use Rattle.function_varyings.specs.Marks.{AreMarksOf, AreNewlyTaken, IsAmong, IsIn, IsNumber, IsPartOf, KeepsBits, KeepsNumbers, KeepsWords, Takes, TakesAt, built_in_number};

use bitflags::Flags;
use function_varying_checks::add_value;
use ir_arena::handle::Handle;
use ir_flags::ValidationFlags;
use ir_kinds::BuiltIn;
use ir_sets::bits;
use ir_sets::unique_arena::UniqueArena;
use ir_types::{IrType, key};
use spec_interface::{Bound, Varying};
use std::alloc::{AllocError, Global};
use std::collections::BTreeMap;

// The numbers of one word.
#[derive(Clone, Copy)]
pub(crate) struct Word {
    // The index of the word.
    index: u32,
    bits: u64,
}

/// The words of a range.
#[derive(Clone, Copy)]
pub(crate) struct Part {
    from: usize,
    end: usize,
}

/// The known marks of the members of types. It grows by a number for each mark, and for a type by the words that its numbers
/// are in.
#[derive(Drop)]
pub(crate) struct Marks {
    numbers: BTreeMap<u64, u32>,
    words: Vec<Word>,
    parts: BTreeMap<u32, Part>,
}

// The number of a built-in, without its fields.
const fn built_in_number(built_in: BuiltIn) -> u64
    ensures { result ≡ built_in_number built_in }
{
    match built_in {
        BuiltIn::PrimitiveIndex => 0,
        BuiltIn::Position { .. } => 1,
        BuiltIn::ViewIndex => 2,
        BuiltIn::BaseInstance => 3,
        BuiltIn::BaseVertex => 4,
        BuiltIn::ClipDistances => 5,
        BuiltIn::CullDistance => 6,
        BuiltIn::InstanceIndex => 7,
        BuiltIn::PointSize => 8,
        BuiltIn::VertexIndex => 9,
        BuiltIn::DrawIndex => 10,
        BuiltIn::FragDepth => 11,
        BuiltIn::PointCoord => 12,
        BuiltIn::FrontFacing => 13,
        BuiltIn::Barycentric { .. } => 14,
        BuiltIn::SampleIndex => 15,
        BuiltIn::SampleMask => 16,
        BuiltIn::GlobalInvocationId => 17,
        BuiltIn::LocalInvocationId => 18,
        BuiltIn::LocalInvocationIndex => 19,
        BuiltIn::WorkGroupId => 20,
        BuiltIn::WorkGroupSize => 21,
        BuiltIn::NumWorkGroups => 22,
        BuiltIn::NumSubgroups => 23,
        BuiltIn::SubgroupId => 24,
        BuiltIn::SubgroupSize => 25,
        BuiltIn::SubgroupInvocationId => 26,
        BuiltIn::MeshTaskSize => 27,
        BuiltIn::CullPrimitive => 28,
        BuiltIn::PointIndex => 29,
        BuiltIn::LineIndices => 30,
        BuiltIn::TriangleIndices => 31,
        BuiltIn::VertexCount => 32,
        BuiltIn::Vertices => 33,
        BuiltIn::PrimitiveCount => 34,
        BuiltIn::Primitives => 35,
        BuiltIn::RayInvocationId => 36,
        BuiltIn::NumRayInvocations => 37,
        BuiltIn::InstanceCustomData => 38,
        BuiltIn::GeometryIndex => 39,
        BuiltIn::WorldRayOrigin => 40,
        BuiltIn::WorldRayDirection => 41,
        BuiltIn::ObjectRayOrigin => 42,
        BuiltIn::ObjectRayDirection => 43,
        BuiltIn::RayTmin => 44,
        BuiltIn::RayTCurrentMax => 45,
        BuiltIn::ObjectToWorld => 46,
        BuiltIn::WorldToObject => 47,
        BuiltIn::HitKind => 48,
    }
}

// The mark of a location, if locations must be distinct.
fn location_mark(flags: ValidationFlags, location: u32) -> Option<u64>
    ensures { Has flags.0 BINDINGS.0 → result ≡ Some (64 + location) }
{
    if flags.contains(ValidationFlags::BINDINGS) {
        Some(64 + u64::from(location))
    } else {
        None
    }
}

// The mark of a varying, if it has one.
fn mark_of(flags: ValidationFlags, bound: &Bound) -> Option<u64>
    ensures { (mark : ℕ) → Takes flags bound.now mark → result ≡ Some mark }
{
    match *bound {
        Bound::BuiltIn { ty: _, built_in } => Some(built_in_number(built_in)),
        Bound::Location { ty: _, at } => location_mark(flags, at.location),
        Bound::BlendSources => location_mark(flags, 0),
        Bound::Nothing | Bound::NoMember { .. } => None,
    }
}

// A count as `u32`, saturating.
const fn short(count: usize) -> u32
    ensures { result ≡ min count 4294967295 }
{
    if count < 4294967295 {
        count as u32
    } else {
        4294967295
    }
}

// The number of a mark, which gets one if it has none. The error is out of memory.
fn number_of(numbers: &mut BTreeMap<u64, u32>, mark: u64) -> Result<u32, AllocError>
    ensures noted { IfOk result (λ n. IsNumber numbers.new mark n) }
    ensures kept { OnOk result (KeepsNumbers numbers.old numbers.new) }
{
    if let Some(number) = numbers.get(&mark) {
        return Ok(*number);
    }
    let number = short(numbers.len());
    match numbers.insert(mark, number) {
        Ok(_) => Ok(number),
        Err(_) => Err(AllocError),
    }
}

// Appends the number of a varying's mark, if it has one. The error is out of memory.
fn push_number(
    numbers: &mut BTreeMap<u64, u32>,
    found: &mut Vec<u32>,
    flags: ValidationFlags,
    bound: &Bound,
) -> Result<(), AllocError>
    ensures kept { OnOk result (KeepsNumbers numbers.old numbers.new) }
    ensures still { OnOk result ((n : ℕ) → Contains found.old.items n → Contains found.new.items n) }
    ensures pushed { OnOk result ((mark : ℕ) → Takes flags bound.now mark → (n : ℕ) × IsNumber numbers.new mark n × Contains found.new.items n) }
{
    let Some(mark) = mark_of(flags, bound) else {
        return Ok(());
    };
    let number = number_of(numbers, mark)?;
    found.push(number)?;
    Ok(())
}

// The numbers of the marks of varyings, in ascending order. The error is out of memory.
fn numbers_of(
    alloc: Global,
    numbers: &mut BTreeMap<u64, u32>,
    flags: ValidationFlags,
    varyings: &[Varying],
) -> Result<Vec<u32>, AllocError>
    ensures kept { OnOk result (KeepsNumbers numbers.old numbers.new) }
    ensures all { IfOk result (λ found. (place mark : ℕ) → TakesAt flags varyings.now place mark → (n : ℕ) × IsNumber numbers.new mark n × Contains found.items n) }
{
    let mut found = Vec::new(alloc);
    for place in 0..varyings.len() {
        match push_number(numbers, &mut found, flags, &varyings[place].bound) {
            Ok(()) => {}
            Err(error) => return Err(error),
        }
    }
    found.sort_unstable();
    Ok(found)
}

// A word with a number in it.
fn with_number(word: Word, number: u32) -> Word
    requires { word.index ≡ number / 64 }
    ensures index { result.index ≡ word.index }
    ensures kept { (n : ℕ) → IsIn word n → IsIn result n }
    ensures added { IsIn result number }
{
    Word {
        index: word.index,
        bits: word.bits | 1 << (number % 64),
    }
}

// The word that a number is added to: the last, not yet appended, if the number is in it, else a new one, after the last is
// appended. The error is out of memory.
fn add_number(words: &mut Vec<Word>, word: Word, number: u32) -> Result<Word, AllocError>
    ensures kept { OnOk result (KeepsWords words.old.items words.new.items) }
    ensures longer { length words.old.items ≤ length words.new.items }
    ensures added { IfOk result (λ w. IsIn w number) }
    ensures still { IfOk result (λ w. (n : ℕ) → IsIn word n → IsIn w n ⊎ IsAmong words.new.items (length words.old.items) (length words.new.items) n) }
{
    let index = number / 64;
    if index == word.index {
        return Ok(with_number(word, number));
    }
    words.push(word)?;
    Ok(with_number(Word { index, bits: 0 }, number))
}

// Appends words with these numbers; as few as possible if they ascend. The error is out of memory.
fn add_words(words: &mut Vec<Word>, numbers: &[u32]) -> Result<(), AllocError>
    ensures kept { OnOk result (KeepsWords words.old.items words.new.items) }
    ensures longer { length words.old.items ≤ length words.new.items }
    ensures added { OnOk result ((n : ℕ) → Contains numbers.now n → IsAmong words.new.items (length words.old.items) (length words.new.items) n) }
{
    let mut word = Word { index: 0, bits: 0 };
    for place in 0..numbers.len() {
        match add_number(words, word, numbers[place]) {
            Ok(next) => word = next,
            Err(error) => return Err(error),
        }
    }
    words.push(word)?;
    Ok(())
}

// Appends words with the marks of a type's members. The error is out of memory.
fn add_part(
    alloc: Global,
    numbers: &mut BTreeMap<u64, u32>,
    words: &mut Vec<Word>,
    flags: ValidationFlags,
    types: &UniqueArena<IrType, key::IrType>,
    ty: Handle<key::IrType>,
) -> Result<Part, AllocError>
    ensures kept { OnOk result (KeepsNumbers numbers.old numbers.new) }
    ensures kept_words { OnOk result (KeepsWords words.old.items words.new.items) }
    ensures longer { length words.old.items ≤ length words.new.items }
    ensures part { IfOk result (IsPartOf flags numbers.new words.new.items (mesh_varyings (types_view types.now) ty)) }
{
    let mut varyings = Vec::new(alloc);
    add_value(types, &mut varyings, 0, ty, None)?;
    let found = numbers_of(alloc, numbers, flags, &varyings)?;
    let from = words.len();
    add_words(words, &found)?;
    Ok(Part {
        from,
        end: words.len(),
    })
}

impl Marks {
    /// Empty. It allocates nothing.
    pub(crate) fn new(alloc: Global) -> Marks
        ensures { (flags : ValidationFlags) (types : List PlainType) → AreMarksOf flags types result }
    {
        Marks {
            numbers: BTreeMap::new(alloc),
            words: Vec::new(alloc),
            parts: BTreeMap::new(alloc),
        }
    }

    // The words with the marks of a type's members. The error is out of memory.
    fn part_of(
        &mut self,
        alloc: Global,
        flags: ValidationFlags,
        types: &UniqueArena<IrType, key::IrType>,
        ty: Handle<key::IrType>,
    ) -> Result<Part, AllocError>
        requires { AreMarksOf flags (types_view types.now) self.old }
        ensures known { OnOk result (AreMarksOf flags (types_view types.now) self.new) }
        ensures kept { OnOk result (KeepsNumbers self.old.numbers self.new.numbers) }
        ensures part { IfOk result (IsPartOf flags self.new.numbers self.new.words.items (mesh_varyings (types_view types.now) ty)) }
    {
        let place = ty.index() as u32;
        if let Some(part) = self.parts.get(&place) {
            return Ok(*part);
        }
        let part = add_part(alloc, &mut self.numbers, &mut self.words, flags, types, ty)?;
        match self.parts.insert(place, part) {
            Ok(_) => Ok(part),
            Err(_) => Err(AllocError),
        }
    }

    /// Takes the marks of a type's members, and returns whether none was taken before. The error is out of memory.
    pub(crate) fn take_members(
        &mut self,
        alloc: Global,
        flags: ValidationFlags,
        types: &UniqueArena<IrType, key::IrType>,
        taken: &mut Vec<u64>,
        ty: Handle<key::IrType>,
    ) -> Result<bool, AllocError>
        requires { AreMarksOf flags (types_view types.now) self.old }
        ensures known { OnOk result (AreMarksOf flags (types_view types.now) self.new) }
        ensures kept { OnOk result (KeepsNumbers self.old.numbers self.new.numbers) }
        ensures still { OnOk result (KeepsBits taken.old.items taken.new.items) }
        ensures free { IfOk result (λ free. IsTrue free → AreNewlyTaken flags self.new.numbers taken.old.items taken.new.items (mesh_varyings (types_view types.now) ty)) }
    {
        let part = self.part_of(alloc, flags, types, ty)?;
        let free = take_part(taken, &self.words, part)?;
        Ok(free)
    }

    /// Takes the marks of varyings, one by one, and returns whether none was taken before. The error is out of memory.
    pub(crate) fn take_each(
        &mut self,
        flags: ValidationFlags,
        taken: &mut Vec<u64>,
        varyings: &[Varying],
    ) -> Result<bool, AllocError>
        ensures known { OnOk result ((types : List PlainType) → AreMarksOf flags types self.old → AreMarksOf flags types self.new) }
        ensures kept { OnOk result (KeepsNumbers self.old.numbers self.new.numbers) }
        ensures still { OnOk result (KeepsBits taken.old.items taken.new.items) }
        ensures free { IfOk result (λ free. IsTrue free → AreNewlyTaken flags self.new.numbers taken.old.items taken.new.items varyings.now) }
    {
        for place in 0..varyings.len() {
            match take_one(&mut self.numbers, flags, taken, &varyings[place].bound) {
                Ok(true) => {}
                Ok(false) => return Ok(false),
                Err(error) => return Err(error),
            }
        }
        Ok(true)
    }
}

// Takes the numbers of a word, and returns whether none was taken before. Without room for it, it returns false.
fn take_word(taken: &mut Vec<u64>, word: Word) -> bool
    ensures still { KeepsBits taken.old.items taken.new.items }
    ensures free { IsTrue result → (n : ℕ) → IsIn word n → (has_bit taken.new.items n ≡ true) × (has_bit taken.old.items n ≡ false) }
{
    let index = word.index as usize;
    if index >= taken.len() {
        return false;
    }
    if taken[index] & word.bits != 0 {
        return false;
    }
    taken[index] |= word.bits;
    true
}

// Takes the numbers of some words, and returns whether none was taken before.
fn take_words(taken: &mut Vec<u64>, words: &[Word], part: Part) -> bool
    requires { part.end ≤ length words.now }
    ensures still { KeepsBits taken.old.items taken.new.items }
    ensures free { IsTrue result → (n : ℕ) → IsAmong words.now part.from part.end n → (has_bit taken.new.items n ≡ true) × (has_bit taken.old.items n ≡ false) }
{
    for place in part.from..part.end {
        if !take_word(taken, words[place]) {
            return false;
        }
    }
    true
}

// Makes room for a word and those before it. The error is out of memory.
fn room_for(taken: &mut Vec<u64>, index: u32) -> Result<(), AllocError>
    ensures { OnOk result ((n : ℕ) → has_bit taken.new.items n ≡ has_bit taken.old.items n) }
{
    bits::reserve(taken, 64 * (index as usize + 1))?;
    Ok(())
}

// Makes room for words, the last of which has the largest numbers. The error is out of memory.
fn make_room(taken: &mut Vec<u64>, words: &[Word], part: Part) -> Result<(), AllocError>
    requires { part.end ≤ length words.now }
    ensures { OnOk result ((n : ℕ) → has_bit taken.new.items n ≡ has_bit taken.old.items n) }
{
    if part.from < part.end {
        return room_for(taken, words[part.end - 1].index);
    }
    Ok(())
}

// Takes the numbers of some words, and returns whether none was taken before. The error is out of memory.
fn take_part(taken: &mut Vec<u64>, words: &[Word], part: Part) -> Result<bool, AllocError>
    requires { part.end ≤ length words.now }
    ensures still { OnOk result (KeepsBits taken.old.items taken.new.items) }
    ensures free { IfOk result (λ free. IsTrue free → (n : ℕ) → IsAmong words.now part.from part.end n → (has_bit taken.new.items n ≡ true) × (has_bit taken.old.items n ≡ false)) }
{
    make_room(taken, words, part)?;
    Ok(take_words(taken, words, part))
}

// Takes the mark of a varying, and returns whether it was not taken before. The error is out of memory.
fn take_one(
    numbers: &mut BTreeMap<u64, u32>,
    flags: ValidationFlags,
    taken: &mut Vec<u64>,
    bound: &Bound,
) -> Result<bool, AllocError>
    ensures kept { OnOk result (KeepsNumbers numbers.old numbers.new) }
    ensures still { OnOk result (KeepsBits taken.old.items taken.new.items) }
    ensures free { IfOk result (λ free. IsTrue free → (mark : ℕ) → Takes flags bound.now mark → (n : ℕ) × IsNumber numbers.new mark n × (has_bit taken.new.items n ≡ true) × (has_bit taken.old.items n ≡ false)) }
{
    let Some(mark) = mark_of(flags, bound) else {
        return Ok(true);
    };
    let number = number_of(numbers, mark)?;
    let index = number / 64;
    room_for(taken, index)?;
    let word = with_number(Word { index, bits: 0 }, number);
    Ok(take_word(taken, word))
}
