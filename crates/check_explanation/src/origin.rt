// The SPIR-V instruction that a part of a module comes from.

ghost use Rattle.std.specs.Prelude.{◌≡◌, IfSome};

use crate::spans::{entry_at, member_at, span_at};
use crate::varyings::varying_at;
use check_names::put_position;
use ir_items::Module;
use serde_json::{Map, Value, put};
use spirv_lines::{Position, position_of};
use spirv_numbers::names::opcode_name;
use spirv_numbers::ops;
use spirv_words::{Instruction, Listing, SpirvError, list};
use std::alloc::{AllocError, Global};
use std::fmt::{self, Display};

/// The SPIR-V instruction that a part of a module comes from.
#[derive(Drop)]
pub struct Origin {
    /// Its word offset, counted from 0.
    pub word: u32,
    /// The name of its opcode, without `Op`.
    pub opcode: &'static str,
    /// The id of its result, or 0 if it has none.
    pub id: u32,
    /// The name of the result, or of the variable or function that it operates on, if any.
    pub name: Option<String>,
    /// Its location in the source or in the SPIR-V module.
    pub position: Position,
}

// Whether its first operand is a pointer or a function whose name describes the instruction.
fn works_on_first(opcode: u16) -> bool {
    matches!(
        opcode,
        ops::LOAD
            | ops::STORE
            | ops::ACCESS_CHAIN
            | ops::IN_BOUNDS_ACCESS_CHAIN
            | ops::ARRAY_LENGTH
            | ops::FUNCTION_CALL
            | ops::IMAGE_TEXEL_POINTER
    )
}

// The name of an id or its member, if it has a non-empty one.
fn name_of(
    alloc: Global,
    listing: &Listing,
    id: u32,
    member: Option<u32>,
) -> Result<Option<String>, SpirvError> {
    match listing.name(alloc, id, member)? {
        Some(name) if !name.is_empty() => Ok(Some(name)),
        Some(_) | None => Ok(None),
    }
}

// The name for an instruction, or for a member of the type that it declares.
fn name_at(
    alloc: Global,
    listing: &Listing,
    instruction: &Instruction,
    member: Option<u32>,
) -> Result<Option<String>, SpirvError> {
    if member.is_some() {
        let name = name_of(alloc, listing, instruction.id, member)?;
        if name.is_some() {
            return Ok(name);
        }
    }
    let name = name_of(alloc, listing, instruction.id, None)?;
    if name.is_some() || !works_on_first(instruction.opcode) {
        return Ok(name);
    }
    let first = listing.operand(instruction, 0).unwrap_or(0);
    name_of(alloc, listing, first, None)
}

// The instruction that begins at this word, by binary search in word order.
fn instruction_at(listing: &Listing, word: u32) -> Option<Instruction>
    ensures { IfSome result (λ instruction. instruction.start ≡ word) }
{
    let place = listing
        .instructions
        .partition_point(|instruction| instruction.start < word);
    match listing.instructions.get(place) {
        Some(found) if found.start == word => Some(*found),
        Some(_) | None => None,
    }
}

// The instruction that the part at a path comes from, by word range.
fn spanned(listing: &Listing, module: &Module, path: &[u32]) -> Option<Instruction> {
    if let Some(range) = span_at(module, path).to_range() {
        return instruction_at(listing, u32::try_from(range.start).ok()?);
    }
    let entry = entry_at(path)?;
    let place = listing.parts.entry_points.get(entry as usize)?;
    Some(listing.at(*place))
}

// The instruction that the part at a path comes from; for a varying that of its variable.
fn instruction_of(listing: &Listing, module: &Module, path: &[u32]) -> Option<Instruction> {
    let found = spanned(listing, module, path)?;
    if found.opcode == ops::ENTRY_POINT {
        if let Some(variable) = varying_at(listing, module, path, &found) {
            return Some(variable);
        }
    }
    Some(found)
}

/// The instruction of this SPIR-V binary that the part at a path of its module comes from, if known.
pub fn origin_of(
    alloc: Global,
    bytes: &[u8],
    module: &Module,
    path: &[u32],
) -> Result<Option<Origin>, SpirvError> {
    let listing = list(alloc, bytes)?;
    let Some(instruction) = instruction_of(&listing, module, path) else {
        return Ok(None);
    };
    let name = name_at(alloc, &listing, &instruction, member_at(path))?;
    let position = position_of(alloc, &listing, instruction.start)?;
    Ok(Some(Origin {
        word: instruction.start,
        opcode: opcode_name(instruction.opcode),
        id: instruction.id,
        name,
        position,
    }))
}

impl Display for Origin {
    fn fmt<W: fmt::Write>(&self, f: &mut fmt::Formatter<W>) -> fmt::Result {
        let (opcode, word, position) = (self.opcode, self.word, &self.position);
        match &self.name {
            Some(name) => write!(f, "Op{opcode} {name:?} at word {word}, {position}"),
            None => write!(f, "Op{opcode} at word {word}, {position}"),
        }
    }
}

impl Origin {
    /// The JSON object. The error is out of memory.
    pub fn value(&self, alloc: Global) -> Result<Value, AllocError> {
        let opcode = format!(in alloc; "Op{}", self.opcode)?;
        let id = match self.id {
            0 => Value::Null,
            id => Value::from(u64::from(id)),
        };
        let name = match &self.name {
            Some(name) => Value::try_from_str(alloc, name)?,
            None => Value::Null,
        };
        let mut map = Map::new(alloc);
        put(&mut map, alloc, "word", Value::from(u64::from(self.word)))?;
        put_position(&mut map, alloc, &self.position)?;
        put(
            &mut map,
            alloc,
            "opcode",
            Value::try_from_str(alloc, &opcode)?,
        )?;
        put(&mut map, alloc, "id", id)?;
        put(&mut map, alloc, "name", name)?;
        Ok(Value::Object(map))
    }
}
