// Operations on numbers and bools, component by component (sections 3.52.11 and 3.52.13 to 3.52.16).

use crate::kinds::{Class, Kind, Of, Wrong, is_of, kind_at, kind_of};
use spirv_numbers::ops;
use spirv_words::{Instruction, Listing, Malformed};

/// What of each operand is as it is of the result.
#[derive(Clone, Copy, PartialEq, Eq)]
pub(crate) enum Alike {
    /// How many scalars there are, and how many bits each has.
    Whole,
    /// How many scalars there are.
    Count,
    /// Nothing: the result is one scalar.
    Nothing,
}

/// Of what an operation makes what.
#[derive(Clone, Copy)]
pub(crate) struct Row {
    /// What the result is made of.
    pub given: Class,
    /// What each operand is made of.
    pub operand: Class,
    /// What is alike.
    pub alike: Alike,
}

impl Row {
    /// This is made of what is of one class and of one width.
    pub(crate) fn whole(class: Class) -> Row {
        Row {
            given: class,
            operand: class,
            alike: Alike::Whole,
        }
    }

    /// This is made of so many of that.
    pub(crate) fn counted(given: Class, operand: Class) -> Row {
        Row {
            given,
            operand,
            alike: Alike::Count,
        }
    }

    /// One of this is made of those.
    pub(crate) fn joined(given: Class, operand: Class) -> Row {
        Row {
            given,
            operand,
            alike: Alike::Nothing,
        }
    }

    // What an operand has to have of the result: its width and its count.
    fn wanted(&self, given: Of) -> (Option<u32>, Option<u32>) {
        match (given, self.alike) {
            (Of::Kind(kind), Alike::Whole) => (Some(kind.width), Some(kind.count)),
            (Of::Kind(kind), Alike::Count) => (None, Some(kind.count)),
            _ => (None, None),
        }
    }

    // How many scalars the result has, where that is said.
    fn count(&self) -> Option<u32> {
        match self.alike {
            Alike::Nothing => Some(1),
            Alike::Whole | Alike::Count => None,
        }
    }

    /// What is wrong with the result of an instruction and with its operands from this index on, which are all of one width.
    pub(crate) fn wrong(&self, listing: &Listing, instruction: &Instruction, from: usize) -> Wrong {
        let result = kind_of(listing, instruction.ty);
        if !is_of(result, self.given, None, self.count()) {
            return Some(Malformed::ResultType);
        }
        let (mut width, count) = self.wanted(result);
        let mut place = from;
        for _ in listing.operands_from(instruction, from) {
            let of = kind_at(listing, instruction, place);
            if !is_of(of, self.operand, width, count) {
                return Some(Malformed::OperandType);
            }
            if let Of::Kind(kind) = of {
                width = Some(kind.width);
            }
            place = place.saturating_add(1);
        }
        None
    }
}

// Of what an instruction makes what, of operands that are all alike.
fn row_of(opcode: u16) -> Option<Row> {
    match opcode {
        ops::S_NEGATE
        | ops::I_ADD
        | ops::I_SUB
        | ops::I_MUL
        | ops::U_DIV..=ops::S_DIV
        | ops::U_MOD..=ops::S_MOD
        | ops::BITWISE_OR..=ops::NOT
        | ops::BIT_REVERSE => Some(Row::whole(Class::Int)),
        ops::F_NEGATE
        | ops::F_ADD
        | ops::F_SUB
        | ops::F_MUL
        | ops::F_DIV
        | ops::F_REM..=ops::F_MOD
        | ops::QUANTIZE_TO_F16
        | ops::D_PDX..=ops::FWIDTH_COARSE => Some(Row::whole(Class::Float)),
        ops::LOGICAL_EQUAL..=ops::LOGICAL_NOT => Some(Row::whole(Class::Bool)),
        ops::I_EQUAL..=ops::S_LESS_THAN_EQUAL => Some(Row::counted(Class::Bool, Class::Int)),
        ops::F_ORD_EQUAL..=ops::F_UNORD_GREATER_THAN_EQUAL | ops::IS_NAN | ops::IS_INF => {
            Some(Row::counted(Class::Bool, Class::Float))
        }
        ops::ANY | ops::ALL => Some(Row::joined(Class::Bool, Class::Bool)),
        ops::DOT => Some(Row::joined(Class::Float, Class::Float)),
        ops::CONVERT_F_TO_U | ops::CONVERT_F_TO_S => Some(Row::counted(Class::Int, Class::Float)),
        ops::CONVERT_S_TO_F | ops::CONVERT_U_TO_F => Some(Row::counted(Class::Float, Class::Int)),
        ops::U_CONVERT | ops::S_CONVERT | ops::BIT_COUNT => {
            Some(Row::counted(Class::Int, Class::Int))
        }
        ops::F_CONVERT => Some(Row::counted(Class::Float, Class::Float)),
        _ => None,
    }
}

// What is wrong with an operation on bits whose operand at this index is as its result, and whose last ones say places: each is one
// integer, or one for each component where `counted`.
fn wrong_bits(listing: &Listing, instruction: &Instruction, places: usize, counted: bool) -> Wrong {
    let Of::Kind(result) = kind_of(listing, instruction.ty) else {
        return Some(Malformed::ResultType);
    };
    if result.class != Class::Int {
        return Some(Malformed::ResultType);
    }
    let count = Some(if counted { result.count } else { 1 });
    let mut place = 0usize;
    for _ in listing.operands(instruction) {
        let of = kind_at(listing, instruction, place);
        let is_right = if place < places {
            is_of(of, Class::Int, Some(result.width), Some(result.count))
        } else {
            is_of(of, Class::Int, None, count)
        };
        if !is_right {
            return Some(Malformed::OperandType);
        }
        place = place.saturating_add(1);
    }
    None
}

// How many bits a scalar or a vector has.
fn bits(kind: Kind) -> u64 {
    u64::from(kind.width).saturating_mul(u64::from(kind.count))
}

// What is wrong with a cast that keeps the bits.
fn wrong_cast(listing: &Listing, instruction: &Instruction) -> Wrong {
    match (
        kind_of(listing, instruction.ty),
        kind_at(listing, instruction, 0),
    ) {
        (Of::Kind(result), Of::Kind(value)) if bits(result) != bits(value) => {
            Some(Malformed::OperandType)
        }
        _ => None,
    }
}

/// What is wrong with an operation on numbers or bools.
pub(crate) fn wrong_numbers(listing: &Listing, instruction: &Instruction) -> Wrong {
    match instruction.opcode {
        ops::SHIFT_RIGHT_LOGICAL..=ops::SHIFT_LEFT_LOGICAL => {
            wrong_bits(listing, instruction, 1, true)
        }
        ops::BIT_FIELD_INSERT => wrong_bits(listing, instruction, 2, false),
        ops::BIT_FIELD_S_EXTRACT | ops::BIT_FIELD_U_EXTRACT => {
            wrong_bits(listing, instruction, 1, false)
        }
        ops::BITCAST => wrong_cast(listing, instruction),
        opcode => match row_of(opcode) {
            Some(row) => row.wrong(listing, instruction, 0),
            None => None,
        },
    }
}
