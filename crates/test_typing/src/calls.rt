// Each call on alignments, layouters and slots of immediate data, once.
use ir_kinds::{CooperativeSize, Scalar, VectorSize};
use ir_sets::unique_arena::UniqueArena;
use ir_types::{IrType, TypeInner, key};
use module_globals::ImmediateSlots;
use std::io;
use test_support::call::freeing;
use typing_forms::types_go_back;
use typing_layout::{Alignment, LayoutErrorInner, Layouter};

// Prints the result of a call.
fn say(rt: &HostRuntime, call: &str, answer: u32) -> io::Result<()> {
    println!(rt; "{call}: {answer}")
}

// The bytes of an alignment, or 0 without one.
fn bytes_of(alignment: Option<Alignment>) -> u32 {
    match alignment {
        Some(alignment) => alignment.get(),
        None => 0,
    }
}

// The calls that construct an alignment, each with its result.
fn made_ones() -> [(&'static str, u32); 8] {
    let sixteen = Alignment::from(CooperativeSize::Sixteen);
    [
        ("of 8", bytes_of(Alignment::new(8))),
        ("of 12", bytes_of(Alignment::new(12))),
        ("of 0", bytes_of(Alignment::new(0))),
        ("of a width of 2", Alignment::from_width(2).get()),
        ("of two", Alignment::from(VectorSize::Bi).get()),
        ("of three", Alignment::from(VectorSize::Tri).get()),
        ("of sixteen", sixteen.get()),
        ("least", u32::from(sixteen == Alignment::MIN_UNIFORM)),
    ]
}

fn made(rt: &HostRuntime) -> io::Result<()> {
    for call in made_ones() {
        say(rt, call.0, call.1)?;
    }
    Ok(())
}

// The calls on an alignment, each with its result.
fn asked_ones() -> [(&'static str, u32); 6] {
    let four = Alignment::from(VectorSize::Quad);
    [
        ("24 is aligned", u32::from(four.is_aligned(24))),
        ("22 is aligned", u32::from(four.is_aligned(22))),
        ("17 rounded up", four.round_up(17)),
        ("24 rounded up", four.round_up(24)),
        ("times 3", four * 3u32),
        ("times itself", (four * four).get()),
    ]
}

fn asked(rt: &HostRuntime) -> io::Result<()> {
    for call in asked_ones() {
        say(rt, call.0, call.1)?;
    }
    println!(rt; "{}", Alignment::from(VectorSize::Quad))
}

type Types = UniqueArena<IrType, key::IrType>;

// Lays out no types, which are all types.
fn lay_out(rt: &HostRuntime, layouter: &mut Layouter, types: &Types) -> io::Result<()> {
    layouter.clear();
    if !types_go_back(types) || layouter.update(types).is_err() {
        return println!(rt; "no types have no layouts");
    }
    println!(rt; "{layouter:?}")
}

// A layouter that is cleared and updated again.
fn cleared(rt: &HostRuntime, types: &Types) -> io::Result<()> {
    let mut layouter = Layouter::new(rt.alloc());
    freeing(lay_out(rt, &mut layouter, types), layouter)
}

// Prints the slots that a call returns.
fn say_slots(rt: &HostRuntime, call: &str, answer: ImmediateSlots) -> io::Result<()> {
    println!(rt; "{call}: {answer:?}")
}

// The calls on slots, of which 1 and 2 are 6.
fn slots_of_bytes(rt: &HostRuntime) -> io::Result<()> {
    let pair = ImmediateSlots::from_raw(6);
    let range = ImmediateSlots::from_range(2, 8);
    say_slots(rt, "bytes 4 to 12", ImmediateSlots::from_range(4, 8))?;
    say_slots(rt, "bytes 2 to 10", range)?;
    say_slots(rt, "either", pair | ImmediateSlots::from_raw(8))?;
    println!(rt;
        "contains: {} {}",
        range.contains(pair),
        pair.contains(range)
    )?;
    say_slots(rt, "without", range.difference(pair))
}

// The slots of a vector of 12 bytes.
fn slots_of_type(rt: &HostRuntime, types: &Types) -> io::Result<()> {
    if !types_go_back(types) {
        return println!(rt; "no types do not go back");
    }
    let vector = TypeInner::Vector {
        size: VectorSize::Tri,
        scalar: Scalar::F32,
    };
    let slots = ImmediateSlots::from_type(&vector, 6, types);
    freeing(say_slots(rt, "a vector from 6", slots), vector)
}

// The error messages, and the calls on layouters and slots over these types, of which there are none.
fn over_none(rt: &HostRuntime, types: &Types) -> io::Result<()> {
    for error in [
        LayoutErrorInner::TooLarge,
        LayoutErrorInner::NonPowerOfTwoWidth,
    ] {
        println!(rt; "{error}")?;
    }
    cleared(rt, types)?;
    slots_of_bytes(rt)?;
    slots_of_type(rt, types)
}

/// Makes each call, and prints the results.
pub fn every_call(rt: &HostRuntime) -> io::Result<()> {
    made(rt)?;
    asked(rt)?;
    let types: Types = UniqueArena::new(rt.alloc());
    freeing(over_none(rt, &types), types)
}
