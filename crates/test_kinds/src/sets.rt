// Sets of flags, by the calls of `Flags` and by operators.
use crate::uses;
use bitflags::Flags;
use ir_flags::{
    Barrier, Capabilities, MemoryDecorations, ShaderStages, StorageAccess, SubgroupOperationSet,
    ValidationFlags, laws,
};
use std::io;

// Of each set: its name, the number of its flags, and the bits of all of them.
fn whole_sets() -> [(&'static str, usize, u64); 7] {
    [
        (
            "access",
            StorageAccess::flags().len(),
            u64::from(StorageAccess::all().bits()),
        ),
        (
            "barrier",
            Barrier::flags().len(),
            u64::from(Barrier::all().bits()),
        ),
        (
            "decorations",
            MemoryDecorations::flags().len(),
            u64::from(MemoryDecorations::all().bits()),
        ),
        (
            "stages",
            ShaderStages::flags().len(),
            u64::from(ShaderStages::all().bits()),
        ),
        (
            "subgroups",
            SubgroupOperationSet::flags().len(),
            u64::from(SubgroupOperationSet::all().bits()),
        ),
        (
            "flags",
            ValidationFlags::flags().len(),
            u64::from(ValidationFlags::all().bits()),
        ),
        (
            "capabilities",
            Capabilities::flags().len(),
            Capabilities::all().bits(),
        ),
    ]
}

fn print_whole(rt: &impl Print) -> io::Result<()> {
    for set in whole_sets() {
        println!(rt; "{} {} {}", set.0, set.1, set.2)?;
    }
    Ok(())
}

// Constants by name, as numbers.
fn constants() -> [(&'static str, u64); 3] {
    [
        ("compute-like", u64::from(ShaderStages::COMPUTE_LIKE.bits())),
        ("default", u64::from(ValidationFlags::default().bits())),
        ("volatile", Capabilities::MEMORY_DECORATION_VOLATILE.bits()),
    ]
}

fn print_numbers(rt: &impl Print, numbers: &[(&str, u64)]) -> io::Result<()> {
    for number in numbers {
        println!(rt; "{} {}", number.0, number.1)?;
    }
    Ok(())
}

fn print_constants(rt: &impl Print) -> io::Result<()> {
    print_numbers(rt, &constants())?;
    for name in [("names", "BLOCKS"), ("no name", "blocks")] {
        println!(rt; "{} {:?}", name.0, ValidationFlags::from_name(name.1))?;
    }
    println!(rt; "hex {:x}", Capabilities::MESH_SHADER.bits())?;
    for flag in Barrier::SUB_GROUP | Barrier::STORAGE {
        println!(rt; "barrier {}", flag.bits())?;
    }
    Ok(())
}

// The results for two sets, by a call and by an operator.
fn operations(some: ShaderStages, other: ShaderStages) -> [(&'static str, u16, u16); 4] {
    [
        (
            "intersection",
            uses::both(some, other).bits(),
            (some & other).bits(),
        ),
        (
            "difference",
            uses::only_left(some, other).bits(),
            (some - other).bits(),
        ),
        ("complement", some.complement().bits(), (!some).bits()),
        (
            "symmetric",
            some.symmetric_difference(other).bits(),
            (some ^ other).bits(),
        ),
    ]
}

fn print_operations(rt: &impl Print, some: ShaderStages, other: ShaderStages) -> io::Result<()> {
    println!(rt; "{some:?} {other:?}")?;
    println!(rt; "union {}", uses::either(some, other).bits())?;
    for made in operations(some, other) {
        println!(rt; "{} {} {}", made.0, made.1, made.2)?;
    }
    Ok(())
}

// The results of each predicate for two sets.
fn questions(some: ShaderStages, other: ShaderStages) -> [(&'static str, bool, bool); 4] {
    [
        (
            "contains",
            some.contains(other),
            uses::is_within(ShaderStages::MESH, other),
        ),
        (
            "empty",
            uses::is_empty(some),
            uses::is_empty(uses::nothing()),
        ),
        ("all", some.is_all(), uses::every_check().is_all()),
        (
            "only fragment",
            uses::is_fragment(some),
            uses::is_fragment(ShaderStages::FRAGMENT),
        ),
    ]
}

fn print_questions(rt: &impl Print, some: ShaderStages, other: ShaderStages) -> io::Result<()> {
    println!(rt; "intersects {}", some.intersects(other))?;
    for question in questions(some, other) {
        println!(rt; "{} {} {}", question.0, question.1, question.2)?;
    }
    Ok(())
}

// The bits of a set after each change.
fn changes() -> [(&'static str, u64); 3] {
    let mut checks = ValidationFlags::empty();
    uses::add_blocks(&mut checks);
    checks.set(ValidationFlags::CONSTANTS, true);
    let first = u64::from(checks.bits());
    uses::drop_blocks(&mut checks);
    let second = u64::from(checks.bits());
    checks.toggle(ValidationFlags::BINDINGS);
    [
        ("checks", first),
        ("checks", second),
        ("checks", u64::from(checks.bits())),
    ]
}

// The results for bits of which some are unknown.
fn made_of_bits() -> [(&'static str, u64); 2] {
    [
        (
            "kept",
            u64::from(ValidationFlags::from_bits_retain(128).bits()),
        ),
        (
            "cut",
            u64::from(ValidationFlags::from_bits_truncate(130).bits()),
        ),
    ]
}

fn print_changes(rt: &impl Print) -> io::Result<()> {
    print_numbers(rt, &changes())?;
    println!(rt;
        "bits {:?} {:?}",
        uses::from_known(63),
        uses::from_known(128)
    )?;
    print_numbers(rt, &made_of_bits())?;
    for capabilities in [Capabilities::MESH_SHADER, Capabilities::all()] {
        println!(rt; "mesh {}", uses::can_mesh(capabilities))?;
    }
    Ok(())
}

/// Prints the results of the sets of flags.
pub fn run(rt: &impl Print) -> io::Result<()> {
    laws::compute_like();
    laws::all_words();
    laws::within(1, 3, 7);
    let some = ShaderStages::VERTEX.union(ShaderStages::MESH);
    let other = ShaderStages::MESH | ShaderStages::TASK;
    print_whole(rt)?;
    print_constants(rt)?;
    print_operations(rt, some, other)?;
    print_questions(rt, some, other)?;
    print_changes(rt)
}
