// A report with names after its indices.

use crate::names::{GlobalName, Names};
use crate::roles::{Bound, Role, Roles};
use crate::words::{beginning, space_word, stage_word};
use ir_kinds::AddressSpace;
use judgement_rows::{ReportRow, Uses};
use std::fmt::{self, Display};

/// The lines of a report, with a description of each global variable and entry point after its index.
#[derive(Clone, Copy)]
pub struct NamedRows<'a> {
    /// The descriptions.
    pub names: &'a Names,
    /// The roles in SPIR-V, for a SPIR-V module.
    pub roles: &'a Roles,
    /// The rows.
    pub rows: &'a [ReportRow],
}

fn write_bound<W: fmt::Write>(f: &mut fmt::Formatter<W>, bound: Bound) -> fmt::Result {
    match bound {
        Bound::Location(location) => write!(f, " location {location}"),
        Bound::BuiltIn(name) => write!(f, " built-in {name}"),
        Bound::Members => Ok(()),
    }
}

// The address space of a variable, or its role in SPIR-V.
fn write_role<W: fmt::Write>(
    f: &mut fmt::Formatter<W>,
    role: Role,
    global: &GlobalName,
) -> fmt::Result {
    match role {
        Role::Input(bound) => {
            write!(f, " input")?;
            write_bound(f, bound)
        }
        Role::Output(bound) => {
            write!(f, " output")?;
            write_bound(f, bound)
        }
        Role::SamplerOf(image) => write!(f, " sampler made for global {image}"),
        Role::Same if global.space == AddressSpace::Handle => write!(f, " {}", global.ty.as_str()),
        Role::Same => write!(f, " {}", space_word(global.space)),
    }
}

// The description of a global variable, after its index.
fn write_global<W: fmt::Write>(
    f: &mut fmt::Formatter<W>,
    global: &GlobalName,
    role: Role,
) -> fmt::Result {
    if let Some(name) = &global.shown {
        write!(f, " {:?}", name.as_str())?;
    }
    if let Some(at) = &global.binding {
        write!(f, " set {} binding {}", at.group, at.binding)?;
    }
    write_role(f, role, global)
}

fn write_uses<W: fmt::Write>(f: &mut fmt::Formatter<W>, uses: Uses) -> fmt::Result {
    let words = [
        (uses.read, "read"),
        (uses.write, "write"),
        (uses.query, "query"),
        (uses.atomic, "atomic"),
    ];
    for (holds, word) in &words {
        if *holds {
            write!(f, " {word}")?;
        }
    }
    Ok(())
}

impl NamedRows<'_> {
    // The index of a global variable, with its description.
    fn write_number<W: fmt::Write>(&self, f: &mut fmt::Formatter<W>, place: usize) -> fmt::Result {
        write!(f, " {place}")?;
        match self.names.globals.get(place) {
            Some(global) => write_global(f, global, self.roles.at(place)),
            None => Ok(()),
        }
    }

    // The index of an entry point, with its description.
    fn write_entry<W: fmt::Write>(&self, f: &mut fmt::Formatter<W>, place: usize) -> fmt::Result {
        write!(f, "entry {place}")?;
        match self.names.entries.get(place) {
            Some(entry) => {
                let name = beginning(&entry.name);
                write!(f, " {name:?} {}", stage_word(entry.stage))
            }
            None => Ok(()),
        }
    }

    // A row without the line feed.
    fn write_row<W: fmt::Write>(&self, f: &mut fmt::Formatter<W>, row: ReportRow) -> fmt::Result {
        match row {
            ReportRow::Buffer(buffer) => {
                write!(f, "buffer")?;
                self.write_number(f, buffer.global)?;
                let (size, alignment) = (buffer.size, buffer.alignment);
                write!(f, " size {size} alignment {alignment}")
            }
            ReportRow::Entry(place) => self.write_entry(f, place),
            ReportRow::Payload(global) => {
                write!(f, "payload")?;
                self.write_number(f, global)
            }
            ReportRow::Mesh(global) => {
                write!(f, "mesh")?;
                self.write_number(f, global)
            }
            ReportRow::Global { global, uses } => {
                write!(f, "global")?;
                self.write_number(f, global)?;
                write_uses(f, uses)
            }
            ReportRow::Sample { image, sampler } => {
                write!(f, "sample")?;
                self.write_number(f, image)?;
                self.write_number(f, sampler)
            }
        }
    }
}

impl Display for NamedRows<'_> {
    fn fmt<W: fmt::Write>(&self, f: &mut fmt::Formatter<W>) -> fmt::Result {
        for row in self.rows {
            self.write_row(f, *row)?;
            write!(f, "\n")?;
        }
        Ok(())
    }
}
