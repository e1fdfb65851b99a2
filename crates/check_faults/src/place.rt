// Paths by the names of parts.
ghost use Rattle.std.specs.Prelude.{◌≡◌, IfOk, Some, codes};
ghost use Rattle.std.specs.Fmt.{HasWritten, IsPlainFormatter};
ghost use Rattle.check_faults.specs.Paths.{step_text, steps_text};
ghost use Rattle.check_faults.specs.Tables.{name_inside, part_inside};
ghost use Rattle.check_faults.specs.declared.parts.Part.TheVariants as parts;
ghost use Rattle.check_faults.specs.declared.parts.Row.TheVariants as rows;

use crate::parts::{Part, Row};
use std::fmt::{self, Display};

/// The path of indices to a part of a document, from the outermost inward, displayed by the names of parts where they have one.
#[derive(Clone, Copy)]
pub struct PathNames<'a>(pub &'a [u32]);

// One step into a part, and the part's kind.
fn write_step<W: fmt::Write>(
    f: &mut fmt::Formatter<W>,
    part: Part,
    index: u32,
    dot: &str,
) -> Result<Part, fmt::Error>
    ensures inside { IfOk result (λ inside. inside ≡ part_inside part index) }
    ensures text { IfOk result (λ _. IsPlainFormatter f.old → HasWritten W.write_str_gives f.old (step_text dot.now index (name_inside part index)) f.new) }
{
    let (name, inside) = part.inside(index as usize);
    match name {
        Some(name) => write!(f, "{dot}{name}")?,
        None => write!(f, "[{index}]")?,
    }
    Ok(inside)
}

impl<'a> Display for PathNames<'a> {
    ghost output = { λ path. Some (steps_text (codes "") (parts.Row rows.Document) path.0.now) };

    fn fmt<W: fmt::Write>(&self, f: &mut fmt::Formatter<W>) -> fmt::Result {
        let mut part = Part::Row(Row::Document);
        let mut dot = "";
        for index in self.0 {
            part = write_step(f, part, *index, dot)?;
            dot = ".";
        }
        Ok(())
    }
}
