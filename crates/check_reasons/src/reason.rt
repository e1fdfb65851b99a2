// The reason why a document is invalid, as text.

ghost use Rattle.std.specs.Prelude.{◌≡◌, map, option_map};
ghost use Rattle.serde_json.specs.View.{view};
ghost use Rattle.check_faults.specs.Tables.{spelled};
ghost use Rattle.check_reasons.specs.ItemNames.{item_name, named as names_listed};

use crate::show::{Shown, TypeAt, value_at};
use check_faults::PathNames;
use check_faults::document::{along, at, number, number_at, parts, word};
use check_faults::forms::{Names, Part, expression_parts, statement_parts};
use check_faults::tables::find_in;
use check_places::{Refusal, Site, Target};
use serde_json::Value;
use std::fmt::{self, Display};

// The maximum number of operands displayed with their types.
const MOST_OPERANDS: usize = 4;
// The maximum number of steps to follow from a pointer to its origin.
const MOST_STEPS: usize = 64;

/// The reason why a document is invalid: the error, and the path to the part it concerns.
#[derive(Clone, Copy)]
pub struct Reason<'a> {
    /// The error's details.
    pub refusal: Refusal<'a>,
    /// The path to the part it concerns.
    pub path: &'a [u32],
}

// The rest of a path inside the function that it leads into.
fn inside_function<'p>(path: &'p [u32]) -> &'p [u32] {
    match path.first() {
        Some(12) => path.get(2..).unwrap_or(&[]),
        Some(13) => path.get(3..).unwrap_or(&[]),
        _ => &[],
    }
}

// The function that a path leads into.
fn function_of<'a>(document: &'a Value, path: &[u32]) -> Option<&'a Value> {
    let list = *path.first()?;
    let index = *path.get(1)? as usize;
    match list {
        12 => along(document, &[12, index]),
        13 => along(document, &[13, index, 6]),
        _ => None,
    }
}

static ARGUMENT: [Part; 1] = [(1, Names::Type)];

static CONSTANT: [Part; 2] = [(1, Names::Type), (2, Names::Expression)];

static OVERRIDE: [Part; 2] = [(2, Names::Type), (3, Names::Expression)];

static GLOBAL: [Part; 2] = [(3, Names::Type), (4, Names::Expression)];

static OUTPUT: [Part; 1] = [(0, Names::Type)];

// The handle parts of the item inside a function.
fn form_inside(inside: &[u32], item: &Value) -> &'static [Part] {
    match inside.first() {
        Some(1) => &ARGUMENT,
        Some(3) => &CONSTANT,
        Some(2) => &OUTPUT,
        Some(4) => expression_parts(item),
        Some(5) => statement_parts(item),
        _ => &[],
    }
}

// The handle parts of the item at a path.
fn form_at(path: &[u32], item: &Value) -> &'static [Part] {
    match path.first() {
        Some(8) => &CONSTANT,
        Some(9) => &OVERRIDE,
        Some(10) => expression_parts(item),
        Some(11) => &GLOBAL,
        _ => form_inside(inside_function(path), item),
    }
}

// Whether the item at a path is displayed: not a whole function or entry point, and not a whole body.
fn is_shown(path: &[u32]) -> bool {
    let inside = inside_function(path);
    let is_part = inside.len() > 1 || inside.first() == Some(&2);
    match path.first() {
        Some(12) => is_part,
        Some(13) => is_part || (path.len() == 3 && path.get(2) != Some(&6)),
        Some(_) => path.len() > 1,
        None => false,
    }
}

// The elements of an array, or the value itself.
fn values(item: &Value) -> &[Value] {
    if item.is_array() {
        parts(item)
    } else {
        std::slice::from_ref(item)
    }
}

// The name of the list of a kind of item.
fn list_of(named: Names) -> &'static str {
    match named {
        Names::Type => "types",
        Names::Constant => "constants",
        Names::Override => "overrides",
        Names::Global => "globals",
        Names::Function => "functions",
        Names::Local => "locals",
        Names::Filter => "diagnostics.filters",
        Names::Expression => "expressions",
    }
}

impl Reason<'_> {
    fn item(&self) -> Option<&Value> {
        value_at(self.refusal.document, self.path)
    }

    // Writes the type of an operand, after a separator that depends on whether it is the first. Returns whether it is known.
    fn write_operand<W: fmt::Write>(
        &self,
        f: &mut fmt::Formatter<W>,
        operand: &Value,
        is_first: bool,
    ) -> Result<bool, fmt::Error> {
        let Some(index) = number(operand) else {
            return Ok(false);
        };
        let Some(found) = self.refusal.types.get(index) else {
            return Ok(false);
        };
        let before = if is_first { ", where" } else { " and" };
        write!(f, "{before} [{index}] is {}", found.text.as_str())?;
        self.write_origin(f, found.index, self.root_of(index))?;
        Ok(true)
    }

    // Writes the type's index in the document, and the global variable that an operand originates from.
    fn write_origin<W: fmt::Write>(
        &self,
        f: &mut fmt::Formatter<W>,
        ty: Option<usize>,
        global: Option<usize>,
    ) -> fmt::Result {
        match (ty, global) {
            (Some(ty), Some(global)) => write!(f, " (types[{ty}], globals[{global}])"),
            (Some(ty), None) => write!(f, " (types[{ty}])"),
            (None, Some(global)) => write!(f, " (globals[{global}])"),
            (None, None) => Ok(()),
        }
    }

    // Writes the types of these operands. Returns whether the next one is the first.
    fn write_each<W: fmt::Write>(
        &self,
        f: &mut fmt::Formatter<W>,
        operands: &[Value],
        is_first: bool,
    ) -> Result<bool, fmt::Error> {
        let mut still = is_first;
        for operand in operands.iter().take(MOST_OPERANDS) {
            let is_written = self.write_operand(f, operand, still)?;
            still = still && !is_written;
        }
        Ok(still)
    }

    // Writes a type that the item references. Returns whether the next one is the first.
    fn write_type<W: fmt::Write>(
        &self,
        f: &mut fmt::Formatter<W>,
        named: &Value,
        is_first: bool,
    ) -> Result<bool, fmt::Error> {
        let Some(index) = number(named) else {
            return Ok(is_first);
        };
        let before = if is_first { ", where" } else { " and" };
        let found = TypeAt(self.refusal.document, index);
        write!(f, "{before} types[{index}] is {found}")?;
        Ok(false)
    }

    // Writes the types of a part of the item. Returns whether the next one is the first.
    fn write_part<W: fmt::Write>(
        &self,
        f: &mut fmt::Formatter<W>,
        named: Names,
        part: &Value,
        is_first: bool,
    ) -> Result<bool, fmt::Error> {
        match named {
            Names::Expression => self.write_each(f, values(part), is_first),
            Names::Type => self.write_type(f, part, is_first),
            Names::Constant
            | Names::Override
            | Names::Global
            | Names::Function
            | Names::Local
            | Names::Filter => Ok(is_first),
        }
    }

    // Writes the types of the item and of its operands.
    fn write_operands<W: fmt::Write>(
        &self,
        f: &mut fmt::Formatter<W>,
        item: &Value,
    ) -> fmt::Result {
        let mut is_first = true;
        for form in form_at(self.path, item).iter().take(MOST_OPERANDS) {
            if let Some(found) = at(item, form.0) {
                is_first = self.write_part(f, form.1, found, is_first)?;
            }
        }
        Ok(())
    }

    // Writes the path, and the actual value.
    fn write_item<W: fmt::Write>(&self, f: &mut fmt::Formatter<W>) -> fmt::Result {
        if self.path.is_empty() {
            return Ok(());
        }
        write!(f, "{}", PathNames(self.path))?;
        if is_shown(self.path) {
            if let Some(item) = self.item() {
                write!(f, " is {}", Shown(item))?;
                self.write_operands(f, item)?;
            }
        }
        write!(f, ": ")
    }

    // The number of items of the kind that a handle references.
    fn count_of(&self, named: Names) -> usize {
        let document = self.refusal.document;
        let inside = function_of(document, self.path);
        let list = match named {
            Names::Type => at(document, 5),
            Names::Constant => at(document, 8),
            Names::Override => at(document, 9),
            Names::Global => at(document, 11),
            Names::Function => at(document, 12),
            Names::Filter => along(document, &[7, 0]),
            Names::Local => match inside {
                Some(function) => at(function, 3),
                None => None,
            },
            Names::Expression => match inside {
                Some(function) => at(function, 4),
                None => at(document, 10),
            },
        };
        match list {
            Some(list) => parts(list).len(),
            None => 0,
        }
    }

    // Writes the error of a handle.
    fn write_handle<W: fmt::Write>(
        &self,
        f: &mut fmt::Formatter<W>,
        target: &Target,
    ) -> fmt::Result {
        let (list, index) = (list_of(target.named), target.index);
        if target.is_later {
            return write!(f, "it names {list}[{index}], which does not come before it");
        }
        let count = self.count_of(target.named);
        write!(f, "it names {list}[{index}], and there are {count}")
    }

    // The global variable that a pointer originates from.
    fn root_of(&self, pointer: usize) -> Option<usize> {
        let function = function_of(self.refusal.document, self.path)?;
        let expressions = at(function, 4)?;
        let mut found = pointer;
        for _ in 0..MOST_STEPS {
            let expression = at(expressions, found)?;
            match word(expression) {
                "Access" | "AccessIndex" => found = number_at(expression, 1)?,
                "GlobalVariable" => return number_at(expression, 1),
                _ => return None,
            }
        }
        None
    }

    // Writes the requirement.
    fn write_required<W: fmt::Write>(&self, f: &mut fmt::Formatter<W>) -> fmt::Result {
        match &self.refusal.site {
            Site::Handle(target) => self.write_handle(f, target),
            Site::Range(..) => write!(
                f,
                "a range must not end before its start, nor after the last expression"
            ),
            Site::Body(_) | Site::Part(_) | Site::Brought(_) => write!(
                f,
                "{}",
                self.refusal.required
            ),
        }
    }
}

impl Display for Reason<'_> {
    fn fmt<W: fmt::Write>(&self, f: &mut fmt::Formatter<W>) -> fmt::Result {
        self.write_item(f)?;
        self.write_required(f)
    }
}

// The list of a step, and the index of the name in its items.
static NAMED: [(&str, (usize, usize)); 7] = [
    ("layout", (5, 0)),
    ("type", (5, 0)),
    ("constant", (8, 0)),
    ("override", (9, 0)),
    ("global", (11, 0)),
    ("function", (12, 0)),
    ("entry", (13, 1)),
];

fn named() -> &'static [(&'static str, (usize, usize))]
    ensures { map spelled result.now ≡ names_listed }
{
    &NAMED
}

/// The name of the item that a step rejects, if it has one.
pub fn name_of<'a>(document: &'a Value, step: &str, index: usize) -> Option<&'a str>
    ensures { option_map (λ t. t.now) result ≡ item_name (view document.now) step.now index }
{
    let (list, place) = find_in(named(), step)?;
    along(document, &[list, index, place])?.as_str()
}
