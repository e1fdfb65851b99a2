// The handles of an expression or a statement, by position, and the kinds of item they reference.

ghost use Rattle.std.specs.Prelude.{◌≡◌, map};
ghost use Rattle.check_faults.specs.Parts.{word as word_of};
ghost use Rattle.check_faults.specs.Tables.{expression_forms, kinds as kinds_named, list_for, listed, lookup, spelled, statement_forms};
ghost use Rattle.serde_json.specs.View.{view};

use crate::document::{at, number, number_at, parts, word};
use crate::tables::find_in;
use serde_json::Value;

/// The kind of item that a part references.
#[derive(Clone, Copy, PartialEq, Eq)]
pub enum Names {
    Type,
    Constant,
    Override,
    Global,
    Function,
    Local,
    Expression,
    Filter,
}

static KINDS: [(&str, Names); 8] = [
    ("type", Names::Type),
    ("constant", Names::Constant),
    ("override", Names::Override),
    ("global", Names::Global),
    ("function", Names::Function),
    ("local", Names::Local),
    ("expression", Names::Expression),
    ("filter", Names::Filter),
];

fn kinds() -> &'static [(&'static str, Names)]
    ensures { map spelled result.now ≡ kinds_named }
{
    &KINDS
}

/// The items that handles of a kind reference, by the word of the kind.
pub fn names_of(kind: &str) -> Option<Names>
    ensures { result ≡ lookup kind.now kinds_named }
{
    find_in(kinds(), kind)
}

/// A part by its index: a number, or an array of numbers of the same kind.
pub type Part = (usize, Names);

type Form = (&'static str, &'static [Part]);

const E: Names = Names::Expression;

const T: Names = Names::Type;

static EXPRESSIONS: [Form; 30] = [
    ("Constant", &[(1, Names::Constant)]),
    ("Override", &[(1, Names::Override)]),
    ("ZeroValue", &[(1, T)]),
    ("Compose", &[(1, T), (2, E)]),
    ("Access", &[(1, E), (2, E)]),
    ("AccessIndex", &[(1, E)]),
    ("Splat", &[(2, E)]),
    ("Swizzle", &[(2, E)]),
    ("GlobalVariable", &[(1, Names::Global)]),
    ("LocalVariable", &[(1, Names::Local)]),
    ("Load", &[(1, E)]),
    (
        "ImageSample",
        &[(1, E), (2, E), (4, E), (5, E), (6, E), (7, E), (8, E)],
    ),
    ("ImageLoad", &[(1, E), (2, E), (3, E), (4, E), (5, E)]),
    ("ImageQuery", &[(1, E), (2, E)]),
    ("Unary", &[(2, E)]),
    ("Binary", &[(2, E), (3, E)]),
    ("Select", &[(1, E), (2, E), (3, E)]),
    ("Derivative", &[(3, E)]),
    ("Relational", &[(2, E)]),
    ("Math", &[(2, E), (3, E), (4, E), (5, E)]),
    ("As", &[(1, E)]),
    ("CallResult", &[(1, Names::Function)]),
    ("AtomicResult", &[(1, T)]),
    ("WorkGroupUniformLoadResult", &[(1, T)]),
    ("ArrayLength", &[(1, E)]),
    ("RayQueryVertexPositions", &[(1, E)]),
    ("RayQueryGetIntersection", &[(1, E)]),
    ("SubgroupOperationResult", &[(1, T)]),
    ("CooperativeLoad", &[(4, E), (5, E)]),
    ("CooperativeMultiplyAdd", &[(1, E), (2, E), (3, E)]),
];

static STATEMENTS: [Form; 17] = [
    ("If", &[(1, E)]),
    ("Switch", &[(1, E)]),
    ("Loop", &[(3, E)]),
    ("Return", &[(1, E)]),
    ("Store", &[(1, E), (2, E)]),
    ("ImageStore", &[(1, E), (2, E), (3, E), (4, E)]),
    ("Atomic", &[(1, E), (2, E), (3, E), (4, E)]),
    ("ImageAtomic", &[(1, E), (2, E), (3, E), (4, E), (5, E)]),
    ("WorkGroupUniformLoad", &[(1, E), (2, E)]),
    ("Call", &[(1, Names::Function), (2, E), (3, E)]),
    ("RayQuery", &[(1, E), (2, E)]),
    ("SubgroupBallot", &[(1, E), (2, E)]),
    ("SubgroupCollectiveOperation", &[(3, E), (4, E)]),
    ("SubgroupGather", &[(1, E), (2, E), (3, E)]),
    ("CooperativeStore", &[(1, E), (2, E), (3, E)]),
    ("RayPipelineFunction", &[(1, E)]),
    ("Emit", &[]),
];

fn expressions() -> &'static [Form]
    ensures { map listed result.now ≡ expression_forms }
{
    &EXPRESSIONS
}

fn statements() -> &'static [Form]
    ensures { map listed result.now ≡ statement_forms }
{
    &STATEMENTS
}

fn found_in(table: &'static [Form], item: &Value) -> &'static [Part]
    ensures { result.now ≡ list_for (word_of (view item.now)) (map listed table.now) }
{
    let wanted = word(item);
    for form in table {
        if wanted == form.0 {
            return form.1;
        }
    }
    &[]
}

/// The parts of an expression that are handles.
pub fn expression_parts(expression: &Value) -> &'static [Part]
    ensures { result.now ≡ list_for (word_of (view expression.now)) expression_forms }
{
    found_in(expressions(), expression)
}

/// The parts of a statement that are handles.
pub fn statement_parts(statement: &Value) -> &'static [Part]
    ensures { result.now ≡ list_for (word_of (view statement.now)) statement_forms }
{
    found_in(statements(), statement)
}

// Whether a part is this number, or an array with it.
fn holds(part: &Value, wanted: usize) -> bool {
    if number(part) == Some(wanted) {
        return true;
    }
    for inner in parts(part) {
        if number(inner) == Some(wanted) {
            return true;
        }
    }
    false
}

/// Whether the item references this index as this kind, in one of these parts.
pub fn does_name(item: &Value, form: &[Part], named: Names, wanted: usize) -> bool {
    for part in form {
        if part.1 == named {
            if let Some(value) = at(item, part.0) {
                if holds(value, wanted) {
                    return true;
                }
            }
        }
    }
    false
}

// The part of a statement that is its result expression.
fn result_part(statement: &Value) -> Option<usize> {
    match word(statement) {
        "WorkGroupUniformLoad" => Some(2),
        "Call" | "SubgroupGather" => Some(3),
        "Atomic" | "SubgroupCollectiveOperation" => Some(4),
        "SubgroupBallot" => Some(1),
        _ => None,
    }
}

/// Whether the statement has this expression as its result.
pub fn answers_by(statement: &Value, wanted: usize) -> bool {
    match result_part(statement) {
        Some(index) => number_at(statement, index) == Some(wanted),
        None => proceeds_by(statement, wanted),
    }
}

fn proceeds_by(statement: &Value, wanted: usize) -> bool {
    match at(statement, 2) {
        Some(function) if word(statement) == "RayQuery" && word(function) == "Proceed" => {
            number_at(function, 1) == Some(wanted)
        }
        _ => false,
    }
}
