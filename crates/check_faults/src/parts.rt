// The named parts of a document, in the order of the format.
ghost use Rattle.std.specs.Prelude.{◌≡◌, map, option_map};
ghost use Rattle.check_faults.specs.Tables.{name_inside, part_inside, row_parts, spelled};

/// An array whose elements have names.
#[derive(Clone, Copy)]
pub enum Row {
    Document,
    Subgroups,
    Diagnostics,
    Filter,
    Type,
    SpecialTypes,
    Constant,
    Override,
    Global,
    Resource,
    Function,
    Argument,
    Output,
    Local,
    EntryPoint,
    WorkgroupSize,
    Mesh,
}

/// The kind of a value in a document.
#[derive(Clone, Copy)]
pub enum Part {
    /// A value with unnamed elements.
    Plain,
    Row(Row),
    ListOf(Row),
}

type Named = (&'static str, Part);

static DOCUMENT: [Named; 14] = [
    ("version", Part::Plain),
    ("flags", Part::Plain),
    ("capabilities", Part::Plain),
    ("subgroups", Part::Row(Row::Subgroups)),
    ("returns", Part::Plain),
    ("types", Part::ListOf(Row::Type)),
    ("special types", Part::Row(Row::SpecialTypes)),
    ("diagnostics", Part::Row(Row::Diagnostics)),
    ("constants", Part::ListOf(Row::Constant)),
    ("overrides", Part::ListOf(Row::Override)),
    ("global expressions", Part::Plain),
    ("globals", Part::ListOf(Row::Global)),
    ("functions", Part::ListOf(Row::Function)),
    ("entry points", Part::ListOf(Row::EntryPoint)),
];

static SUBGROUPS: [Named; 2] = [("stages", Part::Plain), ("operations", Part::Plain)];

static DIAGNOSTICS: [Named; 2] = [
    ("filters", Part::ListOf(Row::Filter)),
    ("filter", Part::Plain),
];

static FILTER: [Named; 3] = [
    ("severity", Part::Plain),
    ("rule", Part::Plain),
    ("parent", Part::Plain),
];

static TYPE: [Named; 2] = [("name", Part::Plain), ("inner", Part::Plain)];

static SPECIAL_TYPES: [Named; 4] = [
    ("ray descriptor", Part::Plain),
    ("ray intersection", Part::Plain),
    ("ray vertex return", Part::Plain),
    ("predeclared", Part::Plain),
];

static CONSTANT: [Named; 3] = [
    ("name", Part::Plain),
    ("type", Part::Plain),
    ("value", Part::Plain),
];

static OVERRIDE: [Named; 4] = [
    ("name", Part::Plain),
    ("number", Part::Plain),
    ("type", Part::Plain),
    ("value", Part::Plain),
];

static GLOBAL: [Named; 6] = [
    ("name", Part::Plain),
    ("space", Part::Plain),
    ("resource", Part::Row(Row::Resource)),
    ("type", Part::Plain),
    ("value", Part::Plain),
    ("decorations", Part::Plain),
];

static RESOURCE: [Named; 2] = [("group", Part::Plain), ("binding", Part::Plain)];

static FUNCTION: [Named; 7] = [
    ("name", Part::Plain),
    ("arguments", Part::ListOf(Row::Argument)),
    ("result", Part::Row(Row::Output)),
    ("locals", Part::ListOf(Row::Local)),
    ("expressions", Part::Plain),
    ("body", Part::Plain),
    ("filter", Part::Plain),
];

static ARGUMENT: [Named; 3] = [
    ("name", Part::Plain),
    ("type", Part::Plain),
    ("binding", Part::Plain),
];

static OUTPUT: [Named; 2] = [("type", Part::Plain), ("binding", Part::Plain)];

static LOCAL: [Named; 3] = [
    ("name", Part::Plain),
    ("type", Part::Plain),
    ("value", Part::Plain),
];

static ENTRY_POINT: [Named; 7] = [
    ("stage", Part::Plain),
    ("name", Part::Plain),
    ("early depth test", Part::Plain),
    ("workgroup size", Part::Row(Row::WorkgroupSize)),
    ("mesh", Part::Row(Row::Mesh)),
    ("payload", Part::Plain),
    ("function", Part::Row(Row::Function)),
];

static WORKGROUP_SIZE: [Named; 3] = [("x", Part::Plain), ("y", Part::Plain), ("z", Part::Plain)];

static MESH: [Named; 8] = [
    ("topology", Part::Plain),
    ("most vertices", Part::Plain),
    ("most vertices override", Part::Plain),
    ("most primitives", Part::Plain),
    ("most primitives override", Part::Plain),
    ("vertex type", Part::Plain),
    ("primitive type", Part::Plain),
    ("output", Part::Plain),
];

fn names(row: Row) -> &'static [Named]
    ensures { map spelled result.now ≡ row_parts row }
{
    match row {
        Row::Document => &DOCUMENT,
        Row::Subgroups => &SUBGROUPS,
        Row::Diagnostics => &DIAGNOSTICS,
        Row::Filter => &FILTER,
        Row::Type => &TYPE,
        Row::SpecialTypes => &SPECIAL_TYPES,
        Row::Constant => &CONSTANT,
        Row::Override => &OVERRIDE,
        Row::Global => &GLOBAL,
        Row::Resource => &RESOURCE,
        Row::Function => &FUNCTION,
        Row::Argument => &ARGUMENT,
        Row::Output => &OUTPUT,
        Row::Local => &LOCAL,
        Row::EntryPoint => &ENTRY_POINT,
        Row::WorkgroupSize => &WORKGROUP_SIZE,
        Row::Mesh => &MESH,
    }
}

impl Part {
    /// The element at an index: its name, if it has one, and its kind.
    #[tactic(auto, using(crate::proofs::Rows::entry_inside))]
    pub fn inside(self, index: usize) -> (Option<&'static str>, Part)
        ensures name { option_map (λ s. s.now) result.0 ≡ name_inside self index }
        ensures inside { result.1 ≡ part_inside self index }
    {
        match self {
            Part::Plain => (None, Part::Plain),
            Part::ListOf(row) => (None, Part::Row(row)),
            Part::Row(row) => match names(row).get(index) {
                Some(entry) => (Some(entry.0), entry.1),
                None => (None, Part::Plain),
            },
        }
    }
}
