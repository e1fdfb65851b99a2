// The broken rule of an expression, as data.

use check_causes::{
    AccessCause, AlikeCause, AsCause, BinaryCause, Cause, DetailCause, EdgeCause, LoadCause,
    NumberCause, PlaceCause, ProductCause, QueryCause, SampleCause, SamplerCause, SelectCause,
    ShiftCause, SwizzleCause, TexelCause, TexelsCause,
};
use check_sentences::TypeText;
use ir_items::Module;
use ir_kinds::VectorSize;
use serde_json::{Map, Value, push, put};
use std::alloc::{AllocError, Global};
use typing_forms::Form;

// A broken rule: its name, the actual and the required type, and the index and the length.
#[derive(Clone, Copy)]
struct Row<'a> {
    name: &'static str,
    given: Option<&'a Form>,
    wanted: Option<&'a Form>,
    bound: Option<(i64, u32)>,
}

// A rule without details.
const fn plain<'a>(name: &'static str) -> Row<'a> {
    Row {
        name,
        given: None,
        wanted: None,
        bound: None,
    }
}

// A rule with the actual type.
const fn given<'a>(name: &'static str, form: &'a Form) -> Row<'a> {
    Row {
        name,
        given: Some(form),
        wanted: None,
        bound: None,
    }
}

// A rule with the actual and the required type.
const fn wanted<'a>(name: &'static str, form: &'a Form, other: &'a Form) -> Row<'a> {
    Row {
        name,
        given: Some(form),
        wanted: Some(other),
        bound: None,
    }
}

// A rule with an index and a length.
const fn bound<'a>(name: &'static str, index: i64, parts: u32) -> Row<'a> {
    Row {
        name,
        given: None,
        wanted: None,
        bound: Some((index, parts)),
    }
}

fn of_access(cause: &AccessCause) -> Row<'_> {
    match cause {
        AccessCause::NoInteger(form) => given("IndexNotInteger", form),
        AccessCause::Negative(index) => bound("IndexOutOfBounds", i64::from(*index), 0),
        AccessCause::Outside { index, parts } => {
            bound("IndexOutOfBounds", i64::from(*index), *parts)
        }
    }
}

fn of_as(cause: &AsCause) -> Row<'_> {
    match cause {
        AsCause::NoScalars(form) => given("OperandNotMadeOfScalars", form),
        AsCause::NoScalar(_) => plain("NoSuchScalar"),
        AsCause::ToBool => plain("BitcastToBool"),
        AsCause::FromBool => plain("BitcastFromBool"),
    }
}

fn of_select(cause: &SelectCause) -> Row<'_> {
    match cause {
        SelectCause::Differ(one, other) => wanted("ValuesDiffer", other, one),
        SelectCause::NoValue(form) => given("ValuesNotScalarsOrVectors", form),
        SelectCause::NoCondition(form) => given("ConditionNotBool", form),
        SelectCause::Shape(form, _) => given("ConditionShape", form),
    }
}

// The number of components.
fn size_of(size: VectorSize) -> u32 {
    u32::from(size)
}

fn of_swizzle(cause: &SwizzleCause) -> Row<'_> {
    match cause {
        SwizzleCause::NoVector(form) => given("OperandNotVector", form),
        SwizzleCause::Letter(letter, size) => {
            bound(
                "ComponentOutOfBounds",
                i64::from(letter.index()),
                size_of(*size),
            )
        }
    }
}

fn of_alike(cause: &AlikeCause) -> Row<'_> {
    match cause {
        AlikeCause::Differ(one, other) => wanted("OperandsDiffer", other, one),
        AlikeCause::Type(form) => given("OperandType", form),
    }
}

fn of_product(cause: &ProductCause) -> Row<'_> {
    match cause {
        ProductCause::Left(form) => given("FactorNotMadeOfScalars", form),
        ProductCause::Right(form) => given("FactorNotMadeOfScalars", form),
        ProductCause::Scalars(..) => plain("FactorScalarsDiffer"),
        ProductCause::Shapes(one, other) => wanted("FactorShapes", other, one),
    }
}

fn of_shift(cause: &ShiftCause) -> Row<'_> {
    match cause {
        ShiftCause::NoInteger(form) => given("ShiftedNotInteger", form),
        ShiftCause::Amount(form, other) => wanted("ShiftAmount", form, other),
    }
}

fn of_binary(cause: &BinaryCause) -> Row<'_> {
    match cause {
        BinaryCause::Alike(cause) => of_alike(cause),
        BinaryCause::Product(cause) => of_product(cause),
        BinaryCause::Shift(cause) => of_shift(cause),
    }
}

// ---- images

fn of_number<'a>(
    cause: &'a NumberCause,
    missing: &'static str,
    unwanted: &'static str,
    wrong: &'static str,
) -> Row<'a> {
    match cause {
        NumberCause::Missing => plain(missing),
        NumberCause::Unwanted => plain(unwanted),
        NumberCause::NoInteger(form) => given(wrong, form),
    }
}

fn of_layer(cause: &NumberCause) -> Row<'_> {
    of_number(
        cause,
        "ArrayIndexMissing",
        "ArrayIndexUnwanted",
        "ArrayIndexNotInteger",
    )
}

fn of_texel(cause: &TexelCause) -> Row<'_> {
    match cause {
        TexelCause::Cube => plain("LoadFromCube"),
        TexelCause::NoInteger(form) => given("CoordinateNotInteger", form),
        TexelCause::Coordinate(form, other) => wanted("CoordinateType", form, other),
    }
}

fn of_sample_index(cause: &NumberCause) -> Row<'_> {
    of_number(cause, "SampleMissing", "SampleUnwanted", "SampleNotInteger")
}

fn of_level(cause: &NumberCause) -> Row<'_> {
    of_number(cause, "LevelMissing", "LevelUnwanted", "LevelNotInteger")
}

fn of_load(cause: &LoadCause) -> Row<'_> {
    match cause {
        LoadCause::NoImage(form) => given("OperandNotImage", form),
        LoadCause::Texel(cause) => of_texel(cause),
        LoadCause::Layer(cause) => of_layer(cause),
        LoadCause::Sample(cause) => of_sample_index(cause),
        LoadCause::Level(cause) => of_level(cause),
        LoadCause::NoLoad => plain("AccessWithoutLoad"),
    }
}

fn of_query(cause: &QueryCause) -> Row<'_> {
    match cause {
        QueryCause::NoImage(form) => given("OperandNotImage", form),
        QueryCause::NoLevels => plain("ImageWithoutLevels"),
        QueryCause::Level(form) => given("LevelNotInteger", form),
        QueryCause::NoLayers => plain("ImageNotArrayed"),
        QueryCause::NoSamples => plain("ImageNotMultisampled"),
    }
}

fn of_place(cause: &PlaceCause) -> Row<'_> {
    match cause {
        PlaceCause::Coordinate(form, other) => wanted("CoordinateType", form, other),
        PlaceCause::Layer(cause) => of_layer(cause),
        PlaceCause::Varying => plain("OffsetNotConst"),
        PlaceCause::Offset(form, other) => wanted("OffsetType", form, other),
        PlaceCause::Cube => plain("OffsetOfCube"),
    }
}

fn of_detail(cause: &DetailCause) -> Row<'_> {
    match cause {
        DetailCause::Neighbours(_) => plain("GatherDimension"),
        DetailCause::GatherLevel => plain("GatherLevel"),
        DetailCause::GatherDepth(_) => plain("GatherOfDepthComponent"),
        DetailCause::Exact(form) => given("LevelType", form),
        DetailCause::Bias(form) => given("BiasType", form),
        DetailCause::Gradient(form, other) => wanted("GradientType", form, other),
    }
}

const fn of_edge(cause: &EdgeCause) -> &'static str {
    match cause {
        EdgeCause::Clamped => "ClampToEdge",
        EdgeCause::Unclamped => "ExternalNotClamped",
        EdgeCause::Level => "ExternalLevel",
        EdgeCause::Gathered => "ExternalGather",
        EdgeCause::Offset => "ExternalOffset",
    }
}

const fn of_comparison(compares: bool) -> &'static str {
    if compares {
        "ReferenceMissing"
    } else {
        "SamplerDoesNotCompare"
    }
}

fn of_sampler(cause: &SamplerCause) -> Row<'_> {
    match cause {
        SamplerCause::NoSampler(form) => given("OperandNotSampler", form),
        SamplerCause::Comparison { compares } => plain(of_comparison(*compares)),
        SamplerCause::Reference(form) => given("ReferenceType", form),
        SamplerCause::NoDepth => plain("ImageNotDepth"),
    }
}

const fn of_texels(cause: &TexelsCause) -> &'static str {
    match cause {
        TexelsCause::Multisampled => "ImageMultisampled",
        TexelsCause::Unfiltered(_) => "ImageNotFloat",
    }
}

fn of_sample(cause: &SampleCause) -> Row<'_> {
    match cause {
        SampleCause::NoImage(form) => given("OperandNotImage", form),
        SampleCause::Sampler(cause) => of_sampler(cause),
        SampleCause::Texels(cause) => plain(of_texels(cause)),
        SampleCause::Place(cause) => of_place(cause),
        SampleCause::Detail(cause) => of_detail(cause),
        SampleCause::Edge(cause) => plain(of_edge(cause)),
    }
}

fn row_of(cause: &Cause) -> Row<'_> {
    match cause {
        Cause::Access(cause) => of_access(cause),
        Cause::As(cause) => of_as(cause),
        Cause::ImageLoad(cause) => of_load(cause),
        Cause::ImageQuery(cause) => of_query(cause),
        Cause::ImageSample(cause) => of_sample(cause),
        Cause::Binary(_, cause) => of_binary(cause),
        Cause::Select(cause) => of_select(cause),
        Cause::Swizzle(cause) => of_swizzle(cause),
    }
}

// Inserts the text of a type, if there is one.
fn put_type(
    map: &mut Map<String, Value>,
    alloc: Global,
    module: &Module,
    key: &str,
    form: Option<&Form>,
) -> Result<(), AllocError> {
    let Some(form) = form else {
        return Ok(());
    };
    let text = TypeText {
        types: &module.types,
        form,
    };
    let words = format!(in alloc; "{text}")?;
    put(map, alloc, key, Value::try_from_str(alloc, &words)?)
}

// Inserts an index and a length, if there are any.
fn put_bound(
    map: &mut Map<String, Value>,
    alloc: Global,
    bound: Option<(i64, u32)>,
) -> Result<(), AllocError> {
    match bound {
        Some((index, parts)) => {
            put(map, alloc, "index", Value::from(index))?;
            put(map, alloc, "parts", Value::from(u64::from(parts)))
        }
        None => Ok(()),
    }
}

/// A broken rule as a JSON object: its name, with its types and numbers. The error is out of memory.
pub(crate) fn cause_value(
    alloc: Global,
    module: &Module,
    cause: &Cause,
) -> Result<Value, AllocError> {
    let row = row_of(cause);
    let mut map = Map::new(alloc);
    put(
        &mut map,
        alloc,
        "name",
        Value::try_from_str(alloc, row.name)?,
    )?;
    put_type(&mut map, alloc, module, "given", row.given)?;
    put_type(&mut map, alloc, module, "wanted", row.wanted)?;
    put_bound(&mut map, alloc, row.bound)?;
    Ok(Value::Object(map))
}

// An index, or null.
fn number_if(number: Option<u32>) -> Value {
    match number {
        Some(number) => Value::from(u64::from(number)),
        None => Value::Null,
    }
}

// The indices of a list.
fn indexes_value(alloc: Global, indexes: &[u32]) -> Result<Value, AllocError> {
    let mut list = Vec::new(alloc);
    for index in indexes {
        push(&mut list, Value::from(u64::from(*index)))?;
    }
    Ok(Value::Array(list))
}

// The location of a path in a function: the expression, or the indices inside the body.
fn put_inside(
    map: &mut Map<String, Value>,
    alloc: Global,
    inside: &[u32],
) -> Result<(), AllocError> {
    match (inside.first(), inside.get(1..)) {
        (Some(4), Some(rest)) => put(map, alloc, "expression", number_if(rest.first().copied())),
        (Some(5), Some(rest)) => put(map, alloc, "body", indexes_value(alloc, rest)?),
        _ => Ok(()),
    }
}

/// The location of a path as a JSON object: the function or the entry point, and in it the expression or the indices inside the
/// body; null if it is in neither. The error is out of memory.
pub fn place_value(alloc: Global, path: &[u32]) -> Result<Value, AllocError> {
    let (list, before) = match path.first() {
        Some(12) => ("function", 2),
        Some(13) => ("entry", 3),
        _ => return Ok(Value::Null),
    };
    let mut map = Map::new(alloc);
    put(&mut map, alloc, list, number_if(path.get(1).copied()))?;
    put_inside(&mut map, alloc, path.get(before..).unwrap_or(&[]))?;
    Ok(Value::Object(map))
}
