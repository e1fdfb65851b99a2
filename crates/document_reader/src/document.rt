// The JSON form of a whole document.
ghost use Rattle.std.specs.Prelude.{◌≡◌, ◌≢◌, List, Some, map, IfOk, IfErr};
ghost use Rattle.serde_json.specs.View.{view as data_of, items_view};
ghost use Rattle.ir_types.specs.judged.Plain.{PlainType, type_view};
ghost use Rattle.ir_items.specs.found.GlobalView.{values_of};
ghost use Rattle.ir_items.specs.judged.Plain.{PlainModule};
ghost use Rattle.ir_items.specs.found.View.{module_view};
ghost use Rattle.document_forms.specs.found.Decide.{all_of};
ghost use Rattle.document_forms.specs.declared.error.ReadError.TheVariants.{Memory};
ghost use Rattle.document_items.specs.found.Types.{a_type};
ghost use Rattle.document_reader.specs.judged.Distinct.{AreDistinct};
ghost use Rattle.document_reader.specs.judged.Plain.{PlainDocument};
ghost use Rattle.document_reader.specs.found.View.{document_view};
ghost use Rattle.document_reader.specs.found.Documents.{a_version, content_of, content_in, document_in};

use crate::first::take_first;
use crate::model::Document;
use crate::{EntryForm, FunctionForm};
use document_expressions::ExpressionForm;
use document_forms::{
    At, Each, Form, InArena, InArray, Maybe, ReadError, SetOf, TakeRow, Truth, Wanted, Whole,
    take_into, take_part,
};
use document_items::{ConstantForm, FilterForm, GlobalForm, OverrideForm, SpecialForm, TypeForm};
use ir_flags::{Capabilities, Settings, ShaderStages, SubgroupOperationSet, ValidationFlags};
use ir_items::Module;
use ir_sets::keyed::KeyedState;
use ir_sets::unique_arena::UniqueArena;
use ir_types::{IrType, key};
use serde_json::Value;
use std::alloc::Global;

const VERSION: u64 = 1;

// The indices of a document's parts: the settings precede the types, and all other lists follow them.
const TYPES: usize = 5;

const SPECIAL_TYPES: usize = 6;

/// The JSON form of the version number of the format.
pub struct VersionForm;

impl Form for VersionForm {
    type Item = ();

    ghost Plain = { Unit {0} };

    ghost view = { λ _. tt };

    ghost form = { a_version };

    fn read(_alloc: Global, value: &Value) -> Result<(), ReadError> {
        match value.as_u64() {
            Some(number) if number == VERSION => Ok(()),
            _ => Err(ReadError::here(Wanted::Version)),
        }
    }
}

type SubgroupsForm = InArray<(SetOf<ShaderStages>, SetOf<SubgroupOperationSet>)>;

type FilterListForm = InArray<
    (
        InArena<FilterForm, key::DiagnosticFilterNode>,
        Maybe<At<key::DiagnosticFilterNode>>,
    ),
>;

type ListsRow = (
    Whole<SpecialForm>,
    Whole<FilterListForm>,
    InArena<Whole<ConstantForm>, key::Constant>,
    InArena<Whole<OverrideForm>, key::Override>,
    InArena<Whole<ExpressionForm>, key::Expression>,
    InArena<Whole<GlobalForm>, key::GlobalVariable>,
    InArena<FunctionForm, key::Function>,
    Each<EntryForm>,
);

// States that the types of the arena are distinct.
#[tactic(auto, using(crate::proofs::Distinct::distinct_types))]
fn distinct_types(types: &UniqueArena<IrType, key::IrType>)
    ensures { AreDistinct (map type_view (values_of types.now)) }
{
    types.len();
}

// Decodes the types, which are distinct, from the element at this index.
fn read_types(
    alloc: Global,
    value: Value,
    index: usize,
    key: KeyedState,
) -> Result<UniqueArena<IrType, key::IrType>, ReadError>
    ensures found { IfOk result (λ a. Some (map type_view (values_of a)) ≡ all_of a_type.find (data_of value)) }
    ensures refused { IfErr result (λ e. e ≢ Memory → (ts : List PlainType) → all_of a_type.find (data_of value) ≡ Some ts → ¬ AreDistinct ts) }
{
    let room = match value.as_array() {
        Some(items) => items.len(),
        None => 0,
    };
    let empty = UniqueArena::with_capacity_and_hasher(alloc, room, key)?;
    match take_into::<TypeForm, UniqueArena<IrType, key::IrType>>(alloc, value, empty) {
        Ok(types) => Ok(types),
        Err(e) => Err(e.at(index)),
    }
}

// Decodes the module from these elements of a document.
fn read_module(alloc: Global, parts: &mut [Value], key: KeyedState) -> Result<Module, ReadError>
    ensures found { IfOk result (λ m. Some (module_view m) ≡ content_in (items_view parts.old)) }
    ensures distinct { IfOk result (λ m. AreDistinct (module_view m).types) }
    ensures refused { IfErr result (λ e. e ≢ Memory → (m : PlainModule) → content_in (items_view parts.old) ≡ Some m → ¬ AreDistinct m.types) }
{
    let (first, rest) = take_part(parts, TYPES)?;
    let types = read_types(alloc, first, TYPES, key)?;
    distinct_types(&types);
    let (
        special_types,
        (diagnostic_filters, diagnostic_filter_leaf),
        constants,
        overrides,
        global_expressions,
        global_variables,
        functions,
        entry_points,
    ) = <ListsRow as TakeRow>::take(alloc, rest, SPECIAL_TYPES)?;
    Ok(Module {
        types,
        special_types,
        constants,
        overrides,
        global_variables,
        global_expressions,
        functions,
        entry_points,
        diagnostic_filters,
        diagnostic_filter_leaf,
    })
}

/// Decodes a document. Each element of the value is freed after it is decoded, so that the value and the document are never
/// both allocated in full. The hashers of the module's types use the key.
pub fn read_value(alloc: Global, value: Value, key: KeyedState) -> Result<Document, ReadError>
    ensures found { IfOk result (λ d. Some (document_view d) ≡ document_in (data_of value)) }
    ensures distinct { IfOk result (λ d. AreDistinct (document_view d).content.types) }
    ensures refused { IfErr result (λ e. e ≢ Memory → (d : PlainDocument) → document_in (data_of value) ≡ Some d → ¬ AreDistinct d.content.types) }
{
    let Value::Array(items) = value else {
        return Err(ReadError::here(Wanted::Row));
    };
    let mut items = items;
    let ((), parts) = take_first::<VersionForm>(alloc, &mut items, 0)?;
    let (flags, parts) = take_first::<SetOf<ValidationFlags>>(alloc, parts, 1)?;
    let (capabilities, parts) = take_first::<SetOf<Capabilities>>(alloc, parts, 2)?;
    let ((subgroup_stages, subgroup_operations), parts) = take_first::<SubgroupsForm>(
        alloc, parts, 3,
    )?;
    let (returns, parts) = take_first::<Truth>(alloc, parts, 4)?;
    let module = read_module(alloc, parts, key)?;
    let settings = Settings {
        flags,
        capabilities,
        subgroup_stages,
        subgroup_operations,
    };
    Ok(Document {
        settings,
        returns,
        module,
    })
}
