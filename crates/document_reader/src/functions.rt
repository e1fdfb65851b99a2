// The JSON forms of functions and entry points.
ghost use Rattle.std.specs.Prelude.{◌≡◌, option_map};
ghost use Rattle.ir_items.specs.judged.Plain.{PlainArgument, PlainLocal, PlainFunction, PlainEntry};
ghost use Rattle.ir_items.specs.found.View.{argument_view, local_view, function_view, entry_view};
ghost use Rattle.ir_items.specs.declared.functions.FunctionResult.{FunctionResult};
ghost use Rattle.document_reader.specs.found.Functions.{an_argument, a_result, a_local, a_function, an_entry};

use crate::statements::BodyForm;
use document_expressions::ExpressionForm;
use document_forms::{
    At, Each, Form, InArena, Maybe, ReadError, Row, Take, Text, Whole, read_row, take_row,
};
use document_items::{BindingForm, EarlyForm, MeshForm, SizesForm, StageForm};
use ir_items::{EntryPoint, Function, FunctionArgument, FunctionResult, LocalVariable};
use ir_types::key;
use serde_json::Value;
use std::alloc::Global;

type T = At<key::IrType>;

/// The JSON form of a function argument.
pub struct ArgumentForm;

impl Form for ArgumentForm {
    type Item = FunctionArgument;

    ghost Plain = { PlainArgument };

    ghost view = { argument_view };

    ghost form = { an_argument };

    fn read(alloc: Global, value: &Value) -> Result<FunctionArgument, ReadError> {
        let (name, ty, binding) = read_row::<(Maybe<Text>, T, Maybe<BindingForm>)>(alloc, value)?;
        Ok(FunctionArgument { name, ty, binding })
    }
}

/// The JSON form of a function result.
pub struct ResultForm;

impl Form for ResultForm {
    type Item = FunctionResult;

    ghost Plain = { FunctionResult };

    ghost view = { λ r. r };

    ghost form = { a_result };

    fn read(alloc: Global, value: &Value) -> Result<FunctionResult, ReadError> {
        let (ty, binding) = read_row::<(T, Maybe<BindingForm>)>(alloc, value)?;
        Ok(FunctionResult { ty, binding })
    }
}

/// The JSON form of a local variable.
pub struct LocalForm;

impl Form for LocalForm {
    type Item = LocalVariable;

    ghost Plain = { PlainLocal };

    ghost view = { local_view };

    ghost form = { a_local };

    fn read(alloc: Global, value: &Value) -> Result<LocalVariable, ReadError> {
        let (name, ty, init) = read_row::<(Maybe<Text>, T, Maybe<At<key::Expression>>)>(
            alloc, value,
        )?;
        Ok(LocalVariable { name, ty, init })
    }
}

type FunctionRow = (
    Whole<Maybe<Text>>,
    Whole<Each<ArgumentForm>>,
    Whole<Maybe<ResultForm>>,
    Whole<InArena<LocalForm, key::LocalVariable>>,
    InArena<Whole<ExpressionForm>, key::Expression>,
    Whole<BodyForm>,
    Whole<Maybe<At<key::DiagnosticFilterNode>>>,
);

// Builds the function of these parts.
fn function_of(parts: <FunctionRow as Row>::Items) -> Function
    ensures { result ≡ record { name = parts.0; arguments = parts.1; result = parts.2; local_variables = parts.3; expressions = parts.4; body = parts.5; diagnostic_filter_leaf = parts.6 } }
{
    let (name, arguments, answer, local_variables, expressions, body, diagnostic_filter_leaf) =
        parts;
    Function {
        name,
        arguments,
        result: answer,
        local_variables,
        expressions,
        body,
        diagnostic_filter_leaf,
    }
}

/// The JSON form of a function. The index in each list is the handle, and nothing has a span.
pub struct FunctionForm;

impl Form for FunctionForm {
    type Item = Function;

    ghost Plain = { PlainFunction };

    ghost view = { function_view };

    ghost form = { a_function };

    fn read(alloc: Global, value: &Value) -> Result<Function, ReadError> {
        Ok(function_of(read_row::<FunctionRow>(alloc, value)?))
    }
}

impl Take for FunctionForm {
    fn take(alloc: Global, value: Value) -> Result<Function, ReadError> {
        Ok(function_of(take_row::<FunctionRow>(alloc, value)?))
    }
}

type EntryRow = (
    Whole<StageForm>,
    Whole<Text>,
    Whole<Maybe<EarlyForm>>,
    Whole<SizesForm>,
    Whole<Maybe<MeshForm>>,
    Whole<Maybe<At<key::GlobalVariable>>>,
    FunctionForm,
);

// Builds the entry point of these parts.
fn entry_of(parts: <EntryRow as Row>::Items) -> EntryPoint
    ensures { result ≡ record { name = parts.1; stage = parts.0; early_depth_test = parts.2; workgroup_size = parts.3; mesh_info = parts.4; task_payload = parts.5; function = parts.6 } }
{
    let (stage, name, early_depth_test, workgroup_size, mesh_info, task_payload, function) = parts;
    EntryPoint {
        name,
        stage,
        early_depth_test,
        workgroup_size,
        mesh_info,
        task_payload,
        function,
    }
}

/// The JSON form of an entry point.
pub struct EntryForm;

impl Form for EntryForm {
    type Item = EntryPoint;

    ghost Plain = { PlainEntry };

    ghost view = { entry_view };

    ghost form = { an_entry };

    fn read(alloc: Global, value: &Value) -> Result<EntryPoint, ReadError> {
        Ok(entry_of(read_row::<EntryRow>(alloc, value)?))
    }
}

impl Take for EntryForm {
    fn take(alloc: Global, value: Value) -> Result<EntryPoint, ReadError> {
        Ok(entry_of(take_row::<EntryRow>(alloc, value)?))
    }
}
