// Calls that follow handles.
use crate::item::Item;
use crate::told::Told;
use crate::trials::is_composition_refused;
use ir_arena::arena::Arena;
use ir_arena::handle::Handle;
use ir_arena::span::Span;
use ir_items::{
    DiagnosticFilterNode, DiagnosticFilterNodeExt, FlattenCompose, Function, FunctionExt, IrType,
    flatten_compose, key,
};
use ir_kinds::{Severity, StandardFilterableTriggeringRule};
use ir_sets::unique_arena::UniqueArena;
use serde_json::Value;
use std::alloc::{AllocError, Global};
use test_support::call::{completed, freeing, handle, list, no_call, number, text, told};
use test_support::checks::{all_before, bases_precede, parents_precede, parts_precede};

type Nodes = Arena<DiagnosticFilterNode, key::DiagnosticFilterNode>;

// Appends the filters of a list to an arena.
fn add_nodes(alloc: Global, nodes: &mut Nodes, filters: &[Value]) -> Result<(), AllocError> {
    for filter in filters {
        if let Some(node) = Item::read(alloc, filter)? {
            nodes.append(node, Span::UNDEFINED)?;
        }
    }
    Ok(())
}

// The node where a search starts, if a line names one.
fn start(call: &Value) -> Option<Handle<key::DiagnosticFilterNode>> {
    match call.get(2) {
        Some(place) if place.is_u64() => Some(handle(call, 2)),
        _ => None,
    }
}

// The result of a search, or `None` if a handle is out of order.
fn found(nodes: &Nodes, start: Option<Handle<key::DiagnosticFilterNode>>) -> Option<Severity> {
    let in_arena = match start {
        Some(handle) => handle.index() < nodes.len(),
        None => true,
    };
    if in_arena && parents_precede(nodes) {
        let rule = StandardFilterableTriggeringRule::DerivativeUniformity;
        Some(DiagnosticFilterNode::search(start, nodes, rule))
    } else {
        None
    }
}

// The result of a search over the filters of a line, which are appended to an arena.
fn of_nodes(alloc: Global, nodes: &mut Nodes, call: &Value) -> Result<String, AllocError> {
    add_nodes(alloc, nodes, list(call, 1))?;
    told(alloc, found(nodes, start(call)))
}

/// The result of a search over filters.
pub fn of_search(alloc: Global, call: &Value) -> Result<String, AllocError> {
    let mut nodes = Arena::new(alloc);
    freeing(of_nodes(alloc, &mut nodes, call), nodes)
}

// Whether the handles are in order, and the global that a pointer originates from.
fn origin(function: &Function, pointer: Handle<key::Expression>) -> (bool, Option<usize>) {
    let in_arena = pointer.index() < function.expressions.len();
    if in_arena && bases_precede(&function.expressions) {
        (
            true,
            function.originating_global(pointer).map(Handle::index),
        )
    } else {
        (false, None)
    }
}

type Types = UniqueArena<IrType, key::IrType>;

// Adds the types of a list.
fn add_types(alloc: Global, types: &mut Types, list: &[Value]) -> Result<(), AllocError> {
    for value in list {
        if let Some(ty) = Item::read(alloc, value)? {
            types.insert(ty, Span::UNDEFINED)?;
        }
    }
    Ok(())
}

// Appends the handles of a list to another.
fn add_components(
    components: &mut Vec<Handle<key::Expression>>,
    list: &[Value],
) -> Result<(), AllocError> {
    for value in list {
        let place = value.as_u64().unwrap_or(0).min(4294967294);
        components.push(Handle::at(place as usize))?;
    }
    Ok(())
}

// The handles of a list.
fn components(alloc: Global, list: &[Value]) -> Result<Vec<Handle<key::Expression>>, AllocError> {
    let mut components = Vec::new(alloc);
    completed(add_components(&mut components, list), components)
}

/// A composition in a function's expressions.
#[derive(Clone, Copy)]
pub struct Composition<'a> {
    pub function: &'a Function,
    pub types: &'a Types,
    pub ty: Handle<key::IrType>,
    pub components: &'a [Handle<key::Expression>],
}

// Appends the indices of handles to a list.
fn add_places(places: &mut Vec<usize>, leaves: FlattenCompose) -> Result<(), AllocError> {
    for leaf in leaves {
        places.push(leaf.index())?;
    }
    Ok(())
}

fn places_of(alloc: Global, leaves: FlattenCompose) -> Result<Vec<usize>, AllocError> {
    let mut places = Vec::new(alloc);
    completed(add_places(&mut places, leaves), places)
}

/// The components of a composition, or `None` if a handle is out of order.
pub fn leaves_of(
    alloc: Global,
    composition: &Composition<'_>,
) -> Result<Option<FlattenCompose>, AllocError> {
    let (types, ty) = (composition.types, composition.ty);
    let expressions = &composition.function.expressions;
    let components = composition.components;
    if ty.index() < types.len()
        && all_before(components, expressions.len())
        && parts_precede(expressions)
    {
        let leaves = flatten_compose(alloc, ty, components, expressions, types)?;
        return Ok(Some(leaves));
    }
    Ok(None)
}

// The indices of the components of a composition.
fn flattened(
    alloc: Global,
    composition: &Composition<'_>,
) -> Result<Option<Vec<usize>>, AllocError> {
    match leaves_of(alloc, composition)? {
        Some(leaves) => Ok(Some(places_of(alloc, leaves)?)),
        None => Ok(None),
    }
}

// Whether a composition fails more often than this, and its components.
fn in_little(
    alloc: Global,
    composition: &Composition<'_>,
    least: usize,
) -> Result<String, AllocError> {
    match flattened(alloc, composition)? {
        Some(places) => {
            let is_refused = is_composition_refused(alloc, composition, &places, least);
            told(alloc, (is_refused, places))
        }
        None => no_call(alloc),
    }
}

// The components of a composition, or whether its allocation fails.
fn answered(
    alloc: Global,
    composition: &Composition<'_>,
    call: &Value,
) -> Result<String, AllocError> {
    match text(call, 0) {
        "composition" => told(alloc, flattened(alloc, composition)),
        _ => in_little(alloc, composition, number(call, 5) as usize),
    }
}

// The same for the types and components of a line.
fn of_types(
    alloc: Global,
    function: &Function,
    types: &mut Types,
    call: &Value,
) -> Result<String, AllocError> {
    add_types(alloc, types, list(call, 2))?;
    let components = components(alloc, list(call, 4))?;
    let composition = Composition {
        function,
        types,
        ty: handle(call, 3),
        components: &components,
    };
    freeing(answered(alloc, &composition, call), components)
}

// The components of a composition in a function.
fn of_composition(alloc: Global, function: &Function, call: &Value) -> Result<String, AllocError> {
    let mut types: Types = UniqueArena::new(alloc);
    freeing(of_types(alloc, function, &mut types, call), types)
}

impl Told for Function {
    // The global that a pointer of a function originates from, or the components of a composition.
    fn tell(
        &mut self,
        alloc: Global,
        _source: &Self,
        _other: &Option<Self>,
        call: &Value,
    ) -> Result<String, AllocError> {
        match text(call, 0) {
            "origin" => told(alloc, origin(self, handle(call, 2))),
            _ => of_composition(alloc, self, call),
        }
    }
}
