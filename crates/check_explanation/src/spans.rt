// From a path to the SPIR-V words that the part comes from.

use ir_arena::arena::Arena;
use ir_arena::handle::{Handle, NonMaxU32};
use ir_arena::span::Span;
use ir_blocks::plain_operation;
use ir_items::{Block, Function, IrType, Module, Statement, SwitchCase};

// The indices of the lists in a document, as in docs/FORMAT.md.
const TYPES: u32 = 5;

const CONSTANTS: u32 = 8;

const OVERRIDES: u32 = 9;

const EXPRESSIONS: u32 = 10;

const GLOBALS: u32 = 11;

/// The index of the list of functions.
pub const FUNCTIONS: u32 = 12;

/// The index of the list of entry points.
pub(crate) const ENTRIES: u32 = 13;

// The span of an item of a list.
fn span_in<T, K>(list: &Arena<T, K>, index: u32) -> Span {
    match NonMaxU32::new(index) {
        Some(index) => list.get_span(Handle::new(index)),
        None => Span::UNDEFINED,
    }
}

// The span of a type.
fn type_span(module: &Module, index: u32) -> Span {
    match NonMaxU32::new(index) {
        Some(index) => module.types.get_span(Handle::new(index)),
        None => Span::UNDEFINED,
    }
}

/// The step of the path at this depth.
pub(crate) fn step(path: &[u32], place: usize) -> Option<u32> {
    path.get(place).copied()
}

// The rest of the path after the first steps.
fn after(path: &[u32], count: usize) -> &[u32] {
    path.get(count..).unwrap_or(&[])
}

// The body of a case.
fn case_body<'a>(cases: &'a [SwitchCase], path: &[u32]) -> Option<&'a Block> {
    let case = cases.get(step(path, 1)? as usize)?;
    Some(&case.body)
}

// The nested block of a statement that the path leads into, and the number of steps to it.
fn inner_block<'a>(statement: &'a Statement, path: &[u32]) -> Option<(&'a Block, usize)> {
    let part = step(path, 0)?;
    match statement {
        Statement::Block(block) => Some((block, 1)),
        Statement::If { accept, reject, .. } => Some((if part == 2 { accept } else { reject }, 1)),
        Statement::Switch { cases, .. } => Some((case_body(cases, path)?, 3)),
        Statement::Loop {
            body,
            continuing,
            ..
        } => Some((if part == 1 { body } else { continuing }, 1)),
        Statement::Emit(_)
        | Statement::Break
        | Statement::Continue
        | Statement::Return { .. }
        | Statement::Kill
        | Statement::Call { .. }
        | plain_operation!() => None,
    }
}

// The span of the innermost statement on the path.
fn body_span(body: &Block, path: &[u32]) -> Span {
    let mut found = Span::UNDEFINED;
    let mut block = body;
    let mut rest = path;
    for _ in path {
        let Some(place) = step(rest, 0) else {
            break;
        };
        let Some((statement, span)) = block.span_iter().nth(place as usize) else {
            break;
        };
        if span.is_defined() {
            found = *span;
        }
        let Some((inner, taken)) = inner_block(statement, after(rest, 1)) else {
            break;
        };
        block = inner;
        rest = after(rest, taken.saturating_add(1));
    }
    found
}

// The span of a part of a function.
fn function_span(function: &Function, path: &[u32]) -> Span {
    let place = step(path, 1).unwrap_or(u32::MAX);
    match step(path, 0) {
        Some(3) => span_in(&function.local_variables, place),
        Some(4) => span_in(&function.expressions, place),
        Some(5) => body_span(&function.body, after(path, 1)),
        Some(_) | None => Span::UNDEFINED,
    }
}

// The span of an item of the module, its parts aside.
fn item_span(module: &Module, list: u32, index: u32) -> Span {
    match list {
        TYPES => type_span(module, index),
        CONSTANTS => span_in(&module.constants, index),
        OVERRIDES => span_in(&module.overrides, index),
        EXPRESSIONS => span_in(&module.global_expressions, index),
        GLOBALS => span_in(&module.global_variables, index),
        FUNCTIONS => span_in(&module.functions, index),
        _ => Span::UNDEFINED,
    }
}

// The function that the path leads into, and the rest of the path.
fn inner_function<'a, 'b>(
    module: &'a Module,
    path: &'b [u32],
) -> Option<(&'a Function, &'b [u32])> {
    let index = step(path, 1)?;
    match step(path, 0) {
        Some(FUNCTIONS) => {
            let handle = Handle::new(NonMaxU32::new(index)?);
            let function = module.functions.try_get(handle).ok()?;
            Some((function, after(path, 2)))
        }
        Some(ENTRIES) if step(path, 2) == Some(6) => {
            let entry = module.entry_points.get(index as usize)?;
            Some((&entry.function, after(path, 3)))
        }
        Some(_) | None => None,
    }
}

/// The span of the part of a module at a path, or of the enclosing item if that part has none.
pub fn span_at(module: &Module, path: &[u32]) -> Span {
    if let Some((function, inner)) = inner_function(module, path) {
        let span = function_span(function, inner);
        if span.is_defined() {
            return span;
        }
    }
    let list = step(path, 0).unwrap_or(u32::MAX);
    item_span(module, list, step(path, 1).unwrap_or(u32::MAX))
}

/// The type that the path leads into, if any.
pub(crate) fn type_at<'a>(module: &'a Module, path: &[u32]) -> Option<&'a IrType> {
    if step(path, 0) != Some(TYPES) {
        return None;
    }
    let index = NonMaxU32::new(step(path, 1)?)?;
    module.types.get_handle(Handle::new(index)).ok()
}

/// The member of a type that the path leads to, if any.
pub(crate) fn member_at(path: &[u32]) -> Option<u32> {
    let is_member = step(path, 0) == Some(TYPES)
        && step(path, 2) == Some(1)
        && step(path, 3) == Some(1);
    if is_member { step(path, 4) } else { None }
}

/// The entry point that the path leads into, if any.
pub(crate) fn entry_at(path: &[u32]) -> Option<u32> {
    if step(path, 0) == Some(ENTRIES) {
        step(path, 1)
    } else {
        None
    }
}
