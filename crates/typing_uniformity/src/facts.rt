//! The uniformity and access chain root of each expression of a function.

ghost use Rattle.std.specs.Prelude.{◌≡◌, ◌++◌, ◌∷◌, [], OnOk, IfOk};
ghost use Rattle.ir_arena.specs.judged.Handles.{handles_from};
ghost use Rattle.ir_types.specs.judged.ExpressionPlain.{expression_view};
ghost use Rattle.ir_items.specs.found.View.{function_view, module_view};
ghost use Rattle.spec_expressions.specs.judged.Values.{AreStarts, UsesPrecede, known_at};
ghost use Rattle.typing_uniformity.specs.Facts.{source_if, source_of, start_of, sources_of, starts_of, AreUniformities};

use crate::found::{known, source_below};
use crate::sources::is_source;
use crate::uniformities::uniformities_of;
use ir_arena::handle::Handle;
use ir_items::{Function, Module};
use ir_types::{Expression, key};
use spec_expressions::Uniformity;
use std::alloc::{AllocError, Global};

/// The uniformity and access chain root of each expression of a function.
#[derive(Drop)]
pub struct Facts {
    /// The source of non-uniformity of its value, if any, and its requirements.
    pub uniformities: Vec<Uniformity>,
    /// The global variable at the root of its access chain, if any.
    pub globals: Vec<Option<Handle<key::GlobalVariable>>>,
}

fn source_of(
    module: &Module,
    function: &Function,
    sources: &[Option<Handle<key::Expression>>],
    handle: Handle<key::Expression>,
    expression: &Expression,
) -> Option<Handle<key::Expression>>
    ensures { result ≡ source_of (module_view «module».now) (function_view function.now) sources.now handle (expression_view expression.now) }
{
    if is_source(module, function, expression) {
        Some(handle)
    } else {
        source_below(sources, expression)
    }
}

fn start_at(
    globals: &[Option<Handle<key::GlobalVariable>>],
    handle: Handle<key::Expression>,
) -> Option<Handle<key::GlobalVariable>>
    ensures { result ≡ known_at globals.now handle }
{
    match globals.get(handle.index()) {
        Some(global) => *global,
        None => None,
    }
}

fn start_of(
    globals: &[Option<Handle<key::GlobalVariable>>],
    expression: &Expression,
) -> Option<Handle<key::GlobalVariable>>
    ensures { result ≡ start_of globals.now (expression_view expression.now) }
{
    match *expression {
        Expression::GlobalVariable(global) => Some(global),
        Expression::Access { base, .. } => start_at(globals, base),
        Expression::AccessIndex { base, .. } => start_at(globals, base),
        _ => None,
    }
}

fn all_sources(
    alloc: Global,
    module: &Module,
    function: &Function,
) -> Result<Vec<Option<Handle<key::Expression>>>, AllocError>
    ensures { IfOk result (λ v. v.items ≡ sources_of (module_view «module».now) (function_view function.now) [] (handles_from 0 function.now.expressions)) }
{
    let mut sources = Vec::with_capacity(alloc, function.expressions.len())?;
    for (handle, expression) in function.expressions.iter() {
        let source = source_of(module, function, &sources, handle, expression);
        sources.push(source)?;
    }
    Ok(sources)
}

fn all_starts(
    alloc: Global,
    function: &Function,
) -> Result<Vec<Option<Handle<key::GlobalVariable>>>, AllocError>
    ensures { IfOk result (λ v. v.items ≡ starts_of [] (handles_from 0 function.now.expressions)) }
{
    let mut globals = Vec::with_capacity(alloc, function.expressions.len())?;
    for (_, expression) in function.expressions.iter() {
        let global = start_of(&globals, expression);
        globals.push(global)?;
    }
    Ok(globals)
}

/// Computes these facts for each expression of a function. Requires that operands precede. The error is out of
/// memory.
pub fn facts_of(alloc: Global, module: &Module, function: &Function) -> Result<Facts, AllocError>
    requires { UsesPrecede (function_view function.now).expressions }
    ensures uniformities { IfOk result (λ f. AreUniformities (module_view «module».now) (function_view function.now) f.uniformities.items) }
    ensures starts { IfOk result (λ f. AreStarts (function_view function.now).expressions f.globals.items) }
{
    let sources = all_sources(alloc, module, function)?;
    let uniformities = uniformities_of(alloc, function, &sources)?;
    let globals = all_starts(alloc, function)?;
    Ok(Facts {
        uniformities,
        globals,
    })
}
