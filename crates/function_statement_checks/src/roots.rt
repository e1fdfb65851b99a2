//! The origins of chains of accesses, computed once for a function.

ghost use Rattle.std.specs.Prelude.{◌≡◌, IfOk, Some, length};
ghost use Rattle.ir_items.specs.judged.Bases.{BasesPrecede, expressions_of};
ghost use Rattle.spec_statements.specs.judged.Stores.{base_at, BeginsAt};
ghost use Rattle.function_statement_checks.specs.Roots.{AreRoots, root_by};

use crate::pointers::base_of;
use ir_arena::arena::Arena;
use ir_arena::handle::Handle;
use ir_types::{Expression, key};
use std::alloc::{AllocError, Global};

// The base of the access at a handle, if it is one.
#[tactic(auto, using(module_context::proofs::Lookups::found, module_context::proofs::Lookups::missing))]
fn base_in(
    expressions: &Arena<Expression, key::Expression>,
    handle: Handle<key::Expression>,
) -> Option<Handle<key::Expression>>
    ensures { result ≡ base_at (expressions_of expressions.now) handle }
{
    match expressions.try_get(handle) {
        Ok(expression) => base_of(expression),
        Err(_) => None,
    }
}

/// The origin of a chain of accesses, step by step. Requires that the base of each access precedes it.
pub(crate) fn walked_back(
    expressions: &Arena<Expression, key::Expression>,
    pointer: Handle<key::Expression>,
) -> Handle<key::Expression>
    requires { BasesPrecede (expressions_of expressions.now) }
    ensures { BeginsAt (expressions_of expressions.now) pointer result }
{
    let mut current = pointer;
    while let Some(base) = base_in(expressions, current) {
        current = base;
    }
    current
}

// The origin of the chain from an expression, given those of earlier expressions.
fn root_of(
    expressions: &Arena<Expression, key::Expression>,
    roots: &[Handle<key::Expression>],
    handle: Handle<key::Expression>,
) -> Handle<key::Expression>
    requires precede { BasesPrecede (expressions_of expressions.now) }
    requires next { length roots.now ≡ handle }
    ensures { root_by roots.now handle (base_at (expressions_of expressions.now) handle) ≡ Some result }
{
    match base_in(expressions, handle) {
        Some(base) => match roots.get(base.index()) {
            Some(root) => *root,
            None => base,
        },
        None => handle,
    }
}

/// For each expression the origin of its chain of accesses. Requires that the base of each access precedes it. The error is out
/// of memory.
pub fn roots_of(
    alloc: Global,
    expressions: &Arena<Expression, key::Expression>,
) -> Result<Vec<Handle<key::Expression>>, AllocError>
    requires { BasesPrecede (expressions_of expressions.now) }
    ensures { IfOk result (λ roots. AreRoots (expressions_of expressions.now) roots.items) }
{
    let mut roots = Vec::with_capacity(alloc, expressions.len())?;
    for index in 0..expressions.len() {
        roots.push(root_of(expressions, &roots, Handle::at(index)))?;
    }
    Ok(roots)
}
