//! The flattened components of a vector composition.
ghost use Rattle.std.specs.Prelude.{◌≡◌, ◌<◌, ◌∷◌, [], ℕ, List, ◌++◌, length, reverse, replicate, take, IfOk, OnOk, MatchOption};
ghost use Rattle.std.specs.List.{All};
ghost use Rattle.ir_blocks.specs.IrTypes.{inner_view, expression_view};
ghost use Rattle.ir_items.specs.judged.Bases.{expressions_of};
ghost use Rattle.ir_items.specs.found.Flat.{types_of, size_at, vector_size, parts_of, PartsPrecede, AreLeaves, IsFlattened};

use crate::{Expression, IrType, TypeInner, key};
use ir_blocks::ir_arena::arena::Arena;
use ir_blocks::ir_arena::handle::Handle;
use ir_sets::unique_arena::UniqueArena;
use std::alloc::{AllocError, Global};
use std::marker::Model;
use std::vec;

/// The handles of flattened components, in order. In a contract it is the list of the remaining handles.
#[derive(Drop)]
pub struct FlattenCompose {
    handles: vec::IntoIter<Handle<key::Expression>>,
}

impl Model for FlattenCompose {
    ghost use Rattle.std.specs.Prelude.{ℕ, List};
    ghost use Rattle.std.specs.Vec.Iter.{into_iter_items};

    ghost Value = { List ℕ };

    ghost view = { λ f. into_iter_items f.handles };
}

impl FlattenCompose {
    fn new(handles: Vec<Handle<key::Expression>>) -> Self
        ensures { result ≡ handles.items }
    {
        FlattenCompose {
            handles: handles.into_iter(),
        }
    }
}

impl Iterator for FlattenCompose {
    ghost use Rattle.std.specs.Iterator.{YieldsFirst, item_count};

    type Item = Handle<key::Expression>;

    ghost next_gives = { YieldsFirst (λ f. f) };

    ghost remaining = { item_count (λ f. f) };

    fn next(&mut self) -> Option<Handle<key::Expression>> {
        self.handles.next()
    }
}

/// The flattened components of a composition of type `ty` from `components` (naga's `flatten_compose`). For a vector each
/// `Compose` is replaced by its components and each `Splat` by copies of its scalar, at every
/// depth, and all components past the vector's size are left out. For any other type it is `components`
/// unchanged. It requires that the operands of each expression precede it.
///
/// Memory is allocated here, and none during the iteration. The error is out of memory.
pub fn flatten_compose(
    alloc: Global,
    ty: Handle<key::IrType>,
    components: &[Handle<key::Expression>],
    expressions: &Arena<Expression, key::Expression>,
    types: &UniqueArena<IrType, key::IrType>,
) -> Result<FlattenCompose, AllocError>
    requires type_in_arena { ty < length types.now }
    requires in_arena { All (λ handle. handle < length expressions.now) components.now }
    requires parts { PartsPrecede (expressions_of expressions.now) }
    ensures { IfOk result (IsFlattened (expressions_of expressions.now) (size_at (types_of types.now) ty) components.now) }
{
    let size = vector_size(&types[ty].inner);
    let handles = flatten(alloc, components, expressions, size)?;
    Ok(FlattenCompose::new(handles))
}

// The number of components of a vector type.
fn vector_size(inner: &TypeInner) -> Option<usize>
    ensures { result ≡ vector_size (inner_view inner.now) }
{
    match *inner {
        TypeInner::Vector { size, .. } => Some(size as usize),
        _ => None,
    }
}

// The flattened components of a vector of this size, or `components` if it is no vector.
fn flatten(
    alloc: Global,
    components: &[Handle<key::Expression>],
    expressions: &Arena<Expression, key::Expression>,
    size: Option<usize>,
) -> Result<Vec<Handle<key::Expression>>, AllocError>
    requires in_arena { All (λ handle. handle < length expressions.now) components.now }
    requires parts { PartsPrecede (expressions_of expressions.now) }
    ensures { IfOk result (λ flat. IsFlattened (expressions_of expressions.now) size components.now flat.items) }
{
    match size {
        Some(size) => first_leaves(alloc, components, expressions, size),
        None => Vec::from_slice(alloc, components),
    }
}

// The first `most` leaves of `components`, or all if there are fewer.
fn first_leaves(
    alloc: Global,
    components: &[Handle<key::Expression>],
    expressions: &Arena<Expression, key::Expression>,
    most: usize,
) -> Result<Vec<Handle<key::Expression>>, AllocError>
    requires in_arena { All (λ handle. handle < length expressions.now) components.now }
    requires parts { PartsPrecede (expressions_of expressions.now) }
    ensures { IfOk result (λ first. (leaves : List ℕ) × AreLeaves (expressions_of expressions.now) components.now leaves × (first.items ≡ take most leaves)) }
{
    let mut leaves = Vec::new(alloc);
    // a stack of expressions that are still to be flattened
    let mut ahead = Vec::new(alloc);
    push_reversed(&mut ahead, components)?;
    while leaves.len() < most {
        let Some(handle) = ahead.pop() else { break };
        take_apart(handle, &expressions[handle], &mut ahead, &mut leaves)?;
    }
    Ok(leaves)
}

// Pushes the operands of the expression at `handle`, or appends the handle to the leaves if it has none.
fn take_apart(
    handle: Handle<key::Expression>,
    expression: &Expression,
    ahead: &mut Vec<Handle<key::Expression>>,
    leaves: &mut Vec<Handle<key::Expression>>,
) -> Result<(), AllocError>
    ensures { OnOk result (MatchOption (parts_of (expression_view expression.now)) ((ahead.new.items ≡ ahead.old.items) × (leaves.new.items ≡ leaves.old.items ++ handle ∷ [])) (λ parts. (ahead.new.items ≡ ahead.old.items ++ reverse parts) × (leaves.new.items ≡ leaves.old.items))) }
{
    match *expression {
        Expression::Compose { ref components, .. } => push_reversed(ahead, components.as_slice()),
        Expression::Splat { size, value } => push_times(ahead, value, size as usize),
        _ => {
            leaves.push(handle)?;
            Ok(())
        }
    }
}

// Pushes `parts` in reverse, so that the first is popped first.
fn push_reversed(
    ahead: &mut Vec<Handle<key::Expression>>,
    parts: &[Handle<key::Expression>],
) -> Result<(), AllocError>
    ensures { OnOk result (ahead.new.items ≡ ahead.old.items ++ reverse parts.now) }
{
    for part in parts.iter().rev() {
        ahead.push(*part)?;
    }
    Ok(())
}

// Pushes `part` a number of times.
fn push_times(
    ahead: &mut Vec<Handle<key::Expression>>,
    part: Handle<key::Expression>,
    times: usize,
) -> Result<(), AllocError>
    ensures { OnOk result (ahead.new.items ≡ ahead.old.items ++ replicate times part) }
{
    for _ in 0..times {
        ahead.push(part)?;
    }
    Ok(())
}
