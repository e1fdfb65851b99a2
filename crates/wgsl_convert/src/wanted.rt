// Conversion of constants to an expected type, and access to their components.

use crate::concrete::{concretized, is_lossy, shape_at};
use ir_types::ArraySize;
use std::alloc::Global;
use wgsl_constants::{Known, Store};
use wgsl_text::Extent;
use wgsl_types::{Builder, RowKind, Shape, TypeTable};

/// The index of a constant converted to the expected type, if there is a conversion.
pub fn known_for<B: Builder>(
    alloc: Global,
    store: &mut Store,
    table: &mut TypeTable,
    builder: &mut B,
    known: Known,
    wanted: Shape,
    extent: Extent,
) -> Option<u32> {
    if let Some(lanes) = store.lanes(known) {
        let made = lanes.converted(wanted.scalar()?)?;
        if made.shape() != wanted {
            return None;
        }
        if made.scalar() == lanes.scalar() {
            return Some(store.place(known));
        }
        let known = store.of_lanes(&made);
        return Some(store.place(known));
    }
    let Known::Whole(place, shape) = known else {
        return None;
    };
    let mut at = place;
    if let (Some(from), Some(to)) = (table.leaf(shape), table.leaf(wanted)) {
        if from.is_abstract() && !to.is_abstract() {
            if is_lossy(from, to) {
                return None;
            }
            at = concretized(alloc, store, table, builder, place, to, extent);
        }
    }
    if table.is_same(shape_at(store, at), wanted) {
        Some(at)
    } else {
        None
    }
}

// The number of elements of an array, if it is constant.
fn length_of(table: &TypeTable, shape: Shape) -> Option<u32> {
    match table.row(shape)?.kind {
        RowKind::Array(_, ArraySize::Constant(count)) => Some(count),
        _ => None,
    }
}

/// An element of a constant, if there is one.
pub fn known_element(
    store: &mut Store,
    table: &TypeTable,
    place: u32,
    element: Shape,
    index: u32,
) -> Option<Known> {
    match length_of(table, shape_at(store, place)) {
        Some(count) if index >= count => None,
        _ => store.element(place, index, element),
    }
}
