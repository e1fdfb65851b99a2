// Lowers all declarations, each after its dependencies.

use crate::attributes::{check, find};
use crate::builder::ModuleBuilder;
use crate::filters::{filters, no_filters};
use crate::functions::function;
use crate::structs::{shape_of, structure};
use crate::variables::{assertion, constant, overridable, variable};
use wgsl_expressions::{Declared, Lowering};
use wgsl_tree::{Item, ItemKind};
use wgsl_words::AttributeWord;

// Lowers a declaration.
fn declared<B: ModuleBuilder>(lowering: &mut Lowering<B>, item: &Item) -> Declared {
    check(lowering, item.attributes, false);
    no_filters(lowering, item);
    if !matches!(item.kind, ItemKind::Function(_)) {
        let must_use = find(lowering, item.attributes, AttributeWord::MustUse);
        if let Some(attribute) = must_use {
            let extent = lowering.extent(attribute.token);
            lowering.wrong(
                "attribute `@must_use` is only valid on function declarations",
                extent,
            );
        }
    }
    match item.kind {
        ItemKind::Const(is_typed) => constant(lowering, item, is_typed),
        ItemKind::Override { typed, init } => overridable(lowering, item, typed, init),
        ItemKind::Variable {
            templates,
            typed,
            init,
        } => variable(lowering, item, templates, typed, init),
        ItemKind::Alias => {
            let shape = shape_of(lowering, item.steps);
            let extent = lowering.extent(item.token);
            let _ = lowering.type_handle(shape, extent);
            Declared::Type(shape)
        }
        ItemKind::Struct => structure(lowering, item),
        ItemKind::Function(has_result) => function(lowering, item, has_result),
        ItemKind::ConstAssert => assertion(lowering, item),
    }
}

/// Lowers all declarations, until an error occurs.
pub fn lower_items<B: ModuleBuilder>(lowering: &mut Lowering<B>) {
    lowering.builder.set_global(true);
    let directives = lowering.tree.directives;
    filters(lowering, directives, true);
    lowering.builder.end_directives();
    for place in 0..lowering.names.order.len() {
        if lowering.has_failed() {
            break;
        }
        let Some(number) = lowering.names.order.get(place).copied() else {
            break;
        };
        let Some(item) = lowering.tree.items.get(number as usize).copied() else {
            break;
        };
        let made = declared(lowering, &item);
        if let Some(known) = lowering.items.get_mut(number as usize) {
            *known = made;
        }
        lowering.stack.clear();
    }
}
