//! Handles of constants, overrides, global variables, special types and of the leaf of diagnostic filters.

ghost use Rattle.std.specs.Prelude.{◌≡◌, map, option_and_then};
ghost use Rattle.std.specs.Option.{MatchOption, option_or};
ghost use Rattle.ir_items.specs.found.GlobalView.{constant_view, override_view, global_view, special_view};
ghost use Rattle.ir_items.specs.found.View.{module_view};
ghost use Rattle.typing_references.specs.First.{first_past};
ghost use Rattle.module_handles.specs.Found.{first_missing, special_missing, leaf_missing, constant_missing, override_missing, variable_missing};
ghost use Rattle.module_handles.specs.InOrder.{IsFaultIn, ItemsOK};
ghost use Rattle.spec_expressions.specs.declared.item.ItemKind.TheVariants as kind;

use crate::lists::{ItemCheck, fault_of_values, first_missing};
use crate::place_of;
use indexmap::IndexMap;
use ir_arena::handle::Handle;
use ir_items::{
    Constant, DiagnosticFilterNode, GlobalVariable, Module, Override, SpecialTypes, key,
};
use ir_kinds::PredeclaredType;
use spec_expressions::{ItemKind, Target};
use typing_references::{Bounds, HandleFault};

// The first result type of predeclared functions that is out of bounds.
fn predeclared_missing(
    predeclared: &IndexMap<PredeclaredType, Handle<key::IrType>>,
    there: usize,
) -> Option<HandleFault>
    ensures { result ≡ first_missing kind.Type there (map (λ p. p.1) predeclared.now.entries) }
{
    for ty in predeclared.values() {
        if ty.index() >= there {
            return Some(HandleFault::Missing {
                kind: ItemKind::Type,
                index: ty.index(),
            });
        }
    }
    None
}

#[tactic(auto, using(crate::proofs::Missing::missing_among))]
fn special_missing(special: &SpecialTypes, bounds: &Bounds) -> Option<HandleFault>
    ensures { result ≡ special_missing bounds.now (special_view special.now) }
{
    let there = bounds.types;
    let rays = [
        place_of(special.ray_desc),
        place_of(special.ray_intersection),
        place_of(special.ray_vertex_return),
    ];
    if let Some(fault) = first_missing(ItemKind::Type, there, &rays) {
        return Some(fault);
    }
    predeclared_missing(&special.predeclared_types, there)
}

fn leaf_missing(
    leaf: Option<Handle<key::DiagnosticFilterNode>>,
    bounds: &Bounds,
) -> Option<HandleFault>
    ensures { result ≡ leaf_missing bounds.now leaf }
{
    match leaf {
        Some(leaf) => bounds.missing_item(Target::DiagnosticFilter(leaf)),
        None => None,
    }
}

fn constant_missing(constant: &Constant, bounds: &Bounds) -> Option<HandleFault>
    ensures { result ≡ constant_missing bounds.now (constant_view constant.now) }
{
    if let Some(fault) = bounds.missing_item(Target::Type(constant.ty)) {
        return Some(fault);
    }
    bounds.missing_expression(constant.init)
}

fn override_missing(item: &Override, bounds: &Bounds) -> Option<HandleFault>
    ensures { result ≡ override_missing bounds.now (override_view item.now) }
{
    if let Some(fault) = bounds.missing_item(Target::Type(item.ty)) {
        return Some(fault);
    }
    bounds.missing_expression_if(item.init)
}

fn variable_missing(variable: &GlobalVariable, bounds: &Bounds) -> Option<HandleFault>
    ensures { result ≡ variable_missing bounds.now (global_view variable.now) }
{
    if let Some(fault) = bounds.missing_item(Target::Type(variable.ty)) {
        return Some(fault);
    }
    bounds.missing_expression_if(variable.init)
}

// Handles of items that reference only types and global expressions.
#[derive(Drop)]
struct Outside {
    bounds: Bounds,
}

impl ItemCheck<Constant> for Outside {
    ghost use Rattle.std.specs.Prelude.{◌≡◌, Some, None};
    ghost use Rattle.ir_items.specs.found.GlobalView.{constant_view};
    ghost use Rattle.module_handles.specs.Found.{constant_missing};

    ghost passes = { λ t i x. constant_missing t.bounds (constant_view x) ≡ None };

    ghost fails = { λ t i x h. constant_missing t.bounds (constant_view x) ≡ Some h };

    fn check(&self, _index: usize, constant: &Constant) -> Option<HandleFault> {
        constant_missing(constant, &self.bounds)
    }
}

impl ItemCheck<Override> for Outside {
    ghost use Rattle.std.specs.Prelude.{◌≡◌, Some, None};
    ghost use Rattle.ir_items.specs.found.GlobalView.{override_view};
    ghost use Rattle.module_handles.specs.Found.{override_missing};

    ghost passes = { λ t i x. override_missing t.bounds (override_view x) ≡ None };

    ghost fails = { λ t i x h. override_missing t.bounds (override_view x) ≡ Some h };

    fn check(&self, _index: usize, item: &Override) -> Option<HandleFault> {
        override_missing(item, &self.bounds)
    }
}

impl ItemCheck<GlobalVariable> for Outside {
    ghost use Rattle.std.specs.Prelude.{◌≡◌, Some, None};
    ghost use Rattle.ir_items.specs.found.GlobalView.{global_view};
    ghost use Rattle.module_handles.specs.Found.{variable_missing};

    ghost passes = { λ t i x. variable_missing t.bounds (global_view x) ≡ None };

    ghost fails = { λ t i x h. variable_missing t.bounds (global_view x) ≡ Some h };

    fn check(&self, _index: usize, variable: &GlobalVariable) -> Option<HandleFault> {
        variable_missing(variable, &self.bounds)
    }
}

/// The error of a handle of constants, overrides, global variables, special types or the diagnostic filter leaf, if it is out of
/// bounds.
pub(crate) fn fault_of_items(module: &Module) -> Option<HandleFault>
    ensures { MatchOption result (ItemsOK (module_view «module».now)) (IsFaultIn (module_view «module».now)) }
{
    let outside = Outside {
        bounds: Bounds::outside_functions(module),
    };
    if let Some(fault) = special_missing(&module.special_types, &outside.bounds) {
        return Some(fault);
    }
    if let Some(fault) = leaf_missing(module.diagnostic_filter_leaf, &outside.bounds) {
        return Some(fault);
    }
    if let Some(fault) = fault_of_values(&outside, &module.constants) {
        return Some(fault);
    }
    if let Some(fault) = fault_of_values(&outside, &module.overrides) {
        return Some(fault);
    }
    fault_of_values(&outside, &module.global_variables)
}
