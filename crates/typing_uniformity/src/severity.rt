//! Severities of the derivative diagnostic rule.

ghost use Rattle.std.specs.Prelude.{◌≡◌, ◌↔◌, ◌⊎◌, ◌<◌, IfOk, IsTrue, length, map};
ghost use Rattle.ir_items.specs.judged.GlobalPlain.{standard};
ghost use Rattle.ir_items.specs.found.GlobalView.{node_view};
ghost use Rattle.ir_items.specs.found.View.{function_view, module_view};
ghost use Rattle.ir_kinds.specs.declared.diagnostics.StandardFilterableTriggeringRule.TheVariants.{DerivativeUniformity};
ghost use Rattle.ir_items.specs.found.Filters.{nodes_of, ParentsPrecede};
ghost use Rattle.typing_uniformity.specs.Nearest.{AreNearest};
ghost use Rattle.spec_expressions.specs.judged.Severity.{IsNearest, HasSeverity};

use ir_arena::arena::Arena;
use ir_arena::handle::Handle;
use ir_items::{DiagnosticFilterNode, FilterableTriggeringRule, Function, Module, key};
use ir_kinds::{Severity, StandardFilterableTriggeringRule};
use std::alloc::{AllocError, Global};

// The diagnostic filters of a module, in order.
type Filters = Arena<DiagnosticFilterNode, key::DiagnosticFilterNode>;

// The derivative uniformity rule.
const DERIVATIVES: StandardFilterableTriggeringRule =
    StandardFilterableTriggeringRule::DerivativeUniformity;

// Whether the node's filter is for this rule.
fn has_rule(node: &DiagnosticFilterNode, rule: StandardFilterableTriggeringRule) -> bool
    ensures { IsTrue result ↔ ((node_view node.now).rule ≡ standard rule) }
{
    match node.inner.triggering_rule {
        FilterableTriggeringRule::Standard(of) => of == rule,
        FilterableTriggeringRule::Unknown(_) | FilterableTriggeringRule::User(..) => false,
    }
}

// The severity of the nearest filter for the rule, from a handle on along the parents, if there is one.
fn nearest(
    filters: &Filters,
    start: Option<Handle<key::DiagnosticFilterNode>>,
    rule: StandardFilterableTriggeringRule,
) -> Option<Severity>
    requires { ParentsPrecede (nodes_of filters.now) }
    ensures { IsNearest (nodes_of filters.now) start rule result }
{
    let mut current = start;
    while let Some(handle) = current {
        let Ok(node) = filters.try_get(handle) else {
            return None;
        };
        if has_rule(node, rule) {
            return Some(node.inner.new_severity);
        }
        current = node.parent;
    }
    None
}

// The severity of the nearest derivative filter from a handle on, looked up in `known` if the node is in it,
// and otherwise searched for.
fn nearest_by(
    filters: &Filters,
    known: &[Option<Severity>],
    start: Option<Handle<key::DiagnosticFilterNode>>,
) -> Option<Severity>
    requires precede { ParentsPrecede (nodes_of filters.now) }
    requires known { AreNearest (nodes_of filters.now) known.now }
    ensures { IsNearest (nodes_of filters.now) start DerivativeUniformity result }
{
    if let Some(handle) = start {
        if let Some(found) = known.get(handle.index()) {
            return *found;
        }
    }
    nearest(filters, start, DERIVATIVES)
}

// The severity at a node, given that of its parent.
fn own_or(node: &DiagnosticFilterNode, behind: Option<Severity>) -> Option<Severity>
    ensures { ((node_view node.now).rule ≡ standard DerivativeUniformity) × (result ≡ Some (node_view node.now).severity)
        ⊎ (¬ ((node_view node.now).rule ≡ standard DerivativeUniformity)) × (result ≡ behind) }
{
    if has_rule(node, DERIVATIVES) {
        Some(node.inner.new_severity)
    } else {
        behind
    }
}

// The severity at a node, given those of the earlier nodes.
fn nearest_at(
    filters: &Filters,
    known: &[Option<Severity>],
    handle: Handle<key::DiagnosticFilterNode>,
) -> Option<Severity>
    requires precede { ParentsPrecede (nodes_of filters.now) }
    requires known { AreNearest (nodes_of filters.now) known.now }
    requires within { handle < length filters.now }
    ensures { IsNearest (nodes_of filters.now) (Some handle) DerivativeUniformity result }
{
    let node = &filters[handle];
    own_or(node, nearest_by(filters, known, node.parent))
}

/// For each node of a module's diagnostic filters the severity of the nearest derivative filter, from it on along the
/// parents, if there is one. Each reuses its parent's. The error is out of memory.
pub fn severities_of(alloc: Global, module: &Module) -> Result<Vec<Option<Severity>>, AllocError>
    requires { ParentsPrecede ((module_view «module».now).filters) }
    ensures nearest { IfOk result (λ known. AreNearest (module_view «module».now).filters known.items) }
    ensures many { IfOk result (λ known. length known.items ≡ length «module».now.diagnostic_filters) }
{
    let filters = &module.diagnostic_filters;
    let count = filters.len();
    let mut known = Vec::with_capacity(alloc, count)?;
    for index in 0..count {
        let severity = nearest_at(filters, &known, Handle::at(index));
        known.push(severity)?;
    }
    Ok(known)
}

/// The severity of derivatives in non-uniform control flow in a function: that of the nearest filter from the function's leaf on;
/// if there is none, the nearest from the module's leaf on; if there is none either, [`Severity::Error`].
pub fn derivative_severity(function: &Function, module: &Module) -> Severity
    requires { ParentsPrecede ((module_view «module».now).filters) }
    ensures { HasSeverity (module_view «module».now) (function_view function.now) DerivativeUniformity result }
{
    derivative_severity_by(&[], function, module)
}

/// As above, with the severities of the module's diagnostic filters given (see [`severities_of`]). From a leaf that is not among
/// them the parents are walked.
pub fn derivative_severity_by(
    known: &[Option<Severity>],
    function: &Function,
    module: &Module,
) -> Severity
    requires parents { ParentsPrecede ((module_view «module».now).filters) }
    requires known { AreNearest (module_view «module».now).filters known.now }
    ensures { HasSeverity (module_view «module».now) (function_view function.now) DerivativeUniformity result }
{
    let filters = &module.diagnostic_filters;
    match nearest_by(filters, known, function.diagnostic_filter_leaf) {
        Some(severity) => severity,
        None => match nearest_by(filters, known, module.diagnostic_filter_leaf) {
            Some(severity) => severity,
            None => Severity::Error,
        },
    }
}
