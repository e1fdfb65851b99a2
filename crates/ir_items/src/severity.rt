//! The severity of a rule at a diagnostic filter node.
ghost use Rattle.std.specs.Prelude.{◌≡◌, ◌<◌, ◌↔◌, length, map, IsTrue};
ghost use Rattle.std.specs.Option.{ForSome};
ghost use Rattle.ir_items.specs.judged.GlobalPlain.{PlainFilterNode, standard};
ghost use Rattle.ir_items.specs.found.GlobalView.{node_view, values_of};
ghost use Rattle.ir_items.specs.found.Filters.{nodes_of, ParentsPrecede, HasSeverity};

use crate::{DiagnosticFilterNode, FilterableTriggeringRule, key};
use ir_blocks::ir_arena::arena::Arena;
use ir_blocks::ir_arena::handle::Handle;
use ir_kinds::{Severity, StandardFilterableTriggeringRule};

/// The method of filter nodes that follows their parents.
pub trait DiagnosticFilterNodeExt: Sized {
    /// The node's fields.
    ghost node_of: { Self → PlainFilterNode };

    /// The severity of a rule's diagnostics at `node`: the new
    /// severity of the nearest node with that rule, from `node` to its parent and on to the root, or
    /// [`Severity::Error`] if none of them has it (naga's `DiagnosticFilterNode::search`). It requires that the parent of each node
    /// in `arena` precedes it.
    fn search(
        node: Option<Handle<key::DiagnosticFilterNode>>,
        arena: &Arena<Self, key::DiagnosticFilterNode>,
        triggering_rule: StandardFilterableTriggeringRule,
    ) -> Severity
        requires in_arena { ForSome node (λ h. h < length arena.now) }
        requires parents { ParentsPrecede (map node_of (values_of arena.now)) }
        ensures { HasSeverity (map node_of (values_of arena.now)) node triggering_rule result };
}

impl DiagnosticFilterNodeExt for DiagnosticFilterNode {
    ghost use Rattle.ir_items.specs.found.GlobalView.{node_view};

    ghost node_of = { node_view };

    fn search(
        node: Option<Handle<key::DiagnosticFilterNode>>,
        arena: &Arena<DiagnosticFilterNode, key::DiagnosticFilterNode>,
        triggering_rule: StandardFilterableTriggeringRule,
    ) -> Severity {
        severity_of(node, arena, triggering_rule)
    }
}

// The severity of the rule at `node`.
fn severity_of(
    node: Option<Handle<key::DiagnosticFilterNode>>,
    arena: &Arena<DiagnosticFilterNode, key::DiagnosticFilterNode>,
    triggering_rule: StandardFilterableTriggeringRule,
) -> Severity
    requires in_arena { ForSome node (λ h. h < length arena.now) }
    requires parents { ParentsPrecede (nodes_of arena.now) }
    ensures { HasSeverity (nodes_of arena.now) node triggering_rule result }
{
    let mut current = node;
    while let Some(handle) = current {
        let filter_node = &arena[handle];
        if has_rule(filter_node, triggering_rule) {
            return filter_node.inner.new_severity;
        }
        current = filter_node.parent;
    }
    Severity::Error
}

// Whether the node's filter is for this rule.
fn has_rule(node: &DiagnosticFilterNode, triggering_rule: StandardFilterableTriggeringRule) -> bool
    ensures { IsTrue result ↔ ((node_view node.now).rule ≡ standard triggering_rule) }
{
    match node.inner.triggering_rule {
        FilterableTriggeringRule::Standard(rule) => rule == triggering_rule,
        FilterableTriggeringRule::Unknown(_) | FilterableTriggeringRule::User(..) => false,
    }
}
