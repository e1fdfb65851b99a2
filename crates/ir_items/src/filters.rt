// Diagnostic filters.
ghost use Rattle.std.specs.Prelude.{◌≡◌, IfOk};
ghost use Rattle.ir_items.specs.found.GlobalView.{rule_view, node_view};

use ir_blocks::ir_arena::copied::Copied;
use ir_blocks::ir_arena::handle::Handle;
use ir_blocks::ir_types::key;
use ir_kinds::{Severity, StandardFilterableTriggeringRule};
use std::alloc::{AllocError, Global};

/// A rule whose diagnostics a filter configures (naga's `FilterableTriggeringRule`).
#[derive(PartialEq, Eq, Debug, Drop)]
pub enum FilterableTriggeringRule {
    /// A standard rule of WGSL.
    Standard(StandardFilterableTriggeringRule),
    /// An unknown rule.
    Unknown(String),
    /// A user-defined rule: the name of the tool and of the rule.
    User(String, String),
}

/// A severity for the diagnostics of a rule (naga's `DiagnosticFilter`).
#[derive(PartialEq, Debug, Drop)]
pub struct DiagnosticFilter {
    /// The new severity.
    pub new_severity: Severity,
    /// The rule.
    pub triggering_rule: FilterableTriggeringRule,
}

/// A filter and its parent node (naga's `DiagnosticFilterNode`).
#[derive(PartialEq, Debug, Drop)]
pub struct DiagnosticFilterNode {
    /// The filter.
    pub inner: DiagnosticFilter,
    /// The parent node, if any.
    pub parent: Option<Handle<key::DiagnosticFilterNode>>,
}

impl FilterableTriggeringRule {
    /// An equal rule in memory of its own. The error is out of memory.
    pub fn clone(&self, alloc: Global) -> Result<FilterableTriggeringRule, AllocError>
        ensures { IfOk result (λ copy. rule_view copy ≡ rule_view self.now) }
    {
        match self {
            FilterableTriggeringRule::Standard(rule) => {
                Ok(FilterableTriggeringRule::Standard(*rule))
            }
            FilterableTriggeringRule::Unknown(name) => {
                let name = String::from_str(alloc, name.as_str())?;
                Ok(FilterableTriggeringRule::Unknown(name))
            }
            FilterableTriggeringRule::User(tool, name) => {
                let tool = String::from_str(alloc, tool.as_str())?;
                let name = String::from_str(alloc, name.as_str())?;
                Ok(FilterableTriggeringRule::User(tool, name))
            }
        }
    }
}

impl DiagnosticFilter {
    /// An equal filter in memory of its own. The error is out of memory.
    pub fn clone(&self, alloc: Global) -> Result<DiagnosticFilter, AllocError>
        ensures severity { IfOk result (λ copy. copy.new_severity ≡ self.now.new_severity) }
        ensures rule { IfOk result (λ copy. rule_view copy.triggering_rule ≡ rule_view self.now.triggering_rule) }
    {
        Ok(DiagnosticFilter {
            new_severity: self.new_severity,
            triggering_rule: self.triggering_rule.clone(alloc)?,
        })
    }
}

impl DiagnosticFilterNode {
    /// An equal node in memory of its own. The error is out of memory.
    pub fn clone(&self, alloc: Global) -> Result<DiagnosticFilterNode, AllocError>
        ensures { IfOk result (λ copy. node_view copy ≡ node_view self.now) }
    {
        Ok(DiagnosticFilterNode {
            inner: self.inner.clone(alloc)?,
            parent: self.parent,
        })
    }
}

impl Copied for DiagnosticFilterNode {
    ghost use Rattle.ir_items.specs.judged.GlobalPlain.{PlainFilterNode};
    ghost use Rattle.ir_items.specs.found.GlobalView.{node_view};

    ghost View = { PlainFilterNode };

    ghost view = { node_view };

    fn copied(&self, alloc: Global) -> Result<DiagnosticFilterNode, AllocError> {
        self.clone(alloc)
    }
}
