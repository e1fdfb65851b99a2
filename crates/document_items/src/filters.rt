// The JSON forms of diagnostic filters.
ghost use Rattle.std.specs.Prelude.{◌≡◌, ℕ, List, Option, map, option_map};
ghost use Rattle.ir_items.specs.judged.GlobalPlain.{PlainRule, PlainFilterNode};
ghost use Rattle.ir_items.specs.found.GlobalView.{rule_view, node_view};
ghost use Rattle.document_items.specs.found.Items.{a_rule, a_filter, the_filters};

use crate::kinds::RuleKind;
use document_forms::{
    At, Form, InArena, Maybe, ReadError, Text, WordOf, read_items, read_row, read_tag,
};
use ir_arena::arena::Arena;
use ir_arena::handle::Handle;
use ir_items::{DiagnosticFilter, DiagnosticFilterNode, FilterableTriggeringRule};
use ir_kinds::{Severity, StandardFilterableTriggeringRule};
use ir_types::key;
use serde_json::Value;
use std::alloc::Global;

/// The JSON form of the triggering rule of a filter.
pub struct RuleForm;

impl Form for RuleForm {
    type Item = FilterableTriggeringRule;

    ghost Plain = { PlainRule };

    ghost view = { rule_view };

    ghost form = { a_rule };

    #[tactic(auto, unfolding(crate::specs::found::Items::rule_with))]
    fn read(alloc: Global, value: &Value) -> Result<FilterableTriggeringRule, ReadError> {
        let (kind, rest) = read_tag(value)?;
        match kind {
            RuleKind::Standard => {
                let (rule,) = read_items::<(WordOf<StandardFilterableTriggeringRule>,)>(
                    alloc, rest,
                )?;
                Ok(FilterableTriggeringRule::Standard(rule))
            }
            RuleKind::Unknown => {
                let (name,) = read_items::<(Text,)>(alloc, rest)?;
                Ok(FilterableTriggeringRule::Unknown(name))
            }
            RuleKind::User => {
                let (tool, name) = read_items::<(Text, Text)>(alloc, rest)?;
                Ok(FilterableTriggeringRule::User(tool, name))
            }
        }
    }
}

type F = At<key::DiagnosticFilterNode>;

/// The JSON form of a filter with its parent.
pub struct FilterForm;

impl Form for FilterForm {
    type Item = DiagnosticFilterNode;

    ghost Plain = { PlainFilterNode };

    ghost view = { node_view };

    ghost form = { a_filter };

    fn read(alloc: Global, value: &Value) -> Result<DiagnosticFilterNode, ReadError> {
        let (new_severity, triggering_rule, parent) = read_row::<
            (WordOf<Severity>, RuleForm, Maybe<F>),
        >(alloc, value)?;
        let inner = DiagnosticFilter {
            new_severity,
            triggering_rule,
        };
        Ok(DiagnosticFilterNode { inner, parent })
    }
}

/// The JSON form of the filters, with the innermost filter of the module.
pub struct FiltersForm;

impl Form for FiltersForm {
    type Item = (
        Arena<DiagnosticFilterNode, key::DiagnosticFilterNode>,
        Option<Handle<key::DiagnosticFilterNode>>,
    );

    ghost Plain = { List PlainFilterNode × Option ℕ };

    ghost view = { λ t. (map node_view (map (λ e. e.0) t.0), t.1) };

    ghost form = { the_filters };

    fn read(alloc: Global, value: &Value) -> Result<Self::Item, ReadError> {
        read_row::<(InArena<FilterForm, key::DiagnosticFilterNode>, Maybe<F>)>(alloc, value)
    }
}
