// Diagnostic filters.

use crate::attributes::{find, whole_extent, word_of};
use crate::builder::ModuleBuilder;
use ir_items::{DiagnosticFilter, FilterableTriggeringRule};
use ir_kinds::{Severity, StandardFilterableTriggeringRule};
use wgsl_expressions::Lowering;
use wgsl_text::{Extent, Failure};
use wgsl_tree::{Attribute, Item, ItemKind, Part};
use wgsl_words::{AttributeWord, severity_of};

// The maximum number of filters in one list, which are compared with each other.
const MAX_FILTERS: usize = 64;

// A filter: its severity, and the one or two names of its rule.
#[derive(Clone, Copy)]
struct Filter {
    severity: Severity,
    name: (u32, Extent),
    more: Option<(u32, Extent)>,
    extent: Extent,
}

// The number of the second name of a rule; none has the greatest number.
fn second_of(filter: &Filter) -> u32 {
    match filter.more {
        Some(more) => more.0,
        None => u32::MAX,
    }
}

// The span of a filter: a directive has no `@`.
fn extent_of<B: ModuleBuilder>(
    lowering: &Lowering<B>,
    attribute: &Attribute,
    are_directives: bool,
) -> Extent {
    let whole = whole_extent(lowering, attribute);
    if are_directives {
        lowering.extent(attribute.token).until(whole)
    } else {
        whole
    }
}

// The filter of an attribute or a directive.
fn filter_of<B: ModuleBuilder>(
    lowering: &Lowering<B>,
    attribute: &Attribute,
    are_directives: bool,
) -> Option<Filter> {
    let (word, _) = word_of(lowering, attribute, 0)?;
    Some(Filter {
        severity: severity_of(lowering.tree.tokens.word(word))?,
        name: word_of(lowering, attribute, 1)?,
        more: word_of(lowering, attribute, 2),
        extent: extent_of(lowering, attribute, are_directives),
    })
}

// The rule that the IR knows; a placeholder for others that are out of memory.
fn standard_rule() -> FilterableTriggeringRule {
    FilterableTriggeringRule::Standard(StandardFilterableTriggeringRule::DerivativeUniformity)
}

// The rule of a tool.
fn rule_of_tool(tool: Option<String>, name: Option<String>) -> FilterableTriggeringRule {
    let Some(tool) = tool else {
        return standard_rule();
    };
    let Some(name) = name else {
        return standard_rule();
    };
    FilterableTriggeringRule::User(tool, name)
}

// The rule of a filter.
fn rule_of<B: ModuleBuilder>(
    lowering: &mut Lowering<B>,
    filter: &Filter,
) -> FilterableTriggeringRule {
    if let Some((_, extent)) = filter.more {
        let tool = lowering.words_at(filter.name.1);
        let name = lowering.words_at(extent);
        return rule_of_tool(tool, name);
    }
    let word = lowering.tree.tokens.word(filter.name.0);
    if word == b"derivative_uniformity".as_slice() {
        return standard_rule();
    }
    match lowering.words_at(filter.name.1) {
        Some(name) => FilterableTriggeringRule::Unknown(name),
        None => standard_rule(),
    }
}

// Adds a filter to the module.
fn add<B: ModuleBuilder>(lowering: &mut Lowering<B>, filter: &Filter) {
    let triggering_rule = rule_of(lowering, filter);
    let made = DiagnosticFilter {
        new_severity: filter.severity,
        triggering_rule,
    };
    lowering.builder.filter(made, filter.extent);
}

// The filter for the same rule among those before it.
fn same_rule(known: &[Filter], filter: &Filter) -> Option<Filter> {
    for other in known {
        if other.name.0 == filter.name.0 && second_of(other) == second_of(filter) {
            return Some(*other);
        }
    }
    None
}

// Lowers the filters among attributes, or those of directives, of which two that are equal count as one.
pub(crate) fn filters<B: ModuleBuilder>(
    lowering: &mut Lowering<B>,
    part: Part,
    are_directives: bool,
) {
    let mut known: Vec<Filter> = Vec::new(lowering.alloc);
    for place in part.start..part.end {
        if lowering.has_failed() {
            break;
        }
        let Some(attribute) = lowering.tree.attributes.get(place as usize).copied() else {
            break;
        };
        if attribute.word != AttributeWord::Diagnostic {
            continue;
        }
        let Some(filter) = filter_of(lowering, &attribute, are_directives) else {
            break;
        };
        if known.len() >= MAX_FILTERS {
            lowering.unsupported("more than 64 diagnostic filters in one list", filter.extent);
        }
        match same_rule(&known, &filter) {
            None => {
                let mut failed = Failure::NONE;
                failed.push(&mut known, filter);
                lowering.join(&failed);
                add(lowering, &filter);
            }
            Some(other) if are_directives && other.severity == filter.severity => {}
            Some(other) => {
                lowering.wrong("found conflicting `diagnostic(…)` rule(s)", other.extent);
            }
        }
    }
}

// Reports filters on a declaration that is not a function.
pub(crate) fn no_filters<B: ModuleBuilder>(lowering: &mut Lowering<B>, item: &Item) {
    let Some(attribute) = find(lowering, item.attributes, AttributeWord::Diagnostic) else {
        return;
    };
    let text = match item.kind {
        ItemKind::Const(_) => "`@diagnostic(…)` attribute(s) on `const`s are not supported",
        ItemKind::Override { .. } =>
            "`@diagnostic(…)` attribute(s) on `override`s are not supported",
        ItemKind::Variable { .. } => "`@diagnostic(…)` attribute(s) on `var`s are not supported",
        ItemKind::Alias => "`@diagnostic(…)` attribute(s) on `alias`es are not supported",
        ItemKind::Struct => "`@diagnostic(…)` attribute(s) on `struct`s are not supported",
        ItemKind::ConstAssert =>
            "`@diagnostic(…)` attribute(s) on `const_assert`s are not supported",
        ItemKind::Function(_) => return,
    };
    let extent = whole_extent(lowering, &attribute);
    lowering.wrong(text, extent);
}
