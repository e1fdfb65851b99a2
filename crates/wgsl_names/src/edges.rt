// The items that each item references.

use crate::scopes::Scopes;
use std::alloc::Global;
use wgsl_text::Failure;
use wgsl_tokens::Mark;
use wgsl_tree::{Item, ItemKind, Part, Step, StepKind, Tree};
use wgsl_words::AttributeWord;

// The references between items.
#[derive(Drop)]
pub(crate) struct Edges {
    // the referenced items, item by item
    pub list: Vec<u32>,
    // the range of each item
    pub parts: Vec<Part>,
}

// The number of the identifier at a token.
pub(crate) fn word_at(tree: &Tree, token: u32) -> u32 {
    match tree.tokens.mark(token as usize) {
        Mark::Name(number) => number,
        Mark::None | Mark::Open | Mark::Close => u32::MAX,
    }
}

// The steps in this range.
fn steps_of(tree: &Tree, part: Part) -> &[Step] {
    tree.steps
        .get(part.start as usize..part.end as usize)
        .unwrap_or(&[])
}

// Whether the arguments of an attribute are expressions, or names of variables.
fn has_values(word: AttributeWord) -> bool {
    matches!(
        word,
        AttributeWord::WorkgroupSize
            | AttributeWord::Size
            | AttributeWord::Align
            | AttributeWord::Id
            | AttributeWord::Location
            | AttributeWord::Binding
            | AttributeWord::Group
            | AttributeWord::BlendSrc
            | AttributeWord::Mesh
            | AttributeWord::Payload
            | AttributeWord::IncomingPayload
    )
}

// The state of the search.
#[derive(Clone, Copy)]
struct Looking<'a> {
    tree: &'a Tree,
    items: &'a [u32],
}

impl Looking<'_> {
    // The item that a name denotes, unless a function declares the name.
    fn item_of(&self, scopes: &Scopes<()>, name: u32) -> Option<u32> {
        if scopes.get(name).is_some() {
            return None;
        }
        match self.items.get(name as usize) {
            Some(0) | None => None,
            Some(item) => Some(item.saturating_sub(1)),
        }
    }

    // The items that steps reference.
    fn scan(&self, part: Part, scopes: &mut Scopes<()>, list: &mut Vec<u32>, failed: &mut Failure) {
        for step in steps_of(self.tree, part) {
            match step.kind {
                StepKind::Name(name) => {
                    if let Some(item) = self.item_of(scopes, name) {
                        failed.push(list, item);
                    }
                }
                StepKind::Let(_) | StepKind::Const(_) | StepKind::Var { .. } => {
                    scopes.set(word_at(self.tree, step.token), (), failed);
                }
                kind => scopes.follow(kind, failed),
            }
        }
    }

    // The items that attributes reference.
    fn scan_attributes(
        &self,
        part: Part,
        scopes: &mut Scopes<()>,
        list: &mut Vec<u32>,
        failed: &mut Failure,
    ) {
        for place in part.start..part.end {
            if let Some(attribute) = self.tree.attributes.get(place as usize) {
                if has_values(attribute.word) {
                    self.scan(attribute.steps, scopes, list, failed);
                }
            }
        }
    }

    // The items that an item references.
    fn scan_item(
        &self,
        item: &Item,
        scopes: &mut Scopes<()>,
        list: &mut Vec<u32>,
        failed: &mut Failure,
    ) {
        self.scan_attributes(item.attributes, scopes, list, failed);
        for place in item.members.start..item.members.end {
            if let Some(member) = self.tree.members.get(place as usize) {
                self.scan_attributes(member.attributes, scopes, list, failed);
                self.scan(member.steps, scopes, list, failed);
            }
        }
        scopes.enter(failed);
        if let ItemKind::Function(_) = item.kind {
            for place in item.members.start..item.members.end {
                if let Some(member) = self.tree.members.get(place as usize) {
                    scopes.set(member.name, (), failed);
                }
            }
        }
        self.scan(item.steps, scopes, list, failed);
        scopes.leave();
    }
}

// The references of each item; `items` has the item of each identifier plus one, or 0.
pub(crate) fn edges_of(alloc: Global, tree: &Tree, items: &[u32], failed: &mut Failure) -> Edges {
    let mut scopes = Scopes::new(alloc, tree.tokens.names.len(), failed);
    let mut edges = Edges {
        list: Vec::new(alloc),
        parts: Vec::new(alloc),
    };
    let looking = Looking { tree, items };
    for item in &tree.items {
        let start = u32::try_from(edges.list.len()).unwrap_or(u32::MAX);
        looking.scan_item(item, &mut scopes, &mut edges.list, failed);
        let end = u32::try_from(edges.list.len()).unwrap_or(u32::MAX);
        failed.push(&mut edges.parts, Part { start, end });
    }
    edges
}
