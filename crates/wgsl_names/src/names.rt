// The items by name, in dependency order.

use crate::edges::{Edges, edges_of};
use std::alloc::Global;
use wgsl_text::{Failure, WgslError};
use wgsl_tree::{Item, ItemKind, Part, Tree};

/// The declarations at module scope.
pub struct Names {
    /// The item of each identifier plus one, or 0.
    pub items: Vec<u32>,
    /// All items in dependency order.
    pub order: Vec<u32>,
}

// Written out, so that dropping it is one call of this crate.
impl Drop for Names {
    fn drop(self) {
        let Names {
            items: _items,
            order: _order,
        } = self;
    }
}

// The progress of an item.
#[derive(Clone, Copy, PartialEq, Eq)]
enum Colour {
    New,
    Open,
    Done,
}

// An item on the path, with the number of its references visited.
#[derive(Clone, Copy)]
struct Frame {
    item: u32,
    next: u32,
}

// A depth-first walk over items by their references.
#[derive(Drop)]
struct Walk {
    colours: Vec<Colour>,
    frames: Vec<Frame>,
    order: Vec<u32>,
}

impl Walk {
    fn colour(&self, item: u32) -> Colour {
        self.colours
            .get(item as usize)
            .copied()
            .unwrap_or(Colour::Done)
    }

    fn paint(&mut self, item: u32, colour: Colour) {
        if let Some(known) = self.colours.get_mut(item as usize) {
            *known = colour;
        }
    }

    // Enters an item.
    fn open(&mut self, item: u32, failed: &mut Failure) {
        self.paint(item, Colour::Open);
        failed.push(&mut self.frames, Frame { item, next: 0 });
    }

    // Visits the next reference of the innermost item, or leaves the item. Returns whether there is one.
    fn step(&mut self, tree: &Tree, edges: &Edges, failed: &mut Failure) -> bool {
        let Some(frame) = self.frames.pop() else {
            return false;
        };
        let part = edges
            .parts
            .get(frame.item as usize)
            .copied()
            .unwrap_or(Part::NONE);
        if frame.next >= part.count() {
            self.paint(frame.item, Colour::Done);
            failed.push(&mut self.order, frame.item);
            return true;
        }
        let place = part.start.saturating_add(frame.next);
        let to = edges.list.get(place as usize).copied().unwrap_or(0);
        let next = frame.next.saturating_add(1);
        failed.push(
            &mut self.frames,
            Frame {
                item: frame.item,
                next,
            },
        );
        match self.colour(to) {
            Colour::New => self.open(to, failed),
            Colour::Open => failed.fail(cyclic(tree, frame.item, to)),
            Colour::Done => {}
        }
        true
    }
}

// Reports a cyclic declaration.
fn cyclic(tree: &Tree, from: u32, to: u32) -> WgslError {
    let token = match tree.items.get(to as usize) {
        Some(item) => item.token,
        None => 0,
    };
    let after = if from == to {
        " is recursive"
    } else {
        " is cyclic"
    };
    let extent = tree.tokens.at(token as usize).extent();
    WgslError::of_name("declaration of ", extent, after)
}

// Whether an item declares a name.
fn is_named(item: &Item) -> bool {
    !matches!(item.kind, ItemKind::ConstAssert)
}

// The items by name. The error is a redefinition.
fn named_items(alloc: Global, tree: &Tree, failed: &mut Failure) -> Vec<u32> {
    let mut items: Vec<u32> = failed.table(alloc, 0, tree.tokens.names.len());
    let mut place: u32 = 0;
    for item in &tree.items {
        place = place.saturating_add(1);
        if !is_named(item) {
            continue;
        }
        if let Some(known) = items.get_mut(item.name as usize) {
            if *known != 0 {
                let extent = tree.tokens.at(item.token as usize).extent();
                failed.fail(WgslError::of_name("redefinition of ", extent, ""));
            }
            *known = place;
        }
    }
    items
}

// The items in dependency order.
fn order_of(alloc: Global, tree: &Tree, edges: &Edges, failed: &mut Failure) -> Vec<u32> {
    let mut walk = Walk {
        colours: failed.table(alloc, Colour::New, tree.items.len()),
        frames: Vec::new(alloc),
        order: Vec::new(alloc),
    };
    let count = u32::try_from(tree.items.len()).unwrap_or(u32::MAX);
    for item in 0..count {
        if failed.is_some() {
            break;
        }
        if walk.colour(item) != Colour::New {
            continue;
        }
        walk.open(item, failed);
        for _ in 0..edges
            .list
            .len()
            .saturating_add(tree.items.len())
            .saturating_add(1)
        {
            if failed.is_some() || !walk.step(tree, edges, failed) {
                break;
            }
        }
    }
    let Walk {
        colours: _colours,
        frames: _frames,
        order,
    } = walk;
    order
}

/// The declarations at module scope. The error is out of memory, a redefinition, or a cyclic
/// declaration.
pub fn names_of(alloc: Global, tree: &Tree) -> Result<Names, WgslError> {
    let mut failed = Failure::NONE;
    let items = named_items(alloc, tree, &mut failed);
    let edges = edges_of(alloc, tree, &items, &mut failed);
    let order = order_of(alloc, tree, &edges, &mut failed);
    drop(edges);
    failed.answer(Names { items, order })
}
