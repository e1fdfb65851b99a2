// Calls on arenas and sets without free memory: those that allocate nothing, and those whose allocation fails.
ghost use Rattle.std.specs.Prelude.{◌<◌, length};

use crate::call::{freeing, no_call, told};
use crate::growing::{
    Appended, Fetched, FetchedEqual, Growing, Growth, Inserted, Members, Tag, numbers, set_of_one,
    unique,
};
use crate::hog::{Trial, is_refused_all};
use ir_arena::arena::Arena;
use ir_arena::handle::Handle;
use ir_arena::span::Span;
use ir_sets::handle_vec::HandleVec;
use ir_sets::unique_arena::UniqueArena;
use std::alloc::{AllocError, Global};

// The first value of a `HandleVec`.
#[derive(Drop)]
struct Kept(HandleVec<Tag, u64>);

impl Trial for Kept {
    fn is_refused(&mut self, _alloc: Global) -> bool {
        if self.0.is_empty() {
            return self.0.insert(Handle::at(0), 7).is_err();
        }
        false
    }

    fn is_right(&mut self, refused: bool) -> bool {
        refused && self.0.is_empty()
    }
}

// Three values, two of which are retained.
#[derive(Drop)]
struct Retained(Arena<u32>);

impl Trial for Retained {
    fn is_refused(&mut self, _alloc: Global) -> bool {
        self.0.retain_mut(|_, value| *value != 4);
        false
    }

    fn is_right(&mut self, _refused: bool) -> bool {
        self.0.len() == 2
    }
}

// Drained strings, and their number.
#[derive(Drop)]
struct Drained {
    texts: Arena<String, Tag>,
    count: usize,
}

fn add_texts(alloc: Global, texts: &mut Arena<String, Tag>) -> Result<(), AllocError> {
    for text in ["a", "b"] {
        texts.append(String::from_str(alloc, text)?, Span::new(1, 1))?;
    }
    Ok(())
}

fn count(texts: &mut Arena<String, Tag>) -> usize {
    let mut count = 0usize;
    for _ in texts.drain() {
        count = count.wrapping_add(1);
    }
    count
}

impl Trial for Drained {
    fn begin(&mut self, alloc: Global) -> Result<(), AllocError> {
        add_texts(alloc, &mut self.texts)
    }

    fn is_refused(&mut self, _alloc: Global) -> bool {
        self.count = count(&mut self.texts);
        false
    }

    fn is_right(&mut self, _refused: bool) -> bool {
        self.count == 2
    }
}

// Replaces a value if the arena contains it and not the new one. Returns whether it was replaced.
#[tactic(auto, using(ir_arena::proofs::Found::passes_nowhere))]
fn put(unique: &mut UniqueArena<u32>, old: Handle<u32>, value: u32) -> bool {
    if old.index() >= unique.len() {
        return false;
    }
    match unique.get(&value) {
        Some(_) => false,
        None => unique.replace(old, value).is_ok(),
    }
}

// An arena with room for a replacement, and what is drained from it.
#[derive(Drop)]
struct Replaced {
    subject: UniqueArena<u32>,
    taken: UniqueArena<u32>,
}

impl Trial for Replaced {
    fn begin(&mut self, _alloc: Global) -> Result<(), AllocError> {
        self.subject.insert(7, Span::new(1, 2))?;
        Ok(())
    }

    fn is_refused(&mut self, _alloc: Global) -> bool {
        let refused = !put(&mut self.subject, Handle::at(0), 8);
        self.taken = self.subject.take();
        refused
    }

    fn is_right(&mut self, refused: bool) -> bool {
        !refused && self.taken.get(&8) == Some(Handle::at(0))
    }
}

// The numbers from 0 that fill the first table of a set.
fn fill(unique: &mut UniqueArena<u32>) -> Result<(), AllocError> {
    for value in 0..9u32 {
        unique.insert(value, Span::new(value, 5000))?;
    }
    Ok(())
}

// A full arena with one value replaced, and another arena.
#[derive(Drop)]
struct Full {
    subject: UniqueArena<u32>,
    other: UniqueArena<u32>,
}

impl Trial for Full {
    fn begin(&mut self, _alloc: Global) -> Result<(), AllocError> {
        fill(&mut self.subject)?;
        fill(&mut self.other)
    }

    fn is_refused(&mut self, _alloc: Global) -> bool {
        !put(&mut self.subject, Handle::at(0), 9)
    }

    fn is_right(&mut self, refused: bool) -> bool {
        refused && self.subject == self.other && self.subject.get(&9).is_none()
    }
}

// Whether the allocation of a call fails. The call is freed here, where its type is a parameter.
fn of<T: Trial + Drop>(alloc: Global, trial: T) -> Result<String, AllocError> {
    let mut trial = trial;
    freeing(told(alloc, is_refused_all(alloc, &mut trial)), trial)
}

// The same for what grows.
fn grown<G: Growing>(alloc: Global, subject: G) -> Result<String, AllocError> {
    of(
        alloc,
        Growth {
            subject,
            refused: None,
            answers: false,
        },
    )
}

// The initial numbers of arenas.
const BEGIN: [u32; 2] = [2000, 3000];

/// Whether the call with this name fails without free memory, as expected.
pub fn without_memory(alloc: Global, name: &str) -> Result<String, AllocError> {
    match name {
        "append" => grown(alloc, Appended(numbers(alloc, &BEGIN)?)),
        "fetch_or_append" => grown(alloc, Fetched(numbers(alloc, &BEGIN)?)),
        "fetch_if_or_append" => grown(alloc, FetchedEqual(numbers(alloc, &BEGIN)?)),
        "insert" => grown(alloc, Inserted(unique(alloc)?)),
        "insert into a set" => grown(alloc, Members(set_of_one(alloc)?)),
        _ => changed(alloc, name),
    }
}

// The same for calls that change a value.
fn changed(alloc: Global, name: &str) -> Result<String, AllocError> {
    match name {
        "keep" => of(alloc, Kept(HandleVec::new(alloc))),
        "retain" => of(alloc, Retained(numbers(alloc, &[3, 4, 5])?)),
        "drain" => of(
            alloc,
            Drained {
                texts: Arena::new(alloc),
                count: 0,
            },
        ),
        "replace with room" => of(
            alloc,
            Replaced {
                subject: UniqueArena::new(alloc),
                taken: UniqueArena::new(alloc),
            },
        ),
        "replace" => of(
            alloc,
            Full {
                subject: UniqueArena::new(alloc),
                other: UniqueArena::new(alloc),
            },
        ),
        _ => no_call(alloc),
    }
}
