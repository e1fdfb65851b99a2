//! Sampled pairs of images and samplers.

ghost use Rattle.std.specs.Prelude.{◌≡◌, ℕ, Some, IfOk, IsTrue, OnOk, None, [], slice_get, true};
ghost use Rattle.ir_types.specs.judged.ExpressionPlain.{expression_view};
ghost use Rattle.ir_items.specs.found.GlobalView.{values_of};
ghost use Rattle.typing_infos.specs.Marks.{EachOnce};
ghost use Rattle.spec_expressions.specs.judged.CallChains.{global_or_argument, seen_through};
ghost use Rattle.std.specs.Prelude.{map};
ghost use Rattle.typing_summaries.specs.Pairings.{Paired, paired, with_pair, with_wrong, first_wrong, part_wrong, pair_one, passed_for, pass_up, pass_all_up};
ghost use Rattle.typing_summaries.specs.Passed.{PassesOn, PassesAllOn};

use crate::list::PairList;
use crate::places::{Expressions, place};
use ir_arena::handle::Handle;
use ir_types::key;
use spec_expressions::{GlobalOrArgument, SamplingPair};
use std::alloc::{AllocError, Global};
use typing_infos::SampledPairs;

/// The sampled pairs.
#[derive(Drop)]
pub struct Sampled {
    /// The distinct pairs, in order of insertion.
    pub pairs: PairList,
    /// An image or sampler operand of a wrong form, if there is one.
    pub wrong: Option<Handle<key::Expression>>,
}

/// The denotation of an image or sampler operand, or the operand at fault.
#[derive(Clone, Copy)]
pub struct Part {
    /// The denotation.
    pub means: Option<GlobalOrArgument>,
    /// The operand, if there is one.
    pub wrong: Option<Handle<key::Expression>>,
}

// The denotation of a callee's part in the caller, with these arguments.
fn seen(
    expressions: &Expressions,
    arguments: &[Handle<key::Expression>],
    below: GlobalOrArgument,
) -> Part
    ensures means { result.means ≡ seen_through (global_or_argument (map expression_view (values_of expressions.now))) arguments.now (Some below) }
    ensures wrong { result.wrong ≡ passed_for arguments.now below }
{
    match below {
        GlobalOrArgument::Global(_) => Part {
            means: Some(below),
            wrong: None,
        },
        GlobalOrArgument::Argument(number) => match arguments.get(number as usize) {
            Some(argument) => Part {
                means: place(expressions, *argument),
                wrong: Some(*argument),
            },
            None => Part {
                means: None,
                wrong: None,
            },
        },
    }
}

// Whether the argument passed is the caller's own argument of the same index.
fn passes_on(
    expressions: &Expressions,
    arguments: &[Handle<key::Expression>],
    number: usize,
) -> bool
    ensures { IsTrue result → PassesOn (global_or_argument (map expression_view (values_of expressions.now))) arguments.now number }
{
    match arguments.get(number) {
        Some(argument) => match place(expressions, *argument) {
            Some(part) => match part {
                GlobalOrArgument::Argument(own) => own as usize == number,
                GlobalOrArgument::Global(_) => false,
            },
            None => false,
        },
        None => false,
    }
}

// Whether a marked argument is passed on unchanged.
fn passes_if_marked(
    expressions: &Expressions,
    arguments: &[Handle<key::Expression>],
    marks: &[bool],
    number: usize,
) -> bool
    ensures { IsTrue result → slice_get marks.now number ≡ Some true → PassesOn (global_or_argument (map expression_view (values_of expressions.now))) arguments.now number }
{
    match marks.get(number) {
        Some(marked) => {
            if *marked {
                passes_on(expressions, arguments, number)
            } else {
                true
            }
        }
        None => true,
    }
}

// Whether all marked arguments are passed on unchanged.
fn passes_marked_on(
    expressions: &Expressions,
    arguments: &[Handle<key::Expression>],
    marks: &[bool],
) -> bool
    ensures { IsTrue result → (n : ℕ) → slice_get marks.now n ≡ Some true → PassesOn (global_or_argument (map expression_view (values_of expressions.now))) arguments.now n }
{
    for number in 0..marks.len() {
        if !passes_if_marked(expressions, arguments, marks, number) {
            return false;
        }
    }
    true
}

// Whether each pair of a callee's table is the same pair in the caller.
fn passes_all_on(
    expressions: &Expressions,
    arguments: &[Handle<key::Expression>],
    callee: &SampledPairs,
) -> bool
    ensures once { IsTrue result → EachOnce callee.now.items }
    ensures same { IsTrue result → PassesAllOn (global_or_argument (map expression_view (values_of expressions.now))) arguments.now callee.now.items }
{
    match callee.marks() {
        Some(marks) => passes_marked_on(expressions, arguments, marks),
        None => false,
    }
}

impl Sampled {
    /// No pairs.
    pub fn new(alloc: Global) -> Sampled
        ensures { paired result ≡ record { pairs = []; wrong = None } }
    {
        Sampled {
            pairs: PairList::new(alloc),
            wrong: None,
        }
    }

    fn insert(&mut self, pair: SamplingPair) -> Result<(), AllocError>
        ensures { OnOk result (paired self.new ≡ with_pair pair (paired self.old)) }
    {
        self.pairs.insert(pair)
    }

    fn note_wrong(&mut self, wrong: Option<Handle<key::Expression>>)
        ensures { paired self.new ≡ with_wrong wrong (paired self.old) }
    {
        if self.wrong.is_none() {
            self.wrong = wrong;
        }
    }

    fn note_part(&mut self, part: Part)
        ensures { paired self.new ≡ part_wrong part.wrong part.means (paired self.old) }
    {
        if part.means.is_none() {
            self.note_wrong(part.wrong);
        }
    }

    /// Adds an image and a sampler: a pair if both denote something, otherwise the operand at fault. The error
    /// is out of memory.
    pub fn pair(&mut self, image: Part, sampler: Part) -> Result<(), AllocError>
        ensures { OnOk result (paired self.new ≡ pair_one image.wrong sampler.wrong image.means sampler.means (paired self.old)) }
    {
        match image.means {
            Some(of_image) => match sampler.means {
                Some(of_sampler) => self.insert((of_image, of_sampler)),
                None => {
                    self.note_wrong(sampler.wrong);
                    Ok(())
                }
            },
            None => {
                self.note_wrong(image.wrong);
                self.note_part(sampler);
                Ok(())
            }
        }
    }

    // Adds a callee's pair, with these arguments.
    fn pass_up(
        &mut self,
        expressions: &Expressions,
        arguments: &[Handle<key::Expression>],
        pair: SamplingPair,
    ) -> Result<(), AllocError>
        ensures { OnOk result (paired self.new ≡ pass_up (map expression_view (values_of expressions.now)) arguments.now pair (paired self.old)) }
    {
        self.pair(
            seen(expressions, arguments, pair.0),
            seen(expressions, arguments, pair.1),
        )
    }

    /// Adds all pairs of a callee, with these arguments substituted. The error is out of memory.
    pub fn pass_all_up(
        &mut self,
        expressions: &Expressions,
        arguments: &[Handle<key::Expression>],
        pairs: &[SamplingPair],
    ) -> Result<(), AllocError>
        ensures { OnOk result (paired self.new ≡ pass_all_up (map expression_view (values_of expressions.now)) arguments.now pairs.now (paired self.old)) }
    {
        for pair in pairs {
            self.pass_up(expressions, arguments, *pair)?;
        }
        Ok(())
    }

    /// The same for a callee's info. If each pair of a table is the same pair in the caller, and the caller's pairs
    /// are the first of them, the table is shared, and nothing is copied. The error is out of memory.
    pub fn join(
        &mut self,
        expressions: &Expressions,
        arguments: &[Handle<key::Expression>],
        callee: &SampledPairs,
    ) -> Result<(), AllocError>
        ensures { OnOk result (paired self.new ≡ pass_all_up (map expression_view (values_of expressions.now)) arguments.now callee.now.items (paired self.old)) }
    {
        if passes_all_on(expressions, arguments, callee) {
            if self.pairs.is_front_of(callee.as_slice()) {
                self.pairs = PairList::shared(self.pairs.allocator(), callee.share()?);
                return Ok(());
            }
            if self.pairs.begins_with(callee.as_slice()) {
                return Ok(());
            }
        }
        self.pass_all_up(expressions, arguments, callee.as_slice())
    }
}
