// From blocks with merges to steps (section 2.11, structured control flow).

use crate::blocks::{Block, Blocks, FunctionBlocks};
use crate::meanings::{Environment, Meaning};
use crate::scopes::Scopes;
use crate::steps::{BreakIf, Case, CaseBody, Choice, FunctionSteps, Step};
use crate::switches::{SEVERAL, Switch, Target, empty_case};
use spirv_numbers::ops;
use spirv_words::{
    Failure, Feature, FunctionParts, Instruction, Listing, Malformed, SpirvError, as_word,
    number_at,
};
use std::alloc::Global;

// How many blocks may be nested around a statement, where a switch counts as two: documents nest no deeper, and statements are
// walked by recursion.
const MAX_NESTING: u32 = 60;

// What is open around the block that is walked.
#[derive(Clone, Copy)]
struct Frame {
    part: Part,
    // where its construct merges
    merge: Option<u32>,
    outside: Environment,
    // how many blocks are around its statements
    level: u32,
}

// The parts of constructs.
#[derive(Clone, Copy)]
enum Part {
    // of an if, where its condition holds, with the block where it does not
    Accept(Option<u32>),
    // where it does not
    Reject,
    // the body of a loop, and whether the loop around it is flagged
    Body {
        header: u32,
        continuing: u32,
        flagged: bool,
    },
    // the continuing part of this loop
    Continuing {
        token: u32,
        flagged: bool,
    },
    // a case of the innermost switch, with its block
    Case(u32),
}

/// The steps of all functions, with what they need.
#[derive(Drop)]
pub struct Steps {
    /// The steps.
    pub steps: Vec<Step>,
    /// The cases of their switches.
    pub cases: Vec<Case>,
    /// The scope of each block.
    pub scopes: Scopes,
}

// What walks the blocks of functions. What is wrong first is kept, and the walk ends after the step that found it.
#[derive(Drop)]
struct Walk {
    blocks: Blocks,
    function: FunctionBlocks,
    steps: Vec<Step>,
    cases: Vec<Case>,
    scopes: Scopes,
    functions: Vec<FunctionSteps>,
    frames: Vec<Frame>,
    environment: Environment,
    // what a branch to each block means
    meanings: Vec<Meaning>,
    // the blocks where that changed, with what it was before
    changed: Vec<(u32, Meaning)>,
    // how many constructs there were
    tokens: u32,
    // what leaves the loop whose continuing part ends next
    condition: Option<BreakIf>,
    // whether the innermost loop is left from a switch in it
    flagged: bool,
    // the innermost switch, and those around it
    switch: Switch,
    outer: Vec<Switch>,
    // the targets of all these switches
    targets: Vec<Target>,
    // target and word, the targets counted from the first of their switch
    choices: Vec<(u32, u32)>,
    // what is wrong first
    failed: Failure,
}

// The block where the walk goes on; none where a path ends.
type Next = Option<u32>;

/// Walks these functions of a module. Returns its blocks, and the steps of all and of each.
pub fn steps_of(
    alloc: Global,
    listing: &Listing,
    blocks: Blocks,
    functions: &[u32],
    failed: &mut Failure,
) -> (Blocks, Steps, Vec<FunctionSteps>) {
    let mut walk = Walk::new(alloc, blocks, *failed);
    for number in functions {
        if let Some(function) = walk.blocks.functions.get(*number as usize).copied() {
            let first = as_word(walk.steps.len());
            walk.walk_function(listing, function);
            let steps = FunctionSteps {
                function: *number,
                first,
                end: as_word(walk.steps.len()),
            };
            walk.failed.push(&mut walk.functions, steps);
        }
    }
    *failed = walk.failed;
    let Walk {
        blocks,
        steps,
        cases,
        scopes,
        functions,
        ..
    } = walk;
    let steps = Steps {
        steps,
        cases,
        scopes,
    };
    (blocks, steps, functions)
}

impl Walk {
    // One that has walked nothing.
    fn new(alloc: Global, blocks: Blocks, mut failed: Failure) -> Walk {
        let count = blocks.blocks.len();
        let scopes = Scopes::new(alloc, count, &mut failed);
        let meanings = failed.table(alloc, Meaning::Nothing, count);
        Walk {
            blocks,
            function: FunctionBlocks {
                parts: FunctionParts { start: 0, end: 0 },
                first: 0,
                end: 0,
            },
            steps: Vec::new(alloc),
            cases: Vec::new(alloc),
            scopes,
            functions: Vec::new(alloc),
            frames: Vec::new(alloc),
            environment: Environment::START,
            meanings,
            changed: Vec::new(alloc),
            tokens: 0,
            condition: None,
            flagged: false,
            switch: Switch::NONE,
            outer: Vec::new(alloc),
            targets: Vec::new(alloc),
            choices: Vec::new(alloc),
            failed,
        }
    }

    // Walks the blocks of a function.
    fn walk_function(&mut self, listing: &Listing, function: FunctionBlocks) {
        let parts = function.parts;
        self.function = function;
        self.scopes.open(&mut self.failed);
        if function.first >= function.end {
            let error = listing.at(parts.end).unsupported_by(Feature::NoBody);
            self.failed.fail(error);
        }
        let mut next = Some(function.first);
        let words = parts.end.saturating_sub(parts.start);
        for _ in 0..u64::from(words).saturating_mul(16).saturating_add(64) {
            if self.failed.first.is_some() {
                return;
            }
            next = match next {
                Some(block) => self.visit(listing, block),
                None => match self.frames.pop() {
                    Some(frame) => self.leave(frame),
                    None => {
                        self.scopes.close();
                        self.restore(Environment::START);
                        return;
                    }
                },
            };
        }
        let error = listing.at(parts.start).unsupported_by(Feature::ControlFlow);
        self.failed.fail(error);
    }

    // How many blocks are around the next statement.
    fn level(&self) -> u32 {
        match self.frames.last() {
            Some(frame) => frame.level,
            None => 0,
        }
    }

    // A step more.
    fn add(&mut self, step: Step) {
        self.failed.push(&mut self.steps, step);
    }

    // Opens a part of a construct after this step, with a scope inside the innermost one.
    fn open(&mut self, step: Step, frame: Frame) {
        self.add(step);
        self.scopes.open(&mut self.failed);
        self.failed.push(&mut self.frames, frame);
        self.environment.exit = u32::MAX;
    }

    // Ends the innermost scope with this step.
    fn end_scope(&mut self, step: Step) {
        self.scopes.close();
        self.add(step);
    }

    // What a branch to a block means.
    fn meaning_of(&self, block: u32) -> Meaning {
        let meaning = self.meanings.get(block as usize).copied();
        meaning.unwrap_or(Meaning::Nothing)
    }

    // A branch to a block means this from now on.
    fn set_meaning(&mut self, block: u32, meaning: Meaning) {
        if let Some(place) = self.meanings.get_mut(block as usize) {
            let before = *place;
            *place = meaning;
            self.failed.push(&mut self.changed, (block, before));
            self.environment.changes = self.changed.len();
        }
    }

    // Puts back what was outside of a construct.
    fn restore(&mut self, outside: Environment) {
        for _ in outside.changes..self.changed.len() {
            let last = self.changed.pop();
            let (block, meaning) = last.unwrap_or((u32::MAX, Meaning::Nothing));
            if let Some(place) = self.meanings.get_mut(block as usize) {
                *place = meaning;
            }
        }
        self.environment = outside;
    }

    // The block that an operand names. None is wrong, and has the greatest number.
    fn target(&mut self, listing: &Listing, instruction: &Instruction, place: usize) -> u32 {
        let what = match listing.operand(instruction, place) {
            Some(label) => match self.blocks.labelled(&self.function, label) {
                Some(block) => return block,
                None => Malformed::NoBlock,
            },
            None => Malformed::MissingOperand,
        };
        self.failed.fail(instruction.malformed(what));
        u32::MAX
    }

    // What is not translated about walking to a block where a branch means this, if anything is not.
    fn refusal(&self, block: u32, meaning: Meaning) -> Option<Feature> {
        let here = &self.environment;
        match meaning {
            Meaning::Nothing if self.level() > MAX_NESTING => Some(Feature::DeepControlFlow),
            Meaning::Nothing if self.scopes.of_block(block).is_some() => {
                Some(Feature::BlockReachedTwice)
            }
            Meaning::Merge(token) | Meaning::Fall(token, _) if token != here.selection => {
                Some(Feature::BranchOutOfTwo)
            }
            Meaning::Break(token) if token < here.floor => Some(Feature::BreakInContinuing),
            Meaning::Break(token) if token != here.breakable && token != here.looping => {
                Some(Feature::OuterBreak)
            }
            Meaning::Continue(token) if token != here.looping => Some(Feature::OuterContinue),
            Meaning::Back(token) if token != here.back => Some(Feature::OuterHeader),
            _ => None,
        }
    }

    // Walks to a block: does what a branch there means, or the block's own instructions. Answers where to go on.
    fn visit(&mut self, listing: &Listing, number: u32) -> Next {
        let block = self.blocks.get(number).unwrap_or(Block::NONE);
        let meaning = self.meaning_of(number);
        if let Some(feature) = self.refusal(number, meaning) {
            let error = listing.at(block.end).unsupported_by(feature);
            self.failed.fail(error);
            return None;
        }
        match meaning {
            Meaning::Nothing => return self.begin(listing, number, &block),
            Meaning::Fall(_, target) => self.fall(target),
            Meaning::Break(token) => self.leave_construct(token),
            Meaning::Continue(_) => self.add(Step::Continue),
            Meaning::Merge(_) | Meaning::Back(_) => {}
        }
        None
    }

    // Leaves the innermost loop or switch. Where it leaves a loop from a switch in it, a flag says so after the switch.
    fn leave_construct(&mut self, token: u32) {
        if token != self.environment.breakable {
            self.flagged = true;
            self.switch.leaves = true;
            self.add(Step::SetFlag(token));
        }
        self.add(Step::Break);
    }

    // The nearest case goes on with this target of its switch.
    fn fall(&mut self, to: u32) {
        let case = self.environment.case;
        if let Some(target) = self.targets.get_mut(case as usize) {
            let differs = target.falls.unwrap_or(to) != to;
            target.falls = Some(if differs { SEVERAL } else { to });
        }
        // a default that no word chooses stands after the case that goes on with it, else before the one that it goes on
        // with, else last
        if self.switch.listed == self.switch.default {
            if to == self.switch.default {
                self.switch.listed = case.saturating_add(1);
            } else if case == self.switch.default {
                self.switch.listed = to;
            }
        }
    }

    // Walks a block itself: opens the loop that it begins, and takes its instructions and its end.
    fn begin(&mut self, listing: &Listing, number: u32, block: &Block) -> Next {
        let mut selected = None;
        if let Some(place) = block.merge {
            let merge = listing.at(place);
            let to = self.target(listing, &merge, 0);
            if merge.opcode == ops::SELECTION_MERGE {
                selected = Some(to);
            } else {
                let continuing = self.target(listing, &merge, 1);
                self.begin_loop(number, to, continuing);
            }
        }
        self.scopes.enter(number);
        self.add(Step::Block(number));
        let end = listing.at(block.end);
        match end.opcode {
            ops::BRANCH if selected.is_some() => {
                self.failed.fail(end.unsupported_by(Feature::MergeAtBranch));
            }
            ops::BRANCH => return Some(self.target(listing, &end, 0)),
            ops::BRANCH_CONDITIONAL => return self.conditional(listing, number, &end, selected),
            ops::SWITCH => return self.begin_switch(listing, number, &end, selected),
            ops::RETURN | ops::RETURN_VALUE | ops::EMIT_MESH_TASKS_EXT => {
                self.add(Step::Return(number));
            }
            ops::KILL | ops::TERMINATE_INVOCATION => self.add(Step::Kill),
            ops::UNREACHABLE => {}
            _ => self.failed.fail(end.unsupported()),
        }
        None
    }

    // Opens the loop that this block begins.
    fn begin_loop(&mut self, header: u32, merge: u32, continuing: u32) {
        let outside = self.environment;
        let token = self.tokens.saturating_add(1);
        self.tokens = token.saturating_add(1);
        self.set_meaning(merge, Meaning::Break(token));
        self.set_meaning(continuing, Meaning::Continue(token));
        self.environment.selection = self.tokens;
        self.environment.breakable = token;
        self.environment.looping = token;
        self.environment.back = 0;
        let part = Part::Body {
            header,
            continuing,
            flagged: self.flagged,
        };
        self.flagged = false;
        let merge = Some(merge);
        let frame = Frame {
            part,
            merge,
            outside,
            level: self.level().saturating_add(1),
        };
        self.open(Step::Loop, frame);
    }

    // Whether a branch to this block goes back to the header of the loop whose continuing part is nearest.
    fn goes_back(&self, block: u32) -> bool {
        matches!(self.meaning_of(block), Meaning::Back(token) if token == self.environment.back)
    }

    // The condition that ends a loop, where the branch at the end of this block is to its header and to its merge.
    fn ends_loop(&self, block: u32, accept: u32, reject: u32) -> Option<BreakIf> {
        let exit = self.environment.exit;
        let negated = reject == exit && self.goes_back(accept);
        if negated || accept == exit && self.goes_back(reject) {
            Some(BreakIf { block, negated })
        } else {
            None
        }
    }

    // A branch on a condition.
    fn conditional(
        &mut self,
        listing: &Listing,
        number: u32,
        end: &Instruction,
        merge: Option<u32>,
    ) -> Next {
        let accept = self.target(listing, end, 1);
        let reject = self.target(listing, end, 2);
        let outside = self.environment;
        if let Some(to) = merge {
            // the selection ends there, unless a branch there means something else
            if matches!(self.meaning_of(to), Meaning::Nothing) {
                self.tokens = self.tokens.saturating_add(1);
                self.set_meaning(to, Meaning::Merge(self.tokens));
                self.environment.selection = self.tokens;
            }
        } else {
            self.condition = self.ends_loop(number, accept, reject);
            if self.condition.is_some() {
                return None;
            }
            if accept == reject {
                return Some(accept);
            }
        }
        let frame = Frame {
            part: Part::Accept(if accept == reject { None } else { Some(reject) }),
            merge,
            outside,
            level: self.level().saturating_add(1),
        };
        self.open(Step::If(number), frame);
        Some(accept)
    }

    // A branch on a selector.
    fn begin_switch(
        &mut self,
        listing: &Listing,
        number: u32,
        end: &Instruction,
        merge: Option<u32>,
    ) -> Next {
        let Some(merge) = merge else {
            self.failed
                .fail(end.unsupported_by(Feature::SwitchWithoutMerge));
            return None;
        };
        let outside = self.environment;
        let targets = as_word(self.targets.len());
        self.failed.push(&mut self.outer, self.switch);
        self.switch = Switch {
            looping: outside.looping,
            block: number,
            word: end.start,
            step: as_word(self.steps.len()),
            merge,
            targets,
            choices: self.choices.len(),
            next: targets,
            ..Switch::NONE
        };
        self.add(Step::Kill);
        let token = self.tokens.saturating_add(1);
        self.tokens = token.saturating_add(1);
        self.environment.selection = self.tokens;
        self.environment.breakable = token;
        self.environment.exit = u32::MAX;
        self.add_targets(listing, end);
        // a target that only leaves the switch is no case to go on with
        self.set_meaning(merge, Meaning::Break(token));
        self.next_case(outside)
    }

    // The values and blocks that a switch names; a value of two words is chosen by its place among them.
    fn add_targets(&mut self, listing: &Listing, end: &Instruction) {
        let words = self.failed.take(words_of(listing, end), 1);
        let operands = listing.operands(end);
        let mut label = words.saturating_add(2);
        for place in 0..as_word(operands.len()) {
            if label >= operands.len() {
                break;
            }
            let word = number_at(operands, as_word(label.saturating_sub(words)));
            let chosen = if words == 1 { word } else { place };
            let target = self.switch_target(listing, end, label);
            let choice = target.saturating_sub(self.switch.targets);
            self.failed.push(&mut self.choices, (choice, chosen));
            label = label.saturating_add(words).saturating_add(1);
        }
        let next = as_word(self.targets.len());
        let default = self.switch_target(listing, end, 1);
        self.switch.default = default;
        if default == next {
            self.switch.listed = default;
        }
    }

    // The target of the innermost switch that is the block that an operand names; a new one where it is none so far.
    fn switch_target(&mut self, listing: &Listing, end: &Instruction, place: usize) -> u32 {
        let block = self.target(listing, end, place);
        let selection = self.environment.selection;
        match self.meaning_of(block) {
            Meaning::Fall(token, target) if token == selection => target,
            _ => {
                let number = as_word(self.targets.len());
                let target = Target {
                    block,
                    start: 0,
                    falls: None,
                };
                self.failed.push(&mut self.targets, target);
                self.set_meaning(block, Meaning::Fall(selection, number));
                number
            }
        }
    }

    // Goes on with the next case of the innermost switch, or ends it. A target that only leaves the switch has no body.
    fn next_case(&mut self, outside: Environment) -> Next {
        let step = as_word(self.steps.len());
        for number in self.switch.next..as_word(self.targets.len()) {
            let Some(target) = self.targets.get_mut(number as usize) else {
                break;
            };
            let block = target.block;
            if block != self.switch.merge {
                target.start = step;
                self.switch.next = number.saturating_add(1);
                self.environment.case = number;
                self.set_meaning(block, Meaning::Nothing);
                self.scopes.open(&mut self.failed);
                let frame = Frame {
                    part: Part::Case(block),
                    merge: None,
                    outside,
                    level: self.level().saturating_add(2),
                };
                self.failed.push(&mut self.frames, frame);
                return Some(block);
            }
        }
        self.end_switch(step, outside)
    }

    // Ends the innermost switch, whose last case ends before this step.
    fn end_switch(&mut self, after: u32, outside: Environment) -> Next {
        let ended = self.switch;
        let first = as_word(self.cases.len());
        self.list_cases();
        if let Some(step) = self.steps.get_mut(ended.step as usize) {
            *step = Step::Switch {
                block: ended.block,
                first,
                count: as_word(self.cases.len()).saturating_sub(first),
                after,
            };
        }
        self.targets.truncate(ended.targets as usize);
        self.choices.truncate(ended.choices);
        self.switch = self.outer.pop().unwrap_or(Switch::NONE);
        if ended.leaves {
            // so is the switch around it, where that stands in the same loop
            self.switch.leaves |= self.switch.looping == ended.looping;
            self.add(Step::BreakIfFlag(ended.looping));
        }
        self.restore(outside);
        Some(ended.merge)
    }

    // Lists the cases of the innermost switch in their order.
    fn list_cases(&mut self) {
        let switch = self.switch;
        let choices = self.choices.get(switch.choices..).unwrap_or(&[]);
        let end = as_word(self.targets.len());
        let count = end.saturating_sub(switch.targets) as usize;
        let words = self
            .failed
            .groups(*self.choices.allocator(), count, choices);
        let mut falls = None;
        let mut parted = false;
        for place in switch.targets..end {
            let number = switch.target_at(place);
            let target = self.targets.get(number as usize).copied();
            let target = target.unwrap_or(Target::NONE);
            parted |= falls.unwrap_or(number) != number;
            falls = target.falls;
            let words = words.of(number.saturating_sub(switch.targets) as usize);
            self.list_case(&target, words, number == switch.default);
        }
        drop(words);
        // a case that does not stand before the one that it goes on with; nothing is after the last
        if parted || falls.is_some() {
            let error = SpirvError::untranslated(Feature::FallsToOther, switch.word);
            self.failed.fail(error);
        }
    }

    // Lists the words that choose a target, and the default if it is that, and its body with the last of these.
    fn list_case(&mut self, target: &Target, words: &[u32], is_default: bool) {
        for word in words {
            let case = empty_case(Choice::Word(*word));
            self.failed.push(&mut self.cases, case);
        }
        if is_default {
            let case = empty_case(Choice::Default);
            self.failed.push(&mut self.cases, case);
        }
        if let Some(case) = self.cases.last_mut() {
            case.falls_through = target.falls.is_some();
            case.body = if target.block == self.switch.merge {
                CaseBody::Break
            } else {
                CaseBody::Steps(target.start)
            };
        }
    }

    // Ends what is open. Answers where to go on.
    fn leave(&mut self, frame: Frame) -> Next {
        match frame.part {
            Part::Accept(reject) => {
                self.scopes.close();
                let part = Part::Reject;
                self.open(Step::Else, Frame { part, ..frame });
                return reject;
            }
            Part::Body {
                header,
                continuing,
                flagged,
            } => return self.begin_continuing(header, continuing, flagged, frame),
            Part::Case(block) => {
                self.end_scope(Step::EndCase);
                let here = self.environment;
                self.set_meaning(block, Meaning::Fall(here.selection, here.case));
                return self.next_case(frame.outside);
            }
            Part::Reject => self.end_scope(Step::EndIf),
            Part::Continuing { token, flagged } => self.end_loop(token, flagged),
        }
        self.restore(frame.outside);
        frame.merge
    }

    // Ends a loop: its flag is taken back where it has one. Then the loop around it is the innermost, flagged or not.
    fn end_loop(&mut self, token: u32, flagged: bool) {
        self.scopes.close();
        self.end_scope(Step::EndLoop(self.condition));
        self.condition = None;
        if self.flagged {
            self.add(Step::ClearFlag(token));
        }
        self.flagged = flagged;
    }

    // Opens the continuing part of the loop whose body this was.
    fn begin_continuing(
        &mut self,
        header: u32,
        continuing: u32,
        flagged: bool,
        body: Frame,
    ) -> Next {
        let token = self.environment.looping;
        let part = Part::Continuing { token, flagged };
        self.open(Step::Continuing, Frame { part, ..body });
        if continuing == header {
            return None;
        }
        let token = self.tokens.saturating_add(1);
        self.tokens = token;
        self.environment.selection = token;
        self.environment.breakable = 0;
        self.environment.looping = 0;
        self.environment.floor = token;
        self.environment.back = token;
        self.environment.exit = body.merge.unwrap_or(u32::MAX);
        self.set_meaning(continuing, Meaning::Nothing);
        self.set_meaning(header, Meaning::Back(token));
        Some(continuing)
    }
}

// How many words each value of a switch has.
fn words_of(listing: &Listing, end: &Instruction) -> Result<usize, SpirvError> {
    let Some(selector) = listing.operand(end, 0) else {
        return Err(end.malformed(Malformed::MissingOperand));
    };
    let ty = listing.defined(listing.defined(selector).ty);
    match listing.operand(&ty, 0) {
        Some(16 | 32) if ty.opcode == ops::TYPE_INT => Ok(1),
        Some(64) if ty.opcode == ops::TYPE_INT => Ok(2),
        _ => Err(end.unsupported_by(Feature::SwitchSelector)),
    }
}
