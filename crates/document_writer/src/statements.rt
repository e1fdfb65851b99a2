// Writes statements.

use crate::writer::Writer;
use ir_arena::handle::Handle;
use ir_arena::range::Range;
use ir_blocks::{
    AtomicFunction, Block, RayPipelineFunction, RayQueryFunction, Statement, SwitchCase,
};
use ir_flags::Barrier;
use ir_kinds::SwitchValue;
use ir_types::{CooperativeData, key};

type E = Handle<key::Expression>;

impl Writer {
    /// Writes a block.
    #[cycle(blocks)]
    pub fn body(&mut self, block: &Block) {
        self.open();
        for statement in block.as_slice() {
            self.open();
            self.statement(statement);
            self.close();
        }
        self.close();
    }

    // Writes the elements of a statement's array.
    #[cycle(blocks)]
    fn statement(&mut self, statement: &Statement) {
        match statement {
            Statement::Emit(range) => self.emit(range),
            Statement::Block(block) => {
                self.word("Block");
                self.body(block);
            }
            Statement::If {
                condition,
                accept,
                reject,
            } => {
                self.one("If", *condition);
                self.body(accept);
                self.body(reject);
            }
            Statement::Switch { selector, cases } => {
                self.one("Switch", *selector);
                self.cases(cases);
            }
            Statement::Loop {
                body,
                continuing,
                break_if,
            } => {
                self.word("Loop");
                self.body(body);
                self.body(continuing);
                self.maybe(*break_if);
            }
            Statement::Break => self.word("Break"),
            Statement::Continue => self.word("Continue"),
            Statement::Return { value } => self.returned(*value),
            Statement::Kill => self.word("Kill"),
            Statement::ControlBarrier(barrier) => self.barrier("ControlBarrier", *barrier),
            Statement::MemoryBarrier(barrier) => self.barrier("MemoryBarrier", *barrier),
            Statement::Store { pointer, value } => self.two("Store", *pointer, *value),
            Statement::ImageStore { .. } => self.image_store(statement),
            Statement::Atomic { .. } => self.atomic(statement),
            Statement::ImageAtomic { .. } => self.image_atomic(statement),
            Statement::WorkGroupUniformLoad { pointer, result } => {
                self.two("WorkGroupUniformLoad", *pointer, *result);
            }
            Statement::Call { .. } => self.call(statement),
            Statement::RayQuery { query, fun } => self.ray_query(*query, *fun),
            Statement::SubgroupBallot { result, predicate } => self.ballot(*result, *predicate),
            Statement::SubgroupCollectiveOperation { .. } => self.collective(statement),
            Statement::SubgroupGather { .. } => self.gather(statement),
            Statement::CooperativeStore { target, block } => {
                self.cooperative_store(*target, *block);
            }
            Statement::RayPipelineFunction(fun) => self.ray_pipeline(*fun),
        }
    }
}

impl Writer {
    #[cycle(blocks)]
    fn cases(&mut self, cases: &[SwitchCase]) {
        self.open();
        for case in cases {
            self.open();
            self.value(case.value);
            self.body(&case.body);
            self.truth(case.fall_through);
            self.close();
        }
        self.close();
    }

    fn value(&mut self, value: SwitchValue) {
        match value {
            SwitchValue::I32(value) => {
                self.begin("I32");
                self.signed(i64::from(value));
            }
            SwitchValue::U32(value) => {
                self.begin("U32");
                self.number(u64::from(value));
            }
            SwitchValue::Default => self.begin("Default"),
        }
        self.close();
    }

    fn emit(&mut self, range: &Range<key::Expression>) {
        let places = range.index_range();
        self.word("Emit");
        self.number(u64::from(places.start));
        self.number(u64::from(places.end));
    }

    fn returned(&mut self, value: Option<E>) {
        self.word("Return");
        self.maybe(value);
    }

    fn barrier(&mut self, word: &str, barrier: Barrier) {
        self.word(word);
        self.set_of(barrier);
    }

    fn call(&mut self, statement: &Statement) {
        let Statement::Call {
            function,
            arguments,
            result,
        } = statement
        else {
            return;
        };
        self.one("Call", *function);
        self.handles(arguments);
        self.maybe(*result);
    }

    fn atomic(&mut self, statement: &Statement) {
        let Statement::Atomic {
            pointer,
            fun,
            value,
            result,
        } = *statement
        else {
            return;
        };
        self.one("Atomic", pointer);
        self.atomic_function(fun);
        self.handle(value);
        self.maybe(result);
    }

    /// Writes an atomic function.
    pub fn atomic_function(&mut self, fun: AtomicFunction) {
        let word = match fun {
            AtomicFunction::Add => "Add",
            AtomicFunction::Subtract => "Subtract",
            AtomicFunction::And => "And",
            AtomicFunction::ExclusiveOr => "ExclusiveOr",
            AtomicFunction::InclusiveOr => "InclusiveOr",
            AtomicFunction::Min => "Min",
            AtomicFunction::Max => "Max",
            AtomicFunction::Exchange { compare } => {
                self.begin("Exchange");
                self.maybe(compare);
                return self.close();
            }
        };
        self.alone(word);
    }

    fn ray_query(&mut self, query: E, fun: RayQueryFunction) {
        self.one("RayQuery", query);
        self.open();
        match fun {
            RayQueryFunction::Initialize {
                acceleration_structure,
                descriptor,
            } => self.two("Initialize", acceleration_structure, descriptor),
            RayQueryFunction::Proceed { result } => self.one("Proceed", result),
            RayQueryFunction::GenerateIntersection { hit_t } => {
                self.one("GenerateIntersection", hit_t);
            }
            RayQueryFunction::ConfirmIntersection => self.word("ConfirmIntersection"),
            RayQueryFunction::Terminate => self.word("Terminate"),
        }
        self.close();
    }

    fn cooperative_store(&mut self, target: E, block: CooperativeData) {
        self.one("CooperativeStore", target);
        self.cooperative_data(block);
    }

    /// Writes the memory operand of a cooperative matrix.
    pub fn cooperative_data(&mut self, block: CooperativeData) {
        self.handle(block.pointer);
        self.handle(block.stride);
        self.truth(block.row_major);
    }

    fn ray_pipeline(&mut self, fun: RayPipelineFunction) {
        self.word("RayPipelineFunction");
        let RayPipelineFunction::TraceRay {
            acceleration_structure,
            descriptor,
            payload,
        } = fun;
        self.open();
        self.two("TraceRay", acceleration_structure, descriptor);
        self.handle(payload);
        self.close();
    }
}
