// Writes subgroup statements.

use crate::writer::Writer;
use ir_arena::handle::Handle;
use ir_blocks::{GatherMode, Statement};
use ir_types::key;

type E = Handle<key::Expression>;

impl Writer {
    /// Writes a ballot.
    pub fn ballot(&mut self, answer: E, predicate: Option<E>) {
        self.one("SubgroupBallot", answer);
        self.maybe(predicate);
    }

    /// Writes a collective operation.
    pub fn collective(&mut self, statement: &Statement) {
        let Statement::SubgroupCollectiveOperation {
            op,
            collective_op,
            argument,
            result,
        } = *statement
        else {
            return;
        };
        self.word("SubgroupCollectiveOperation");
        self.word_of(op);
        self.word_of(collective_op);
        self.handle(argument);
        self.handle(result);
    }

    /// Writes a gather.
    pub fn gather(&mut self, statement: &Statement) {
        let Statement::SubgroupGather {
            mode,
            argument,
            result,
        } = *statement
        else {
            return;
        };
        self.word("SubgroupGather");
        self.open();
        self.mode(mode);
        self.close();
        self.handle(argument);
        self.handle(result);
    }

    fn mode(&mut self, mode: GatherMode) {
        match mode {
            GatherMode::BroadcastFirst => self.word("BroadcastFirst"),
            GatherMode::Broadcast(index) => self.one("Broadcast", index),
            GatherMode::Shuffle(index) => self.one("Shuffle", index),
            GatherMode::ShuffleDown(index) => self.one("ShuffleDown", index),
            GatherMode::ShuffleUp(index) => self.one("ShuffleUp", index),
            GatherMode::ShuffleXor(index) => self.one("ShuffleXor", index),
            GatherMode::QuadBroadcast(index) => self.one("QuadBroadcast", index),
            GatherMode::QuadSwap(direction) => {
                self.word("QuadSwap");
                self.word_of(direction);
            }
        }
    }
}
