// The context of lowering.

use crate::declared::Declared;
use crate::values::{Operand, Value, number_of};
use ir_types::Expression;
use std::alloc::Global;
use wgsl_constants::Store;
use wgsl_names::{Names, Scopes};
use wgsl_text::{Extent, Failure, WgslError};
use wgsl_tokens::Mark;
use wgsl_tree::{Step, Tree};
use wgsl_types::{Builder, Shape, TypeHandle, TypeTable};

/// The maximum number of nested blocks around a statement, where a switch counts as two. Documents have the same limit.
pub const MAX_LEVEL: u32 = 60;

/// The part of a constant expression that is not evaluated: the right operand of `&&` or `||` whose left operand decides the result.
#[derive(Clone, Copy)]
pub struct Skipped {
    /// The result.
    pub value: bool,
    /// The span of the expression up to the last skipped step.
    pub extent: Extent,
    /// The number of operators whose right operands contain the next step.
    pub depth: u32,
}

/// The state of lowering: the parsed text, and the builder that IR is emitted into.
pub struct Lowering<B: Builder> {
    /// The allocator.
    pub alloc: Global,
    /// The text.
    pub tree: Tree,
    /// What its identifiers at module scope denote.
    pub names: Names,
    /// Its lowered declarations.
    pub items: Vec<Declared>,
    /// The parameter types of its functions.
    pub arguments: Vec<Shape>,
    /// Its arrays, structs and pointers.
    pub table: TypeTable,
    /// Its constants.
    pub store: Store,
    /// The identifiers in scope in the current function.
    pub scopes: Scopes<Value>,
    /// The operand stack.
    pub stack: Vec<Operand>,
    /// The number of blocks around the current statement, as [`MAX_LEVEL`] counts them.
    pub level: u32,
    /// Whether the expression is that of a `const` or a `const_assert` of the module, where a right operand of `&&` or `||` may be
    /// skipped.
    pub skips: bool,
    /// The right operand that is skipped, if the next step belongs to one.
    pub skipped: Option<Skipped>,
    /// The builder.
    pub builder: B,
}

impl<B: Builder> Lowering<B> {
    /// The initial state.
    pub fn new(
        alloc: Global,
        tree: Tree,
        names: Names,
        builder: B,
        failed: &mut Failure,
    ) -> Lowering<B> {
        let items = failed.table(alloc, Declared::Nothing, tree.items.len());
        let store = Store::new(alloc, tree.tokens.list.len());
        let scopes = Scopes::new(alloc, tree.tokens.names.len(), failed);
        Lowering {
            alloc,
            tree,
            names,
            items,
            arguments: Vec::new(alloc),
            table: TypeTable::new(alloc),
            store,
            scopes,
            stack: Vec::new(alloc),
            level: 0,
            skips: false,
            skipped: None,
            builder,
        }
    }

    /// The builder; everything else is dropped.
    pub fn into_builder(self) -> B {
        let Lowering {
            alloc: _,
            tree: _tree,
            names: _names,
            items: _items,
            arguments: _arguments,
            table: _table,
            store: _store,
            scopes: _scopes,
            stack: _stack,
            level: _,
            skips: _,
            skipped: _,
            builder,
        } = self;
        builder
    }

    /// Reports an error.
    pub fn fail(&mut self, error: WgslError) {
        self.builder.fail(error);
    }

    /// Reports that the text is invalid WGSL.
    pub fn wrong(&mut self, text: &'static str, extent: Extent) {
        self.builder.fail(WgslError::malformed(text, extent));
    }

    /// Reports that a construct is unsupported.
    pub fn unsupported(&mut self, text: &'static str, extent: Extent) {
        self.builder.fail(WgslError::unsupported(text, extent));
    }

    /// Reports that what an identifier denotes is unsupported.
    pub fn unsupported_name(&mut self, text: &'static str, extent: Extent) {
        self.builder.fail(WgslError::unsupported_name(text, extent));
    }

    /// Whether an error was reported.
    pub fn has_failed(&self) -> bool {
        self.builder.has_failed()
    }

    /// Reports an out-of-memory failure, if there was one.
    pub fn join(&mut self, failed: &Failure) {
        if let Some(error) = failed.first {
            self.builder.fail(error);
        }
    }

    /// Checks the nesting level of a block. It is an error if it is too deep.
    pub fn set_level(&mut self, level: u32, extent: Extent) {
        self.level = level;
        if level > MAX_LEVEL {
            self.unsupported("blocks nested more than 60 deep", extent);
        }
    }

    /// The identifier at a token.
    pub fn name_at(&mut self, token: u32) -> Option<String> {
        self.words_at(self.extent(token))
    }

    /// The text of a span.
    pub fn words_at(&mut self, extent: Extent) -> Option<String> {
        match String::from_utf8_lossy(self.alloc, self.tree.tokens.part(extent)) {
            Ok(name) => Some(name),
            Err(_) => {
                self.builder.fail(WgslError::MEMORY);
                None
            }
        }
    }

    /// The word index of the identifier at a token.
    pub fn word_at(&self, token: u32) -> u32 {
        match self.tree.tokens.mark(token as usize) {
            Mark::Name(number) => number,
            Mark::None | Mark::Open | Mark::Close => u32::MAX,
        }
    }

    /// The span of a token.
    pub fn extent(&self, token: u32) -> Extent {
        self.tree.tokens.at(token as usize).extent()
    }

    /// The step at an index.
    pub fn step_at(&self, place: u32) -> Option<Step> {
        self.tree.steps.get(place as usize).copied()
    }

    /// Pushes an operand.
    pub fn push(&mut self, operand: Operand) {
        if self.stack.push(operand).is_err() {
            self.builder.fail(WgslError::MEMORY);
        }
    }

    /// Pops an operand.
    pub fn pop(&mut self) -> Operand {
        self.stack.pop().unwrap_or(Operand::NOTHING)
    }

    /// Pops operands; they are in order.
    pub fn take(&mut self, count: u32) -> Vec<Operand> {
        let mut taken = Vec::new(self.alloc);
        let start = self.stack.len().saturating_sub(count as usize);
        let mut failed = Failure::NONE;
        for place in start..self.stack.len() {
            let operand = self.stack.get(place).copied().unwrap_or(Operand::NOTHING);
            failed.push(&mut taken, operand);
        }
        self.stack.truncate(start);
        self.join(&failed);
        taken
    }

    /// Adds an expression that an `Emit` statement has to cover.
    pub fn compute(&mut self, expression: Expression, extent: Extent) -> u32 {
        number_of(self.builder.compute(expression, extent))
    }

    /// Adds an expression that needs no `Emit`, or is the result of a statement.
    pub fn place(&mut self, expression: Expression, extent: Extent) -> u32 {
        number_of(self.builder.place(expression, extent))
    }

    /// The handle of a type.
    pub fn type_handle(&mut self, shape: Shape, extent: Extent) -> TypeHandle {
        self.table.handle(&mut self.builder, shape, extent)
    }
}
